//! What a place expects of a value, and what the value is.

ghost use Rattle.std.specs.Prelude.{◌≡◌, Some, IfOk};
ghost use Rattle.std.specs.Option.{option_copied};
ghost use Rattle.hs_typing.specs.Rules as r;
ghost use Rattle.hs_typing.specs.Views as v;
ghost use Rattle.hs_typing.specs.Wishes as w;

use crate::shared::SharedType;
use crate::table::Table;
use crate::types::{is_same, kind_of};
use hs_base::memory::NoMemory;
use hs_values::ValType;
use hs_words::IntTy;

/// What a value is.
#[derive(Drop)]
pub enum Got {
    /// Of this type.
    Is(SharedType),
    /// Of another type than its place expects, whichever that is.
    Other,
    /// Nothing: what always exits gives no value.
    Never,
}

impl Got {
    /// The type of a value.
    pub fn ty(&self) -> Option<&ValType>
        ensures { option_copied result ≡ r.type_of (v.got_of self.now) }
    {
        match self {
            Got::Is(ty) => Some(ty.get()),
            Got::Other | Got::Never => None,
        }
    }

    /// Whether there is no value.
    pub fn is_never(&self) -> bool
        ensures { result ≡ w.is_never (v.got_of self.now) }
    {
        matches!(self, Got::Never)
    }

    /// Whether the value is of no type of its own.
    pub fn is_other(&self) -> bool
        ensures { result ≡ r.is_other (v.got_of self.now) }
    {
        matches!(self, Got::Other)
    }

    /// Whether it is of the type, where there is a value.
    pub fn is_of(&self, ty: &ValType) -> bool
        ensures { result ≡ r.is_of ty.now (v.got_of self.now) }
    {
        match self {
            Got::Is(own) => is_same(ty, own.get()),
            Got::Other => false,
            Got::Never => true,
        }
    }

    /// The same for one more that has it.
    ///
    /// # Errors
    ///
    /// `NoMemory` only for want of memory.
    pub fn share(&self) -> Result<Got, NoMemory>
        ensures { IfOk result (λ got. v.got_of got ≡ v.got_of self.now) }
    {
        match self {
            Got::Is(ty) => Ok(Got::Is(ty.share()?)),
            Got::Other => Ok(Got::Other),
            Got::Never => Ok(Got::Never),
        }
    }

    /// What the value of two branches is.
    pub fn joined(self, other: Got) -> Got
        ensures { v.got_of result ≡ w.joined (v.got_of self) (v.got_of other) }
    {
        match (self, other) {
            (Got::Never, got) => got,
            (got, Got::Never) => got,
            (Got::Is(ty), Got::Is(other)) => {
                if is_same(ty.get(), other.get()) {
                    Got::Is(ty)
                } else {
                    Got::Other
                }
            }
            (Got::Is(_), Got::Other) => Got::Other,
            (Got::Other, Got::Is(_) | Got::Other) => Got::Other,
        }
    }
}

/// What the place of an expression asks of its value.
#[derive(Clone, Copy)]
pub enum Wish<'w> {
    /// Nothing: it has no expected type.
    Free,
    /// This type; that the value is of another one is told of what is round it.
    Hint(&'w ValType),
    /// The type of the first of some branches; that the value is of another one is told of what has the branches.
    Same(&'w ValType),
    /// This type; another one breaks a rule at the value.
    Wants(&'w ValType),
    /// A sequence or an array of items of this type.
    Rows(&'w ValType),
}

/// What a bare expression takes from its place.
#[derive(Clone, Copy)]
pub enum Taken {
    /// That kind.
    Kind(IntTy),
    /// None, since no integer is expected.
    NoInteger,
}

impl<'w> Wish<'w> {
    /// The expected type.
    pub fn expected(self) -> Option<&'w ValType>
        ensures { v.expected_of (option_copied result) ≡ w.expected (v.wish_of self.entry) }
    {
        match self {
            Wish::Free | Wish::Rows(_) => None,
            Wish::Hint(ty) | Wish::Same(ty) | Wish::Wants(ty) => Some(ty),
        }
    }

    /// The same expected type, with nothing told at the value.
    pub fn hint(self) -> Wish<'w>
        ensures { v.wish_of result ≡ w.hint (v.wish_of self.entry) }
    {
        match self.expected() {
            Some(ty) => Wish::Hint(ty),
            None => Wish::Free,
        }
    }

    /// This type, or no expected type.
    pub fn wants_if(ty: Option<&'w ValType>) -> Wish<'w>
        ensures { v.wish_of result ≡ w.wants_if (option_copied ty.entry) }
    {
        match ty {
            Some(ty) => Wish::Wants(ty),
            None => Wish::Free,
        }
    }

    /// What a bare expression takes.
    pub fn taken(self) -> Taken
        ensures { v.taken_of result ≡ w.taken (w.expected (v.wish_of self.entry)) }
    {
        match self.expected() {
            None => Taken::Kind(IntTy::PUsize),
            Some(ty) => match kind_of(ty) {
                Some(kind) => Taken::Kind(kind),
                None => Taken::NoInteger,
            },
        }
    }

    /// Whether a bare expression of no type is refused at its place.
    pub fn asks_other(self) -> bool
        ensures { result ≡ r.asks_other (v.wish_of self.entry) }
    {
        matches!(self, Wish::Wants(_))
    }

    /// Whether `Ok(e)`, `Err(e)` and `None` lack an expected type.
    pub fn needs_type(self) -> bool
        ensures { result ≡ r.needs_type (v.wish_of self.entry) }
    {
        self.expected().is_none()
    }

    /// Whether a value is refused at its place.
    pub fn refuses<'a>(self, table: &Table<'a>, got: &Got) -> bool
        ensures { result ≡ r.other_type table.now.types.now (v.wish_of self.entry) (v.got_of got.now) }
    {
        match self {
            Wish::Free | Wish::Hint(_) | Wish::Same(_) => false,
            Wish::Wants(ty) => !got.is_of(ty),
            Wish::Rows(item) => match got {
                Got::Is(ty) => match table.item_of(ty.get()) {
                    Some(own) => !is_same(item, own),
                    None => true,
                },
                Got::Other => true,
                Got::Never => false,
            },
        }
    }

    /// What a place asks of the branches of what stands there.
    pub fn of_branches(self) -> Wish<'w>
        ensures { v.wish_of result ≡ w.branch_wish (v.wish_of self.entry) }
    {
        match self {
            Wish::Same(ty) => Wish::Wants(ty),
            _ => self,
        }
    }

    /// What is asked of the branches behind these, of which the first that does not always exit gives this: without an expected
    /// type its type is expected of them.
    ///
    /// # Errors
    ///
    /// `NoMemory` where that one is of no type of its own, which a place without an expected type refuses.
    pub fn after_first(self, first: &'w Got) -> Result<Wish<'w>, NoMemory>
        ensures { IfOk result (λ wish. v.wish_of wish ≡ w.behind_first (v.wish_of self.entry) (v.got_of first.now)) }
    {
        match (self, first) {
            (_, Got::Never) => Ok(self),
            (Wish::Free | Wish::Rows(_), Got::Is(ty)) => Ok(Wish::Same(ty.get())),
            (Wish::Free | Wish::Rows(_), Got::Other) => Err(NoMemory),
            (Wish::Hint(_) | Wish::Same(_) | Wish::Wants(_), _) => Ok(self),
        }
    }
}
