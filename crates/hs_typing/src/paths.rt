//! Which operation a path of a type stands for: for which types it is there, what it takes, and what it gives.

ghost use Rattle.std.specs.Prelude.{◌≡◌, [], ◌∷◌, Some, option_map, IfOk};
ghost use Rattle.hs_typing.specs.Called as c;
ghost use Rattle.hs_typing.specs.Operations as o;
ghost use Rattle.hs_typing.specs.Types as t;
ghost use Rattle.hs_typing.specs.Views as v;

use crate::ground::Ground;
use crate::operations::{
    Asks, Before, Called, byte_of, plain, public_of, reads_row, takes, when_for,
};
use crate::shared::SharedType;
use crate::words::is;
use hs_base::memory::NoMemory;
use hs_ops::{NumberOp, Operation, SingleOp};
use hs_values::ValType;
use hs_words::IntTy;

/// A path of an array type with so many items of a type.
#[tactic(auto, unfolding(crate::specs::Operations::row_named))]
fn array_path<'w>(
    own: &SharedType,
    length: u32,
    item: &'w ValType,
    name: &[u8],
) -> Result<Option<Called<'w>>, NoMemory>
    ensures { IfOk result (λ called. option_map c.called_of called ≡ o.row_named (o.array_paths (v.type_of own.now) (Some (length, item.now))) name.now) }
{
    if is(name, "new") {
        Ok(Some(Called {
            operation: Operation::Single(SingleOp::Make),
            asks: Asks::Nothing,
            gives: own.share()?,
            before: Before::Zeros(item, length),
            has_zero: true,
        }))
    } else if is(name, "from_seq") {
        Ok(Some(Called {
            operation: Operation::Single(SingleOp::ToArray),
            asks: Asks::One(reads_row(item)),
            gives: own.share()?,
            before: Before::Length(length),
            has_zero: true,
        }))
    } else {
        Ok(None)
    }
}

impl<'a> Ground<'a> {
    /// An operation on the bytes of a number of a kind, which gives the number.
    fn from_bytes<'w>(
        &'w self,
        operation: NumberOp,
        kind: IntTy,
    ) -> Result<Option<Called<'w>>, NoMemory>
        ensures { IfOk result (λ called. option_map c.called_of called ≡ o.when_for operation kind (o.reads_row (o.byte_type kind) ∷ []) (t.int kind)) }
    {
        let gives = self.int(kind)?;
        let row = reads_row(self.kinds.int(byte_of(kind)));
        Ok(when_for(operation, kind, Asks::One(row), gives))
    }

    /// A path of a kind.
    #[tactic(auto, unfolding(crate::specs::Operations::row_named))]
    fn kind_path<'w>(&'w self, kind: IntTy, name: &[u8]) -> Result<Option<Called<'w>>, NoMemory>
        ensures { IfOk result (λ called. option_map c.called_of called ≡ o.row_named (o.number_paths (Some kind)) name.now) }
    {
        if is(name, "from_le_bytes") {
            self.from_bytes(NumberOp::FromLe, kind)
        } else if is(name, "from_be_bytes") {
            self.from_bytes(NumberOp::FromBe, kind)
        } else {
            Ok(None)
        }
    }

    /// A path of the type of sequences of items of a type.
    #[tactic(auto, unfolding(crate::specs::Operations::row_named))]
    fn seq_path<'w>(
        &'w self,
        own: &SharedType,
        item: &'w ValType,
        name: &[u8],
    ) -> Result<Option<Called<'w>>, NoMemory>
        ensures { IfOk result (λ called. option_map c.called_of called ≡ o.row_named (o.seq_paths self.now.table.types.now (v.type_of own.now) (Some item.now)) name.now) }
    {
        if is(name, "new") {
            Ok(Some(Called {
                operation: Operation::Single(SingleOp::Make),
                asks: Asks::One(takes(self.kinds.size())),
                gives: own.share()?,
                before: Before::Zero(item),
                has_zero: self.table.has_zero(item),
            }))
        } else if is(name, "from_seq") {
            let asks = Asks::One(reads_row(item));
            Ok(Some(plain(Operation::Single(SingleOp::ToSeq), asks, own.share()?)))
        } else {
            Ok(None)
        }
    }

    /// A path of a type with a name.
    #[tactic(auto, unfolding(crate::specs::Operations::row_named))]
    fn named_path<'w>(
        &'w self,
        own: &'w SharedType,
        name: &[u8],
    ) -> Result<Option<Called<'w>>, NoMemory>
        ensures { IfOk result (λ called. option_map c.called_of called ≡ o.row_named (o.array_paths (v.type_of own.now) (t.array_of self.now.table.types.now (v.type_of own.now))) name.now) }
    {
        match self.table.length_of(own.get()) {
            Some(length) => match self.table.item_of(own.get()) {
                Some(item) => array_path(own, length, item, name),
                None => Ok(None),
            },
            None => Ok(None),
        }
    }

    /// The operation that a path of a type is, where it is called.
    ///
    /// # Errors
    ///
    /// `NoMemory` only for want of memory.
    #[tactic(auto, unfolding(crate::specs::Operations::row_named))]
    pub fn path_operation<'w>(
        &'w self,
        own: &'w SharedType,
        name: &[u8],
    ) -> Result<Option<Called<'w>>, NoMemory>
        ensures { IfOk result (λ called. option_map c.called_of called ≡ o.path_operation self.now.table.types.now (v.type_of own.now) name.now) }
    {
        match own.get() {
            ValType::Int(kind) => self.kind_path(*kind, name),
            ValType::Seq(item) => self.seq_path(own, item.get(), name),
            ValType::Named(_) => self.named_path(own, name),
            _ => Ok(None),
        }
    }

    /// A secret kind before `(` makes a secret number of a public one.
    ///
    /// # Errors
    ///
    /// `NoMemory` only for want of memory.
    pub fn classify<'w>(&'w self, kind: IntTy) -> Result<Called<'w>, NoMemory>
        ensures { IfOk result (λ called. c.called_of called ≡ o.classify kind) }
    {
        let asks = Asks::One(takes(self.kinds.int(public_of(kind))));
        let operation = Operation::Number(NumberOp::Classify, kind);
        Ok(plain(operation, asks, self.int(kind)?))
    }

    /// A conversion between secret kinds.
    ///
    /// # Errors
    ///
    /// `NoMemory` only for want of memory.
    pub fn convert<'w>(&'w self, to: IntTy, from: IntTy) -> Result<Called<'w>, NoMemory>
        ensures { IfOk result (λ called. c.called_of called ≡ o.convert to from) }
    {
        let asks = Asks::One(takes(self.kinds.int(from)));
        Ok(plain(Operation::Cast(from, to), asks, self.int(to)?))
    }
}
