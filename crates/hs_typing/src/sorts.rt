//! How a local may be used.

ghost use Rattle.std.specs.Prelude.{◌≡◌};
ghost use Rattle.hs_typing.specs.Locals as l;
ghost use Rattle.hs_typing.specs.Rules as r;
ghost use Rattle.hs_typing.specs.Views as v;

use hs_syntax::Mode;

/// What a local is.
#[derive(Clone, Copy, Debug, PartialEq, Eq)]
pub enum Sort {
    /// Bound without `mut`.
    Fixed,
    /// Bound with `mut`.
    Mutable,
    /// The variable of a loop.
    Turn,
    /// A parameter `x: &T`.
    Shared,
    /// A parameter `x: &mut T`.
    Lent,
}

impl Sort {
    /// Of a local that is bound with `mut` or without.
    pub fn bound(is_mutable: bool) -> Sort
        ensures { v.sort_of result ≡ l.sort_if is_mutable }
    {
        if is_mutable {
            Sort::Mutable
        } else {
            Sort::Fixed
        }
    }

    /// Of a parameter.
    pub fn of_parameter(mode: Mode) -> Sort
        ensures { v.sort_of result ≡ l.sort_of mode }
    {
        match mode {
            Mode::Value => Sort::Fixed,
            Mode::Mut => Sort::Mutable,
            Mode::Shared => Sort::Shared,
            Mode::Lent => Sort::Lent,
        }
    }

    /// Whether it is a reference parameter.
    pub fn is_reference(self) -> bool
        ensures { result ≡ l.is_reference (v.sort_of self) }
    {
        matches!(self, Sort::Shared | Sort::Lent)
    }

    /// Whether it is assigned or lent without a `mut`. Of a loop's variable another rule speaks.
    pub fn is_not_mut(self) -> bool
        ensures { result ≡ r.not_mut (v.sort_of self) }
    {
        matches!(self, Sort::Fixed | Sort::Shared)
    }

    /// Whether `&mut x` with this local lends what is not lent so, or what occurs elsewhere in its call.
    pub fn is_not_lendable(self, elsewhere: bool) -> bool
        ensures { result ≡ r.not_lendable (v.sort_of self) elsewhere }
    {
        matches!(self, Sort::Lent | Sort::Turn) || elsewhere
    }

    /// Whether it is a loop's variable, which is not assigned.
    pub fn is_turn(self) -> bool
        ensures { result ≡ r.assigns_turn (v.sort_of self) }
    {
        matches!(self, Sort::Turn)
    }

    /// Whether it is a parameter that is handed on to be changed.
    pub fn is_lent(self) -> bool
        ensures { result ≡ l.is_lent (v.sort_of self) }
    {
        matches!(self, Sort::Lent)
    }

    /// Whether an assignment to it has a `*` that it may not have, or lacks one: a `&mut` parameter has one where it is assigned
    /// as a whole, and nothing else has one.
    pub fn is_wrong_star(self, star: bool, has_steps: bool) -> bool
        ensures { result ≡ r.wrong_star (v.sort_of self) star has_steps }
    {
        if self.is_lent() && !has_steps {
            !star
        } else {
            star
        }
    }
}
