//! What is known of a function while it is walked.

ghost use Rattle.std.specs.Prelude.{◌≡◌};
ghost use Rattle.hs_ops.specs.Standard.{standard_table};

use crate::callees::{Callees, is_lent};
use crate::operations::Use;
use crate::state::State;
use hs_base::memory::NoMemory;
use hs_ops::{OPS, OpTable};
use hs_tree::features::Src;
use hs_tree::node::Span;
use hs_tree::program::Param;
use hs_values::TypeTable;
use std::alloc::Global;

/// What is known of the function that is walked.
#[derive(Drop)]
pub struct World<'a> {
    pub alloc: Global,
    /// The types with names.
    pub table: &'a TypeTable,
    /// All functions.
    pub callees: &'a Callees<'a>,
    /// All operations.
    pub operations: &'a OpTable<OPS>,
    /// The function's parameters.
    pub params: &'a [Param<Src>],
    /// Of each local whether a read by value takes the value out.
    pub moves: Vec<bool>,
    ghost standard: { operations.now ≡ standard_table },
}

/// Which of the expressions in a row are lent.
#[derive(Clone, Copy)]
pub enum Lent<'a> {
    /// None.
    None,
    /// Operands of an operation.
    Operands(Use),
    /// Arguments for these parameters.
    Arguments(&'a [Param<Src>]),
}

impl<'a> Lent<'a> {
    ghost use Rattle.hs_linear.specs.Known.{lent_in};

    /// Whether the one at a place is.
    pub fn at(self, place: usize) -> bool
        ensures { result ≡ lent_in self.entry place }
    {
        match self {
            Lent::None => false,
            Lent::Operands(used) => used.lends(place),
            Lent::Arguments(params) => match params.get(place) {
                Some(param) => is_lent(&param.mode),
                None => false,
            },
        }
    }
}

impl<'a> World<'a> {
    ghost use Rattle.std.specs.Prelude.{◌&&◌, not, OnOk};
    ghost use Rattle.hs_linear.specs.Seen.{read};
    ghost use Rattle.hs_linear.specs.Moments.{Passed};
    ghost use Rattle.hs_linear.specs.Known.{known_of};

    /// Whether a read by value of a local takes the value out.
    fn moves(&self, local: usize) -> bool
        ensures { result ≡ (known_of self.now).moves local }
    {
        self.moves.get(local).copied().unwrap_or(false)
    }

    /// Whether a local is a parameter that is a reference.
    fn is_reference(&self, local: usize) -> bool
        ensures { result ≡ (known_of self.now).reference local }
    {
        for param in self.params {
            if param.local == local && is_lent(&param.mode) {
                return true;
            }
        }
        false
    }

    /// A read of a local, which is lent or not.
    pub fn read(
        &self,
        local: usize,
        span: Span,
        is_lent: bool,
        state: &mut State,
    ) -> Result<(), NoMemory>
        ensures { OnOk result (Passed (read ((known_of self.now).moves local && not is_lent) ((known_of self.now).moves local && not is_lent && (known_of self.now).reference local) local span) state.old state.new) }
    {
        let takes = self.moves(local) && !is_lent;
        let is_through = takes && self.is_reference(local);
        state.read(local, span, takes, is_through)
    }
}
