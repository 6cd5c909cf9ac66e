//! What is still to be written of a text.

use crate::features::Features;
use crate::node::{Arg, Arm, Block, Exp, Pattern, Rhs, Step};
use sqlite_items::Items;

/// A part of a tree, or the parts from here to the end of a form, that is still to be written. A space stands before each part.
#[derive(Drop)]
pub enum Item<'a, F: Features> {
    /// An expression.
    Exp(&'a Exp<F>),
    /// A right side.
    Rhs(&'a Rhs<F>),
    /// A block.
    Block(&'a Block<F>),
    /// A pattern.
    Pattern(&'a Pattern),
    /// The last expressions of a form.
    Exps(&'a [Exp<F>]),
    /// The arguments of a call from this place on.
    Args(&'a Items<Arg<F>>, usize),
    /// The arms of a match from this place on.
    Arms(&'a Items<Arm<F>>, usize),
    /// The statements of a block from this place on, and its end.
    Statements(&'a Block<F>, usize),
    /// The last steps of an assignment, and its right side.
    Steps(&'a [Step<F>], &'a Rhs<F>),
    /// The end of a form.
    Close,
}
