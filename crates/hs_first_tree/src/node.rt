//! Nodes of trees. A local is held by its number, from 0, in its function's list of names.

use crate::features::{Features, Off};
use hs_base::name::Name;
use sqlite_items::{Boxed, Items};

/// An expression.
#[cycle(tree)]
#[derive(Drop)]
pub enum Exp<F: Features> {
    /// The value of a local.
    Var(usize),
    /// A number of type `u32`.
    Lit(u32),
    /// The operation of this name on the operands, from left to right.
    Op(Name, Items<Exp<F>>),
    /// A right side. The language has no form yet that makes one, so its second mark has no value.
    In(F::Nested, Off, Boxed<Rhs<F>>),
}

/// A right side: what a binding or an assignment takes, and what a block gives.
#[cycle(tree)]
#[derive(Drop)]
pub enum Rhs<F: Features> {
    /// The value of an expression.
    Exp(Exp<F>),
}

/// A statement.
#[derive(Drop)]
pub enum Stmt<F: Features> {
    /// Binds a local from here to the end of the block.
    Let(usize, Rhs<F>),
    /// Assigns a local that is bound.
    Set(F::Assign, usize, Rhs<F>),
}

/// Statements, which run in order, and then the block's value.
#[derive(Drop)]
pub struct Block<F: Features> {
    pub statements: Items<Stmt<F>>,
    pub tail: Rhs<F>,
}
