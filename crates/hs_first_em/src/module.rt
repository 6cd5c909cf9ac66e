//! The trees of emitted modules. No printed prefix is part of a name that they hold.

use hs_base::name::Name;
use sqlite_items::{Boxed, Items};

/// The types of values.
#[derive(Clone, Copy, Debug, PartialEq, Eq)]
pub enum EmTy {
    /// Numbers from 0 to 4294967295.
    U32,
}

/// A local, by its name and its number. Both are printed.
#[derive(Drop)]
pub struct EmVar {
    pub name: Name,
    pub number: usize,
}

/// An expression.
#[derive(Drop)]
pub enum Em {
    /// The value of a local.
    Var(EmVar),
    /// A number of type `u32`.
    Lit(u32),
    /// The operation of this name on the operands, from left to right.
    Op(Name, Items<Em>),
    /// Binds a local to the first expression's value in the second.
    Let(EmVar, Boxed<Em>, Boxed<Em>),
}

/// A parameter of a definition.
#[derive(Drop)]
pub struct EmPar {
    pub local: EmVar,
    pub ty: EmTy,
}

/// A definition.
#[derive(Drop)]
pub struct EmDef {
    pub name: Name,
    pub params: Items<EmPar>,
    pub result: EmTy,
    pub body: Em,
}

/// A module: its name, and its definitions in order.
#[derive(Drop)]
pub struct Module {
    pub name: Name,
    pub defs: Items<EmDef>,
}
