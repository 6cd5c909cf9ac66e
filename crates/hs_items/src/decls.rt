//! What the items of a file declare.

use crate::facts::Facts;
use hs_values::{Header, TypeTable, ValType};
use sqlite_items::Items;

/// How an argument is passed for a parameter.
#[derive(Clone, Copy, Debug, PartialEq, Eq)]
pub enum Passing {
    /// By value: `x: T` or `mut x: T`.
    Value,
    /// By a shared reference: `x: &T`.
    Shared,
    /// By a mutable reference: `x: &mut T`.
    Mutable,
}

/// What is known of a function without its body.
#[derive(Drop)]
pub struct Function {
    /// Its name, the types of its parameters, and what a call gives: where parameters are mutable, the tuple of their final values,
    /// in order, and then its own result.
    pub header: Header,
    /// How the argument of each parameter is passed, in order.
    pub modes: Items<Passing>,
    /// The type of its own result.
    pub result: ValType,
}

/// What an item declares.
#[derive(Drop)]
pub enum Declaration {
    /// Nothing that has a type.
    Nothing,
    /// The name of a type: the type that it stands for.
    Named(ValType),
    /// A constant, by its type.
    Constant(ValType),
    /// A function.
    Function(Function),
}

/// What the items of a file declare.
#[derive(Drop)]
pub struct Decls {
    /// The types with names, in the order of their items: array types, structs and enums.
    pub table: TypeTable,
    /// What each item declares, by its place in the file.
    pub items: Items<Declaration>,
    /// What is asked of each type with a name, by its number.
    pub facts: Items<Facts>,
}
