//! Headers: what is known of functions without their bodies.

use crate::types::{TypeTable, Types, ValType};
use hs_base::name::Name;
use sqlite_items::Items;

/// What is known of a function without its body.
#[derive(Drop)]
pub struct Header {
    /// Its name.
    pub name: Name,
    /// The types of its parameters, in order.
    pub params: Types,
    /// The type of its result. With mutable parameters it is the tuple of their final values, in order, and then its own result.
    pub result: ValType,
}

/// Headers in the order of the functions.
pub type HeaderList = Items<Header>;

/// The functions of a program by their headers, with the types that these name.
#[derive(Drop)]
pub struct Headers {
    /// The types with names.
    pub table: TypeTable,
    /// The functions.
    pub functions: HeaderList,
}

/// The number of an operation: its place in the table of operations.
#[derive(Clone, Copy, Debug, PartialEq, Eq)]
pub struct OpId(pub u16);

/// Why a call of a function gives neither a value nor a panic.
#[derive(Clone, Copy, Debug, PartialEq, Eq)]
pub enum EvalFault {
    /// No function has the name.
    NoFunction,
    /// The arguments are not as many as the parameters, or one does not fit the type of its parameter.
    BadArgs,
    /// The run has more turns than its budget.
    Spent,
    /// There was no memory.
    NoMemory,
}
