//! Programs: functions in order.

use crate::features::Features;
use crate::node::Block;
use hs_base::name::Name;
use sqlite_items::Items;

/// The types of values.
#[derive(Clone, Copy, Debug, PartialEq, Eq)]
pub enum ValType {
    /// Numbers from 0 to 4294967295.
    U32,
}

/// A parameter: the number of its local, and its type.
#[derive(Clone, Copy, Debug, PartialEq, Eq)]
pub struct Parameter {
    pub local: usize,
    pub ty: ValType,
}

/// The names of a function's locals, by their numbers, and its block.
#[derive(Drop)]
pub struct Body<F: Features> {
    pub locals: Items<Name>,
    pub block: Block<F>,
}

/// A function.
#[derive(Drop)]
pub struct Function<F: Features> {
    pub name: Name,
    pub parameters: Items<Parameter>,
    pub result: ValType,
    pub body: Body<F>,
}

/// A program.
#[derive(Drop)]
pub struct Program<F: Features> {
    pub functions: Items<Function<F>>,
}
