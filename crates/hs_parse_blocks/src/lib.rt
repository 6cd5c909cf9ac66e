//! The parser of operators, statements and blocks, which closes the circle of the rules: one function for each form of the
//! grammar.
#![tactic(auto)]

mod blocks;
mod forms;
mod levels;
mod nested;
mod node;
mod places;
mod statements;

pub use nested::{block, expression};
