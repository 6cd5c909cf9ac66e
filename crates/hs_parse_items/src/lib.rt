//! The parser of items and files: one function for each form of the grammar.
#![tactic(auto)]

mod declaration_forms;
mod items;
mod macro_forms;
mod parameter_forms;

pub use items::file;
