//! The parser of types and patterns: one function for each form of the grammar.
#![tactic(auto)]

mod items;
mod pattern_forms;
mod type_forms;

pub use pattern_forms::{arm_pattern, pattern, patterns};
pub use type_forms::{maybe_open, parts, ty};
