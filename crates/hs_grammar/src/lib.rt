//! Grammars as data, and the parsers that follow them.
#![tactic(auto)]

pub mod cursor;
pub mod error;
pub mod grammar;
pub mod loops;
pub mod whole;
