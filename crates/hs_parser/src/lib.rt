//! The parser of the source language: the file that the tokens of a text are, or the rule and the place that are told of
//! them.
#![tactic(auto)]

mod break_rule;
mod nesting;
mod parser;
mod source;
mod stack;
mod stop;

pub use parser::{parse, unambiguous};
pub use stop::ParseStop;
