//! The text of emitted modules in F*: its grammar, and the printer.
#![tactic(auto)]

pub mod law;
pub mod print;
