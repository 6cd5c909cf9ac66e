//! Which texts are accepted, the program that each gives, and the rule that is told of any other.
#![tactic(auto)]

pub mod check;
mod kinds;
mod parse;
mod resolve;
mod scope;
mod stages;
mod symbol;
mod syntax;
