//! The parser of expressions below the operators: one function for each form of the grammar. The rules that lead back to
//! expressions and blocks are parameters, so that each form is proved by itself.
#![tactic(auto)]

mod args;
mod begins;
mod branches;
mod groups;
mod lists;
mod node;
mod operands;
mod paths;
mod rules;
mod steps;

pub use rules::Rules;
