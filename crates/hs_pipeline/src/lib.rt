//! From a program of the source to its module.
#![tactic(auto)]

mod composition;
mod copy;
mod lower;

pub use composition::emit;
