//! Trees of programs, and what their runs mean.
#![tactic(auto)]

pub mod copy;
pub mod features;
pub mod law;
pub mod node;
pub mod program;
