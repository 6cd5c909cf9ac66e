//! Emitted modules: their trees, which of them are spelled and scoped, and what they mean.
#![tactic(auto)]

pub mod law;
pub mod module;
