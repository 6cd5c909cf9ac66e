//! What the rules on types ask: of types, of what a place expects and a value is, of locals and of names.
#![tactic(auto)]

pub mod ground;
pub mod kinds;
pub mod locals;
mod measures;
mod methods;
pub mod numbers;
pub mod operations;
pub mod operators;
mod paths;
pub mod shared;
pub mod sorts;
pub mod table;
pub mod types;
pub mod uses;
pub mod wishes;
mod words;
