//! The whole tree: its nodes, what their runs mean, and which trees are sound.
#![tactic(auto)]

pub mod features;
mod item;
pub mod law;
pub mod node;
mod open;
pub mod program;
pub mod shared;
pub mod show;
pub mod small;
mod stack;
mod text;
