//! Which locals hold a value where, and which rule on moves is told of a program that breaks one.
#![tactic(auto)]

mod callees;
mod copied;
mod held;
mod joined;
mod law;
mod operations;
mod program;
mod state;
mod told;
mod walk;
mod world;

pub use law::{nothing_is_told_of_sound_sources, one_is_told};
pub use program::moves;
