//! What each name of a file stands for, and the rule and the place that are told where one stands for nothing.
#![tactic(auto)]

mod flat;
mod items;
mod known;
mod law;
mod names;
mod resolver;
mod walk;
mod world;

pub use known::Use;
pub use law::{locals_are_spelled, names_exclude};
pub use names::{ItemNames, Names};
pub use resolver::resolve;
