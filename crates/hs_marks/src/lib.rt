//! Which rules the nodes of a tree break, which of them is told, and what a walk through the tree says of it.
#![tactic(auto)]

mod breach;
mod halt;
mod law;

pub use breach::{Breach, refuse_if};
pub use halt::Halt;
pub use law::first_is_told;
