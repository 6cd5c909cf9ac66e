//! What names mean while a tree is walked: the bindings in scope, and names that are numbered in their order.
#![tactic(auto)]

mod names;
mod scope;

pub use names::Names;
pub use scope::Scope;
