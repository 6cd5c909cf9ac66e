//! The nodes of a derived file lie one behind the other, each in its parent.
#![tactic(auto)]

mod nested;

pub use nested::nodes_are_nested;
