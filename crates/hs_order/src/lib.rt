//! The order of items by their needs: again and again the first item in source order comes next whose needs are all listed.
#![tactic(auto)]

mod order;
mod waits;

pub use order::Order;
