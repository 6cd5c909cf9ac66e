//! That the items of a derived file are well formed.
#![tactic(auto)]

mod shapes;

pub use shapes::items_are_well_formed;
