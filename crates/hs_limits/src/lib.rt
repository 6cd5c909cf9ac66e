//! Which trees keep the limits on heights and lengths, and which limit is told of one that does not.
#![tactic(auto)]

mod agree;
mod flat;
mod height;
mod items;
mod told;
mod walk;

pub use agree::spans_agree;
pub use items::limits;
pub use told::one_is_told;
