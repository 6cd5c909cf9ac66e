//! The program `hs` as a library.
#![tactic(auto)]

mod answer;
mod command;
mod status;
mod top;

pub use command::Dialect;
pub use status::Status;
pub use top::run;
