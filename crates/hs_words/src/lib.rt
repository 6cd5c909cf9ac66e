//! Machine integers of the sixteen kinds of the specification language, with arithmetic that is exact or says why not.
#![tactic(auto)]

mod kinds;
mod words;

pub use kinds::{IntTy, Panic};
pub use words::Word;
