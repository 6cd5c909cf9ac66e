//! What the items of a file declare, and the built-in names.
#![tactic(auto)]

mod declared;
mod paths;
mod referent;
mod symbols;
mod way;
mod words;

pub use declared::{Declared, Sort};
pub use paths::Paths;
pub use referent::{BuiltIn, Referent};
pub use symbols::Symbols;
pub use way::Way;
pub use words::{built_in, maker_word, sequence};
