//! What the items of a file declare: the types with names, the types of constants and the headers of functions, or the rule and
//! the place that are told where a declaration or a written type breaks one.
#![tactic(auto)]

mod bodies;
mod checks;
mod decls;
mod facts;
mod law;
mod listing;
mod meaning;
mod order;
mod promises;
mod shape;
mod small;
mod stage;
mod types;

pub use decls::{Declaration, Decls, Function, Passing};
pub use facts::Facts;
pub use law::{declarations_exclude, facts_are_of_whole_types};
pub use meaning::Meanings;
pub use promises::{sizes_agree, written_types_are_sure};
pub use shape::Shape;
pub use small::small_files;
pub use stage::items;
