//! Types, values and headers of the specification language: what a function takes and gives.
#![tactic(auto)]

mod header;
mod types;
mod value;

pub use header::{EvalFault, Header, HeaderList, Headers, OpId};
pub use types::{Ctors, TypeDef, TypeKind, TypeTable, Types, ValType};
pub use value::{MAX_LENGTH, Sort, Value, Values};
