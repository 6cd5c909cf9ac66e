//! Operations on values, and their table: what each is called, what it takes, and what it gives.
#![tactic(auto)]

mod apply;
mod byte;
mod catalog;
mod known;
mod list;
mod name;
mod number;
mod operation;
mod pack;
mod part;
mod row;
mod table;
mod view;

pub use catalog::{OPS, standard};
pub use known::is_known;
pub use name::name_of;
pub use operation::{NumberOp, Operation, SingleOp};
pub use row::{Kind, Kinds, OpRow, OpStop, PanicSet};
pub use table::OpTable;
