//! The trees of a source: one variant for each form of the grammar, each with the bytes of the text that it stands for.
#![tactic(auto)]

mod exp;
mod file;
mod item;
mod measure;
mod pat;
mod span;
mod ty;

pub use exp::{
    Arg, Arm, BinaryOp, Block, Else, Exp, If, Level, Operand, Path, Postfix, PrefixOp, Step, Stmt,
    Target, Variable,
};
pub use file::{File, Text};
pub use item::{Ctor, Item, ItemKind, Mode, Param};
pub use measure::{height, height_of_block, height_of_stmt};
pub use pat::{ArmPat, Pat};
pub use span::{Int, Span};
pub use ty::Ty;
