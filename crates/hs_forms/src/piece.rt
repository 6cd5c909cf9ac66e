//! What a block goes on with.

use hs_syntax::{Exp, Stmt};

/// A piece of a block.
#[derive(Drop)]
pub enum Piece {
    /// A statement. A further piece may follow.
    Statement(Stmt),
    /// The expression at the block's end.
    Tail(Exp),
}
