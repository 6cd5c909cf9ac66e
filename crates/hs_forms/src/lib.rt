//! The grammar of the source language, and its tokens by what the grammar tells them apart by.
#![tactic(auto)]

mod kinds;
mod piece;
mod terminals;
mod token;

pub use piece::Piece;
pub use terminals::{across, at, int, is_at_name, name};
pub use token::{Kind, NAME_KINDS, Token, tokens_of};
