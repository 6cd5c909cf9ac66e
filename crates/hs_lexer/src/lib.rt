//! The tokens of a source text.
#![tactic(auto)]

mod bytes;
mod law;
mod lexer;
mod marks;
mod number;
mod piece;
mod token;

pub use hs_base::place::place_behind;
pub use law::comments_nest;
pub use lexer::lex;
pub use token::{Token, TokenKind, Tokens};
