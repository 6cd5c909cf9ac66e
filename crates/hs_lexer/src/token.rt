//! What a text is made of.

use hs_words::IntTy;
use sqlite_items::Items;

/// The kind of a token. Which name, reserved word, string or mark it is, the bytes of its place in the text say.
#[derive(Clone, Copy, Debug, PartialEq, Eq)]
pub enum TokenKind {
    /// A letter or `_`, then letters, digits and `_`: at most 64 bytes, no reserved word and not `_` alone.
    Name,
    /// One of the 51 reserved words.
    Reserved,
    /// The value of an integer, below 2^128, and its suffix.
    Int(u128, Option<IntTy>),
    /// A string, its quotes included.
    Text,
    /// One of the 47 marks.
    Mark,
}

/// A token, with the bytes of the text that spell it: from `start` up to but without `end`.
#[derive(Clone, Copy, Debug, PartialEq, Eq)]
pub struct Token {
    pub kind: TokenKind,
    pub start: u32,
    pub end: u32,
}

/// Tokens in the order of the text. Contracts see them as the list of the tokens.
pub type Tokens = Items<Token>;
