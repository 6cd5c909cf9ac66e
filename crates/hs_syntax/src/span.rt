//! What every node has: its place in the text.

use hs_words::IntTy;

/// Bytes of the text, from `start` up to but without `end`, both counted from 0. A node's are those from the first byte of
/// its first token to the end of its last. A name is the span of its token: the text has its bytes.
#[derive(Clone, Copy, Debug, PartialEq, Eq)]
pub struct Span {
    pub start: u32,
    pub end: u32,
}

/// An integer as it is written: its value, below 2^128, and its suffix.
#[derive(Clone, Copy, Debug, PartialEq, Eq)]
pub struct Int {
    pub span: Span,
    pub value: u128,
    pub suffix: Option<IntTy>,
}
