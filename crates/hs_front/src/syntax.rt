//! What a file says, before its names are known.

use sqlite_items::Items;

/// Where a token stands: from the byte `start` up to but without `end`.
#[derive(Clone, Copy, Debug, PartialEq, Eq)]
pub struct Span {
    pub start: u32,
    pub end: u32,
}

/// A part of a sum. A name is its place.
#[derive(Drop)]
pub enum Prim {
    Name(Span),
    Int(u32),
}

/// A sum of one or more parts.
#[derive(Drop)]
pub struct Sum {
    pub first: Prim,
    pub more: Items<Prim>,
}

/// A statement.
#[derive(Drop)]
pub enum Stmt {
    /// Binds a local, which may be assigned or not.
    Let(bool, Span, Sum),
    /// Assigns a local.
    Set(Span, Sum),
}

/// The statements of a function, and its value.
#[derive(Drop)]
pub struct Body {
    pub statements: Items<Stmt>,
    pub value: Sum,
}

/// A file: one function, with its parameters' names and its body.
#[derive(Drop)]
pub struct File {
    pub name: Span,
    pub parameters: Items<Span>,
    pub body: Body,
}
