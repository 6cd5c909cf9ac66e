//! What names stand for.

use hs_words::IntTy;

/// A built-in name.
#[derive(Clone, Copy, Debug, PartialEq, Eq)]
pub enum BuiltIn {
    /// An integer type. Before `(` a secret one classifies a number.
    Int(IntTy),
    /// `bool`.
    Bool,
    /// `Seq`.
    Seq,
    /// `Option`.
    Option,
    /// `Result`.
    Result,
    /// `Some`.
    Some,
    /// `None`.
    None,
    /// `Ok`.
    Ok,
    /// `Err`.
    Err,
    /// A conversion between secret kinds, as `U64_from_U32`: what it gives, and what it takes.
    Convert(IntTy, IntTy),
}

/// What a name stands for.
#[derive(Clone, Copy, Debug, PartialEq, Eq)]
pub enum Referent {
    /// A local of the function, by its number: its place among the parameters, then among the binding places of the
    /// function in the text, from 0.
    Local(usize),
    /// An item, by its place in the file, from 0.
    Item(usize),
    /// A constructor of an enum or of a struct: the item, and the constructor's place in it, from 0.
    Ctor(usize, usize),
    /// What is built in.
    BuiltIn(BuiltIn),
}
