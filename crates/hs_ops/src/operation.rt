//! Which operations there are.

use hs_words::IntTy;

/// An operation that there is for several kinds of numbers.
#[derive(Clone, Copy, Debug, PartialEq, Eq)]
pub enum NumberOp {
    /// The sum.
    Add,
    /// The difference.
    Sub,
    /// The product.
    Mul,
    /// The quotient, rounded toward zero.
    Div,
    /// The remainder of the quotient.
    Rem,
    /// The number with the other sign.
    Neg,
    /// The bits that both have.
    And,
    /// The bits that one of them or both have.
    Or,
    /// The bits that just one of them has.
    Xor,
    /// The bits that the number does not have.
    Not,
    /// The bits shifted toward the high end.
    Shl,
    /// The bits shifted toward the low end, with the sign before them.
    Shr,
    /// The bits turned toward the high end.
    Rotl,
    /// The bits turned toward the low end.
    Rotr,
    /// The sum modulo 2^width.
    Wadd,
    /// The difference modulo 2^width.
    Wsub,
    /// The product modulo 2^width.
    Wmul,
    /// Whether the first is less than the second.
    Lt,
    /// Whether the first is at most the second.
    Le,
    /// Whether the first is greater than the second.
    Gt,
    /// Whether the first is at least the second.
    Ge,
    /// The secret number of a public one; told by the secret kind.
    Classify,
    /// The public number of a secret one; told by the secret kind.
    Declassify,
    /// The bytes of a number, the lowest first.
    ToLe,
    /// The bytes of a number, the highest first.
    ToBe,
    /// The number of these bytes, the lowest first.
    FromLe,
    /// The number of these bytes, the highest first.
    FromBe,
}

/// An operation that there is once.
#[derive(Clone, Copy, Debug, PartialEq, Eq)]
pub enum SingleOp {
    /// The other truth value.
    BoolNot,
    /// Whether two values are one value.
    Same,
    /// Whether they are not.
    Differ,
    /// The item at a place.
    Item,
    /// The items with the one at a place replaced.
    Set,
    /// The number of items.
    Len,
    /// A value so many times.
    Make,
    /// All arguments as items.
    ListOf,
    /// The items of two rows.
    Concat,
    /// The items and one more.
    Push,
    /// So many items from a place on.
    Slice,
    /// The items with others in the place of some.
    Put,
    /// How many chunks there are.
    NumChunks,
    /// The length of a chunk, and its items.
    GetChunk,
    /// The items with a chunk replaced.
    SetChunk,
    /// The items as an array.
    ToArray,
    /// The items as a sequence.
    ToSeq,
    /// The part of an option.
    OptUnwrap,
    /// The part of a good result.
    ResUnwrap,
    /// Whether an option has a part.
    OptIsSome,
    /// Whether it has none.
    OptIsNone,
    /// Whether a result is good.
    ResIsOk,
    /// Whether it is bad.
    ResIsErr,
    /// The value itself.
    Clone,
}

/// An operation.
#[derive(Clone, Copy, Debug, PartialEq, Eq)]
pub enum Operation {
    /// On numbers of the kind.
    Number(NumberOp, IntTy),
    /// From numbers of the first kind to those of the second.
    Cast(IntTy, IntTy),
    /// Of a tuple of the first number of parts, the part whose number is the second.
    Part(u32, u32),
    /// Of a tuple of the first number of parts, the tuple with the part replaced whose number is the second.
    SetPart(u32, u32),
    /// One that there is once.
    Single(SingleOp),
}
