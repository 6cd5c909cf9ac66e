//! Operations with arguments: what these are asked, and what is given.

ghost use Rattle.std.specs.Prelude.{◌≡◌, slice_get, length, option_map};
ghost use Rattle.hs_ops.specs.Op as known;
ghost use Rattle.hs_typing.specs.Called as c;
ghost use Rattle.hs_typing.specs.Operations as o;
ghost use Rattle.hs_typing.specs.Views as v;

use crate::operators::is_for;
use crate::shared::SharedType;
use crate::wishes::Wish;
use hs_ops::{NumberOp, Operation};
use hs_values::ValType;
use hs_words::IntTy;

/// What the place of an argument asks.
#[derive(Clone, Copy)]
pub enum Ask<'w> {
    /// A value.
    Takes(Wish<'w>),
    /// A value that is only read: `&e`, or the name of a reference parameter.
    Reads(Wish<'w>),
    /// A local that may be changed: `&mut x`, or the name of a `&mut` parameter.
    Changes(&'w ValType),
    /// A list of so many items of a type.
    Lists(u32, &'w ValType),
    /// Another list of so many items beside that one.
    Spare(u32),
}

/// What the arguments of an operation are asked, in order.
#[derive(Clone, Copy)]
pub enum Asks<'w> {
    /// There are none.
    Nothing,
    /// One.
    One(Ask<'w>),
    /// Two.
    Two(Ask<'w>, Ask<'w>),
    /// Three.
    Three(Ask<'w>, Ask<'w>, Ask<'w>),
}

impl<'w> Asks<'w> {
    /// How many there are.
    pub fn count(self) -> usize
        ensures { result ≡ length (c.asks_of self.entry) }
    {
        match self {
            Asks::Nothing => 0,
            Asks::One(_) => 1,
            Asks::Two(_, _) => 2,
            Asks::Three(_, _, _) => 3,
        }
    }

    /// What the argument of this number is asked.
    pub fn get(self, number: usize) -> Option<Ask<'w>>
        ensures { option_map c.ask_of result ≡ slice_get (c.asks_of self.entry) number }
    {
        match self {
            Asks::Nothing => None,
            Asks::One(first) => match number {
                0 => Some(first),
                _ => None,
            },
            Asks::Two(first, second) => match number {
                0 => Some(first),
                1 => Some(second),
                _ => None,
            },
            Asks::Three(first, second, third) => match number {
                0 => Some(first),
                1 => Some(second),
                2 => Some(third),
                _ => None,
            },
        }
    }
}

/// The operands of an operation before its receiver and its arguments.
#[derive(Clone, Copy)]
pub enum Before<'w> {
    /// None.
    Nothing,
    /// The zero value of a type.
    Zero(&'w ValType),
    /// The zero value of a type, and so many times.
    Zeros(&'w ValType, u32),
    /// A length.
    Length(u32),
}

/// An operation with arguments.
#[derive(Drop)]
pub struct Called<'w> {
    pub operation: Operation,
    /// What its arguments are asked.
    pub asks: Asks<'w>,
    pub gives: SharedType,
    pub before: Before<'w>,
    /// Whether the type of the values that it makes has a zero value.
    pub has_zero: bool,
}

/// A value of this type.
pub(crate) fn takes<'w>(ty: &'w ValType) -> Ask<'w>
    ensures { c.ask_of result ≡ o.takes ty.now }
{
    Ask::Takes(Wish::Wants(ty))
}

/// A sequence or an array of items of this type, which is only read.
pub(crate) fn reads_row<'w>(item: &'w ValType) -> Ask<'w>
    ensures { c.ask_of result ≡ o.reads_row item.now }
{
    Ask::Reads(Wish::Rows(item))
}

/// The public kind with the width of a kind.
pub(crate) fn public_of(kind: IntTy) -> IntTy
    ensures { result ≡ known.public_of kind }
{
    match kind {
        IntTy::SU8 => IntTy::PU8,
        IntTy::SU16 => IntTy::PU16,
        IntTy::SU32 => IntTy::PU32,
        IntTy::SU64 => IntTy::PU64,
        IntTy::SU128 => IntTy::PU128,
        _ => kind,
    }
}

/// The kind of the bytes of a number: secret where it is.
pub(crate) fn byte_of(kind: IntTy) -> IntTy
    ensures { result ≡ known.byte_of kind }
{
    if kind.secret() {
        IntTy::SU8
    } else {
        IntTy::PU8
    }
}

/// An operation without operands of its own.
pub(crate) fn plain<'w>(operation: Operation, asks: Asks<'w>, gives: SharedType) -> Called<'w>
    ensures { c.called_of result ≡ o.plain operation (c.asks_of asks.entry) (v.type_of gives) }
{
    Called {
        operation,
        asks,
        gives,
        before: Before::Nothing,
        has_zero: true,
    }
}

/// An operation on numbers of a kind, where there is it.
#[tactic(auto, unfolding(crate::specs::Operations::when_for))]
pub(crate) fn when_for<'w>(
    operation: NumberOp,
    kind: IntTy,
    asks: Asks<'w>,
    gives: SharedType,
) -> Option<Called<'w>>
    ensures { option_map c.called_of result ≡ o.when_for operation kind (c.asks_of asks.entry) (v.type_of gives) }
{
    if is_for(operation, kind) {
        Some(plain(Operation::Number(operation, kind), asks, gives))
    } else {
        None
    }
}
