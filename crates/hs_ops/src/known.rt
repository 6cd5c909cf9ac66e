//! Which operations there are, and which kinds go with a kind.

ghost use Rattle.std.specs.Prelude.{◌≡◌};
ghost use Rattle.hs_words.specs.Kind.{width_of};
ghost use Rattle.hs_values.specs.Kinds.{is_kind};
ghost use Rattle.hs_ops.specs.Op.{public_of, byte_of};
ghost use Rattle.hs_ops.specs.Known.{is_for, is_cast, is_known};

use crate::operation::{NumberOp, Operation};
use hs_words::IntTy;

/// Whether two kinds are the same.
pub fn same_kind(a: IntTy, b: IntTy) -> bool
    ensures { result ≡ is_kind a b }
{
    a == b
}

/// The public kind with the width of a kind.
pub fn public_of(kind: IntTy) -> IntTy
    ensures { result ≡ public_of kind }
{
    match kind {
        IntTy::SU8 => IntTy::PU8,
        IntTy::SU16 => IntTy::PU16,
        IntTy::SU32 => IntTy::PU32,
        IntTy::SU64 => IntTy::PU64,
        IntTy::SU128 => IntTy::PU128,
        _ => kind,
    }
}

/// The kind of the bytes of a number.
pub fn byte_kind(kind: IntTy) -> IntTy
    ensures value { result ≡ byte_of kind }
    ensures width { width_of result ≡ 8 }
{
    if kind.secret() {
        IntTy::SU8
    } else {
        IntTy::PU8
    }
}

/// Whether there is the operation for the kind.
fn is_for(op: NumberOp, kind: IntTy) -> bool
    ensures { result ≡ is_for op kind }
{
    match op {
        NumberOp::Div
        | NumberOp::Rem
        | NumberOp::Wadd
        | NumberOp::Wsub
        | NumberOp::Wmul
        | NumberOp::Lt
        | NumberOp::Le
        | NumberOp::Gt
        | NumberOp::Ge => !kind.secret(),
        NumberOp::Neg => kind.signed(),
        NumberOp::Rotl | NumberOp::Rotr => !kind.signed(),
        NumberOp::Classify | NumberOp::Declassify => kind.secret(),
        NumberOp::ToLe | NumberOp::ToBe | NumberOp::FromLe | NumberOp::FromBe => {
            !(kind.signed() || same_kind(kind, IntTy::PUsize))
        }
        _ => true,
    }
}

/// Whether numbers of the first kind are cast to the second: a public kind to any public kind, a secret one to another secret one.
fn is_cast(from: IntTy, to: IntTy) -> bool
    ensures { result ≡ is_cast from to }
{
    if from.secret() {
        to.secret() && !same_kind(from, to)
    } else {
        !to.secret()
    }
}

/// Whether there is the operation.
pub fn is_known(operation: Operation) -> bool
    ensures { result ≡ is_known operation }
{
    match operation {
        Operation::Number(op, kind) => is_for(op, kind),
        Operation::Cast(from, to) => is_cast(from, to),
        Operation::Part(count, at) | Operation::SetPart(count, at) => {
            2 <= count && (count <= 12 && at < count)
        }
        Operation::Single(_) => true,
    }
}
