//! Operators: for which types each is defined, and what it gives.

ghost use Rattle.std.specs.Prelude.{◌≡◌, Some, IfOk};
ghost use Rattle.hs_ops.specs.Known as known;
ghost use Rattle.hs_typing.specs.Operations as o;
ghost use Rattle.hs_typing.specs.Rules as r;
ghost use Rattle.hs_typing.specs.Views as v;

use crate::types::{is_same, kind_of};
use crate::wishes::{Got, Wish};
use hs_base::memory::NoMemory;
use hs_ops::{NumberOp, Operation, is_known};
use hs_syntax::BinaryOp;
use hs_values::ValType;
use hs_words::IntTy;

/// Whether there is the operation for the kind.
pub fn is_for(operation: NumberOp, kind: IntTy) -> bool
    ensures { result ≡ known.is_for operation kind }
{
    is_known(Operation::Number(operation, kind))
}

/// The operation on numbers of an operator; that of a comparison for sameness is on all values, and `||` and `&&` are none.
pub fn number_op(op: BinaryOp) -> Option<NumberOp>
    ensures { result ≡ o.number_op op }
{
    match op {
        BinaryOp::Or | BinaryOp::And | BinaryOp::Equal | BinaryOp::Differ => None,
        BinaryOp::Less => Some(NumberOp::Lt),
        BinaryOp::AtMost => Some(NumberOp::Le),
        BinaryOp::Greater => Some(NumberOp::Gt),
        BinaryOp::AtLeast => Some(NumberOp::Ge),
        BinaryOp::BitOr => Some(NumberOp::Or),
        BinaryOp::BitXor => Some(NumberOp::Xor),
        BinaryOp::BitAnd => Some(NumberOp::And),
        BinaryOp::ShiftLeft => Some(NumberOp::Shl),
        BinaryOp::ShiftRight => Some(NumberOp::Shr),
        BinaryOp::Add => Some(NumberOp::Add),
        BinaryOp::Subtract => Some(NumberOp::Sub),
        BinaryOp::Multiply => Some(NumberOp::Mul),
        BinaryOp::Divide => Some(NumberOp::Div),
        BinaryOp::Remainder => Some(NumberOp::Rem),
    }
}

/// Whether both operands are bools, of which the left one may decide.
pub fn decides(op: BinaryOp) -> bool
    ensures { result ≡ o.decides op }
{
    matches!(op, BinaryOp::Or | BinaryOp::And)
}

/// Whether the right operand is an amount.
pub fn shifts(op: BinaryOp) -> bool
    ensures { result ≡ o.shifts op }
{
    matches!(op, BinaryOp::ShiftLeft | BinaryOp::ShiftRight)
}

/// Whether two values are compared for sameness.
pub fn equates(op: BinaryOp) -> bool
    ensures { result ≡ o.equates op }
{
    matches!(op, BinaryOp::Equal | BinaryOp::Differ)
}

/// Whether a bool is given of two values.
pub fn compares(op: BinaryOp) -> bool
    ensures { result ≡ o.compares op }
{
    matches!(
        op,
        BinaryOp::Equal
            | BinaryOp::Differ
            | BinaryOp::Less
            | BinaryOp::AtMost
            | BinaryOp::Greater
            | BinaryOp::AtLeast
    )
}

/// Whether it is one of arithmetic or bits, and no shift.
pub fn computes(op: BinaryOp) -> bool
    ensures { result ≡ o.computes op }
{
    matches!(
        op,
        BinaryOp::BitOr
            | BinaryOp::BitXor
            | BinaryOp::BitAnd
            | BinaryOp::Add
            | BinaryOp::Subtract
            | BinaryOp::Multiply
            | BinaryOp::Divide
            | BinaryOp::Remainder
    )
}

/// Whether an operator is defined for a type: `==` and `!=` for every one, the others for kinds of integers. Whether the operands
/// of `||` and `&&` are bools is asked of each by itself.
pub fn is_defined(op: BinaryOp, ty: &ValType) -> bool
    ensures { result ≡ o.defined op ty.now }
{
    match (number_op(op), kind_of(ty)) {
        (None, _) => true,
        (Some(_), None) => false,
        (Some(op), Some(kind)) => is_for(op, kind),
    }
}

/// The operation on numbers of a kind, where there is one.
pub fn operation_of(op: Option<NumberOp>, kind: Option<IntTy>) -> Option<Operation>
    ensures { result ≡ o.operation_in op kind }
{
    Some(Operation::Number(op?, kind?))
}

/// What is asked of a bare operand, by what the other operand is: its type, and that it is of another one is told here where the
/// operator is defined for it.
///
/// # Errors
///
/// `NoMemory` where the other one is of no type of its own, which a place without an expected type refuses.
pub fn beside<'w>(op: BinaryOp, other: &'w Got) -> Result<Wish<'w>, NoMemory>
    ensures { IfOk result (λ wish. v.wish_of wish ≡ o.beside op (Some (v.got_of other.now))) }
{
    match other.ty() {
        Some(ty) => {
            if is_defined(op, ty) {
                Ok(Wish::Wants(ty))
            } else {
                Ok(Wish::Hint(ty))
            }
        }
        None => Err(NoMemory),
    }
}

/// Whether a right operand, which is not bare beside a left one that is not, is of another type.
pub fn is_other_operand(op: BinaryOp, left: &Got, right: &Got) -> bool
    ensures { result ≡ r.other_operand op (Some (v.got_of left.now)) (v.got_of right.now) }
{
    match (left, right) {
        (Got::Is(left), Got::Is(right)) => {
            is_defined(op, left.get()) && !is_same(left.get(), right.get())
        }
        _ => false,
    }
}
