//! The nodes that operators make of their operands.

ghost use Rattle.std.specs.Prelude.{◌≡◌, IfOk};
ghost use Rattle.hs_forms.specs.Nodes as nodes;

use hs_forms::{Kind, across};
use hs_syntax::{BinaryOp, Exp, Operand};
use sqlite_items::{Boxed, Items};
use std::alloc::{AllocError, Global};

/// The operator that a token of this kind is, between two operands.
pub fn op_named(kind: Kind) -> BinaryOp
    ensures { result ≡ nodes.op_named kind }
{
    match kind {
        Kind::OrOr => BinaryOp::Or,
        Kind::AndAnd => BinaryOp::And,
        Kind::EqualsEquals => BinaryOp::Equal,
        Kind::NotEquals => BinaryOp::Differ,
        Kind::Less => BinaryOp::Less,
        Kind::LessEquals => BinaryOp::AtMost,
        Kind::Greater => BinaryOp::Greater,
        Kind::GreaterEquals => BinaryOp::AtLeast,
        Kind::Or => BinaryOp::BitOr,
        Kind::Caret => BinaryOp::BitXor,
        Kind::And => BinaryOp::BitAnd,
        Kind::ShiftLeft => BinaryOp::ShiftLeft,
        Kind::ShiftBack => BinaryOp::ShiftRight,
        Kind::Plus => BinaryOp::Add,
        Kind::Minus => BinaryOp::Subtract,
        Kind::Star => BinaryOp::Multiply,
        Kind::Slash => BinaryOp::Divide,
        _ => BinaryOp::Remainder,
    }
}

/// The operator of a compound assignment, none of `=`.
pub fn assign_named(kind: Kind) -> Option<BinaryOp>
    ensures { result ≡ nodes.assign_named kind }
{
    match kind {
        Kind::PlusEquals => Some(BinaryOp::Add),
        Kind::MinusEquals => Some(BinaryOp::Subtract),
        Kind::StarEquals => Some(BinaryOp::Multiply),
        Kind::SlashEquals => Some(BinaryOp::Divide),
        Kind::PercentEquals => Some(BinaryOp::Remainder),
        Kind::AndEquals => Some(BinaryOp::BitAnd),
        Kind::OrEquals => Some(BinaryOp::BitOr),
        Kind::CaretEquals => Some(BinaryOp::BitXor),
        Kind::ShiftLeftEquals => Some(BinaryOp::ShiftLeft),
        Kind::ShiftRightEquals => Some(BinaryOp::ShiftRight),
        _ => None,
    }
}

/// An operand with operators and operands behind it.
///
/// Want of memory.
#[tactic(auto, using(crate::proofs::Last::binary_of_last))]
pub fn binary_of(alloc: Global, first: Exp, operands: Items<Operand>) -> Result<Exp, AllocError>
    ensures { IfOk result (λ e. e ≡ nodes.binary_of first operands) }
{
    let Some(last) = operands.as_slice().last() else {
        return Ok(first);
    };
    let span = across(first.span(), last.right.span());
    Ok(Exp::Binary(span, Boxed::new(alloc, first)?, operands))
}
