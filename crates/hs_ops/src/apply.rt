//! What each operation gives.

ghost use Rattle.std.specs.Prelude.{IsTrue};
ghost use Rattle.hs_ops.specs.Answer.{Tells};
ghost use Rattle.hs_ops.specs.Known.{is_for, is_known};
ghost use Rattle.hs_ops.specs.Op.{number_answer, single_answer, answer};

use crate::known::public_of;
use crate::operation::{NumberOp, Operation, SingleOp};
use crate::row::OpStop;
use crate::{byte, list, number, part};
use hs_values::{Value, Values};
use hs_words::IntTy;
use std::alloc::Global;

/// What an operation on numbers of a kind gives.
fn apply_number(alloc: Global, op: NumberOp, kind: IntTy, args: Values) -> Result<Value, OpStop>
    requires { IsTrue (is_for op kind) }
    ensures { Tells result (number_answer op kind args) }
{
    match op {
        NumberOp::Add => number::add(kind, args),
        NumberOp::Sub => number::sub(kind, args),
        NumberOp::Mul => number::mul(kind, args),
        NumberOp::Div => number::div(kind, args),
        NumberOp::Rem => number::rem(kind, args),
        NumberOp::Neg => number::neg(kind, args),
        NumberOp::And => number::and(kind, args),
        NumberOp::Or => number::or(kind, args),
        NumberOp::Xor => number::xor(kind, args),
        NumberOp::Not => number::complement(kind, args),
        NumberOp::Shl => number::shl(kind, args),
        NumberOp::Shr => number::shr(kind, args),
        NumberOp::Rotl => number::rotl(kind, args),
        NumberOp::Rotr => number::rotr(kind, args),
        NumberOp::Wadd => number::wadd(kind, args),
        NumberOp::Wsub => number::wsub(kind, args),
        NumberOp::Wmul => number::wmul(kind, args),
        NumberOp::Lt => number::lt(kind, args),
        NumberOp::Le => number::le(kind, args),
        NumberOp::Gt => number::gt(kind, args),
        NumberOp::Ge => number::ge(kind, args),
        NumberOp::Classify => number::cast(public_of(kind), kind, args),
        NumberOp::Declassify => number::cast(kind, public_of(kind), args),
        NumberOp::ToLe => byte::to_le(alloc, kind, args),
        NumberOp::ToBe => byte::to_be(alloc, kind, args),
        NumberOp::FromLe => byte::from_le(alloc, kind, args),
        NumberOp::FromBe => byte::from_be(alloc, kind, args),
    }
}

/// What an operation that there is once gives.
fn apply_single(alloc: Global, op: SingleOp, args: Values) -> Result<Value, OpStop>
    ensures { Tells result (single_answer op args) }
{
    match op {
        SingleOp::BoolNot => number::bool_not(args),
        SingleOp::Same => part::same(args),
        SingleOp::Differ => part::differ(args),
        SingleOp::Item => list::item(args),
        SingleOp::Set => list::set(args),
        SingleOp::Len => list::len(args),
        SingleOp::Make => list::make(alloc, args),
        SingleOp::ListOf => list::list(args),
        SingleOp::Concat => list::concat(args),
        SingleOp::Push => list::push(args),
        SingleOp::Slice => list::slice(alloc, args),
        SingleOp::Put => list::put(args),
        SingleOp::NumChunks => list::num_chunks(args),
        SingleOp::GetChunk => list::get_chunk(alloc, args),
        SingleOp::SetChunk => list::set_chunk(args),
        SingleOp::ToArray => list::to_array(args),
        SingleOp::ToSeq => list::to_seq(args),
        SingleOp::OptUnwrap => part::opt_unwrap(args),
        SingleOp::ResUnwrap => part::res_unwrap(args),
        SingleOp::OptIsSome => part::opt_is_some(args),
        SingleOp::OptIsNone => part::opt_is_none(args),
        SingleOp::ResIsOk => part::res_is_ok(args),
        SingleOp::ResIsErr => part::res_is_err(args),
        SingleOp::Clone => part::clone(args),
    }
}

/// What an operation that there is gives.
pub fn apply(alloc: Global, operation: Operation, args: Values) -> Result<Value, OpStop>
    requires { IsTrue (is_known operation) }
    ensures { Tells result (answer operation args) }
{
    match operation {
        Operation::Number(op, kind) => apply_number(alloc, op, kind, args),
        Operation::Cast(from, to) => number::cast(from, to, args),
        Operation::Part(count, at) => part::part(count, at, args),
        Operation::SetPart(count, at) => part::set_part(count, at, args),
        Operation::Single(op) => apply_single(alloc, op, args),
    }
}
