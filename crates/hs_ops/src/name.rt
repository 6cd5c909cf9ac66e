//! How operations are called.

ghost use Rattle.std.specs.Prelude.{◌≡◌, ◌<◌, ◌++◌, codes, IfOk, OnOk, IsTrue};
ghost use Rattle.hs_ops.specs.Names.{kind_name, ending, single_name, digits, name_of};
ghost use Rattle.hs_ops.specs.Known.{is_known};

use crate::operation::{NumberOp, Operation, SingleOp};
use hs_base::memory::NoMemory;
use hs_base::name::Name;
use hs_words::IntTy;
use std::alloc::Global;

/// The name of a kind.
fn kind_name(kind: IntTy) -> &'static str
    ensures { result.now ≡ kind_name kind }
{
    match kind {
        IntTy::PU8 => "u8",
        IntTy::PU16 => "u16",
        IntTy::PU32 => "u32",
        IntTy::PU64 => "u64",
        IntTy::PU128 => "u128",
        IntTy::PUsize => "usize",
        IntTy::PI8 => "i8",
        IntTy::PI16 => "i16",
        IntTy::PI32 => "i32",
        IntTy::PI64 => "i64",
        IntTy::PI128 => "i128",
        IntTy::SU8 => "s8",
        IntTy::SU16 => "s16",
        IntTy::SU32 => "s32",
        IntTy::SU64 => "s64",
        IntTy::SU128 => "s128",
    }
}

/// The end of the name of an operation on numbers.
fn ending(op: NumberOp) -> &'static str
    ensures { result.now ≡ ending op }
{
    match op {
        NumberOp::Add => "_add",
        NumberOp::Sub => "_sub",
        NumberOp::Mul => "_mul",
        NumberOp::Div => "_div",
        NumberOp::Rem => "_rem",
        NumberOp::Neg => "_neg",
        NumberOp::And => "_and",
        NumberOp::Or => "_or",
        NumberOp::Xor => "_xor",
        NumberOp::Not => "_not",
        NumberOp::Shl => "_shl",
        NumberOp::Shr => "_shr",
        NumberOp::Rotl => "_rotl",
        NumberOp::Rotr => "_rotr",
        NumberOp::Wadd => "_wadd",
        NumberOp::Wsub => "_wsub",
        NumberOp::Wmul => "_wmul",
        NumberOp::Lt => "_lt",
        NumberOp::Le => "_le",
        NumberOp::Gt => "_gt",
        NumberOp::Ge => "_ge",
        NumberOp::Classify => "_classify",
        NumberOp::Declassify => "_declassify",
        NumberOp::ToLe => "_to_le",
        NumberOp::ToBe => "_to_be",
        NumberOp::FromLe => "_from_le",
        NumberOp::FromBe => "_from_be",
    }
}

/// The name of an operation that there is once.
fn single_name(op: SingleOp) -> &'static str
    ensures { result.now ≡ single_name op }
{
    match op {
        SingleOp::BoolNot => "bool_not",
        SingleOp::Same => "same",
        SingleOp::Differ => "differ",
        SingleOp::Item => "q_item",
        SingleOp::Set => "q_set",
        SingleOp::Len => "q_len",
        SingleOp::Make => "q_make",
        SingleOp::ListOf => "q_list",
        SingleOp::Concat => "q_concat",
        SingleOp::Push => "q_push",
        SingleOp::Slice => "q_slice",
        SingleOp::Put => "q_put",
        SingleOp::NumChunks => "q_num_chunks",
        SingleOp::GetChunk => "q_get_chunk",
        SingleOp::SetChunk => "q_set_chunk",
        SingleOp::ToArray => "q_to_array",
        SingleOp::ToSeq => "q_to_seq",
        SingleOp::OptUnwrap => "opt_unwrap",
        SingleOp::ResUnwrap => "res_unwrap",
        SingleOp::OptIsSome => "opt_is_some",
        SingleOp::OptIsNone => "opt_is_none",
        SingleOp::ResIsOk => "res_is_ok",
        SingleOp::ResIsErr => "res_is_err",
        SingleOp::Clone => "clone",
    }
}

/// Two texts, one behind the other.
fn joined(alloc: Global, first: &str, second: &str) -> Result<Vec<u8>, NoMemory>
    ensures { IfOk result (λ text. text.items ≡ first.now ++ second.now) }
{
    let mut text = Vec::new(alloc);
    text.extend_from_slice(first.as_bytes())?;
    text.extend_from_slice(second.as_bytes())?;
    Ok(text)
}

/// A number below 100 in decimal digits at the end of a text.
fn push_digits(text: &mut Vec<u8>, number: u32) -> Result<(), NoMemory>
    requires { number < 100 }
    ensures { OnOk result (text.new.items ≡ text.old.items ++ digits number) }
{
    if number >= 10 {
        text.push(b'0' + (number / 10) as u8)?;
    }
    text.push(b'0' + (number % 10) as u8)?;
    Ok(())
}

/// The name of an operation on part `at` of a tuple of `count` parts.
fn tuple_name(alloc: Global, count: u32, middle: &str, at: u32) -> Result<Vec<u8>, NoMemory>
    requires count { count < 100 }
    requires at { at < 100 }
    ensures { IfOk result (λ text. text.items ≡ codes "tup" ++ digits count ++ middle.now ++ digits at) }
{
    let mut text = Vec::new(alloc);
    text.extend_from_slice(b"tup")?;
    push_digits(&mut text, count)?;
    text.extend_from_slice(middle.as_bytes())?;
    push_digits(&mut text, at)?;
    Ok(text)
}

/// The name of a conversion.
fn cast_name(alloc: Global, from: IntTy, to: IntTy) -> Result<Vec<u8>, NoMemory>
    ensures { IfOk result (λ text. text.items ≡ kind_name to ++ codes "_of_" ++ kind_name from) }
{
    let mut text = joined(alloc, kind_name(to), "_of_")?;
    text.extend_from_slice(kind_name(from).as_bytes())?;
    Ok(text)
}

/// The name of an operation that there is.
pub fn name_of(alloc: Global, operation: Operation) -> Result<Name, NoMemory>
    requires { IsTrue (is_known operation) }
    ensures { IfOk result (λ name. name ≡ name_of operation) }
{
    let text = match operation {
        Operation::Number(op, kind) => joined(alloc, kind_name(kind), ending(op))?,
        Operation::Cast(from, to) => cast_name(alloc, from, to)?,
        Operation::Part(count, at) => tuple_name(alloc, count, "_", at)?,
        Operation::SetPart(count, at) => tuple_name(alloc, count, "_set_", at)?,
        Operation::Single(op) => joined(alloc, single_name(op), "")?,
    };
    Name::of_bytes(alloc, &text)
}
