//! Numbers as rows of their bytes.

ghost use Rattle.std.specs.Prelude.{◌≡◌, ◌<◌, ◌≤◌, ◌^◌, IfOk, length, reverse, option_map};
ghost use Rattle.hs_words.specs.declared.kinds.IntTy.{IntTy};
ghost use Rattle.hs_words.specs.Kind.{width_of};
ghost use Rattle.hs_words.specs.Word.{bits_of, from_bits};
ghost use Rattle.hs_values.specs.declared.value.Value.TheVariants as value;
ghost use Rattle.hs_ops.specs.Answer.{Tells};
ghost use Rattle.hs_ops.specs.Views.{as_bytes, as_int, bits_in};
ghost use Rattle.hs_ops.specs.Op.{byte_of};
ghost use Rattle.hs_ops.specs.Numbers as numbers;

use crate::known::{byte_kind, same_kind};
use crate::row::OpStop;
use crate::view::{one, word_of};
use hs_base::memory::NoMemory;
use hs_values::{Value, Values};
use hs_words::{IntTy, Panic, Word};
use sqlite_items::Items;
use std::alloc::Global;

/// So many bytes of the bits, the lowest first.
fn bytes_of(alloc: Global, count: u32, bits: u128) -> Result<Vec<u8>, NoMemory>
    ensures { IfOk result (λ bytes. bytes.items ≡ numbers.bytes_of count bits) }
{
    let mut bytes = Vec::new(alloc);
    let mut left = bits;
    for _done in 0..count {
        bytes.push((left % 256) as u8)?;
        left /= 256;
    }
    Ok(bytes)
}

/// The number of the kind with these bits.
fn byte_value(kind: IntTy, byte: u8) -> Value
    ensures { result ≡ value.Int (from_bits kind byte) }
{
    match Word::new(kind, byte as u128) {
        Some(word) => Value::Int(word),
        None => unreachable!(),
    }
}

/// Bytes as a sequence of numbers of the kind.
fn byte_row(alloc: Global, kind: IntTy, bytes: &[u8]) -> Result<Value, OpStop>
    ensures { Tells result (numbers.byte_row kind bytes.now) }
{
    let mut row: Values = Items::new(alloc);
    for byte in bytes {
        row.push(byte_value(kind, *byte))?;
    }
    Ok(Value::Seq(row))
}

/// The bytes of a number, the lowest first.
pub fn to_le(alloc: Global, kind: IntTy, args: Values) -> Result<Value, OpStop>
    ensures { Tells result (numbers.to_le (byte_of kind) kind args) }
{
    let word = word_of(one(args)?, kind)?;
    let bytes = bytes_of(alloc, kind.width() / 8, word.bits())?;
    byte_row(alloc, byte_kind(kind), &bytes)
}

/// The bytes of a number, the highest first.
pub fn to_be(alloc: Global, kind: IntTy, args: Values) -> Result<Value, OpStop>
    ensures { Tells result (numbers.to_be (byte_of kind) kind args) }
{
    let word = word_of(one(args)?, kind)?;
    let mut bytes = bytes_of(alloc, kind.width() / 8, word.bits())?;
    bytes.reverse();
    byte_row(alloc, byte_kind(kind), &bytes)
}

/// The bits of a number of the kind, which has 8.
fn byte_at(value: &Value, kind: IntTy) -> Option<u8>
    requires { width_of kind ≡ 8 }
    ensures { result ≡ option_map (λ n. bits_of kind n.number) (as_int kind value.now) }
{
    match value {
        Value::Int(word) => {
            if same_kind(word.ty(), kind) {
                Some(word.bits() as u8)
            } else {
                None
            }
        }
        _ => None,
    }
}

/// The bits of numbers of the kind, which has 8; none where one of the values is no such number.
fn bytes_in(alloc: Global, values: &[Value], kind: IntTy) -> Result<Option<Vec<u8>>, NoMemory>
    requires { width_of kind ≡ 8 }
    ensures { IfOk result (λ bytes. option_map (λ b. b.items) bytes ≡ bits_in kind values.now) }
{
    let mut bytes = Vec::new(alloc);
    for value in values {
        match byte_at(value, kind) {
            Some(byte) => bytes.push(byte)?,
            None => return Ok(None),
        }
    }
    Ok(Some(bytes))
}

/// The bytes of a row of numbers of the kind, which has 8 bits; none where the value is no such row.
fn bytes_of_row(alloc: Global, value: Value, kind: IntTy) -> Result<Option<Vec<u8>>, NoMemory>
    requires { width_of kind ≡ 8 }
    ensures { IfOk result (λ bytes. option_map (λ b. b.items) bytes ≡ as_bytes kind value) }
{
    match value {
        Value::Seq(items) => bytes_in(alloc, items.as_slice(), kind),
        _ => Ok(None),
    }
}

/// The bits whose bytes these are, the highest first.
fn bits_of_bytes(bytes: &[u8]) -> u128
    requires { length bytes.now ≤ 16 }
    ensures value { result ≡ numbers.bits_from (reverse bytes.now) }
    ensures range { result < 256 ^ length bytes.now }
{
    let mut bits: u128 = 0;
    for byte in bytes {
        bits = bits * 256 + *byte as u128;
    }
    bits
}

/// The number of the kind with these bytes, the highest first.
fn from_bytes(kind: IntTy, bytes: &[u8]) -> Result<Value, OpStop>
    ensures { Tells result (numbers.from_bytes kind (reverse bytes.now)) }
{
    if bytes.len() != (kind.width() / 8) as usize {
        return Err(OpStop::Panic(Panic::Length));
    }
    match Word::new(kind, bits_of_bytes(bytes)) {
        Some(word) => Ok(Value::Int(word)),
        None => unreachable!(),
    }
}

/// The number of these bytes, the lowest first.
pub fn from_le(alloc: Global, kind: IntTy, args: Values) -> Result<Value, OpStop>
    ensures { Tells result (numbers.from_le (byte_of kind) kind args) }
{
    match bytes_of_row(alloc, one(args)?, byte_kind(kind))? {
        Some(mut bytes) => {
            bytes.reverse();
            from_bytes(kind, &bytes)
        }
        None => Err(OpStop::Kind),
    }
}

/// The number of these bytes, the highest first.
pub fn from_be(alloc: Global, kind: IntTy, args: Values) -> Result<Value, OpStop>
    ensures { Tells result (numbers.from_be (byte_of kind) kind args) }
{
    match bytes_of_row(alloc, one(args)?, byte_kind(kind))? {
        Some(bytes) => from_bytes(kind, &bytes),
        None => Err(OpStop::Kind),
    }
}
