//! The built-in names.

ghost use Rattle.std.specs.Prelude.{◌≡◌, bytes_eq};
ghost use Rattle.hs_symbols.specs.Words.{listed, publics, secrets, truth, sequence, maybe, outcome, ctors, empty_ctor, conversions_to_8, conversions_to_16, conversions_to_32, conversions_to_64, conversions_to_128, conversion, type_word, maker_word, called_word, ctor_word, built_in};

use crate::referent::BuiltIn;
use hs_words::IntTy;

/// Whether the bytes are those of the text.
fn is(bytes: &[u8], text: &str) -> bool
    ensures { result ≡ bytes_eq bytes.now text.now }
{
    bytes == text.as_bytes()
}

/// A public integer type.
fn public_integer(name: &[u8]) -> Option<BuiltIn>
    ensures { result ≡ listed publics name.now }
{
    if is(name, "u8") {
        Some(BuiltIn::Int(IntTy::PU8))
    } else if is(name, "u16") {
        Some(BuiltIn::Int(IntTy::PU16))
    } else if is(name, "u32") {
        Some(BuiltIn::Int(IntTy::PU32))
    } else if is(name, "u64") {
        Some(BuiltIn::Int(IntTy::PU64))
    } else if is(name, "u128") {
        Some(BuiltIn::Int(IntTy::PU128))
    } else if is(name, "usize") {
        Some(BuiltIn::Int(IntTy::PUsize))
    } else if is(name, "i8") {
        Some(BuiltIn::Int(IntTy::PI8))
    } else if is(name, "i16") {
        Some(BuiltIn::Int(IntTy::PI16))
    } else if is(name, "i32") {
        Some(BuiltIn::Int(IntTy::PI32))
    } else if is(name, "i64") {
        Some(BuiltIn::Int(IntTy::PI64))
    } else if is(name, "i128") {
        Some(BuiltIn::Int(IntTy::PI128))
    } else {
        None
    }
}

/// A secret integer type, which before `(` classifies a number.
fn secret_integer(name: &[u8]) -> Option<BuiltIn>
    ensures { result ≡ listed secrets name.now }
{
    if is(name, "U8") {
        Some(BuiltIn::Int(IntTy::SU8))
    } else if is(name, "U16") {
        Some(BuiltIn::Int(IntTy::SU16))
    } else if is(name, "U32") {
        Some(BuiltIn::Int(IntTy::SU32))
    } else if is(name, "U64") {
        Some(BuiltIn::Int(IntTy::SU64))
    } else if is(name, "U128") {
        Some(BuiltIn::Int(IntTy::SU128))
    } else {
        None
    }
}

/// A conversion to `U8`.
fn conversion_to_8(name: &[u8]) -> Option<BuiltIn>
    ensures { result ≡ listed conversions_to_8 name.now }
{
    if is(name, "U8_from_U16") {
        Some(BuiltIn::Convert(IntTy::SU8, IntTy::SU16))
    } else if is(name, "U8_from_U32") {
        Some(BuiltIn::Convert(IntTy::SU8, IntTy::SU32))
    } else if is(name, "U8_from_U64") {
        Some(BuiltIn::Convert(IntTy::SU8, IntTy::SU64))
    } else if is(name, "U8_from_U128") {
        Some(BuiltIn::Convert(IntTy::SU8, IntTy::SU128))
    } else {
        None
    }
}

/// A conversion to `U16`.
fn conversion_to_16(name: &[u8]) -> Option<BuiltIn>
    ensures { result ≡ listed conversions_to_16 name.now }
{
    if is(name, "U16_from_U8") {
        Some(BuiltIn::Convert(IntTy::SU16, IntTy::SU8))
    } else if is(name, "U16_from_U32") {
        Some(BuiltIn::Convert(IntTy::SU16, IntTy::SU32))
    } else if is(name, "U16_from_U64") {
        Some(BuiltIn::Convert(IntTy::SU16, IntTy::SU64))
    } else if is(name, "U16_from_U128") {
        Some(BuiltIn::Convert(IntTy::SU16, IntTy::SU128))
    } else {
        None
    }
}

/// A conversion to `U32`.
fn conversion_to_32(name: &[u8]) -> Option<BuiltIn>
    ensures { result ≡ listed conversions_to_32 name.now }
{
    if is(name, "U32_from_U8") {
        Some(BuiltIn::Convert(IntTy::SU32, IntTy::SU8))
    } else if is(name, "U32_from_U16") {
        Some(BuiltIn::Convert(IntTy::SU32, IntTy::SU16))
    } else if is(name, "U32_from_U64") {
        Some(BuiltIn::Convert(IntTy::SU32, IntTy::SU64))
    } else if is(name, "U32_from_U128") {
        Some(BuiltIn::Convert(IntTy::SU32, IntTy::SU128))
    } else {
        None
    }
}

/// A conversion to `U64`.
fn conversion_to_64(name: &[u8]) -> Option<BuiltIn>
    ensures { result ≡ listed conversions_to_64 name.now }
{
    if is(name, "U64_from_U8") {
        Some(BuiltIn::Convert(IntTy::SU64, IntTy::SU8))
    } else if is(name, "U64_from_U16") {
        Some(BuiltIn::Convert(IntTy::SU64, IntTy::SU16))
    } else if is(name, "U64_from_U32") {
        Some(BuiltIn::Convert(IntTy::SU64, IntTy::SU32))
    } else if is(name, "U64_from_U128") {
        Some(BuiltIn::Convert(IntTy::SU64, IntTy::SU128))
    } else {
        None
    }
}

/// A conversion to `U128`.
fn conversion_to_128(name: &[u8]) -> Option<BuiltIn>
    ensures { result ≡ listed conversions_to_128 name.now }
{
    if is(name, "U128_from_U8") {
        Some(BuiltIn::Convert(IntTy::SU128, IntTy::SU8))
    } else if is(name, "U128_from_U16") {
        Some(BuiltIn::Convert(IntTy::SU128, IntTy::SU16))
    } else if is(name, "U128_from_U32") {
        Some(BuiltIn::Convert(IntTy::SU128, IntTy::SU32))
    } else if is(name, "U128_from_U64") {
        Some(BuiltIn::Convert(IntTy::SU128, IntTy::SU64))
    } else {
        None
    }
}

/// `bool`.
fn truth(name: &[u8]) -> Option<BuiltIn>
    ensures { result ≡ listed truth name.now }
{
    if is(name, "bool") {
        Some(BuiltIn::Bool)
    } else {
        None
    }
}

/// `Seq`, which can stand before `::<`.
pub fn sequence(name: &[u8]) -> Option<BuiltIn>
    ensures { result ≡ listed sequence name.now }
{
    if is(name, "Seq") {
        Some(BuiltIn::Seq)
    } else {
        None
    }
}

/// `Option`.
fn maybe(name: &[u8]) -> Option<BuiltIn>
    ensures { result ≡ listed maybe name.now }
{
    if is(name, "Option") {
        Some(BuiltIn::Option)
    } else {
        None
    }
}

/// `Result`.
fn outcome(name: &[u8]) -> Option<BuiltIn>
    ensures { result ≡ listed outcome name.now }
{
    if is(name, "Result") {
        Some(BuiltIn::Result)
    } else {
        None
    }
}

/// A constructor with a part.
fn ctor(name: &[u8]) -> Option<BuiltIn>
    ensures { result ≡ listed ctors name.now }
{
    if is(name, "Some") {
        Some(BuiltIn::Some)
    } else if is(name, "Ok") {
        Some(BuiltIn::Ok)
    } else if is(name, "Err") {
        Some(BuiltIn::Err)
    } else {
        None
    }
}

/// `None`.
pub fn empty_ctor(name: &[u8]) -> Option<BuiltIn>
    ensures { result ≡ listed empty_ctor name.now }
{
    if is(name, "None") {
        Some(BuiltIn::None)
    } else {
        None
    }
}

/// A conversion between secret kinds.
fn conversion(name: &[u8]) -> Option<BuiltIn>
    ensures { result ≡ conversion name.now }
{
    conversion_to_8(name)
        .or_else(|| conversion_to_16(name))
        .or_else(|| conversion_to_32(name))
        .or_else(|| conversion_to_64(name))
        .or_else(|| conversion_to_128(name))
}

/// A type by one word.
pub fn type_word(name: &[u8]) -> Option<BuiltIn>
    ensures { result ≡ type_word name.now }
{
    public_integer(name)
        .or_else(|| secret_integer(name))
        .or_else(|| truth(name))
}

/// What makes a type of so many types.
pub fn maker_word(name: &[u8], types: usize) -> Option<BuiltIn>
    ensures { result ≡ maker_word name.now types }
{
    match types {
        1 => sequence(name).or_else(|| maybe(name)),
        2 => outcome(name),
        _ => None,
    }
}

/// What can stand before `(`.
pub fn called_word(name: &[u8]) -> Option<BuiltIn>
    ensures { result ≡ called_word name.now }
{
    secret_integer(name)
        .or_else(|| ctor(name))
        .or_else(|| conversion(name))
}

/// What can begin a pattern.
pub fn ctor_word(name: &[u8]) -> Option<BuiltIn>
    ensures { result ≡ ctor_word name.now }
{
    ctor(name).or_else(|| empty_ctor(name))
}

/// Any built-in name.
pub fn built_in(name: &[u8]) -> Option<BuiltIn>
    ensures { result ≡ built_in name.now }
{
    type_word(name)
        .or_else(|| sequence(name))
        .or_else(|| maybe(name))
        .or_else(|| outcome(name))
        .or_else(|| ctor_word(name))
        .or_else(|| conversion(name))
}
