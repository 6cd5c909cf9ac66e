//! Writers of what stands in the text of each stage: numbers, locals, types and patterns.

ghost use Rattle.std.specs.Prelude.{◌≡◌, ◌-◌, ◌^◌, ◌++◌, ◌∷◌, map, slice_get, IsTrue, OnOk};
ghost use Rattle.hs_words.specs.Kind.{width_of, is_signed};
ghost use Rattle.hs_ops.specs.Names.{kind_name};
ghost use Rattle.hs_tree.specs.Text.{bytes_of, next_bytes, first_bytes, starred, digits, named, shown_type, shown_pattern, shown_patterns};
ghost use Rattle.hs_tree.specs.Of.{local, name_at, pattern_of, patterns_of};
ghost use Rattle.hs_tree.specs.Pending.{local_bytes};

use crate::node::Pattern;
use hs_base::memory::NoMemory;
use hs_base::name::Name;
use hs_values::{TypeTable, ValType};
use hs_words::{IntTy, Word};
use std::alloc::Global;

/// The name of a kind.
fn kind_name(kind: IntTy) -> &'static str
    ensures { result.now ≡ kind_name kind }
{
    match kind {
        IntTy::PU8 => "u8",
        IntTy::PU16 => "u16",
        IntTy::PU32 => "u32",
        IntTy::PU64 => "u64",
        IntTy::PU128 => "u128",
        IntTy::PUsize => "usize",
        IntTy::PI8 => "i8",
        IntTy::PI16 => "i16",
        IntTy::PI32 => "i32",
        IntTy::PI64 => "i64",
        IntTy::PI128 => "i128",
        IntTy::SU8 => "s8",
        IntTy::SU16 => "s16",
        IntTy::SU32 => "s32",
        IntTy::SU64 => "s64",
        IntTy::SU128 => "s128",
    }
}

/// The greatest bits of a kind: 2^width - 1.
fn mask(kind: IntTy) -> u128
    ensures { result ≡ 2 ^ width_of kind - 1 }
{
    u128::MAX >> (128 - kind.width())
}

/// The number of a word of a signed kind.
fn signed_number(word: &Word) -> i128
    requires { IsTrue (is_signed word.now.kind) }
    ensures { result ≡ word.now.number }
{
    let mask = mask(word.ty());
    let bits = word.bits();
    if bits <= mask >> 1 {
        bits as i128
    } else {
        -((mask - bits) as i128) - 1
    }
}

/// The number of a word in decimal digits.
#[tactic(auto, using(crate::proofs::Numerals::signed_digits, crate::proofs::Numerals::decimal_numeral))]
fn write_number(alloc: Global, word: &Word, text: &mut Vec<u8>) -> Result<(), NoMemory>
    ensures { OnOk result (text.new.items ≡ text.old.items ++ digits word.now.number) }
{
    if word.ty().signed() {
        let number = signed_number(word);
        let digits = format!(in alloc; "{number}")?;
        return text.extend_from_slice(digits.as_bytes());
    }
    let number = word.bits();
    let digits = format!(in alloc; "{number}")?;
    text.extend_from_slice(digits.as_bytes())
}

/// A number of a kind: the kind and the digits, a space before each.
#[tactic(auto, using(std::proofs::Common::append_assoc))]
pub fn write_word(alloc: Global, word: &Word, text: &mut Vec<u8>) -> Result<(), NoMemory>
    ensures { OnOk result (text.new.items ≡ text.old.items ++ 32 ∷ (kind_name word.now.kind ++ 32 ∷ digits word.now.number)) }
{
    text.push(b' ')?;
    text.extend_from_slice(kind_name(word.ty()).as_bytes())?;
    text.push(b' ')?;
    write_number(alloc, word, text)
}

/// The name at this place, if there is one.
fn write_name(names: &[Name], number: usize, text: &mut Vec<u8>) -> Result<(), NoMemory>
    ensures { OnOk result (text.new.items ≡ text.old.items ++ name_at (slice_get names.now number)) }
{
    match names.get(number) {
        Some(name) => text.extend_from_slice(name.bytes()),
        None => Ok(()),
    }
}

/// The name and the number of a local, a space before each.
#[tactic(auto, using(std::proofs::Common::append_assoc, crate::proofs::Numerals::decimal_numeral))]
pub fn write_local(
    alloc: Global,
    names: &[Name],
    number: usize,
    text: &mut Vec<u8>,
) -> Result<(), NoMemory>
    ensures { OnOk result (text.new.items ≡ text.old.items ++ local_bytes (local names.now number)) }
{
    text.push(b' ')?;
    write_name(names, number, text)?;
    text.push(b' ')?;
    let digits = format!(in alloc; "{number}")?;
    text.extend_from_slice(digits.as_bytes())
}

/// The name of the type at this place of the table.
#[tactic(auto, using(std::proofs::Common::append_assoc))]
fn write_named(table: &TypeTable, number: u32, text: &mut Vec<u8>) -> Result<(), NoMemory>
    ensures { OnOk result (text.new.items ≡ text.old.items ++ bytes_of (named (slice_get table.now number))) }
{
    text.extend_from_slice(b"t_")?;
    match table.get(number as usize) {
        Some(def) => text.extend_from_slice(def.name.bytes()),
        None => Ok(()),
    }
}

/// A type.
#[tactic(auto, using(std::proofs::Common::append_assoc, crate::proofs::Pieces::first_starred))]
#[cycle(ty)]
pub fn write_type(ty: &ValType, table: &TypeTable, text: &mut Vec<u8>) -> Result<(), NoMemory>
    ensures { OnOk result (text.new.items ≡ text.old.items ++ bytes_of (shown_type table.now ty.now)) }
{
    match ty {
        ValType::Unit => text.extend_from_slice(b"unit"),
        ValType::Bool => text.extend_from_slice(b"bool"),
        ValType::Int(kind) => text.extend_from_slice(kind_name(*kind).as_bytes()),
        ValType::Seq(item) => {
            text.extend_from_slice(b"(q_seq ")?;
            write_type(item.get(), table, text)?;
            text.extend_from_slice(b")")
        }
        ValType::Named(number) => write_named(table, *number, text),
        ValType::Tuple(parts) => write_parts(parts.as_slice(), table, text),
        ValType::Option(item) => {
            text.extend_from_slice(b"(option ")?;
            write_type(item.get(), table, text)?;
            text.extend_from_slice(b")")
        }
        ValType::Result(good, bad) => {
            text.extend_from_slice(b"(result ")?;
            write_type(good.get(), table, text)?;
            text.extend_from_slice(b" ")?;
            write_type(bad.get(), table, text)?;
            text.extend_from_slice(b")")
        }
    }
}

/// The type of a tuple with parts of these types.
#[cycle(ty)]
fn write_parts(parts: &[ValType], table: &TypeTable, text: &mut Vec<u8>) -> Result<(), NoMemory>
    ensures { OnOk result (text.new.items ≡ text.old.items ++ 40 ∷ first_bytes (starred (map (shown_type table.now) parts.now))) }
{
    text.extend_from_slice(b"(")?;
    if let [first, rest @ ..] = parts {
        write_type(first, table, text)?;
        for part in rest {
            text.extend_from_slice(b" * ")?;
            write_type(part, table, text)?;
        }
    }
    text.extend_from_slice(b")")
}

/// A pattern.
#[tactic(auto, using(std::proofs::Common::append_assoc))]
#[cycle(pattern)]
pub fn write_pattern(
    alloc: Global,
    pattern: &Pattern,
    names: &[Name],
    table: &TypeTable,
    text: &mut Vec<u8>,
) -> Result<(), NoMemory>
    ensures { OnOk result (text.new.items ≡ text.old.items ++ bytes_of (shown_pattern table.now (pattern_of names.now pattern.now))) }
{
    match pattern {
        Pattern::Local(local) => {
            text.extend_from_slice(b"(var")?;
            write_local(alloc, names, *local, text)?;
            text.extend_from_slice(b")")
        }
        Pattern::Any => text.extend_from_slice(b"_"),
        Pattern::Tuple(parts) => {
            text.extend_from_slice(b"(tuple")?;
            write_patterns(alloc, parts.as_slice(), names, table, text)
        }
        Pattern::Ctor(ty, name, parts) => {
            text.extend_from_slice(b"(ctor ")?;
            write_type(ty.get(), table, text)?;
            text.extend_from_slice(b" ")?;
            text.extend_from_slice(name.bytes())?;
            write_patterns(alloc, parts.as_slice(), names, table, text)
        }
    }
}

/// Patterns, a space before each, and the closing bracket.
#[cycle(pattern)]
fn write_patterns(
    alloc: Global,
    parts: &[Pattern],
    names: &[Name],
    table: &TypeTable,
    text: &mut Vec<u8>,
) -> Result<(), NoMemory>
    ensures { OnOk result (text.new.items ≡ text.old.items ++ next_bytes (shown_patterns table.now (patterns_of (map (pattern_of names.now) parts.now)))) }
{
    for part in parts {
        text.extend_from_slice(b" ")?;
        write_pattern(alloc, part, names, table, text)?;
    }
    text.extend_from_slice(b")")
}
