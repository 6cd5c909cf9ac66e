//! Integers: a base, digits, an ending.

ghost use Rattle.std.specs.Prelude.{◌≡◌, ℕ, ◌+◌, ◌*◌, ◌≤◌, ◌<◌, ◌^◌, filter, take, drop, length, SomeIff};
ghost use Rattle.std.specs.List.{prefix_len, list_any};
ghost use Rattle.std.specs.Str.Parse.{digits_value};
ghost use Rattle.hs_lexer.specs.Numbers.{based, is_digit_of, is_run_byte, value_with, kind_named, suffix_of, fits, limited, integer_of};

use crate::token::TokenKind;
use hs_base::rule::Rule;
use hs_words::IntTy;

// The base that the prefix names, and what stands behind the prefix.
#[tactic(auto, unfolding(crate::specs::Numbers::based))]
fn split_base(word: &[u8]) -> (u32, &[u8])
    ensures base { result.0 ≡ (based word.now).0 }
    ensures body { result.1.now ≡ (based word.now).1 }
    ensures low { 2 ≤ result.0 }
    ensures high { result.0 ≤ 16 }
{
    match word {
        [b'0', b'x', body @ ..] => (16, body),
        [b'0', b'o', body @ ..] => (8, body),
        [b'0', b'b', body @ ..] => (2, body),
        _ => (10, word),
    }
}

#[tactic(auto, unfolding(crate::specs::Numbers::is_digit_of))]
fn is_digit_of(base: u32, byte: u8) -> bool
    requires low { 2 ≤ base }
    requires high { base ≤ 16 }
    ensures { result ≡ is_digit_of base byte }
{
    char::from(byte).to_digit(base).is_some()
}

// How many digits and `_` the body begins with.
fn run_length(base: u32, body: &[u8]) -> usize
    requires low { 2 ≤ base }
    requires high { base ≤ 16 }
    ensures value { result ≡ prefix_len (is_run_byte base) body.now }
    ensures within { result ≤ length body.now }
{
    body.iter()
        .take_while(|byte| is_digit_of(base, **byte) || **byte == b'_')
        .count()
}

fn has_digit(base: u32, run: &[u8]) -> bool
    requires low { 2 ≤ base }
    requires high { base ≤ 16 }
    ensures { result ≡ list_any (is_digit_of base) run.now }
{
    run.iter().any(|byte| is_digit_of(base, *byte))
}

// The value with one byte more, which counts where it is a digit; none where that is not below 2^128.
#[tactic(auto, unfolding(crate::specs::Numbers::is_digit_of))]
fn with_byte(value: u128, base: u32, byte: u8) -> Option<u128>
    requires low { 2 ≤ base }
    requires high { base ≤ 16 }
    ensures { let more = value_with base value byte in SomeIff result (more < 2 ^ 128) more }
{
    match char::from(byte).to_digit(base) {
        Some(digit) => value
            .checked_mul(u128::from(base))?
            .checked_add(u128::from(digit)),
        None => Some(value),
    }
}

// The value of the digits, where it is below 2^128.
fn value_of(base: u32, run: &[u8]) -> Option<u128>
    requires low { 2 ≤ base }
    requires high { base ≤ 16 }
    ensures { let value = digits_value base (filter (is_digit_of base) run.now) in SomeIff result (value < 2 ^ 128) value }
{
    let mut value: u128 = 0;
    for byte in run {
        value = with_byte(value, base, *byte)?;
    }
    Some(value)
}

// The kind of integers that an ending names.
#[tactic(auto, unfolding(crate::specs::Numbers::kind_named))]
fn kind_named(ending: &[u8]) -> Option<IntTy>
    ensures { result ≡ kind_named ending.now }
{
    match ending {
        b"u8" => Some(IntTy::PU8),
        b"u16" => Some(IntTy::PU16),
        b"u32" => Some(IntTy::PU32),
        b"u64" => Some(IntTy::PU64),
        b"u128" => Some(IntTy::PU128),
        b"usize" => Some(IntTy::PUsize),
        b"i8" => Some(IntTy::PI8),
        b"i16" => Some(IntTy::PI16),
        b"i32" => Some(IntTy::PI32),
        b"i64" => Some(IntTy::PI64),
        b"i128" => Some(IntTy::PI128),
        _ => None,
    }
}

// No suffix where there is no ending, and no answer where the ending is none.
#[tactic(auto, unfolding(crate::specs::Numbers::suffix_of))]
fn suffix_of(ending: &[u8]) -> Option<Option<IntTy>>
    ensures { result ≡ suffix_of ending.now }
{
    if ending.is_empty() {
        return Some(None);
    }
    match kind_named(ending) {
        Some(kind) => Some(Some(kind)),
        None => None,
    }
}

// Whether a literal fits its suffix: with a minus before it, also 2^(w-1) of a signed kind does.
#[tactic(auto, unfolding(crate::specs::Numbers::fits))]
fn fits(suffix: Option<IntTy>, value: u128) -> bool
    ensures { result ≡ fits suffix value }
{
    let Some(kind) = suffix else {
        return true;
    };
    if kind.signed() {
        value <= 1 << (kind.width() - 1)
    } else {
        value <= u128::MAX >> (128 - kind.width())
    }
}

// The integer of this value and suffix, or the limit that it passes.
#[tactic(auto, unfolding(crate::specs::Numbers::limited))]
fn limited(suffix: Option<IntTy>, value: Option<u128>) -> Result<TokenKind, Rule>
    ensures { (n : ℕ) → SomeIff value (n < 2 ^ 128) n → result ≡ limited suffix n }
{
    match value {
        Some(value) if fits(suffix, value) => Ok(TokenKind::Int(value, suffix)),
        Some(_) => Err(Rule::X6),
        None => Err(Rule::X5),
    }
}

/// The integer that a word spells, or the first rule that it breaks.
#[tactic(auto, unfolding(crate::specs::Numbers::integer_of))]
pub(crate) fn integer_of(word: &[u8]) -> Result<TokenKind, Rule>
    ensures { result ≡ integer_of word.now }
{
    let (base, body) = split_base(word);
    let (run, ending) = body.split_at(run_length(base, body));
    if !has_digit(base, run) {
        return Err(Rule::X3);
    }
    let Some(suffix) = suffix_of(ending) else {
        return Err(Rule::X4);
    };
    limited(suffix, value_of(base, run))
}
