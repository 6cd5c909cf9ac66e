//! The kinds of words, by which the grammar tells tokens apart.

ghost use Rattle.std.specs.Prelude.{◌≡◌, List, bytes_eq};
ghost use Rattle.std.specs.List.{list_any};
ghost use Rattle.std.specs.Str.{all_ascii_digits};
ghost use Rattle.hs_words.specs.declared.kinds.IntTy as int_ty;
ghost use Rattle.hs_front.specs.Kinds.{built_in, is_built_in, name_kind, reserved_kind, number_kind, mark_kind, kind_of};

use crate::symbol::Kind;
use hs_lexer::TokenKind;
use hs_words::IntTy;

/// The names that no item may take.
const BUILT_IN: [&str; 44] = [
    "u8",
    "u16",
    "u32",
    "u64",
    "u128",
    "usize",
    "i8",
    "i16",
    "i32",
    "i64",
    "i128",
    "U8",
    "U16",
    "U32",
    "U64",
    "U128",
    "bool",
    "Seq",
    "Option",
    "Result",
    "Some",
    "None",
    "Ok",
    "Err",
    "U8_from_U16",
    "U8_from_U32",
    "U8_from_U64",
    "U8_from_U128",
    "U16_from_U8",
    "U16_from_U32",
    "U16_from_U64",
    "U16_from_U128",
    "U32_from_U8",
    "U32_from_U16",
    "U32_from_U64",
    "U32_from_U128",
    "U64_from_U8",
    "U64_from_U16",
    "U64_from_U32",
    "U64_from_U128",
    "U128_from_U8",
    "U128_from_U16",
    "U128_from_U32",
    "U128_from_U64",
];

/// Whether the list holds the word.
fn is_in(list: &[&str], word: &[u8]) -> bool
    ensures { result ≡ list_any (λ text. bytes_eq word.now text.now) list.now }
{
    for text in list {
        if word == text.as_bytes() {
            return true;
        }
    }
    false
}

/// Whether the word is a built-in name.
#[tactic(auto, unfolding(crate::specs::Kinds::is_built_in))]
fn is_built_in(word: &[u8]) -> bool
    ensures { result ≡ is_built_in word.now }
{
    let names: [&str; 44] = BUILT_IN;
    is_in(&names, word)
}

/// The kind of a name.
fn name_kind(word: &[u8]) -> Kind
    ensures { result ≡ name_kind word.now }
{
    if word == b"u32".as_slice() {
        Kind::U32
    } else if is_built_in(word) {
        Kind::BuiltIn
    } else {
        Kind::Name
    }
}

/// The kind of a reserved word.
#[tactic(auto, unfolding(crate::specs::Kinds::reserved_kind))]
fn reserved_kind(word: &[u8]) -> Kind
    ensures { result ≡ reserved_kind word.now }
{
    match word {
        b"pub" => Kind::Pub,
        b"fn" => Kind::Fn,
        b"let" => Kind::Let,
        b"mut" => Kind::Mut,
        _ => Kind::Other,
    }
}

/// Whether all bytes are decimal digits.
fn is_digits(word: &[u8]) -> bool
    ensures { result ≡ all_ascii_digits word.now }
{
    for byte in word {
        if !byte.is_ascii_digit() {
            return false;
        }
    }
    true
}

/// The kind of a number.
fn number_kind(value: u128, suffix: Option<IntTy>, word: &[u8]) -> Kind
    ensures { result ≡ number_kind value suffix word.now }
{
    if is_digits(word) && value < 4_294_967_296 && suffix.is_none() {
        Kind::Number
    } else {
        Kind::Other
    }
}

/// The kind of a mark.
#[tactic(auto, unfolding(crate::specs::Kinds::mark_kind))]
fn mark_kind(word: &[u8]) -> Kind
    ensures { result ≡ mark_kind word.now }
{
    match word {
        b"(" => Kind::LeftParenthesis,
        b")" => Kind::RightParenthesis,
        b"{" => Kind::LeftBrace,
        b"}" => Kind::RightBrace,
        b"," => Kind::Comma,
        b":" => Kind::Colon,
        b";" => Kind::Semicolon,
        b"->" => Kind::Arrow,
        b"=" => Kind::Equals,
        b"+" => Kind::Plus,
        _ => Kind::Other,
    }
}

/// The kind of a token with this spelling.
pub fn kind_of(kind: TokenKind, word: &[u8]) -> Kind
    ensures { result ≡ kind_of kind word.now }
{
    match kind {
        TokenKind::Name => name_kind(word),
        TokenKind::Reserved => reserved_kind(word),
        TokenKind::Int(value, suffix) => number_kind(value, suffix, word),
        TokenKind::Text => Kind::Other,
        TokenKind::Mark => mark_kind(word),
    }
}
