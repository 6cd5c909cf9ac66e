//! The kinds of words and marks.

ghost use Rattle.std.specs.Prelude.{◌≡◌, bytes_eq};
ghost use Rattle.std.specs.Str.{all_ascii_digits};
ghost use Rattle.hs_forms.specs.Kinds.{named, long_marks, reserved_kind, name_kind, mark_kind, number_kind, kind_of};
ghost use Rattle.hs_forms.specs.declared.token.Kind.TheVariants.{Unused};

use crate::token::Kind;
use hs_lexer::TokenKind;

/// Whether the bytes are those of the text.
fn is(bytes: &[u8], text: &str) -> bool
    ensures { result ≡ bytes_eq bytes.now text.now }
{
    bytes == text.as_bytes()
}

/// The kind of a reserved word.
#[tactic(auto, unfolding(crate::specs::Kinds::reserved_kind))]
fn reserved_kind(bytes: &[u8]) -> Kind
    ensures { result ≡ reserved_kind bytes.now }
{
    if is(bytes, "as") {
        Kind::As
    } else if is(bytes, "const") {
        Kind::Const
    } else if is(bytes, "else") {
        Kind::Else
    } else if is(bytes, "enum") {
        Kind::Enum
    } else if is(bytes, "false") {
        Kind::False
    } else if is(bytes, "fn") {
        Kind::Fn
    } else if is(bytes, "for") {
        Kind::For
    } else if is(bytes, "if") {
        Kind::If
    } else if is(bytes, "in") {
        Kind::In
    } else if is(bytes, "let") {
        Kind::Let
    } else if is(bytes, "match") {
        Kind::Match
    } else if is(bytes, "mut") {
        Kind::Mut
    } else if is(bytes, "pub") {
        Kind::Pub
    } else if is(bytes, "return") {
        Kind::Return
    } else if is(bytes, "struct") {
        Kind::Struct
    } else if is(bytes, "true") {
        Kind::True
    } else if is(bytes, "type") {
        Kind::Type
    } else if is(bytes, "use") {
        Kind::Use
    } else {
        Kind::Unused
    }
}

/// The kind of a name.
#[tactic(auto, unfolding(crate::specs::Kinds::name_kind))]
fn name_kind(bytes: &[u8]) -> Kind
    ensures { result ≡ name_kind bytes.now }
{
    if is(bytes, "array") {
        Kind::Array
    } else if is(bytes, "bytes") {
        Kind::Bytes
    } else if is(bytes, "nat_mod") {
        Kind::NatMod
    } else if is(bytes, "hacspec_lib") {
        Kind::HacspecLib
    } else if is(bytes, "derive") {
        Kind::Derive
    } else if is(bytes, "type_name") {
        Kind::TypeName
    } else if is(bytes, "type_of_canvas") {
        Kind::TypeOfCanvas
    } else if is(bytes, "bit_size_of_field") {
        Kind::BitSizeOfField
    } else if is(bytes, "modulo_value") {
        Kind::ModuloValue
    } else {
        Kind::Name
    }
}

/// The kind of a mark of two or three bytes; of `>>` the first half.
fn long_mark_kind(bytes: &[u8]) -> Kind
    ensures { result ≡ named long_marks Unused bytes.now }
{
    match bytes {
        b"::" => Kind::PathSeparator,
        b".." => Kind::DotDot,
        b"->" => Kind::Arrow,
        b"=>" => Kind::FatArrow,
        b"&&" => Kind::AndAnd,
        b"||" => Kind::OrOr,
        b"<<" => Kind::ShiftLeft,
        b">>" => Kind::ShiftFront,
        b"==" => Kind::EqualsEquals,
        b"!=" => Kind::NotEquals,
        b"<=" => Kind::LessEquals,
        b">=" => Kind::GreaterEquals,
        b"+=" => Kind::PlusEquals,
        b"-=" => Kind::MinusEquals,
        b"*=" => Kind::StarEquals,
        b"/=" => Kind::SlashEquals,
        b"%=" => Kind::PercentEquals,
        b"&=" => Kind::AndEquals,
        b"|=" => Kind::OrEquals,
        b"^=" => Kind::CaretEquals,
        b"<<=" => Kind::ShiftLeftEquals,
        b">>=" => Kind::ShiftRightEquals,
        _ => Kind::Unused,
    }
}

/// The kind of a mark; of `>>` the first half.
#[tactic(auto, unfolding(crate::specs::Kinds::mark_kind))]
fn mark_kind(bytes: &[u8]) -> Kind
    ensures { result ≡ mark_kind bytes.now }
{
    match bytes {
        b"(" => Kind::LeftParenthesis,
        b")" => Kind::RightParenthesis,
        b"[" => Kind::LeftBracket,
        b"]" => Kind::RightBracket,
        b"{" => Kind::LeftBrace,
        b"}" => Kind::RightBrace,
        b"," => Kind::Comma,
        b";" => Kind::Semicolon,
        b":" => Kind::Colon,
        b"." => Kind::Dot,
        b"?" => Kind::Question,
        b"#" => Kind::Hash,
        b"_" => Kind::Underscore,
        b"=" => Kind::Equals,
        b"<" => Kind::Less,
        b">" => Kind::Greater,
        b"+" => Kind::Plus,
        b"-" => Kind::Minus,
        b"*" => Kind::Star,
        b"/" => Kind::Slash,
        b"%" => Kind::Percent,
        b"&" => Kind::And,
        b"|" => Kind::Or,
        b"^" => Kind::Caret,
        b"!" => Kind::Not,
        _ => long_mark_kind(bytes),
    }
}

/// Whether all bytes are decimal digits.
fn is_digits(bytes: &[u8]) -> bool
    ensures { result ≡ all_ascii_digits bytes.now }
{
    for byte in bytes {
        if !byte.is_ascii_digit() {
            return false;
        }
    }
    true
}

/// The kind of an integer.
fn number_kind(bytes: &[u8]) -> Kind
    ensures { result ≡ number_kind bytes.now }
{
    if is_digits(bytes) {
        Kind::Digits
    } else {
        Kind::Int
    }
}

/// The kind of a token with this spelling; of `>>` the first half.
#[tactic(auto, unfolding(crate::specs::Kinds::kind_of))]
pub fn kind_of(kind: TokenKind, bytes: &[u8]) -> Kind
    ensures { result ≡ kind_of kind bytes.now }
{
    match kind {
        TokenKind::Name => name_kind(bytes),
        TokenKind::Reserved => reserved_kind(bytes),
        TokenKind::Int(_, _) => number_kind(bytes),
        TokenKind::Text => Kind::Text,
        TokenKind::Mark => mark_kind(bytes),
    }
}
