//! Tokens by what the grammar tells them apart by.

ghost use Rattle.std.specs.Prelude.{◌≡◌, ◌++◌, IfOk};
ghost use Rattle.hs_forms.specs.Nodes.{int_of};
ghost use Rattle.hs_forms.specs.Reading.{is_name};
ghost use Rattle.hs_forms.specs.Tokens.{value_of, suffix_of, placed, both, tokens_of};

use crate::kinds::kind_of;
use hs_base::memory::NoMemory;
use hs_base::parts::between;
use hs_grammar::cursor::Lexeme;
use hs_lexer::{Token as Spelled, TokenKind};
use hs_syntax::{Int, Span};
use hs_words::IntTy;
use sqlite_items::Items;
use std::alloc::Global;

/// The kind of a token.
#[derive(Clone, Copy, Debug, PartialEq, Eq)]
pub enum Kind {
    /// `as`
    As,
    /// `const`
    Const,
    /// `else`
    Else,
    /// `enum`
    Enum,
    /// `false`
    False,
    /// `fn`
    Fn,
    /// `for`
    For,
    /// `if`
    If,
    /// `in`
    In,
    /// `let`
    Let,
    /// `match`
    Match,
    /// `mut`
    Mut,
    /// `pub`
    Pub,
    /// `return`
    Return,
    /// `struct`
    Struct,
    /// `true`
    True,
    /// `type`
    Type,
    /// `use`
    Use,
    /// A reserved word that the grammar never uses.
    Unused,
    /// A name that is none of the words below.
    Name,
    /// The name `array`.
    Array,
    /// The name `bytes`.
    Bytes,
    /// The name `nat_mod`.
    NatMod,
    /// The name `hacspec_lib`.
    HacspecLib,
    /// The name `derive`.
    Derive,
    /// The name `type_name`.
    TypeName,
    /// The name `type_of_canvas`.
    TypeOfCanvas,
    /// The name `bit_size_of_field`.
    BitSizeOfField,
    /// The name `modulo_value`.
    ModuloValue,
    /// An integer that has decimal digits alone.
    Digits,
    /// Any other integer.
    Int,
    /// A string.
    Text,
    /// `(`
    LeftParenthesis,
    /// `)`
    RightParenthesis,
    /// `[`
    LeftBracket,
    /// `]`
    RightBracket,
    /// `{`
    LeftBrace,
    /// `}`
    RightBrace,
    /// `,`
    Comma,
    /// `;`
    Semicolon,
    /// `:`
    Colon,
    /// `::`
    PathSeparator,
    /// `.`
    Dot,
    /// `..`
    DotDot,
    /// `->`
    Arrow,
    /// `=>`
    FatArrow,
    /// `=`
    Equals,
    /// `==`
    EqualsEquals,
    /// `!=`
    NotEquals,
    /// `<`
    Less,
    /// `<=`
    LessEquals,
    /// `>`
    Greater,
    /// `>=`
    GreaterEquals,
    /// `+`
    Plus,
    /// `-`
    Minus,
    /// `*`
    Star,
    /// `/`
    Slash,
    /// `%`
    Percent,
    /// `&`
    And,
    /// `&&`
    AndAnd,
    /// `|`
    Or,
    /// `||`
    OrOr,
    /// `^`
    Caret,
    /// `!`
    Not,
    /// `<<`
    ShiftLeft,
    /// The first half of `>>`, which can close a type.
    ShiftFront,
    /// The second half of `>>`, which can close the type around it.
    ShiftBack,
    /// `+=`
    PlusEquals,
    /// `-=`
    MinusEquals,
    /// `*=`
    StarEquals,
    /// `/=`
    SlashEquals,
    /// `%=`
    PercentEquals,
    /// `&=`
    AndEquals,
    /// `|=`
    OrEquals,
    /// `^=`
    CaretEquals,
    /// `<<=`
    ShiftLeftEquals,
    /// `>>=`
    ShiftRightEquals,
    /// `?`
    Question,
    /// `#`
    Hash,
    /// `_`
    Underscore,
}

/// The kinds of names: of those that stand for nothing but themselves, and of those that the grammar has as words too.
pub const NAME_KINDS: [Kind; 10] = [
    Kind::Name,
    Kind::Array,
    Kind::Bytes,
    Kind::NatMod,
    Kind::HacspecLib,
    Kind::Derive,
    Kind::TypeName,
    Kind::TypeOfCanvas,
    Kind::BitSizeOfField,
    Kind::ModuloValue,
];

impl Kind {
    /// Whether a token of this kind is a name.
    pub fn is_name(self) -> bool
        ensures { result ≡ is_name self }
    {
        matches!(
            self,
            Kind::Name
                | Kind::Array
                | Kind::Bytes
                | Kind::NatMod
                | Kind::HacspecLib
                | Kind::Derive
                | Kind::TypeName
                | Kind::TypeOfCanvas
                | Kind::BitSizeOfField
                | Kind::ModuloValue
        )
    }
}

/// A token as the grammar sees it: its kind, its bytes in the text, and where it is an integer its value and suffix. The
/// value of any other token is 0. Both halves of a `>>` have the bytes of the whole.
#[derive(Clone, Copy, Debug, PartialEq, Eq)]
pub struct Token {
    pub kind: Kind,
    pub span: Span,
    pub value: u128,
    pub suffix: Option<IntTy>,
}

impl Lexeme for Token {
    type Kind = Kind;

    ghost use Rattle.hs_forms.specs.Lexis as lexis;

    ghost kind_of = { lexis.kind_of };

    ghost same = { lexis.same };

    fn is(&self, kind: Kind) -> bool {
        kind == self.kind
    }
}

impl Token {
    /// The integer that the token is.
    pub fn int(self) -> Int
        ensures { result ≡ int_of self }
    {
        Int {
            span: self.span,
            value: self.value,
            suffix: self.suffix,
        }
    }
}

/// The value of an integer, and 0 of any other token.
fn value_of(kind: TokenKind) -> u128
    ensures { result ≡ value_of kind }
{
    match kind {
        TokenKind::Int(value, _) => value,
        _ => 0,
    }
}

/// The suffix of an integer.
fn suffix_of(kind: TokenKind) -> Option<IntTy>
    ensures { result ≡ suffix_of kind }
{
    match kind {
        TokenKind::Int(_, suffix) => suffix,
        _ => None,
    }
}

/// A token of this kind at the place of another.
fn placed(kind: Kind, token: Spelled) -> Token
    ensures { result ≡ placed kind token }
{
    Token {
        kind,
        span: Span {
            start: token.start,
            end: token.end,
        },
        value: value_of(token.kind),
        suffix: suffix_of(token.kind),
    }
}

/// Puts a token of this kind behind the others, and behind the first half of a `>>` the second.
fn push_both(into: &mut Items<Token>, kind: Kind, token: Spelled) -> Result<(), NoMemory>
    ensures { IfOk result (λ unit. into.new ≡ into.old ++ both kind token) }
{
    if kind == Kind::ShiftFront {
        into.push(placed(Kind::ShiftFront, token))?;
        into.push(placed(Kind::ShiftBack, token))?;
    } else {
        into.push(placed(kind, token))?;
    }
    Ok(())
}

/// The tokens of a text as the grammar sees them: each one as it is, but `>>` as its two halves.
///
/// `NoMemory`: no memory is left.
pub fn tokens_of(alloc: Global, text: &[u8], tokens: &[Spelled]) -> Result<Items<Token>, NoMemory>
    ensures { IfOk result (λ seen. seen ≡ tokens_of text.now tokens.now) }
{
    let mut into = Items::new(alloc);
    for token in tokens {
        let bytes = between(text, token.start, token.end);
        push_both(&mut into, kind_of(token.kind, bytes), *token)?;
    }
    Ok(into)
}
