//! Tokens by what the grammar tells them apart by.

ghost use Rattle.std.specs.Prelude.{◌≡◌, IfOk, map};
ghost use Rattle.hs_front.specs.Symbols.{symbol_of, value_of};

use crate::kinds::kind_of;
use crate::syntax::Span;
use hs_base::memory::NoMemory;
use hs_base::parts::between;
use hs_grammar::cursor::Lexeme;
use hs_lexer::{Token, TokenKind};
use sqlite_items::Items;
use std::alloc::Global;

/// The kind of a token.
#[derive(Clone, Copy, Debug, PartialEq, Eq)]
pub enum Kind {
    /// `pub`
    Pub,
    /// `fn`
    Fn,
    /// `let`
    Let,
    /// `mut`
    Mut,
    /// The name `u32`.
    U32,
    /// Another built-in name.
    BuiltIn,
    /// Any other name.
    Name,
    /// A number of at most 4294967295 in decimal digits, without a suffix.
    Number,
    /// `(`
    LeftParenthesis,
    /// `)`
    RightParenthesis,
    /// `{`
    LeftBrace,
    /// `}`
    RightBrace,
    /// `,`
    Comma,
    /// `:`
    Colon,
    /// `;`
    Semicolon,
    /// `->`
    Arrow,
    /// `=`
    Equals,
    /// `+`
    Plus,
    /// A token that is not of the language.
    Other,
}

/// A token, with its place, and its value where it is a number.
#[derive(Clone, Copy, Debug, PartialEq, Eq)]
pub struct Symbol {
    pub kind: Kind,
    pub span: Span,
    pub value: u32,
}

impl Lexeme for Symbol {
    type Kind = Kind;

    ghost use Rattle.hs_front.specs.Lexis as lexis;

    ghost kind_of = { lexis.kind_of };

    ghost same = { lexis.same };

    fn is(&self, kind: Kind) -> bool {
        kind == self.kind
    }
}

/// The value of a number, and 0 for any other token.
fn value_of(kind: TokenKind) -> u32
    ensures { result ≡ value_of kind }
{
    match kind {
        TokenKind::Int(value, _) => u32::try_from(value).unwrap_or(0),
        _ => 0,
    }
}

/// What the grammar sees of a token of this text.
fn read_as(text: &[u8], token: Token) -> Symbol
    ensures { result ≡ symbol_of text.now token }
{
    Symbol {
        kind: kind_of(token.kind, between(text, token.start, token.end)),
        span: Span {
            start: token.start,
            end: token.end,
        },
        value: value_of(token.kind),
    }
}

/// What the grammar sees of the tokens of this text.
pub fn symbols(alloc: Global, text: &[u8], tokens: &[Token]) -> Result<Items<Symbol>, NoMemory>
    ensures { IfOk result (λ symbols. symbols ≡ map (symbol_of text.now) tokens.now) }
{
    let mut symbols = Items::new(alloc);
    for token in tokens {
        symbols.push(read_as(text, *token))?;
    }
    Ok(symbols)
}
