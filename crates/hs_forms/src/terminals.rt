//! The terminals of the grammar: single tokens.

ghost use Rattle.std.specs.Prelude.{◌≡◌, ◌+◌, length, [], ◌∷◌, OnOk};
ghost use Rattle.hs_grammar.specs.Kinds.{starts};
ghost use Rattle.hs_grammar.specs.Parser.{giving, token_of};
ghost use Rattle.hs_grammar.specs.Reads.{Reads};
ghost use Rattle.hs_forms.specs.Lexis.{lexis};
ghost use Rattle.hs_forms.specs.Nodes.{span_of, int_of, across};
ghost use Rattle.hs_forms.specs.Reading.{name_kinds};

use crate::token::{Kind, NAME_KINDS, Token};
use hs_grammar::cursor::Tokens;
use hs_grammar::error::ParseError;
use hs_syntax::{Int, Span};

/// From the first byte of the one to the end of the other.
pub fn across(first: Span, last: Span) -> Span
    ensures { result ≡ across first last }
{
    Span {
        start: first.start,
        end: last.end,
    }
}

/// Whether the next token is a name.
pub fn is_at_name(tokens: &Tokens<'_, Token>) -> bool
    ensures { result ≡ starts lexis name_kinds tokens.now }
{
    tokens.is_at_any(&NAME_KINDS)
}

/// NAME, by its bytes.
///
/// `Syntax`: the next token is no name. Nothing is taken then.
pub fn name(tokens: &mut Tokens<'_, Token>) -> Result<Span, ParseError>
    ensures reads { Reads (giving span_of (token_of lexis name_kinds tokens.old)) result tokens.new }
    ensures shorter { OnOk result (length tokens.old ≡ length tokens.new + 1) }
{
    let token = tokens.expect_any(&NAME_KINDS)?;
    Ok(token.span)
}

/// INT.
///
/// `Syntax`: the next token is no integer. Nothing is taken then.
pub fn int(tokens: &mut Tokens<'_, Token>) -> Result<Int, ParseError>
    ensures reads { Reads (giving int_of (token_of lexis (Kind.Int ∷ Kind.Digits ∷ []) tokens.old)) result tokens.new }
    ensures shorter { OnOk result (length tokens.old ≡ length tokens.new + 1) }
{
    let token = tokens.expect_any(&[Kind::Int, Kind::Digits])?;
    Ok(token.int())
}

/// A token of this kind, by its bytes.
///
/// `Syntax`: the next token is of another kind. Nothing is taken then.
pub fn at(tokens: &mut Tokens<'_, Token>, kind: Kind) -> Result<Span, ParseError>
    ensures reads { Reads (giving span_of (token_of lexis (kind ∷ []) tokens.old)) result tokens.new }
    ensures shorter { OnOk result (length tokens.old ≡ length tokens.new + 1) }
{
    let token = tokens.expect(kind)?;
    Ok(token.span)
}
