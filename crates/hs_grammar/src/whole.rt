//! The answer for a whole list of tokens.

ghost use Rattle.std.specs.Prelude.{◌≡◌, ◌↔◌, ◌-◌, length};
ghost use Rattle.hs_grammar.specs.Parser.{Res};
ghost use Rattle.hs_grammar.specs.Reads.{Reads};
ghost use Rattle.hs_grammar.specs.Whole.{Finishes};

use crate::cursor::{Lexeme, Tokens};
use crate::error::{ParseError, Refusal};

/// The answer for all the tokens, where a parser found this, and left the rest of them.
///
/// `At`: the parser stopped, or left tokens behind its value. The place is that of the first token that is left.
/// `TooDeep`, `NoMemory`: the parser's own.
pub fn finish<T: Lexeme, A: Drop>(
    found: Result<A, ParseError>,
    tokens: &[T],
    rest: &Tokens<'_, T>,
) -> Result<A, Refusal>
    ensures finishes { (r : Res T A) → Reads r found rest.now → Finishes r tokens.now result }
    ensures memory { (result ≡ Err Refusal.NoMemory) ↔ (found ≡ Err ParseError.NoMemory) }
{
    match found {
        Ok(value) => {
            if rest.left() == 0 {
                Ok(value)
            } else {
                Err(Refusal::At(place(tokens, rest)))
            }
        }
        Err(error) => match error {
            ParseError::NoMemory => Err(Refusal::NoMemory),
            ParseError::TooDeep => Err(Refusal::TooDeep),
            ParseError::Syntax => Err(Refusal::At(place(tokens, rest))),
        },
    }
}

/// How many of the tokens stand before the rest.
fn place<T: Lexeme>(tokens: &[T], rest: &Tokens<'_, T>) -> usize
    ensures { result ≡ length tokens.now - length rest.now }
{
    tokens.len().saturating_sub(rest.left())
}
