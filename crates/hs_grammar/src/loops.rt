//! Loops of parsers.

ghost use Rattle.std.specs.Prelude.{◌≡◌, List};
ghost use denote.Ref.{MutBor};
ghost use Rattle.hs_grammar.specs.Form.{lexis_of};
ghost use Rattle.hs_grammar.specs.Kinds.{starts};
ghost use Rattle.hs_grammar.specs.Parser.{Res};
ghost use Rattle.hs_grammar.specs.Reads.{Reads};
ghost use Rattle.hs_grammar.specs.Repeat.{repeated, Advances, StepConsumes, StepReads};
ghost use Rattle.hs_grammar.specs.Until.{repeated_until, TurnsAdvance, TurnConsumes, TurnReads};
ghost use Rattle.hs_grammar.specs.declared.loops.Turn as turns;

use crate::cursor::{Lexeme, Tokens};
use crate::error::ParseError;

/// Repeats a step as long as the next token is of one of these kinds. The step gets the value so far, and takes a token at least.
pub fn repeat<T: Lexeme, A: Drop, F: Fn(A, &mut Tokens<'_, T>) -> Result<A, ParseError>>(
    tokens: &mut Tokens<'_, T>,
    start: A,
    begins: &[T::Kind],
    step: F,
) -> Result<A, ParseError>
    requires callable { F.IsAlwaysCallable step }
    requires consumes { StepConsumes (F.post step) }
    ensures reads { (p : A → List T → Res T A) → Advances p → StepReads (F.post step) p
        → Reads (repeated (starts (lexis_of T.kind_of T.same) begins.now) p start tokens.old) result tokens.new }
    ensures memory { result ≡ Err ParseError.NoMemory → (a : A) × (old new : MutBor (List T)) × F.post step a old (Err ParseError.NoMemory) new }
{
    let mut value = start;
    while tokens.is_at_any(begins) {
        value = step(value, tokens)?;
    }
    Ok(value)
}

/// What a turn of a loop gives.
#[derive(Drop)]
pub enum Turn<A> {
    /// A value, with which the loop goes on.
    More(A),
    /// A value, with which the loop ends.
    Last(A),
}

/// Repeats a turn as long as the next token is of one of these kinds, and up to a last turn. The turn gets the value so far, and takes a token at least.
///
/// The errors are those of the turn, and leave the tokens where it left them.
pub fn repeat_until<
    T: Lexeme,
    A: Drop,
    F: Fn(A, &mut Tokens<'_, T>) -> Result<Turn<A>, ParseError>,
>(tokens: &mut Tokens<'_, T>, start: A, begins: &[T::Kind], turn: F) -> Result<A, ParseError>
    requires callable { F.IsAlwaysCallable turn }
    requires consumes { TurnConsumes (F.post turn) }
    ensures reads { (p : A → List T → Res T (turns.Turn A)) → TurnsAdvance p → TurnReads (F.post turn) p
        → Reads (repeated_until (starts (lexis_of T.kind_of T.same) begins.now) p start tokens.old) result tokens.new }
    ensures memory { result ≡ Err ParseError.NoMemory → (a : A) × (old new : MutBor (List T)) × F.post turn a old (Err ParseError.NoMemory) new }
{
    let mut value = start;
    while tokens.is_at_any(begins) {
        match turn(value, tokens)? {
            Turn::More(next) => value = next,
            Turn::Last(last) => return Ok(last),
        }
    }
    Ok(value)
}
