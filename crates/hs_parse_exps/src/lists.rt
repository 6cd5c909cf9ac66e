//! Lists of expressions and of arguments, with commas between, and perhaps one at the end.

ghost use Rattle.hs_grammar.specs.Parser.{giving};
ghost use Rattle.hs_grammar.specs.Reads.{Reads};
ghost use Rattle.hs_grammar.specs.Until.{turn_of, pushed, kept};
ghost use Rattle.hs_grammar.specs.Combinators.{list_turn, list_read};
ghost use Rattle.hs_forms.specs.Reading as g;
ghost use Rattle.hs_forms.specs.Parsers.{reads};
ghost use Rattle.hs_parse_exps.specs.Follow.{FollowGrammar};

use crate::begins::is_at_expression;
use crate::rules::Rules;
use hs_forms::{Kind, Token};
use hs_grammar::cursor::Tokens;
use hs_grammar::error::ParseError;
use hs_grammar::loops::{Turn, repeat_until};
use hs_syntax::{Block, Exp, If};
use sqlite_items::Items;
use std::alloc::Global;

impl<
    E: Fn(Global, &mut Tokens<'_, Token>, usize) -> Result<Exp, ParseError>,
    U: Fn(Global, &mut Tokens<'_, Token>, usize) -> Result<Exp, ParseError>,
    B: Fn(Global, &mut Tokens<'_, Token>, usize) -> Result<Block, ParseError>,
    I: Fn(Global, &mut Tokens<'_, Token>, usize) -> Result<If, ParseError>,
> Rules<E, U, B, I> {
    /// list(Exp)
    pub(crate) fn expressions(
        &self,
        tokens: &mut Tokens<'_, Token>,
    ) -> Result<Items<Exp>, ParseError>
        requires { FollowGrammar E.Fn U.Fn B.Fn I.Fn self.now }
        ensures { Reads (reads self.now.depth (list_read g.comma g.expression) tokens.old) result tokens.new }
    {
        let mut found = Items::new(self.alloc);
        found.push(self.expression(tokens)?)?;
        repeat_until(
            tokens,
            found,
            &[Kind::Comma],
            |found, tokens|
                requires { FollowGrammar E.Fn U.Fn B.Fn I.Fn self.now }
                ensures { Reads (giving (turn_of pushed kept found) (reads self.entry.now.depth (list_turn g.comma g.expression) tokens.old)) result tokens.new }
            { self.next_expression(tokens, found) },
        )
    }

    /// ',' and one more expression, or the end of the list
    fn next_expression(
        &self,
        tokens: &mut Tokens<'_, Token>,
        mut found: Items<Exp>,
    ) -> Result<Turn<Items<Exp>>, ParseError>
        requires { FollowGrammar E.Fn U.Fn B.Fn I.Fn self.now }
        ensures { Reads (giving (turn_of pushed kept found) (reads self.now.depth (list_turn g.comma g.expression) tokens.old)) result tokens.new }
    {
        tokens.expect(Kind::Comma)?;
        if !is_at_expression(tokens) {
            return Ok(Turn::Last(found));
        }
        found.push(self.expression(tokens)?)?;
        Ok(Turn::More(found))
    }
}
