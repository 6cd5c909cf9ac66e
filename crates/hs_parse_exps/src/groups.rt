//! What stands in parentheses.

ghost use Rattle.hs_grammar.specs.Parser.{giving};
ghost use Rattle.hs_grammar.specs.Reads.{Reads};
ghost use Rattle.hs_forms.specs.Reading as g;
ghost use Rattle.hs_forms.specs.Parsers.{reads};
ghost use Rattle.hs_parse_exps.specs.Follow.{FollowGrammar};

use crate::node;
use crate::rules::Rules;
use hs_forms::{Kind, Token, across, at};
use hs_grammar::cursor::Tokens;
use hs_grammar::error::ParseError;
use hs_syntax::{Block, Exp, If, Span};
use std::alloc::Global;

impl<
    E: Fn(Global, &mut Tokens<'_, Token>, usize) -> Result<Exp, ParseError>,
    U: Fn(Global, &mut Tokens<'_, Token>, usize) -> Result<Exp, ParseError>,
    B: Fn(Global, &mut Tokens<'_, Token>, usize) -> Result<Block, ParseError>,
    I: Fn(Global, &mut Tokens<'_, Token>, usize) -> Result<If, ParseError>,
> Rules<E, U, B, I> {
    /// ')' | ',' list(Exp) ')', behind a '(' and an expression
    #[tactic(auto, unfolding(hs_forms::specs::Reading::behind_first))]
    fn behind_first(
        &self,
        tokens: &mut Tokens<'_, Token>,
        left: Span,
        first: Exp,
    ) -> Result<Exp, ParseError>
        requires { FollowGrammar E.Fn U.Fn B.Fn I.Fn self.now }
        ensures { Reads (giving (λ f. f left first) (reads self.now.depth g.behind_first tokens.old)) result tokens.new }
    {
        if tokens.is_at(Kind::RightParenthesis) {
            let right = at(tokens, Kind::RightParenthesis)?;
            return Ok(node::group(self.alloc, left, first, right)?);
        }
        tokens.expect(Kind::Comma)?;
        let more = self.expressions(tokens)?;
        let right = at(tokens, Kind::RightParenthesis)?;
        Ok(node::tuple(self.alloc, left, first, more, right)?)
    }

    /// What stands behind '('.
    #[tactic(auto, unfolding(hs_forms::specs::Reading::grouped_rest))]
    fn grouped_rest(&self, tokens: &mut Tokens<'_, Token>, left: Span) -> Result<Exp, ParseError>
        requires { FollowGrammar E.Fn U.Fn B.Fn I.Fn self.now }
        ensures { Reads (giving (λ f. f left) (reads self.now.depth g.grouped_rest tokens.old)) result tokens.new }
    {
        if tokens.is_at(Kind::RightParenthesis) {
            let right = at(tokens, Kind::RightParenthesis)?;
            return Ok(Exp::Unit(across(left, right)));
        }
        let first = self.expression(tokens)?;
        self.behind_first(tokens, left, first)
    }

    /// '(' ')' | '(' Exp ')' | '(' Exp ',' list(Exp) ')'
    #[tactic(auto, unfolding(hs_forms::specs::Reading::grouped))]
    pub(crate) fn grouped(&self, tokens: &mut Tokens<'_, Token>) -> Result<Exp, ParseError>
        requires { FollowGrammar E.Fn U.Fn B.Fn I.Fn self.now }
        ensures { Reads (reads self.now.depth g.grouped tokens.old) result tokens.new }
    {
        let left = at(tokens, Kind::LeftParenthesis)?;
        self.grouped_rest(tokens, left)
    }
}
