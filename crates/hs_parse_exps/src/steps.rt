//! What stands behind an operand.

ghost use Rattle.hs_grammar.specs.Parser.{giving};
ghost use Rattle.hs_grammar.specs.Reads.{Reads};
ghost use Rattle.hs_grammar.specs.Until.{pushed};
ghost use Rattle.hs_grammar.specs.Combinators.{star};
ghost use Rattle.hs_forms.specs.Reading as g;
ghost use Rattle.hs_forms.specs.Parsers.{reads};
ghost use Rattle.hs_parse_exps.specs.Follow.{FollowGrammar};

use crate::rules::Rules;
use hs_forms::{Kind, Token, across, at, name};
use hs_grammar::cursor::Tokens;
use hs_grammar::error::ParseError;
use hs_grammar::loops::repeat;
use hs_syntax::{Block, Exp, If, Postfix, Span, Step};
use sqlite_items::Items;
use std::alloc::Global;

impl<
    E: Fn(Global, &mut Tokens<'_, Token>, usize) -> Result<Exp, ParseError>,
    U: Fn(Global, &mut Tokens<'_, Token>, usize) -> Result<Exp, ParseError>,
    B: Fn(Global, &mut Tokens<'_, Token>, usize) -> Result<Block, ParseError>,
    I: Fn(Global, &mut Tokens<'_, Token>, usize) -> Result<If, ParseError>,
> Rules<E, U, B, I> {
    /// NAME '(' list(Arg)? ')', behind a '.'
    #[tactic(auto, unfolding(hs_forms::specs::Reading::method, hs_forms::specs::Reading::name))]
    fn method(&self, tokens: &mut Tokens<'_, Token>, dot: Span) -> Result<Postfix, ParseError>
        requires { FollowGrammar E.Fn U.Fn B.Fn I.Fn self.now }
        ensures { Reads (giving (λ f. f dot) (reads self.now.depth g.method tokens.old)) result tokens.new }
    {
        let name = name(tokens)?;
        let (args, right) = self.args(tokens)?;
        Ok(Postfix::Method(across(dot, right), name, args))
    }

    /// An integer of decimal digits alone, or a call of a method, behind a '.'.
    #[tactic(auto, unfolding(hs_forms::specs::Reading::behind_dot))]
    fn behind_dot(&self, tokens: &mut Tokens<'_, Token>, dot: Span) -> Result<Postfix, ParseError>
        requires { FollowGrammar E.Fn U.Fn B.Fn I.Fn self.now }
        ensures { Reads (giving (λ f. f dot) (reads self.now.depth g.behind_dot tokens.old)) result tokens.new }
    {
        if tokens.is_at(Kind::Digits) {
            let part = tokens.expect(Kind::Digits)?.int();
            return Ok(Postfix::Step(Step::Part(across(dot, part.span), part)));
        }
        self.method(tokens, dot)
    }

    /// '[' Exp ']'
    #[tactic(auto, unfolding(hs_forms::specs::Reading::index))]
    fn index(&self, tokens: &mut Tokens<'_, Token>) -> Result<Step, ParseError>
        requires { FollowGrammar E.Fn U.Fn B.Fn I.Fn self.now }
        ensures { Reads (reads self.now.depth g.index tokens.old) result tokens.new }
    {
        let left = at(tokens, Kind::LeftBracket)?;
        let index = self.expression(tokens)?;
        let right = at(tokens, Kind::RightBracket)?;
        Ok(Step::Index(across(left, right), index))
    }

    /// '?' | '.' NAME '(' list(Arg)? ')' | '.' INT | '[' Exp ']'
    #[tactic(auto, unfolding(hs_forms::specs::Reading::postfix_form))]
    fn postfix_form(&self, tokens: &mut Tokens<'_, Token>) -> Result<Postfix, ParseError>
        requires { FollowGrammar E.Fn U.Fn B.Fn I.Fn self.now }
        ensures { Reads (reads self.now.depth g.postfix_form tokens.old) result tokens.new }
    {
        if tokens.is_at(Kind::Question) {
            return Ok(Postfix::Try(at(tokens, Kind::Question)?));
        }
        if tokens.is_at(Kind::Dot) {
            let dot = at(tokens, Kind::Dot)?;
            return self.behind_dot(tokens, dot);
        }
        Ok(Postfix::Step(self.index(tokens)?))
    }

    /// Any number of steps.
    pub(crate) fn steps(&self, tokens: &mut Tokens<'_, Token>) -> Result<Items<Postfix>, ParseError>
        requires { FollowGrammar E.Fn U.Fn B.Fn I.Fn self.now }
        ensures { Reads (reads self.now.depth (star g.postfix_form) tokens.old) result tokens.new }
    {
        let start = Items::new(self.alloc);
        repeat(
            tokens,
            start,
            &[Kind::Question, Kind::Dot, Kind::LeftBracket],
            |mut steps, tokens|
                requires { FollowGrammar E.Fn U.Fn B.Fn I.Fn self.now }
                ensures { Reads (giving (pushed steps) (reads self.entry.now.depth g.postfix_form tokens.old)) result tokens.new }
            {
                steps.push(self.postfix_form(tokens)?)?;
                Ok(steps)
            },
        )
    }
}
