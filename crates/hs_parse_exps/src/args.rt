//! What a path is called with.

ghost use Rattle.hs_grammar.specs.Parser.{giving};
ghost use Rattle.hs_grammar.specs.Reads.{Reads};
ghost use Rattle.hs_grammar.specs.Until.{turn_of, pushed, kept};
ghost use Rattle.hs_grammar.specs.Combinators.{list_turn, list_read};
ghost use Rattle.hs_forms.specs.Reading as g;
ghost use Rattle.hs_forms.specs.Parsers.{reads};
ghost use Rattle.hs_parse_exps.specs.Follow.{FollowGrammar};

use crate::begins::is_at_arg;
use crate::node;
use crate::paths::path;
use crate::rules::Rules;
use hs_forms::{Kind, Token, across, at, name};
use hs_grammar::cursor::Tokens;
use hs_grammar::error::ParseError;
use hs_grammar::loops::{Turn, repeat_until};
use hs_syntax::{Arg, Block, Exp, If, Span};
use sqlite_items::Items;
use std::alloc::Global;

impl<
    E: Fn(Global, &mut Tokens<'_, Token>, usize) -> Result<Exp, ParseError>,
    U: Fn(Global, &mut Tokens<'_, Token>, usize) -> Result<Exp, ParseError>,
    B: Fn(Global, &mut Tokens<'_, Token>, usize) -> Result<Block, ParseError>,
    I: Fn(Global, &mut Tokens<'_, Token>, usize) -> Result<If, ParseError>,
> Rules<E, U, B, I> {
    /// 'mut' NAME | Exp, behind a '&'
    #[tactic(auto, unfolding(hs_forms::specs::Reading::lent, hs_forms::specs::Reading::name))]
    fn lent(&self, tokens: &mut Tokens<'_, Token>, mark: Span) -> Result<Arg, ParseError>
        requires { FollowGrammar E.Fn U.Fn B.Fn I.Fn self.now }
        ensures { Reads (giving (λ f. f mark) (reads self.now.depth g.lent tokens.old)) result tokens.new }
    {
        if tokens.is_at(Kind::Mut) {
            tokens.expect(Kind::Mut)?;
            let name = name(tokens)?;
            return Ok(Arg::Lent(across(mark, name), name));
        }
        let value = self.expression(tokens)?;
        Ok(Arg::Shared(across(mark, value.span()), value))
    }

    /// '&' 'mut' NAME | '&' Exp
    #[tactic(auto, unfolding(hs_forms::specs::Reading::lent_arg))]
    fn lent_arg(&self, tokens: &mut Tokens<'_, Token>) -> Result<Arg, ParseError>
        requires { FollowGrammar E.Fn U.Fn B.Fn I.Fn self.now }
        ensures { Reads (reads self.now.depth g.lent_arg tokens.old) result tokens.new }
    {
        let mark = at(tokens, Kind::And)?;
        self.lent(tokens, mark)
    }

    /// '[' list(Exp) ']'
    #[tactic(auto, unfolding(hs_forms::specs::Reading::list_arg))]
    fn list_arg(&self, tokens: &mut Tokens<'_, Token>) -> Result<Arg, ParseError>
        requires { FollowGrammar E.Fn U.Fn B.Fn I.Fn self.now }
        ensures { Reads (reads self.now.depth g.list_arg tokens.old) result tokens.new }
    {
        let left = at(tokens, Kind::LeftBracket)?;
        let items = self.expressions(tokens)?;
        let right = at(tokens, Kind::RightBracket)?;
        Ok(Arg::List(across(left, right), items))
    }

    /// Arg
    #[tactic(auto, unfolding(hs_forms::specs::Reading::arg_form, hs_forms::specs::Reading::lent_arg, hs_forms::specs::Reading::list_arg))]
    fn arg_form(&self, tokens: &mut Tokens<'_, Token>) -> Result<Arg, ParseError>
        requires { FollowGrammar E.Fn U.Fn B.Fn I.Fn self.now }
        ensures { Reads (reads self.now.depth g.arg_form tokens.old) result tokens.new }
    {
        if tokens.is_at(Kind::And) {
            return self.lent_arg(tokens);
        }
        if tokens.is_at(Kind::LeftBracket) {
            return self.list_arg(tokens);
        }
        Ok(Arg::Value(self.expression(tokens)?))
    }

    /// ',' and one more argument, or the end of the list
    fn next_arg(
        &self,
        tokens: &mut Tokens<'_, Token>,
        mut found: Items<Arg>,
    ) -> Result<Turn<Items<Arg>>, ParseError>
        requires { FollowGrammar E.Fn U.Fn B.Fn I.Fn self.now }
        ensures { Reads (giving (turn_of pushed kept found) (reads self.now.depth (list_turn g.comma g.arg_form) tokens.old)) result tokens.new }
    {
        tokens.expect(Kind::Comma)?;
        if !is_at_arg(tokens) {
            return Ok(Turn::Last(found));
        }
        found.push(self.arg_form(tokens)?)?;
        Ok(Turn::More(found))
    }

    /// list(Arg)
    fn arg_list(&self, tokens: &mut Tokens<'_, Token>) -> Result<Items<Arg>, ParseError>
        requires { FollowGrammar E.Fn U.Fn B.Fn I.Fn self.now }
        ensures { Reads (reads self.now.depth (list_read g.comma g.arg_form) tokens.old) result tokens.new }
    {
        let mut found = Items::new(self.alloc);
        found.push(self.arg_form(tokens)?)?;
        repeat_until(
            tokens,
            found,
            &[Kind::Comma],
            |found, tokens|
                requires { FollowGrammar E.Fn U.Fn B.Fn I.Fn self.now }
                ensures { Reads (giving (turn_of pushed kept found) (reads self.entry.now.depth (list_turn g.comma g.arg_form) tokens.old)) result tokens.new }
            { self.next_arg(tokens, found) },
        )
    }

    /// ')' | list(Arg) ')', behind a '('
    #[tactic(auto, unfolding(hs_forms::specs::Reading::args_rest))]
    fn args_rest(&self, tokens: &mut Tokens<'_, Token>) -> Result<(Items<Arg>, Span), ParseError>
        requires { FollowGrammar E.Fn U.Fn B.Fn I.Fn self.now }
        ensures { Reads (reads self.now.depth g.args_rest tokens.old) result tokens.new }
    {
        if tokens.is_at(Kind::RightParenthesis) {
            let right = at(tokens, Kind::RightParenthesis)?;
            return Ok((Items::new(self.alloc), right));
        }
        let found = self.arg_list(tokens)?;
        let right = at(tokens, Kind::RightParenthesis)?;
        Ok((found, right))
    }

    /// '(' list(Arg)? ')', with the bytes of the last token
    #[tactic(auto, unfolding(hs_forms::specs::Reading::args))]
    pub(crate) fn args(
        &self,
        tokens: &mut Tokens<'_, Token>,
    ) -> Result<(Items<Arg>, Span), ParseError>
        requires { FollowGrammar E.Fn U.Fn B.Fn I.Fn self.now }
        ensures { Reads (reads self.now.depth g.args tokens.old) result tokens.new }
    {
        tokens.expect(Kind::LeftParenthesis)?;
        self.args_rest(tokens)
    }

    /// Path ('(' list(Arg)? ')')?
    #[tactic(auto, unfolding(hs_forms::specs::Reading::call_form, hs_forms::specs::Reading::args))]
    pub(crate) fn call_form(&self, tokens: &mut Tokens<'_, Token>) -> Result<Exp, ParseError>
        requires { FollowGrammar E.Fn U.Fn B.Fn I.Fn self.now }
        ensures { Reads (reads self.now.depth g.call_form tokens.old) result tokens.new }
    {
        let path = path(self.alloc, tokens, self.depth)?;
        if !tokens.is_at(Kind::LeftParenthesis) {
            return Ok(node::call(path, None));
        }
        let args = self.args(tokens)?;
        Ok(node::call(path, Some(args)))
    }
}
