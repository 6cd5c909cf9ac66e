//! Operands: literals, calls and what stands in brackets, with steps behind them, prefixes before them, and `as`.

ghost use Rattle.hs_grammar.specs.Parser.{giving};
ghost use Rattle.hs_grammar.specs.Reads.{Reads};
ghost use Rattle.hs_grammar.specs.Until.{pushed};
ghost use Rattle.hs_grammar.specs.Combinators.{star};
ghost use Rattle.hs_forms.specs.Reading as g;
ghost use Rattle.hs_forms.specs.Parsers.{reads};
ghost use Rattle.hs_parse_exps.specs.Follow.{FollowGrammar};
ghost use Rattle.hs_parse_exps.specs.Parts.{as_name};

use crate::node;
use crate::rules::Rules;
use hs_forms::{Kind, Token, at, int, is_at_name, name};
use hs_grammar::cursor::Tokens;
use hs_grammar::error::ParseError;
use hs_grammar::loops::repeat;
use hs_syntax::{Block, Exp, If, Span};
use sqlite_items::Items;
use std::alloc::Global;

/// The kinds of literals.
const LITERALS: [Kind; 4] = [Kind::Int, Kind::Digits, Kind::True, Kind::False];

/// The kinds of prefixes.
const PREFIXES: [Kind; 3] = [Kind::Minus, Kind::Not, Kind::Star];

/// INT | 'true' | 'false'
#[tactic(auto, unfolding(hs_forms::specs::Reading::literal, hs_forms::specs::Reading::int))]
fn literal(tokens: &mut Tokens<'_, Token>) -> Result<Exp, ParseError>
    ensures { Reads (reads 0 g.literal tokens.old) result tokens.new }
{
    if tokens.is_at_any(&[Kind::Int, Kind::Digits]) {
        return Ok(Exp::Int(int(tokens)?));
    }
    if tokens.is_at(Kind::True) {
        return Ok(Exp::Bool(at(tokens, Kind::True)?, true));
    }
    Ok(Exp::Bool(at(tokens, Kind::False)?, false))
}

/// 'as' NAME
#[tactic(auto, unfolding(hs_forms::specs::Reading::name))]
fn next_name(
    tokens: &mut Tokens<'_, Token>,
    mut names: Items<Span>,
) -> Result<Items<Span>, ParseError>
    ensures { Reads (giving (pushed names) (reads 0 as_name tokens.old)) result tokens.new }
{
    tokens.expect(Kind::As)?;
    names.push(name(tokens)?)?;
    Ok(names)
}

/// ('as' NAME)*
fn names_behind(alloc: Global, tokens: &mut Tokens<'_, Token>) -> Result<Items<Span>, ParseError>
    ensures { Reads (reads 0 (star as_name) tokens.old) result tokens.new }
{
    let start = Items::new(alloc);
    repeat(
        tokens,
        start,
        &[Kind::As],
        |mut names, tokens|
            ensures { Reads (giving (pushed names) (reads 0 as_name tokens.old)) result tokens.new }
        { next_name(tokens, names) },
    )
}

impl<
    E: Fn(Global, &mut Tokens<'_, Token>, usize) -> Result<Exp, ParseError>,
    U: Fn(Global, &mut Tokens<'_, Token>, usize) -> Result<Exp, ParseError>,
    B: Fn(Global, &mut Tokens<'_, Token>, usize) -> Result<Block, ParseError>,
    I: Fn(Global, &mut Tokens<'_, Token>, usize) -> Result<If, ParseError>,
> Rules<E, U, B, I> {
    /// Prim: a literal, what stands in parentheses, a path or a call, or an `if`, a `match` or a block.
    #[tactic(auto, unfolding(hs_forms::specs::Reading::prim, hs_forms::specs::Reading::literal, hs_forms::specs::Reading::int, hs_forms::specs::Reading::grouped, hs_forms::specs::Reading::call_form, hs_forms::specs::Reading::path_form, hs_forms::specs::Reading::name))]
    fn prim(&self, tokens: &mut Tokens<'_, Token>) -> Result<Exp, ParseError>
        requires { FollowGrammar E.Fn U.Fn B.Fn I.Fn self.now }
        ensures { Reads (reads self.now.depth g.prim tokens.old) result tokens.new }
    {
        if tokens.is_at_any(&LITERALS) {
            return literal(tokens);
        }
        if tokens.is_at(Kind::LeftParenthesis) {
            return self.grouped(tokens);
        }
        if is_at_name(tokens) {
            return self.call_form(tokens);
        }
        self.alone(tokens)
    }

    /// Post: such a part, and any number of steps behind it.
    #[tactic(auto, unfolding(hs_forms::specs::Reading::post))]
    fn post(&self, tokens: &mut Tokens<'_, Token>) -> Result<Exp, ParseError>
        requires { FollowGrammar E.Fn U.Fn B.Fn I.Fn self.now }
        ensures { Reads (reads self.now.depth g.post tokens.old) result tokens.new }
    {
        let first = self.prim(tokens)?;
        let steps = self.steps(tokens)?;
        Ok(node::stepped(self.alloc, first, steps)?)
    }

    /// Unary: an operand with a prefix before it, or with steps behind it.
    #[tactic(auto, unfolding(hs_forms::specs::Reading::unary))]
    pub fn unary(&self, tokens: &mut Tokens<'_, Token>) -> Result<Exp, ParseError>
        requires { FollowGrammar E.Fn U.Fn B.Fn I.Fn self.now }
        ensures { Reads (reads self.now.depth g.unary tokens.old) result tokens.new }
    {
        if tokens.is_at_any(&PREFIXES) {
            let prefix = tokens.expect_any(&PREFIXES)?;
            let inner = (self.unary)(self.alloc, tokens, self.depth)?;
            return Ok(node::prefixed(self.alloc, prefix, inner)?);
        }
        self.post(tokens)
    }

    /// Cast: such an operand, and any number of 'as' NAME behind it.
    #[tactic(auto, unfolding(hs_forms::specs::Reading::cast, hs_forms::specs::Reading::name))]
    pub fn cast(&self, tokens: &mut Tokens<'_, Token>) -> Result<Exp, ParseError>
        requires { FollowGrammar E.Fn U.Fn B.Fn I.Fn self.now }
        ensures { Reads (reads self.now.depth g.cast tokens.old) result tokens.new }
    {
        let inner = self.unary(tokens)?;
        let names = names_behind(self.alloc, tokens)?;
        Ok(node::converted(self.alloc, inner, names)?)
    }
}
