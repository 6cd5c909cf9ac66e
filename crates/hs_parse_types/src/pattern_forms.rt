//! Patterns.

ghost use Rattle.std.specs.Prelude.{◌≡◌};
ghost use Rattle.hs_grammar.specs.Kinds.{starts};
ghost use Rattle.hs_grammar.specs.Parser.{giving};
ghost use Rattle.hs_grammar.specs.Combinators.{optional, list_read, list_turn};
ghost use Rattle.hs_grammar.specs.Reads.{Reads};
ghost use Rattle.hs_grammar.specs.Until.{turn_of, pushed, kept};
ghost use Rattle.hs_forms.specs.Lexis.{lexis};
ghost use Rattle.hs_forms.specs.Reading as g;
ghost use Rattle.hs_forms.specs.Parsers.{reads};
ghost use Rattle.hs_parse_types.specs.Follow.{FollowPatterns};

use crate::items::alone;
use hs_forms::{Kind, Token, across, at, is_at_name, name};
use hs_grammar::cursor::Tokens;
use hs_grammar::error::ParseError;
use hs_grammar::loops::{Turn, repeat_until};
use hs_syntax::{ArmPat, Pat, Span};
use sqlite_items::Items;
use std::alloc::Global;

/// Whether the next token can begin a pattern.
fn is_at_pattern(tokens: &Tokens<'_, Token>) -> bool
    ensures { result ≡ starts lexis g.pat_kinds tokens.now }
{
    tokens.is_at_any(&[Kind::Mut, Kind::Underscore, Kind::LeftParenthesis]) || is_at_name(tokens)
}

/// The parser of patterns, over which each form of a pattern is read. It gets the depth, and each form requires that it
/// follows the grammar.
#[derive(Clone, Copy)]
pub struct PatternRules<P> {
    alloc: Global,
    /// How deep rules may still nest.
    depth: usize,
    pattern: P,
}

impl<P: Fn(Global, &mut Tokens<'_, Token>, usize) -> Result<Pat, ParseError>> PatternRules<P> {
    /// Pat
    fn pattern(&self, tokens: &mut Tokens<'_, Token>) -> Result<Pat, ParseError>
        requires { FollowPatterns P.Fn self.now }
        ensures { Reads (reads self.now.depth g.pattern tokens.old) result tokens.new }
    {
        (self.pattern)(self.alloc, tokens, self.depth)
    }

    /// list(Pat)
    fn list(&self, tokens: &mut Tokens<'_, Token>) -> Result<Items<Pat>, ParseError>
        requires { FollowPatterns P.Fn self.now }
        ensures { Reads (reads self.now.depth (list_read g.comma g.pattern) tokens.old) result tokens.new }
    {
        let first = alone(self.alloc, self.pattern(tokens)?)?;
        repeat_until(
            tokens,
            first,
            &[Kind::Comma],
            |mut patterns, tokens|
                requires { FollowPatterns P.Fn self.now }
                ensures { Reads (giving (turn_of pushed kept patterns) (reads self.entry.now.depth (list_turn g.comma g.pattern) tokens.old)) result tokens.new }
            {
                tokens.expect(Kind::Comma)?;
                if !is_at_pattern(tokens) {
                    return Ok(Turn::Last(patterns));
                }
                let next = self.pattern(tokens)?;
                patterns.push(next)?;
                Ok(Turn::More(patterns))
            },
        )
    }

    /// '(' list(Pat) ')'
    #[tactic(auto, unfolding(hs_forms::specs::Reading::patterns))]
    fn patterns(&self, tokens: &mut Tokens<'_, Token>) -> Result<(Items<Pat>, Span), ParseError>
        requires { FollowPatterns P.Fn self.now }
        ensures { Reads (reads self.now.depth g.patterns tokens.old) result tokens.new }
    {
        tokens.expect(Kind::LeftParenthesis)?;
        let patterns = self.list(tokens)?;
        let close = at(tokens, Kind::RightParenthesis)?;
        Ok((patterns, close))
    }

    /// ('(' list(Pat) ')')?
    #[tactic(auto, unfolding(hs_forms::specs::Reading::patterns))]
    fn perhaps_patterns(
        &self,
        tokens: &mut Tokens<'_, Token>,
    ) -> Result<Option<(Items<Pat>, Span)>, ParseError>
        requires { FollowPatterns P.Fn self.now }
        ensures { Reads (reads self.now.depth (optional g.patterns) tokens.old) result tokens.new }
    {
        if !tokens.is_at(Kind::LeftParenthesis) {
            return Ok(None);
        }
        Ok(Some(self.patterns(tokens)?))
    }

    /// NAME | NAME '(' list(Pat) ')'
    #[tactic(auto, unfolding(hs_forms::specs::Reading::named_pattern, hs_forms::specs::Reading::name))]
    fn named_pattern(&self, tokens: &mut Tokens<'_, Token>) -> Result<Pat, ParseError>
        requires { FollowPatterns P.Fn self.now }
        ensures { Reads (reads self.now.depth g.named_pattern tokens.old) result tokens.new }
    {
        let name = name(tokens)?;
        match self.perhaps_patterns(tokens)? {
            None => Ok(Pat::Name(name, false, name)),
            Some((patterns, close)) => Ok(Pat::Struct(across(name, close), name, patterns)),
        }
    }

    /// 'mut' NAME
    #[tactic(auto, unfolding(hs_forms::specs::Reading::mutable_pattern, hs_forms::specs::Reading::name))]
    fn mutable_pattern(&self, tokens: &mut Tokens<'_, Token>) -> Result<Pat, ParseError>
        ensures { Reads (reads self.now.depth g.mutable_pattern tokens.old) result tokens.new }
    {
        let word = at(tokens, Kind::Mut)?;
        let name = name(tokens)?;
        Ok(Pat::Name(across(word, name), true, name))
    }

    /// '(' Pat ',' list(Pat) ')'
    #[tactic(auto, unfolding(hs_forms::specs::Reading::tuple_pattern))]
    fn tuple_pattern(&self, tokens: &mut Tokens<'_, Token>) -> Result<Pat, ParseError>
        requires { FollowPatterns P.Fn self.now }
        ensures { Reads (reads self.now.depth g.tuple_pattern tokens.old) result tokens.new }
    {
        let first = at(tokens, Kind::LeftParenthesis)?;
        let mut patterns = alone(self.alloc, self.pattern(tokens)?)?;
        tokens.expect(Kind::Comma)?;
        patterns.append(self.list(tokens)?)?;
        let close = at(tokens, Kind::RightParenthesis)?;
        Ok(Pat::Tuple(across(first, close), patterns))
    }

    /// Pat, by its form.
    #[tactic(auto, unfolding(hs_forms::specs::Reading::pat_form, hs_forms::specs::Reading::mutable_pattern, hs_forms::specs::Reading::tuple_pattern))]
    fn pat_form(&self, tokens: &mut Tokens<'_, Token>) -> Result<Pat, ParseError>
        requires { FollowPatterns P.Fn self.now }
        ensures { Reads (reads self.now.depth g.pat_form tokens.old) result tokens.new }
    {
        if tokens.is_at(Kind::Mut) {
            return self.mutable_pattern(tokens);
        }
        if tokens.is_at(Kind::Underscore) {
            return Ok(Pat::Any(at(tokens, Kind::Underscore)?));
        }
        if tokens.is_at(Kind::LeftParenthesis) {
            return self.tuple_pattern(tokens);
        }
        self.named_pattern(tokens)
    }

    /// '::' NAME ('(' list(Pat) ')')?, behind the name of a type.
    #[tactic(auto, unfolding(hs_forms::specs::Reading::member_pattern, hs_forms::specs::Reading::name))]
    fn member_pattern(&self, tokens: &mut Tokens<'_, Token>, of: Span) -> Result<ArmPat, ParseError>
        requires { FollowPatterns P.Fn self.now }
        ensures { Reads (giving (λ f. f of) (reads self.now.depth g.member_pattern tokens.old)) result tokens.new }
    {
        tokens.expect(Kind::PathSeparator)?;
        let name = name(tokens)?;
        match self.perhaps_patterns(tokens)? {
            None => Ok(ArmPat::Member(across(of, name), of, name, Items::new(self.alloc))),
            Some((patterns, close)) => Ok(ArmPat::Member(across(of, close), of, name, patterns)),
        }
    }

    /// What stands behind the first name of an arm's pattern.
    #[tactic(auto, unfolding(hs_forms::specs::Reading::behind_ctor, hs_forms::specs::Reading::member_pattern))]
    fn behind_ctor(&self, tokens: &mut Tokens<'_, Token>, name: Span) -> Result<ArmPat, ParseError>
        requires { FollowPatterns P.Fn self.now }
        ensures { Reads (giving (λ f. f name) (reads self.now.depth g.behind_ctor tokens.old)) result tokens.new }
    {
        if tokens.is_at(Kind::PathSeparator) {
            return self.member_pattern(tokens, name);
        }
        match self.perhaps_patterns(tokens)? {
            None => Ok(ArmPat::Ctor(name, name, Items::new(self.alloc))),
            Some((patterns, close)) => Ok(ArmPat::Ctor(across(name, close), name, patterns)),
        }
    }

    /// ArmPat
    #[tactic(auto, unfolding(hs_forms::specs::Reading::arm_pattern, hs_forms::specs::Reading::name))]
    fn arm_pattern(&self, tokens: &mut Tokens<'_, Token>) -> Result<ArmPat, ParseError>
        requires { FollowPatterns P.Fn self.now }
        ensures { Reads (reads self.now.depth g.arm_pattern tokens.old) result tokens.new }
    {
        if tokens.is_at(Kind::Underscore) {
            return Ok(ArmPat::Any(at(tokens, Kind::Underscore)?));
        }
        let name = name(tokens)?;
        self.behind_ctor(tokens, name)
    }
}

/// Pat, where rules nest no deeper than `depth`.
///
/// `Syntax`: the first token that is left cannot stand there. `TooDeep`: rules nest deeper. `NoMemory`: want of memory.
pub fn pattern(
    alloc: Global,
    tokens: &mut Tokens<'_, Token>,
    depth: usize,
) -> Result<Pat, ParseError>
    ensures { Reads (reads depth g.pattern tokens.old) result tokens.new }
{
    if depth == 0 {
        return Err(ParseError::TooDeep);
    }
    PatternRules {
        alloc,
        depth: depth - 1,
        pattern,
    }
    .pat_form(tokens)
}

/// '(' list(Pat) ')', with the bytes of the last token.
///
/// The errors are those of `pattern`.
pub fn patterns(
    alloc: Global,
    tokens: &mut Tokens<'_, Token>,
    depth: usize,
) -> Result<(Items<Pat>, Span), ParseError>
    ensures { Reads (reads depth g.patterns tokens.old) result tokens.new }
{
    PatternRules {
        alloc,
        depth,
        pattern,
    }
    .patterns(tokens)
}

/// ArmPat, where rules nest no deeper than `depth`.
///
/// The errors are those of `pattern`.
pub fn arm_pattern(
    alloc: Global,
    tokens: &mut Tokens<'_, Token>,
    depth: usize,
) -> Result<ArmPat, ParseError>
    ensures { Reads (reads depth g.arm_pattern tokens.old) result tokens.new }
{
    PatternRules {
        alloc,
        depth,
        pattern,
    }
    .arm_pattern(tokens)
}
