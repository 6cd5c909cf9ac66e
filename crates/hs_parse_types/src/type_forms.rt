//! Types.

ghost use Rattle.std.specs.Prelude.{◌≡◌, false};
ghost use Rattle.hs_grammar.specs.Kinds.{starts};
ghost use Rattle.hs_grammar.specs.Parser.{giving};
ghost use Rattle.hs_grammar.specs.Combinators.{rule, list_read, list_turn};
ghost use Rattle.hs_grammar.specs.Form.{Map};
ghost use Rattle.hs_grammar.specs.Reads.{Reads};
ghost use Rattle.hs_grammar.specs.Until.{turn_of, pushed, kept};
ghost use Rattle.hs_forms.specs.Lexis.{lexis};
ghost use Rattle.hs_forms.specs.Nodes.{all_types};
ghost use Rattle.hs_forms.specs.Blocks.{step_of};
ghost use Rattle.hs_forms.specs.Reading as g;
ghost use Rattle.hs_forms.specs.Parsers.{reads};
ghost use Rattle.hs_parse_types.specs.Follow.{FollowTypes};
ghost use Rattle.hs_parse_types.specs.Lists.{one_more, last_one};

use crate::items::alone;
use hs_forms::{Kind, Token, across, at, is_at_name, name};
use hs_grammar::cursor::Tokens;
use hs_grammar::error::ParseError;
use hs_grammar::loops::{Turn, repeat_until};
use hs_syntax::{Span, Ty};
use sqlite_items::Items;
use std::alloc::Global;

/// Whether the next token can begin a type.
fn is_at_type(tokens: &Tokens<'_, Token>) -> bool
    ensures { result ≡ starts lexis g.type_kinds tokens.now }
{
    tokens.is_at(Kind::LeftParenthesis) || is_at_name(tokens)
}

/// The parsers of types and of types that may be open, over which each form of a type is read. They get the depth, and each
/// form requires that they follow the grammar.
#[derive(Clone, Copy)]
pub struct TypeRules<T, M> {
    alloc: Global,
    /// How deep rules may still nest.
    depth: usize,
    ty: T,
    maybe_open: M,
}

impl<
    T: Fn(Global, &mut Tokens<'_, Token>, usize) -> Result<Ty, ParseError>,
    M: Fn(Global, &mut Tokens<'_, Token>, usize) -> Result<(Ty, bool), ParseError>,
> TypeRules<T, M> {
    /// Type
    fn ty(&self, tokens: &mut Tokens<'_, Token>) -> Result<Ty, ParseError>
        requires { FollowTypes T.Fn M.Fn self.now }
        ensures { Reads (reads self.now.depth g.type_ tokens.old) result tokens.new }
    {
        (self.ty)(self.alloc, tokens, self.depth)
    }

    /// A type that may be open.
    fn maybe_open(&self, tokens: &mut Tokens<'_, Token>) -> Result<(Ty, bool), ParseError>
        requires { FollowTypes T.Fn M.Fn self.now }
        ensures { Reads (reads self.now.depth (rule g.RMaybe) tokens.old) result tokens.new }
    {
        (self.maybe_open)(self.alloc, tokens, self.depth)
    }

    /// list(Type)
    fn list(&self, tokens: &mut Tokens<'_, Token>) -> Result<Items<Ty>, ParseError>
        requires { FollowTypes T.Fn M.Fn self.now }
        ensures { Reads (reads self.now.depth (list_read g.comma g.type_) tokens.old) result tokens.new }
    {
        let first = alone(self.alloc, self.ty(tokens)?)?;
        repeat_until(
            tokens,
            first,
            &[Kind::Comma],
            |mut types, tokens|
                requires { FollowTypes T.Fn M.Fn self.now }
                ensures { Reads (giving (turn_of pushed kept types) (reads self.entry.now.depth (list_turn g.comma g.type_) tokens.old)) result tokens.new }
            {
                tokens.expect(Kind::Comma)?;
                if !is_at_type(tokens) {
                    return Ok(Turn::Last(types));
                }
                let next = self.ty(tokens)?;
                types.push(next)?;
                Ok(Turn::More(types))
            },
        )
    }

    /// '(' list(Type) ')'
    #[tactic(auto, unfolding(hs_forms::specs::Reading::parts))]
    fn parts(&self, tokens: &mut Tokens<'_, Token>) -> Result<(Items<Ty>, Span), ParseError>
        requires { FollowTypes T.Fn M.Fn self.now }
        ensures { Reads (reads self.now.depth g.parts tokens.old) result tokens.new }
    {
        tokens.expect(Kind::LeftParenthesis)?;
        let types = self.list(tokens)?;
        let close = at(tokens, Kind::RightParenthesis)?;
        Ok((types, close))
    }

    /// ',' Type, where the last may be open.
    #[tactic(auto, unfolding(hs_forms::specs::Reading::next_type))]
    fn next_type(&self, tokens: &mut Tokens<'_, Token>) -> Result<(Ty, bool), ParseError>
        requires { FollowTypes T.Fn M.Fn self.now }
        ensures { Reads (reads self.now.depth g.next_type tokens.old) result tokens.new }
    {
        tokens.expect(Kind::Comma)?;
        self.maybe_open(tokens)
    }

    /// (',' Type)*, behind a first type.
    fn next_types(
        &self,
        tokens: &mut Tokens<'_, Token>,
        first: Ty,
    ) -> Result<(Items<Ty>, bool), ParseError>
        requires { FollowTypes T.Fn M.Fn self.now }
        ensures { Reads (giving (all_types (first, false)) (reads self.now.depth g.next_types tokens.old)) result tokens.new }
    {
        let types = alone(self.alloc, first)?;
        repeat_until(
            tokens,
            (types, false),
            &[Kind::Comma],
            |(mut types, was_open), tokens|
                requires { FollowTypes T.Fn M.Fn self.now }
                ensures { Reads (giving (turn_of one_more last_one (types, was_open)) (reads self.entry.now.depth (Map step_of g.next_type) tokens.old)) result tokens.new }
            {
                let (next, open) = self.next_type(tokens)?;
                types.push(next)?;
                if open {
                    Ok(Turn::Last((types, true)))
                } else {
                    Ok(Turn::More((types, false)))
                }
            },
        )
    }

    /// Type (',' Type)*, and whether the last is open.
    #[tactic(auto, unfolding(hs_forms::specs::Reading::types))]
    fn types(&self, tokens: &mut Tokens<'_, Token>) -> Result<(Items<Ty>, bool), ParseError>
        requires { FollowTypes T.Fn M.Fn self.now }
        ensures { Reads (reads self.now.depth g.types tokens.old) result tokens.new }
    {
        let (first, open) = self.maybe_open(tokens)?;
        if open {
            return Ok((alone(self.alloc, first)?, true));
        }
        self.next_types(tokens, first)
    }

    /// '<' Type (',' Type)*
    #[tactic(auto, unfolding(hs_forms::specs::Reading::angle))]
    fn angle(&self, tokens: &mut Tokens<'_, Token>) -> Result<(Items<Ty>, bool), ParseError>
        requires { FollowTypes T.Fn M.Fn self.now }
        ensures { Reads (reads self.now.depth g.angle tokens.old) result tokens.new }
    {
        tokens.expect(Kind::Less)?;
        self.types(tokens)
    }

    /// What stands behind the name of an applied type, up to its bracket.
    #[tactic(auto, unfolding(hs_forms::specs::Reading::closed))]
    fn closed(&self, tokens: &mut Tokens<'_, Token>, name: Span) -> Result<Ty, ParseError>
        requires { FollowTypes T.Fn M.Fn self.now }
        ensures { Reads (giving (λ f. f name) (reads self.now.depth g.closed tokens.old)) result tokens.new }
    {
        let (types, open) = self.angle(tokens)?;
        let close = if open {
            at(tokens, Kind::ShiftBack)?
        } else {
            at(tokens, Kind::Greater)?
        };
        Ok(Ty::Applied(across(name, close), name, types))
    }

    /// '>', or the first half of a `>>`, which leaves the type open.
    #[tactic(auto, unfolding(hs_forms::specs::Reading::close_maybe))]
    fn close_maybe(&self, tokens: &mut Tokens<'_, Token>) -> Result<(Span, bool), ParseError>
        ensures { Reads (reads self.now.depth g.close_maybe tokens.old) result tokens.new }
    {
        if tokens.is_at(Kind::Greater) {
            return Ok((at(tokens, Kind::Greater)?, false));
        }
        Ok((at(tokens, Kind::ShiftFront)?, true))
    }

    /// What stands behind the name of an applied type that may be open.
    #[tactic(auto, unfolding(hs_forms::specs::Reading::maybe_closed))]
    fn maybe_closed(
        &self,
        tokens: &mut Tokens<'_, Token>,
        name: Span,
    ) -> Result<(Ty, bool), ParseError>
        requires { FollowTypes T.Fn M.Fn self.now }
        ensures { Reads (giving (λ f. f name) (reads self.now.depth g.maybe_closed tokens.old)) result tokens.new }
    {
        let (types, open) = self.angle(tokens)?;
        let (close, open) = if open {
            (at(tokens, Kind::ShiftBack)?, false)
        } else {
            self.close_maybe(tokens)?
        };
        Ok((Ty::Applied(across(name, close), name, types), open))
    }

    /// Type ',' list(Type) ')', behind this '('.
    #[tactic(auto, unfolding(hs_forms::specs::Reading::tuple_items))]
    fn tuple_items(&self, tokens: &mut Tokens<'_, Token>, first: Span) -> Result<Ty, ParseError>
        requires { FollowTypes T.Fn M.Fn self.now }
        ensures { Reads (giving (λ f. f first) (reads self.now.depth g.tuple_items tokens.old)) result tokens.new }
    {
        let head = self.ty(tokens)?;
        tokens.expect(Kind::Comma)?;
        let mut types = alone(self.alloc, head)?;
        types.append(self.list(tokens)?)?;
        let close = at(tokens, Kind::RightParenthesis)?;
        Ok(Ty::Tuple(across(first, close), types))
    }

    /// What stands behind this '(': ')' | Type ',' list(Type) ')'
    #[tactic(auto, unfolding(hs_forms::specs::Reading::tuple_rest))]
    fn tuple_rest(&self, tokens: &mut Tokens<'_, Token>, first: Span) -> Result<Ty, ParseError>
        requires { FollowTypes T.Fn M.Fn self.now }
        ensures { Reads (giving (λ f. f first) (reads self.now.depth g.tuple_rest tokens.old)) result tokens.new }
    {
        if tokens.is_at(Kind::RightParenthesis) {
            let close = at(tokens, Kind::RightParenthesis)?;
            return Ok(Ty::Unit(across(first, close)));
        }
        self.tuple_items(tokens, first)
    }

    /// '(' ')' | '(' Type ',' list(Type) ')'
    #[tactic(auto, unfolding(hs_forms::specs::Reading::bracketed))]
    fn bracketed(&self, tokens: &mut Tokens<'_, Token>) -> Result<Ty, ParseError>
        requires { FollowTypes T.Fn M.Fn self.now }
        ensures { Reads (reads self.now.depth g.bracketed tokens.old) result tokens.new }
    {
        let first = at(tokens, Kind::LeftParenthesis)?;
        self.tuple_rest(tokens, first)
    }

    /// Type, by its form.
    #[tactic(auto, unfolding(hs_forms::specs::Reading::type_form, hs_forms::specs::Reading::bracketed, hs_forms::specs::Reading::name, hs_forms::specs::Reading::closed, hs_forms::specs::Reading::angle))]
    fn type_form(&self, tokens: &mut Tokens<'_, Token>) -> Result<Ty, ParseError>
        requires { FollowTypes T.Fn M.Fn self.now }
        ensures { Reads (reads self.now.depth g.type_form tokens.old) result tokens.new }
    {
        if tokens.is_at(Kind::LeftParenthesis) {
            return self.bracketed(tokens);
        }
        let name = name(tokens)?;
        if !tokens.is_at(Kind::Less) {
            return Ok(Ty::Name(name));
        }
        self.closed(tokens, name)
    }

    /// A type that may be open, by its form.
    #[tactic(auto, unfolding(hs_forms::specs::Reading::maybe_form, hs_forms::specs::Reading::bracketed, hs_forms::specs::Reading::name, hs_forms::specs::Reading::maybe_closed, hs_forms::specs::Reading::angle))]
    fn maybe_form(&self, tokens: &mut Tokens<'_, Token>) -> Result<(Ty, bool), ParseError>
        requires { FollowTypes T.Fn M.Fn self.now }
        ensures { Reads (reads self.now.depth g.maybe_form tokens.old) result tokens.new }
    {
        if tokens.is_at(Kind::LeftParenthesis) {
            return Ok((self.bracketed(tokens)?, false));
        }
        let name = name(tokens)?;
        if !tokens.is_at(Kind::Less) {
            return Ok((Ty::Name(name), false));
        }
        self.maybe_closed(tokens, name)
    }
}

/// Type, where rules nest no deeper than `depth`.
///
/// `Syntax`: the first token that is left cannot stand there. `TooDeep`: rules nest deeper. `NoMemory`: want of memory.
#[cycle(nested)]
pub fn ty(alloc: Global, tokens: &mut Tokens<'_, Token>, depth: usize) -> Result<Ty, ParseError>
    ensures { Reads (reads depth g.type_ tokens.old) result tokens.new }
{
    if depth == 0 {
        return Err(ParseError::TooDeep);
    }
    TypeRules {
        alloc,
        depth: depth - 1,
        ty,
        maybe_open,
    }
    .type_form(tokens)
}

/// A type whose last bracket may be closed by the first half of a `>>`, and whether it is.
///
/// The errors are those of `ty`.
#[cycle(nested)]
pub fn maybe_open(
    alloc: Global,
    tokens: &mut Tokens<'_, Token>,
    depth: usize,
) -> Result<(Ty, bool), ParseError>
    ensures { Reads (reads depth (rule g.RMaybe) tokens.old) result tokens.new }
{
    if depth == 0 {
        return Err(ParseError::TooDeep);
    }
    TypeRules {
        alloc,
        depth: depth - 1,
        ty,
        maybe_open,
    }
    .maybe_form(tokens)
}

/// '(' list(Type) ')', with the bytes of the last token.
///
/// The errors are those of `ty`.
pub fn parts(
    alloc: Global,
    tokens: &mut Tokens<'_, Token>,
    depth: usize,
) -> Result<(Items<Ty>, Span), ParseError>
    ensures { Reads (reads depth g.parts tokens.old) result tokens.new }
{
    TypeRules {
        alloc,
        depth,
        ty,
        maybe_open,
    }
    .parts(tokens)
}
