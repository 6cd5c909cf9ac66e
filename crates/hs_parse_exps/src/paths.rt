//! Paths.

ghost use Rattle.hs_grammar.specs.Parser.{giving};
ghost use Rattle.hs_grammar.specs.Reads.{Reads};
ghost use Rattle.hs_forms.specs.Reading as g;
ghost use Rattle.hs_forms.specs.Parsers.{reads};

use hs_forms::{Kind, Token, across, name};
use hs_grammar::cursor::Tokens;
use hs_grammar::error::ParseError;
use hs_parse_types::maybe_open;
use hs_syntax::{Path, Span, Ty};
use std::alloc::Global;

/// '<' Type '>'
#[tactic(auto, unfolding(hs_forms::specs::Reading::path_type))]
fn path_type(alloc: Global, tokens: &mut Tokens<'_, Token>, depth: usize) -> Result<Ty, ParseError>
    ensures { Reads (reads depth g.path_type tokens.old) result tokens.new }
{
    tokens.expect(Kind::Less)?;
    let (ty, open) = maybe_open(alloc, tokens, depth)?;
    if open {
        tokens.expect(Kind::ShiftBack)?;
    } else {
        tokens.expect(Kind::Greater)?;
    }
    Ok(ty)
}

/// '<' Type '>' '::' NAME, behind a first name and '::'
#[tactic(auto, unfolding(hs_forms::specs::Reading::path_of_type, hs_forms::specs::Reading::name))]
fn path_of_type(
    alloc: Global,
    tokens: &mut Tokens<'_, Token>,
    depth: usize,
    first: Span,
) -> Result<Path, ParseError>
    ensures { Reads (giving (λ f. f first) (reads depth g.path_of_type tokens.old)) result tokens.new }
{
    let ty = path_type(alloc, tokens, depth)?;
    tokens.expect(Kind::PathSeparator)?;
    let member = name(tokens)?;
    Ok(Path::Of(across(first, member), first, ty, member))
}

/// What stands behind a first name and '::'.
#[tactic(auto, unfolding(hs_forms::specs::Reading::behind_separator, hs_forms::specs::Reading::path_of_type, hs_forms::specs::Reading::path_type, hs_forms::specs::Reading::name))]
fn behind_separator(
    alloc: Global,
    tokens: &mut Tokens<'_, Token>,
    depth: usize,
    first: Span,
) -> Result<Path, ParseError>
    ensures { Reads (giving (λ f. f first) (reads depth g.behind_separator tokens.old)) result tokens.new }
{
    if tokens.is_at(Kind::Less) {
        return path_of_type(alloc, tokens, depth, first);
    }
    let member = name(tokens)?;
    Ok(Path::Member(across(first, member), first, member))
}

/// Path, where rules nest no deeper than `depth`.
#[tactic(auto, unfolding(hs_forms::specs::Reading::path_form, hs_forms::specs::Reading::name))]
pub(crate) fn path(
    alloc: Global,
    tokens: &mut Tokens<'_, Token>,
    depth: usize,
) -> Result<Path, ParseError>
    ensures { Reads (reads depth g.path_form tokens.old) result tokens.new }
{
    let first = name(tokens)?;
    if !tokens.eat(Kind::PathSeparator) {
        return Ok(Path::Name(first));
    }
    behind_separator(alloc, tokens, depth, first)
}
