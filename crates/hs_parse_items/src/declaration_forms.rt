//! Constants, aliases, structs, enums and functions.

ghost use Rattle.hs_grammar.specs.Parser.{giving};
ghost use Rattle.hs_grammar.specs.Reads.{Reads};
ghost use Rattle.hs_grammar.specs.Until.{turn_of, pushed, kept};
ghost use Rattle.hs_grammar.specs.Combinators.{list_read, list_turn};
ghost use Rattle.hs_forms.specs.Reading as g;
ghost use Rattle.hs_forms.specs.Parsers.{reads};

use crate::parameter_forms::{params, result_type};
use hs_forms::{Kind, Token, across, at, is_at_name, name};
use hs_grammar::cursor::Tokens;
use hs_grammar::error::ParseError;
use hs_grammar::loops::{Turn, repeat_until};
use hs_parse_blocks::{block, expression};
use hs_parse_types::{parts, ty};
use hs_syntax::{Ctor, ItemKind, Span};
use sqlite_items::Items;
use std::alloc::Global;

/// 'const' NAME ':' Type '=' Exp ';'
#[tactic(auto, unfolding(hs_forms::specs::Reading::const_form, hs_forms::specs::Reading::name))]
fn const_form(
    alloc: Global,
    tokens: &mut Tokens<'_, Token>,
    depth: usize,
) -> Result<(ItemKind, Span), ParseError>
    ensures { Reads (reads depth g.const_form tokens.old) result tokens.new }
{
    let first = at(tokens, Kind::Const)?;
    let name = name(tokens)?;
    tokens.expect(Kind::Colon)?;
    let ty = ty(alloc, tokens, depth)?;
    tokens.expect(Kind::Equals)?;
    let value = expression(alloc, tokens, depth)?;
    let last = at(tokens, Kind::Semicolon)?;
    Ok((ItemKind::Const(name, ty, value), across(first, last)))
}

/// 'type' NAME '=' Type ';'
#[tactic(auto, unfolding(hs_forms::specs::Reading::alias_form, hs_forms::specs::Reading::name))]
fn alias_form(
    alloc: Global,
    tokens: &mut Tokens<'_, Token>,
    depth: usize,
) -> Result<(ItemKind, Span), ParseError>
    ensures { Reads (reads depth g.alias_form tokens.old) result tokens.new }
{
    let first = at(tokens, Kind::Type)?;
    let name = name(tokens)?;
    tokens.expect(Kind::Equals)?;
    let ty = ty(alloc, tokens, depth)?;
    let last = at(tokens, Kind::Semicolon)?;
    Ok((ItemKind::Alias(name, ty), across(first, last)))
}

/// 'struct' NAME '(' list(Type) ')' ';'
#[tactic(auto, unfolding(hs_forms::specs::Reading::struct_form, hs_forms::specs::Reading::name))]
fn struct_form(
    alloc: Global,
    tokens: &mut Tokens<'_, Token>,
    depth: usize,
) -> Result<(ItemKind, Span), ParseError>
    ensures { Reads (reads depth g.struct_form tokens.old) result tokens.new }
{
    let first = at(tokens, Kind::Struct)?;
    let name = name(tokens)?;
    let (parts, _) = parts(alloc, tokens, depth)?;
    let last = at(tokens, Kind::Semicolon)?;
    Ok((ItemKind::Struct(name, parts), across(first, last)))
}

/// Ctor
#[tactic(auto, unfolding(hs_forms::specs::Reading::ctor, hs_forms::specs::Reading::name, hs_forms::specs::Reading::parts))]
fn ctor(alloc: Global, tokens: &mut Tokens<'_, Token>, depth: usize) -> Result<Ctor, ParseError>
    ensures { Reads (reads depth g.ctor tokens.old) result tokens.new }
{
    let name = name(tokens)?;
    if !tokens.is_at(Kind::LeftParenthesis) {
        return Ok(Ctor {
            span: name,
            name,
            parts: Items::new(alloc),
        });
    }
    let (parts, last) = parts(alloc, tokens, depth)?;
    Ok(Ctor {
        span: across(name, last),
        name,
        parts,
    })
}

/// list(Ctor)
#[tactic(auto, unfolding(hs_forms::specs::Reading::ctor, hs_forms::specs::Reading::name))]
fn ctors(
    alloc: Global,
    tokens: &mut Tokens<'_, Token>,
    depth: usize,
) -> Result<Items<Ctor>, ParseError>
    ensures { Reads (reads depth (list_read g.comma g.ctor) tokens.old) result tokens.new }
{
    let mut first = Items::new(alloc);
    first.push(ctor(alloc, tokens, depth)?)?;
    repeat_until(
        tokens,
        first,
        &[Kind::Comma],
        |mut ctors, tokens|
            ensures { Reads (giving (turn_of pushed kept ctors) (reads depth (list_turn g.comma g.ctor) tokens.old)) result tokens.new }
        {
            tokens.expect(Kind::Comma)?;
            if !is_at_name(tokens) {
                return Ok(Turn::Last(ctors));
            }
            ctors.push(ctor(alloc, tokens, depth)?)?;
            Ok(Turn::More(ctors))
        },
    )
}

/// 'enum' NAME '{' list(Ctor) '}'
#[tactic(auto, unfolding(hs_forms::specs::Reading::enum_form, hs_forms::specs::Reading::name))]
fn enum_form(
    alloc: Global,
    tokens: &mut Tokens<'_, Token>,
    depth: usize,
) -> Result<(ItemKind, Span), ParseError>
    ensures { Reads (reads depth g.enum_form tokens.old) result tokens.new }
{
    let first = at(tokens, Kind::Enum)?;
    let name = name(tokens)?;
    tokens.expect(Kind::LeftBrace)?;
    let ctors = ctors(alloc, tokens, depth)?;
    let last = at(tokens, Kind::RightBrace)?;
    Ok((ItemKind::Enum(name, ctors), across(first, last)))
}

/// 'fn' NAME '(' list(Param)? ')' ('->' Type)? Block
#[tactic(auto, unfolding(hs_forms::specs::Reading::fn_form, hs_forms::specs::Reading::name, hs_syntax::specs::Spans::span_of_block))]
fn fn_form(
    alloc: Global,
    tokens: &mut Tokens<'_, Token>,
    depth: usize,
) -> Result<(ItemKind, Span), ParseError>
    ensures { Reads (reads depth g.fn_form tokens.old) result tokens.new }
{
    let first = at(tokens, Kind::Fn)?;
    let name = name(tokens)?;
    let params = params(alloc, tokens, depth)?;
    let result = result_type(alloc, tokens, depth)?;
    let body = block(alloc, tokens, depth)?;
    let span = across(first, body.span);
    Ok((ItemKind::Fn(name, params, result, body), span))
}

/// What may have a derive list.
#[tactic(auto, unfolding(hs_forms::specs::Reading::data_form, hs_forms::specs::Reading::struct_form))]
pub fn data_form(
    alloc: Global,
    tokens: &mut Tokens<'_, Token>,
    depth: usize,
) -> Result<(ItemKind, Span), ParseError>
    ensures { Reads (reads depth g.data_form tokens.old) result tokens.new }
{
    if tokens.is_at(Kind::Struct) {
        return struct_form(alloc, tokens, depth);
    }
    enum_form(alloc, tokens, depth)
}

/// What may have `pub`.
#[tactic(auto, unfolding(hs_forms::specs::Reading::declaration, hs_forms::specs::Reading::const_form, hs_forms::specs::Reading::alias_form, hs_forms::specs::Reading::fn_form))]
pub fn declaration(
    alloc: Global,
    tokens: &mut Tokens<'_, Token>,
    depth: usize,
) -> Result<(ItemKind, Span), ParseError>
    ensures { Reads (reads depth g.declaration tokens.old) result tokens.new }
{
    if tokens.is_at(Kind::Const) {
        return const_form(alloc, tokens, depth);
    }
    if tokens.is_at(Kind::Type) {
        return alias_form(alloc, tokens, depth);
    }
    if tokens.is_at(Kind::Fn) {
        return fn_form(alloc, tokens, depth);
    }
    data_form(alloc, tokens, depth)
}
