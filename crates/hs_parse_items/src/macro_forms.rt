//! The import of the library, and the types that its macros declare. What has no rule inside reads the same at every depth,
//! and its clause names the depth 0.

ghost use Rattle.hs_grammar.specs.Reads.{Reads};
ghost use Rattle.hs_forms.specs.Reading as g;
ghost use Rattle.hs_forms.specs.Parsers.{reads};
ghost use Rattle.hs_parse_items.specs.Pieces.{other_form};

use hs_forms::{Kind, Token, across, at, int, name};
use hs_grammar::cursor::Tokens;
use hs_grammar::error::ParseError;
use hs_parse_types::ty;
use hs_syntax::{Int, ItemKind, Span};
use std::alloc::Global;

/// 'use' 'hacspec_lib' '::' '*' ';'
#[tactic(auto, unfolding(hs_forms::specs::Reading::use_form))]
fn use_form(tokens: &mut Tokens<'_, Token>) -> Result<(ItemKind, Span), ParseError>
    ensures { Reads (reads 0 g.use_form tokens.old) result tokens.new }
{
    let first = at(tokens, Kind::Use)?;
    tokens.expect(Kind::HacspecLib)?;
    tokens.expect(Kind::PathSeparator)?;
    tokens.expect(Kind::Star)?;
    let last = at(tokens, Kind::Semicolon)?;
    Ok((ItemKind::Use, across(first, last)))
}

/// 'array' '!' '(' NAME ',' INT ',' Type ')' ';'
#[tactic(auto, unfolding(hs_forms::specs::Reading::array_form, hs_forms::specs::Reading::name, hs_forms::specs::Reading::int))]
fn array_form(
    alloc: Global,
    tokens: &mut Tokens<'_, Token>,
    depth: usize,
) -> Result<(ItemKind, Span), ParseError>
    ensures { Reads (reads depth g.array_form tokens.old) result tokens.new }
{
    let first = at(tokens, Kind::Array)?;
    tokens.expect(Kind::Not)?;
    tokens.expect(Kind::LeftParenthesis)?;
    let name = name(tokens)?;
    tokens.expect(Kind::Comma)?;
    let length = int(tokens)?;
    tokens.expect(Kind::Comma)?;
    let ty = ty(alloc, tokens, depth)?;
    tokens.expect(Kind::RightParenthesis)?;
    let last = at(tokens, Kind::Semicolon)?;
    Ok((ItemKind::Array(name, length, ty), across(first, last)))
}

/// 'bytes' '!' '(' NAME ',' INT ')' ';'
#[tactic(auto, unfolding(hs_forms::specs::Reading::bytes_form, hs_forms::specs::Reading::name, hs_forms::specs::Reading::int))]
fn bytes_form(tokens: &mut Tokens<'_, Token>) -> Result<(ItemKind, Span), ParseError>
    ensures { Reads (reads 0 g.bytes_form tokens.old) result tokens.new }
{
    let first = at(tokens, Kind::Bytes)?;
    tokens.expect(Kind::Not)?;
    tokens.expect(Kind::LeftParenthesis)?;
    let name = name(tokens)?;
    tokens.expect(Kind::Comma)?;
    let length = int(tokens)?;
    tokens.expect(Kind::RightParenthesis)?;
    let last = at(tokens, Kind::Semicolon)?;
    Ok((ItemKind::Bytes(name, length), across(first, last)))
}

/// 'type_name' ':' NAME ',' 'type_of_canvas' ':' NAME ','
#[tactic(auto, unfolding(hs_forms::specs::Reading::nat_mod_names, hs_forms::specs::Reading::name))]
fn nat_mod_names(tokens: &mut Tokens<'_, Token>) -> Result<(Span, Span), ParseError>
    ensures { Reads (reads 0 g.nat_mod_names tokens.old) result tokens.new }
{
    tokens.expect(Kind::TypeName)?;
    tokens.expect(Kind::Colon)?;
    let type_name = name(tokens)?;
    tokens.expect(Kind::Comma)?;
    tokens.expect(Kind::TypeOfCanvas)?;
    tokens.expect(Kind::Colon)?;
    let canvas = name(tokens)?;
    tokens.expect(Kind::Comma)?;
    Ok((type_name, canvas))
}

/// 'bit_size_of_field' ':' INT ',' 'modulo_value' ':' STRING
#[tactic(auto, unfolding(hs_forms::specs::Reading::nat_mod_values, hs_forms::specs::Reading::int))]
fn nat_mod_values(tokens: &mut Tokens<'_, Token>) -> Result<(Int, Span), ParseError>
    ensures { Reads (reads 0 g.nat_mod_values tokens.old) result tokens.new }
{
    tokens.expect(Kind::BitSizeOfField)?;
    tokens.expect(Kind::Colon)?;
    let size = int(tokens)?;
    tokens.expect(Kind::Comma)?;
    tokens.expect(Kind::ModuloValue)?;
    tokens.expect(Kind::Colon)?;
    let modulus = at(tokens, Kind::Text)?;
    Ok((size, modulus))
}

/// 'nat_mod' '!' '(' 'type_name' ':' NAME ',' 'type_of_canvas' ':' NAME ',' 'bit_size_of_field' ':' INT ',' 'modulo_value'
/// ':' STRING ')' ';'
#[tactic(auto, unfolding(hs_forms::specs::Reading::nat_mod_form))]
fn nat_mod_form(tokens: &mut Tokens<'_, Token>) -> Result<(ItemKind, Span), ParseError>
    ensures { Reads (reads 0 g.nat_mod_form tokens.old) result tokens.new }
{
    let first = at(tokens, Kind::NatMod)?;
    tokens.expect(Kind::Not)?;
    tokens.expect(Kind::LeftParenthesis)?;
    let (name, canvas) = nat_mod_names(tokens)?;
    let (size, modulus) = nat_mod_values(tokens)?;
    tokens.expect(Kind::RightParenthesis)?;
    let last = at(tokens, Kind::Semicolon)?;
    let kind = ItemKind::NatMod(name, canvas, size, modulus);
    Ok((kind, across(first, last)))
}

/// What never has `pub` nor a derive list.
#[tactic(auto, unfolding(hs_forms::specs::Reading::use_form, hs_forms::specs::Reading::array_form, hs_forms::specs::Reading::bytes_form, hs_forms::specs::Reading::nat_mod_form, hs_forms::specs::Reading::nat_mod_names, hs_forms::specs::Reading::nat_mod_values, hs_forms::specs::Reading::name, hs_forms::specs::Reading::int))]
pub fn other_form(
    alloc: Global,
    tokens: &mut Tokens<'_, Token>,
    depth: usize,
) -> Result<(ItemKind, Span), ParseError>
    ensures { Reads (reads depth other_form tokens.old) result tokens.new }
{
    if tokens.is_at(Kind::Use) {
        return use_form(tokens);
    }
    if tokens.is_at(Kind::Array) {
        return array_form(alloc, tokens, depth);
    }
    if tokens.is_at(Kind::Bytes) {
        return bytes_form(tokens);
    }
    nat_mod_form(tokens)
}
