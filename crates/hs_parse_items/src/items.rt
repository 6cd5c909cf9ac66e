//! Items and files. What has no rule inside reads the same at every depth, and its clause names the depth 0.

ghost use Rattle.hs_grammar.specs.Parser.{giving};
ghost use Rattle.hs_grammar.specs.Reads.{Reads};
ghost use Rattle.hs_grammar.specs.Until.{turn_of, pushed, kept};
ghost use Rattle.hs_grammar.specs.Combinators.{list_read, list_turn};
ghost use Rattle.hs_forms.specs.Reading as g;
ghost use Rattle.hs_forms.specs.Parsers.{reads};
ghost use Rattle.hs_parse_items.specs.Pieces.{derived_data};

use crate::declaration_forms::{data_form, declaration};
use crate::macro_forms::other_form;
use hs_forms::{Kind, Token, across, at, is_at_name, name};
use hs_grammar::cursor::Tokens;
use hs_grammar::error::ParseError;
use hs_grammar::loops::{Turn, repeat, repeat_until};
use hs_syntax::{Item, ItemKind, Span};
use sqlite_items::Items;
use std::alloc::Global;

/// list(NAME)
#[tactic(auto, unfolding(hs_forms::specs::Reading::name))]
fn names(alloc: Global, tokens: &mut Tokens<'_, Token>) -> Result<Items<Span>, ParseError>
    ensures { Reads (reads 0 (list_read g.comma g.name) tokens.old) result tokens.new }
{
    let mut first = Items::new(alloc);
    first.push(name(tokens)?)?;
    repeat_until(
        tokens,
        first,
        &[Kind::Comma],
        |mut names, tokens|
            ensures { Reads (giving (turn_of pushed kept names) (reads 0 (list_turn g.comma g.name) tokens.old)) result tokens.new }
        {
            tokens.expect(Kind::Comma)?;
            if !is_at_name(tokens) {
                return Ok(Turn::Last(names));
            }
            names.push(name(tokens)?)?;
            Ok(Turn::More(names))
        },
    )
}

/// '[' 'derive' '(' list(NAME) ')' ']'
#[tactic(auto, unfolding(hs_forms::specs::Reading::derive_names))]
fn derive_names(alloc: Global, tokens: &mut Tokens<'_, Token>) -> Result<Items<Span>, ParseError>
    ensures { Reads (reads 0 g.derive_names tokens.old) result tokens.new }
{
    tokens.expect(Kind::LeftBracket)?;
    tokens.expect(Kind::Derive)?;
    tokens.expect(Kind::LeftParenthesis)?;
    let names = names(alloc, tokens)?;
    tokens.expect(Kind::RightParenthesis)?;
    tokens.expect(Kind::RightBracket)?;
    Ok(names)
}

/// 'pub'? and what may have a derive list.
fn derived_data(
    alloc: Global,
    tokens: &mut Tokens<'_, Token>,
    depth: usize,
) -> Result<(ItemKind, Span), ParseError>
    ensures { Reads (reads depth derived_data tokens.old) result tokens.new }
{
    if !tokens.is_at(Kind::Pub) {
        return data_form(alloc, tokens, depth);
    }
    tokens.expect(Kind::Pub)?;
    data_form(alloc, tokens, depth)
}

/// An item with a derive list, which begins with its '#'.
#[tactic(auto, unfolding(hs_forms::specs::Reading::derived_item, hs_forms::specs::Reading::derive_names, hs_forms::specs::Reading::name))]
fn derived_item(
    alloc: Global,
    tokens: &mut Tokens<'_, Token>,
    depth: usize,
) -> Result<Item, ParseError>
    ensures { Reads (reads depth g.derived_item tokens.old) result tokens.new }
{
    let first = at(tokens, Kind::Hash)?;
    let derives = derive_names(alloc, tokens)?;
    let (kind, span) = derived_data(alloc, tokens, depth)?;
    Ok(Item {
        span: across(first, span),
        derives,
        kind,
    })
}

/// An item with `pub`.
#[tactic(auto, unfolding(hs_forms::specs::Reading::public_item))]
fn public_item(
    alloc: Global,
    tokens: &mut Tokens<'_, Token>,
    depth: usize,
) -> Result<Item, ParseError>
    ensures { Reads (reads depth g.public_item tokens.old) result tokens.new }
{
    let first = at(tokens, Kind::Pub)?;
    let (kind, span) = declaration(alloc, tokens, depth)?;
    Ok(Item {
        span: across(first, span),
        derives: Items::new(alloc),
        kind,
    })
}

/// An item without.
#[tactic(auto, unfolding(hs_forms::specs::Reading::plain_item))]
fn plain_item(
    alloc: Global,
    tokens: &mut Tokens<'_, Token>,
    depth: usize,
) -> Result<Item, ParseError>
    ensures { Reads (reads depth g.plain_item tokens.old) result tokens.new }
{
    let (kind, span) = declaration(alloc, tokens, depth)?;
    Ok(Item {
        span,
        derives: Items::new(alloc),
        kind,
    })
}

/// What never has `pub` nor a derive list.
#[tactic(auto, unfolding(hs_forms::specs::Reading::other_item))]
fn other_item(
    alloc: Global,
    tokens: &mut Tokens<'_, Token>,
    depth: usize,
) -> Result<Item, ParseError>
    ensures { Reads (reads depth g.other_item tokens.old) result tokens.new }
{
    let (kind, span) = other_form(alloc, tokens, depth)?;
    Ok(Item {
        span,
        derives: Items::new(alloc),
        kind,
    })
}

/// Item
#[tactic(auto, unfolding(hs_forms::specs::Reading::item_form, hs_forms::specs::Reading::derived_item, hs_forms::specs::Reading::public_item, hs_forms::specs::Reading::other_item, hs_forms::specs::Reading::use_form, hs_forms::specs::Reading::array_form, hs_forms::specs::Reading::bytes_form, hs_forms::specs::Reading::nat_mod_form))]
fn item_form(
    alloc: Global,
    tokens: &mut Tokens<'_, Token>,
    depth: usize,
) -> Result<Item, ParseError>
    ensures { Reads (reads depth g.item_form tokens.old) result tokens.new }
{
    if tokens.is_at(Kind::Hash) {
        return derived_item(alloc, tokens, depth);
    }
    if tokens.is_at(Kind::Pub) {
        return public_item(alloc, tokens, depth);
    }
    if tokens.is_at_any(&[Kind::Use, Kind::Array, Kind::Bytes, Kind::NatMod]) {
        return other_item(alloc, tokens, depth);
    }
    plain_item(alloc, tokens, depth)
}

/// What items begin with.
const ITEM_KINDS: [Kind; 11] = [
    Kind::Hash,
    Kind::Pub,
    Kind::Use,
    Kind::Array,
    Kind::Bytes,
    Kind::NatMod,
    Kind::Const,
    Kind::Type,
    Kind::Fn,
    Kind::Struct,
    Kind::Enum,
];

/// The items of a file, where rules inside it nest no deeper than `depth`. It ends in front of the first token that begins no
/// item.
///
/// `Syntax`: the first of the tokens that are left cannot stand there, or none is left and an item is unfinished.
/// `TooDeep`: rules nest deeper. `NoMemory`: want of memory.
pub fn file(
    alloc: Global,
    tokens: &mut Tokens<'_, Token>,
    depth: usize,
) -> Result<Items<Item>, ParseError>
    ensures { Reads (reads depth g.file_form tokens.old) result tokens.new }
{
    repeat(
        tokens,
        Items::new(alloc),
        &ITEM_KINDS,
        |mut items, tokens|
            ensures { Reads (giving (pushed items) (reads depth g.item_form tokens.old)) result tokens.new }
        {
            items.push(item_form(alloc, tokens, depth)?)?;
            Ok(items)
        },
    )
}
