//! Parameters, and the type behind them.

ghost use Rattle.std.specs.Prelude.{◌≡◌};
ghost use Rattle.hs_grammar.specs.Kinds.{starts};
ghost use Rattle.hs_grammar.specs.Lookahead.{begin};
ghost use Rattle.hs_grammar.specs.Parser.{giving};
ghost use Rattle.hs_grammar.specs.Reads.{Reads};
ghost use Rattle.hs_grammar.specs.Until.{turn_of, pushed, kept};
ghost use Rattle.hs_grammar.specs.Combinators.{list_read, list_turn};
ghost use Rattle.hs_forms.specs.Lexis.{lexis};
ghost use Rattle.hs_forms.specs.Reading as g;
ghost use Rattle.hs_forms.specs.Parsers.{reads};

use hs_forms::{Kind, Token, across, at, is_at_name, name};
use hs_grammar::cursor::Tokens;
use hs_grammar::error::ParseError;
use hs_grammar::loops::{Turn, repeat_until};
use hs_parse_types::ty;
use hs_syntax::{Mode, Param, Ty};
use sqlite_items::Items;
use std::alloc::Global;

/// 'mut' NAME ':' Type
#[tactic(auto, unfolding(hs_forms::specs::Reading::mutable_param, hs_forms::specs::Reading::name))]
fn mutable_param(
    alloc: Global,
    tokens: &mut Tokens<'_, Token>,
    depth: usize,
) -> Result<Param, ParseError>
    ensures { Reads (reads depth g.mutable_param tokens.old) result tokens.new }
{
    let first = at(tokens, Kind::Mut)?;
    let name = name(tokens)?;
    tokens.expect(Kind::Colon)?;
    let ty = ty(alloc, tokens, depth)?;
    Ok(Param {
        span: across(first, ty.span()),
        mode: Mode::Mut,
        name,
        ty,
    })
}

/// '&' 'mut'? Type
#[tactic(auto, unfolding(hs_forms::specs::Reading::lent_type))]
fn lent_type(
    alloc: Global,
    tokens: &mut Tokens<'_, Token>,
    depth: usize,
) -> Result<(Mode, Ty), ParseError>
    ensures { Reads (reads depth g.lent_type tokens.old) result tokens.new }
{
    tokens.expect(Kind::And)?;
    if tokens.is_at(Kind::Mut) {
        tokens.expect(Kind::Mut)?;
        return Ok((Mode::Lent, ty(alloc, tokens, depth)?));
    }
    Ok((Mode::Shared, ty(alloc, tokens, depth)?))
}

/// What stands behind ':' in a parameter: Type | '&' 'mut'? Type
#[tactic(auto, unfolding(hs_forms::specs::Reading::mode_type, hs_forms::specs::Reading::lent_type))]
fn mode_type(
    alloc: Global,
    tokens: &mut Tokens<'_, Token>,
    depth: usize,
) -> Result<(Mode, Ty), ParseError>
    ensures { Reads (reads depth g.mode_type tokens.old) result tokens.new }
{
    if tokens.is_at(Kind::And) {
        return lent_type(alloc, tokens, depth);
    }
    Ok((Mode::Value, ty(alloc, tokens, depth)?))
}

/// NAME ':' Type | NAME ':' '&' 'mut'? Type
#[tactic(auto, unfolding(hs_forms::specs::Reading::named_param, hs_forms::specs::Reading::name))]
fn named_param(
    alloc: Global,
    tokens: &mut Tokens<'_, Token>,
    depth: usize,
) -> Result<Param, ParseError>
    ensures { Reads (reads depth g.named_param tokens.old) result tokens.new }
{
    let name = name(tokens)?;
    tokens.expect(Kind::Colon)?;
    let (mode, ty) = mode_type(alloc, tokens, depth)?;
    Ok(Param {
        span: across(name, ty.span()),
        mode,
        name,
        ty,
    })
}

/// Param
#[tactic(auto, unfolding(hs_forms::specs::Reading::param, hs_forms::specs::Reading::mutable_param))]
fn param(alloc: Global, tokens: &mut Tokens<'_, Token>, depth: usize) -> Result<Param, ParseError>
    ensures { Reads (reads depth g.param tokens.old) result tokens.new }
{
    if tokens.is_at(Kind::Mut) {
        return mutable_param(alloc, tokens, depth);
    }
    named_param(alloc, tokens, depth)
}

/// Whether a parameter begins.
#[tactic(auto, unfolding(hs_forms::specs::Reading::param, hs_forms::specs::Reading::mutable_param, hs_forms::specs::Reading::named_param, hs_forms::specs::Reading::name))]
fn is_at_param(tokens: &Tokens<'_, Token>) -> bool
    ensures { result ≡ starts lexis (begin g.tables g.param) tokens.now }
{
    tokens.is_at(Kind::Mut) || is_at_name(tokens)
}

/// list(Param)
fn param_list(
    alloc: Global,
    tokens: &mut Tokens<'_, Token>,
    depth: usize,
) -> Result<Items<Param>, ParseError>
    ensures { Reads (reads depth (list_read g.comma g.param) tokens.old) result tokens.new }
{
    let mut first = Items::new(alloc);
    first.push(param(alloc, tokens, depth)?)?;
    repeat_until(
        tokens,
        first,
        &[Kind::Comma],
        |mut params, tokens|
            ensures { Reads (giving (turn_of pushed kept params) (reads depth (list_turn g.comma g.param) tokens.old)) result tokens.new }
        {
            tokens.expect(Kind::Comma)?;
            if !is_at_param(tokens) {
                return Ok(Turn::Last(params));
            }
            params.push(param(alloc, tokens, depth)?)?;
            Ok(Turn::More(params))
        },
    )
}

/// What stands behind '(' in a function: ')' | list(Param) ')'
#[tactic(auto, unfolding(hs_forms::specs::Reading::params_rest))]
fn params_rest(
    alloc: Global,
    tokens: &mut Tokens<'_, Token>,
    depth: usize,
) -> Result<Items<Param>, ParseError>
    ensures { Reads (reads depth g.params_rest tokens.old) result tokens.new }
{
    if tokens.is_at(Kind::RightParenthesis) {
        tokens.expect(Kind::RightParenthesis)?;
        return Ok(Items::new(alloc));
    }
    let params = param_list(alloc, tokens, depth)?;
    tokens.expect(Kind::RightParenthesis)?;
    Ok(params)
}

/// '(' list(Param)? ')'
#[tactic(auto, unfolding(hs_forms::specs::Reading::params))]
pub fn params(
    alloc: Global,
    tokens: &mut Tokens<'_, Token>,
    depth: usize,
) -> Result<Items<Param>, ParseError>
    ensures { Reads (reads depth g.params tokens.old) result tokens.new }
{
    tokens.expect(Kind::LeftParenthesis)?;
    params_rest(alloc, tokens, depth)
}

/// ('->' Type)?
#[tactic(auto, unfolding(hs_forms::specs::Reading::result_type))]
pub fn result_type(
    alloc: Global,
    tokens: &mut Tokens<'_, Token>,
    depth: usize,
) -> Result<Option<Ty>, ParseError>
    ensures { Reads (reads depth g.result_type tokens.old) result tokens.new }
{
    if !tokens.is_at(Kind::Arrow) {
        return Ok(None);
    }
    tokens.expect(Kind::Arrow)?;
    Ok(Some(ty(alloc, tokens, depth)?))
}
