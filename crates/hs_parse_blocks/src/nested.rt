//! The rules that lead back to themselves.

ghost use Rattle.hs_grammar.specs.Parser.{parse_by};
ghost use Rattle.hs_grammar.specs.Reads.{Reads};
ghost use Rattle.hs_forms.specs.Reading as g;
ghost use Rattle.hs_forms.specs.Parsers.{reads};

use crate::forms::Forms;
use hs_forms::Token;
use hs_grammar::cursor::Tokens;
use hs_grammar::error::ParseError;
use hs_parse_exps::Rules;
use hs_syntax::{Block, Exp, If, Level};
use std::alloc::Global;

/// The levels of binding strength, from the weakest on.
const LEVELS: [Level; 9] = [
    Level::Or,
    Level::And,
    Level::Compare,
    Level::BitOr,
    Level::BitXor,
    Level::BitAnd,
    Level::Shift,
    Level::Sum,
    Level::Product,
];

/// The parsers of the rules that may nest as deep as this.
macro_rules! rules {
    ($alloc:expr, $depth:expr) => {
        Rules {
            alloc: $alloc,
            depth: $depth,
            exp: exp_rule,
            unary: unary_rule,
            block: block_rule,
            other: if_rule,
        }
    };
}

/// Exp, with rules nested as deep.
#[cycle(nested)]
fn exp_rule(alloc: Global, tokens: &mut Tokens<'_, Token>, depth: usize) -> Result<Exp, ParseError>
    ensures { Reads (parse_by g.tables g.grammar depth g.RExp tokens.old) result tokens.new }
{
    if depth == 0 {
        return Err(ParseError::TooDeep);
    }
    let rules = rules!(alloc, depth - 1);
    Forms { rules }.binary(tokens, &LEVELS)
}

/// Unary, with rules nested as deep.
#[cycle(nested)]
fn unary_rule(
    alloc: Global,
    tokens: &mut Tokens<'_, Token>,
    depth: usize,
) -> Result<Exp, ParseError>
    ensures { Reads (parse_by g.tables g.grammar depth g.RUnary tokens.old) result tokens.new }
{
    if depth == 0 {
        return Err(ParseError::TooDeep);
    }
    rules!(alloc, depth - 1).unary(tokens)
}

/// Block, with rules nested as deep.
#[cycle(nested)]
fn block_rule(
    alloc: Global,
    tokens: &mut Tokens<'_, Token>,
    depth: usize,
) -> Result<Block, ParseError>
    ensures { Reads (parse_by g.tables g.grammar depth g.RBlock tokens.old) result tokens.new }
{
    if depth == 0 {
        return Err(ParseError::TooDeep);
    }
    let rules = rules!(alloc, depth - 1);
    Forms { rules }.block_form(tokens)
}

/// If, with rules nested as deep.
#[cycle(nested)]
fn if_rule(alloc: Global, tokens: &mut Tokens<'_, Token>, depth: usize) -> Result<If, ParseError>
    ensures { Reads (parse_by g.tables g.grammar depth g.RIf tokens.old) result tokens.new }
{
    if depth == 0 {
        return Err(ParseError::TooDeep);
    }
    rules!(alloc, depth - 1).if_form(tokens)
}

/// Exp, where rules nest no deeper than `depth`.
pub fn expression(
    alloc: Global,
    tokens: &mut Tokens<'_, Token>,
    depth: usize,
) -> Result<Exp, ParseError>
    ensures { Reads (reads depth g.expression tokens.old) result tokens.new }
{
    exp_rule(alloc, tokens, depth)
}

/// Block, where rules nest no deeper than `depth`.
pub fn block(
    alloc: Global,
    tokens: &mut Tokens<'_, Token>,
    depth: usize,
) -> Result<Block, ParseError>
    ensures { Reads (reads depth g.block tokens.old) result tokens.new }
{
    block_rule(alloc, tokens, depth)
}
