//! The parsers of the rules that lead back to themselves.

ghost use Rattle.hs_grammar.specs.Reads.{Reads};
ghost use Rattle.hs_forms.specs.Reading as g;
ghost use Rattle.hs_forms.specs.Parsers.{reads};
ghost use Rattle.hs_parse_exps.specs.Follow.{FollowGrammar};

use hs_forms::Token;
use hs_grammar::cursor::Tokens;
use hs_grammar::error::ParseError;
use hs_syntax::{Block, Exp, If};
use std::alloc::Global;

/// The parsers of expressions, of operands with prefixes, of blocks, and of an `if` behind `else`, over which each form below
/// the operators is read. Each form requires that they follow the grammar.
///
/// Each method answers `Syntax` where the first of the tokens that are left cannot stand there, `TooDeep` where rules nest
/// deeper than they may, and `NoMemory` where memory runs out.
#[derive(Clone, Copy)]
pub struct Rules<E, U, B, I> {
    /// Where trees are kept.
    pub alloc: Global,
    /// How deep rules may still nest.
    pub depth: usize,
    /// The parser of expressions.
    pub exp: E,
    /// The parser of operands with prefixes.
    pub unary: U,
    /// The parser of blocks.
    pub block: B,
    /// The parser of an `if` behind `else`.
    pub other: I,
}

impl<
    E: Fn(Global, &mut Tokens<'_, Token>, usize) -> Result<Exp, ParseError>,
    U: Fn(Global, &mut Tokens<'_, Token>, usize) -> Result<Exp, ParseError>,
    B: Fn(Global, &mut Tokens<'_, Token>, usize) -> Result<Block, ParseError>,
    I: Fn(Global, &mut Tokens<'_, Token>, usize) -> Result<If, ParseError>,
> Rules<E, U, B, I> {
    /// Exp: what the parser of expressions reads.
    pub fn expression(&self, tokens: &mut Tokens<'_, Token>) -> Result<Exp, ParseError>
        requires { FollowGrammar E.Fn U.Fn B.Fn I.Fn self.now }
        ensures { Reads (reads self.now.depth g.expression tokens.old) result tokens.new }
    {
        (self.exp)(self.alloc, tokens, self.depth)
    }

    /// Block: what the parser of blocks reads.
    pub fn block(&self, tokens: &mut Tokens<'_, Token>) -> Result<Block, ParseError>
        requires { FollowGrammar E.Fn U.Fn B.Fn I.Fn self.now }
        ensures { Reads (reads self.now.depth g.block tokens.old) result tokens.new }
    {
        (self.block)(self.alloc, tokens, self.depth)
    }
}
