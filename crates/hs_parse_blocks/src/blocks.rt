//! Blocks.

ghost use Rattle.std.specs.Prelude.{◌≡◌, IfErr, IfOk, None, Some};
ghost use Rattle.hs_grammar.specs.Parser.{giving};
ghost use Rattle.hs_grammar.specs.Reads.{Reads};
ghost use Rattle.hs_grammar.specs.Until.{turn_of};
ghost use Rattle.hs_forms.specs.Blocks as b;
ghost use Rattle.hs_forms.specs.Reading as g;
ghost use Rattle.hs_forms.specs.Parsers.{reads};
ghost use Rattle.hs_parse_exps.specs.Follow.{FollowGrammar};
ghost use Rattle.hs_parse_blocks.specs.Body.{piece_turn, with_statement, with_value};

use crate::forms::Forms;
use hs_forms::{Kind, Piece, Token, across, at};
use hs_grammar::cursor::Tokens;
use hs_grammar::error::ParseError;
use hs_grammar::loops::{Turn, repeat_until};
use hs_syntax::{Block, Exp, If, Stmt};
use sqlite_items::{Boxed, Items};
use std::alloc::{AllocError, Global};

/// Statements, and the expression behind them.
type Body = (Items<Stmt>, Option<Boxed<Exp>>);

/// The kinds with which a statement or a tail begins.
const PIECES: &[Kind] = &[
    Kind::Let,
    Kind::For,
    Kind::Return,
    Kind::If,
    Kind::Match,
    Kind::LeftBrace,
    Kind::Minus,
    Kind::Not,
    Kind::Star,
    Kind::Int,
    Kind::Digits,
    Kind::True,
    Kind::False,
    Kind::LeftParenthesis,
    Kind::Name,
    Kind::Array,
    Kind::Bytes,
    Kind::NatMod,
    Kind::HacspecLib,
    Kind::Derive,
    Kind::TypeName,
    Kind::TypeOfCanvas,
    Kind::BitSizeOfField,
    Kind::ModuloValue,
];

/// The `if`, `match` or block that stands alone as a statement, or another statement as it is.
#[tactic(auto, unfolding(hs_forms::specs::Blocks::bare_in))]
fn bare(statement: Stmt) -> Result<Exp, Stmt>
    ensures alone { IfOk result (λ e. b.bare_in statement ≡ Some e) }
    ensures same { IfErr result (λ s. s ≡ statement) }
    ensures other { IfErr result (λ s. b.bare_in s ≡ None) }
{
    match statement {
        Stmt::Bare(value) => Ok(value),
        _ => Err(statement),
    }
}

/// The statements and their tail: the last of them, where it stands alone.
///
/// Want of memory.
#[tactic(auto, using(crate::proofs::Tails::split_bare, crate::proofs::Tails::split_other))]
fn split_tail(alloc: Global, statements: Items<Stmt>) -> Result<Body, AllocError>
    ensures { IfOk result (λ body. body ≡ b.split_tail statements) }
{
    let mut statements = statements;
    let Some(last) = statements.pop() else {
        return Ok((statements, None));
    };
    match bare(last) {
        Ok(value) => Ok((statements, Some(Boxed::new(alloc, value)?))),
        Err(other) => {
            statements.push(other)?;
            Ok((statements, None))
        }
    }
}

/// The statements and their tail: where there is none, a last statement that stands alone.
///
/// Want of memory.
fn with_tail(alloc: Global, body: Body) -> Result<Body, AllocError>
    ensures { IfOk result (λ whole. whole ≡ b.with_tail body) }
{
    match body {
        (statements, Some(value)) => Ok((statements, Some(value))),
        (statements, None) => split_tail(alloc, statements),
    }
}

impl<
    E: Fn(Global, &mut Tokens<'_, Token>, usize) -> Result<Exp, ParseError>,
    U: Fn(Global, &mut Tokens<'_, Token>, usize) -> Result<Exp, ParseError>,
    B: Fn(Global, &mut Tokens<'_, Token>, usize) -> Result<Block, ParseError>,
    I: Fn(Global, &mut Tokens<'_, Token>, usize) -> Result<If, ParseError>,
> Forms<E, U, B, I> {
    /// One more statement, or the tail.
    fn next_piece(
        &self,
        tokens: &mut Tokens<'_, Token>,
        body: Body,
    ) -> Result<Turn<Body>, ParseError>
        requires { FollowGrammar E.Fn U.Fn B.Fn I.Fn self.now.rules }
        ensures { Reads (giving (turn_of with_statement with_value body) (reads self.now.rules.depth piece_turn tokens.old)) result tokens.new }
    {
        let (mut statements, tail) = body;
        match self.piece_form(tokens)? {
            Piece::Statement(statement) => {
                statements.push(statement)?;
                Ok(Turn::More((statements, tail)))
            }
            Piece::Tail(value) => {
                let tail = Boxed::new(self.rules.alloc, value)?;
                Ok(Turn::Last((statements, Some(tail))))
            }
        }
    }

    /// Stmt* Exp?
    fn pieces(&self, tokens: &mut Tokens<'_, Token>) -> Result<Body, ParseError>
        requires { FollowGrammar E.Fn U.Fn B.Fn I.Fn self.now.rules }
        ensures { Reads (reads self.now.rules.depth g.pieces tokens.old) result tokens.new }
    {
        let start = (Items::new(self.rules.alloc), None);
        repeat_until(
            tokens,
            start,
            PIECES,
            |body, tokens|
                requires { FollowGrammar E.Fn U.Fn B.Fn I.Fn self.now.rules }
                ensures { Reads (giving (turn_of with_statement with_value body) (reads self.entry.now.rules.depth piece_turn tokens.old)) result tokens.new }
            { self.next_piece(tokens, body) },
        )
    }

    /// Block.
    #[tactic(auto, unfolding(hs_forms::specs::Reading::block_form))]
    pub fn block_form(&self, tokens: &mut Tokens<'_, Token>) -> Result<Block, ParseError>
        requires { FollowGrammar E.Fn U.Fn B.Fn I.Fn self.now.rules }
        ensures { Reads (reads self.now.rules.depth g.block_form tokens.old) result tokens.new }
    {
        let open = at(tokens, Kind::LeftBrace)?;
        let body = self.pieces(tokens)?;
        let (statements, tail) = with_tail(self.rules.alloc, body)?;
        let close = at(tokens, Kind::RightBrace)?;
        Ok(Block {
            span: across(open, close),
            statements,
            tail,
        })
    }
}
