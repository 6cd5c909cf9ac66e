//! Statements.

ghost use Rattle.std.specs.Prelude.{◌≡◌, false, [], ◌∷◌};
ghost use Rattle.hs_grammar.specs.Kinds.{starts};
ghost use Rattle.hs_grammar.specs.Parser.{giving};
ghost use Rattle.hs_grammar.specs.Reads.{Reads};
ghost use Rattle.hs_grammar.specs.Combinators.{optional};
ghost use Rattle.hs_forms.specs.declared.token.Kind.TheVariants as k;
ghost use Rattle.hs_forms.specs.Lexis.{lexis};
ghost use Rattle.hs_forms.specs.Reading as g;
ghost use Rattle.hs_forms.specs.Parsers.{reads};
ghost use Rattle.hs_parse_exps.specs.Follow.{FollowGrammar};
ghost use Rattle.hs_parse_blocks.specs.Annotation.{annotation};

use crate::forms::Forms;
use crate::node::assign_named;
use crate::places::{alone_of, assign_of, exp_stmt_of, is_place};
use hs_forms::{Kind, Piece, Token, across, at, name};
use hs_grammar::cursor::Tokens;
use hs_grammar::error::ParseError;
use hs_parse_types::{pattern, ty};
use hs_syntax::{BinaryOp, Block, Exp, If, Span, Stmt, Ty, Variable};
use std::alloc::Global;

/// The kinds of `=` and its like.
const ASSIGNMENTS: &[Kind] = &[
    Kind::Equals,
    Kind::PlusEquals,
    Kind::MinusEquals,
    Kind::StarEquals,
    Kind::SlashEquals,
    Kind::PercentEquals,
    Kind::AndEquals,
    Kind::OrEquals,
    Kind::CaretEquals,
    Kind::ShiftLeftEquals,
    Kind::ShiftRightEquals,
];

impl<
    E: Fn(Global, &mut Tokens<'_, Token>, usize) -> Result<Exp, ParseError>,
    U: Fn(Global, &mut Tokens<'_, Token>, usize) -> Result<Exp, ParseError>,
    B: Fn(Global, &mut Tokens<'_, Token>, usize) -> Result<Block, ParseError>,
    I: Fn(Global, &mut Tokens<'_, Token>, usize) -> Result<If, ParseError>,
> Forms<E, U, B, I> {
    /// (':' Type)?
    fn annotation(&self, tokens: &mut Tokens<'_, Token>) -> Result<Option<Ty>, ParseError>
        ensures { Reads (reads self.now.rules.depth annotation tokens.old) result tokens.new }
    {
        if !tokens.is_at(Kind::Colon) {
            return Ok(None);
        }
        tokens.expect(Kind::Colon)?;
        Ok(Some(ty(self.rules.alloc, tokens, self.rules.depth)?))
    }

    /// 'let' Pat (':' Type)? '=' Exp ';'
    #[tactic(auto, unfolding(hs_forms::specs::Reading::let_form))]
    fn let_form(&self, tokens: &mut Tokens<'_, Token>) -> Result<Piece, ParseError>
        requires { FollowGrammar E.Fn U.Fn B.Fn I.Fn self.now.rules }
        ensures { Reads (reads self.now.rules.depth g.let_form tokens.old) result tokens.new }
    {
        let word = at(tokens, Kind::Let)?;
        let pattern = pattern(self.rules.alloc, tokens, self.rules.depth)?;
        let ty = self.annotation(tokens)?;
        tokens.expect(Kind::Equals)?;
        let value = self.rules.expression(tokens)?;
        let close = at(tokens, Kind::Semicolon)?;
        Ok(Piece::Statement(Stmt::Let(across(word, close), pattern, ty, value)))
    }

    /// NAME | '_'
    #[tactic(auto, unfolding(hs_forms::specs::Reading::loop_variable, hs_forms::specs::Reading::name))]
    fn loop_variable(&self, tokens: &mut Tokens<'_, Token>) -> Result<Variable, ParseError>
        ensures { Reads (reads self.now.rules.depth g.loop_variable tokens.old) result tokens.new }
    {
        if tokens.is_at(Kind::Underscore) {
            return Ok(Variable::Any(at(tokens, Kind::Underscore)?));
        }
        Ok(Variable::Name(name(tokens)?))
    }

    /// 'for' (NAME | '_') 'in' Exp '..' Exp Block
    #[tactic(auto, unfolding(hs_forms::specs::Reading::for_form, hs_syntax::specs::Spans::span_of_block))]
    fn for_form(&self, tokens: &mut Tokens<'_, Token>) -> Result<Piece, ParseError>
        requires { FollowGrammar E.Fn U.Fn B.Fn I.Fn self.now.rules }
        ensures { Reads (reads self.now.rules.depth g.for_form tokens.old) result tokens.new }
    {
        let word = at(tokens, Kind::For)?;
        let variable = self.loop_variable(tokens)?;
        tokens.expect(Kind::In)?;
        let low = self.rules.expression(tokens)?;
        tokens.expect(Kind::DotDot)?;
        let high = self.rules.expression(tokens)?;
        let body = self.rules.block(tokens)?;
        Ok(Piece::Statement(Stmt::For(across(word, body.span), variable, low, high, body)))
    }

    /// What stands behind 'return': ';' | Exp ';'
    #[tactic(auto, unfolding(hs_forms::specs::Reading::returned))]
    fn returned(&self, tokens: &mut Tokens<'_, Token>) -> Result<(Option<Exp>, Span), ParseError>
        requires { FollowGrammar E.Fn U.Fn B.Fn I.Fn self.now.rules }
        ensures { Reads (reads self.now.rules.depth g.returned tokens.old) result tokens.new }
    {
        if tokens.is_at(Kind::Semicolon) {
            return Ok((None, at(tokens, Kind::Semicolon)?));
        }
        let value = self.rules.expression(tokens)?;
        let close = at(tokens, Kind::Semicolon)?;
        Ok((Some(value), close))
    }

    /// 'return' Exp? ';'
    #[tactic(auto, unfolding(hs_forms::specs::Reading::return_form))]
    fn return_form(&self, tokens: &mut Tokens<'_, Token>) -> Result<Piece, ParseError>
        requires { FollowGrammar E.Fn U.Fn B.Fn I.Fn self.now.rules }
        ensures { Reads (reads self.now.rules.depth g.return_form tokens.old) result tokens.new }
    {
        let word = at(tokens, Kind::Return)?;
        let (value, close) = self.returned(tokens)?;
        Ok(Piece::Statement(Stmt::Return(across(word, close), value)))
    }

    /// ';'?
    fn separator(&self, tokens: &mut Tokens<'_, Token>) -> Result<Option<Span>, ParseError>
        ensures { Reads (reads self.now.rules.depth (optional (g.at k.Semicolon)) tokens.old) result tokens.new }
    {
        if !tokens.is_at(Kind::Semicolon) {
            return Ok(None);
        }
        Ok(Some(at(tokens, Kind::Semicolon)?))
    }

    /// (If | Match | Block) ';'?
    #[tactic(auto, unfolding(hs_forms::specs::Reading::alone_form))]
    fn alone_form(&self, tokens: &mut Tokens<'_, Token>) -> Result<Piece, ParseError>
        requires { FollowGrammar E.Fn U.Fn B.Fn I.Fn self.now.rules }
        ensures { Reads (reads self.now.rules.depth g.alone_form tokens.old) result tokens.new }
    {
        let exp = self.rules.alone(tokens)?;
        let close = self.separator(tokens)?;
        Ok(Piece::Statement(alone_of(exp, close)))
    }

    /// AssignOp
    #[tactic(auto, unfolding(hs_forms::specs::Reading::assign_op))]
    fn assign_op(&self, tokens: &mut Tokens<'_, Token>) -> Result<Option<BinaryOp>, ParseError>
        ensures { Reads (reads self.now.rules.depth g.assign_op tokens.old) result tokens.new }
    {
        let token = tokens.expect_any(ASSIGNMENTS)?;
        Ok(assign_named(token.kind))
    }

    /// AssignOp Exp ';', behind a place
    #[tactic(auto, unfolding(hs_forms::specs::Reading::assigned))]
    fn assigned(&self, tokens: &mut Tokens<'_, Token>, place: Exp) -> Result<Piece, ParseError>
        requires { FollowGrammar E.Fn U.Fn B.Fn I.Fn self.now.rules }
        ensures { Reads (giving (λ f. f place) (reads self.now.rules.depth g.assigned tokens.old)) result tokens.new }
    {
        let op = self.assign_op(tokens)?;
        let right = self.rules.expression(tokens)?;
        let close = at(tokens, Kind::Semicolon)?;
        let statement = assign_of(self.rules.alloc, place, op, right, close)?;
        Ok(Piece::Statement(statement))
    }

    /// ';', or nothing behind the tail
    #[tactic(auto, unfolding(hs_forms::specs::Reading::finished))]
    fn finished(&self, tokens: &mut Tokens<'_, Token>, exp: Exp) -> Result<Piece, ParseError>
        ensures { Reads (giving (λ f. f exp) (reads self.now.rules.depth g.finished tokens.old)) result tokens.new }
    {
        if !tokens.is_at(Kind::Semicolon) {
            return Ok(Piece::Tail(exp));
        }
        let close = at(tokens, Kind::Semicolon)?;
        Ok(Piece::Statement(exp_stmt_of(exp, close)))
    }

    /// What stands behind a place.
    #[tactic(auto, unfolding(hs_forms::specs::Reading::behind_place, hs_forms::specs::Reading::assigned, hs_forms::specs::Reading::assign_op))]
    fn behind_place(&self, tokens: &mut Tokens<'_, Token>, place: Exp) -> Result<Piece, ParseError>
        requires { FollowGrammar E.Fn U.Fn B.Fn I.Fn self.now.rules }
        ensures { Reads (giving (λ f. f place) (reads self.now.rules.depth g.behind_place tokens.old)) result tokens.new }
    {
        if tokens.is_at_any(ASSIGNMENTS) {
            self.assigned(tokens, place)
        } else {
            self.finished(tokens, place)
        }
    }

    /// What begins with an expression that does not stand alone.
    #[tactic(auto, unfolding(hs_forms::specs::Reading::exp_form))]
    fn exp_form(&self, tokens: &mut Tokens<'_, Token>) -> Result<Piece, ParseError>
        requires parsers { FollowGrammar E.Fn U.Fn B.Fn I.Fn self.now.rules }
        requires not_alone { starts lexis (k.LeftBrace ∷ k.If ∷ k.Match ∷ []) tokens.old ≡ false }
        ensures { Reads (reads self.now.rules.depth g.exp_form tokens.old) result tokens.new }
    {
        let exp = self.rules.expression(tokens)?;
        if is_place(&exp) {
            self.behind_place(tokens, exp)
        } else {
            self.finished(tokens, exp)
        }
    }

    /// A statement, or the tail.
    #[tactic(auto, unfolding(hs_forms::specs::Reading::piece_form, hs_forms::specs::Reading::let_form, hs_forms::specs::Reading::for_form, hs_forms::specs::Reading::return_form, hs_forms::specs::Reading::alone_form, hs_forms::specs::Reading::alone, hs_forms::specs::Reading::if_form, hs_forms::specs::Reading::match_form))]
    pub fn piece_form(&self, tokens: &mut Tokens<'_, Token>) -> Result<Piece, ParseError>
        requires { FollowGrammar E.Fn U.Fn B.Fn I.Fn self.now.rules }
        ensures { Reads (reads self.now.rules.depth g.piece_form tokens.old) result tokens.new }
    {
        if tokens.is_at(Kind::Let) {
            self.let_form(tokens)
        } else if tokens.is_at(Kind::For) {
            self.for_form(tokens)
        } else if tokens.is_at(Kind::Return) {
            self.return_form(tokens)
        } else if tokens.is_at_any(&[Kind::If, Kind::Match, Kind::LeftBrace]) {
            self.alone_form(tokens)
        } else {
            self.exp_form(tokens)
        }
    }
}
