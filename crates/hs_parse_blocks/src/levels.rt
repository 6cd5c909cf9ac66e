//! Operators between operands.

ghost use Rattle.std.specs.Prelude.{◌≡◌, ◌≢◌};
ghost use Rattle.hs_grammar.specs.Lookahead.{begin};
ghost use Rattle.hs_grammar.specs.Parser.{giving};
ghost use Rattle.hs_grammar.specs.Reads.{Reads};
ghost use Rattle.hs_grammar.specs.Until.{pushed};
ghost use Rattle.hs_syntax.specs.declared.exp.Level.TheVariants as strength;
ghost use Rattle.hs_forms.specs.Reading as g;
ghost use Rattle.hs_forms.specs.Parsers.{reads};
ghost use Rattle.hs_parse_exps.specs.Follow.{FollowGrammar};

use crate::forms::Forms;
use crate::node::{binary_of, op_named};
use hs_forms::{Kind, Token};
use hs_grammar::cursor::Tokens;
use hs_grammar::error::ParseError;
use hs_grammar::loops::repeat;
use hs_syntax::{BinaryOp, Block, Exp, If, Level, Operand};
use sqlite_items::Items;
use std::alloc::Global;

/// The kinds with which an operator of the level begins.
#[tactic(auto, unfolding(hs_forms::specs::Reading::operator))]
fn operators(level: Level) -> &'static [Kind]
    ensures { result.now ≡ begin g.tables (g.operator level) }
{
    match level {
        Level::Product => &[Kind::Star, Kind::Slash, Kind::Percent],
        Level::Sum => &[Kind::Plus, Kind::Minus],
        Level::Shift => &[Kind::ShiftLeft, Kind::ShiftFront],
        Level::BitAnd => &[Kind::And],
        Level::BitXor => &[Kind::Caret],
        Level::BitOr => &[Kind::Or],
        Level::Compare => &[
            Kind::EqualsEquals,
            Kind::NotEquals,
            Kind::Less,
            Kind::LessEquals,
            Kind::Greater,
            Kind::GreaterEquals,
        ],
        Level::And => &[Kind::AndAnd],
        Level::Or => &[Kind::OrOr],
    }
}

impl<
    E: Fn(Global, &mut Tokens<'_, Token>, usize) -> Result<Exp, ParseError>,
    U: Fn(Global, &mut Tokens<'_, Token>, usize) -> Result<Exp, ParseError>,
    B: Fn(Global, &mut Tokens<'_, Token>, usize) -> Result<Block, ParseError>,
    I: Fn(Global, &mut Tokens<'_, Token>, usize) -> Result<If, ParseError>,
> Forms<E, U, B, I> {
    /// '<<' | '>' '>'
    #[tactic(auto, unfolding(hs_forms::specs::Reading::operator))]
    fn shift(&self, tokens: &mut Tokens<'_, Token>) -> Result<BinaryOp, ParseError>
        ensures { Reads (reads self.now.rules.depth (g.operator strength.Shift) tokens.old) result tokens.new }
    {
        if tokens.is_at(Kind::ShiftLeft) {
            let token = tokens.expect(Kind::ShiftLeft)?;
            return Ok(op_named(token.kind));
        }
        tokens.expect(Kind::ShiftFront)?;
        let token = tokens.expect(Kind::ShiftBack)?;
        Ok(op_named(token.kind))
    }

    /// An operator of a level other than that of shifts.
    fn mark(&self, tokens: &mut Tokens<'_, Token>, level: Level) -> Result<BinaryOp, ParseError>
        requires { level ≢ strength.Shift }
        ensures { Reads (reads self.now.rules.depth (g.operator level) tokens.old) result tokens.new }
    {
        let token = tokens.expect_any(operators(level))?;
        Ok(op_named(token.kind))
    }

    /// An operator of the level.
    fn operator(&self, tokens: &mut Tokens<'_, Token>, level: Level) -> Result<BinaryOp, ParseError>
        ensures { Reads (reads self.now.rules.depth (g.operator level) tokens.old) result tokens.new }
    {
        if level == Level::Shift {
            self.shift(tokens)
        } else {
            self.mark(tokens, level)
        }
    }

    /// An operator of the level, and its right operand, whose operators bind stronger.
    #[cycle(levels)]
    #[tactic(auto, unfolding(hs_forms::specs::Reading::operand))]
    fn operand(
        &self,
        tokens: &mut Tokens<'_, Token>,
        level: Level,
        stronger: &[Level],
    ) -> Result<Operand, ParseError>
        requires { FollowGrammar E.Fn U.Fn B.Fn I.Fn self.now.rules }
        ensures { Reads (reads self.now.rules.depth (g.operand level (g.binary stronger.now)) tokens.old) result tokens.new }
    {
        let op = self.operator(tokens, level)?;
        let right = self.binary(tokens, stronger)?;
        Ok(Operand { op, right })
    }

    /// A comparison has at most one operand.
    #[cycle(levels)]
    fn comparison(
        &self,
        tokens: &mut Tokens<'_, Token>,
        stronger: &[Level],
    ) -> Result<Items<Operand>, ParseError>
        requires { FollowGrammar E.Fn U.Fn B.Fn I.Fn self.now.rules }
        ensures { Reads (reads self.now.rules.depth (g.operands strength.Compare (g.binary stronger.now)) tokens.old) result tokens.new }
    {
        let mut operands = Items::new(self.rules.alloc);
        if tokens.is_at_any(operators(Level::Compare)) {
            let operand = self.operand(tokens, Level::Compare, stronger)?;
            operands.push(operand)?;
        }
        Ok(operands)
    }

    /// Operators of the level with their right operands, whose operators bind stronger.
    #[cycle(levels)]
    fn operands(
        &self,
        tokens: &mut Tokens<'_, Token>,
        level: Level,
        stronger: &[Level],
    ) -> Result<Items<Operand>, ParseError>
        requires { FollowGrammar E.Fn U.Fn B.Fn I.Fn self.now.rules }
        ensures { Reads (reads self.now.rules.depth (g.operands level (g.binary stronger.now)) tokens.old) result tokens.new }
    {
        if level == Level::Compare {
            return self.comparison(tokens, stronger);
        }
        let start = Items::new(self.rules.alloc);
        repeat(
            tokens,
            start,
            operators(level),
            |operands, tokens|
                requires { FollowGrammar E.Fn U.Fn B.Fn I.Fn self.now.rules }
                ensures { Reads (giving (pushed operands) (reads self.entry.now.rules.depth (g.operand level (g.binary stronger.entry.now)) tokens.old)) result tokens.new }
            {
                let mut operands = operands;
                let operand = self.operand(tokens, level, stronger)?;
                operands.push(operand)?;
                Ok(operands)
            },
        )
    }

    /// The expressions whose operators are of these levels, the weakest of which comes first.
    #[cycle(levels)]
    pub fn binary(
        &self,
        tokens: &mut Tokens<'_, Token>,
        levels: &[Level],
    ) -> Result<Exp, ParseError>
        requires { FollowGrammar E.Fn U.Fn B.Fn I.Fn self.now.rules }
        ensures { Reads (reads self.now.rules.depth (g.binary levels.now) tokens.old) result tokens.new }
    {
        let mut value = self.rules.cast(tokens)?;
        for at in (0..levels.len()).rev() {
            let operands = self.operands(tokens, levels[at], &levels[at + 1..])?;
            value = binary_of(self.rules.alloc, value, operands)?;
        }
        Ok(value)
    }
}
