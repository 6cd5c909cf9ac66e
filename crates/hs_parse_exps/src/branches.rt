//! `if`, `match` and blocks as expressions.

ghost use Rattle.std.specs.Prelude.{◌≡◌, false, [], ◌∷◌};
ghost use Rattle.hs_grammar.specs.Form.{Map};
ghost use Rattle.hs_grammar.specs.Kinds.{starts};
ghost use Rattle.hs_grammar.specs.Parser.{giving};
ghost use Rattle.hs_grammar.specs.Reads.{Reads};
ghost use Rattle.hs_grammar.specs.Until.{turn_of, pushed};
ghost use Rattle.hs_forms.specs.Lexis.{lexis};
ghost use Rattle.hs_forms.specs.Nodes.{all_arms};
ghost use Rattle.hs_forms.specs.Blocks.{step_of};
ghost use Rattle.hs_forms.specs.Reading as g;
ghost use Rattle.hs_forms.specs.Parsers.{reads};
ghost use Rattle.hs_parse_exps.specs.Follow.{FollowGrammar};

use crate::node;
use crate::rules::Rules;
use hs_forms::{Kind, Token, at};
use hs_grammar::cursor::Tokens;
use hs_grammar::error::ParseError;
use hs_grammar::loops::{Turn, repeat_until};
use hs_parse_types::arm_pattern;
use hs_syntax::{Arm, Block, Else, Exp, If};
use sqlite_items::{Boxed, Items};
use std::alloc::Global;

/// What an arm can begin with.
const ARM_KINDS: [Kind; 11] = [
    Kind::Underscore,
    Kind::Name,
    Kind::Array,
    Kind::Bytes,
    Kind::NatMod,
    Kind::HacspecLib,
    Kind::Derive,
    Kind::TypeName,
    Kind::TypeOfCanvas,
    Kind::BitSizeOfField,
    Kind::ModuloValue,
];

impl<
    E: Fn(Global, &mut Tokens<'_, Token>, usize) -> Result<Exp, ParseError>,
    U: Fn(Global, &mut Tokens<'_, Token>, usize) -> Result<Exp, ParseError>,
    B: Fn(Global, &mut Tokens<'_, Token>, usize) -> Result<Block, ParseError>,
    I: Fn(Global, &mut Tokens<'_, Token>, usize) -> Result<If, ParseError>,
> Rules<E, U, B, I> {
    /// Block ','?, and that it need not be the last arm's value
    #[tactic(auto, unfolding(hs_forms::specs::Reading::block_value))]
    fn block_value(&self, tokens: &mut Tokens<'_, Token>) -> Result<(Exp, bool), ParseError>
        requires { FollowGrammar E.Fn U.Fn B.Fn I.Fn self.now }
        ensures { Reads (reads self.now.depth g.block_value tokens.old) result tokens.new }
    {
        let block = self.block(tokens)?;
        tokens.eat(Kind::Comma);
        Ok((Exp::Block(Boxed::new(self.alloc, block)?), false))
    }

    /// Exp ','?, and whether it is the last arm's value, since no ',' stands behind it
    #[tactic(auto, unfolding(hs_forms::specs::Reading::exp_value))]
    fn exp_value(&self, tokens: &mut Tokens<'_, Token>) -> Result<(Exp, bool), ParseError>
        requires parsers { FollowGrammar E.Fn U.Fn B.Fn I.Fn self.now }
        requires no_block { starts lexis (Kind.LeftBrace ∷ []) tokens.old ≡ false }
        ensures { Reads (reads self.now.depth g.exp_value tokens.old) result tokens.new }
    {
        let value = self.expression(tokens)?;
        let goes_on = tokens.eat(Kind::Comma);
        Ok((value, !goes_on))
    }

    /// ArmPat '=>' (Block ','? | Exp ','?), and whether it is the last arm
    #[tactic(auto, unfolding(hs_forms::specs::Reading::arm_form, hs_forms::specs::Reading::block_value))]
    fn arm_form(&self, tokens: &mut Tokens<'_, Token>) -> Result<(Arm, bool), ParseError>
        requires { FollowGrammar E.Fn U.Fn B.Fn I.Fn self.now }
        ensures { Reads (reads self.now.depth g.arm_form tokens.old) result tokens.new }
    {
        let pattern = arm_pattern(self.alloc, tokens, self.depth)?;
        tokens.expect(Kind::FatArrow)?;
        let (value, last) = if tokens.is_at(Kind::LeftBrace) {
            self.block_value(tokens)?
        } else {
            self.exp_value(tokens)?
        };
        Ok((node::arm_of(pattern, value), last))
    }

    /// One more arm.
    fn next_arm(
        &self,
        tokens: &mut Tokens<'_, Token>,
        mut found: Items<Arm>,
    ) -> Result<Turn<Items<Arm>>, ParseError>
        requires { FollowGrammar E.Fn U.Fn B.Fn I.Fn self.now }
        ensures { Reads (giving (turn_of pushed pushed found) (reads self.now.depth (Map step_of g.arm_form) tokens.old)) result tokens.new }
    {
        let (arm, last) = self.arm_form(tokens)?;
        found.push(arm)?;
        if last {
            Ok(Turn::Last(found))
        } else {
            Ok(Turn::More(found))
        }
    }

    /// Arm*, behind a first arm
    fn next_arms(
        &self,
        tokens: &mut Tokens<'_, Token>,
        first: Arm,
    ) -> Result<Items<Arm>, ParseError>
        requires { FollowGrammar E.Fn U.Fn B.Fn I.Fn self.now }
        ensures { Reads (giving (all_arms first) (reads self.now.depth g.next_arms tokens.old)) result tokens.new }
    {
        let mut found = Items::new(self.alloc);
        found.push(first)?;
        repeat_until(
            tokens,
            found,
            &ARM_KINDS,
            |found, tokens|
                requires { FollowGrammar E.Fn U.Fn B.Fn I.Fn self.now }
                ensures { Reads (giving (turn_of pushed pushed found) (reads self.entry.now.depth (Map step_of g.arm_form) tokens.old)) result tokens.new }
            { self.next_arm(tokens, found) },
        )
    }

    /// Arm+
    #[tactic(auto, unfolding(hs_forms::specs::Reading::arms))]
    fn arms(&self, tokens: &mut Tokens<'_, Token>) -> Result<Items<Arm>, ParseError>
        requires { FollowGrammar E.Fn U.Fn B.Fn I.Fn self.now }
        ensures { Reads (reads self.now.depth g.arms tokens.old) result tokens.new }
    {
        let (first, last) = self.arm_form(tokens)?;
        if !last {
            return self.next_arms(tokens, first);
        }
        let mut found = Items::new(self.alloc);
        found.push(first)?;
        Ok(found)
    }

    /// 'match' Exp '{' Arm+ '}'
    #[tactic(auto, unfolding(hs_forms::specs::Reading::match_form))]
    fn match_form(&self, tokens: &mut Tokens<'_, Token>) -> Result<Exp, ParseError>
        requires { FollowGrammar E.Fn U.Fn B.Fn I.Fn self.now }
        ensures { Reads (reads self.now.depth g.match_form tokens.old) result tokens.new }
    {
        let word = at(tokens, Kind::Match)?;
        let value = self.expression(tokens)?;
        tokens.expect(Kind::LeftBrace)?;
        let arms = self.arms(tokens)?;
        let right = at(tokens, Kind::RightBrace)?;
        Ok(node::selection(self.alloc, word, value, arms, right)?)
    }
}

impl<
    E: Fn(Global, &mut Tokens<'_, Token>, usize) -> Result<Exp, ParseError>,
    U: Fn(Global, &mut Tokens<'_, Token>, usize) -> Result<Exp, ParseError>,
    B: Fn(Global, &mut Tokens<'_, Token>, usize) -> Result<Block, ParseError>,
    I: Fn(Global, &mut Tokens<'_, Token>, usize) -> Result<If, ParseError>,
> Rules<E, U, B, I> {
    /// If | Block, behind 'else'
    #[tactic(auto, unfolding(hs_forms::specs::Reading::else_branch))]
    fn else_branch(&self, tokens: &mut Tokens<'_, Token>) -> Result<Else, ParseError>
        requires { FollowGrammar E.Fn U.Fn B.Fn I.Fn self.now }
        ensures { Reads (reads self.now.depth g.else_branch tokens.old) result tokens.new }
    {
        if tokens.is_at(Kind::If) {
            let next = (self.other)(self.alloc, tokens, self.depth)?;
            return Ok(Else::Chain(Boxed::new(self.alloc, next)?));
        }
        let block = self.block(tokens)?;
        Ok(Else::Last(Boxed::new(self.alloc, block)?))
    }

    /// ('else' (If | Block))?
    #[tactic(auto, unfolding(hs_forms::specs::Reading::else_form))]
    fn else_form(&self, tokens: &mut Tokens<'_, Token>) -> Result<Option<Else>, ParseError>
        requires { FollowGrammar E.Fn U.Fn B.Fn I.Fn self.now }
        ensures { Reads (reads self.now.depth g.else_form tokens.old) result tokens.new }
    {
        if !tokens.eat(Kind::Else) {
            return Ok(None);
        }
        Ok(Some(self.else_branch(tokens)?))
    }

    /// If: 'if' Exp Block ('else' (If | Block))?
    #[tactic(auto, unfolding(hs_forms::specs::Reading::if_form))]
    pub fn if_form(&self, tokens: &mut Tokens<'_, Token>) -> Result<If, ParseError>
        requires { FollowGrammar E.Fn U.Fn B.Fn I.Fn self.now }
        ensures { Reads (reads self.now.depth g.if_form tokens.old) result tokens.new }
    {
        let word = at(tokens, Kind::If)?;
        let condition = self.expression(tokens)?;
        let then = self.block(tokens)?;
        let otherwise = self.else_form(tokens)?;
        Ok(node::choice(word, condition, then, otherwise))
    }

    /// If | Match | Block
    #[tactic(auto, unfolding(hs_forms::specs::Reading::alone, hs_forms::specs::Reading::if_form, hs_forms::specs::Reading::match_form))]
    pub fn alone(&self, tokens: &mut Tokens<'_, Token>) -> Result<Exp, ParseError>
        requires { FollowGrammar E.Fn U.Fn B.Fn I.Fn self.now }
        ensures { Reads (reads self.now.depth g.alone tokens.old) result tokens.new }
    {
        if tokens.is_at(Kind::If) {
            let branches = self.if_form(tokens)?;
            return Ok(Exp::If(Boxed::new(self.alloc, branches)?));
        }
        if tokens.is_at(Kind::Match) {
            return self.match_form(tokens);
        }
        let block = self.block(tokens)?;
        Ok(Exp::Block(Boxed::new(self.alloc, block)?))
    }
}
