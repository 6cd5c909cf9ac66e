//! The check of a text.

ghost use Rattle.std.specs.Prelude.{◌≡◌, ◌≢◌, List, All, IfOk, length};
ghost use Rattle.hs_base.specs.declared.place.Broken.{Broken};
ghost use Rattle.hs_lexer.specs.Places.{Placed, IsNamed};
ghost use Rattle.hs_first_tree.specs.Features.{src};
ghost use Rattle.hs_first_tree.specs.Sound.{Sound};
ghost use Rattle.hs_first_tree.specs.Of.{program_of};
ghost use Rattle.hs_first_tree.specs.Plain as tree;
ghost use Rattle.hs_forms.specs.Tokens.{tokens_of};
ghost use Rattle.hs_parser.specs.Told.{NestsTooDeep};
ghost use Rattle.hs_front.specs.Told.{Accepted, AcceptedBehind, AcceptedTokens, Told, ToldBehind, ToldTokens, NestsTooDeepIn, break_at};
ghost use Rattle.hs_front.specs.Answers.{Only, OnlyBreak, OnBreak};

use crate::parse::{Language, read};
use crate::resolve::Resolver;
use crate::stages::{look_over, stages_exclude};
use crate::symbol::symbols;
use hs_base::place::Broken;
use hs_base::rule::Rule;
use hs_first_tree::features::Src;
use hs_first_tree::program::Program;
use hs_grammar::error::Refusal;
use hs_grammar::grammar::exact;
use hs_lexer::{Token, Tokens, lex};
use hs_parser::{ParseStop, parse, unambiguous};
use std::alloc::Global;

/// That the token of this number is the first that cannot stand where it stands, or that the tokens end too early.
fn grammar_break(text: &[u8], tokens: &[Token], number: usize) -> Broken
    ensures { result ≡ break_at text.now tokens.now number }
{
    let byte = match tokens.get(number) {
        Some(token) => token.start as usize,
        None => text.len(),
    };
    Broken::told_at(text, Rule::G8, byte)
}

/// The program of a text with these tokens.
///
/// Broken: the first token with which no file goes on, or the first name that breaks a rule.
fn checked(alloc: Global, bytes: &[u8], tokens: &[Token]) -> Result<Program<Src>, ParseStop>
    requires placed { Placed 0 (length bytes.now) tokens.now }
    requires named { All (IsNamed bytes.now) tokens.now }
    ensures accepted { IfOk result (λ p. AcceptedBehind bytes.now tokens.now (program_of p)) }
    ensures sound { IfOk result (λ p. Sound src (program_of p)) }
    ensures told { OnBreak result (ToldBehind bytes.now tokens.now) }
    ensures only_program { (p : List tree.Function) → AcceptedBehind bytes.now tokens.now p → Only program_of p result }
    ensures only_break { (b : Broken) → ToldBehind bytes.now tokens.now b → OnlyBreak b result }
    ensures not_deep { result ≢ Err ParseStop.TooDeep }
{
    exact::<Language>();
    let seen = symbols(alloc, bytes, tokens)?;
    match read(alloc, seen.as_slice()) {
        Ok(file) => Resolver::new(alloc, bytes).program(&file),
        Err(Refusal::At(number)) => Err(ParseStop::Broken(grammar_break(bytes, tokens, number))),
        Err(Refusal::NoMemory) => Err(ParseStop::NoMemory),
        Err(Refusal::TooDeep) => unreachable!(),
    }
}

/// The program of a text with these tokens, which the whole language's grammar is to derive too.
///
/// Broken: what `parse` tells, else what `look_over` does, and else what `checked` does.
fn behind_tokens(alloc: Global, bytes: &[u8], tokens: &Tokens) -> Result<Program<Src>, ParseStop>
    requires placed { Placed 0 (length bytes.now) tokens.now }
    requires named { All (IsNamed bytes.now) tokens.now }
    ensures accepted { IfOk result (λ p. AcceptedTokens bytes.now tokens.now (program_of p)) }
    ensures sound { IfOk result (λ p. Sound src (program_of p)) }
    ensures told { OnBreak result (ToldTokens bytes.now tokens.now) }
    ensures only_program { (p : List tree.Function) → AcceptedTokens bytes.now tokens.now p → Only program_of p result }
    ensures only_break { (b : Broken) → ToldTokens bytes.now tokens.now b → OnlyBreak b result }
    ensures too_deep { result ≡ Err ParseStop.TooDeep → NestsTooDeep (tokens_of bytes.now tokens.now) }
{
    unambiguous();
    stages_exclude();
    let file = parse(alloc, tokens, bytes)?;
    look_over(alloc, &file)?;
    checked(alloc, bytes, tokens.as_slice())
}

/// The program of the text, exactly where the language accepts it.
///
/// Broken: the text breaks a rule of the language, and the told one is answered. X1 to X6, S1 and S9 are told of its
/// tokens, as `lex` tells them. Then the grammar of the whole source language is looked at, and the limits on its file: G1 to
/// G8, S2, S4, S6 and S8 are told as `parse` tells them. Then its names are looked for: N1 to N7, N10, S3, S5 and S7 are told as
/// `resolve` tells them. Then what its items declare is looked at: N8, N9, N11, N12 and S2 are told as `items` tells them. Of a
/// file of the whole language that breaks none of these rules G8 is told at the first token with which no file of the first
/// language goes on, or at the end of the text where it ends too early; such a file has at most 32 parameters
/// and 1,024 statements, a sum at most 61 `+`. Of a file of the first language T11 is told at the first assigned name whose local
/// is not `mut`.
/// `TooDeep` comes only where the tokens nest deeper than `parse` always reads. `NoMemory` comes only for want of memory.
pub fn check(alloc: Global, bytes: &[u8]) -> Result<Program<Src>, ParseStop>
    ensures accepted { IfOk result (λ p. Accepted bytes.now (program_of p)) }
    ensures sound { IfOk result (λ p. Sound src (program_of p)) }
    ensures told { OnBreak result (Told bytes.now) }
    ensures only_program { (p : List tree.Function) → Accepted bytes.now p → Only program_of p result }
    ensures only_break { (b : Broken) → Told bytes.now b → OnlyBreak b result }
    ensures too_deep { result ≡ Err ParseStop.TooDeep → NestsTooDeepIn bytes.now }
    ensures one { (p q : List tree.Function) → Accepted bytes.now p → Accepted bytes.now q → p ≡ q }
    ensures apart { (p : List tree.Function) (b : Broken) → Accepted bytes.now p → Told bytes.now b → ⊥ }
{
    exact::<Language>();
    unambiguous();
    stages_exclude();
    match lex(alloc, bytes) {
        Ok(tokens) => behind_tokens(alloc, bytes, &tokens),
        Err(stop) => Err(ParseStop::from(stop)),
    }
}
