//! Files of tokens.

ghost use Rattle.std.specs.Prelude.{◌≡◌, ◌≢◌, ◌⊎◌, ◌≤◌, ◌<◌, ℕ, List, All, length, IfOk, take};
ghost use Rattle.hs_base.specs.declared.place.Broken.{Broken};
ghost use Rattle.hs_lexer.specs.declared.token.Token.{Token as Spelled};
ghost use Rattle.hs_lexer.specs.Places.{Placed, IsName};
ghost use Rattle.hs_syntax.specs.WellFormed.{WellFormed};
ghost use Rattle.hs_syntax.specs.declared.file.File.{File};
ghost use Rattle.hs_limits.specs.Nested.{Nested, NestedFile};
ghost use Rattle.hs_limits.specs.Nodes.{outline_of};
ghost use Rattle.hs_places.specs.Spaced.{Spaced};
ghost use Rattle.hs_forms.specs.Tokens.{tokens_of};
ghost use Rattle.hs_grammar.specs.Derives.{DerivesAs};
ghost use Rattle.hs_grammar.specs.Whole.{ParseBreak};
ghost use Rattle.hs_forms.specs.Reading.{RFile};
ghost use Rattle.hs_forms.specs.Written.{written};
ghost use Rattle.hs_parser.specs.Nesting as n;
ghost use Rattle.hs_parser.specs.Told as t;

use crate::break_rule::break_rule;
use crate::nesting::too_deep;
use crate::source::{Source, read};
use crate::stop::ParseStop;
use hs_base::memory::NoMemory;
use hs_base::parts::{behind, front};
use hs_base::place::Broken;
use hs_forms::{Token, tokens_of};
use hs_grammar::error::Refusal;
use hs_grammar::grammar::exact;
use hs_lexer::Tokens;
use hs_limits::limits;
use hs_places::nodes_are_nested;
use hs_shapes::items_are_well_formed;
use hs_syntax::{File, Item, Text};
use sqlite_items::Items;
use std::alloc::Global;

/// The byte at which the first of these tokens begins, and the text's end where there is none.
fn start_of(text: &[u8], rest: &[Token]) -> usize
    ensures { result ≡ t.start_of text.now rest.now }
{
    match rest.first() {
        None => text.len(),
        Some(token) => token.span.start as usize,
    }
}

/// What is told where the tokens break at the one of this number, or at the end.
fn break_at(alloc: Global, text: &[u8], seen: &[Token], number: usize) -> Result<Broken, NoMemory>
    ensures { IfOk result (λ b. b ≡ t.break_at text.now seen.now number) }
{
    let rest = behind(seen, number);
    let rule = break_rule(alloc, front(seen, number), rest)?;
    Ok(Broken::told_at(text, rule, start_of(text, rest)))
}

/// The file, where it passes no limit.
///
/// Broken: the limit that is told.
fn limited(text: &[u8], file: File) -> Result<File, ParseStop>
    requires { NestedFile file }
    ensures { t.Limited text.now file result }
{
    match limits(&file) {
        None => Ok(file),
        Some(passed) => {
            let byte = passed.span.start as usize;
            Err(ParseStop::Broken(Broken::told_at(text, passed.rule, byte)))
        }
    }
}

/// What is told of tokens that break the grammar at the one of this number, or at the end.
fn broken(alloc: Global, text: &[u8], seen: &[Token], number: usize) -> Result<File, ParseStop>
    requires { ParseBreak written RFile seen.now number }
    ensures { t.Gives text.now seen.now result }
{
    exact::<Source>();
    Err(ParseStop::Broken(break_at(alloc, text, seen, number)?))
}

/// The file of tokens with these items, or the limit that is told of it.
fn derived(
    alloc: Global,
    text: &[u8],
    seen: &[Token],
    items: Items<Item>,
) -> Result<File, ParseStop>
    requires spaced { Spaced 0 (length text.now) seen.now }
    requires derived { DerivesAs written RFile seen.now items }
    ensures { t.Gives text.now seen.now result }
{
    exact::<Source>();
    nodes_are_nested();
    let text_of_file = Text::of(alloc, text)?;
    let file = File {
        text: text_of_file,
        items,
    };
    limited(text, file)
}

/// The file that tokens are, or what is told of them.
fn whole(alloc: Global, text: &[u8], seen: &[Token]) -> Result<File, ParseStop>
    requires { Spaced 0 (length text.now) seen.now }
    ensures { t.Gives text.now seen.now result }
{
    match read(alloc, seen) {
        Ok(items) => derived(alloc, text, seen, items),
        Err(Refusal::At(number)) => broken(alloc, text, seen, number),
        Err(Refusal::TooDeep | Refusal::NoMemory) => Err(ParseStop::NoMemory),
    }
}

/// What is told of tokens that nest too deep behind the one at this place: where the tokens before it break the grammar, that.
fn before(alloc: Global, text: &[u8], seen: &[Token], place: usize) -> Result<File, ParseStop>
    requires inside { place < length seen.now }
    requires nests { n.NestsAt seen.now place }
    ensures { t.Gives text.now seen.now result }
{
    exact::<Source>();
    let number = match read(alloc, front(seen, place)) {
        Ok(_) => return Err(ParseStop::TooDeep),
        Err(Refusal::At(number)) => number,
        Err(Refusal::TooDeep | Refusal::NoMemory) => return Err(ParseStop::NoMemory),
    };
    if number < place {
        return broken(alloc, text, seen, number);
    }
    Err(ParseStop::TooDeep)
}

/// The answer for the tokens that the grammar sees.
fn answer(alloc: Global, text: &[u8], seen: &[Token]) -> Result<File, ParseStop>
    requires { Spaced 0 (length text.now) seen.now }
    ensures { t.Gives text.now seen.now result }
{
    match too_deep(alloc, seen)? {
        None => whole(alloc, text, seen),
        Some(place) => before(alloc, text, seen, place),
    }
}

/// The file that the tokens of a text are.
///
/// It asks that the tokens stand one behind the other in the text, as those of `lex` do. A `>>` is two tokens to the
/// grammar. The nodes of a file lie in the text, each in its parent and one behind the other, and where the tokens that are
/// names spell names, as those of `lex` do, the file is well formed.
///
/// `Broken`: where the tokens are no file, the first token with which no file goes on, or the end of the text where they end
/// too early, by the first of these that holds: G2 (at the end), G8 (a reserved word that the grammar never uses), G7 (a `!`
/// behind a name), G6 (a closing bracket), G1 (outside brackets), G3, G4 and G5 (inside `( )`, `[ ]` and `{ }`). Of a file
/// the limit that is told: S2 (a height above 64), S4 (a 33rd parameter), S6 (a 1,025th statement), S8 (a 13th part, or a
/// 257th constructor). Limits play no part in where the grammar is broken.
///
/// `TooDeep`: behind a token so much is unfinished that reading it may take more than 7.95 megabytes of the stack. The tokens
/// before it begin a file, and more than 320 open brackets and tokens that wait are unfinished there. A break before it is told.
///
/// `NoMemory`: want of memory.
pub fn parse(alloc: Global, tokens: &Tokens, bytes: &[u8]) -> Result<File, ParseStop>
    requires { Placed 0 (length bytes.now) tokens.now }
    ensures answers { t.Answers bytes.now tokens.now result }
    ensures only_file { (x : File) → t.IsRead bytes.now tokens.now x → (result ≡ Ok x) ⊎ t.Unanswered result }
    ensures only_told { (b : Broken) → t.Diagnosis bytes.now tokens.now b → (result ≡ Err (ParseStop.Broken b)) ⊎ t.Unanswered result }
    ensures shallow { ((place : ℕ) → n.nesting (take place (tokens_of bytes.now tokens.now)) ≤ n.least_depth) → result ≢ Err ParseStop.TooDeep }
    ensures nested { (x : File) → t.IsFile bytes.now tokens.now x → Nested (outline_of x) 0 (length bytes.now) }
    ensures well_formed { (x : File) → All (IsName bytes.now) tokens.now → t.IsFile bytes.now tokens.now x → WellFormed bytes.now x.items }
{
    exact::<Source>();
    nodes_are_nested();
    items_are_well_formed();
    let seen = tokens_of(alloc, bytes, tokens.as_slice())?;
    answer(alloc, bytes, seen.as_slice())
}

/// That what is told and what is read of the tokens of a text exclude each other, and that each is one.
///
/// - `one`: tokens have one file at most.
/// - `once`: the grammar is broken at one place at most.
/// - `apart`: tokens that have a file do not break the grammar.
/// - `read`: nothing is told of tokens with a file that passes no limit.
pub fn unambiguous()
    ensures one { (text : List ℕ) (tokens : List Spelled) (x y : File) → t.IsFile text tokens x → t.IsFile text tokens y → x ≡ y }
    ensures once { (text : List ℕ) (tokens : List Spelled) (b c : Broken) → t.ParseBreaks text tokens b → t.ParseBreaks text tokens c → b ≡ c }
    ensures apart { (text : List ℕ) (tokens : List Spelled) (x : File) (b : Broken) → t.IsFile text tokens x → t.ParseBreaks text tokens b → ⊥ }
    ensures read { (text : List ℕ) (tokens : List Spelled) (x : File) (b : Broken) → t.IsRead text tokens x → t.Diagnosis text tokens b → ⊥ }
{
    exact::<Source>();
}
