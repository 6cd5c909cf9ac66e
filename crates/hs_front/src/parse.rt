//! The file that tokens say: one function for each form of the grammar.

ghost use Rattle.std.specs.Prelude.{◌≡◌, ◌∷◌, List};
ghost use Rattle.hs_grammar.specs.Parser.{parse_by, giving};
ghost use Rattle.hs_grammar.specs.Reads.{Reads};
ghost use Rattle.hs_grammar.specs.Derives.{DerivesAs};
ghost use Rattle.hs_grammar.specs.Whole.{Parses, Only};
ghost use Rattle.hs_grammar.specs.Kinds.{starts};
ghost use Rattle.hs_grammar.specs.Lookahead.{begin};
ghost use Rattle.hs_front.specs.Lexis.{lexis};
ghost use Rattle.hs_front.specs.Written.{up_to, AFile, written, local, prim, addend, sum, param, next_param, params, assigned, mutable, binding, visibility, title, opening};
ghost use Rattle.hs_front.specs.Reading.{grammar, tables, more, behind, step, body_read, file_read, reads};

use crate::symbol::{Kind, Symbol};
use crate::syntax::{Body, File, Prim, Span, Stmt, Sum};
use hs_grammar::cursor::Tokens;
use hs_grammar::error::{ParseError, Refusal};
use hs_grammar::grammar::{Grammar, exact};
use hs_grammar::whole::finish;
use sqlite_items::Items;
use std::alloc::Global;

/// The grammar of the language.
pub struct Language;

impl Grammar for Language {
    ghost use Rattle.hs_front.specs.Lexis as l;
    ghost use Rattle.hs_front.specs.Written as w;
    ghost use Rattle.hs_front.specs.Reading as r;
    ghost use Rattle.hs_front.specs.Lookahead as f;
    ghost use Rattle.hs_front.specs.Agree as a;

    ghost lexis = { l.lexis };

    ghost decides = { l.decides };

    ghost rules = { w.rules };

    ghost written = { w.written };

    ghost parsed = { r.grammar };

    ghost agree = { a.agree };

    ghost tables = { r.tables };

    ghost fits = { f.fits };
}

/// The most parameters behind the first.
const MORE_PARAMETERS: usize = 31;

/// The most `+` of a sum.
const MOST_PLUS: usize = 61;

/// The most statements of a function.
const MOST_STATEMENTS: usize = 1024;

/// NAME, which for a local may be a built-in one
#[tactic(auto, unfolding(crate::specs::Written::local))]
fn local(tokens: &mut Tokens<'_, Symbol>) -> Result<Span, ParseError>
    ensures { Reads (reads local tokens.old) result tokens.new }
{
    let name = tokens.expect_any(&[Kind::Name, Kind::BuiltIn, Kind::U32])?;
    Ok(name.span)
}

/// Whether the next token is the name of a local.
#[tactic(auto, unfolding(crate::specs::Written::local))]
fn is_at_local(tokens: &Tokens<'_, Symbol>) -> bool
    ensures { result ≡ starts lexis (begin tables local) tokens.now }
{
    tokens.is_at_any(&[Kind::Name, Kind::BuiltIn, Kind::U32])
}

/// Prim ::= NAME | INT
#[tactic(auto, unfolding(crate::specs::Written::prim, crate::specs::Written::local))]
fn prim(tokens: &mut Tokens<'_, Symbol>) -> Result<Prim, ParseError>
    ensures { Reads (reads prim tokens.old) result tokens.new }
{
    if is_at_local(tokens) {
        return Ok(Prim::Name(local(tokens)?));
    }
    Ok(Prim::Int(tokens.expect(Kind::Number)?.value))
}

/// '+' Prim
#[tactic(auto, unfolding(crate::specs::Written::addend))]
fn addend(tokens: &mut Tokens<'_, Symbol>) -> Result<Prim, ParseError>
    ensures { Reads (reads addend tokens.old) result tokens.new }
{
    tokens.expect(Kind::Plus)?;
    prim(tokens)
}

/// ('+' Prim)*
fn more(alloc: Global, tokens: &mut Tokens<'_, Symbol>) -> Result<Items<Prim>, ParseError>
    ensures { Reads (reads more tokens.old) result tokens.new }
{
    let mut parts = Items::new(alloc);
    while parts.len() < MOST_PLUS && tokens.is_at(Kind::Plus) {
        parts.push(addend(tokens)?)?;
    }
    Ok(parts)
}

/// Sum ::= Prim ('+' Prim)*
#[tactic(auto, unfolding(crate::specs::Written::sum, crate::specs::Reading::more))]
fn sum(alloc: Global, tokens: &mut Tokens<'_, Symbol>) -> Result<Sum, ParseError>
    ensures { Reads (reads sum tokens.old) result tokens.new }
{
    let first = prim(tokens)?;
    let more = more(alloc, tokens)?;
    Ok(Sum { first, more })
}

/// Param ::= NAME ':' 'u32'
#[tactic(auto, unfolding(crate::specs::Written::param))]
fn param(tokens: &mut Tokens<'_, Symbol>) -> Result<Span, ParseError>
    ensures { Reads (reads param tokens.old) result tokens.new }
{
    let name = local(tokens)?;
    tokens.expect(Kind::Colon)?;
    tokens.expect(Kind::U32)?;
    Ok(name)
}

/// ',' Param
#[tactic(auto, unfolding(crate::specs::Written::next_param))]
fn next_param(tokens: &mut Tokens<'_, Symbol>) -> Result<Span, ParseError>
    ensures { Reads (reads next_param tokens.old) result tokens.new }
{
    tokens.expect(Kind::Comma)?;
    param(tokens)
}

/// (',' Param)*, behind a first parameter
fn next_params(
    alloc: Global,
    tokens: &mut Tokens<'_, Symbol>,
    first: Span,
) -> Result<Items<Span>, ParseError>
    ensures { Reads (giving (λ ps. first ∷ ps) (reads (up_to 31 next_param) tokens.old)) result tokens.new }
{
    let mut params = Items::new(alloc);
    params.push(first)?;
    while params.len() <= MORE_PARAMETERS && tokens.is_at(Kind::Comma) {
        params.push(next_param(tokens)?)?;
    }
    Ok(params)
}

/// (Param (',' Param)*)?
#[tactic(auto, unfolding(crate::specs::Written::params, crate::specs::Written::param, crate::specs::Written::local))]
fn params(alloc: Global, tokens: &mut Tokens<'_, Symbol>) -> Result<Items<Span>, ParseError>
    ensures { Reads (reads params tokens.old) result tokens.new }
{
    if !is_at_local(tokens) {
        return Ok(Items::new(alloc));
    }
    let first = param(tokens)?;
    next_params(alloc, tokens, first)
}

/// '=' Sum ';'
#[tactic(auto, unfolding(crate::specs::Written::assigned))]
fn assigned(alloc: Global, tokens: &mut Tokens<'_, Symbol>) -> Result<Sum, ParseError>
    ensures { Reads (reads assigned tokens.old) result tokens.new }
{
    tokens.expect(Kind::Equals)?;
    let value = sum(alloc, tokens)?;
    tokens.expect(Kind::Semicolon)?;
    Ok(value)
}

/// 'mut'?
#[tactic(auto, unfolding(crate::specs::Written::mutable))]
fn mutable(tokens: &mut Tokens<'_, Symbol>) -> Result<bool, ParseError>
    ensures { Reads (reads mutable tokens.old) result tokens.new }
{
    if !tokens.is_at(Kind::Mut) {
        return Ok(false);
    }
    tokens.expect(Kind::Mut)?;
    Ok(true)
}

/// 'let' 'mut'? NAME ':' 'u32' '=' Sum ';'
#[tactic(auto, unfolding(crate::specs::Written::binding))]
fn binding(alloc: Global, tokens: &mut Tokens<'_, Symbol>) -> Result<Stmt, ParseError>
    ensures { Reads (reads binding tokens.old) result tokens.new }
{
    tokens.expect(Kind::Let)?;
    let mutable = mutable(tokens)?;
    let name = param(tokens)?;
    let value = assigned(alloc, tokens)?;
    Ok(Stmt::Let(mutable, name, value))
}

/// What a body goes on with.
#[derive(Drop)]
pub enum Part {
    /// A statement.
    Statement(Stmt),
    /// The value, with which the body ends.
    Value(Sum),
}

/// What follows a name: '=' Sum ';' | ('+' Prim)*
#[tactic(auto, unfolding(crate::specs::Reading::behind, crate::specs::Written::assigned))]
fn behind(alloc: Global, tokens: &mut Tokens<'_, Symbol>, name: Span) -> Result<Part, ParseError>
    ensures { Reads (giving (λ f. f name) (reads behind tokens.old)) result tokens.new }
{
    if tokens.is_at(Kind::Equals) {
        return Ok(Part::Statement(Stmt::Set(name, assigned(alloc, tokens)?)));
    }
    let first = Prim::Name(name);
    let more = more(alloc, tokens)?;
    Ok(Part::Value(Sum { first, more }))
}

/// Stmt | Sum
#[tactic(auto, unfolding(crate::specs::Reading::step, crate::specs::Written::local, crate::specs::Written::binding))]
fn step(alloc: Global, tokens: &mut Tokens<'_, Symbol>) -> Result<Part, ParseError>
    ensures { Reads (reads step tokens.old) result tokens.new }
{
    if tokens.is_at(Kind::Let) {
        return Ok(Part::Statement(binding(alloc, tokens)?));
    }
    if is_at_local(tokens) {
        let name = local(tokens)?;
        return behind(alloc, tokens, name);
    }
    let first = Prim::Int(tokens.expect(Kind::Number)?.value);
    let more = more(alloc, tokens)?;
    Ok(Part::Value(Sum { first, more }))
}

/// Body ::= Stmt Body | Sum
fn body(alloc: Global, tokens: &mut Tokens<'_, Symbol>) -> Result<Body, ParseError>
    ensures { Reads (reads (body_read 1024) tokens.old) result tokens.new }
{
    let mut statements = Items::new(alloc);
    while statements.len() < MOST_STATEMENTS {
        match step(alloc, tokens)? {
            Part::Statement(statement) => statements.push(statement)?,
            Part::Value(value) => return Ok(Body { statements, value }),
        }
    }
    let value = sum(alloc, tokens)?;
    Ok(Body { statements, value })
}

/// 'pub'?
#[tactic(auto, unfolding(crate::specs::Written::visibility))]
fn visibility(tokens: &mut Tokens<'_, Symbol>) -> Result<(), ParseError>
    ensures { Reads (reads visibility tokens.old) result tokens.new }
{
    if tokens.is_at(Kind::Pub) {
        tokens.expect(Kind::Pub)?;
    }
    Ok(())
}

/// 'pub'? 'fn' NAME '('
#[tactic(auto, unfolding(crate::specs::Written::title))]
fn title(tokens: &mut Tokens<'_, Symbol>) -> Result<Span, ParseError>
    ensures { Reads (reads title tokens.old) result tokens.new }
{
    visibility(tokens)?;
    tokens.expect(Kind::Fn)?;
    let name = tokens.expect(Kind::Name)?;
    tokens.expect(Kind::LeftParenthesis)?;
    Ok(name.span)
}

/// ')' '->' 'u32' '{'
#[tactic(auto, unfolding(crate::specs::Written::opening))]
fn opening(tokens: &mut Tokens<'_, Symbol>) -> Result<(), ParseError>
    ensures { Reads (reads opening tokens.old) result tokens.new }
{
    tokens.expect(Kind::RightParenthesis)?;
    tokens.expect(Kind::Arrow)?;
    tokens.expect(Kind::U32)?;
    tokens.expect(Kind::LeftBrace)?;
    Ok(())
}

/// File ::= 'pub'? 'fn' NAME '(' (Param (',' Param)*)? ')' '->' 'u32' '{' Body '}'
#[tactic(auto, unfolding(crate::specs::Reading::file_read))]
fn file(alloc: Global, tokens: &mut Tokens<'_, Symbol>) -> Result<File, ParseError>
    ensures { Reads (reads file_read tokens.old) result tokens.new }
{
    let name = title(tokens)?;
    let parameters = params(alloc, tokens)?;
    opening(tokens)?;
    let body = body(alloc, tokens)?;
    tokens.expect(Kind::RightBrace)?;
    Ok(File {
        name,
        parameters,
        body,
    })
}

/// The file that all the tokens are.
///
/// `At`: the first token with which no file goes on. `NoMemory`: want of memory.
pub fn read(alloc: Global, tokens: &[Symbol]) -> Result<File, Refusal>
    ensures parses { Parses written AFile 1 tokens.now result }
    ensures flat { result ≡ Err Refusal.TooDeep → ⊥ }
{
    let mut rest = Tokens::new(tokens);
    let found = file(alloc, &mut rest);
    exact::<Language>();
    finish(found, tokens, &rest)
}
