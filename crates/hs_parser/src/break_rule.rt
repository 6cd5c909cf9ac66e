//! The rule that is told where tokens break the grammar.

ghost use Rattle.std.specs.Prelude.{◌≡◌, [], IfOk};
ghost use Rattle.hs_parser.specs.BreakRule as b;

use hs_base::memory::NoMemory;
use hs_base::rule::Rule;
use hs_forms::{Kind, Token};
use sqlite_items::Items;
use std::alloc::Global;

/// Whether it is an opening bracket.
#[tactic(auto, unfolding(crate::specs::BreakRule::opens))]
pub fn opens(kind: Kind) -> bool
    ensures { result ≡ b.opens kind }
{
    kind == Kind::LeftParenthesis || kind == Kind::LeftBracket || kind == Kind::LeftBrace
}

/// Whether it is a closing bracket.
#[tactic(auto, unfolding(crate::specs::BreakRule::closes))]
pub fn closes(kind: Kind) -> bool
    ensures { result ≡ b.closes kind }
{
    kind == Kind::RightParenthesis || kind == Kind::RightBracket || kind == Kind::RightBrace
}

/// Whether it is a name.
#[tactic(auto, unfolding(crate::specs::BreakRule::is_name))]
fn is_name(kind: Kind) -> bool
    ensures { result ≡ b.is_name kind }
{
    kind == Kind::Name
        || kind == Kind::Array
        || kind == Kind::Bytes
        || kind == Kind::NatMod
        || kind == Kind::HacspecLib
        || kind == Kind::Derive
        || kind == Kind::TypeName
        || kind == Kind::TypeOfCanvas
        || kind == Kind::BitSizeOfField
        || kind == Kind::ModuloValue
}

/// The open brackets behind one more token, the innermost last.
#[tactic(auto, unfolding(crate::specs::BreakRule::open_behind))]
fn turn(brackets: &mut Items<Kind>, kind: Kind) -> Result<(), NoMemory>
    ensures { IfOk result (λ _. brackets.new ≡ b.open_behind brackets.old kind) }
{
    if opens(kind) {
        brackets.push(kind)?;
    } else if closes(kind) {
        brackets.pop();
    }
    Ok(())
}

/// The brackets that are open behind these tokens, the innermost last.
fn open_after(alloc: Global, before: &[Token]) -> Result<Items<Kind>, NoMemory>
    ensures { IfOk result (λ brackets. brackets ≡ b.open_after [] before.now) }
{
    let mut brackets = Items::new(alloc);
    let mut rest = before;
    while let [token, more @ ..] = rest {
        turn(&mut brackets, token.kind)?;
        rest = more;
    }
    Ok(brackets)
}

/// Where a token cannot stand: in the innermost of these brackets, or outside brackets.
fn innermost(brackets: &[Kind]) -> Rule
    ensures { result ≡ b.innermost brackets.now }
{
    match brackets.last() {
        None => Rule::G1,
        Some(Kind::LeftParenthesis) => Rule::G3,
        Some(Kind::LeftBracket) => Rule::G4,
        Some(_) => Rule::G5,
    }
}

/// Whether the last of these tokens is a name.
fn ends_in_name(before: &[Token]) -> bool
    ensures { result ≡ b.ends_in_name before.now }
{
    match before.last() {
        None => false,
        Some(token) => is_name(token.kind),
    }
}

/// The rule of a token that cannot stand behind these.
fn rule_of(alloc: Global, before: &[Token], kind: Kind) -> Result<Rule, NoMemory>
    ensures { IfOk result (λ rule. rule ≡ b.rule_of before.now kind) }
{
    if kind == Kind::Unused {
        return Ok(Rule::G8);
    }
    if kind == Kind::Not && ends_in_name(before) {
        return Ok(Rule::G7);
    }
    if closes(kind) {
        return Ok(Rule::G6);
    }
    let open = open_after(alloc, before)?;
    Ok(innermost(open.as_slice()))
}

/// The rule that is told where tokens break the grammar before the rest.
///
/// G2 where there is no rest. Else the first of these of the rest's first token: G8, it is a reserved word that the grammar
/// never uses; G7, it is a `!` behind a name; G6, it is a closing bracket; G1, it stands outside brackets; G3, G4 or G5, the
/// innermost bracket that is open before it is a `(`, a `[` or a `{`.
#[tactic(auto, unfolding(crate::specs::BreakRule::break_rule))]
pub fn break_rule(alloc: Global, before: &[Token], rest: &[Token]) -> Result<Rule, NoMemory>
    ensures { IfOk result (λ rule. rule ≡ b.break_rule before.now rest.now) }
{
    match rest.first() {
        None => Ok(Rule::G2),
        Some(token) => rule_of(alloc, before, token.kind),
    }
}
