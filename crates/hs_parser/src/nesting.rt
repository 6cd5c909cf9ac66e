//! Where tokens nest too deep.

ghost use Rattle.std.specs.Prelude.{◌≡◌, ◌<◌, IfOk, IfSome, length, reverse};
ghost use Rattle.hs_grammar.specs.Kinds.{has};
ghost use Rattle.hs_forms.specs.Lexis.{lexis};
ghost use Rattle.hs_forms.specs.Reading.{assign_kinds};
ghost use Rattle.hs_parser.specs.Nesting as n;

use crate::break_rule::{closes, opens};
use crate::stack::Stack;
use hs_base::memory::NoMemory;
use hs_forms::{Kind, Token};
use sqlite_items::Items;
use std::alloc::Global;

/// How much may nest that is always read. By the weights of the stack no more than 7.7 megabytes are taken where so much nests.
const LEAST_DEPTH: usize = 320;

/// Whether it is a prefix or an operator, but no comparison.
fn is_operator(kind: Kind) -> bool
    ensures { result ≡ has lexis n.operators kind }
{
    kind == Kind::Not
        || kind == Kind::Star
        || kind == Kind::Minus
        || kind == Kind::Slash
        || kind == Kind::Percent
        || kind == Kind::Plus
        || kind == Kind::ShiftLeft
        || kind == Kind::ShiftFront
        || kind == Kind::And
        || kind == Kind::Caret
        || kind == Kind::Or
}

/// Whether it is a comparison, or joins comparisons.
fn is_comparison(kind: Kind) -> bool
    ensures { result ≡ has lexis n.comparisons kind }
{
    kind == Kind::EqualsEquals
        || kind == Kind::NotEquals
        || kind == Kind::Less
        || kind == Kind::LessEquals
        || kind == Kind::Greater
        || kind == Kind::GreaterEquals
        || kind == Kind::AndAnd
        || kind == Kind::OrOr
}

/// Whether it is a mark of assignment.
fn is_assignment(kind: Kind) -> bool
    ensures { result ≡ has lexis assign_kinds kind }
{
    kind == Kind::Equals
        || kind == Kind::PlusEquals
        || kind == Kind::MinusEquals
        || kind == Kind::StarEquals
        || kind == Kind::SlashEquals
        || kind == Kind::PercentEquals
        || kind == Kind::AndEquals
        || kind == Kind::OrEquals
        || kind == Kind::CaretEquals
        || kind == Kind::ShiftLeftEquals
        || kind == Kind::ShiftRightEquals
}

/// Whether it is a word before an expression or a block.
fn is_branching(kind: Kind) -> bool
    ensures { result ≡ has lexis n.branching kind }
{
    kind == Kind::If || kind == Kind::Match || kind == Kind::Else
}

/// Whether a token of this kind waits for what stands behind it.
#[tactic(auto, unfolding(crate::specs::Nesting::waits))]
fn waits(kind: Kind) -> bool
    ensures { result ≡ n.waits kind }
{
    is_operator(kind) || is_comparison(kind) || is_assignment(kind) || is_branching(kind)
}

/// Whether it ends a statement or an arm's pattern, or begins a statement.
fn is_dividing(kind: Kind) -> bool
    ensures { result ≡ has lexis n.dividing kind }
{
    kind == Kind::Semicolon
        || kind == Kind::FatArrow
        || kind == Kind::Let
        || kind == Kind::For
        || kind == Kind::Return
}

/// Whether it begins an item.
fn is_declaring(kind: Kind) -> bool
    ensures { result ≡ has lexis n.declaring kind }
{
    kind == Kind::Fn
        || kind == Kind::Const
        || kind == Kind::Type
        || kind == Kind::Struct
        || kind == Kind::Enum
        || kind == Kind::Use
        || kind == Kind::Pub
        || kind == Kind::Hash
}

/// Whether it goes on with no expression, so that behind a `}` it begins a statement or an arm.
fn is_beginning(kind: Kind) -> bool
    ensures { result ≡ has lexis n.beginning kind }
{
    kind == Kind::If
        || kind == Kind::Match
        || kind == Kind::Int
        || kind == Kind::Digits
        || kind == Kind::True
        || kind == Kind::False
}

/// Whether what stands before a token of this kind in the same bracket is finished, where the one before it is a `}` or not.
#[tactic(auto, unfolding(crate::specs::Nesting::divides))]
fn divides(behind_brace: bool, kind: Kind) -> bool
    ensures { result ≡ n.divides behind_brace kind }
{
    is_dividing(kind)
        || is_declaring(kind)
        || behind_brace && (kind.is_name() || is_beginning(kind))
}

/// What is unfinished is so no longer inside the innermost bracket, and that bracket is closed.
#[tactic(auto, using(crate::proofs::Unfinished::taken, crate::proofs::Unfinished::outside_opened, crate::proofs::Unfinished::outside_on, crate::proofs::Unfinished::none_left))]
fn close(unfinished: &mut Items<Kind>)
    ensures { reverse unfinished.new ≡ n.outside (reverse unfinished.old) }
{
    while let Some(kind) = unfinished.pop() {
        if opens(kind) {
            return;
        }
    }
}

/// What is unfinished is so no longer inside the innermost bracket.
#[tactic(auto, using(crate::proofs::Unfinished::taken, crate::proofs::Unfinished::bracket_opened, crate::proofs::Unfinished::bracket_on, crate::proofs::Unfinished::none_left))]
fn divide(unfinished: &mut Items<Kind>) -> Result<(), NoMemory>
    ensures { IfOk result (λ _. reverse unfinished.new ≡ n.to_bracket (reverse unfinished.old)) }
{
    while let Some(kind) = unfinished.pop() {
        if opens(kind) {
            unfinished.push(kind)?;
            return Ok(());
        }
    }
    Ok(())
}

/// What a token of this kind finishes is unfinished no longer.
#[tactic(auto, unfolding(crate::specs::Nesting::before))]
fn finish(unfinished: &mut Items<Kind>, behind_brace: bool, kind: Kind) -> Result<(), NoMemory>
    ensures { IfOk result (λ _. reverse unfinished.new ≡ n.before (reverse unfinished.old) behind_brace kind) }
{
    if closes(kind) {
        close(unfinished);
    } else if divides(behind_brace, kind) {
        divide(unfinished)?;
    }
    Ok(())
}

/// What is unfinished behind a token of this kind.
#[tactic(auto, unfolding(crate::specs::Nesting::behind))]
fn step(unfinished: &mut Items<Kind>, behind_brace: bool, kind: Kind) -> Result<(), NoMemory>
    ensures { IfOk result (λ _. reverse unfinished.new ≡ n.behind (reverse unfinished.old) behind_brace kind) }
{
    finish(unfinished, behind_brace, kind)?;
    if opens(kind) || waits(kind) {
        unfinished.push(kind)?;
    }
    Ok(())
}

/// The place of the first token behind which reading may take more of the stack than there is, if there is one. There more
/// than 320 open brackets and tokens that wait are unfinished at once.
///
/// `NoMemory`: want of memory.
pub fn too_deep(alloc: Global, tokens: &[Token]) -> Result<Option<usize>, NoMemory>
    ensures within { IfOk result (λ found. IfSome found (λ place. place < length tokens.now)) }
    ensures nests { IfOk result (λ found. IfSome found (λ place. n.NestsAt tokens.now place)) }
{
    let mut stack = Stack::new(alloc);
    let mut unfinished = Items::new(alloc);
    let mut behind_brace = false;
    let mut place = 0;
    while place < tokens.len() {
        let kind = tokens[place].kind;
        step(&mut unfinished, behind_brace, kind)?;
        stack.step(kind)?;
        behind_brace = kind == Kind::RightBrace;
        if stack.is_spent() && unfinished.len() > LEAST_DEPTH {
            return Ok(Some(place));
        }
        place += 1;
    }
    Ok(None)
}
