//! The places that expressions are, and what is made of expressions that are statements.

ghost use Rattle.std.specs.Prelude.{◌≡◌, List, [], ◌++◌, Some, IfOk, OnOk};
ghost use Rattle.std.specs.List.{cons_option, filter_map, list_all};
ghost use Rattle.std.specs.Option.{option_map};
ghost use Rattle.hs_syntax.specs.declared.exp.Step as step;
ghost use Rattle.hs_syntax.specs.declared.exp.Target as target;
ghost use Rattle.hs_forms.specs.Blocks as b;
ghost use Rattle.hs_parse_blocks.specs.Places.{is_step};

use hs_forms::across;
use hs_syntax::{BinaryOp, Exp, Path, Postfix, PrefixOp, Span, Step, Stmt, Target};
use sqlite_items::Items;
use std::alloc::{AllocError, Global};

/// Whether this is an index or a part.
#[tactic(auto, unfolding(hs_forms::specs::Blocks::step_in, crate::specs::Places::is_step))]
fn is_step(postfix: &Postfix) -> bool
    ensures { result ≡ is_step postfix.now }
{
    match postfix {
        Postfix::Step(_) => true,
        Postfix::Try(_) | Postfix::Method(_, _, _) => false,
    }
}

/// Whether all of these are indices and parts.
fn are_steps(postfixes: &[Postfix]) -> bool
    ensures { result ≡ list_all is_step postfixes.now }
{
    postfixes.iter().all(|postfix| is_step(postfix))
}

/// The name that an expression is.
#[tactic(auto, unfolding(hs_forms::specs::Blocks::name_in))]
fn name_in(exp: &Exp) -> Option<Span>
    ensures { result ≡ b.name_in exp.now }
{
    match exp {
        Exp::Path(Path::Name(name)) => Some(*name),
        _ => None,
    }
}

/// The name that an expression is, with indices and parts behind it or none.
#[tactic(auto, unfolding(hs_forms::specs::Blocks::steps_in, hs_forms::specs::Blocks::name_in), using(crate::proofs::Steps::stepped_alone))]
fn stepped(exp: &Exp) -> Option<Span>
    ensures { result ≡ option_map (λ p. p.0) (b.steps_in exp.now) }
{
    match exp {
        Exp::Path(_) => name_in(exp),
        Exp::Post(_, first, postfixes) => {
            if are_steps(postfixes.as_slice()) {
                name_in(first.get())
            } else {
                None
            }
        }
        _ => None,
    }
}

/// The place that an expression is: a name with indices and parts behind it, and perhaps a `*` before it.
#[tactic(auto, unfolding(hs_forms::specs::Blocks::place_in))]
fn target_in(exp: &Exp) -> Option<Target>
    ensures { result ≡ option_map (λ p. p.0) (b.place_in exp.now) }
{
    match exp {
        Exp::Prefix(span, PrefixOp::Read, inner) => {
            let name = stepped(inner.get())?;
            Some(Target {
                span: *span,
                star: true,
                name,
            })
        }
        Exp::Prefix(_, _, _) => None,
        _ => {
            let name = stepped(exp)?;
            Some(Target {
                span: exp.span(),
                star: false,
                name,
            })
        }
    }
}

/// Whether an expression is a place.
#[tactic(auto, unfolding(hs_forms::specs::Blocks::is_place))]
pub fn is_place(exp: &Exp) -> bool
    ensures { result ≡ b.is_place exp.now }
{
    target_in(exp).is_some()
}

/// Puts an index or a part at the end of the steps, and passes over what is neither.
///
/// Want of memory.
#[tactic(auto, unfolding(hs_forms::specs::Blocks::step_in))]
fn keep_step(steps: &mut Vec<Step>, postfix: Postfix) -> Result<(), AllocError>
    ensures { OnOk result (steps.new.items ≡ steps.old.items ++ cons_option (b.step_in postfix) []) }
{
    if let Postfix::Step(step) = postfix {
        steps.push(step)?;
    }
    Ok(())
}

/// Those of these that are indices and parts, in order.
///
/// Want of memory.
fn steps_among(alloc: Global, mut postfixes: Items<Postfix>) -> Result<Items<Step>, AllocError>
    ensures { IfOk result (λ steps. steps ≡ filter_map b.step_in postfixes) }
{
    let mut steps = Vec::new(alloc);
    while let Some(postfix) = postfixes.pop() {
        keep_step(&mut steps, postfix)?;
    }
    steps.reverse();
    Ok(Items::from_vec(steps))
}

/// The steps behind the name of a place.
///
/// Want of memory.
#[tactic(auto, unfolding(hs_forms::specs::Blocks::place_in, hs_forms::specs::Blocks::steps_in))]
fn steps_of(alloc: Global, exp: Exp) -> Result<Items<Step>, AllocError>
    ensures { (t : target.Target) → (ts : List step.Step) → b.place_in exp ≡ Some (t, ts) → IfOk result (λ steps. steps ≡ ts) }
{
    match exp {
        Exp::Post(_, _, postfixes) => steps_among(alloc, postfixes),
        Exp::Prefix(_, _, inner) => match inner.into_inner() {
            Exp::Post(_, _, postfixes) => steps_among(alloc, postfixes),
            _ => Ok(Items::new(alloc)),
        },
        _ => Ok(Items::new(alloc)),
    }
}

/// An expression and its `;`.
pub fn exp_stmt_of(exp: Exp, close: Span) -> Stmt
    ensures { result ≡ b.exp_stmt_of exp close }
{
    Stmt::Exp(across(exp.span(), close), exp)
}

/// An `if`, a `match` or a block, with or without `;`.
pub fn alone_of(exp: Exp, close: Option<Span>) -> Stmt
    ensures { result ≡ b.alone_of exp close }
{
    match close {
        Some(close) => exp_stmt_of(exp, close),
        None => Stmt::Bare(exp),
    }
}

/// An assignment to the place that an expression is.
///
/// Want of memory.
pub fn assign_of(
    alloc: Global,
    exp: Exp,
    op: Option<BinaryOp>,
    right: Exp,
    close: Span,
) -> Result<Stmt, AllocError>
    ensures { IfOk result (λ s. s ≡ b.assign_of exp op right close) }
{
    let Some(target) = target_in(&exp) else {
        return Ok(exp_stmt_of(exp, close));
    };
    let span = across(target.span, close);
    let steps = steps_of(alloc, exp)?;
    Ok(Stmt::Assign(span, target, steps, op, right))
}
