//! Expressions, statements and blocks: their heights, and the lengths of their lists.
//!
//! Each call is given the greatest height before it, and gives the greater of that and of what it looks over. So a height is
//! found once, from the inside out. The calls recurse as deep as brackets, prefixes and blocks nest in the text.

ghost use Rattle.std.specs.Prelude.{◌≡◌, suc, map, option_map};
ghost use Rattle.hs_marks.specs.Says.{Says};
ghost use Rattle.hs_limits.specs.Outline.{one, maybe, all, upto, part, statement};
ghost use Rattle.hs_limits.specs.Nodes.{word, node_of_exp, node_of_if, node_of_else, node_of_arg, node_of_postfix, node_of_step, node_of_stmt, node_of_arm, node_of_block, node_of_operand};
ghost use Rattle.hs_limits.specs.Walk.{Gives, first_high, first_chain, high_chain, listed};

use crate::flat::{PARTS, arm_pat, is_past, optional_type, pat, path};
use crate::height::{one_more, settle};
use hs_base::rule::Rule;
use hs_marks::{Breach, refuse_if};
use hs_syntax::{Arg, Arm, Block, Else, Exp, If, Operand, Postfix, Span, Step, Stmt};
use sqlite_items::{Boxed, Items};

/// The greatest number of statements of a block.
const STATEMENTS: usize = 1024;

/// The height of a node that begins at this byte and ends where its last part does, over parts of this height.
///
/// # Errors
///
/// The node, where it is too high.
fn behind(start: u32, last: Span, parts: u32) -> Result<u32, Breach>
    ensures { Says (first_high (record { start = start; end = last.end }) parts) (λ height. height ≡ suc parts) result }
{
    one_more(
        Span {
            start,
            end: last.end,
        },
        parts,
    )
}

/// Looks over an expression.
///
/// # Errors
///
/// The limit that is passed first.
#[cycle(walk)]
pub fn exp(exp: &Exp, before: u32) -> Result<u32, Breach>
    ensures { Gives (one (node_of_exp exp.now)) before result }
{
    match exp {
        Exp::Int(_) | Exp::Bool(_, _) | Exp::Unit(_) => Ok(before.max(1)),
        Exp::Path(name) => {
            path(name)?;
            Ok(before.max(1))
        }
        Exp::Group(span, inner) | Exp::Prefix(span, _, inner) => {
            settle(*span, self::exp(inner.get(), 0)?, before)
        }
        Exp::Tuple(span, parts) => settle(*span, exps(parts, Some(PARTS), 0)?, before),
        Exp::Call(span, name, given) => {
            path(name)?;
            settle(*span, args(given, 0)?, before)
        }
        Exp::Block(inner) => block(inner.get(), before),
        Exp::If(branches) => if_(branches.get(), before),
        Exp::Match(span, scrutinee, list) => {
            let scrutinee = self::exp(scrutinee.get(), 0)?;
            settle(*span, arms(list, scrutinee)?, before)
        }
        Exp::Post(span, first, list) => {
            let first = self::exp(first.get(), 0)?;
            Ok(before.max(steps_behind(list, span.start, first)?))
        }
        Exp::Cast(span, inner, names) => {
            let inner = self::exp(inner.get(), 0)?;
            Ok(before.max(names_behind(names, span.start, inner)?))
        }
        Exp::Binary(span, first, operands) => {
            let first = self::exp(first.get(), 0)?;
            Ok(before.max(operands_behind(operands, span.start, first)?))
        }
    }
}

/// Looks over an `if`.
#[cycle(walk)]
fn if_(branches: &If, before: u32) -> Result<u32, Breach>
    ensures { Gives (one (node_of_if branches.now)) before result }
{
    let condition = exp(&branches.condition, 0)?;
    let then = block(&branches.then, condition)?;
    settle(branches.span, otherwise(&branches.otherwise, then)?, before)
}

/// Looks over what stands behind `else`, where anything does.
#[cycle(walk)]
fn otherwise(branch: &Option<Else>, before: u32) -> Result<u32, Breach>
    ensures { Gives (maybe (option_map node_of_else branch.now)) before result }
{
    match branch {
        None => Ok(before),
        Some(Else::Chain(branches)) => if_(branches.get(), before),
        Some(Else::Last(last)) => block(last.get(), before),
    }
}

/// Looks over an expression that may be missing.
#[cycle(walk)]
fn optional(exp: &Option<Boxed<Exp>>, before: u32) -> Result<u32, Breach>
    ensures { Gives (maybe (option_map node_of_exp exp.now)) before result }
{
    match exp {
        None => Ok(before),
        Some(exp) => self::exp(exp.get(), before),
    }
}

/// Looks over a list of expressions, with a limit on how many there are or without.
#[cycle(walk)]
fn exps(exps: &Items<Exp>, limit: Option<usize>, before: u32) -> Result<u32, Breach>
    ensures { Gives (listed limit part (map node_of_exp exps.now)) before result }
{
    let mut highest = before;
    for (index, part) in exps.as_slice().iter().enumerate() {
        highest = exp(part, highest)?;
        refuse_if(is_past(limit, index), Rule::S8, part.span())?;
    }
    Ok(highest)
}

/// Looks over the arguments of a call.
#[cycle(walk)]
fn args(args: &Items<Arg>, before: u32) -> Result<u32, Breach>
    ensures { Gives (all (map node_of_arg args.now)) before result }
{
    let mut highest = before;
    for given in args.as_slice() {
        highest = arg(given, highest)?;
    }
    Ok(highest)
}

/// Looks over an argument.
#[cycle(walk)]
fn arg(arg: &Arg, before: u32) -> Result<u32, Breach>
    ensures { Gives (one (node_of_arg arg.now)) before result }
{
    match arg {
        Arg::Value(inner) | Arg::Shared(_, inner) => exp(inner, before),
        Arg::Lent(_, _) => Ok(before.max(1)),
        Arg::List(_, list) => exps(list, None, before),
    }
}

/// Looks over the arms of a `match`.
#[cycle(walk)]
fn arms(arms: &Items<Arm>, before: u32) -> Result<u32, Breach>
    ensures { Gives (all (map node_of_arm arms.now)) before result }
{
    let mut highest = before;
    for arm in arms.as_slice() {
        arm_pat(&arm.pattern)?;
        highest = exp(&arm.value, highest)?;
    }
    Ok(highest)
}

/// Looks over what stands behind an expression.
#[cycle(walk)]
fn postfix(postfix: &Postfix, before: u32) -> Result<u32, Breach>
    ensures { Gives (one (node_of_postfix postfix.now)) before result }
{
    match postfix {
        Postfix::Try(_) => Ok(before),
        Postfix::Method(_, _, given) => args(given, before),
        Postfix::Step(inner) => step(inner, before),
    }
}

/// Looks over a step.
#[cycle(walk)]
fn step(step: &Step, before: u32) -> Result<u32, Breach>
    ensures { Gives (one (node_of_step step.now)) before result }
{
    match step {
        Step::Index(_, inner) => exp(inner, before),
        Step::Part(_, _) => Ok(before),
    }
}

/// Looks over the steps of an assigned place.
#[cycle(walk)]
fn steps(steps: &Items<Step>, before: u32) -> Result<u32, Breach>
    ensures { Gives (all (map node_of_step steps.now)) before result }
{
    let mut highest = before;
    for next in steps.as_slice() {
        highest = step(next, highest)?;
    }
    Ok(highest)
}

/// Looks over the steps behind an expression of this height: a node for each, which begins at this byte.
#[cycle(walk)]
fn steps_behind(steps: &Items<Postfix>, start: u32, first: u32) -> Result<u32, Breach>
    ensures { Says (first_chain start (map node_of_postfix steps.now) first) (λ height. height ≡ high_chain (map node_of_postfix steps.now) first) result }
{
    let mut height = first;
    for next in steps.as_slice() {
        let parts = postfix(next, height)?;
        height = behind(start, next.span(), parts)?;
    }
    Ok(height)
}

/// Looks over the operands behind an expression of this height: a node for each, which begins at this byte.
#[cycle(walk)]
fn operands_behind(operands: &Items<Operand>, start: u32, first: u32) -> Result<u32, Breach>
    ensures { Says (first_chain start (map node_of_operand operands.now) first) (λ height. height ≡ high_chain (map node_of_operand operands.now) first) result }
{
    let mut height = first;
    for operand in operands.as_slice() {
        let parts = exp(&operand.right, height)?;
        height = behind(start, operand.right.span(), parts)?;
    }
    Ok(height)
}

/// Looks over the names behind `as`, behind an expression of this height: a node for each, which begins at this byte.
fn names_behind(names: &Items<Span>, start: u32, first: u32) -> Result<u32, Breach>
    ensures { Says (first_chain start (map word names.now) first) (λ height. height ≡ high_chain (map word names.now) first) result }
{
    let mut height = first;
    for name in names.as_slice() {
        height = behind(start, *name, height)?;
    }
    Ok(height)
}

/// Looks over a block.
///
/// # Errors
///
/// The limit that is passed first.
#[cycle(walk)]
pub fn block(block: &Block, before: u32) -> Result<u32, Breach>
    ensures { Gives (one (node_of_block block.now)) before result }
{
    let statements = stmts(&block.statements, 0)?;
    settle(block.span, optional(&block.tail, statements)?, before)
}

/// Looks over the statements of a block.
#[cycle(walk)]
fn stmts(stmts: &Items<Stmt>, before: u32) -> Result<u32, Breach>
    ensures { Gives (upto 1024 statement (map node_of_stmt stmts.now)) before result }
{
    let mut highest = before;
    for (index, next) in stmts.as_slice().iter().enumerate() {
        highest = stmt(next, highest)?;
        refuse_if(is_past(Some(STATEMENTS), index), Rule::S6, next.span())?;
    }
    Ok(highest)
}

/// Looks over a statement.
#[cycle(walk)]
fn stmt(stmt: &Stmt, before: u32) -> Result<u32, Breach>
    ensures { Gives (one (node_of_stmt stmt.now)) before result }
{
    match stmt {
        Stmt::Let(span, pattern, type_, value) => {
            pat(pattern)?;
            optional_type(type_)?;
            settle(*span, exp(value, 0)?, before)
        }
        Stmt::Assign(span, _, place, _, value) => {
            let place = steps(place, 0)?;
            settle(*span, exp(value, place)?, before)
        }
        Stmt::For(span, _, low, high, body) => {
            let low = exp(low, 0)?;
            let high = exp(high, low)?;
            settle(*span, block(body, high)?, before)
        }
        Stmt::Return(_, None) => Ok(before.max(1)),
        Stmt::Return(span, Some(value)) | Stmt::Exp(span, value) => {
            settle(*span, exp(value, 0)?, before)
        }
        Stmt::Bare(inner) => settle(inner.span(), exp(inner, 0)?, before),
    }
}
