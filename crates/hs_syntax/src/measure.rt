//! How high expressions, statements and blocks are.
//!
//! A name, a literal or `()` has height 1, and every other expression, statement and block one more than its highest part.
//! Parentheses count; types, patterns and the path of a call do not. What groups to the left has a node for each operator,
//! step or `as`. An argument is no node: `&e` has the height of `e`, a lent name 1, a list that of its highest item. An arm
//! is no node, and neither are the steps of an assigned place, whose indices are parts of the assignment. A statement that is
//! an `if`, a `match` or a block has one more than it.
//!
//! None of the calls takes memory. They recurse as deep as brackets, prefixes and blocks nest in the text; what groups to the
//! left is walked in a loop.

ghost use Rattle.std.specs.Prelude.{◌≡◌, ℕ, ◌+◌, suc, map, option_map};
ghost use Rattle.hs_syntax.specs.Height.{height_of, arg_height, else_height, if_height, step_height, postfix_height, stmt_height, arm_height, block_height, operand_height, greatest, chained, or_none, capped};

use crate::exp::{Arg, Arm, Block, Else, Exp, If, Operand, Postfix, Step, Stmt};
use sqlite_items::{Boxed, Items};

/// One more than a height, as far as 32 bits hold it.
#[tactic(auto, unfolding(crate::specs::Height::capped))]
fn one_more(height: u32) -> u32
    ensures { result ≡ capped (suc height) }
{
    height.saturating_add(1)
}

/// A height with a node for each of so many names above it, as far as 32 bits hold it.
#[tactic(auto, unfolding(crate::specs::Height::capped))]
fn with_names(height: u32, names: usize) -> u32
    ensures { result ≡ capped (height + names) }
{
    match u32::try_from(names) {
        Ok(names) => height.saturating_add(names),
        Err(_) => u32::MAX,
    }
}

/// The height of an expression; 4294967295 where it is greater.
#[cycle(height)]
pub fn height(exp: &Exp) -> u32
    ensures { result ≡ capped (height_of exp.now) }
{
    match exp {
        Exp::Int(_) | Exp::Bool(_, _) | Exp::Unit(_) | Exp::Path(_) => 1,
        Exp::Group(_, inner) | Exp::Prefix(_, _, inner) => one_more(height(inner.get())),
        Exp::Tuple(_, parts) => one_more(highest_exp(parts)),
        Exp::Call(_, _, args) => one_more(highest_arg(args)),
        Exp::Block(block) => height_of_block(block.get()),
        Exp::If(branches) => height_of_if(branches.get()),
        Exp::Match(_, scrutinee, arms) => one_more(height(scrutinee.get()).max(highest_arm(arms))),
        Exp::Post(_, first, steps) => height_behind(steps, height(first.get())),
        Exp::Cast(_, inner, names) => with_names(height(inner.get()), names.len()),
        Exp::Binary(_, first, operands) => height_with(operands, height(first.get())),
    }
}

/// The height of an `if`.
#[cycle(height)]
fn height_of_if(branches: &If) -> u32
    ensures { result ≡ capped (if_height branches.now) }
{
    let both = height_of_block(&branches.then).max(height_of_else(&branches.otherwise));
    one_more(height(&branches.condition).max(both))
}

/// The height of what stands behind `else`, 0 where nothing does.
#[cycle(height)]
fn height_of_else(otherwise: &Option<Else>) -> u32
    ensures { result ≡ capped (or_none (option_map else_height otherwise.now)) }
{
    match otherwise {
        None => 0,
        Some(Else::Chain(branches)) => height_of_if(branches.get()),
        Some(Else::Last(block)) => height_of_block(block.get()),
    }
}

/// The height of an expression that may be missing, 0 where it is.
#[cycle(height)]
fn height_of_optional(exp: &Option<Boxed<Exp>>) -> u32
    ensures { result ≡ capped (or_none (option_map height_of exp.now)) }
{
    match exp {
        None => 0,
        Some(exp) => height(exp.get()),
    }
}

/// The greatest height of these expressions, 0 where there are none.
#[cycle(height)]
fn highest_exp(exps: &Items<Exp>) -> u32
    ensures { result ≡ capped (greatest (map height_of exps.now)) }
{
    let mut highest = 0;
    for exp in exps.as_slice() {
        highest = height(exp).max(highest);
    }
    highest
}

/// The greatest height of these arguments, 0 where there are none.
#[cycle(height)]
fn highest_arg(args: &Items<Arg>) -> u32
    ensures { result ≡ capped (greatest (map arg_height args.now)) }
{
    let mut highest = 0;
    for arg in args.as_slice() {
        highest = height_of_arg(arg).max(highest);
    }
    highest
}

/// The height of an argument's expressions.
#[cycle(height)]
fn height_of_arg(arg: &Arg) -> u32
    ensures { result ≡ capped (arg_height arg.now) }
{
    match arg {
        Arg::Value(exp) | Arg::Shared(_, exp) => height(exp),
        Arg::Lent(_, _) => 1,
        Arg::List(_, exps) => highest_exp(exps),
    }
}

/// The greatest height of the arms' right sides, 0 where there are no arms.
#[cycle(height)]
fn highest_arm(arms: &Items<Arm>) -> u32
    ensures { result ≡ capped (greatest (map arm_height arms.now)) }
{
    let mut highest = 0;
    for arm in arms.as_slice() {
        highest = height(&arm.value).max(highest);
    }
    highest
}

/// The height of what stands in a method's call or a step, 0 where nothing does.
#[cycle(height)]
fn height_of_postfix(step: &Postfix) -> u32
    ensures { result ≡ capped (postfix_height step.now) }
{
    match step {
        Postfix::Try(_) => 0,
        Postfix::Method(_, _, args) => highest_arg(args),
        Postfix::Step(step) => height_of_step(step),
    }
}

/// The height of the index of a step, 0 where it has none.
#[cycle(height)]
fn height_of_step(step: &Step) -> u32
    ensures { result ≡ capped (step_height step.now) }
{
    match step {
        Step::Index(_, exp) => height(exp),
        Step::Part(_, _) => 0,
    }
}

/// The greatest height of the indices of these steps, 0 where they have none.
#[cycle(height)]
fn highest_step(steps: &Items<Step>) -> u32
    ensures { result ≡ capped (greatest (map step_height steps.now)) }
{
    let mut highest = 0;
    for step in steps.as_slice() {
        highest = height_of_step(step).max(highest);
    }
    highest
}

/// The height of an expression of this height with these steps behind it.
#[cycle(height)]
fn height_behind(steps: &Items<Postfix>, first: u32) -> u32
    ensures { (n : ℕ) → first ≡ capped n → result ≡ capped (chained n (map postfix_height steps.now)) }
{
    let mut before = first;
    for step in steps.as_slice() {
        before = one_more(height_of_postfix(step).max(before));
    }
    before
}

/// The height of an operand of this height with these operators and operands behind it.
#[cycle(height)]
fn height_with(operands: &Items<Operand>, first: u32) -> u32
    ensures { (n : ℕ) → first ≡ capped n → result ≡ capped (chained n (map operand_height operands.now)) }
{
    let mut before = first;
    for operand in operands.as_slice() {
        before = one_more(height(&operand.right).max(before));
    }
    before
}

/// The height of a block; 4294967295 where it is greater.
#[cycle(height)]
pub fn height_of_block(block: &Block) -> u32
    ensures { result ≡ capped (block_height block.now) }
{
    one_more(highest_stmt(&block.statements).max(height_of_optional(&block.tail)))
}

/// The greatest height of these statements, 0 where there are none.
#[cycle(height)]
fn highest_stmt(stmts: &Items<Stmt>) -> u32
    ensures { result ≡ capped (greatest (map stmt_height stmts.now)) }
{
    let mut highest = 0;
    for stmt in stmts.as_slice() {
        highest = height_of_stmt(stmt).max(highest);
    }
    highest
}

/// The height of a statement; 4294967295 where it is greater.
#[cycle(height)]
pub fn height_of_stmt(stmt: &Stmt) -> u32
    ensures { result ≡ capped (stmt_height stmt.now) }
{
    match stmt {
        Stmt::Let(_, _, _, exp) | Stmt::Bare(exp) | Stmt::Exp(_, exp) => one_more(height(exp)),
        Stmt::Assign(_, _, steps, _, exp) => one_more(highest_step(steps).max(height(exp))),
        Stmt::For(_, _, low, high, body) => {
            one_more(height(low).max(height(high)).max(height_of_block(body)))
        }
        Stmt::Return(_, None) => 1,
        Stmt::Return(_, Some(exp)) => one_more(height(exp)),
    }
}
