//! The written types in expressions, statements and blocks. The calls recurse as deep as brackets, prefixes and blocks nest in the
//! text.

ghost use Rattle.std.specs.Prelude.{◌≡◌, map, option_map};
ghost use Rattle.hs_marks.specs.First.{first};
ghost use Rattle.hs_marks.specs.Says.{SaysNone};
ghost use Rattle.hs_items.specs.Nodes as n;
ghost use Rattle.hs_items.specs.Walk as w;

use crate::types::World;
use hs_marks::Breach;
use hs_syntax::{Arg, Arm, Block, Else, Exp, If, Operand, Path, Postfix, Step, Stmt};
use sqlite_items::{Boxed, Items};

/// The type of a path, where it has one.
fn path<'a>(path: &Path, world: &World<'a>) -> Result<(), Breach>
    ensures { SaysNone (first (n.in_path (w.nodes_of_ty world.now.symbols.now (w.at world.now.facts.now)) path.now)) result }
{
    if let Path::Of(_, _, ty, _) = path {
        world.check(ty)?;
    }
    Ok(())
}

/// The types in an expression.
#[cycle(walk)]
pub fn exp<'a>(exp: &Exp, world: &World<'a>) -> Result<(), Breach>
    ensures { SaysNone (first (n.in_exp (w.nodes_of_ty world.now.symbols.now (w.at world.now.facts.now)) exp.now)) result }
{
    match exp {
        Exp::Int(_) | Exp::Bool(_, _) | Exp::Unit(_) => Ok(()),
        Exp::Path(name) => path(name, world),
        Exp::Group(_, inner) | Exp::Prefix(_, _, inner) | Exp::Cast(_, inner, _) => {
            self::exp(inner.get(), world)
        }
        Exp::Tuple(_, parts) => exps(parts, world),
        Exp::Call(_, name, given) => {
            path(name, world)?;
            args(given, world)
        }
        Exp::Block(inner) => block(inner.get(), world),
        Exp::If(branches) => if_(branches.get(), world),
        Exp::Match(_, scrutinee, list) => {
            self::exp(scrutinee.get(), world)?;
            arms(list, world)
        }
        Exp::Post(_, first, list) => {
            self::exp(first.get(), world)?;
            behind(list, world)
        }
        Exp::Binary(_, first, list) => {
            self::exp(first.get(), world)?;
            operands(list, world)
        }
    }
}

/// The types in an `if`.
#[cycle(walk)]
fn if_<'a>(branches: &If, world: &World<'a>) -> Result<(), Breach>
    ensures { SaysNone (first (n.in_if (w.nodes_of_ty world.now.symbols.now (w.at world.now.facts.now)) branches.now)) result }
{
    exp(&branches.condition, world)?;
    block(&branches.then, world)?;
    otherwise(&branches.otherwise, world)
}

/// The types in what stands behind `else`, where anything does.
#[cycle(walk)]
fn otherwise<'a>(branch: &Option<Else>, world: &World<'a>) -> Result<(), Breach>
    ensures { SaysNone (first (n.maybe (option_map (n.in_else (w.nodes_of_ty world.now.symbols.now (w.at world.now.facts.now))) branch.now))) result }
{
    match branch {
        None => Ok(()),
        Some(Else::Chain(branches)) => if_(branches.get(), world),
        Some(Else::Last(last)) => block(last.get(), world),
    }
}

/// The types in an expression that may be missing.
#[cycle(walk)]
fn optional<'a>(exp: &Option<Boxed<Exp>>, world: &World<'a>) -> Result<(), Breach>
    ensures { SaysNone (first (n.maybe (option_map (n.in_exp (w.nodes_of_ty world.now.symbols.now (w.at world.now.facts.now))) exp.now))) result }
{
    match exp {
        None => Ok(()),
        Some(exp) => self::exp(exp.get(), world),
    }
}

/// The types in expressions.
#[cycle(walk)]
fn exps<'a>(exps: &Items<Exp>, world: &World<'a>) -> Result<(), Breach>
    ensures { SaysNone (first (n.row (map (n.in_exp (w.nodes_of_ty world.now.symbols.now (w.at world.now.facts.now))) exps.now))) result }
{
    for part in exps.as_slice() {
        exp(part, world)?;
    }
    Ok(())
}

/// The types in the arguments of a call.
#[cycle(walk)]
fn args<'a>(args: &Items<Arg>, world: &World<'a>) -> Result<(), Breach>
    ensures { SaysNone (first (n.row (map (n.in_arg (w.nodes_of_ty world.now.symbols.now (w.at world.now.facts.now))) args.now))) result }
{
    for given in args.as_slice() {
        arg(given, world)?;
    }
    Ok(())
}

/// The types in an argument.
#[cycle(walk)]
fn arg<'a>(arg: &Arg, world: &World<'a>) -> Result<(), Breach>
    ensures { SaysNone (first (n.in_arg (w.nodes_of_ty world.now.symbols.now (w.at world.now.facts.now)) arg.now)) result }
{
    match arg {
        Arg::Value(inner) | Arg::Shared(_, inner) => exp(inner, world),
        Arg::Lent(_, _) => Ok(()),
        Arg::List(_, list) => exps(list, world),
    }
}

/// The types in the arms of a `match`.
#[cycle(walk)]
fn arms<'a>(arms: &Items<Arm>, world: &World<'a>) -> Result<(), Breach>
    ensures { SaysNone (first (n.row (map (n.in_arm (w.nodes_of_ty world.now.symbols.now (w.at world.now.facts.now))) arms.now))) result }
{
    for arm in arms.as_slice() {
        exp(&arm.value, world)?;
    }
    Ok(())
}

/// The types in what stands behind an expression.
#[cycle(walk)]
fn behind<'a>(list: &Items<Postfix>, world: &World<'a>) -> Result<(), Breach>
    ensures { SaysNone (first (n.row (map (n.in_postfix (w.nodes_of_ty world.now.symbols.now (w.at world.now.facts.now))) list.now))) result }
{
    for next in list.as_slice() {
        postfix(next, world)?;
    }
    Ok(())
}

/// The types in a method's arguments or in a step.
#[cycle(walk)]
fn postfix<'a>(postfix: &Postfix, world: &World<'a>) -> Result<(), Breach>
    ensures { SaysNone (first (n.in_postfix (w.nodes_of_ty world.now.symbols.now (w.at world.now.facts.now)) postfix.now)) result }
{
    match postfix {
        Postfix::Try(_) => Ok(()),
        Postfix::Method(_, _, given) => args(given, world),
        Postfix::Step(inner) => step(inner, world),
    }
}

/// The types in a step.
#[cycle(walk)]
fn step<'a>(step: &Step, world: &World<'a>) -> Result<(), Breach>
    ensures { SaysNone (first (n.in_step (w.nodes_of_ty world.now.symbols.now (w.at world.now.facts.now)) step.now)) result }
{
    match step {
        Step::Index(_, inner) => exp(inner, world),
        Step::Part(_, _) => Ok(()),
    }
}

/// The types in the steps of an assigned place.
#[cycle(walk)]
fn steps<'a>(steps: &Items<Step>, world: &World<'a>) -> Result<(), Breach>
    ensures { SaysNone (first (n.row (map (n.in_step (w.nodes_of_ty world.now.symbols.now (w.at world.now.facts.now))) steps.now))) result }
{
    for next in steps.as_slice() {
        step(next, world)?;
    }
    Ok(())
}

/// The types in the operands behind the first.
#[cycle(walk)]
fn operands<'a>(operands: &Items<Operand>, world: &World<'a>) -> Result<(), Breach>
    ensures { SaysNone (first (n.row (map (n.in_operand (w.nodes_of_ty world.now.symbols.now (w.at world.now.facts.now))) operands.now))) result }
{
    for operand in operands.as_slice() {
        exp(&operand.right, world)?;
    }
    Ok(())
}

/// The types in a block.
#[cycle(walk)]
pub fn block<'a>(block: &Block, world: &World<'a>) -> Result<(), Breach>
    ensures { SaysNone (first (n.in_block (w.nodes_of_ty world.now.symbols.now (w.at world.now.facts.now)) block.now)) result }
{
    stmts(&block.statements, world)?;
    optional(&block.tail, world)
}

/// The types in statements.
#[cycle(walk)]
fn stmts<'a>(stmts: &Items<Stmt>, world: &World<'a>) -> Result<(), Breach>
    ensures { SaysNone (first (n.row (map (n.in_stmt (w.nodes_of_ty world.now.symbols.now (w.at world.now.facts.now))) stmts.now))) result }
{
    for next in stmts.as_slice() {
        stmt(next, world)?;
    }
    Ok(())
}

/// The types in a statement.
#[cycle(walk)]
fn stmt<'a>(stmt: &Stmt, world: &World<'a>) -> Result<(), Breach>
    ensures { SaysNone (first (n.in_stmt (w.nodes_of_ty world.now.symbols.now (w.at world.now.facts.now)) stmt.now)) result }
{
    match stmt {
        Stmt::Let(_, _, ty, value) => {
            world.check_optional(ty)?;
            exp(value, world)
        }
        Stmt::Assign(_, _, place, _, value) => {
            steps(place, world)?;
            exp(value, world)
        }
        Stmt::For(_, _, low, high, body) => {
            exp(low, world)?;
            exp(high, world)?;
            block(body, world)
        }
        Stmt::Return(_, None) => Ok(()),
        Stmt::Return(_, Some(value)) | Stmt::Bare(value) | Stmt::Exp(_, value) => {
            exp(value, world)
        }
    }
}
