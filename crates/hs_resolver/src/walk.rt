//! Expressions, statements and blocks.
//!
//! The calls recurse as deep as brackets, prefixes and blocks nest in the text; what groups to the left is walked in a loop.
//! Behind each, the names in scope are those that were before it; only statements bind names that stay until their block ends.

ghost use Rattle.std.specs.Prelude.{◌≡◌, map, option_map, length, OnOk};
ghost use Rattle.hs_resolver.specs.Names as n;
ghost use Rattle.hs_resolver.specs.Parts as p;
ghost use Rattle.hs_resolver.specs.Parts.{◌&◌};
ghost use Rattle.hs_resolver.specs.Walks.{Saw, Walks};

use crate::flat::{arm_pat, bind, bind_arm, called_path, let_pat, optional_ty, value_path};
use crate::known::Known;
use crate::world::World;
use hs_base::memory::NoMemory;
use hs_marks::Halt;
use hs_scope::Scope;
use hs_symbols::Referent;
use hs_syntax::{
    Arg, Arm, Block, Else, Exp, If, Operand, Pat, Postfix, Span, Step, Stmt, Ty, Variable,
};
use sqlite_items::{Boxed, Items};

/// The place of a loop's variable.
fn variable<'a>(variable: Variable, world: &World<'a>, known: &mut Known) -> Result<(), Halt>
    ensures { Walks (n.variable_place world.now.paths.now world.now.in_function variable) known.old known.new result }
{
    match variable {
        Variable::Name(name) => {
            let number = known.places.len();
            known.used(name, Referent::Local(number))?;
            world.place(name, known)
        }
        Variable::Any(span) => world.place(span, known),
    }
}

/// Binds the variable of a loop, if it has a name.
fn bind_variable<'a>(
    variable: Variable,
    number: usize,
    world: &World<'a>,
    scope: &mut Scope<'a>,
) -> Result<(), NoMemory>
    ensures { OnOk result (scope.new ≡ n.with_variable world.now.paths.now world.now.in_function variable number scope.old) }
{
    match variable {
        Variable::Name(name) => scope.bind(world.spelled(name), number),
        Variable::Any(_) => Ok(()),
    }
}

/// The names behind `as`.
fn casts<'a>(names: &Items<Span>, world: &World<'a>, known: &mut Known) -> Result<(), Halt>
    ensures { Walks (p.all (map (n.alone world.now.paths.now) names.now)) known.old known.new result }
{
    for name in names.as_slice() {
        world.type_name(*name, 0, known)?;
    }
    Ok(())
}

/// The names in an expression.
#[cycle(walk)]
pub fn exp<'a>(
    exp: &Exp,
    scope: &mut Scope<'a>,
    world: &World<'a>,
    known: &mut Known,
) -> Result<(), Halt>
    ensures walks { Walks (n.names_of_exp world.now.paths.now world.now.in_function exp.now scope.old) known.old known.new result }
    ensures scope { OnOk result (scope.new ≡ scope.old) }
{
    match exp {
        Exp::Int(_) | Exp::Bool(_, _) | Exp::Unit(_) => Ok(()),
        Exp::Group(_, inner) => self::exp(inner.get(), scope, world, known),
        Exp::Tuple(_, parts) => exps(parts, scope, world, known),
        Exp::Path(path) => value_path(path, scope, world, known),
        Exp::Call(_, path, given) => {
            called_path(path, world, known)?;
            arguments(given, scope, world, known)
        }
        Exp::Block(inner) => block(inner.get(), scope, world, known),
        Exp::If(branches) => if_(branches.get(), scope, world, known),
        Exp::Match(_, scrutinee, list) => {
            self::exp(scrutinee.get(), scope, world, known)?;
            arms(list, scope, world, known)
        }
        Exp::Post(span, first, list) => {
            self::exp(first.get(), scope, world, known)?;
            steps(list, span.start, scope, world, known)
        }
        Exp::Prefix(_, _, inner) => self::exp(inner.get(), scope, world, known),
        Exp::Cast(_, inner, names) => {
            self::exp(inner.get(), scope, world, known)?;
            casts(names, world, known)
        }
        Exp::Binary(_, first, list) => {
            self::exp(first.get(), scope, world, known)?;
            operands(list, scope, world, known)
        }
    }
}

/// The names in an `if`.
#[cycle(walk)]
fn if_<'a>(
    branches: &If,
    scope: &mut Scope<'a>,
    world: &World<'a>,
    known: &mut Known,
) -> Result<(), Halt>
    ensures walks { Walks (n.names_of_if world.now.paths.now world.now.in_function branches.now scope.old) known.old known.new result }
    ensures scope { OnOk result (scope.new ≡ scope.old) }
{
    exp(&branches.condition, scope, world, known)?;
    block(&branches.then, scope, world, known)?;
    otherwise(&branches.otherwise, scope, world, known)
}

/// The names behind `else`, where it stands.
#[cycle(walk)]
fn otherwise<'a>(
    otherwise: &Option<Else>,
    scope: &mut Scope<'a>,
    world: &World<'a>,
    known: &mut Known,
) -> Result<(), Halt>
    ensures walks { Walks (p.if_any (option_map (n.names_of_else world.now.paths.now world.now.in_function) otherwise.now) scope.old) known.old known.new result }
    ensures scope { OnOk result (scope.new ≡ scope.old) }
{
    match otherwise {
        None => Ok(()),
        Some(branch) => else_(branch, scope, world, known),
    }
}

/// The names in what stands behind `else`.
#[cycle(walk)]
fn else_<'a>(
    branch: &Else,
    scope: &mut Scope<'a>,
    world: &World<'a>,
    known: &mut Known,
) -> Result<(), Halt>
    ensures walks { Walks (n.names_of_else world.now.paths.now world.now.in_function branch.now scope.old) known.old known.new result }
    ensures scope { OnOk result (scope.new ≡ scope.old) }
{
    match branch {
        Else::Chain(branches) => if_(branches.get(), scope, world, known),
        Else::Last(last) => block(last.get(), scope, world, known),
    }
}

/// The names in an expression that may be missing.
#[cycle(walk)]
fn optional<'a>(
    exp: &Option<Boxed<Exp>>,
    scope: &mut Scope<'a>,
    world: &World<'a>,
    known: &mut Known,
) -> Result<(), Halt>
    ensures walks { Walks (p.if_any (option_map (n.names_of_exp world.now.paths.now world.now.in_function) exp.now) scope.old) known.old known.new result }
    ensures scope { OnOk result (scope.new ≡ scope.old) }
{
    match exp {
        None => Ok(()),
        Some(exp) => self::exp(exp.get(), scope, world, known),
    }
}

/// The names in expressions.
#[cycle(walk)]
fn exps<'a>(
    exps: &Items<Exp>,
    scope: &mut Scope<'a>,
    world: &World<'a>,
    known: &mut Known,
) -> Result<(), Halt>
    ensures walks { Walks (p.every (map (n.names_of_exp world.now.paths.now world.now.in_function) exps.now) scope.old) known.old known.new result }
    ensures scope { OnOk result (scope.new ≡ scope.old) }
{
    for part in exps.as_slice() {
        exp(part, scope, world, known)?;
    }
    Ok(())
}

/// The names in the arguments of a call.
#[cycle(walk)]
fn arguments<'a>(
    arguments: &Items<Arg>,
    scope: &mut Scope<'a>,
    world: &World<'a>,
    known: &mut Known,
) -> Result<(), Halt>
    ensures walks { Walks (p.every (map (n.names_of_arg world.now.paths.now world.now.in_function) arguments.now) scope.old) known.old known.new result }
    ensures scope { OnOk result (scope.new ≡ scope.old) }
{
    for given in arguments.as_slice() {
        argument(given, scope, world, known)?;
    }
    Ok(())
}

/// The names in an argument.
#[cycle(walk)]
fn argument<'a>(
    argument: &Arg,
    scope: &mut Scope<'a>,
    world: &World<'a>,
    known: &mut Known,
) -> Result<(), Halt>
    ensures walks { Walks (n.names_of_arg world.now.paths.now world.now.in_function argument.now scope.old) known.old known.new result }
    ensures scope { OnOk result (scope.new ≡ scope.old) }
{
    match argument {
        Arg::Value(inner) => exp(inner, scope, world, known),
        Arg::Shared(_, inner) => exp(inner, scope, world, known),
        Arg::Lent(_, name) => world.assigned(*name, scope, known),
        Arg::List(_, list) => exps(list, scope, world, known),
    }
}

/// The names in the operands behind the first.
#[cycle(walk)]
fn operands<'a>(
    operands: &Items<Operand>,
    scope: &mut Scope<'a>,
    world: &World<'a>,
    known: &mut Known,
) -> Result<(), Halt>
    ensures walks { Walks (p.every (map (n.names_of_operand world.now.paths.now world.now.in_function) operands.now) scope.old) known.old known.new result }
    ensures scope { OnOk result (scope.new ≡ scope.old) }
{
    for operand in operands.as_slice() {
        exp(&operand.right, scope, world, known)?;
    }
    Ok(())
}

/// The names in what stands behind an expression that begins at this byte.
#[cycle(walk)]
fn steps<'a>(
    steps: &Items<Postfix>,
    start: u32,
    scope: &mut Scope<'a>,
    world: &World<'a>,
    known: &mut Known,
) -> Result<(), Halt>
    ensures walks { Saw (n.steps world.now.paths.now world.now.in_function start (map (n.names_of_postfix world.now.paths.now world.now.in_function) steps.now) scope.old (p.nothing known.old)) known.new result }
    ensures scope { OnOk result (scope.new ≡ scope.old) }
{
    for one in steps.as_slice() {
        behind(one, start, scope, world, known)?;
    }
    Ok(())
}

/// The names in what stands next behind an expression that begins at this byte. A `?` is an exit.
#[cycle(walk)]
fn behind<'a>(
    behind: &Postfix,
    start: u32,
    scope: &mut Scope<'a>,
    world: &World<'a>,
    known: &mut Known,
) -> Result<(), Halt>
    ensures walks { Saw (n.with_behind world.now.paths.now world.now.in_function start (n.names_of_postfix world.now.paths.now world.now.in_function behind.now) scope.old (p.nothing known.old)) known.new result }
    ensures scope { OnOk result (scope.new ≡ scope.old) }
{
    match behind {
        Postfix::Try(span) => {
            let whole = Span {
                start,
                end: span.end,
            };
            world.exit(whole, known)
        }
        Postfix::Method(_, _, given) => arguments(given, scope, world, known),
        Postfix::Step(inner) => step(inner, scope, world, known),
    }
}

/// The names in the steps of an assigned place.
#[cycle(walk)]
fn place_steps<'a>(
    steps: &Items<Step>,
    scope: &mut Scope<'a>,
    world: &World<'a>,
    known: &mut Known,
) -> Result<(), Halt>
    ensures walks { Walks (p.every (map (n.names_of_step world.now.paths.now world.now.in_function) steps.now) scope.old) known.old known.new result }
    ensures scope { OnOk result (scope.new ≡ scope.old) }
{
    for one in steps.as_slice() {
        step(one, scope, world, known)?;
    }
    Ok(())
}

/// The names in a step.
#[cycle(walk)]
fn step<'a>(
    step: &Step,
    scope: &mut Scope<'a>,
    world: &World<'a>,
    known: &mut Known,
) -> Result<(), Halt>
    ensures walks { Walks (n.names_of_step world.now.paths.now world.now.in_function step.now scope.old) known.old known.new result }
    ensures scope { OnOk result (scope.new ≡ scope.old) }
{
    match step {
        Step::Index(_, inner) => exp(inner, scope, world, known),
        Step::Part(_, _) => Ok(()),
    }
}

/// The names in the arms of a `match`.
#[cycle(walk)]
fn arms<'a>(
    arms: &Items<Arm>,
    scope: &mut Scope<'a>,
    world: &World<'a>,
    known: &mut Known,
) -> Result<(), Halt>
    ensures walks { Walks (p.every (map (n.names_of_arm world.now.paths.now world.now.in_function) arms.now) scope.old) known.old known.new result }
    ensures scope { OnOk result (scope.new ≡ scope.old) }
{
    for one in arms.as_slice() {
        arm(one, scope, world, known)?;
    }
    Ok(())
}

/// The names in an arm.
#[tactic(auto, using(crate::proofs::Binds::bound_oldest))]
#[cycle(walk)]
fn arm<'a>(
    arm: &Arm,
    scope: &mut Scope<'a>,
    world: &World<'a>,
    known: &mut Known,
) -> Result<(), Halt>
    ensures walks { Walks (n.names_of_arm world.now.paths.now world.now.in_function arm.now scope.old) known.old known.new result }
    ensures scope { OnOk result (scope.new ≡ scope.old) }
{
    let kept = scope.len();
    let number = known.places.len();
    let behind = arm_pat(&arm.pattern, world, known)?;
    let next = bind_arm(&arm.pattern, number, world, scope)?;
    prove!(next == behind);
    exp(&arm.value, scope, world, known)?;
    scope.leave(kept);
    Ok(())
}

/// The names in a block.
#[cycle(walk)]
pub fn block<'a>(
    block: &Block,
    scope: &mut Scope<'a>,
    world: &World<'a>,
    known: &mut Known,
) -> Result<(), Halt>
    ensures walks { Walks (n.names_of_block world.now.paths.now world.now.in_function block.now scope.old) known.old known.new result }
    ensures scope { OnOk result (scope.new ≡ scope.old) }
{
    let kept = scope.len();
    stmts(&block.statements, scope, world, known)?;
    optional(&block.tail, scope, world, known)?;
    scope.leave(kept);
    Ok(())
}

/// The names in the statements of a block, whose names stay in scope.
#[cycle(walk)]
fn stmts<'a>(
    stmts: &Items<Stmt>,
    scope: &mut Scope<'a>,
    world: &World<'a>,
    known: &mut Known,
) -> Result<(), Halt>
    ensures walks { Walks (p.in_order (map (n.names_of_stmt world.now.paths.now world.now.in_function) stmts.now) scope.old) known.old known.new result }
    ensures scope { OnOk result (scope.new ≡ p.scope_behind (map (n.names_of_stmt world.now.paths.now world.now.in_function) stmts.now) scope.old known.old) }
{
    for one in stmts.as_slice() {
        stmt(one, scope, world, known)?;
    }
    Ok(())
}

/// The names in a statement, whose names stay in scope.
#[cycle(walk)]
fn stmt<'a>(
    stmt: &Stmt,
    scope: &mut Scope<'a>,
    world: &World<'a>,
    known: &mut Known,
) -> Result<(), Halt>
    ensures walks { Walks ((n.names_of_stmt world.now.paths.now world.now.in_function stmt.now).part scope.old) known.old known.new result }
    ensures scope { OnOk result (scope.new ≡ (n.names_of_stmt world.now.paths.now world.now.in_function stmt.now).after scope.old known.old) }
{
    match stmt {
        Stmt::Let(_, pattern, type_, value) => { let_(value, pattern, type_, scope, world, known) }
        Stmt::Assign(_, target, place, _, value) => {
            world.assigned(target.name, scope, known)?;
            place_steps(place, scope, world, known)?;
            exp(value, scope, world, known)
        }
        Stmt::For(_, name, low, high, body) => {
            let number = known.places.len();
            variable(*name, world, known)?;
            exp(low, scope, world, known)?;
            exp(high, scope, world, known)?;
            for_body(body, *name, number, scope, world, known)
        }
        Stmt::Return(span, value) => return_(value, *span, scope, world, known),
        Stmt::Bare(value) => exp(value, scope, world, known),
        Stmt::Exp(_, value) => exp(value, scope, world, known),
    }
}

/// The names in a `let`, whose value does not know those that its pattern binds.
#[cycle(walk)]
fn let_<'a>(
    value: &Exp,
    pattern: &Pat,
    type_: &Option<Ty>,
    scope: &mut Scope<'a>,
    world: &World<'a>,
    known: &mut Known,
) -> Result<(), Halt>
    ensures walks { Walks (λ k. (n.names_of_pat world.now.paths.now world.now.in_function pattern.now (length k.places) & n.optional_ty world.now.paths.now type_.now & n.names_of_exp world.now.paths.now world.now.in_function value.now scope.old) k) known.old known.new result }
    ensures scope { OnOk result (scope.new ≡ p.bound world.now.paths.now.text (n.binds pattern.now) (length known.old.places) scope.old) }
{
    let number = known.places.len();
    let behind = let_pat(pattern, world, known)?;
    optional_ty(type_, world, known)?;
    exp(value, scope, world, known)?;
    let next = bind(pattern, number, world, scope)?;
    prove!(next == behind);
    Ok(())
}

/// The names in the value of a `return`, which is an exit.
#[tactic(auto, using(crate::proofs::Steps::own_some))]
#[cycle(walk)]
fn return_<'a>(
    value: &Option<Exp>,
    span: Span,
    scope: &mut Scope<'a>,
    world: &World<'a>,
    known: &mut Known,
) -> Result<(), Halt>
    ensures walks { Saw (p.exit_around world.now.in_function span (p.if_any (option_map (n.names_of_exp world.now.paths.now world.now.in_function) value.now) scope.old known.old)) known.new result }
    ensures scope { OnOk result (scope.new ≡ scope.old) }
{
    match value {
        None => world.exit(span, known),
        Some(value) => {
            exp(value, scope, world, known)?;
            world.exit(span, known)
        }
    }
}

/// The names in the body of a loop, where its variable is in scope.
#[tactic(auto, using(crate::proofs::Binds::variable_oldest))]
#[cycle(walk)]
fn for_body<'a>(
    body: &Block,
    name: Variable,
    number: usize,
    scope: &mut Scope<'a>,
    world: &World<'a>,
    known: &mut Known,
) -> Result<(), Halt>
    ensures walks { Walks (n.names_of_block world.now.paths.now world.now.in_function body.now (n.with_variable world.now.paths.now world.now.in_function name number scope.old)) known.old known.new result }
    ensures scope { OnOk result (scope.new ≡ scope.old) }
{
    let kept = scope.len();
    bind_variable(name, number, world, scope)?;
    block(body, scope, world, known)?;
    scope.leave(kept);
    Ok(())
}
