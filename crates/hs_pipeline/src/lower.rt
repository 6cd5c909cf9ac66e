//! The module of a program in which nothing is assigned.

ghost use Rattle.std.specs.Prelude.{◌≡◌, ◌<◌, ◌^◌, List, map, length, IfOk};
ghost use Rattle.std.specs.List.{AllByRecursion};
ghost use Rattle.hs_first_tree.specs.Of.{exps_of, exp_of, rhs_of, stmts_of, stmt_of, block_of, param_of, function_of, program_of};
ghost use Rattle.hs_first_em.specs.Of.{type_of, var_of, ems_of, em_of, par_of, def_of, module_of};
ghost use Rattle.hs_pipeline.specs.Counted.{Numbered};
ghost use Rattle.hs_pipeline.specs.Lower.{lowered_var, lowered_exp, lowered_exps, lowered_rhs, lowered_stmt, lowered_stmts, lowered_block, lowered_param, lowered_function, lowered};

use hs_base::memory::NoMemory;
use hs_base::name::Name;
use hs_first_em::module::{Em, EmDef, EmPar, EmTy, EmVar, Module};
use hs_first_tree::features::NoAssign;
use hs_first_tree::node::{Block, Exp, Rhs, Stmt};
use hs_first_tree::program::{Function, Parameter, Program, ValType};
use sqlite_items::{Boxed, Items};
use std::alloc::Global;

// A local: the name that its function's list gives it, and its number.
fn lower_var(alloc: Global, names: &[Name], local: usize) -> Result<EmVar, NoMemory>
    ensures { IfOk result (λ made. var_of made ≡ lowered_var names.now local) }
{
    let name = match names.get(local) {
        Some(name) => name.copy(alloc)?,
        None => Name::of(alloc, "")?,
    };
    Ok(EmVar {
        name,
        number: local,
    })
}

// An expression.
#[tactic(auto, using(crate::proofs::OneByOne::operands_lowered))]
#[cycle(expression)]
fn lower_exp(alloc: Global, exp: &Exp<NoAssign>, names: &[Name]) -> Result<Em, NoMemory>
    ensures { IfOk result (λ made. em_of made ≡ lowered_exp names.now (exp_of exp.now)) }
{
    match exp {
        Exp::Var(local) => Ok(Em::Var(lower_var(alloc, names, *local)?)),
        Exp::Lit(number) => Ok(Em::Lit(*number)),
        Exp::Op(name, operands) => {
            let name = name.copy(alloc)?;
            let operands = lower_operands(alloc, operands, names)?;
            Ok(Em::Op(name, operands))
        }
        Exp::In(_, none, _) => match *none {},
    }
}

// Operands.
#[cycle(expression)]
fn lower_operands(
    alloc: Global,
    operands: &Items<Exp<NoAssign>>,
    names: &[Name],
) -> Result<Items<Em>, NoMemory>
    ensures { IfOk result (λ made. map em_of made ≡ map (lowered_exp names.now) (map exp_of operands.now)) }
{
    let mut made = Items::new(alloc);
    for operand in operands.as_slice() {
        made.push(lower_exp(alloc, operand, names)?)?;
    }
    Ok(made)
}

// A right side.
fn lower_rhs(alloc: Global, rhs: &Rhs<NoAssign>, names: &[Name]) -> Result<Em, NoMemory>
    ensures { IfOk result (λ made. em_of made ≡ lowered_rhs names.now (rhs_of rhs.now)) }
{
    match rhs {
        Rhs::Exp(exp) => lower_exp(alloc, exp, names),
    }
}

// A statement, and what follows it.
fn lower_stmt(
    alloc: Global,
    stmt: &Stmt<NoAssign>,
    names: &[Name],
    body: Em,
) -> Result<Em, NoMemory>
    ensures { IfOk result (λ made. em_of made ≡ lowered_stmt names.now (stmt_of stmt.now) (em_of body)) }
{
    match stmt {
        Stmt::Let(local, rhs) => {
            let local = lower_var(alloc, names, *local)?;
            let bound = lower_rhs(alloc, rhs, names)?;
            Ok(Em::Let(local, Boxed::new(alloc, bound)?, Boxed::new(alloc, body)?))
        }
        Stmt::Set(off, _, _) => match *off {},
    }
}

// A block: from its value, a binding for each statement, the last first.
#[tactic(auto, using(crate::proofs::OneByOne::lowered_last))]
fn lower_block(alloc: Global, block: &Block<NoAssign>, names: &[Name]) -> Result<Em, NoMemory>
    ensures { IfOk result (λ made. em_of made ≡ lowered_block names.now (block_of block.now)) }
{
    let mut made = lower_rhs(alloc, &block.tail, names)?;
    let mut left = block.statements.as_slice();
    while let Some((last, front)) = left.split_last() {
        made = lower_stmt(alloc, last, names, made)?;
        left = front;
    }
    Ok(made)
}

// A type.
fn lower_type(ty: ValType) -> EmTy
    ensures { type_of result ≡ Rattle.hs_first_tree.specs.Of.type_of ty }
{
    match ty {
        ValType::U32 => EmTy::U32,
    }
}

// A parameter.
fn lower_parameter(alloc: Global, parameter: &Parameter, names: &[Name]) -> Result<EmPar, NoMemory>
    ensures { IfOk result (λ made. par_of made ≡ lowered_param names.now (param_of parameter.now)) }
{
    Ok(EmPar {
        local: lower_var(alloc, names, parameter.local)?,
        ty: lower_type(parameter.ty),
    })
}

// Parameters.
fn lower_parameters(
    alloc: Global,
    parameters: &[Parameter],
    names: &[Name],
) -> Result<Items<EmPar>, NoMemory>
    ensures { IfOk result (λ made. map par_of made ≡ map (lowered_param names.now) (map param_of parameters.now)) }
{
    let mut made = Items::new(alloc);
    for parameter in parameters {
        made.push(lower_parameter(alloc, parameter, names)?)?;
    }
    Ok(made)
}

// A function.
fn lower_function(alloc: Global, function: &Function<NoAssign>) -> Result<EmDef, NoMemory>
    ensures { IfOk result (λ made. def_of made ≡ lowered_function (function_of function.now)) }
{
    let names = function.body.locals.as_slice();
    Ok(EmDef {
        name: function.name.copy(alloc)?,
        params: lower_parameters(alloc, function.parameters.as_slice(), names)?,
        result: lower_type(function.result),
        body: lower_block(alloc, &function.body.block, names)?,
    })
}

/// Nothing is done: a local's number is a usize.
pub(crate) fn locals_are_numbered(program: &Program<NoAssign>)
    ensures { AllByRecursion Numbered (program_of program.now) }
{
    for function in program.functions.as_slice() {
        let _count = function.body.locals.len();
    }
}

/// The module of this name: a definition for each function, in order. `NoMemory` comes only for want
/// of memory.
pub(crate) fn lower(
    alloc: Global,
    program: &Program<NoAssign>,
    name: &str,
) -> Result<Module, NoMemory>
    ensures { IfOk result (λ made. module_of made ≡ lowered name.now (program_of program.now)) }
{
    let mut defs = Items::new(alloc);
    for function in program.functions.as_slice() {
        defs.push(lower_function(alloc, function)?)?;
    }
    Ok(Module {
        name: Name::of(alloc, name)?,
        defs,
    })
}
