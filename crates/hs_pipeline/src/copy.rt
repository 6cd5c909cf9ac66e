//! The nodes of a source's program as those of a program without exits: this language has no exit.

ghost use Rattle.std.specs.Prelude.{◌≡◌, map, IfOk};
ghost use Rattle.hs_first_tree.specs.Of.{exp_of, rhs_of, stmt_of, block_of, function_of, program_of};

use hs_base::memory::NoMemory;
use hs_first_tree::copy::{copy_names, copy_parameters};
use hs_first_tree::features::{NoExit, On, Src};
use hs_first_tree::node::{Block, Exp, Rhs, Stmt};
use hs_first_tree::program::{Body, Function, Program};
use sqlite_items::Items;
use std::alloc::Global;

#[cycle(copy)]
fn copy_exp(alloc: Global, exp: &Exp<Src>) -> Result<Exp<NoExit>, NoMemory>
    ensures { IfOk result (λ made. exp_of made ≡ exp_of exp.now) }
{
    match exp {
        Exp::Var(local) => Ok(Exp::Var(*local)),
        Exp::Lit(number) => Ok(Exp::Lit(*number)),
        Exp::Op(name, operands) => Ok(Exp::Op(name.copy(alloc)?, copy_exps(alloc, operands)?)),
        Exp::In(_, none, _) => match *none {},
    }
}

#[cycle(copy)]
fn copy_exps(alloc: Global, exps: &Items<Exp<Src>>) -> Result<Items<Exp<NoExit>>, NoMemory>
    ensures { IfOk result (λ made. map exp_of made ≡ map exp_of exps.now) }
{
    let mut made = Items::new(alloc);
    for exp in exps.as_slice() {
        made.push(copy_exp(alloc, exp)?)?;
    }
    Ok(made)
}

fn copy_rhs(alloc: Global, rhs: &Rhs<Src>) -> Result<Rhs<NoExit>, NoMemory>
    ensures { IfOk result (λ made. rhs_of made ≡ rhs_of rhs.now) }
{
    match rhs {
        Rhs::Exp(exp) => Ok(Rhs::Exp(copy_exp(alloc, exp)?)),
    }
}

fn copy_stmt(alloc: Global, stmt: &Stmt<Src>) -> Result<Stmt<NoExit>, NoMemory>
    ensures { IfOk result (λ made. stmt_of made ≡ stmt_of stmt.now) }
{
    match stmt {
        Stmt::Let(local, rhs) => Ok(Stmt::Let(*local, copy_rhs(alloc, rhs)?)),
        Stmt::Set(_, local, rhs) => Ok(Stmt::Set(On::Here, *local, copy_rhs(alloc, rhs)?)),
    }
}

fn copy_stmts(alloc: Global, stmts: &Items<Stmt<Src>>) -> Result<Items<Stmt<NoExit>>, NoMemory>
    ensures { IfOk result (λ made. map stmt_of made ≡ map stmt_of stmts.now) }
{
    let mut made = Items::new(alloc);
    for stmt in stmts.as_slice() {
        made.push(copy_stmt(alloc, stmt)?)?;
    }
    Ok(made)
}

fn copy_block(alloc: Global, block: &Block<Src>) -> Result<Block<NoExit>, NoMemory>
    ensures { IfOk result (λ made. block_of made ≡ block_of block.now) }
{
    Ok(Block {
        statements: copy_stmts(alloc, &block.statements)?,
        tail: copy_rhs(alloc, &block.tail)?,
    })
}

fn copy_function(alloc: Global, function: &Function<Src>) -> Result<Function<NoExit>, NoMemory>
    ensures { IfOk result (λ made. function_of made ≡ function_of function.now) }
{
    Ok(Function {
        name: function.name.copy(alloc)?,
        parameters: copy_parameters(alloc, &function.parameters)?,
        result: function.result,
        body: Body {
            locals: copy_names(alloc, &function.body.locals)?,
            block: copy_block(alloc, &function.body.block)?,
        },
    })
}

/// A program with the same nodes. `NoMemory` comes only for want of memory.
pub(crate) fn without_exits(
    alloc: Global,
    program: &Program<Src>,
) -> Result<Program<NoExit>, NoMemory>
    ensures { IfOk result (λ made. program_of made ≡ program_of program.now) }
{
    let mut functions = Items::new(alloc);
    for function in program.functions.as_slice() {
        functions.push(copy_function(alloc, function)?)?;
    }
    Ok(Program { functions })
}
