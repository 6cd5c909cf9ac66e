//! Copies of trees: a copy equals what it copies.

ghost use Rattle.std.specs.Prelude.{◌≡◌, IfOk};

use crate::features::Features;
use crate::node::{Block, Exp, Rhs, Stmt};
use crate::program::{Body, Function, Parameter, Program};
use hs_base::memory::NoMemory;
use hs_base::name::Name;
use sqlite_items::Items;
use std::alloc::Global;

#[cycle(copy)]
fn copy_exp<F: Features>(alloc: Global, exp: &Exp<F>) -> Result<Exp<F>, NoMemory>
    ensures { IfOk result (λ copy. copy ≡ exp.now) }
{
    match exp {
        Exp::Var(local) => Ok(Exp::Var(*local)),
        Exp::Lit(number) => Ok(Exp::Lit(*number)),
        Exp::Op(name, operands) => Ok(Exp::Op(name.copy(alloc)?, copy_exps(alloc, operands)?)),
        Exp::In(_, none, _) => match *none {},
    }
}

#[cycle(copy)]
fn copy_exps<F: Features>(alloc: Global, exps: &Items<Exp<F>>) -> Result<Items<Exp<F>>, NoMemory>
    ensures { IfOk result (λ copy. copy ≡ exps.now) }
{
    let mut copies = Items::new(alloc);
    for exp in exps.as_slice() {
        copies.push(copy_exp(alloc, exp)?)?;
    }
    Ok(copies)
}

fn copy_rhs<F: Features>(alloc: Global, rhs: &Rhs<F>) -> Result<Rhs<F>, NoMemory>
    ensures { IfOk result (λ copy. copy ≡ rhs.now) }
{
    match rhs {
        Rhs::Exp(exp) => Ok(Rhs::Exp(copy_exp(alloc, exp)?)),
    }
}

fn copy_stmt<F: Features>(alloc: Global, stmt: &Stmt<F>) -> Result<Stmt<F>, NoMemory>
    ensures { IfOk result (λ copy. copy ≡ stmt.now) }
{
    match stmt {
        Stmt::Let(local, rhs) => Ok(Stmt::Let(*local, copy_rhs(alloc, rhs)?)),
        Stmt::Set(mark, local, rhs) => Ok(Stmt::Set(*mark, *local, copy_rhs(alloc, rhs)?)),
    }
}

fn copy_stmts<F: Features>(
    alloc: Global,
    stmts: &Items<Stmt<F>>,
) -> Result<Items<Stmt<F>>, NoMemory>
    ensures { IfOk result (λ copy. copy ≡ stmts.now) }
{
    let mut copies = Items::new(alloc);
    for stmt in stmts.as_slice() {
        copies.push(copy_stmt(alloc, stmt)?)?;
    }
    Ok(copies)
}

fn copy_block<F: Features>(alloc: Global, block: &Block<F>) -> Result<Block<F>, NoMemory>
    ensures { IfOk result (λ copy. copy ≡ block.now) }
{
    Ok(Block {
        statements: copy_stmts(alloc, &block.statements)?,
        tail: copy_rhs(alloc, &block.tail)?,
    })
}

/// Another list of the same names. `NoMemory` comes only for want of memory.
pub fn copy_names(alloc: Global, names: &Items<Name>) -> Result<Items<Name>, NoMemory>
    ensures { IfOk result (λ copy. copy ≡ names.now) }
{
    let mut copies = Items::new(alloc);
    for name in names.as_slice() {
        copies.push(name.copy(alloc)?)?;
    }
    Ok(copies)
}

/// Another list of the same parameters. `NoMemory` comes only for want of memory.
pub fn copy_parameters(
    alloc: Global,
    parameters: &Items<Parameter>,
) -> Result<Items<Parameter>, NoMemory>
    ensures { IfOk result (λ copy. copy ≡ parameters.now) }
{
    Items::from_slice(alloc, parameters.as_slice())
}

fn copy_function<F: Features>(
    alloc: Global,
    function: &Function<F>,
) -> Result<Function<F>, NoMemory>
    ensures { IfOk result (λ copy. copy ≡ function.now) }
{
    Ok(Function {
        name: function.name.copy(alloc)?,
        parameters: copy_parameters(alloc, &function.parameters)?,
        result: function.result,
        body: Body {
            locals: copy_names(alloc, &function.body.locals)?,
            block: copy_block(alloc, &function.body.block)?,
        },
    })
}

impl<F: Features> Program<F> {
    /// Another program that is equal. `NoMemory` comes only for want of memory.
    pub fn copy(&self, alloc: Global) -> Result<Program<F>, NoMemory>
        ensures { IfOk result (λ copy. copy ≡ self.now) }
    {
        let mut functions = Items::new(alloc);
        for function in self.functions.as_slice() {
            functions.push(copy_function(alloc, function)?)?;
        }
        Ok(Program { functions })
    }
}
