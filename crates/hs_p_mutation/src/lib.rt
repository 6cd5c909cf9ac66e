//! The phase that makes programs without assignments.
#![tactic(auto)]

ghost use Rattle.std.specs.Prelude.{◌≡◌, ℕ, List, map, IfOk};
ghost use Rattle.hs_first_tree.specs.Of.{exp_of, rhs_of, stmt_of, block_of, function_of, program_of};
ghost use Rattle.hs_first_tree.specs.Features.{Assign, no_exit, no_assign};
ghost use Rattle.hs_first_tree.specs.Count.{uses, loops, calls};
ghost use Rattle.hs_first_tree.specs.Sound.{Sound};
ghost use Rattle.hs_first_tree.specs.Call.{SameResults, header_of};
ghost use Rattle.hs_p_mutation.specs.Without.{stmt_without, block_without, function_without, program_without};

use hs_base::memory::NoMemory;
use hs_first_tree::copy::{copy_names, copy_parameters};
use hs_first_tree::features::{NoAssign, NoExit};
use hs_first_tree::law::{absent_features_are_unused, calls_are_computed};
use hs_first_tree::node::{Block, Exp, Rhs, Stmt};
use hs_first_tree::program::{Body, Function, Program};
use sqlite_items::Items;
use std::alloc::Global;

#[cycle(phase)]
fn convert_exp(alloc: Global, exp: &Exp<NoExit>) -> Result<Exp<NoAssign>, NoMemory>
    ensures { IfOk result (λ made. exp_of made ≡ exp_of exp.now) }
{
    match exp {
        Exp::Var(local) => Ok(Exp::Var(*local)),
        Exp::Lit(number) => Ok(Exp::Lit(*number)),
        Exp::Op(name, operands) => Ok(Exp::Op(name.copy(alloc)?, convert_exps(alloc, operands)?)),
        Exp::In(off, _, _) => match *off {},
    }
}

#[cycle(phase)]
fn convert_exps(alloc: Global, exps: &Items<Exp<NoExit>>) -> Result<Items<Exp<NoAssign>>, NoMemory>
    ensures { IfOk result (λ made. map exp_of made ≡ map exp_of exps.now) }
{
    let mut made = Items::new(alloc);
    for exp in exps.as_slice() {
        made.push(convert_exp(alloc, exp)?)?;
    }
    Ok(made)
}

fn convert_rhs(alloc: Global, rhs: &Rhs<NoExit>) -> Result<Rhs<NoAssign>, NoMemory>
    ensures { IfOk result (λ made. rhs_of made ≡ rhs_of rhs.now) }
{
    match rhs {
        Rhs::Exp(exp) => Ok(Rhs::Exp(convert_exp(alloc, exp)?)),
    }
}

/// An assignment is a binding of the same local.
fn convert_stmt(alloc: Global, stmt: &Stmt<NoExit>) -> Result<Stmt<NoAssign>, NoMemory>
    ensures { IfOk result (λ made. stmt_of made ≡ stmt_without (stmt_of stmt.now)) }
{
    match stmt {
        Stmt::Let(local, rhs) => Ok(Stmt::Let(*local, convert_rhs(alloc, rhs)?)),
        Stmt::Set(_, local, rhs) => Ok(Stmt::Let(*local, convert_rhs(alloc, rhs)?)),
    }
}

fn convert_stmts(
    alloc: Global,
    stmts: &Items<Stmt<NoExit>>,
) -> Result<Items<Stmt<NoAssign>>, NoMemory>
    ensures { IfOk result (λ made. map stmt_of made ≡ map stmt_without (map stmt_of stmts.now)) }
{
    let mut made = Items::new(alloc);
    for stmt in stmts.as_slice() {
        made.push(convert_stmt(alloc, stmt)?)?;
    }
    Ok(made)
}

#[tactic(auto, using(crate::proofs::Lists::stmts_of_map))]
fn convert_block(alloc: Global, block: &Block<NoExit>) -> Result<Block<NoAssign>, NoMemory>
    ensures { IfOk result (λ made. block_of made ≡ block_without (block_of block.now)) }
{
    Ok(Block {
        statements: convert_stmts(alloc, &block.statements)?,
        tail: convert_rhs(alloc, &block.tail)?,
    })
}

fn convert_function(
    alloc: Global,
    function: &Function<NoExit>,
) -> Result<Function<NoAssign>, NoMemory>
    ensures { IfOk result (λ made. function_of made ≡ function_without (function_of function.now)) }
{
    Ok(Function {
        name: function.name.copy(alloc)?,
        parameters: copy_parameters(alloc, &function.parameters)?,
        result: function.result,
        body: Body {
            locals: copy_names(alloc, &function.body.locals)?,
            block: convert_block(alloc, &function.body.block)?,
        },
    })
}

fn convert_program(alloc: Global, program: &Program<NoExit>) -> Result<Program<NoAssign>, NoMemory>
    ensures { IfOk result (λ made. program_of made ≡ program_without (program_of program.now)) }
{
    let mut functions = Items::new(alloc);
    for function in program.functions.as_slice() {
        functions.push(convert_function(alloc, function)?)?;
    }
    Ok(Program { functions })
}

/// The program without assignments: each becomes a `let` of its local, which hides the earlier value
/// to the end of the block.
///
/// Each function keeps its header, its loops and its calls, and gives the same results in the same
/// number of turns. The program is consumed, and after `NoMemory`, which comes only for want of
/// memory, it is gone.
pub fn drop_assigns(alloc: Global, program: Program<NoExit>) -> Result<Program<NoAssign>, NoMemory>
    requires { Sound no_exit (program_of program) }
    ensures sound { IfOk result (λ made. Sound no_assign (program_of made)) }
    ensures gone { IfOk result (λ made. uses Assign (program_of made) ≡ 0) }
    ensures headers { IfOk result (λ made. map header_of (program_of made) ≡ map header_of (program_of program)) }
    ensures loops { IfOk result (λ made. map loops (program_of made) ≡ map loops (program_of program)) }
    ensures calls { IfOk result (λ made. (name : List ℕ) → map (calls name) (program_of made) ≡ map (calls name) (program_of program)) }
    ensures results { IfOk result (λ made. SameResults (program_of program) (program_of made)) }
{
    let made = convert_program(alloc, &program)?;
    absent_features_are_unused(&made);
    calls_are_computed();
    Ok(made)
}
