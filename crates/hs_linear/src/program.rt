//! The rules on moves in a program.

ghost use Rattle.std.specs.Prelude.{◌≡◌, ◌⊎◌, None, not, map, IfOk};
ghost use Rattle.hs_base.specs.declared.place.Broken.{Broken};
ghost use Rattle.hs_ops.specs.Standard.{standard_table};
ghost use Rattle.hs_tree.specs.Types.{copied};
ghost use Rattle.hs_linear.specs.Told.{told_of};
ghost use Rattle.hs_linear.specs.Programs.{broken, function_seen, TellsMoves, Answered};

use crate::callees::Callees;
use crate::copied::is_copied;
use crate::joined::Left;
use crate::law::one_is_told;
use crate::state::State;
use crate::told::Breach;
use crate::world::World;
use hs_base::memory::NoMemory;
use hs_base::place::{Broken, Stop};
use hs_ops::{OPS, OpTable, standard};
use hs_tree::features::Src;
use hs_tree::program::{Function, Program};
use hs_tree::shared::Shared;
use hs_values::{TypeTable, ValType};
use std::alloc::Global;

/// Of each type whether a read by value takes the value out.
fn moved(alloc: Global, types: &[Shared<ValType>], table: &TypeTable) -> Result<Vec<bool>, NoMemory>
    ensures { IfOk result (λ moved. moved.items ≡ map (λ (t : ValType). not (copied table.now t)) types.now) }
{
    let mut moved = Vec::new(alloc);
    for ty in types {
        moved.push(!is_copied(ty.get(), table))?;
    }
    Ok(moved)
}

/// What is told of a function and of what was walked before it.
fn told_behind(
    alloc: Global,
    function: &Function<Src>,
    table: &TypeTable,
    callees: &Callees<'_>,
    operations: &OpTable<OPS>,
    told: Option<Breach>,
) -> Result<Option<Breach>, NoMemory>
    requires { operations.now ≡ standard_table }
    ensures { IfOk result (λ after. after ≡ told_of told (function_seen table.now callees.now.functions.now function.now).broken) }
{
    let world = World {
        alloc,
        table,
        callees,
        operations,
        params: function.params.as_slice(),
        moves: moved(alloc, function.body.types.as_slice(), table)?,
    };
    let mut state = State::new(alloc, told);
    for param in world.params {
        state.give(param.local)?;
    }
    match world.block(&function.body.block, &mut state) {
        Ok(()) => Ok(state.told),
        Err(Left::Exits) => Ok(state.told),
        Err(Left::NoMemory) => Err(NoMemory),
    }
}

/// What is told of all functions.
fn told(alloc: Global, program: &Program<Src>) -> Result<Option<Breach>, NoMemory>
    ensures { IfOk result (λ told. told ≡ told_of None (broken program.now)) }
{
    let operations = standard(alloc)?;
    let functions = program.functions.get().as_slice();
    let callees = Callees::new(alloc, functions)?;
    let table = program.types.get();
    let mut told = None;
    for function in functions {
        told = told_behind(alloc, function, table, &callees, &operations, told)?;
    }
    Ok(told)
}

/// Looks whether each local that is read holds a value, and whether values that are not copied are taken out of locals alone.
///
/// # Errors
///
/// The told one of the rules L1 to L6: of the nodes that break one, the node that ends first in the text; of those that end there the
/// innermost; of the rules that it breaks the one with the least number. NoMemory: want of memory.
pub fn moves(alloc: Global, program: &Program<Src>) -> Result<(), Stop>
    ensures moves { Answered program.now result }
    ensures only_told { (told : Broken) → TellsMoves program.now told → (result ≡ Err (Stop.Broken told)) ⊎ (result ≡ Err Stop.NoMemory) }
{
    one_is_told();
    match told(alloc, program)? {
        None => Ok(()),
        Some(breach) => Err(Stop::Broken(Broken::told_at(
            program.text.get(),
            breach.rule,
            breach.span.start,
        ))),
    }
}
