//! The text of a program.

ghost use Rattle.std.specs.Prelude.{◌≡◌, [], ◌∷◌, ◌++◌, map, OnOk, IfOk};
ghost use Rattle.hs_tree.specs.Text as shown;
ghost use Rattle.hs_tree.specs.Text.{bytes_of, first_bytes, next_bytes, lines_of, mode_word, framed, shown_rest, shown_param, shown_params, shown_function};
ghost use Rattle.hs_tree.specs.Of.{block_of, mode_of, param_of, function_of, program_of};

use crate::features::Features;
use crate::item::Item;
use crate::node::Block;
use crate::open::{open, split};
use crate::program::{Function, Mode, Param, Program};
use crate::stack::Stack;
use crate::text::{write_local, write_type};
use hs_base::memory::NoMemory;
use hs_base::name::Name;
use hs_values::TypeTable;
use std::alloc::Global;

/// A block, a space before it. Each turn writes a byte at least, so they end long before memory would.
fn write_block<F: Features>(
    alloc: Global,
    block: &Block<F>,
    names: &[Name],
    table: &TypeTable,
    text: &mut Vec<u8>,
) -> Result<(), NoMemory>
    ensures { OnOk result (text.new.items ≡ text.old.items ++ 32 ∷ bytes_of (framed (shown_rest table.now (block_of names.now block.now)))) }
{
    let mut stack = Stack::new(alloc);
    stack.push(Item::Block(block))?;
    for _turn in 0..u64::MAX {
        match stack.pop() {
            None => return Ok(()),
            Some(item) => open(alloc, item, names, table, text, &mut stack)?,
        }
    }
    Err(NoMemory)
}

/// The bracket and the word that a parameter begins with.
fn write_mode<F: Features>(mode: &Mode<F>, text: &mut Vec<u8>) -> Result<(), NoMemory>
    ensures { OnOk result (text.new.items ≡ text.old.items ++ 40 ∷ mode_word (mode_of mode.now)) }
{
    match mode {
        Mode::Val => text.extend_from_slice(b"(val"),
        Mode::Ref => text.extend_from_slice(b"(ref"),
        Mode::Mut(_) => text.extend_from_slice(b"(mut"),
    }
}

/// A parameter.
#[tactic(auto, using(std::proofs::Common::append_assoc))]
fn write_param<F: Features>(
    alloc: Global,
    param: &Param<F>,
    names: &[Name],
    table: &TypeTable,
    text: &mut Vec<u8>,
) -> Result<(), NoMemory>
    ensures { OnOk result (text.new.items ≡ text.old.items ++ bytes_of (shown_param table.now (param_of names.now param.now))) }
{
    write_mode(&param.mode, text)?;
    write_local(alloc, names, param.local, text)?;
    text.extend_from_slice(b" ")?;
    write_type(param.ty.get(), table, text)?;
    text.extend_from_slice(b")")
}

/// Parameters, a space before each, and the closing bracket.
fn write_rest<F: Features>(
    alloc: Global,
    params: &[Param<F>],
    names: &[Name],
    table: &TypeTable,
    text: &mut Vec<u8>,
) -> Result<(), NoMemory>
    ensures { OnOk result (text.new.items ≡ text.old.items ++ next_bytes (shown_params table.now (map (param_of names.now) params.now))) }
{
    for param in params {
        text.extend_from_slice(b" ")?;
        write_param(alloc, param, names, table, text)?;
    }
    text.extend_from_slice(b")")
}

/// Parameters, a space between two, and the closing bracket.
#[tactic(auto, using(std::proofs::Common::append_assoc))]
fn write_params<F: Features>(
    alloc: Global,
    params: &[Param<F>],
    names: &[Name],
    table: &TypeTable,
    text: &mut Vec<u8>,
) -> Result<(), NoMemory>
    ensures { OnOk result (text.new.items ≡ text.old.items ++ first_bytes (shown_params table.now (map (param_of names.now) params.now))) }
{
    match split(params) {
        None => text.extend_from_slice(b")"),
        Some((first, rest)) => {
            write_param(alloc, first, names, table, text)?;
            write_rest(alloc, rest, names, table, text)
        }
    }
}

/// A function, in one line.
fn write_function<F: Features>(
    alloc: Global,
    function: &Function<F>,
    table: &TypeTable,
    text: &mut Vec<u8>,
) -> Result<(), NoMemory>
    ensures { OnOk result (text.new.items ≡ text.old.items ++ (bytes_of (shown_function table.now (function_of function.now)) ++ 10 ∷ [])) }
{
    let names = function.body.locals.as_slice();
    text.extend_from_slice(b"(fn ")?;
    text.extend_from_slice(function.name.bytes())?;
    text.extend_from_slice(b" (")?;
    write_params(alloc, function.params.as_slice(), names, table, text)?;
    text.extend_from_slice(b" ")?;
    write_type(function.ty.get(), table, text)?;
    write_block(alloc, &function.body.block, names, table, text)?;
    text.extend_from_slice(b")\n")
}

/// Functions, a line for each.
fn write_functions<F: Features>(
    alloc: Global,
    functions: &[Function<F>],
    table: &TypeTable,
    text: &mut Vec<u8>,
) -> Result<(), NoMemory>
    ensures { OnOk result (text.new.items ≡ text.old.items ++ lines_of (map (shown_function table.now) (map function_of functions.now))) }
{
    for function in functions {
        write_function(alloc, function, table, text)?;
    }
    Ok(())
}

/// The text of a program: a line for each function, in the order of items. A form stands between brackets and begins with its
/// word, with one space between two parts. The work is in proportion to the text, and no call nests in another as nodes do.
///
/// # Errors
///
/// `NoMemory` only for want of memory.
pub fn show<F: Features>(alloc: Global, program: &Program<F>) -> Result<Vec<u8>, NoMemory>
    ensures { IfOk result (λ text. text.items ≡ shown.text (program_of program.now)) }
{
    let mut text = Vec::new(alloc);
    let functions = program.functions.get().as_slice();
    write_functions(alloc, functions, program.types.get(), &mut text)?;
    Ok(text)
}
