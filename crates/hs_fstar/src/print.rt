//! Writes a module as text.

ghost use Rattle.std.specs.Prelude.{◌≡◌, ◌++◌, ◌∷◌, map, flat_map, OnOk, IfOk};
ghost use Rattle.hs_first_em.specs.Plain as em;
ghost use Rattle.hs_first_em.specs.Of.{ems_of, em_of, var_of, type_of, par_of, def_of, module_of};
ghost use Rattle.hs_first_em.specs.Spelled.{is_let};
ghost use Rattle.hs_fstar.specs.Reads.{var_text, type_text};
ghost use Rattle.hs_fstar.specs.Layout.{spaces, em_text, ems_text, par_text, pars_text, def_text, layout};
ghost use Rattle.hs_fstar.specs.Lines.{indent_of_bound, gap, let_text, in_text};

use hs_base::memory::NoMemory;
use hs_first_em::module::{Em, EmDef, EmPar, EmTy, EmVar, Module};
use std::alloc::Global;

// A local: its name and its number.
fn write_var(alloc: Global, local: &EmVar, text: &mut Vec<u8>) -> Result<(), NoMemory>
    ensures { OnOk result (text.new.items ≡ text.old.items ++ var_text (var_of local.now)) }
{
    text.extend_from_slice(b"v_")?;
    text.extend_from_slice(local.name.bytes())?;
    let number = local.number;
    let number = format!(in alloc; "_{number}")?;
    text.extend_from_slice(number.as_bytes())
}

// A number of u32.
fn write_number(alloc: Global, number: u32, text: &mut Vec<u8>) -> Result<(), NoMemory>
    ensures { OnOk result (text.new.items ≡ text.old.items ++ em_text 2 (em.number number)) }
{
    let literal = format!(in alloc; "(u32_lit {number})")?;
    text.extend_from_slice(literal.as_bytes())
}

// An indent.
#[tactic(auto, using(std::proofs::Common::append_assoc, crate::proofs::Pieces::spaces_next))]
fn write_spaces(indent: usize, text: &mut Vec<u8>) -> Result<(), NoMemory>
    ensures { OnOk result (text.new.items ≡ text.old.items ++ spaces indent) }
{
    for done in 0..indent {
        text.extend_from_slice(b" ")?;
    }
    Ok(())
}

// The indent of what a local is bound to: a `let` stands two spaces further in.
fn bound_indent(bound: &Em, indent: usize) -> Result<usize, NoMemory>
    ensures { IfOk result (λ inner. inner ≡ indent_of_bound (is_let (em_of bound.now)) indent) }
{
    match bound {
        Em::Let(..) => indent.checked_add(2).ok_or(NoMemory),
        _ => Ok(indent),
    }
}

// What stands before and behind what a local is bound to: a space, or, where it is a `let`, a new line.
fn write_gap(bound: &Em, inner: usize, text: &mut Vec<u8>) -> Result<(), NoMemory>
    ensures { OnOk result (text.new.items ≡ text.old.items ++ gap (is_let (em_of bound.now)) inner) }
{
    match bound {
        Em::Let(..) => {
            text.extend_from_slice(b"\n")?;
            write_spaces(inner, text)
        }
        _ => text.extend_from_slice(b" "),
    }
}

// The binding of a local up to what it is bound to, which stands at its own indent.
#[tactic(auto, using(std::proofs::Common::append_assoc))]
fn write_let(
    alloc: Global,
    local: &EmVar,
    bound: &Em,
    inner: usize,
    text: &mut Vec<u8>,
) -> Result<(), NoMemory>
    ensures { OnOk result (text.new.items ≡ text.old.items ++ let_text (var_of local.now) (is_let (em_of bound.now)) inner) }
{
    text.extend_from_slice(b"let ")?;
    write_var(alloc, local, text)?;
    text.extend_from_slice(b" =")?;
    write_gap(bound, inner, text)
}

// What follows what a local is bound to: an `in`, and the indent of the line behind it.
#[tactic(auto, using(std::proofs::Common::append_assoc))]
fn write_in(bound: &Em, indent: usize, text: &mut Vec<u8>) -> Result<(), NoMemory>
    ensures { OnOk result (text.new.items ≡ text.old.items ++ in_text (is_let (em_of bound.now)) indent) }
{
    write_gap(bound, indent, text)?;
    text.extend_from_slice(b"in\n")?;
    write_spaces(indent, text)
}

// An expression at an indent, without the indent before its first line.
#[tactic(auto, using(std::proofs::Common::append_assoc, crate::proofs::Pieces::let_pieces))]
#[cycle(expression)]
fn write_em(alloc: Global, em: &Em, indent: usize, text: &mut Vec<u8>) -> Result<(), NoMemory>
    ensures { OnOk result (text.new.items ≡ text.old.items ++ em_text indent (em_of em.now)) }
{
    match em {
        Em::Var(local) => write_var(alloc, local, text),
        Em::Lit(number) => write_number(alloc, *number, text),
        Em::Op(name, operands) => {
            text.extend_from_slice(b"(")?;
            text.extend_from_slice(name.bytes())?;
            write_operands(alloc, operands.as_slice(), indent, text)?;
            text.extend_from_slice(b")")
        }
        Em::Let(local, bound, body) => {
            let inner = bound_indent(bound.get(), indent)?;
            write_let(alloc, local, bound.get(), inner, text)?;
            write_em(alloc, bound.get(), inner, text)?;
            write_in(bound.get(), indent, text)?;
            write_em(alloc, body.get(), indent, text)?;
            Ok(())
        }
    }
}

// Operands, a space before each.
#[cycle(expression)]
fn write_operands(
    alloc: Global,
    operands: &[Em],
    indent: usize,
    text: &mut Vec<u8>,
) -> Result<(), NoMemory>
    ensures { OnOk result (text.new.items ≡ text.old.items ++ ems_text indent (ems_of (map em_of operands.now))) }
{
    for operand in operands {
        text.extend_from_slice(b" ")?;
        write_em(alloc, operand, indent, text)?;
    }
    Ok(())
}

// A type.
fn write_type(ty: EmTy, text: &mut Vec<u8>) -> Result<(), NoMemory>
    ensures { OnOk result (text.new.items ≡ text.old.items ++ type_text (type_of ty)) }
{
    match ty {
        EmTy::U32 => text.extend_from_slice(b"u32"),
    }
}

// A parameter, with the space before it.
fn write_parameter(alloc: Global, parameter: &EmPar, text: &mut Vec<u8>) -> Result<(), NoMemory>
    ensures { OnOk result (text.new.items ≡ text.old.items ++ par_text (par_of parameter.now)) }
{
    text.extend_from_slice(b" (")?;
    write_var(alloc, &parameter.local, text)?;
    text.extend_from_slice(b" : ")?;
    write_type(parameter.ty, text)?;
    text.extend_from_slice(b")")
}

// Parameters, a space before each.
fn write_each(alloc: Global, parameters: &[EmPar], text: &mut Vec<u8>) -> Result<(), NoMemory>
    ensures { OnOk result (text.new.items ≡ text.old.items ++ flat_map par_text (map par_of parameters.now)) }
{
    for parameter in parameters {
        write_parameter(alloc, parameter, text)?;
    }
    Ok(())
}

// The parameters of a definition.
fn write_parameters(alloc: Global, parameters: &[EmPar], text: &mut Vec<u8>) -> Result<(), NoMemory>
    ensures { OnOk result (text.new.items ≡ text.old.items ++ pars_text (map par_of parameters.now)) }
{
    if parameters.is_empty() {
        return text.extend_from_slice(b" (_ : unit)");
    }
    write_each(alloc, parameters, text)
}

// A definition, behind an empty line.
#[tactic(auto, using(std::proofs::Common::append_assoc))]
fn write_definition(alloc: Global, definition: &EmDef, text: &mut Vec<u8>) -> Result<(), NoMemory>
    ensures { OnOk result (text.new.items ≡ text.old.items ++ def_text (def_of definition.now)) }
{
    text.extend_from_slice(b"\nlet f_")?;
    text.extend_from_slice(definition.name.bytes())?;
    write_parameters(alloc, definition.params.as_slice(), text)?;
    text.extend_from_slice(b" : ")?;
    write_type(definition.result, text)?;
    text.extend_from_slice(b" =\n  ")?;
    write_em(alloc, &definition.body, 2, text)?;
    text.extend_from_slice(b"\n")?;
    Ok(())
}

// The definitions, each behind an empty line.
fn write_definitions(
    alloc: Global,
    definitions: &[EmDef],
    text: &mut Vec<u8>,
) -> Result<(), NoMemory>
    ensures { OnOk result (text.new.items ≡ text.old.items ++ flat_map def_text (map def_of definitions.now)) }
{
    for definition in definitions {
        write_definition(alloc, definition, text)?;
    }
    Ok(())
}

/// The text of a module: its head, and each definition behind an empty line. `NoMemory` comes only for
/// want of memory.
#[tactic(auto, using(std::proofs::Common::append_assoc))]
pub fn print(alloc: Global, module: &Module) -> Result<Vec<u8>, NoMemory>
    ensures { IfOk result (λ text. text.items ≡ layout (module_of «module».now)) }
{
    let mut text = Vec::new(alloc);
    text.extend_from_slice(b"module ")?;
    text.extend_from_slice(module.name.bytes())?;
    text.extend_from_slice(b"\n\nopen Hs_prelude\n")?;
    write_definitions(alloc, module.defs.as_slice(), &mut text)?;
    Ok(text)
}
