//! The functions that calls name.

ghost use Rattle.std.specs.Prelude.{◌≡◌, IfOk};
ghost use Rattle.hs_tree.specs.Plain as plain;
ghost use Rattle.hs_tree.specs.Of.{mode_of};
ghost use Rattle.hs_linear.specs.Called.{names_of};

use hs_base::memory::NoMemory;
use hs_scope::Names;
use hs_tree::features::Src;
use hs_tree::program::{Function, Mode, Param};
use std::alloc::Global;

/// Whether an argument for a parameter of the mode is lent.
pub fn is_lent(mode: &Mode<Src>) -> bool
    ensures { result ≡ plain.is_lent (mode_of mode.now) }
{
    match mode {
        Mode::Val => false,
        Mode::Ref | Mode::Mut(_) => true,
    }
}

/// The functions of a program, to be found by their names.
#[derive(Drop)]
pub struct Callees<'a> {
    functions: &'a [Function<Src>],
    names: Names<'a>,
    ghost named: { names ≡ names_of functions.now },
}

/// The names of functions, in order.
fn names(alloc: Global, functions: &[Function<Src>]) -> Result<Names<'_>, NoMemory>
    ensures { IfOk result (λ names. names ≡ names_of functions.now) }
{
    let mut names = Names::new(alloc);
    for function in functions {
        let _is_new = names.add(function.name.bytes())?;
    }
    Ok(names)
}

impl<'a> Callees<'a> {
    ghost use Rattle.std.specs.Prelude.{map};
    ghost use Rattle.hs_tree.specs.Call.{modes};
    ghost use Rattle.hs_tree.specs.Of.{function_of};
    ghost use Rattle.hs_linear.specs.Called.{modes_of};

    /// These functions.
    pub fn new(alloc: Global, functions: &'a [Function<Src>]) -> Result<Callees<'a>, NoMemory>
        ensures { IfOk result (λ callees. callees.functions.now ≡ functions.now) }
    {
        Ok(Callees {
            functions,
            names: names(alloc, functions)?,
        })
    }

    /// The parameters of the first function of a name; none where there is no such function.
    pub fn params(&self, name: &[u8]) -> &'a [Param<Src>]
        ensures { modes_of result.now ≡ modes (map function_of self.now.functions.now) name.now }
    {
        match self.names.find(name) {
            Some(number) => self.functions[number].params.as_slice(),
            None => &[],
        }
    }
}
