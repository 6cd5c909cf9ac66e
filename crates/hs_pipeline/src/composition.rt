//! The module of a source's program.

ghost use Rattle.std.specs.Prelude.{◌≡◌, true, IfOk};
ghost use Rattle.hs_first_tree.specs.Of.{program_of};
ghost use Rattle.hs_first_tree.specs.Features.{src};
ghost use Rattle.hs_first_tree.specs.Sound.{Sound};
ghost use Rattle.hs_first_em.specs.Of.{module_of};
ghost use Rattle.hs_first_em.specs.Spelled.{is_module_name, Spelled};
ghost use Rattle.hs_first_em.specs.Scoped.{Scoped};
ghost use Rattle.hs_pipeline.specs.Same.{Same, Shape};

use crate::copy::without_exits;
use crate::lower::{locals_are_numbered, lower};
use hs_base::memory::NoMemory;
use hs_first_em::law::{environments_serve, scoped_modules_end};
use hs_first_em::module::Module;
use hs_first_tree::features::Src;
use hs_first_tree::law::{absent_features_are_unused, calls_are_computed};
use hs_first_tree::program::Program;
use hs_p_mutation::drop_assigns;
use std::alloc::Global;

/// The module of this name for a program of the source.
///
/// It is spelled and scoped, has a definition for each function, with its header, in order, and for all
/// arguments of its types a definition gives what a call of the function gives, in the same number of
/// turns. `NoMemory` comes only for want of memory.
pub fn emit(alloc: Global, program: &Program<Src>, name: &str) -> Result<Module, NoMemory>
    requires sound { Sound src (program_of program.now) }
    requires named { is_module_name name.now ≡ true }
    ensures named { IfOk result (λ made. (module_of made).name ≡ name.now) }
    ensures spelled { IfOk result (λ made. Spelled (module_of made)) }
    ensures scoped { IfOk result (λ made. Scoped (module_of made)) }
    ensures same { IfOk result (λ made. Same (program_of program.now) (module_of made)) }
    ensures shape { IfOk result (λ made. Shape (program_of program.now) (module_of made).defs) }
{
    let flat = without_exits(alloc, program)?;
    absent_features_are_unused(&flat);
    let bound = drop_assigns(alloc, flat)?;
    calls_are_computed();
    environments_serve();
    scoped_modules_end();
    locals_are_numbered(&bound);
    lower(alloc, &bound, name)
}
