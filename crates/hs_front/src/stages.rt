//! The stages behind the grammar of the whole language and its limits.

ghost use Rattle.std.specs.Prelude.{◌≡◌, ◌⊎◌, Err};
ghost use Rattle.hs_base.specs.declared.place.Broken.{Broken};
ghost use Rattle.hs_syntax.specs.declared.file.File.{File};
ghost use Rattle.hs_limits.specs.Nested.{NestedFile};
ghost use Rattle.hs_front.specs.Stages as g;

use hs_base::place::Stop;
use hs_items::{declarations_exclude, items};
use hs_resolver::{names_exclude, resolve};
use hs_syntax::File;
use std::alloc::Global;

/// Nothing is told of a file that breaks no rule of these stages. Nothing runs: the clause is what is proved.
pub fn stages_exclude()
    ensures { (file : File) (told : Broken) → g.KeepsRules file → g.TellsRules file told → ⊥ }
{
    names_exclude();
    declarations_exclude();
}

/// Looks over the names of a file, and then over what its items declare.
///
/// # Errors
///
/// What `resolve` tells, else what `items` does, or want of memory.
pub fn look_over(alloc: Global, file: &File) -> Result<(), Stop>
    requires nested { NestedFile file.now }
    ensures keeps { g.Keeps file.now result }
    ensures only_told { (told : Broken) → g.TellsRules file.now told → (result ≡ Err (Stop.Broken told)) ⊎ (result ≡ Err Stop.NoMemory) }
{
    names_exclude();
    declarations_exclude();
    let names = resolve(alloc, file)?;
    items(alloc, file, &names)?;
    Ok(())
}
