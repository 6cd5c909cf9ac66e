//! What the rules on moves say of a program. The functions here do nothing: a caller has their clauses.

ghost use Rattle.std.specs.Prelude.{◌≡◌, None, Option, List};
ghost use Rattle.hs_linear.specs.Told.{Answers, told_of};
ghost use Rattle.hs_linear.specs.Sources.{Agree};
ghost use Rattle.hs_linear.specs.declared.told.Breach.{Breach};

use hs_tree::features::Src;
use hs_tree::program::Program;

/// Nothing is told of a program whose bodies have types exactly where it meets the conditions on moves of sound sources.
pub fn nothing_is_told_of_sound_sources(program: &Program<Src>)
    ensures { Agree program.now }
{
    let _ = program;
}

/// Of all that is broken one is told, if anything is, and no other.
pub fn one_is_told()
    ensures told { (bs : List Breach) → Answers bs (told_of None bs) }
    ensures alone { (bs : List Breach) (o : Option Breach) → Answers bs o → o ≡ told_of None bs }
{}
