//! Laws of trees and of their runs. The functions here do nothing: a caller has their clauses.

ghost use Rattle.std.specs.Prelude.{◌≡◌, ◌↔◌, ℕ, List, false};
ghost use Rattle.hs_first_tree.specs.Value.{Value};
ghost use Rattle.hs_first_tree.specs.Plain as tree;
ghost use Rattle.hs_first_tree.specs.Of.{program_of};
ghost use Rattle.hs_first_tree.specs.Features.{Feature, stage_of};
ghost use Rattle.hs_first_tree.specs.Count.{uses};
ghost use Rattle.hs_first_tree.specs.Call.{Result, Calls};
ghost use Rattle.hs_first_tree.specs.Compute.{run_call, Ended};

use crate::features::Features;
use crate::program::Program;

/// A feature that is off is used nowhere.
pub fn absent_features_are_unused<F: Features>(program: &Program<F>)
    ensures { (f : Feature) → stage_of F.Place.on F.Nested.on F.Quest.on F.MutArg.on F.Exit.on F.Assign.on F.Loop.on F.Cf.on F.Acc.on F.Fold.on f ≡ false → uses f (program_of program.now) ≡ 0 }
{
    let _ = program;
}

/// A call has a result after so many turns exactly where the function `run_call` gives these. So it
/// has at most one result, and one number of turns.
pub fn calls_are_computed()
    ensures { (p : List tree.Function) (i : ℕ) (vs : List Value) (r : Result) (n : ℕ) → Calls p i vs r n ↔ (run_call p i vs ≡ Ended r n) }
{}
