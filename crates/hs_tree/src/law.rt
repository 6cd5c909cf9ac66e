//! Laws of trees and of their runs. The functions here do nothing: a caller has their clauses.

ghost use Rattle.std.specs.Prelude.{◌≡◌, ◌↔◌, ℕ, List, false};
ghost use Rattle.hs_tree.specs.Plain as tree;
ghost use Rattle.hs_control.specs.Control.{Val};
ghost use Rattle.hs_tree.specs.Of.{program_of};
ghost use Rattle.hs_tree.specs.Features.{Feature, stage_of};
ghost use Rattle.hs_tree.specs.Count.{uses};
ghost use Rattle.hs_tree.specs.Store.{Calls, Result, Ended};
ghost use Rattle.hs_tree.specs.Call.{Moves, Results, results};
ghost use Rattle.hs_tree.specs.World.{World};
ghost use Rattle.hs_tree.specs.Named.{FreshChangesNothing, UnwrittenStays};
ghost use Rattle.hs_tree.specs.Laws.{FollowsOn, FollowsGiven, SameByFunctions, TextsTell};

use crate::features::Features;
use crate::program::Program;

/// A feature that is off is used nowhere.
pub fn absent_features_are_unused<F: Features>(program: &Program<F>)
    ensures { (f : Feature) → stage_of F.Place.on F.Nested.on F.Quest.on F.MutArg.on F.Exit.on F.Assign.on F.Loop.on F.Cf.on F.Acc.on F.Fold.on f ≡ false → uses f (program_of program.now) ≡ 0 }
{
    let _ = program;
}

/// A call has a result after so many turns exactly where the function `results` gives these. So it has at most one result, and one
/// number of turns.
pub fn calls_are_computed()
    ensures { (p : tree.Program) (moves : Moves) (f : tree.Name) (vs : List Val) (r : Result) (n : ℕ) → Results p moves f vs r n ↔ (results p moves f vs ≡ Ended r n) }
{}

/// Programs whose functions give the same, one by one, have the same results.
pub fn equal_functions_give_equal_results()
    ensures { SameByFunctions }
{}

/// A local that a block does not name changes nothing in the block's run, and is not changed by it.
pub fn fresh_locals_change_nothing()
    ensures { (w : World) (c : Calls) (b : tree.Block) → FreshChangesNothing w c b }
{}

/// A local that a block neither assigns nor lends, and that no read moves, is behind the block's run as it was before.
pub fn unwritten_locals_stay()
    ensures { (w : World) (c : Calls) (b : tree.Block) → UnwrittenStays w c b }
{}

/// What follows a run that follows another one follows both, and what follows a value that is given without a turn is what there is.
pub fn runs_follow_one_another()
    ensures on { FollowsOn }
    ensures given { FollowsGiven }
{}

/// The text of a sound program tells its functions: two programs with the same types, constants and texts, each sound for a stage, have
/// the same plain tree.
pub fn texts_tell_programs()
    ensures { TextsTell }
{}
