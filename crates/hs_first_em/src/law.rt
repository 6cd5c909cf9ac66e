//! Laws of what modules mean. The functions here do nothing: a caller has their clauses.

ghost use Rattle.std.specs.Prelude.{◌≡◌, ℕ, List, map, Some, slice_get};
ghost use Rattle.hs_first_tree.specs.Value.{Value, FitsAll};
ghost use Rattle.hs_first_em.specs.Plain as em;
ghost use Rattle.hs_first_em.specs.Scoped.{Scoped};
ghost use Rattle.hs_first_em.specs.Spelled.{Spelled};
ghost use Rattle.hs_first_em.specs.Means.{means};
ghost use Rattle.hs_first_em.specs.Environment.{called_in};
ghost use Rattle.hs_first_em.specs.Ended.{Ended};

/// What a definition means by values in the place of its locals is what it gives where an environment
/// holds these values.
pub fn environments_serve()
    ensures { (m : em.Module) (i : ℕ) (vs : List Value) → means m i vs ≡ called_in (slice_get m.defs i) vs }
{}

/// A definition of a scoped and spelled module gives a value or panics, for all arguments of its types.
pub fn scoped_modules_end()
    ensures { (m : em.Module) (i : ℕ) (d : em.EmDef) (vs : List Value) → Scoped m → Spelled m → slice_get m.defs i ≡ Some d
        → FitsAll vs (map (λ (p : em.EmPar). p.type) d.params) → Ended (means m i vs) }
{}
