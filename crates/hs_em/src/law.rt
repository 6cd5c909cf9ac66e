//! Laws of what modules mean and of what is told of them. The functions here do nothing: a caller has their clauses.

ghost use Rattle.std.specs.Prelude.{◌≡◌, ◌↔◌, List, None};
ghost use Rattle.hs_control.specs.Control.{Val};
ghost use Rattle.hs_em.specs.Plain as em;
ghost use Rattle.hs_em.specs.Means.{means};
ghost use Rattle.hs_em.specs.Environment.{means_evaluated};
ghost use Rattle.hs_em.specs.Scoped.{Scoped, told};

/// What a definition means by values in the place of its locals is what it gives where an environment holds these values.
pub fn environments_serve()
    ensures { (m : em.Module) (name : em.Name) (vs : List Val) → means m name vs ≡ means_evaluated m name vs }
{}

/// Of a module something is told exactly where one of the three rules is broken.
pub fn unscoped_is_told()
    ensures { (m : em.Module) → (told m ≡ None) ↔ Scoped m }
{}
