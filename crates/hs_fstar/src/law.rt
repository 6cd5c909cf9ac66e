//! Laws of printed texts. The functions here do nothing: a caller has their clauses.

ghost use Rattle.std.specs.Prelude.{◌≡◌, ℕ, List};
ghost use Rattle.hs_first_em.specs.Plain as em;
ghost use Rattle.hs_first_em.specs.Spelled.{Spelled};
ghost use Rattle.hs_fstar.specs.Layout.{layout};
ghost use Rattle.hs_fstar.specs.Reads.{Reads};

/// The layout of a spelled module reads as that module.
pub fn layouts_are_read()
    ensures { (m : em.Module) → Spelled m → Reads (layout m) m }
{}

/// A text reads as one module at most.
pub fn texts_are_read_once()
    ensures { (text : List ℕ) (m n : em.Module) → Reads text m → Reads text n → m ≡ n }
{}
