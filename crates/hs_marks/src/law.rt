//! The first on a walk is the told one.

ghost use Rattle.std.specs.Prelude.{◌≡◌, ℕ, Some, []};
ghost use Rattle.hs_marks.specs.declared.breach.Breach.{Breach};
ghost use Rattle.hs_marks.specs.First.{first};
ghost use Rattle.hs_marks.specs.Marked.{Marked, marks};
ghost use Rattle.hs_marks.specs.Told.{Answers, Lies, Rising, Told};

/// Where nodes lie as in a text, and the rules that each breaks are listed by their numbers, what is broken first on a walk from
/// the inside out and in the order of the text is what is told. Nothing runs: the clauses are what is proved.
///
/// - `told`: the first is the told one, and there is none where nothing is broken.
/// - `only`: what is told is the first.
/// - `one`: where anything is broken, one is told.
/// - `alone`: at most one is.
pub fn first_is_told()
    ensures told { (m : Marked) (low high : ℕ) → Lies m low high → Rising m → Answers (marks m 0) (first m) }
    ensures only { (m : Marked) (low high : ℕ) → Lies m low high → Rising m → (b : Breach) → Told (marks m 0) b → first m ≡ Some b }
    ensures one { (m : Marked) (low high : ℕ) → Lies m low high → Rising m → (marks m 0 ≡ [] → ⊥) → (b : Breach) × Told (marks m 0) b }
    ensures alone { (m : Marked) (low high : ℕ) → Lies m low high → Rising m → (b c : Breach) → Told (marks m 0) b → Told (marks m 0) c → b ≡ c }
{}
