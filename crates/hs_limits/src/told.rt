//! That a limit is told of a file.

ghost use Rattle.std.specs.Prelude.{◌≡◌, []};
ghost use Rattle.hs_marks.specs.declared.breach.Breach.{Breach};
ghost use Rattle.hs_marks.specs.Told.{Told};
ghost use Rattle.hs_syntax.specs.declared.file.File.{File};
ghost use Rattle.hs_limits.specs.Nested.{NestedFile};
ghost use Rattle.hs_limits.specs.Breaks.{marks_of};

use hs_marks::first_is_told;

/// Of a file that passes a limit one is told, and only that one. Nothing runs: the clauses are what is proved.
pub fn one_is_told()
    ensures one { (file : File) → NestedFile file → (marks_of file ≡ [] → ⊥) → (b : Breach) × Told (marks_of file) b }
    ensures alone { (file : File) → NestedFile file → (b c : Breach) → Told (marks_of file) b → Told (marks_of file) c → b ≡ c }
{
    first_is_told();
}
