//! Comments nest.

ghost use Rattle.std.specs.Prelude.{◌≡◌, ℕ, List, Some};
ghost use Rattle.hs_lexer.specs.Comments.{Closes};
ghost use Rattle.hs_lexer.specs.Pieces.{closed_after};

/// Behind a `/*`, the bytes up to where no comment is open are the inside of a comment with its `*/`, and of no other number
/// of bytes is there one. Nothing runs: the clauses are what is proved.
pub fn comments_nest()
    ensures closed { (s : List ℕ) (n : ℕ) → closed_after 0 s ≡ Some n → Closes s n }
    ensures only { (s : List ℕ) (n : ℕ) → Closes s n → closed_after 0 s ≡ Some n }
{}
