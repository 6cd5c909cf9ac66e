//! Patterns.

ghost use Rattle.std.specs.Prelude.{◌≡◌};
ghost use Rattle.hs_syntax.specs.Spans.{span_of_pat, span_of_arm_pat};

use crate::span::Span;
use sqlite_items::Items;

/// A pattern of a `let`, or inside a constructor's.
#[derive(Drop)]
pub enum Pat {
    /// `x` or `mut x`: the whole, whether there is a `mut`, and the name.
    Name(Span, bool, Span),
    /// `_`.
    Any(Span),
    /// `(p, q)`: two patterns or more.
    Tuple(Span, Items<Pat>),
    /// `S(p, q)`: a struct's name, and one pattern or more.
    Struct(Span, Span, Items<Pat>),
}

impl Pat {
    /// The bytes that the pattern stands for.
    #[tactic(auto, unfolding(crate::specs::Spans::span_of_pat))]
    pub fn span(&self) -> Span
        ensures { result ≡ span_of_pat self.now }
    {
        match self {
            Pat::Name(span, _, _)
            | Pat::Any(span)
            | Pat::Tuple(span, _)
            | Pat::Struct(span, _, _) => *span,
        }
    }
}

/// The pattern of an arm of a `match`.
#[derive(Drop)]
pub enum ArmPat {
    /// `_`.
    Any(Span),
    /// `C` or `C(p, q)`: a constructor's name, and the patterns in its parentheses, none where it has no parentheses.
    Ctor(Span, Span, Items<Pat>),
    /// `E::C` or `E::C(p, q)`: a type's name, a constructor's name, and the patterns in its parentheses, none where it has
    /// no parentheses.
    Member(Span, Span, Span, Items<Pat>),
}

impl ArmPat {
    /// The bytes that the pattern stands for.
    #[tactic(auto, unfolding(crate::specs::Spans::span_of_arm_pat))]
    pub fn span(&self) -> Span
        ensures { result ≡ span_of_arm_pat self.now }
    {
        match self {
            ArmPat::Any(span) | ArmPat::Ctor(span, _, _) | ArmPat::Member(span, _, _, _) => *span,
        }
    }
}
