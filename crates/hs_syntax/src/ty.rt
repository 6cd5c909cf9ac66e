//! Types.

ghost use Rattle.std.specs.Prelude.{◌≡◌};
ghost use Rattle.hs_syntax.specs.Spans.{span_of_ty};

use crate::span::Span;
use sqlite_items::Items;

/// A type.
#[derive(Drop)]
pub enum Ty {
    /// A name.
    Name(Span),
    /// `()`.
    Unit(Span),
    /// `(T, U)`: two types or more.
    Tuple(Span, Items<Ty>),
    /// `N<T, U>`: a name, and one type or more. A `>>` that closes two such types ends both.
    Applied(Span, Span, Items<Ty>),
}

impl Ty {
    /// The bytes that the type stands for.
    #[tactic(auto, unfolding(crate::specs::Spans::span_of_ty))]
    pub fn span(&self) -> Span
        ensures { result ≡ span_of_ty self.now }
    {
        match self {
            Ty::Name(span) | Ty::Unit(span) | Ty::Tuple(span, _) | Ty::Applied(span, _, _) => *span,
        }
    }
}
