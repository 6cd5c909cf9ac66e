//! What a type is, without its parts.

/// What a type is, without its parts, where all names are expanded.
#[derive(Clone, Copy, Debug, PartialEq, Eq)]
pub enum Shape {
    /// `()`, `bool` or an integer.
    Single,
    /// A sequence.
    Sequence,
    /// An array of so many items.
    Array(u128),
    /// A tuple.
    Tuple,
    /// An `Option` or a `Result`.
    Choice,
    /// A struct or an enum, and whether its values are copied.
    Declared(bool),
}
