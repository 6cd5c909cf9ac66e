//! Where a type's name leads.

/// Where a type's name leads.
#[derive(Clone, Copy, Debug, PartialEq, Eq)]
pub enum Way {
    /// To the struct or the enum of this number.
    Data(usize),
    /// To the alias of this number.
    Alias(usize),
    /// To any other type, or to none.
    Nowhere,
}
