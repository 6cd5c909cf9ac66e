//! What items declare.

use hs_syntax::Span;

/// What a name is declared as.
#[derive(Clone, Copy, Debug, PartialEq, Eq)]
pub enum Sort {
    /// A constant.
    Constant,
    /// Another name of a type.
    Alias,
    /// A struct.
    Struct,
    /// An enum.
    Enum,
    /// A function.
    Function,
    /// An array type, of bytes or of other items.
    Array,
    /// The type of a field, the first name of `nat_mod!`.
    Field,
    /// The canvas of a field, the second name of `nat_mod!`. It stands for no type.
    Canvas,
}

/// A name that an item declares: the item's place in the file, from 0, and what the name is declared as.
#[derive(Clone, Copy, Debug, PartialEq, Eq)]
pub struct Declared {
    pub name: Span,
    pub item: usize,
    pub sort: Sort,
}
