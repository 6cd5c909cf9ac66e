//! What the rules ask of types.

ghost use Rattle.std.specs.Prelude.{◌≡◌, ◌*◌};
ghost use Rattle.hs_syntax.specs.Height.{capped};
ghost use Rattle.hs_items.specs.Rules as u;
ghost use Rattle.hs_items.specs.Whole as whole;
ghost use Rattle.hs_items.specs.Walk as w;

use crate::shape::Shape;

/// The greatest height of a type.
const HEIGHT: u32 = 48;

/// The greatest number of nodes of a type.
const NODES: u32 = 4096;

/// The greatest number of items of an array, inner items counted.
const ITEMS: u128 = 65_536;

/// What the rules ask of a type, or of the types of a row, with all names expanded. Numbers are as far as 32 bits hold them.
#[derive(Clone, Copy, Debug, PartialEq, Eq)]
pub struct Facts {
    /// One more than the height of its highest part.
    pub height: u32,
    /// It and the nodes of its parts.
    pub nodes: u32,
    /// The items that it is among those of an array.
    pub items: u32,
    /// Whether a read of a local copies its values.
    pub copied: bool,
    /// Whether it has a zero value.
    pub has_zero: bool,
}

/// A number as far as 32 bits hold it.
#[tactic(auto, unfolding(hs_syntax::specs::Height::capped))]
fn limited(number: u128) -> u32
    ensures { result ≡ capped number }
{
    match u32::try_from(number) {
        Ok(number) => number,
        Err(_) => u32::MAX,
    }
}

impl Facts {
    /// Of no types.
    pub fn nothing() -> Facts
        ensures { result ≡ w.nothing }
    {
        Facts {
            height: 0,
            nodes: 0,
            items: 0,
            copied: true,
            has_zero: true,
        }
    }

    /// Of a type without parts.
    pub fn single() -> Facts
        ensures { result ≡ w.single }
    {
        Facts::nothing().over(Shape::Single)
    }

    /// Of the types of this row and another.
    #[tactic(auto, unfolding(crate::specs::Walk::joined, hs_syntax::specs::Height::capped))]
    pub fn joined(self, other: Facts) -> Facts
        ensures { result ≡ w.joined self other }
    {
        Facts {
            height: self.height.max(other.height),
            nodes: self.nodes.saturating_add(other.nodes),
            items: self.items.saturating_add(other.items),
            copied: self.copied && other.copied,
            has_zero: self.has_zero && other.has_zero,
        }
    }

    /// The items of a type of this shape over the types of this row.
    #[tactic(auto, unfolding(hs_syntax::specs::Height::capped))]
    fn items_over(self, shape: Shape) -> u32
        ensures { result ≡ w.items_limited shape self.items }
    {
        match shape {
            Shape::Array(length) => limited(length).saturating_mul(self.items),
            Shape::Tuple => self.items,
            Shape::Single | Shape::Sequence | Shape::Choice | Shape::Declared(_) => 1,
        }
    }

    /// Whether a type of this shape over the types of this row is copied.
    fn copied_over(self, shape: Shape) -> bool
        ensures { result ≡ whole.copied_over shape self.copied }
    {
        match shape {
            Shape::Single | Shape::Array(_) => true,
            Shape::Sequence => false,
            Shape::Tuple | Shape::Choice => self.copied,
            Shape::Declared(copies) => copies,
        }
    }

    /// Whether a type of this shape over the types of this row has a zero value.
    fn zero_over(self, shape: Shape) -> bool
        ensures { result ≡ whole.zero_over shape self.has_zero }
    {
        match shape {
            Shape::Single | Shape::Sequence | Shape::Array(_) => true,
            Shape::Tuple => self.has_zero,
            Shape::Choice | Shape::Declared(_) => false,
        }
    }

    /// Of a type of this shape over the types of this row.
    #[tactic(auto, unfolding(crate::specs::Walk::over, hs_syntax::specs::Height::capped))]
    pub fn over(self, shape: Shape) -> Facts
        ensures { result ≡ w.over shape self }
    {
        Facts {
            height: self.height.saturating_add(1),
            nodes: self.nodes.saturating_add(1),
            items: self.items_over(shape),
            copied: self.copied_over(shape),
            has_zero: self.zero_over(shape),
        }
    }

    /// Whether the type is too high or has too many nodes.
    pub fn is_too_great(self) -> bool
        ensures { result ≡ u.too_great self }
    {
        self.height > HEIGHT || self.nodes > NODES
    }

    /// Whether it is no item of an array.
    pub fn is_unfit(self) -> bool
        ensures { result ≡ u.unfit self }
    {
        !(self.copied && self.has_zero)
    }

    /// Whether an array of so many items of this type has none or too many, inner items counted.
    pub fn is_wrong_count(self, length: u128) -> bool
        ensures { result ≡ u.wrong_count (length * self.items) }
    {
        match length.checked_mul(u128::from(self.items)) {
            Some(items) => !(1 <= items && items <= ITEMS),
            None => true,
        }
    }
}
