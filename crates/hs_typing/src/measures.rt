//! What is asked of types with all names expanded, as far as 32 bits hold it.

ghost use Rattle.std.specs.Prelude.{◌≡◌};
ghost use Rattle.hs_items.specs.Rules.{too_great};
ghost use Rattle.hs_items.specs.Walk.{limited};
ghost use Rattle.hs_items.specs.Whole.{Whole, facts_of};
ghost use Rattle.hs_items.specs.Whole as whole;

use hs_items::{Facts, Shape, facts_are_of_whole_types};

/// Of no types.
pub fn nothing() -> Facts
    ensures { result ≡ limited (facts_of whole.none) }
{
    facts_are_of_whole_types();
    Facts::nothing()
}

/// Of a type without parts.
pub fn single() -> Facts
    ensures { result ≡ limited (facts_of whole.single) }
{
    facts_are_of_whole_types();
    Facts::single()
}

/// Of the types of two rows.
pub fn joined(facts: Facts, more: Facts) -> Facts
    ensures { (row rest : Whole) → facts ≡ limited (facts_of row) → more ≡ limited (facts_of rest) → result ≡ limited (facts_of (whole.join row rest)) }
{
    facts_are_of_whole_types();
    facts.joined(more)
}

/// Of a type of this shape over the types of a row.
pub fn over(shape: Shape, parts: Facts) -> Facts
    ensures { (row : Whole) → parts ≡ limited (facts_of row) → result ≡ limited (facts_of (whole.node shape row)) }
{
    facts_are_of_whole_types();
    parts.over(shape)
}

/// Whether a type is too high or has too many nodes.
pub fn is_too_great(facts: Facts) -> bool
    ensures { (type : Whole) → facts ≡ limited (facts_of type) → result ≡ too_great (facts_of type) }
{
    facts_are_of_whole_types();
    facts.is_too_great()
}
