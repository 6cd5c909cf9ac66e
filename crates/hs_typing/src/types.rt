//! What a type is made of.

ghost use Rattle.std.specs.Prelude.{◌≡◌};
ghost use Rattle.std.specs.Option.{option_copied};
ghost use Rattle.hs_typing.specs.Types as t;

use hs_values::{Types, ValType};
use hs_words::IntTy;

/// The kind of an integer type.
pub fn kind_of(ty: &ValType) -> Option<IntTy>
    ensures { result ≡ t.kind_of ty.now }
{
    match ty {
        ValType::Int(kind) => Some(*kind),
        _ => None,
    }
}

/// The types of a tuple's parts.
pub fn parts_of(ty: &ValType) -> Option<&Types>
    ensures { option_copied result ≡ t.parts_of ty.now }
{
    match ty {
        ValType::Tuple(parts) => Some(parts),
        _ => None,
    }
}

/// The type of an option's part.
pub fn some_of(ty: &ValType) -> Option<&ValType>
    ensures { option_copied result ≡ t.some_of ty.now }
{
    match ty {
        ValType::Option(part) => Some(part.get()),
        _ => None,
    }
}

/// The good type of a result.
pub fn good_of(ty: &ValType) -> Option<&ValType>
    ensures { option_copied result ≡ t.good_of ty.now }
{
    match ty {
        ValType::Result(good, _) => Some(good.get()),
        _ => None,
    }
}

/// The bad type of a result.
pub fn bad_of(ty: &ValType) -> Option<&ValType>
    ensures { option_copied result ≡ t.bad_of ty.now }
{
    match ty {
        ValType::Result(_, bad) => Some(bad.get()),
        _ => None,
    }
}

/// Whether two types are one.
pub fn is_same(ty: &ValType, other: &ValType) -> bool
    ensures { result ≡ t.same_type ty.now other.now }
{
    ty.same(other)
}
