//! Which types are copied.

ghost use Rattle.std.specs.Prelude.{◌≡◌, map};
ghost use Rattle.std.specs.List.{list_all};
ghost use Rattle.std.specs.Option.{option_copied};
ghost use Rattle.hs_tree.specs.Types.{copied, copies_named};

use hs_values::{TypeDef, TypeKind, TypeTable, Types, ValType};

/// Whether a type that is declared is copied.
fn is_declared_copied(def: Option<&TypeDef>) -> bool
    ensures { result ≡ copies_named (option_copied def.entry) }
{
    match def {
        None => false,
        Some(def) => match def.kind {
            TypeKind::Array(_, _) => true,
            TypeKind::Ctors(_) => def.copies,
        },
    }
}

/// Whether a read by value of a local of this type leaves its value there. The recursion goes as deep as the type.
#[cycle(copied)]
pub fn is_copied(ty: &ValType, table: &TypeTable) -> bool
    ensures { result ≡ copied table.now ty.now }
{
    match ty {
        ValType::Unit | ValType::Bool | ValType::Int(_) => true,
        ValType::Seq(_) => false,
        ValType::Named(number) => is_declared_copied(table.get(*number as usize)),
        ValType::Tuple(parts) => are_copied(parts, table),
        ValType::Option(part) => is_copied(part.get(), table),
        ValType::Result(good, bad) => {
            is_copied(good.get(), table) && is_copied(bad.get(), table)
        }
    }
}

/// Whether all these types are copied.
#[cycle(copied)]
fn are_copied(types: &Types, table: &TypeTable) -> bool
    ensures { result ≡ list_all (λ t. t) (map (copied table.now) types.now) }
{
    for ty in types.as_slice() {
        if !is_copied(ty, table) {
            return false;
        }
    }
    true
}
