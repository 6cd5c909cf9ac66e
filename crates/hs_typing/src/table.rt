//! The types with names, and what the rules ask of types whose names are theirs.

ghost use Rattle.std.specs.Prelude.{◌≡◌, [], Some, IfOk, map, option_map, slice_get};
ghost use Rattle.std.specs.List.{list_any};
ghost use Rattle.std.specs.Option.{option_copied};
ghost use Rattle.hs_items.specs.Rules.{too_great};
ghost use Rattle.hs_items.specs.Walk.{limited};
ghost use Rattle.hs_items.specs.Whole as whole;
ghost use Rattle.hs_tree.specs.Types as y;
ghost use Rattle.hs_values.specs.Fits as f;
ghost use Rattle.hs_typing.specs.Types as t;

use crate::measures;
use hs_base::memory::NoMemory;
use hs_items::{Facts, Shape};
use hs_values::{TypeDef, TypeKind, Types, ValType};
use sqlite_items::{Items, at};
use std::alloc::Global;

/// Whether a secret kind occurs in the type of this number.
fn is_secret_at(secrets: &[bool], number: u32) -> bool
    ensures { result ≡ y.holds_at (slice_get secrets.now number) }
{
    match at(secrets, number as usize) {
        Some(is_secret) => *is_secret,
        None => false,
    }
}

/// Whether a secret kind occurs in a type, where of the types with names these have one or not.
#[cycle(secret)]
fn is_secret_in(secrets: &[bool], ty: &ValType) -> bool
    ensures { result ≡ y.secret_in secrets.now ty.now }
{
    match ty {
        ValType::Unit | ValType::Bool => false,
        ValType::Int(kind) => kind.secret(),
        ValType::Seq(item) => is_secret_in(secrets, item.get()),
        ValType::Named(number) => is_secret_at(secrets, *number),
        ValType::Tuple(parts) => is_any_secret_in(secrets, parts),
        ValType::Option(part) => is_secret_in(secrets, part.get()),
        ValType::Result(good, bad) => {
            is_secret_in(secrets, good.get()) || is_secret_in(secrets, bad.get())
        }
    }
}

/// Whether one occurs in any of these types.
#[cycle(secret)]
fn is_any_secret_in(secrets: &[bool], types: &Types) -> bool
    ensures { result ≡ list_any (y.secret_in secrets.now) types.now }
{
    for ty in types.as_slice() {
        if is_secret_in(secrets, ty) {
            return true;
        }
    }
    false
}

/// Whether one occurs in a type with a name.
fn is_secret_kind(secrets: &[bool], kind: &TypeKind) -> bool
    ensures { result ≡ y.secret_kind secrets.now kind.now }
{
    match kind {
        TypeKind::Array(_, item) => is_secret_in(secrets, item),
        TypeKind::Ctors(ctors) => {
            for ctor in ctors.as_slice() {
                if is_any_secret_in(secrets, &ctor.1) {
                    return true;
                }
            }
            false
        }
    }
}

/// Whether one occurs in each of the types with names, of which each has names of those before it alone.
///
/// # Errors
///
/// `NoMemory` only for want of memory.
pub fn secrets_of(alloc: Global, table: &[TypeDef]) -> Result<Items<bool>, NoMemory>
    ensures { IfOk result (λ secrets. secrets ≡ y.secrets_from [] table.now) }
{
    let mut secrets = Items::new(alloc);
    for entry in table {
        let is_secret = is_secret_kind(secrets.as_slice(), &entry.kind);
        secrets.push(is_secret)?;
    }
    Ok(secrets)
}

/// The number of items and the type of an item, where a type with a name is an array.
fn array_in(kind: &TypeKind) -> Option<(u32, &ValType)>
    ensures { option_map (λ found. (found.0, found.1.now)) result ≡ f.array_in (Some kind.now) }
{
    match kind {
        TypeKind::Array(length, item) => Some((*length, item)),
        TypeKind::Ctors(_) => None,
    }
}

/// The types with names, what the rules ask of each, and whether it has a secret part.
#[derive(Clone, Copy)]
pub struct Table<'a> {
    pub types: &'a [TypeDef],
    pub facts: &'a [Facts],
    pub secrets: &'a [bool],
    pub ghost facts_agree: { t.FactsAgree types.now facts.now },
    pub ghost secrets_agree: { secrets.now ≡ y.secrets_from [] types.now },
}

impl<'a> Table<'a> {
    /// What the rules ask of the type of this number.
    fn facts_at(&self, number: u32) -> Facts
        ensures { result ≡ limited (whole.facts_of (whole.entry self.now.types.now number)) }
    {
        match at(self.facts, number as usize) {
            Some(facts) => *facts,
            None => measures::nothing(),
        }
    }

    /// What the rules ask of a type.
    #[cycle(facts)]
    pub fn facts_of(&self, ty: &ValType) -> Facts
        ensures { result ≡ limited (t.asked_of self.now.types.now ty.now) }
    {
        match ty {
            ValType::Unit | ValType::Bool | ValType::Int(_) => measures::single(),
            ValType::Seq(item) => measures::over(Shape::Sequence, self.facts_of(item.get())),
            ValType::Named(number) => self.facts_at(*number),
            ValType::Tuple(parts) => measures::over(Shape::Tuple, self.facts_of_all(parts)),
            ValType::Option(part) => measures::over(Shape::Choice, self.facts_of(part.get())),
            ValType::Result(good, bad) => {
                let good = self.facts_of(good.get());
                measures::over(
                    Shape::Choice,
                    measures::joined(good, self.facts_of(bad.get())),
                )
            }
        }
    }

    /// What the rules ask of types in a row.
    #[cycle(facts)]
    fn facts_of_all(&self, types: &Types) -> Facts
        ensures { result ≡ limited (whole.facts_of (whole.row (map (whole.expanded self.now.types.now) types.now))) }
    {
        let types = types.as_slice();
        let mut row = measures::nothing();
        let count = types.len();
        for back in 0..count {
            row = measures::joined(self.facts_of(&types[count - 1 - back]), row);
        }
        row
    }

    /// Whether a type is too high or has too many nodes.
    pub fn is_too_great(&self, ty: &ValType) -> bool
        ensures { result ≡ too_great (t.asked_of self.now.types.now ty.now) }
    {
        measures::is_too_great(self.facts_of(ty))
    }

    /// Whether a read of a local of a type copies its value.
    pub fn is_copied(&self, ty: &ValType) -> bool
        ensures { result ≡ (t.asked_of self.now.types.now ty.now).copied }
    {
        self.facts_of(ty).copied
    }

    /// Whether a type has a zero value.
    pub fn has_zero(&self, ty: &ValType) -> bool
        ensures { result ≡ (t.asked_of self.now.types.now ty.now).has_zero }
    {
        self.facts_of(ty).has_zero
    }

    /// Whether a secret kind occurs in a type.
    pub fn has_secret(&self, ty: &ValType) -> bool
        ensures { result ≡ y.has_secrets self.now.types.now ty.now }
    {
        is_secret_in(self.secrets, ty)
    }

    /// What the type of this number is.
    fn kind_at(&self, number: u32) -> Option<&'a TypeKind>
        ensures { option_copied result ≡ f.kind_at self.now.types.now number }
    {
        Some(&at(self.types, number as usize)?.kind)
    }

    /// The number of items and the type of an item of an array type.
    pub fn array_of(&self, ty: &ValType) -> Option<(u32, &'a ValType)>
        ensures { option_map (λ found. (found.0, found.1.now)) result ≡ t.array_of self.now.types.now ty.now }
    {
        match ty {
            ValType::Named(number) => array_in(self.kind_at(*number)?),
            _ => None,
        }
    }

    /// The number of items of an array type.
    pub fn length_of(&self, ty: &ValType) -> Option<u32>
        ensures { result ≡ option_map (λ found. found.0) (t.array_of self.now.types.now ty.now) }
    {
        match self.array_of(ty) {
            Some((length, _)) => Some(length),
            None => None,
        }
    }

    /// The type of an item of a sequence or of an array.
    pub fn item_of<'b>(&self, ty: &'b ValType) -> Option<&'b ValType>
    where
        'a: 'b,
        ensures { option_copied result ≡ t.item_of self.now.types.now ty.now }
    {
        match ty {
            ValType::Seq(item) => Some(item.get()),
            _ => match self.array_of(ty) {
                Some((_, item)) => Some(item),
                None => None,
            },
        }
    }
}
