//! Values, and lists of them.

ghost use Rattle.std.specs.Prelude.{◌≡◌, ◌↔◌, ◌∷◌, [], IsTrue, IfOk, map, option_map};
ghost use Rattle.hs_values.specs.declared.types.ValType.{out-ValType};
ghost use Rattle.hs_values.specs.Kinds.{is_kind};
ghost use Rattle.std.specs.Option.{option_copied};
ghost use Rattle.hs_values.specs.Fits.{Fits, fits, all_fit, each_fits, items_fit, parts_fit, ctor_parts, kind_at, array_in, parts_in};

use crate::types::{TypeDef, TypeKind, TypeTable, Types, ValType};
use hs_base::memory::NoMemory;
use hs_words::{IntTy, Word};
use sqlite_items::Items;
use std::alloc::Global;

/// The greatest length of a sequence.
pub const MAX_LENGTH: usize = 16_777_216;

/// Whose constructor a value was made by.
#[derive(Clone, Copy, Debug, PartialEq, Eq)]
pub enum Sort {
    /// Of an option: `None` is number 0 and `Some` is number 1.
    Option,
    /// Of a result: `Ok` is number 0 and `Err` is number 1.
    Result,
    /// Of the type at this place of the table, numbered from 0 in the order of its constructors.
    Named(u32),
}

/// Values in order.
pub type Values = Items<Value>;

/// A value.
#[derive(Drop)]
pub enum Value {
    /// The one value of the unit type.
    Unit,
    /// A truth value.
    Bool(bool),
    /// A machine integer.
    Int(Word),
    /// The items of a sequence or of an array.
    Seq(Values),
    /// The parts of a tuple.
    Tuple(Values),
    /// The sort and the number of a constructor, and its parts.
    Ctor(Sort, u32, Values),
}

impl Value {
    /// Another value equal to this one. The recursion goes as deep as the value.
    ///
    /// # Errors
    ///
    /// `NoMemory` only for want of memory.
    #[cycle(copy)]
    pub fn copy(&self, alloc: Global) -> Result<Value, NoMemory>
        ensures { IfOk result (λ copy. copy ≡ self.now) }
    {
        match self {
            Value::Unit => Ok(Value::Unit),
            Value::Bool(truth) => Ok(Value::Bool(*truth)),
            Value::Int(word) => Ok(Value::Int(*word)),
            Value::Seq(items) => Ok(Value::Seq(copy_all(alloc, items)?)),
            Value::Tuple(parts) => Ok(Value::Tuple(copy_all(alloc, parts)?)),
            Value::Ctor(sort, number, parts) => {
                Ok(Value::Ctor(*sort, *number, copy_all(alloc, parts)?))
            }
        }
    }

    /// Whether two values are equal. Numbers of two kinds are not. It takes no memory, and the recursion goes as deep as the
    /// less deep of the two.
    #[cycle(same)]
    pub fn same(&self, other: &Value) -> bool
        ensures { IsTrue result ↔ (self.now ≡ other.now) }
    {
        match (self, other) {
            (Value::Unit, Value::Unit) => true,
            (Value::Bool(a), Value::Bool(b)) => *a == *b,
            (Value::Int(a), Value::Int(b)) => a.eq(b),
            (Value::Seq(a), Value::Seq(b)) => same_all(a, b),
            (Value::Tuple(a), Value::Tuple(b)) => same_all(a, b),
            (Value::Ctor(sort, number, a), Value::Ctor(other_sort, other_number, b)) => {
                *sort == *other_sort && *number == *other_number && same_all(a, b)
            }
            _ => false,
        }
    }

    /// Whether the value is of the type: of its shape, each number in the range of its kind, an array of its declared length, a
    /// sequence of at most 16,777,216 items, a constructor of its type with parts of their types. A type with a name is looked up
    /// in the table, and no value is of one that the table lacks. It takes no memory, and the recursion goes as deep as the value.
    #[cycle(fits)]
    pub fn fits(&self, ty: &ValType, table: &TypeTable) -> bool
        ensures { IsTrue result ↔ Fits self.now ty.now table.now }
    {
        match (self, ty) {
            (Value::Unit, ValType::Unit) => true,
            (Value::Bool(_), ValType::Bool) => true,
            (Value::Int(word), ValType::Int(kind)) => same_kind(word.ty(), *kind),
            (Value::Seq(items), _) => items_of(items, ty, table),
            (Value::Tuple(parts), ValType::Tuple(types)) => each_of(parts, types, table),
            (Value::Ctor(sort, number, parts), _) => ctor_of(parts, *sort, *number, ty, table),
            _ => false,
        }
    }
}

/// Copies of the values, in order.
#[cycle(copy)]
fn copy_all(alloc: Global, values: &Values) -> Result<Values, NoMemory>
    ensures { IfOk result (λ copy. copy ≡ values.now) }
{
    let mut copies = Items::new(alloc);
    for value in values.as_slice() {
        copies.push(value.copy(alloc)?)?;
    }
    Ok(copies)
}

/// Whether two lists of values are equal.
#[cycle(same)]
fn same_all(a: &Values, b: &Values) -> bool
    ensures { IsTrue result ↔ (a.now ≡ b.now) }
{
    let a = a.as_slice();
    let b = b.as_slice();
    if a.len() != b.len() {
        return false;
    }
    for i in 0..a.len() {
        if !a[i].same(&b[i]) {
            return false;
        }
    }
    true
}

/// Whether two kinds are the same.
fn same_kind(a: IntTy, b: IntTy) -> bool
    ensures { result ≡ is_kind a b }
{
    a == b
}

/// The length and the items' type of the array at this place of the table.
fn array_at(table: &TypeTable, number: u32) -> Option<(usize, &ValType)>
    ensures { option_map (λ a. (a.0, a.1.now)) result ≡ array_in (kind_at table.now number) }
{
    match table.get(number as usize) {
        Some(
            TypeDef {
                kind: TypeKind::Array(length, item),
                ..
            },
        ) => Some((*length as usize, item)),
        _ => None,
    }
}

/// The types of the parts of a constructor of the type at this place of the table.
fn ctor_at(table: &TypeTable, named: u32, number: u32) -> Option<&Types>
    ensures { option_copied result ≡ parts_in (kind_at table.now named) number }
{
    match table.get(named as usize) {
        Some(
            TypeDef {
                kind: TypeKind::Ctors(ctors),
                ..
            },
        ) => match ctors.get(number as usize) {
            Some((_, types)) => Some(types),
            None => None,
        },
        _ => None,
    }
}

/// Whether the items are those of a sequence or an array of the type.
#[cycle(fits)]
fn items_of(items: &Values, ty: &ValType, table: &TypeTable) -> bool
    ensures { result ≡ items_fit table.now (map (fits table.now) items.now) (out-ValType ty.now) }
{
    match ty {
        ValType::Seq(item) => items.len() <= MAX_LENGTH && all_of(items, item.get(), table),
        ValType::Named(number) => match array_at(table, *number) {
            Some((length, item)) => items.len() == length && all_of(items, item, table),
            None => false,
        },
        _ => false,
    }
}

/// Whether the parts are those of a constructor of the type.
#[cycle(fits)]
fn ctor_of(parts: &Values, sort: Sort, number: u32, ty: &ValType, table: &TypeTable) -> bool
    ensures { result ≡ parts_fit (map (fits table.now) parts.now) (ctor_parts table.now (out-ValType ty.now) sort number) }
{
    match (sort, ty) {
        (Sort::Option, ValType::Option(item)) => match number {
            0 => parts.is_empty(),
            1 => one_of(parts, item.get(), table),
            _ => false,
        },
        (Sort::Result, ValType::Result(good, bad)) => match number {
            0 => one_of(parts, good.get(), table),
            1 => one_of(parts, bad.get(), table),
            _ => false,
        },
        (Sort::Named(owner), ValType::Named(named)) if owner == *named => {
            match ctor_at(table, *named, number) {
                Some(types) => each_of(parts, types, table),
                None => false,
            }
        }
        _ => false,
    }
}

/// Whether there is one part, of the type.
#[cycle(fits)]
fn one_of(parts: &Values, ty: &ValType, table: &TypeTable) -> bool
    ensures { result ≡ each_fits (map (fits table.now) parts.now) (ty.now ∷ []) }
{
    parts.len() == 1 && all_of(parts, ty, table)
}

/// Whether each item is of the type.
#[cycle(fits)]
fn all_of(items: &Values, ty: &ValType, table: &TypeTable) -> bool
    ensures { result ≡ all_fit (map (fits table.now) items.now) ty.now }
{
    for item in items.as_slice() {
        if !item.fits(ty, table) {
            return false;
        }
    }
    true
}

/// Whether the parts are as many as the types, and each is of the type at its place.
#[cycle(fits)]
fn each_of(parts: &Values, types: &Types, table: &TypeTable) -> bool
    ensures { result ≡ each_fits (map (fits table.now) parts.now) types.now }
{
    let parts = parts.as_slice();
    let types = types.as_slice();
    if parts.len() != types.len() {
        return false;
    }
    for i in 0..parts.len() {
        if !parts[i].fits(&types[i], table) {
            return false;
        }
    }
    true
}
