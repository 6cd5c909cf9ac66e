//! Types, and the table of the types that have names.

ghost use Rattle.std.specs.Prelude.{◌≡◌, ◌↔◌, IsTrue, IfOk};

use hs_base::memory::NoMemory;
use hs_base::name::Name;
use hs_words::IntTy;
use sqlite_items::{Boxed, Items};
use std::alloc::Global;

/// The type of a value. A type that has a name stands in a table and is told by its place there.
#[derive(Drop)]
pub enum ValType {
    /// The type with one value.
    Unit,
    /// The truth values.
    Bool,
    /// The machine integers of one kind.
    Int(IntTy),
    /// The sequences of items of one type, of any length up to the greatest.
    Seq(Boxed<ValType>),
    /// The type at this place of the table.
    Named(u32),
    /// The tuples with parts of these types, in order.
    Tuple(Types),
    /// Nothing, or one value of the type.
    Option(Boxed<ValType>),
    /// A good value of the first type, or a bad one of the second.
    Result(Boxed<ValType>, Boxed<ValType>),
}

/// Types in order.
pub type Types = Items<ValType>;

/// What a type with a name is.
#[derive(Drop)]
pub enum TypeKind {
    /// The arrays of so many items of one type.
    Array(u32, ValType),
    /// The values that one of the constructors makes.
    Ctors(Ctors),
}

/// Constructors in the order of their numbers, which begin at 0: the name of each and the types of its parts.
pub type Ctors = Items<(Name, Types)>;

/// A type with a name.
#[derive(Drop)]
pub struct TypeDef {
    /// Its name.
    pub name: Name,
    /// Whether a read of a local copies its values, where it would else take them out.
    pub copies: bool,
    /// What it is.
    pub kind: TypeKind,
}

/// The types with names, in the order of their numbers.
pub type TypeTable = Items<TypeDef>;

impl ValType {
    /// Another type equal to this one. The recursion goes as deep as the type.
    ///
    /// # Errors
    ///
    /// `NoMemory` only for want of memory.
    #[cycle(copy)]
    pub fn copy(&self, alloc: Global) -> Result<ValType, NoMemory>
        ensures { IfOk result (λ copy. copy ≡ self.now) }
    {
        match self {
            ValType::Unit => Ok(ValType::Unit),
            ValType::Bool => Ok(ValType::Bool),
            ValType::Int(kind) => Ok(ValType::Int(*kind)),
            ValType::Seq(item) => Ok(ValType::Seq(copy_boxed(alloc, item)?)),
            ValType::Named(number) => Ok(ValType::Named(*number)),
            ValType::Tuple(parts) => Ok(ValType::Tuple(copy_all(alloc, parts)?)),
            ValType::Option(item) => Ok(ValType::Option(copy_boxed(alloc, item)?)),
            ValType::Result(good, bad) => {
                let good = copy_boxed(alloc, good)?;
                Ok(ValType::Result(good, copy_boxed(alloc, bad)?))
            }
        }
    }

    /// Whether two types are equal. Types with names are where their numbers are. It takes no memory, and the recursion goes as
    /// deep as the less deep of the two.
    #[cycle(same)]
    pub fn same(&self, other: &ValType) -> bool
        ensures { IsTrue result ↔ (self.now ≡ other.now) }
    {
        match (self, other) {
            (ValType::Unit, ValType::Unit) => true,
            (ValType::Bool, ValType::Bool) => true,
            (ValType::Int(a), ValType::Int(b)) => *a == *b,
            (ValType::Seq(a), ValType::Seq(b)) => a.get().same(b.get()),
            (ValType::Named(a), ValType::Named(b)) => *a == *b,
            (ValType::Tuple(a), ValType::Tuple(b)) => same_all(a, b),
            (ValType::Option(a), ValType::Option(b)) => a.get().same(b.get()),
            (ValType::Result(a, c), ValType::Result(b, d)) => {
                a.get().same(b.get()) && c.get().same(d.get())
            }
            _ => false,
        }
    }
}

/// A copy of the type, in a box of its own.
#[cycle(copy)]
fn copy_boxed(alloc: Global, ty: &Boxed<ValType>) -> Result<Boxed<ValType>, NoMemory>
    ensures { IfOk result (λ copy. copy ≡ ty.now) }
{
    Boxed::new(alloc, ty.get().copy(alloc)?)
}

/// Copies of the types, in order.
#[cycle(copy)]
fn copy_all(alloc: Global, types: &Types) -> Result<Types, NoMemory>
    ensures { IfOk result (λ copy. copy ≡ types.now) }
{
    let mut copies = Items::new(alloc);
    for ty in types.as_slice() {
        copies.push(ty.copy(alloc)?)?;
    }
    Ok(copies)
}

/// Whether two lists of types are equal.
#[cycle(same)]
fn same_all(a: &Types, b: &Types) -> bool
    ensures { IsTrue result ↔ (a.now ≡ b.now) }
{
    let a = a.as_slice();
    let b = b.as_slice();
    if a.len() != b.len() {
        return false;
    }
    for i in 0..a.len() {
        if !a[i].same(&b[i]) {
            return false;
        }
    }
    true
}
