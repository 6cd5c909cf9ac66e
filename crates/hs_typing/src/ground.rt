//! What is known of types at every place of a file.

ghost use Rattle.std.specs.Prelude.{◌≡◌, [], ◌∷◌, IfOk};
ghost use Rattle.hs_typing.specs.Types as t;
ghost use Rattle.hs_typing.specs.Views as v;

use crate::kinds::Kinds;
use crate::shared::SharedType;
use crate::table::Table;
use hs_base::memory::NoMemory;
use hs_values::ValType;
use hs_words::IntTy;
use sqlite_items::{Boxed, Items};
use std::alloc::Global;

/// The types that are named again and again, and those with names.
#[derive(Clone, Copy)]
pub struct Ground<'a> {
    pub alloc: Global,
    pub kinds: &'a Kinds,
    pub table: Table<'a>,
}

impl<'a> Ground<'a> {
    /// A type, to be shared.
    ///
    /// # Errors
    ///
    /// `NoMemory` only for want of memory.
    pub fn shared(&self, ty: ValType) -> Result<SharedType, NoMemory>
        ensures { IfOk result (λ made. v.type_of made ≡ ty) }
    {
        SharedType::new(self.alloc, ty)
    }

    /// Another type equal to this one, to be shared.
    ///
    /// # Errors
    ///
    /// `NoMemory` only for want of memory.
    pub fn copied(&self, ty: &ValType) -> Result<SharedType, NoMemory>
        ensures { IfOk result (λ made. v.type_of made ≡ ty.now) }
    {
        SharedType::copied(self.alloc, ty)
    }

    /// The type of integers of a kind.
    ///
    /// # Errors
    ///
    /// `NoMemory` only for want of memory.
    pub fn int(&self, kind: IntTy) -> Result<SharedType, NoMemory>
        ensures { IfOk result (λ made. v.type_of made ≡ t.int kind) }
    {
        self.shared(ValType::Int(kind))
    }

    /// The type of truth values.
    ///
    /// # Errors
    ///
    /// `NoMemory` only for want of memory.
    pub fn truth(&self) -> Result<SharedType, NoMemory>
        ensures { IfOk result (λ made. v.type_of made ≡ t.bool) }
    {
        self.shared(ValType::Bool)
    }

    /// The type with one value.
    ///
    /// # Errors
    ///
    /// `NoMemory` only for want of memory.
    pub fn unit(&self) -> Result<SharedType, NoMemory>
        ensures { IfOk result (λ made. v.type_of made ≡ t.unit) }
    {
        self.shared(ValType::Unit)
    }

    /// The type of sequences of items of a type.
    ///
    /// # Errors
    ///
    /// `NoMemory` only for want of memory.
    pub fn seq_of(&self, item: ValType) -> Result<SharedType, NoMemory>
        ensures { IfOk result (λ made. v.type_of made ≡ t.seq item) }
    {
        self.shared(ValType::Seq(Boxed::new(self.alloc, item)?))
    }

    /// The type of a chunk of items of a type: how many items it has, and the sequence of them.
    ///
    /// # Errors
    ///
    /// `NoMemory` only for want of memory.
    pub fn chunk_of(&self, item: &ValType) -> Result<SharedType, NoMemory>
        ensures { IfOk result (λ made. v.type_of made ≡ t.tuple (t.size ∷ t.seq item.now ∷ [])) }
    {
        let mut parts = Items::new(self.alloc);
        parts.push(ValType::Int(IntTy::PUsize))?;
        let item = item.copy(self.alloc)?;
        parts.push(ValType::Seq(Boxed::new(self.alloc, item)?))?;
        self.shared(ValType::Tuple(parts))
    }
}
