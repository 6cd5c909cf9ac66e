//! Types that are held once by all that have them.

ghost use Rattle.std.specs.Prelude.{◌≡◌, IfOk};
ghost use Rattle.hs_typing.specs.Views as v;

use hs_base::memory::NoMemory;
use hs_tree::shared::Shared;
use hs_values::ValType;
use std::alloc::Global;

/// A type, which all that have it share.
#[derive(Drop)]
pub struct SharedType {
    whole: Shared<ValType>,
}

impl SharedType {
    /// A type, to be shared.
    ///
    /// # Errors
    ///
    /// `NoMemory` only for want of memory.
    pub fn new(alloc: Global, ty: ValType) -> Result<SharedType, NoMemory>
        ensures { IfOk result (λ made. v.type_of made ≡ ty) }
    {
        Ok(SharedType {
            whole: Shared::new(alloc, ty)?,
        })
    }

    /// Another type equal to this one, to be shared.
    ///
    /// # Errors
    ///
    /// `NoMemory` only for want of memory.
    pub fn copied(alloc: Global, ty: &ValType) -> Result<SharedType, NoMemory>
        ensures { IfOk result (λ made. v.type_of made ≡ ty.now) }
    {
        SharedType::new(alloc, ty.copy(alloc)?)
    }

    /// The type itself.
    pub fn get(&self) -> &ValType
        ensures { result.now ≡ v.type_of self.now }
    {
        self.whole.get()
    }

    /// The same type for one more that has it.
    ///
    /// # Errors
    ///
    /// `NoMemory` only for want of memory.
    pub fn share(&self) -> Result<SharedType, NoMemory>
        ensures { IfOk result (λ made. v.type_of made ≡ v.type_of self.now) }
    {
        Ok(SharedType {
            whole: self.kept()?,
        })
    }

    /// The same type, to be held by a tree.
    ///
    /// # Errors
    ///
    /// `NoMemory` only for want of memory.
    pub fn kept(&self) -> Result<Shared<ValType>, NoMemory>
        ensures { IfOk result (λ made. made ≡ v.type_of self.now) }
    {
        self.whole.share()
    }
}
