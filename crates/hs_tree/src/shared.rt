//! Values with several owners.

ghost use Rattle.std.specs.Prelude.{◌≡◌, IfOk};

use hs_base::memory::NoMemory;
use std::alloc::Global;
use std::marker::Model;
use std::rc::Rc;

/// A value that several owners hold and none changes, which contracts see as the value. It is let go with its last owner.
#[derive(Drop)]
pub struct Shared<T> {
    held: Rc<T>,
}

impl<T> Model for Shared<T> {
    ghost Value = { T };

    ghost coded = { T.code };

    ghost view = { λ shared. shared.held.value };
}

impl<T> Shared<T> {
    /// The value.
    pub fn get(&self) -> &T
        ensures { result.now ≡ self.now }
    {
        self.held.as_ref()
    }
}

impl<T: Drop> Shared<T> {
    /// A value with one owner.
    ///
    /// # Errors
    ///
    /// `NoMemory` only for want of memory.
    pub fn new(alloc: Global, value: T) -> Result<Shared<T>, NoMemory>
        ensures { IfOk result (λ shared. shared ≡ value) }
    {
        Ok(Shared {
            held: Rc::new(alloc, value)?,
        })
    }

    /// The same value for one more owner.
    ///
    /// # Errors
    ///
    /// `NoMemory` only for want of memory, or for `usize::MAX` owners.
    pub fn share(&self) -> Result<Shared<T>, NoMemory>
        ensures { IfOk result (λ shared. shared ≡ self.now) }
    {
        Ok(Shared {
            held: self.held.clone()?,
        })
    }
}
