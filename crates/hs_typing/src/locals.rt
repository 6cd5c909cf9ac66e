//! The locals that are known at a place: their types, and how each may be used.

ghost use Rattle.std.specs.Prelude.{◌≡◌, List, [], ◌∷◌, ◌++◌, length, option_map, OnOk, OnErr};
ghost use Rattle.hs_typing.specs.Locals as l;
ghost use Rattle.hs_typing.specs.Held as h;

use crate::shared::SharedType;
use crate::sorts::Sort;
use hs_base::memory::NoMemory;
use sqlite_items::Items;
use std::alloc::Global;

/// A local, by its number in its function: its type, and what it is.
#[derive(Drop)]
pub struct Entry {
    pub number: usize,
    pub ty: SharedType,
    pub sort: Sort,
}

/// The type of the local of a number.
#[derive(Drop)]
pub struct Typed {
    pub number: usize,
    pub ty: SharedType,
}

/// The locals that are known, in the order in which they were bound, and the types of all that ever were. They are looked for from
/// the latest on: a function has no more than 4,096.
#[derive(Drop)]
pub struct Locals {
    bound: Items<Entry>,
    typed: Items<Typed>,
}

impl Locals {
    /// None.
    pub fn new(alloc: Global) -> Locals
        ensures scope { h.scope_of result ≡ [] }
        ensures typed { h.typed_of result ≡ [] }
    {
        Locals {
            bound: Items::new(alloc),
            typed: Items::new(alloc),
        }
    }

    /// How many are known.
    pub fn len(&self) -> usize
        ensures { result ≡ length (h.scope_of self.now) }
    {
        self.bound.len()
    }

    /// The latest of a number.
    pub fn find(&self, number: usize) -> Option<&Entry>
        ensures { option_map (λ found. h.entry_of found.now) result ≡ l.entry_of number (h.scope_of self.now) }
    {
        let bound = self.bound.as_slice();
        let count = bound.len();
        for back in 0..count {
            let entry = &bound[count - 1 - back];
            if entry.number == number {
                return Some(entry);
            }
        }
        None
    }

    /// One more is known.
    ///
    /// # Errors
    ///
    /// `NoMemory` only for want of memory; nothing is changed then.
    pub fn bind(&mut self, entry: Entry) -> Result<(), NoMemory>
        ensures ok { OnOk result (h.scope_of self.new ≡ h.entry_of entry ∷ h.scope_of self.old) }
        ensures typed { OnOk result (h.typed_of self.new ≡ h.typed_of self.old ++ h.type_in entry ∷ []) }
        ensures err { OnErr result (self.new ≡ self.old) }
    {
        let typed = Typed {
            number: entry.number,
            ty: entry.ty.share()?,
        };
        self.typed.push(typed)?;
        match self.bound.push(entry) {
            Ok(()) => Ok(()),
            Err(failed) => {
                self.typed.pop();
                Err(failed)
            }
        }
    }

    /// The latest is no longer known.
    fn unbind(&mut self)
        ensures scope { h.scope_of self.new ≡ l.without_latest (h.scope_of self.old) }
        ensures typed { h.typed_of self.new ≡ h.typed_of self.old }
    {
        self.bound.pop();
    }

    /// Only the oldest are known still, so many of them.
    pub fn leave(&mut self, kept: usize)
        ensures kept { h.scope_of self.new ≡ l.oldest kept (h.scope_of self.old) }
        ensures outer { (inner outer : List l.Entry) → h.scope_of self.old ≡ inner ++ outer → kept ≡ length outer → h.scope_of self.new ≡ outer }
        ensures typed { h.typed_of self.new ≡ h.typed_of self.old }
    {
        while self.len() > kept {
            self.unbind();
        }
    }

    /// The types of all that ever were known, in the order in which they were bound.
    pub fn into_typed(self) -> Items<Typed>
        ensures { h.all_typed result ≡ h.typed_of self }
    {
        self.typed
    }
}
