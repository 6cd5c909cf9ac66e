//! The locals in scope.

ghost use Rattle.std.specs.Prelude.{◌≡◌, [], Some, None, length, MatchOption, OnOk};
ghost use Rattle.hs_front.specs.Scope.{found, bound};

use hs_base::memory::NoMemory;
use indexmap::IndexMap;
use sqlite_items::Items;
use std::alloc::Global;
use std::marker::Model;

/// A local: its name, and whether it may be assigned.
#[derive(Drop)]
pub struct Local<'a> {
    name: &'a [u8],
    mutable: bool,
}

/// The number of a local, and whether it may be assigned.
#[derive(Clone, Copy)]
pub struct Found {
    pub number: usize,
    pub mutable: bool,
}

/// The locals in scope, and the latest of each name. A local's number is how many were bound before it.
#[derive(Drop)]
pub struct Scope<'a> {
    locals: Items<Local<'a>>,
    latest: IndexMap<&'a [u8], Found>,
}

impl<'a> Model for Scope<'a> {
    ghost use Rattle.hs_front.specs.Scope.{Scope as Locals};

    ghost Value = { Locals };

    ghost use Rattle.hs_front.specs.Locals.{scope_of, Indexes};

    ghost view = { λ scope. scope_of scope.locals };

    ghost invariant = { λ scope. Indexes scope.locals scope.latest };
}

impl<'a> Scope<'a> {
    /// No local.
    pub fn new(alloc: Global) -> Scope<'a>
        ensures { result ≡ [] }
    {
        Scope {
            locals: Items::new(alloc),
            latest: IndexMap::new(alloc),
        }
    }

    /// How many locals are in scope.
    pub fn len(&self) -> usize
        ensures { result ≡ length self.now }
    {
        self.locals.len()
    }

    /// Binds one more local.
    pub fn bind(&mut self, mutable: bool, name: &'a [u8]) -> Result<(), NoMemory>
        ensures { OnOk result (self.new ≡ bound mutable name.now self.old) }
    {
        let number = self.locals.len();
        self.locals.push(Local { name, mutable })?;
        match self.latest.insert(name, Found { number, mutable }) {
            Ok(_) => Ok(()),
            Err(_) => {
                self.locals.pop();
                Err(NoMemory)
            }
        }
    }

    /// The latest local of this name.
    pub fn find(&self, name: &[u8]) -> Option<Found>
        ensures { MatchOption result (found name.now self.now ≡ None) (λ local. found name.now self.now ≡ Some (local.number, local.mutable)) }
    {
        self.latest.get(name).copied()
    }
}
