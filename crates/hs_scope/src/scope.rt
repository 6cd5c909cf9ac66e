//! The bindings in scope.

ghost use Rattle.std.specs.Prelude.{◌≡◌, ◌≢◌, ◌↔◌, List, [], ◌∷◌, ◌++◌, length, drop, All, IsNone, OnOk, OnErr};
ghost use Rattle.hs_scope.specs.Scope.{Binding, look, oldest};

use hs_base::memory::NoMemory;
use indexmap::IndexMap;
use sqlite_items::Items;
use std::alloc::Global;
use std::marker::Model;

/// A binding, and what its name meant before it.
#[derive(Drop)]
struct Entry<'t> {
    name: &'t [u8],
    number: usize,
    hidden: Option<usize>,
}

/// The bindings in scope: each is a name, which is bytes of a text, and the number that it stands for.
///
/// A later binding hides the earlier ones of its name, until it is left. Each call but `leave` takes constant expected time.
#[derive(Drop)]
pub struct Scope<'t> {
    entries: Items<Entry<'t>>,
    latest: IndexMap<&'t [u8], usize>,
}

impl<'t> Model for Scope<'t> {
    ghost use Rattle.std.specs.Prelude.{List};
    ghost use Rattle.hs_scope.specs.Scope.{Binding};

    ghost Value = { List Binding };

    ghost use Rattle.hs_scope.specs.Entries.{scope_of, Indexed};

    ghost view = { λ scope. scope_of scope.entries };

    ghost invariant = { λ scope. Indexed scope.entries scope.latest };
}

impl<'t> Scope<'t> {
    /// No bindings.
    pub fn new(alloc: Global) -> Scope<'t>
        ensures { result ≡ [] }
    {
        Scope {
            entries: Items::new(alloc),
            latest: IndexMap::new(alloc),
        }
    }

    /// How many bindings are in scope, hidden ones too.
    pub fn len(&self) -> usize
        ensures { result ≡ length self.now }
    {
        self.entries.len()
    }

    /// Binds a name to a number. The binding stands in front of the others, and hides those of its name.
    ///
    /// # Errors
    ///
    /// Where there is no memory for one more, the scope is unchanged.
    pub fn bind(&mut self, name: &'t [u8], number: usize) -> Result<(), NoMemory>
        ensures ok { OnOk result (self.new ≡ record { name = name.now; number = number } ∷ self.old) }
        ensures err { OnErr result (self.new ≡ self.old) }
    {
        let hidden = self.latest.get(name).copied();
        self.entries.push(Entry {
            name,
            number,
            hidden,
        })?;
        match self.latest.insert(name, number) {
            Ok(_) => Ok(()),
            Err(_) => {
                self.entries.pop();
                Err(NoMemory)
            }
        }
    }

    /// The number of the latest binding of this name, and none exactly where no binding is of this name.
    pub fn find(&self, name: &[u8]) -> Option<usize>
        ensures number { result ≡ look name.now self.now }
        ensures unbound { IsNone result ↔ All (λ binding. binding.name ≢ name.now) self.now }
    {
        self.latest.get(name).copied()
    }

    /// Leaves the inner scopes: so many bindings stay, the oldest ones, and where there are no more, all.
    ///
    /// What a binding hid is found again once it is left. It takes no memory, and time in proportion to the bindings that go.
    pub fn leave(&mut self, kept: usize)
        ensures kept { self.new ≡ oldest kept self.old }
        ensures outer { (inner outer : List Binding) → self.old ≡ inner ++ outer → kept ≡ length outer → self.new ≡ outer }
    {
        while self.len() > kept {
            self.unbind();
        }
    }

    /// Takes the latest binding away, where there is one.
    fn unbind(&mut self)
        ensures { self.new ≡ drop 1 self.old }
    {
        if let Some(entry) = self.entries.pop() {
            match entry.hidden {
                Some(number) => {
                    if let Some(latest) = self.latest.get_mut(entry.name) {
                        *latest = number;
                    }
                }
                None => {
                    self.latest.swap_remove(entry.name);
                }
            }
        }
    }
}
