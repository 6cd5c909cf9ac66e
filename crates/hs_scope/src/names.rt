//! Names that are numbered in their order.

ghost use Rattle.std.specs.Prelude.{◌≡◌, ◌≢◌, ◌↔◌, [], ◌∷◌, ◌++◌, length, is_none, All, IsNone, IfOk, OnOk, OnErr};
ghost use Rattle.hs_scope.specs.Names.{number_of};

use hs_base::memory::NoMemory;
use indexmap::IndexMap;
use sqlite_items::Items;
use std::alloc::Global;
use std::marker::Model;

/// Names, which are bytes of a text, numbered from 0 in the order in which they were added.
///
/// A name may be added again: it takes a number then as well, and the number of the first of equal names is found. Each call takes
/// constant expected time.
#[derive(Drop)]
pub struct Names<'t> {
    names: Items<&'t [u8]>,
    first: IndexMap<&'t [u8], usize>,
}

impl<'t> Model for Names<'t> {
    ghost use Rattle.std.specs.Prelude.{ℕ, List};
    ghost use Rattle.hs_scope.specs.Names.{number_of};
    ghost use Rattle.hs_scope.specs.Index.{bytes_of, Answers};

    ghost Value = { List (List ℕ) };

    ghost view = { λ names. bytes_of names.names };

    ghost invariant = { λ names. Answers (λ name. number_of name (bytes_of names.names)) names.first };
}

impl<'t> Names<'t> {
    /// No names.
    pub fn new(alloc: Global) -> Names<'t>
        ensures { result ≡ [] }
    {
        Names {
            names: Items::new(alloc),
            first: IndexMap::new(alloc),
        }
    }

    /// How many names were added, equal ones too. It is the number of the next name.
    pub fn len(&self) -> usize
        ensures { result ≡ length self.now }
    {
        self.names.len()
    }

    /// Adds a name with the next number, and tells whether it was not there before.
    ///
    /// # Errors
    ///
    /// Where there is no memory for one more, the names are unchanged.
    pub fn add(&mut self, name: &'t [u8]) -> Result<bool, NoMemory>
        ensures is_new { IfOk result (λ is_new. is_new ≡ is_none (number_of name.now self.old)) }
        ensures ok { OnOk result (self.new ≡ self.old ++ name.now ∷ []) }
        ensures err { OnErr result (self.new ≡ self.old) }
    {
        let number = self.names.len();
        self.names.push(name)?;
        if self.first.contains_key(name) {
            return Ok(false);
        }
        match self.first.insert(name, number) {
            Ok(_) => Ok(true),
            Err(_) => {
                self.names.pop();
                Err(NoMemory)
            }
        }
    }

    /// The number of the first name that is equal to this one, and none exactly where no name is equal to it.
    pub fn find(&self, name: &[u8]) -> Option<usize>
        ensures number { result ≡ number_of name.now self.now }
        ensures absent { IsNone result ↔ All (λ other. other ≢ name.now) self.now }
    {
        self.first.get(name).copied()
    }
}
