//! Files in memory.

ghost use Rattle.std.specs.Prelude.{◌≡◌, ◌↔◌, ◌⊎◌, ℕ, ◌<◌, ◌≤◌, List, [], ◌∷◌, length, IfOk, OnOk, OnErr, IsErrOf, Contains, Some, IfSome, IsNone};
ghost use Rattle.hs_base.specs.Causes.{Rose, next_of};
ghost use Rattle.hs_base.specs.Contents.{Holds, Lacks, Exceeds, Added, StandsAt, bytes_under};
ghost use Rattle.hs_base.specs.Shelves.{entries_of};

use crate::memory::NoMemory;
use crate::outside::{FetchFault, Files};
use std::alloc::Global;
use std::marker::Model;

// A file in memory.
#[derive(Drop)]
struct Held {
    name: String,
    bytes: Vec<u8>,
}

// The place of the first of this name.
fn place_of(held: &[Held], name: &str) -> Option<usize>
    ensures within { IfSome result (λ at. at < length held.now) }
    ensures found { IfSome result (λ at. StandsAt name.now (entries_of held.now) at) }
    ensures not_found { IsNone result → bytes_under name.now (entries_of held.now) ≡ None }
{
    for at in 0..held.len() {
        if held[at].name.as_str() == name {
            return Some(at);
        }
    }
    None
}

// A copy of the bytes of the first of this name.
fn copy_of(alloc: Global, held: &[Held], name: &str, limit: u32) -> Result<Vec<u8>, FetchFault>
    ensures bytes { IfOk result (λ bytes. bytes_under name.now (entries_of held.now) ≡ Some bytes.items) }
    ensures within { IfOk result (λ bytes. length bytes.items ≤ limit) }
    ensures not_there { IsErrOf result FetchFault.NotThere → bytes_under name.now (entries_of held.now) ≡ None }
    ensures too_large { IsErrOf result FetchFault.TooLarge → Exceeds (Some (entries_of held.now)) name.now limit }
    ensures failed { ¬ IsErrOf result FetchFault.Failed }
{
    let Some(at) = place_of(held, name) else {
        return Err(FetchFault::NotThere);
    };
    let bytes = &held[at].bytes;
    if bytes.len() > limit as usize {
        return Err(FetchFault::TooLarge);
    }
    Ok(bytes.to_vec(alloc)?)
}

// Puts bytes under a name, in the place of those that are there.
fn add_to(alloc: Global, all: &mut Vec<Held>, name: &str, bytes: &[u8]) -> Result<(), NoMemory>
    ensures ok { OnOk result (Added name.now bytes.now (entries_of all.old.items) (entries_of all.new.items)) }
    ensures err { OnErr result (entries_of all.new.items ≡ entries_of all.old.items) }
{
    let copy = bytes.to_vec(alloc)?;
    if let Some(at) = place_of(all, name) {
        all[at].bytes = copy;
        return Ok(());
    }
    let name = String::from_str(alloc, name)?;
    all.push(Held { name, bytes: copy })?;
    Ok(())
}

/// Files in memory that never fail.
#[derive(Drop)]
pub struct SureShelf {
    alloc: Global,
    all: Vec<Held>,
}

impl Model for SureShelf {
    ghost use Rattle.std.specs.Prelude.{List};
    ghost use Rattle.hs_base.specs.Contents.{Entry};
    ghost use Rattle.hs_base.specs.Shelves.{entries_of};

    ghost Value = { List Entry };

    ghost view = { λ shelf. entries_of shelf.all.items };
}

impl SureShelf {
    /// No files. Takes no memory.
    pub fn new(alloc: Global) -> SureShelf
        ensures { result ≡ [] }
    {
        SureShelf {
            alloc,
            all: Vec::new(alloc),
        }
    }

    /// Puts bytes under a name, in the place of those that are there. After `NoMemory` nothing has changed.
    pub fn add(&mut self, name: &str, bytes: &[u8]) -> Result<(), NoMemory>
        ensures ok { OnOk result (Added name.now bytes.now self.old self.new) }
        ensures err { OnErr result (self.new ≡ self.old) }
    {
        add_to(self.alloc, &mut self.all, name, bytes)
    }
}

/// The map is told, and no fetch fails: the count of faults is 0.
impl Files for SureShelf {
    ghost told = { λ shelf. Some shelf };

    ghost faults = { λ _. 0 };

    fn fetch(&mut self, name: &str, limit: u32) -> Result<Vec<u8>, FetchFault> {
        copy_of(self.alloc, &self.all, name, limit)
    }
}

/// Files in memory, of which the fetches of given numbers fail.
///
/// Fetches are numbered from 1. Each one after number 18446744073709551615 has that number too.
#[derive(Drop)]
pub struct Shelf {
    alloc: Global,
    all: Vec<Held>,
    failing: Vec<u64>,
    fetches: u64,
    faults: u64,
}

impl Model for Shelf {
    ghost use Rattle.hs_base.specs.ShelfState.{ShelfState};
    ghost use Rattle.hs_base.specs.Shelves.{entries_of};

    ghost Value = { ShelfState };

    ghost view = { λ shelf. record {
      entries = entries_of shelf.all.items;
      failing = shelf.failing.items;
      fetches = shelf.fetches;
      faults = shelf.faults;
    } };
}

impl Shelf {
    /// No files, and the numbers of the fetches that are to fail. Takes no memory.
    pub fn new(alloc: Global, failing: Vec<u64>) -> Shelf
        ensures { result ≡ record { entries = []; failing = failing.items; fetches = 0; faults = 0 } }
    {
        Shelf {
            alloc,
            all: Vec::new(alloc),
            failing,
            fetches: 0,
            faults: 0,
        }
    }

    /// Puts bytes under a name, in the place of those that are there. After `NoMemory` nothing has changed.
    pub fn add(&mut self, name: &str, bytes: &[u8]) -> Result<(), NoMemory>
        ensures ok { OnOk result (Added name.now bytes.now self.old.entries self.new.entries) }
        ensures err { OnErr result (self.new ≡ self.old) }
        ensures rest { self.new ≡ record self.old { entries = self.new.entries } }
    {
        add_to(self.alloc, &mut self.all, name, bytes)
    }
}

/// The map is told. `Failed` comes exactly at the fetches of the given numbers, and nothing else raises
/// the count of faults.
impl Files for Shelf {
    ghost told = { λ shelf. Some shelf.entries };

    ghost faults = { λ shelf. shelf.faults };

    fn fetch(&mut self, name: &str, limit: u32) -> Result<Vec<u8>, FetchFault>
        ensures bytes { IfOk result (λ bytes. Holds (Some self.old.entries) name.now bytes.items) }
        ensures within { IfOk result (λ bytes. length bytes.items ≤ limit) }
        ensures not_there { IsErrOf result FetchFault.NotThere → Lacks (Some self.old.entries) name.now }
        ensures too_large { IsErrOf result FetchFault.TooLarge → Exceeds (Some self.old.entries) name.now limit }
        ensures failed { IsErrOf result FetchFault.Failed → Rose self.old.faults self.new.faults }
        ensures later { self.old.faults ≤ self.new.faults }
        ensures same { Some self.new.entries ≡ Some self.old.entries }

        // The fetches of the given numbers fail, and no other.
        ensures exactly { IsErrOf result FetchFault.Failed ↔ Contains self.old.failing self.new.fetches }
        ensures number { self.new.fetches ≡ next_of self.old.fetches }
        ensures one_fault { IsErrOf result FetchFault.Failed → self.new.faults ≡ next_of self.old.faults }
        ensures no_fault { IsErrOf result FetchFault.Failed ⊎ (self.new.faults ≡ self.old.faults) }
        ensures failing { self.new.failing ≡ self.old.failing }
    {
        self.fetches = self.fetches.saturating_add(1);
        if self.failing.contains(&self.fetches) {
            self.faults = self.faults.saturating_add(1);
            return Err(FetchFault::Failed);
        }
        copy_of(self.alloc, &self.all, name, limit)
    }
}
