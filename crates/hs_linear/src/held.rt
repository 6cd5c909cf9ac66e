//! The locals that hold a value at a moment of a walk.

ghost use Rattle.std.specs.Prelude.{◌≡◌, ◌∷◌, ◌≤◌, [], ℕ, List, false, drop, length, OnOk};
ghost use Rattle.hs_tree.specs.Moves.{Holding, also, less};
ghost use Rattle.hs_linear.specs.Sets.{set_of, changes_of, turned, LedFrom, IsAt};

use hs_base::memory::NoMemory;
use std::alloc::Global;
use std::collections::HashSet;

/// The locals that hold a value. Which of them came in or went out is kept in order, so that the set of an earlier moment can stand
/// again: a branch costs what it changes, however many locals there are.
#[derive(Drop)]
pub struct Held {
    locals: HashSet<usize>,
    changes: Vec<usize>,
}

impl Held {
    /// No local holds a value.
    pub fn new(alloc: Global) -> Held
        ensures { IsAt (λ k. false) [] result }
    {
        Held {
            locals: HashSet::new(alloc),
            changes: Vec::new(alloc),
        }
    }

    /// Whether a local holds a value.
    pub fn has(&self, local: usize) -> bool
        ensures { result ≡ set_of self.now local }
    {
        self.locals.contains(&local)
    }

    /// Puts a value into a local.
    pub fn put(&mut self, local: usize) -> Result<(), NoMemory>
        ensures set { OnOk result (set_of self.new ≡ also (local ∷ []) (set_of self.old)) }
        ensures led { OnOk result (LedFrom (set_of self.old) (changes_of self.old) self.new) }
    {
        if self.locals.insert(local)? {
            self.changes.push(local)?;
        }
        Ok(())
    }

    /// Takes the value out of a local.
    pub fn take(&mut self, local: usize) -> Result<(), NoMemory>
        ensures set { OnOk result (set_of self.new ≡ less local (set_of self.old)) }
        ensures led { OnOk result (LedFrom (set_of self.old) (changes_of self.old) self.new) }
    {
        if self.locals.remove(&local) {
            self.changes.push(local)?;
        }
        Ok(())
    }

    /// How many changes there were so far, by which this moment is known.
    pub fn moment(&self) -> usize
        ensures { result ≡ length (changes_of self.now) }
    {
        self.changes.len()
    }

    /// The locals that changed since a moment, as often as they did.
    pub fn changed_since(&self, moment: usize) -> &[usize]
        requires { moment ≤ length (changes_of self.now) }
        ensures { result.now ≡ drop moment (changes_of self.now) }
    {
        &self.changes[moment..]
    }

    /// Lets the set of an earlier moment stand again.
    pub fn go_back(&mut self, moment: usize) -> Result<(), NoMemory>
        ensures { OnOk result ((d : Holding) (before : List ℕ) → LedFrom d before self.old → moment ≡ length before → IsAt d before self.new) }
    {
        while self.changes.len() > moment {
            if let Some(local) = self.changes.pop() {
                self.turn(local)?;
            }
        }
        Ok(())
    }

    /// Takes the value out of a local, or puts one in where there is none, and keeps the changes as they are.
    fn turn(&mut self, local: usize) -> Result<(), NoMemory>
        ensures set { OnOk result (set_of self.new ≡ turned local (set_of self.old)) }
        ensures changes { OnOk result (changes_of self.new ≡ changes_of self.old) }
    {
        if !self.locals.remove(&local) {
            self.locals.insert(local)?;
        }
        Ok(())
    }
}
