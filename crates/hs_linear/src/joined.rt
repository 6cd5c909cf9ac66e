//! What branches leave.

ghost use Rattle.std.specs.Prelude.{◌≡◌, ◌≤◌, ℕ, List, Option, Some, None, not, ◌&&◌, filter, map, length, drop, IfOk, OnOk};
ghost use Rattle.hs_tree.specs.Moves.{Holding, also};
ghost use Rattle.hs_tree.specs.Store.{among};
ghost use Rattle.hs_linear.specs.Seen.{after_either};
ghost use Rattle.hs_linear.specs.Sets.{set_of, changes_of, LedFrom, IsAt, GoesOn, after_branches, won_of, lost_with, won_with, ended_at, lost_by, won_by};

use crate::held::Held;
use hs_base::memory::NoMemory;
use std::alloc::{AllocError, AllocFailed, Global};
use std::collections::HashSet;

/// Why a walk does not go on.
#[derive(Clone, Copy, Debug, PartialEq, Eq)]
pub enum Left {
    /// What was walked always exits, so nothing is reached behind it.
    Exits,
    /// There was no memory.
    NoMemory,
}

impl From<AllocError> for Left {
    ghost use Rattle.hs_linear.specs.declared.joined.Left.TheVariants.{NoMemory};

    ghost from_gives = { λ _ left. left ≡ NoMemory };

    fn from(_error: AllocError) -> Left {
        Left::NoMemory
    }
}

impl<T: Drop> From<AllocFailed<T>> for Left {
    ghost use Rattle.hs_linear.specs.declared.joined.Left.TheVariants.{NoMemory};

    ghost from_gives = { λ _ left. left ≡ NoMemory };

    fn from(_error: AllocFailed<T>) -> Left {
        Left::NoMemory
    }
}

/// What the branches of a node leave so far, by what differs from the locals that held a value before them.
#[derive(Drop)]
pub struct Joined {
    /// Locals that lost their value in some branch.
    lost: Vec<usize>,
    /// Locals that got one in each branch, once there is a branch that does not always exit.
    won: Option<Vec<usize>>,
}

impl Joined {
    /// No branches.
    pub fn new(alloc: Global) -> Joined
        ensures { (d : Holding) → after_branches result d ≡ None }
    {
        Joined {
            lost: Vec::new(alloc),
            won: None,
        }
    }

    /// One branch in which nothing happens.
    pub fn idle(alloc: Global) -> Joined
        ensures { (d : Holding) → after_branches result d ≡ Some d }
    {
        Joined {
            lost: Vec::new(alloc),
            won: Some(Vec::new(alloc)),
        }
    }

    /// Joins a branch that lost and won these locals to the branches before it.
    fn add(&mut self, alloc: Global, lost: Vec<usize>, won: Vec<usize>) -> Result<(), NoMemory>
        ensures lost { OnOk result (self.new.lost.items ≡ lost_with (won_of self.old) self.old.lost.items lost.items) }
        ensures won { OnOk result (won_of self.new ≡ won_with (won_of self.old) won.items) }
    {
        match &self.won {
            None => {
                self.lost = lost;
                self.won = Some(won);
            }
            Some(before) => {
                let both = in_both(alloc, before, &won)?;
                self.lost.extend_from_slice(&lost)?;
                self.won = Some(both);
            }
        }
        Ok(())
    }
}

/// The locals of a second list that are in a first one.
fn in_both(alloc: Global, first: &[usize], second: &[usize]) -> Result<Vec<usize>, NoMemory>
    ensures { IfOk result (λ both. both.items ≡ filter (λ k. among k first.now) second.now) }
{
    let mut known = HashSet::new(alloc);
    for local in first {
        known.insert(*local)?;
    }
    let mut both = Vec::new(alloc);
    for local in second {
        if known.contains(local) {
            both.push(*local)?;
        }
    }
    Ok(both)
}

impl Held {
    /// The locals that changed since a moment, each with whether it holds a value now.
    fn ends_since(&self, alloc: Global, moment: usize) -> Result<Vec<(usize, bool)>, NoMemory>
        requires { moment ≤ length (changes_of self.now) }
        ensures { IfOk result (λ ends. ends.items ≡ map (ended_at (set_of self.now)) (drop moment (changes_of self.now))) }
    {
        let mut ends = Vec::new(alloc);
        for local in self.changed_since(moment) {
            ends.push((*local, self.has(*local)))?;
        }
        Ok(ends)
    }

    /// The locals that held no value in the end, and hold one now.
    fn lost(&self, alloc: Global, ends: &[(usize, bool)]) -> Result<Vec<usize>, NoMemory>
        ensures { IfOk result (λ locals. locals.items ≡ lost_by (set_of self.now) ends.now) }
    {
        let mut locals = Vec::new(alloc);
        for (local, ended) in ends {
            if !*ended && self.has(*local) {
                locals.push(*local)?;
            }
        }
        Ok(locals)
    }

    /// The locals that held a value in the end, and hold none now.
    fn won(&self, alloc: Global, ends: &[(usize, bool)]) -> Result<Vec<usize>, NoMemory>
        ensures { IfOk result (λ locals. locals.items ≡ won_by (set_of self.now) ends.now) }
    {
        let mut locals = Vec::new(alloc);
        for (local, ended) in ends {
            if *ended && !self.has(*local) {
                locals.push(*local)?;
            }
        }
        Ok(locals)
    }

    /// Ends a branch that began at a moment and does not always exit: it is joined to the branches before it, and the set of that
    /// moment stands again.
    pub fn join(
        &mut self,
        alloc: Global,
        moment: usize,
        joined: &mut Joined,
    ) -> Result<(), NoMemory>
        requires { moment ≤ length (changes_of self.old) }
        ensures back { OnOk result ((d : Holding) (before : List ℕ) → LedFrom d before self.old → moment ≡ length before → IsAt d before self.new) }
        ensures joined { OnOk result ((d : Holding) (before : List ℕ) → LedFrom d before self.old → moment ≡ length before → after_branches joined.new d ≡ after_either (after_branches joined.old d) (Some (set_of self.old))) }
    {
        let ends = self.ends_since(alloc, moment)?;
        self.go_back(moment)?;
        let lost = self.lost(alloc, &ends)?;
        let won = self.won(alloc, &ends)?;
        joined.add(alloc, lost, won)
    }

    /// Goes on behind branches, if one of them does not always exit.
    pub fn go_on(&mut self, joined: &Joined) -> Result<(), Left>
        ensures { GoesOn (after_branches joined.now (set_of self.old)) self.old self.new result }
    {
        let Some(won) = &joined.won else {
            return Err(Left::Exits);
        };
        self.put_all(won)?;
        Ok(self.take_all(&joined.lost)?)
    }

    /// Takes the values out of these locals.
    fn take_all(&mut self, locals: &[usize]) -> Result<(), NoMemory>
        ensures set { OnOk result ((k : ℕ) → set_of self.new k ≡ (set_of self.old k && not (among k locals.now))) }
        ensures led { OnOk result (LedFrom (set_of self.old) (changes_of self.old) self.new) }
    {
        for local in locals {
            self.take(*local)?;
        }
        Ok(())
    }

    /// Puts values into these locals.
    pub fn put_all(&mut self, locals: &[usize]) -> Result<(), NoMemory>
        ensures set { OnOk result (set_of self.new ≡ also locals.now (set_of self.old)) }
        ensures led { OnOk result (LedFrom (set_of self.old) (changes_of self.old) self.new) }
    {
        for local in locals {
            self.put(*local)?;
        }
        Ok(())
    }
}
