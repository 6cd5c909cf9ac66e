//! What is known at a moment of a walk.

ghost use Rattle.std.specs.Prelude.{◌≡◌, ◌≤◌, ◌<◌, [], ◌∷◌, ℕ, List, Some, false, not, ◌&&◌, filter, length, drop, IfOk, OnOk};
ghost use Rattle.hs_tree.specs.Moves.{Holding};
ghost use Rattle.hs_linear.specs.Rules.{when, of_lent, of_operation, of_place};
ghost use Rattle.hs_linear.specs.Seen.{◌&◌, breaks, asked, read, gives, lost, not_given_back};
ghost use Rattle.hs_linear.specs.Told.{told_of};
ghost use Rattle.hs_linear.specs.Sets.{set_of, LedFrom, IsAt};
ghost use Rattle.hs_linear.specs.Moments.{Passed};

use crate::held::Held;
use crate::told::{Breach, Take, earlier};
use hs_base::memory::NoMemory;
use hs_base::rule::Rule;
use hs_tree::node::Span;
use std::alloc::Global;

/// The locals that hold a value, the reads so far that took one out, and what is told of all that was broken so far.
#[derive(Drop)]
pub struct State {
    pub held: Held,
    pub taken: Vec<Take>,
    pub told: Option<Breach>,
}

impl State {
    /// Before a function, where this is told of those before it.
    pub fn new(alloc: Global, told: Option<Breach>) -> State
        ensures held { IsAt (λ k. false) [] result.held }
        ensures told { result.told ≡ told }
    {
        State {
            held: Held::new(alloc),
            taken: Vec::new(alloc),
            told,
        }
    }

    /// Notes a rule, if it is broken.
    fn note(&mut self, is_broken: bool, rule: Rule, span: Span)
        ensures { self.new ≡ record self.old { told = told_of self.old.told (breaks span (when is_broken rule)) } }
    {
        if is_broken {
            self.told = earlier(self.told, Breach { rule, span });
        }
    }

    /// A read of a local, which takes the value out or not, and does so through a reference or not.
    pub fn read(
        &mut self,
        local: usize,
        span: Span,
        takes: bool,
        is_through: bool,
    ) -> Result<(), NoMemory>
        ensures { OnOk result (Passed (read takes is_through local span) self.old self.new) }
    {
        let holds = self.held.has(local);
        self.note(!holds, Rule::L1, span);
        self.note(is_through, Rule::L6, span);
        if takes && holds {
            self.taken.push(Take { local, span })?;
            self.held.take(local)?;
        }
        Ok(())
    }

    /// A local that is lent.
    pub fn lend(&mut self, local: usize, span: Span)
        ensures { Passed (asked span (λ d. of_lent (d local))) self.old self.new }
    {
        let holds = self.held.has(local);
        self.note(!holds, Rule::L2, span);
    }

    /// An operation, which takes out an item or a part or not, is lent or not, and is of a type that is copied or not.
    pub fn operate(&mut self, is_part: bool, is_lent: bool, is_copied: bool, span: Span)
        ensures { Passed (asked span (λ d. of_operation is_part is_lent is_copied)) self.old self.new }
    {
        self.note(is_part && !is_lent && !is_copied, Rule::L4, span);
    }

    /// An assigned place, which is a whole local or not. The local gets a value.
    pub fn assign(&mut self, local: usize, is_whole: bool, span: Span) -> Result<(), NoMemory>
        ensures { OnOk result (Passed (asked span (λ d. of_place is_whole (d local)) & gives (local ∷ [])) self.old self.new) }
    {
        let holds = self.held.has(local);
        self.note(!is_whole && !holds, Rule::L5, span);
        self.held.put(local)
    }

    /// Locals that get values.
    pub fn give(&mut self, local: usize) -> Result<(), NoMemory>
        ensures { OnOk result (Passed (gives (local ∷ [])) self.old self.new) }
    {
        self.held.put(local)
    }

    /// Ends a loop's body that began at a moment, when so many reads had taken a value out. The locals that held a value then hold it
    /// again.
    pub fn end_turn(&mut self, alloc: Global, moment: usize, taken: usize) -> Result<(), NoMemory>
        requires { taken ≤ length self.old.taken.items }
        ensures back { OnOk result ((d : Holding) (before : List ℕ) → LedFrom d before self.old.held → moment ≡ length before → IsAt d before self.new.held) }
        ensures taken { OnOk result (self.new.taken.items ≡ self.old.taken.items) }
        ensures told { OnOk result (self.new.told ≡ told_of self.old.told (not_given_back (lost (set_of self.new.held) (Some (set_of self.old.held)) (drop taken self.old.taken.items)))) }
    {
        let ended = self.taken_since(alloc, taken)?;
        self.held.go_back(moment)?;
        for take in &ended {
            let began = self.held.has(take.local);
            self.note(began, Rule::L3, take.span);
        }
        Ok(())
    }

    /// The reads, but for so many that came first, that took a value out of a local that has none now.
    fn taken_since(&self, alloc: Global, taken: usize) -> Result<Vec<Take>, NoMemory>
        requires { taken ≤ length self.now.taken.items }
        ensures { IfOk result (λ ended. ended.items ≡ filter (λ t. not (set_of self.now.held t.local)) (drop taken self.now.taken.items)) }
    {
        let mut ended = Vec::new(alloc);
        for take in &self.taken[taken..] {
            if !self.held.has(take.local) {
                ended.push(*take)?;
            }
        }
        Ok(ended)
    }
}
