//! Stacks.

ghost use Rattle.std.specs.Prelude.{◌≡◌, List, [], ◌∷◌, OnOk, OnErr, MatchOption, reverse};

use hs_base::memory::NoMemory;
use std::alloc::Global;
use std::marker::Model;

/// A stack, which contracts see as the list of its items from the top.
#[derive(Drop)]
pub struct Stack<T: Drop> {
    kept: Vec<T>,
}

impl<T: Drop> Model for Stack<T> {
    ghost Value = { List T };

    ghost view = { λ stack. reverse stack.kept.items };
}

impl<T: Drop> Stack<T> {
    /// A stack without items.
    pub fn new(alloc: Global) -> Stack<T>
        ensures { result ≡ [] }
    {
        Stack {
            kept: Vec::new(alloc),
        }
    }

    /// Puts an item on top.
    pub fn push(&mut self, item: T) -> Result<(), NoMemory>
        ensures ok { OnOk result (self.new ≡ item ∷ self.old) }
        ensures err { OnErr result (self.new ≡ self.old) }
    {
        Ok(self.kept.push(item)?)
    }

    /// Takes the top item off.
    pub fn pop(&mut self) -> Option<T>
        ensures { MatchOption result ((self.old ≡ []) × (self.new ≡ [])) (λ top. self.old ≡ top ∷ self.new) }
    {
        self.kept.pop()
    }
}
