//! What is known at a place of a tree, beside the names in scope.

ghost use Rattle.std.specs.Prelude.{◌≡◌, OnOk};
ghost use Rattle.hs_resolver.specs.Parts as p;

use hs_base::memory::NoMemory;
use hs_symbols::Referent;
use hs_syntax::Span;
use sqlite_items::Items;

/// A name in the text, and what it stands for.
#[derive(Clone, Copy, Debug, PartialEq, Eq)]
pub struct Use {
    pub name: Span,
    pub referent: Referent,
}

/// What is known at a place of an item: the binding places and the exits before it, and what the names before it stand for.
#[derive(Drop)]
pub struct Known {
    pub places: Items<Span>,
    pub exits: Items<Span>,
    pub uses: Items<Use>,
}

impl Known {
    /// A name stands for something.
    pub fn used(&mut self, name: Span, referent: Referent) -> Result<(), NoMemory>
        ensures { OnOk result (self.new ≡ p.used name referent self.old) }
    {
        self.uses.push(Use { name, referent })
    }

    /// A name stands for something, or for nothing.
    pub fn means(&mut self, name: Span, referent: Option<Referent>) -> Result<(), NoMemory>
        ensures { OnOk result (self.new ≡ p.meaning name referent self.old) }
    {
        match referent {
            None => Ok(()),
            Some(referent) => self.used(name, referent),
        }
    }
}
