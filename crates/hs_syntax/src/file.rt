//! A file: its text, with the bytes and the place of each span, and its items.

ghost use Rattle.std.specs.Prelude.{◌≡◌, IfOk};
ghost use Rattle.hs_base.specs.Positions.{pos_at, told_at};
ghost use Rattle.hs_syntax.specs.Texts.{bytes_at};

use crate::item::Item;
use crate::span::Span;
use hs_base::memory::NoMemory;
use hs_base::parts::between;
use hs_base::place::{Broken, Pos};
use hs_base::rule::Rule;
use sqlite_items::Items;
use std::alloc::Global;
use std::marker::Model;

/// The bytes of a source. Contracts see them as the list of the bytes.
#[derive(Drop)]
pub struct Text {
    bytes: Vec<u8>,
}

impl Model for Text {
    ghost use Rattle.std.specs.Prelude.{ℕ, List};

    ghost Value = { List ℕ };

    ghost view = { λ text. text.bytes.items };
}

impl Text {
    /// A copy of the bytes. `NoMemory` comes only for want of memory.
    pub fn of(alloc: Global, bytes: &[u8]) -> Result<Text, NoMemory>
        ensures { IfOk result (λ text. text ≡ bytes.now) }
    {
        Ok(Text {
            bytes: bytes.to_vec(alloc)?,
        })
    }

    /// All the bytes.
    pub fn bytes(&self) -> &[u8]
        ensures { result.now ≡ self.now }
    {
        &self.bytes
    }

    /// The bytes of a span, as far as the text has them. Takes no memory.
    #[tactic(auto, unfolding(crate::specs::Texts::bytes_at))]
    pub fn at(&self, span: Span) -> &[u8]
        ensures { result.now ≡ bytes_at self.now span }
    {
        between(&self.bytes, span.start, span.end)
    }

    /// The place of a span's first byte. Takes no memory.
    pub fn pos(&self, span: Span) -> Pos
        ensures { result ≡ pos_at self.now span.start }
    {
        hs_base::place::pos_at(&self.bytes, span.start as usize)
    }

    /// That a rule is broken at a span's first byte. Takes no memory.
    pub fn told(&self, rule: Rule, span: Span) -> Broken
        ensures { result ≡ told_at self.now rule span.start }
    {
        Broken::told_at(&self.bytes, rule, span.start as usize)
    }
}

/// A file: the text that it was read from, and its items in order.
#[derive(Drop)]
pub struct File {
    pub text: Text,
    pub items: Items<Item>,
}
