//! What is known of the names of a file.

use crate::known::Use;
use hs_syntax::Span;
use sqlite_items::Items;

/// What the names of an item stand for: its binding places, which are its locals in the order of their numbers, and each name
/// that stands for something, in the order of the text.
#[derive(Drop)]
pub struct ItemNames {
    pub places: Items<Span>,
    pub uses: Items<Use>,
}

/// What the names of each item stand for, and the order of the items: their places in the file, each behind those of the
/// items that it needs.
#[derive(Drop)]
pub struct Names {
    pub items: Items<ItemNames>,
    pub order: Items<usize>,
}
