//! What paths lead to.

ghost use Rattle.std.specs.Prelude.{◌≡◌, map, slice_get, IfOk};
ghost use Rattle.hs_symbols.specs.Symbols as y;
ghost use Rattle.hs_symbols.specs.Ends.{Reached, follow};

use crate::referent::Referent;
use crate::symbols::Symbols;
use crate::way::Way;
use hs_base::memory::NoMemory;
use hs_syntax::{Ctor, File, Item, ItemKind, Span, Ty};
use sqlite_items::Items;
use std::alloc::Global;
use std::marker::Model;

/// How often the hops that were taken are doubled: after that, 262,144 were.
const DOUBLINGS: usize = 18;

/// The name that an alias gives another name.
fn target(kind: &ItemKind) -> Option<Span>
    ensures { result ≡ y.target kind.now }
{
    match kind {
        ItemKind::Alias(_, Ty::Name(name)) => Some(*name),
        _ => None,
    }
}

/// From where a way leads on to where that one leads.
fn follow(ways: &[Way], way: Way) -> Way
    ensures { result ≡ follow ways.now way }
{
    match way {
        Way::Alias(item) => ways.get(item).copied().unwrap_or(Way::Nowhere),
        Way::Data(_) | Way::Nowhere => way,
    }
}

/// Where each of these leads after as many hops again.
fn followed(alloc: Global, ways: &[Way]) -> Result<Items<Way>, NoMemory>
    ensures { IfOk result (λ further. further ≡ map (follow ways.now) ways.now) }
{
    let mut further = Items::new(alloc);
    for way in ways {
        further.push(follow(ways, *way))?;
    }
    Ok(further)
}

impl<'a> Symbols<'a> {
    /// Where a name of a type leads that stands for this.
    fn way_by(&self, referent: Option<Referent>) -> Way
        ensures { result ≡ y.way_by self.now.text self.now.items referent }
    {
        let Some(Referent::Item(item)) = referent else {
            return Way::Nowhere;
        };
        match self.items().get(item) {
            None => Way::Nowhere,
            Some(found) => match found.kind {
                ItemKind::Struct(_, _) | ItemKind::Enum(_, _) => Way::Data(item),
                ItemKind::Alias(_, _) => Way::Alias(item),
                _ => Way::Nowhere,
            },
        }
    }

    /// Where a name of a type leads.
    fn way_named(&self, name: &[u8]) -> Way
        ensures { result ≡ y.way_named self.now.text self.now.items name.now }
    {
        self.way_by(self.type_named(name))
    }

    /// Where an alias leads in one hop.
    fn hop(&self, item: &Item) -> Way
        ensures { result ≡ y.way_from self.now.text self.now.items (y.target item.now.kind) }
    {
        match target(&item.kind) {
            None => Way::Nowhere,
            Some(name) => self.way_named(self.spelled(name)),
        }
    }

    /// Where each item leads in one hop.
    fn first_hops(&self, alloc: Global) -> Result<Items<Way>, NoMemory>
        ensures { IfOk result (λ ways. ways ≡ map (λ (i : Item). y.way_from self.now.text self.now.items (y.target i.kind)) self.now.items) }
    {
        let mut ways = Items::new(alloc);
        for item in self.items() {
            ways.push(self.hop(item))?;
        }
        Ok(ways)
    }

    /// Where each item leads in the end.
    #[tactic(auto, using(crate::proofs::Hops::reached_first))]
    fn ends(&self, alloc: Global) -> Result<Items<Way>, NoMemory>
        ensures { IfOk result (λ ways. Reached self.now.text self.now.items 262144 ways) }
    {
        let mut ways = self.first_hops(alloc)?;
        for _ in 0..DOUBLINGS {
            ways = followed(alloc, ways.as_slice())?;
        }
        Ok(ways)
    }
}

/// What the items of a file declare, and where their names lead as names of types.
#[derive(Drop)]
pub struct Paths<'a> {
    symbols: Symbols<'a>,
    ends: Items<Way>,
}

impl<'a> Model for Paths<'a> {
    ghost use Rattle.hs_syntax.specs.declared.file.File.{File};
    ghost use Rattle.hs_syntax.specs.contracts.ty.Ty as ty;
    ghost use Rattle.hs_syntax.specs.contracts.pat.Pat as pat;
    ghost use Rattle.hs_syntax.specs.contracts.exp.Exp as exp;
    ghost use Rattle.hs_syntax.specs.contracts.exp.Block as block;
    ghost use Rattle.std.specs.Coded.{codes};

    ghost Value = { File };

    ghost coded = { Prim.hlevel (codes, ty.the_row.coded, pat.the_row.coded, exp.the_row.coded, block.the_row.coded) };

    ghost use Rattle.hs_symbols.specs.Ends.{Reached};

    ghost view = { λ paths. paths.symbols };

    ghost invariant = { λ paths. Reached paths.symbols.text paths.symbols.items 262144 paths.ends };
}

impl<'a> Paths<'a> {
    /// The paths of a file. Where aliases lead is looked up here, once.
    ///
    /// # Errors
    ///
    /// Want of memory.
    pub fn new(alloc: Global, file: &'a File) -> Result<Paths<'a>, NoMemory>
        ensures { IfOk result (λ p. p ≡ file.now) }
    {
        let symbols = Symbols::new(alloc, file)?;
        let ends = symbols.ends(alloc)?;
        Ok(Paths { symbols, ends })
    }

    /// What the items declare.
    pub fn symbols(&self) -> &Symbols<'a>
        ensures { result.now ≡ self.now }
    {
        &self.symbols
    }

    /// The struct or the enum that a name stands for as a type, behind any number of aliases: none where it stands for another
    /// type, or for none. Takes no memory.
    pub fn data_of(&self, name: &[u8]) -> Option<usize>
        ensures { result ≡ y.data_of self.now.text self.now.items name.now }
    {
        match follow(self.ends.as_slice(), self.symbols.way_named(name)) {
            Way::Data(item) => Some(item),
            Way::Alias(_) | Way::Nowhere => None,
        }
    }

    /// The place of the first constructor of this name.
    fn ctor_place(&self, ctors: &[Ctor], name: &[u8]) -> Option<usize>
        ensures { result ≡ y.ctor_place self.now.text self.now.items 0 name.now ctors.now }
    {
        for (place, ctor) in ctors.iter().enumerate() {
            if name == self.symbols.spelled(ctor.name) {
                return Some(place);
            }
        }
        None
    }

    /// The place of a constructor among those of an item.
    fn place_in(&self, kind: &ItemKind, name: &[u8]) -> Option<usize>
        ensures { result ≡ y.place_in self.now.text self.now.items name.now kind.now }
    {
        match kind {
            ItemKind::Struct(own, _) => {
                if name == self.symbols.spelled(*own) {
                    Some(0)
                } else {
                    None
                }
            }
            ItemKind::Enum(_, ctors) => self.ctor_place(ctors.as_slice(), name),
            _ => None,
        }
    }

    /// The constructor of this name of the item of this number.
    fn ctor_of(&self, item: usize, name: &[u8]) -> Option<Referent>
        ensures { result ≡ y.ctor_of self.now.text self.now.items item name.now (slice_get self.now.items item) }
    {
        match self.symbols.items().get(item) {
            None => None,
            Some(found) => match self.place_in(&found.kind, name) {
                None => None,
                Some(place) => Some(Referent::Ctor(item, place)),
            },
        }
    }

    /// The constructor of this name of the item of this number: of an enum the first that has the name, of a struct its own,
    /// which has the name of the struct. None where no item is given, or it has no such constructor. Takes no memory.
    pub fn ctor_in(&self, item: Option<usize>, name: &[u8]) -> Option<Referent>
        ensures { result ≡ y.ctor_in self.now.text self.now.items name.now item }
    {
        match item {
            None => None,
            Some(item) => self.ctor_of(item, name),
        }
    }
}
