//! What is asked of the names of items, one item after the other in their order. No type is expanded: numbers are as far as 32 bits
//! hold them.

ghost use Rattle.std.specs.Prelude.{◌≡◌, ◌≤◌, length, slice_get, option_map, IfOk, OnOk};
ghost use Rattle.hs_items.specs.Meaning as m;
ghost use Rattle.hs_items.specs.Walk as w;

use crate::checks::derives_copy;
use crate::facts::Facts;
use crate::shape::Shape;
use crate::types::World;
use hs_base::memory::NoMemory;
use hs_symbols::Symbols;
use hs_syntax::{Ctor, Item, ItemKind};
use sqlite_items::Items;
use std::alloc::Global;

/// What is asked of the parts of all constructors.
fn of_ctors<'a>(ctors: &Items<Ctor>, world: &World<'a>) -> Facts
    ensures { result ≡ w.facts_of_ctors world.now.symbols.now (w.at world.now.facts.now) ctors.now }
{
    let mut row = Facts::nothing();
    for ctor in ctors.as_slice() {
        row = row.joined(world.facts_of_all(&ctor.parts));
    }
    row
}

/// What is asked of the name of an item, by what is asked of those before it.
fn of_item<'a>(item: &Item, world: &World<'a>) -> Facts
    ensures { result ≡ w.facts_of_kind world.now.symbols.now (w.at world.now.facts.now) (m.derives_copy world.now.symbols.now item.now.derives) item.now.kind }
{
    let copies = derives_copy(item.derives.as_slice(), world.symbols);
    match &item.kind {
        ItemKind::Use
        | ItemKind::Const(_, _, _)
        | ItemKind::Fn(_, _, _, _)
        | ItemKind::NatMod(_, _, _, _) => Facts::single(),
        ItemKind::Alias(_, ty) => world.facts_of(ty),
        ItemKind::Struct(_, parts) => world.facts_of_all(parts).over(Shape::Declared(copies)),
        ItemKind::Enum(_, ctors) => of_ctors(ctors, world).over(Shape::Declared(copies)),
        ItemKind::Array(_, length, ty) => world.facts_of(ty).over(Shape::Array(length.value)),
        ItemKind::Bytes(_, length) => Facts::single().over(Shape::Array(length.value)),
    }
}

/// For each of so many items that its name has no parts.
fn all_single(alloc: Global, count: usize) -> Result<Items<Facts>, NoMemory>
    ensures singles { IfOk result (λ all. w.AllSingle all) }
    ensures length { IfOk result (λ all. length all ≡ count) }
{
    let mut all = Items::new(alloc);
    for _item in 0..count {
        all.push(Facts::single())?;
    }
    Ok(all)
}

/// What is asked of the name of each item, by the item's place in the file.
pub fn facts_of_items<'a>(
    alloc: Global,
    symbols: &Symbols<'a>,
    order: &[usize],
) -> Result<Items<Facts>, NoMemory>
    ensures { IfOk result (λ all. w.AgreeWith symbols.now (m.known symbols.now order.now) all) }
{
    let items = symbols.items();
    let mut all = all_single(alloc, items.len())?;
    for place in order {
        let Some(item) = items.get(*place) else {
            continue;
        };
        let world = World {
            symbols: &*symbols,
            facts: all.as_slice(),
        };
        let facts = of_item(item, &world);
        all.set(*place, facts);
    }
    Ok(all)
}
