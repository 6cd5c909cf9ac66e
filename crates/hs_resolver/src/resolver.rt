//! The names of a file.

ghost use Rattle.std.specs.Prelude.{◌≡◌, ◌⊎◌, ◌≤◌, ◌<◌, ◌+◌, ◌^◌, suc, Some, [], map, length, slice_get, if◌then◌else◌, IfOk};
ghost use Rattle.hs_base.specs.declared.place.Broken.{Broken};
ghost use Rattle.hs_syntax.specs.declared.item.Item.{Item};
ghost use Rattle.hs_limits.specs.Nested.{NestedFile};
ghost use Rattle.hs_marks.specs.First.{first};
ghost use Rattle.hs_marks.specs.Says.{Makes};
ghost use Rattle.hs_resolver.specs.InOrder.{EachInOrder};
ghost use Rattle.hs_resolver.specs.Names as n;
ghost use Rattle.hs_resolver.specs.Order as o;

use crate::items::{is_function, item};
use crate::known::Use;
use crate::names::{ItemNames, Names};
use crate::world::World;
use hs_base::memory::NoMemory;
use hs_base::place::Stop;
use hs_base::rule::Rule;
use hs_marks::{Halt, first_is_told};
use hs_order::Order;
use hs_symbols::{Paths, Referent};
use hs_syntax::{File, Item, ItemKind, Span};
use sqlite_items::Items;
use std::alloc::Global;

/// The item that a name stands for, or of whose constructors one.
fn item_of(referent: Referent) -> Option<usize>
    ensures { o.item_of referent ≡ o.at_most_one result }
{
    match referent {
        Referent::Item(item) | Referent::Ctor(item, _) => Some(item),
        Referent::Local(_) | Referent::BuiltIn(_) => None,
    }
}

/// The items that these names stand for, as often as they do.
fn items_of(alloc: Global, uses: &[Use]) -> Result<Items<usize>, NoMemory>
    ensures { IfOk result (λ items. items ≡ o.items_of uses.now) }
{
    let mut items = Items::new(alloc);
    for one in uses {
        if let Some(item) = item_of(one.referent) {
            items.push(item)?;
        }
    }
    Ok(items)
}

/// What each item needs.
fn needs(alloc: Global, items: &[ItemNames]) -> Result<Items<Items<usize>>, NoMemory>
    ensures { IfOk result (λ needs. needs ≡ map (λ (i : ItemNames). o.items_of i.uses) items.now) }
{
    let mut needs = Items::new(alloc);
    for item in items {
        needs.push(items_of(alloc, item.uses.as_slice())?)?;
    }
    Ok(needs)
}

/// The name of an item, at which it is told that it needs itself.
fn name_of(item: &Item) -> Span
    ensures { result ≡ o.name_of item.now }
{
    match item.kind {
        ItemKind::Use => item.span,
        ItemKind::Const(name, _, _)
        | ItemKind::Alias(name, _)
        | ItemKind::Struct(name, _)
        | ItemKind::Enum(name, _)
        | ItemKind::Fn(name, _, _, _)
        | ItemKind::Array(name, _, _)
        | ItemKind::Bytes(name, _)
        | ItemKind::NatMod(name, _, _, _) => name,
    }
}

/// The name of the item at this place of a file.
fn name_at(file: &File, item: usize) -> Span
    requires { item < length file.now.items }
    ensures { (i : Item) × (slice_get file.now.items item ≡ Some i) × (result ≡ o.name_of i) }
{
    name_of(&file.items.as_slice()[item])
}

/// How many functions there are behind an item, where there are so many before it.
fn counted(functions: usize, kind: &ItemKind) -> usize
    requires { functions + 1 < 2 ^ 64 }
    ensures counted { result ≡ (if n.is_function kind.now then suc functions else functions) }
    ensures at_most { result ≤ functions + 1 }
{
    if is_function(kind) {
        functions + 1
    } else {
        functions
    }
}

/// The names in all items, by what names stand for outside functions.
fn all_items(alloc: Global, file: &File, paths: &Paths<'_>) -> Result<Items<ItemNames>, Halt>
    requires { paths.now ≡ file.now }
    ensures { Makes (first (n.marked file.now)) (λ items. items ≡ map o.kept (n.names_of file.now)) result }
{
    let mut items = Items::new(alloc);
    let mut before = hs_scope::Names::new(alloc);
    let mut functions = 0;
    for next in file.items.as_slice() {
        let in_function = is_function(&next.kind);
        let world = World {
            alloc,
            paths: &*paths,
            in_function,
        };
        let names = item(next, functions, &mut before, &world)?;
        items.push(names)?;
        functions = counted(functions, &next.kind);
    }
    Ok(items)
}

/// The names in all items of a file.
fn names_of(alloc: Global, file: &File) -> Result<Items<ItemNames>, Halt>
    ensures { Makes (first (n.marked file.now)) (λ items. items ≡ map o.kept (n.names_of file.now)) result }
{
    match Paths::new(alloc, file) {
        Ok(paths) => all_items(alloc, file, &paths),
        Err(_) => Err(Halt::NoMemory),
    }
}

/// The names of a file in which no other rule of the stage is broken, in the order of its items, or that one needs itself.
fn ordered(alloc: Global, file: &File, items: Items<ItemNames>) -> Result<Names, Stop>
    requires items { items ≡ map o.kept (n.names_of file.now) }
    requires unbroken { o.broken file.now ≡ [] }
    ensures names { o.Resolves file.now result }
    ensures order { IfOk result (λ names. o.EachBehindNeeds file.now names.order) }
{
    let needs = needs(alloc, items.as_slice())?;
    let order = Order::of(alloc, needs.as_slice())?;
    match order.left_out {
        None => Ok(Names {
            items,
            order: order.listed,
        }),
        Some(item) => Err(Stop::Broken(file.text.told(Rule::N7, name_at(file, item)))),
    }
}

/// What each name of a file stands for, and the order of its items.
///
/// # Errors
///
/// The told one of the rules N1 to N7, N10, S3, S5 and S7: of the nodes that break one, the node that ends first in the text; of
/// those that end there the innermost; of the rules that it breaks the one with the least number. N7, which is that an item needs
/// itself, is told only where no other of them is broken, at the name of the first item that no order lists. NoMemory: want of
/// memory.
pub fn resolve(alloc: Global, file: &File) -> Result<Names, Stop>
    requires { NestedFile file.now }
    ensures names { o.Resolves file.now result }
    ensures only_told { (told : Broken) → o.TellsNames file.now told → (result ≡ Err (Stop.Broken told)) ⊎ (result ≡ Err Stop.NoMemory) }
    ensures order { IfOk result (λ names. o.EachBehindNeeds file.now names.order) }
    ensures in_order { IfOk result (λ names. EachInOrder names.items) }
{
    first_is_told();
    match names_of(alloc, file) {
        Ok(items) => ordered(alloc, file, items),
        Err(Halt::NoMemory) => Err(Stop::NoMemory),
        Err(Halt::Breach(breach)) => { Err(Stop::Broken(file.text.told(breach.rule, breach.span))) }
    }
}
