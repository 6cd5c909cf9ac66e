//! The stage of declarations.

ghost use Rattle.std.specs.Prelude.{◌≡◌, ◌⊎◌, ◌≤◌, ◌<◌, ◌^◌, length, Ok, Err, IfOk};
ghost use Rattle.hs_base.specs.declared.place.Broken.{Broken};
ghost use Rattle.hs_limits.specs.Nested.{NestedFile};
ghost use Rattle.hs_resolver.specs.Order.{Resolves};
ghost use Rattle.hs_items.specs.Declares as e;
ghost use Rattle.hs_items.specs.Promises as p;
ghost use Rattle.hs_items.specs.Walk as w;

use crate::checks;
use crate::decls::Decls;
use crate::listing::list_all;
use crate::order::facts_of_items;
use crate::types::World;
use hs_base::place::Stop;
use hs_marks::{Halt, first_is_told};
use hs_resolver::Names;
use hs_symbols::Symbols;
use hs_syntax::{File, Item};
use std::alloc::Global;

/// The end of the last item, 0 where there is none. There are no more items than that, since each has a byte.
fn end_of(items: &[Item]) -> u32
    requires { w.NestedItems items.now }
    ensures { length items.now ≤ result }
{
    match items.last() {
        Some(last) => last.span.end,
        None => 0,
    }
}

/// Items number less than 2^32.
fn are_few(items: &[Item])
    requires { w.NestedItems items.now }
    ensures { length items.now < 2 ^ 32 }
{
    let _end = end_of(items);
}

/// What the items of a file declare, in an order in which each stands once.
///
/// # Errors
///
/// The told one of the rules that are broken, or want of memory.
fn declared<'a>(alloc: Global, symbols: &Symbols<'a>, order: &[usize]) -> Result<Decls, Halt>
    requires nested { NestedFile symbols.now }
    requires once { w.EachOnce order.now }
    requires few { length order.now ≤ length symbols.now.items }
    ensures { e.DeclaresIn symbols.now order.now result }
{
    first_is_told();
    let facts = facts_of_items(alloc, symbols, order)?;
    let world = World {
        symbols: &*symbols,
        facts: facts.as_slice(),
    };
    match checks::items(symbols.items(), &world) {
        Err(breach) => Err(Halt::Breach(breach)),
        Ok(()) => {
            let _end = end_of(symbols.items());
            Ok(list_all(alloc, symbols, order, facts.as_slice())?)
        }
    }
}

/// What the items of a file declare, by what its names stand for: the types with names in the order of their items, and for each
/// item the type that its name stands for with all aliases expanded, the type of a constant, or what is known of a function
/// without its body.
///
/// It takes time in proportion to the file, whatever its types expand to, but that each type that is given is written out with
/// its aliases expanded, which gives it 4,096 nodes at most.
///
/// # Errors
///
/// The told one of the rules N8, N9, N11, N12 and S2: of the nodes that break one, the node that ends first in the text; of those
/// that end there the innermost; of the rules that it breaks the one with the least number. Nodes are items and written types.
/// NoMemory: want of memory.
pub fn items(alloc: Global, file: &File, names: &Names) -> Result<Decls, Stop>
    requires nested { NestedFile file.now }
    requires resolved { Resolves file.now (Ok names.now) }
    ensures exact { e.Declares file.now names.now result }
    ensures only_told { (told : Broken) → e.TellsDecls file.now told → (result ≡ Err (Stop.Broken told)) ⊎ (result ≡ Err Stop.NoMemory) }
    ensures earlier { IfOk result (λ decls. e.NamesEarlier decls.table) }
    ensures entries { IfOk result (λ decls. e.NamesEntries decls.table decls.items) }
    ensures few { IfOk result (λ decls. p.Few decls) }
    ensures sure { IfOk result (λ decls. p.Sure file.now names.now.order decls) }
    ensures whole { IfOk result (λ decls. p.IsReadWell file.now → p.SureWhole file.now decls) }
{
    first_is_told();
    let symbols = Symbols::new(alloc, file)?;
    match declared(alloc, &symbols, names.order.as_slice()) {
        Ok(decls) => {
            are_few(file.items.as_slice());
            Ok(decls)
        }
        Err(Halt::Breach(breach)) => Err(Stop::Broken(file.text.told(breach.rule, breach.span))),
        Err(Halt::NoMemory) => Err(Stop::NoMemory),
    }
}
