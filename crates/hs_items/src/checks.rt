//! Items: the rules that each breaks, and the written types in it.

ghost use Rattle.std.specs.Prelude.{◌≡◌, ◌≤◌, map, OnOk};
ghost use Rattle.hs_syntax.specs.Texts.{bytes_at};
ghost use Rattle.hs_marks.specs.First.{first, breach};
ghost use Rattle.hs_marks.specs.Says.{Says, SaysNone};
ghost use Rattle.hs_items.specs.Marks as m;
ghost use Rattle.hs_items.specs.Meaning as means;
ghost use Rattle.hs_items.specs.Nodes as n;
ghost use Rattle.hs_items.specs.Walk as w;

use crate::bodies::{block, exp};
use crate::facts::Facts;
use crate::types::World;
use hs_base::rule::Rule;
use hs_marks::{Breach, refuse_if};
use hs_symbols::Symbols;
use hs_syntax::{Ctor, Item, ItemKind, Param, Span};
use sqlite_items::Items;

/// Whether a derive list names `Copy`.
pub fn derives_copy<'a>(names: &[Span], symbols: &Symbols<'a>) -> bool
    ensures { result ≡ means.derives_copy symbols.now names.now }
{
    for name in names {
        if symbols.spelled(*name) == b"Copy".as_slice() {
            return true;
        }
    }
    false
}

/// What is asked of the parts of all constructors.
fn ctors<'a>(ctors: &Items<Ctor>, world: &World<'a>) -> Result<Facts, Breach>
    ensures { Says (first (n.row (map (n.in_ctor (w.nodes_of_ty world.now.symbols.now (w.at world.now.facts.now))) ctors.now))) (λ f. f ≡ w.facts_of_ctors world.now.symbols.now (w.at world.now.facts.now) ctors.now) result }
{
    let mut row = Facts::nothing();
    for ctor in ctors.as_slice() {
        row = row.joined(world.check_all(&ctor.parts)?);
    }
    Ok(row)
}

/// The types of parameters.
fn params<'a>(params: &Items<Param>, world: &World<'a>) -> Result<(), Breach>
    ensures { SaysNone (first (n.row (map (n.in_param (w.nodes_of_ty world.now.symbols.now (w.at world.now.facts.now))) params.now))) result }
{
    for param in params.as_slice() {
        world.check(&param.ty)?;
    }
    Ok(())
}

/// An array of so many items of a type of which this is asked.
#[tactic(auto, using(crate::proofs::Counts::breach_behind, crate::proofs::Counts::breach_before, crate::proofs::Counts::kept, crate::proofs::Counts::count_bound))]
fn array(span: Span, length: u128, item: Facts) -> Result<(), Breach>
    ensures fits { OnOk result (length ≤ 65536) }
    ensures first { SaysNone (breach span (m.array_rules length item)) result }
{
    refuse_if(item.is_wrong_count(length), Rule::N8, span)?;
    refuse_if(item.is_unfit(), Rule::N11, span)
}

/// A struct or an enum, which may be copied, with parts of which this is asked.
fn data_type(span: Span, copies: bool, parts: Facts) -> Result<(), Breach>
    ensures { SaysNone (breach span (m.data_rules copies parts.copied)) result }
{
    refuse_if(copies && !parts.copied, Rule::N9, span)
}

/// Looks over an item.
///
/// # Errors
///
/// The rule that is broken first.
#[tactic(auto, using(crate::proofs::Copied::tys_copied, crate::proofs::Copied::ctors_are_copied, crate::proofs::Copied::bytes_rules))]
pub fn item<'a>(item: &Item, world: &World<'a>) -> Result<(), Breach>
    ensures fits { OnOk result (w.LengthFits item.now.kind) }
    ensures first { SaysNone (first (m.item_nodes (w.facts_of_ty world.now.symbols.now (w.at world.now.facts.now)) (w.nodes_of_ty world.now.symbols.now (w.at world.now.facts.now)) world.now.symbols.now item.now)) result }
{
    match &item.kind {
        ItemKind::Use => Ok(()),
        ItemKind::Const(_, ty, value) => {
            world.check(ty)?;
            exp(value, world)
        }
        ItemKind::Alias(_, ty) => {
            world.check(ty)?;
            Ok(())
        }
        ItemKind::Struct(_, parts) => {
            let parts = world.check_all(parts)?;
            let copies = derives_copy(item.derives.as_slice(), world.symbols);
            data_type(item.span, copies, parts)
        }
        ItemKind::Enum(_, list) => {
            let parts = ctors(list, world)?;
            let copies = derives_copy(item.derives.as_slice(), world.symbols);
            data_type(item.span, copies, parts)
        }
        ItemKind::Fn(_, list, ty, body) => {
            params(list, world)?;
            world.check_optional(ty)?;
            block(body, world)
        }
        ItemKind::Array(_, length, ty) => {
            let item_facts = world.check(ty)?;
            array(item.span, length.value, item_facts)
        }
        ItemKind::Bytes(_, length) => array(item.span, length.value, Facts::single()),
        ItemKind::NatMod(_, _, _, _) => Err(Breach {
            rule: Rule::N12,
            span: item.span,
        }),
    }
}

/// Looks over items.
///
/// # Errors
///
/// The rule that is broken first.
pub fn items<'a>(items: &[Item], world: &World<'a>) -> Result<(), Breach>
    ensures fit { OnOk result (w.AllFit items.now) }
    ensures first { SaysNone (first (m.items_nodes (w.facts_of_ty world.now.symbols.now (w.at world.now.facts.now)) (w.nodes_of_ty world.now.symbols.now (w.at world.now.facts.now)) world.now.symbols.now items.now)) result }
{
    for next in items {
        item(next, world)?;
    }
    Ok(())
}
