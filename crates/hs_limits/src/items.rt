//! Items and files.

ghost use Rattle.std.specs.Prelude.{◌≡◌, Some, map};
ghost use Rattle.hs_marks.specs.declared.breach.Breach.{Breach};
ghost use Rattle.hs_marks.specs.Says.{SaysNone};
ghost use Rattle.hs_marks.specs.Told.{Answers, Told};
ghost use Rattle.hs_limits.specs.Outline.{one, all, upto, part, parameter};
ghost use Rattle.hs_limits.specs.Nested.{NestedFile};
ghost use Rattle.hs_limits.specs.Nodes.{kind_outline, node_of_item, node_of_ctor, node_of_param};
ghost use Rattle.hs_limits.specs.Breaks.{HeightsAgree, marks_of};
ghost use Rattle.hs_limits.specs.Walk.{first_in};

use crate::flat::{PARTS, is_past, optional_type, ty, tys};
use crate::walk::{block, exp};
use hs_base::rule::Rule;
use hs_marks::{Breach, first_is_told, refuse_if};
use hs_syntax::{Ctor, File, Item, ItemKind, Param};
use sqlite_items::Items;

/// The greatest number of parameters of a function.
const PARAMETERS: usize = 32;

/// The greatest number of constructors of an enum.
const CONSTRUCTORS: usize = 256;

/// The told limit that a file passes, none where it passes none: of the nodes that pass one, the node that ends first in the
/// text; of those that end there, the innermost; of the rules that it breaks, the one with the least number.
///
/// - An expression, a statement or a block has height 64 at most: the node is the first that is higher.
/// - A function has 32 parameters at most, a block 1,024 statements, a tuple as an expression, a type or a pattern, a
///   constructor or a struct 12 parts, an enum 256 constructors: the node is the first past the limit. The expression at a
///   block's end is no statement, and what a constructor is called with, or its pattern has, is not counted.
///
/// It takes time in proportion to the tree's size and no memory. It recurses as deep as brackets, prefixes and blocks nest in
/// the text, and who makes the tree bounds that.
pub fn limits(file: &File) -> Option<Breach>
    requires { NestedFile file.now }
    ensures told { Answers (marks_of file.now) result }
    ensures only { (b : Breach) → Told (marks_of file.now) b → result ≡ Some b }
    ensures heights { HeightsAgree }
{
    first_is_told();
    match items(&file.items) {
        Ok(()) => None,
        Err(breach) => Some(breach),
    }
}

/// Looks over items.
///
/// # Errors
///
/// The limit that is passed first.
pub fn items(items: &Items<Item>) -> Result<(), Breach>
    ensures { SaysNone (first_in (all (map node_of_item items.now))) result }
{
    for next in items.as_slice() {
        item(next)?;
    }
    Ok(())
}

/// Looks over an item.
#[tactic(auto, using(crate::proofs::Names::no_name))]
fn item(item: &Item) -> Result<(), Breach>
    ensures { SaysNone (first_in (one (node_of_item item.now))) result }
{
    kind(&item.kind)
}

/// Looks over what an item declares.
fn kind(kind: &ItemKind) -> Result<(), Breach>
    ensures { SaysNone (first_in (kind_outline kind.now)) result }
{
    match kind {
        ItemKind::Use | ItemKind::Bytes(_, _) | ItemKind::NatMod(_, _, _, _) => Ok(()),
        ItemKind::Const(_, type_, value) => {
            ty(type_)?;
            exp(value, 0)?;
            Ok(())
        }
        ItemKind::Alias(_, type_) | ItemKind::Array(_, _, type_) => ty(type_),
        ItemKind::Struct(_, parts) => tys(parts, Some(PARTS)),
        ItemKind::Enum(_, list) => ctors(list),
        ItemKind::Fn(_, list, type_, body) => {
            params(list)?;
            optional_type(type_)?;
            block(body, 0)?;
            Ok(())
        }
    }
}

/// Looks over the constructors of an enum.
fn ctors(ctors: &Items<Ctor>) -> Result<(), Breach>
    ensures { SaysNone (first_in (upto 256 part (map node_of_ctor ctors.now))) result }
{
    for (index, ctor) in ctors.as_slice().iter().enumerate() {
        tys(&ctor.parts, Some(PARTS))?;
        refuse_if(is_past(Some(CONSTRUCTORS), index), Rule::S8, ctor.span)?;
    }
    Ok(())
}

/// Looks over the parameters of a function.
fn params(params: &Items<Param>) -> Result<(), Breach>
    ensures { SaysNone (first_in (upto 32 parameter (map node_of_param params.now))) result }
{
    for (index, param) in params.as_slice().iter().enumerate() {
        ty(&param.ty)?;
        refuse_if(is_past(Some(PARAMETERS), index), Rule::S4, param.span)?;
    }
    Ok(())
}
