//! Items.

ghost use Rattle.std.specs.Prelude.{◌≡◌, true, false, [], ◌∷◌, ◌++◌, map, OnOk, IfOk};
ghost use Rattle.hs_syntax.specs.Texts.{bytes_at};
ghost use Rattle.hs_marks.specs.First.{first};
ghost use Rattle.hs_marks.specs.Says.{Makes};
ghost use Rattle.hs_resolver.specs.declared.known.Known.{Known};
ghost use Rattle.hs_resolver.specs.Rules as u;
ghost use Rattle.hs_resolver.specs.Names as n;
ghost use Rattle.hs_resolver.specs.Order.{kept};
ghost use Rattle.hs_resolver.specs.Parts as p;
ghost use Rattle.hs_resolver.specs.Parts.{◌&◌};
ghost use Rattle.hs_resolver.specs.Walks.{Walks, Began};

use crate::flat::{optional_ty, ty, tys};
use crate::known::Known;
use crate::names::ItemNames;
use crate::walk::{block, exp};
use crate::world::{World, broken};
use hs_base::memory::NoMemory;
use hs_base::rule::Rule;
use hs_marks::Halt;
use hs_scope::{Names, Scope};
use hs_symbols::built_in;
use hs_syntax::{Block, Ctor, Exp, Item, ItemKind, Param, Span, Ty};
use sqlite_items::Items;
use std::alloc::Global;

/// The most functions of a file.
const FUNCTIONS: usize = 4096;

/// Whether an item before this one has its name, or the name is built in. It is added to those before it.
fn taken<'a>(name: Span, before: &mut Names<'a>, world: &World<'a>) -> Result<bool, NoMemory>
    ensures taken { IfOk result (λ taken. taken ≡ u.taken world.now.paths.now (bytes_at world.now.paths.now.text name) before.old) }
    ensures before { OnOk result (before.new ≡ before.old ++ bytes_at world.now.paths.now.text name ∷ []) }
{
    let bytes = world.spelled(name);
    if before.add(bytes)? {
        Ok(built_in(bytes).is_some())
    } else {
        Ok(true)
    }
}

/// The name of an item, behind those of the items before it.
fn item_name<'a>(
    name: Span,
    before: &mut Names<'a>,
    world: &World<'a>,
    known: &Known,
) -> Result<(), Halt>
    ensures walks { Walks (n.item_name world.now.paths.now name before.old) known.now known.now result }
    ensures before { OnOk result (before.new ≡ before.old ++ bytes_at world.now.paths.now.text name ∷ []) }
{
    if taken(name, before, world)? {
        return Err(broken(Rule::N5, name));
    }
    Ok(())
}

/// The name of a constructor, behind those of its enum before it.
fn ctor_title<'a>(
    name: Span,
    before: &mut Names<'a>,
    world: &World<'a>,
    known: &Known,
) -> Result<(), Halt>
    ensures walks { Walks (n.ctor_title world.now.paths.now name before.old) known.now known.now result }
    ensures before { OnOk result (before.new ≡ before.old ++ bytes_at world.now.paths.now.text name ∷ []) }
{
    if world.repeated(name, before)? {
        return Err(broken(Rule::N6, name));
    }
    Ok(())
}

/// The constructors of an enum.
fn ctors<'a>(ctors: &Items<Ctor>, world: &World<'a>, known: &mut Known) -> Result<(), Halt>
    ensures { Walks (n.ctors_behind world.now.paths.now ctors.now []) known.old known.new result }
{
    let mut before = Names::new(world.alloc);
    for ctor in ctors.as_slice() {
        ctor_title(ctor.name, &mut before, world, known)?;
        tys(&ctor.parts, world, known)?;
    }
    Ok(())
}

/// A parameter of a function, behind those of its list before it.
fn param<'a>(
    param: &Param,
    before: &mut Names<'a>,
    world: &World<'a>,
    known: &mut Known,
) -> Result<(), Halt>
    requires began { Began world.now.paths.now.text before.old 0 known.old }
    requires function { world.now.in_function ≡ true }
    ensures walks { Walks (n.names_of_param world.now.paths.now param.now) known.old known.new result }
    ensures began { OnOk result (Began world.now.paths.now.text before.new 0 known.new) }
{
    world.binder(param.name, 0, before, known)?;
    ty(&param.ty, world, known)
}

/// The parameters of a function, which are its first binding places.
fn params<'a>(params: &Items<Param>, world: &World<'a>, known: &mut Known) -> Result<(), Halt>
    requires first { known.old.places ≡ [] }
    requires function { world.now.in_function ≡ true }
    ensures { Walks (p.all (map (n.names_of_param world.now.paths.now) params.now)) known.old known.new result }
{
    let mut before = Names::new(world.alloc);
    for one in params.as_slice() {
        param(one, &mut before, world, known)?;
    }
    Ok(())
}

/// The names of parameters, in scope where a function's body begins.
fn parameters<'a>(params: &Items<Param>, world: &World<'a>) -> Result<Scope<'a>, NoMemory>
    ensures { IfOk result (λ scope. scope ≡ n.parameters world.now.paths.now params.now) }
{
    let mut scope = Scope::new(world.alloc);
    for (number, param) in params.as_slice().iter().enumerate() {
        scope.bind(world.spelled(param.name), number)?;
    }
    Ok(scope)
}

/// What is known where an item begins.
fn fresh(alloc: Global) -> Known
    ensures { result ≡ n.fresh }
{
    Known {
        places: Items::new(alloc),
        exits: Items::new(alloc),
        uses: Items::new(alloc),
    }
}

/// Whether an item is a function.
pub fn is_function(kind: &ItemKind) -> bool
    ensures { result ≡ n.is_function kind.now }
{
    matches!(kind, ItemKind::Fn(_, _, _, _))
}

/// The name of a constant, its type and its value, in which nothing is in scope.
fn constant<'a>(
    name: Span,
    type_: &Ty,
    value: &Exp,
    before: &mut Names<'a>,
    world: &World<'a>,
    known: &mut Known,
) -> Result<(), Halt>
    requires { world.now.in_function ≡ false }
    ensures walks { Walks (n.item_name world.now.paths.now name before.old & n.names_of_ty world.now.paths.now type_.now & n.names_of_exp world.now.paths.now false value.now []) known.old known.new result }
    ensures before { OnOk result (before.new ≡ before.old ++ bytes_at world.now.paths.now.text name ∷ []) }
{
    item_name(name, before, world, known)?;
    ty(type_, world, known)?;
    exp(value, &mut Scope::new(world.alloc), world, known)
}

/// The name of an alias or of an array, and a type.
fn typed<'a>(
    name: Span,
    type_: &Ty,
    before: &mut Names<'a>,
    world: &World<'a>,
    known: &mut Known,
) -> Result<(), Halt>
    ensures walks { Walks (n.item_name world.now.paths.now name before.old & n.names_of_ty world.now.paths.now type_.now) known.old known.new result }
    ensures before { OnOk result (before.new ≡ before.old ++ bytes_at world.now.paths.now.text name ∷ []) }
{
    item_name(name, before, world, known)?;
    ty(type_, world, known)
}

/// The name of a struct, and the types of its parts.
fn struct_<'a>(
    name: Span,
    parts: &Items<Ty>,
    before: &mut Names<'a>,
    world: &World<'a>,
    known: &mut Known,
) -> Result<(), Halt>
    ensures walks { Walks (n.item_name world.now.paths.now name before.old & n.names_of_tys world.now.paths.now parts.now) known.old known.new result }
    ensures before { OnOk result (before.new ≡ before.old ++ bytes_at world.now.paths.now.text name ∷ []) }
{
    item_name(name, before, world, known)?;
    tys(parts, world, known)
}

/// The name of an enum, and its constructors.
fn enum_<'a>(
    name: Span,
    list: &Items<Ctor>,
    before: &mut Names<'a>,
    world: &World<'a>,
    known: &mut Known,
) -> Result<(), Halt>
    ensures walks { Walks (n.item_name world.now.paths.now name before.old & n.ctors_behind world.now.paths.now list.now []) known.old known.new result }
    ensures before { OnOk result (before.new ≡ before.old ++ bytes_at world.now.paths.now.text name ∷ []) }
{
    item_name(name, before, world, known)?;
    ctors(list, world, known)
}

/// The names of a `nat_mod!`.
fn nat_mod<'a>(
    name: Span,
    canvas: Span,
    before: &mut Names<'a>,
    world: &World<'a>,
    known: &mut Known,
) -> Result<(), Halt>
    ensures walks { Walks (n.item_name world.now.paths.now name before.old & n.item_name world.now.paths.now canvas (before.old ++ bytes_at world.now.paths.now.text name ∷ [])) known.old known.new result }
    ensures before { OnOk result (before.new ≡ before.old ++ bytes_at world.now.paths.now.text name ∷ bytes_at world.now.paths.now.text canvas ∷ []) }
{
    item_name(name, before, world, known)?;
    item_name(canvas, before, world, known)
}

/// The parameters of a function, its type and its body.
fn function<'a>(
    given: &Items<Param>,
    type_: &Option<Ty>,
    body: &Block,
    world: &World<'a>,
    known: &mut Known,
) -> Result<(), Halt>
    requires first { known.old.places ≡ [] }
    requires function { world.now.in_function ≡ true }
    ensures { Walks (p.all (map (n.names_of_param world.now.paths.now) given.now) & n.optional_ty world.now.paths.now type_.now & n.names_of_block world.now.paths.now true body.now (n.parameters world.now.paths.now given.now)) known.old known.new result }
{
    params(given, world, known)?;
    optional_ty(type_, world, known)?;
    block(body, &mut parameters(given, world)?, world, known)
}

/// The name of a function, and what it is made of.
fn named_function<'a>(
    name: Span,
    given: &Items<Param>,
    type_: &Option<Ty>,
    body: &Block,
    before: &mut Names<'a>,
    world: &World<'a>,
    known: &mut Known,
) -> Result<(), Halt>
    requires first { known.old.places ≡ [] }
    requires function { world.now.in_function ≡ true }
    ensures walks { Walks (n.item_name world.now.paths.now name before.old & p.all (map (n.names_of_param world.now.paths.now) given.now) & n.optional_ty world.now.paths.now type_.now & n.names_of_block world.now.paths.now true body.now (n.parameters world.now.paths.now given.now)) known.old known.new result }
    ensures before { OnOk result (before.new ≡ before.old ++ bytes_at world.now.paths.now.text name ∷ []) }
{
    item_name(name, before, world, known)?;
    function(given, type_, body, world, known)
}

/// The names of what an item declares, behind those of the items before it.
fn kind<'a>(
    kind: &ItemKind,
    before: &mut Names<'a>,
    world: &World<'a>,
    known: &mut Known,
) -> Result<(), Halt>
    requires first { known.old.places ≡ [] }
    requires function { world.now.in_function ≡ n.is_function kind.now }
    ensures walks { Walks (n.kind_part world.now.paths.now kind.now before.old) known.old known.new result }
    ensures before { OnOk result (before.new ≡ before.old ++ n.names_by world.now.paths.now kind.now) }
{
    match kind {
        ItemKind::Use => Ok(()),
        ItemKind::Const(name, type_, value) => {
            constant(*name, type_, value, before, world, known)
        }
        ItemKind::Alias(name, type_) => typed(*name, type_, before, world, known),
        ItemKind::Struct(name, parts) => struct_(*name, parts, before, world, known),
        ItemKind::Enum(name, list) => enum_(*name, list, before, world, known),
        ItemKind::Fn(name, given, type_, body) => {
            named_function(*name, given, type_, body, before, world, known)
        }
        ItemKind::Array(name, _, type_) => typed(*name, type_, before, world, known),
        ItemKind::Bytes(name, _) => item_name(*name, before, world, known),
        ItemKind::NatMod(name, canvas, _, _) => nat_mod(*name, *canvas, before, world, known),
    }
}

/// The names in an item, behind so many functions and the names of the items before it.
pub fn item<'a>(
    item: &Item,
    functions: usize,
    before: &mut Names<'a>,
    world: &World<'a>,
) -> Result<ItemNames, Halt>
    requires { world.now.in_function ≡ n.is_function item.now.kind }
    ensures made { Makes (first (n.item_part world.now.paths.now item.now functions before.old n.fresh).nodes) (λ names. names ≡ kept (n.item_part world.now.paths.now item.now functions before.old n.fresh)) result }
    ensures before { OnOk result (before.new ≡ before.old ++ n.names_by world.now.paths.now item.now.kind) }
{
    let mut known = fresh(world.alloc);
    kind(&item.kind, before, world, &mut known)?;
    if world.in_function && functions == FUNCTIONS {
        return Err(broken(Rule::S3, item.span));
    }
    Ok(ItemNames {
        places: known.places,
        uses: known.uses,
    })
}
