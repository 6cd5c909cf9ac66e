//! What items declare, one item after the other in their order.

ghost use Rattle.std.specs.Prelude.{◌≡◌, ◌<◌, ◌≤◌, [], ◌++◌, ◌∷◌, map, length, replicate, slice_get, slice_set, option_to_list, IfOk, OnOk};
ghost use Rattle.hs_syntax.specs.Texts.{bytes_at};
ghost use Rattle.hs_items.specs.Meaning as m;
ghost use Rattle.hs_items.specs.Declares as e;
ghost use Rattle.hs_items.specs.Walk as w;

use crate::checks::derives_copy;
use crate::decls::{Declaration, Decls, Function, Passing};
use crate::facts::Facts;
use crate::meaning::Meanings;
use hs_base::memory::NoMemory;
use hs_base::name::Name;
use hs_symbols::Symbols;
use hs_syntax::{Ctor, Int, Item, ItemKind, Mode, Param, Span, Ty};
use hs_values::{Ctors, Header, TypeDef, TypeKind, TypeTable, Types, ValType};
use hs_words::IntTy;
use sqlite_items::Items;
use std::alloc::Global;

/// How the argument of a parameter is passed.
fn passing(mode: Mode) -> Passing
    ensures { result ≡ m.passing_of mode }
{
    match mode {
        Mode::Value | Mode::Mut => Passing::Value,
        Mode::Shared => Passing::Shared,
        Mode::Lent => Passing::Mutable,
    }
}

/// How the arguments of parameters are passed.
fn passings(alloc: Global, params: &[Param]) -> Result<Items<Passing>, NoMemory>
    ensures { IfOk result (λ modes. modes ≡ w.passings params.now) }
{
    let mut modes = Items::new(alloc);
    for param in params {
        modes.push(passing(param.mode))?;
    }
    Ok(modes)
}

impl<'a> Meanings<'a> {
    /// A name as it is spelled.
    fn name(&self, alloc: Global, name: Span) -> Result<Name, NoMemory>
        ensures { IfOk result (λ n. n ≡ bytes_at self.now.symbols.now.text name) }
    {
        Name::of_bytes(alloc, self.symbols.spelled(name))
    }

    /// The types of parameters.
    fn of_params(&self, alloc: Global, params: &[Param]) -> Result<Types, NoMemory>
        ensures { IfOk result (λ ts. ts ≡ w.param_types self.now.symbols.now self.now.items.now params.now) }
    {
        let mut types = Items::new(alloc);
        for param in params {
            types.push(self.of(alloc, &param.ty)?)?;
        }
        Ok(types)
    }

    /// The types of the mutable parameters.
    fn of_lent(&self, alloc: Global, params: &[Param]) -> Result<Types, NoMemory>
        ensures { IfOk result (λ ts. ts ≡ m.lent_types self.now.symbols.now (w.stands_in self.now.items.now) params.now) }
    {
        let mut types = Items::new(alloc);
        for param in params {
            if param.mode == Mode::Lent {
                types.push(self.of(alloc, &param.ty)?)?;
            }
        }
        Ok(types)
    }

    /// What a call gives.
    fn given(&self, alloc: Global, params: &[Param], own: ValType) -> Result<ValType, NoMemory>
        ensures { IfOk result (λ t. t ≡ m.given (m.lent_types self.now.symbols.now (w.stands_in self.now.items.now) params.now) own) }
    {
        let mut types = self.of_lent(alloc, params)?;
        if types.is_empty() {
            return Ok(own);
        }
        types.push(own)?;
        Ok(ValType::Tuple(types))
    }

    /// What is known of a function without its body.
    fn of_function(
        &self,
        alloc: Global,
        name: Span,
        params: &[Param],
        ty: &Option<Ty>,
    ) -> Result<Function, NoMemory>
        ensures { IfOk result (λ f. f ≡ m.function self.now.symbols.now (w.stands_in self.now.items.now) name params.now ty.now) }
    {
        let result = self.of_result(alloc, ty)?;
        let header = Header {
            name: self.name(alloc, name)?,
            params: self.of_params(alloc, params)?,
            result: self.given(alloc, params, result.copy(alloc)?)?,
        };
        Ok(Function {
            header,
            modes: passings(alloc, params)?,
            result,
        })
    }

    /// The constructors of an enum.
    fn of_ctors(&self, alloc: Global, ctors: &[Ctor]) -> Result<Ctors, NoMemory>
        ensures { IfOk result (λ cs. cs ≡ m.ctors self.now.symbols.now (w.stands_in self.now.items.now) ctors.now) }
    {
        let mut all = Items::new(alloc);
        for ctor in ctors {
            let name = self.name(alloc, ctor.name)?;
            all.push((name, self.of_all(alloc, &ctor.parts)?))?;
        }
        Ok(all)
    }

    /// The one constructor of a struct.
    fn of_struct(&self, alloc: Global, name: Span, parts: &Items<Ty>) -> Result<Ctors, NoMemory>
        ensures { IfOk result (λ cs. cs ≡ w.struct_ctors self.now.symbols.now self.now.items.now name parts.now) }
    {
        let mut all = Items::new(alloc);
        let title = self.name(alloc, name)?;
        all.push((title, self.of_all(alloc, parts)?))?;
        Ok(all)
    }
}

/// An array type of so many items.
fn array(length: Int, item: ValType) -> TypeKind
    requires { length.value ≤ 65536 }
    ensures { result ≡ TypeKind.Array length.value item }
{
    TypeKind::Array(length.value as u32, item)
}

impl<'a> Meanings<'a> {
    /// An entry of the table.
    fn entry(
        &self,
        alloc: Global,
        name: Span,
        copies: bool,
        kind: TypeKind,
    ) -> Result<Option<TypeDef>, NoMemory>
        ensures { IfOk result (λ made. option_to_list made ≡ record { name = bytes_at self.now.symbols.now.text name; copies = copies; kind = kind } ∷ []) }
    {
        Ok(Some(TypeDef {
            name: self.name(alloc, name)?,
            copies,
            kind,
        }))
    }

    /// The entry of the table that an item makes, where it makes one. A struct or an enum may be copied.
    fn definition(
        &self,
        alloc: Global,
        copies: bool,
        kind: &ItemKind,
    ) -> Result<Option<TypeDef>, NoMemory>
        requires { w.LengthFits kind.now }
        ensures { IfOk result (λ made. option_to_list made ≡ m.definitions self.now.symbols.now (w.stands_in self.now.items.now) copies kind.now) }
    {
        match kind {
            ItemKind::Use
            | ItemKind::Const(_, _, _)
            | ItemKind::Alias(_, _)
            | ItemKind::Fn(_, _, _, _)
            | ItemKind::NatMod(_, _, _, _) => Ok(None),
            ItemKind::Struct(name, parts) => {
                let ctors = self.of_struct(alloc, *name, parts)?;
                self.entry(alloc, *name, copies, TypeKind::Ctors(ctors))
            }
            ItemKind::Enum(name, ctors) => {
                let ctors = self.of_ctors(alloc, ctors.as_slice())?;
                self.entry(alloc, *name, copies, TypeKind::Ctors(ctors))
            }
            ItemKind::Array(name, length, ty) => {
                let item = self.of(alloc, ty)?;
                self.entry(alloc, *name, true, array(*length, item))
            }
            ItemKind::Bytes(name, length) => {
                let item = ValType::Int(IntTy::SU8);
                self.entry(alloc, *name, true, array(*length, item))
            }
        }
    }

    /// What an item declares; a type with a name has this number.
    fn declaration(
        &self,
        alloc: Global,
        number: u32,
        kind: &ItemKind,
    ) -> Result<Declaration, NoMemory>
        ensures { IfOk result (λ d. d ≡ m.declaration self.now.symbols.now (w.stands_in self.now.items.now) number kind.now) }
    {
        match kind {
            ItemKind::Use | ItemKind::NatMod(_, _, _, _) => Ok(Declaration::Nothing),
            ItemKind::Const(_, ty, _) => Ok(Declaration::Constant(self.of(alloc, ty)?)),
            ItemKind::Alias(_, ty) => Ok(Declaration::Named(self.of(alloc, ty)?)),
            ItemKind::Struct(_, _)
            | ItemKind::Enum(_, _)
            | ItemKind::Array(_, _, _)
            | ItemKind::Bytes(_, _) => Ok(Declaration::Named(ValType::Named(number))),
            ItemKind::Fn(name, params, ty, _) => {
                let function = self.of_function(alloc, *name, params.as_slice(), ty)?;
                Ok(Declaration::Function(function))
            }
        }
    }
}

/// For each of so many items that it declares nothing.
fn all_nothing(alloc: Global, count: usize) -> Result<Items<Declaration>, NoMemory>
    ensures { IfOk result (λ all. all ≡ replicate count Declaration.Nothing) }
{
    let mut all = Items::new(alloc);
    for _item in 0..count {
        all.push(Declaration::Nothing)?;
    }
    Ok(all)
}

/// Adds what the item at this place declares.
fn list<'a>(
    alloc: Global,
    item: &Item,
    place: usize,
    symbols: &Symbols<'a>,
    of_item: Facts,
    decls: &mut Decls,
) -> Result<(), NoMemory>
    requires fits { w.LengthFits item.now.kind }
    requires place { place < length decls.old.items }
    requires few { length decls.old.table ≤ 4294967295 }
    ensures table { OnOk result (decls.new.table ≡ decls.old.table ++ m.definitions symbols.now (w.stands_in decls.old.items) (m.derives_copy symbols.now item.now.derives) item.now.kind) }
    ensures items { OnOk result (decls.new.items ≡ slice_set decls.old.items place (m.declaration symbols.now (w.stands_in decls.old.items) (length decls.old.table) item.now.kind)) }
    ensures facts { OnOk result (decls.new.facts ≡ decls.old.facts ++ w.facts_if (m.definitions symbols.now (w.stands_in decls.old.items) (m.derives_copy symbols.now item.now.derives) item.now.kind) of_item) }
{
    let number = decls.table.len() as u32;
    let copies = derives_copy(item.derives.as_slice(), symbols);
    let meanings = Meanings {
        symbols: &*symbols,
        items: decls.items.as_slice(),
    };
    let made = meanings.definition(alloc, copies, &item.kind)?;
    let declared = meanings.declaration(alloc, number, &item.kind)?;
    decls.items.set(place, declared);
    if let Some(entry) = made {
        decls.table.push(entry)?;
        decls.facts.push(of_item)?;
    }
    Ok(())
}

/// What the items of a file declare, by what is asked of the name of each. Each stands in the order once, so that 32 bits number
/// the entries of the table.
pub fn list_all<'a>(
    alloc: Global,
    symbols: &Symbols<'a>,
    order: &[usize],
    facts: &[Facts],
) -> Result<Decls, NoMemory>
    requires fits { w.AllFit symbols.now.items }
    requires once { w.EachOnce order.now }
    requires few { length order.now ≤ 4294967295 }
    requires facts { w.AgreeWith symbols.now (m.known symbols.now order.now) facts.now }
    ensures { IfOk result (λ decls. e.AreDecls symbols.now order.now decls) }
{
    let items = symbols.items();
    let mut decls = Decls {
        table: Items::new(alloc),
        items: all_nothing(alloc, items.len())?,
        facts: Items::new(alloc),
    };
    for place in order {
        let Some(item) = items.get(*place) else {
            continue;
        };
        let of_item = facts.get(*place).copied().unwrap_or(Facts::single());
        list(alloc, item, *place, symbols, of_item, &mut decls)?;
    }
    Ok(decls)
}
