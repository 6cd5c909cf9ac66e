//! What written types mean.

ghost use Rattle.std.specs.Prelude.{◌≡◌, IfOk};
ghost use Rattle.hs_syntax.specs.Texts.{bytes_at};
ghost use Rattle.hs_resolver.specs.Rules.{type_of};
ghost use Rattle.hs_items.specs.Meaning as m;
ghost use Rattle.hs_items.specs.Walk as w;

use crate::decls::Declaration;
use crate::types::referent_of;
use hs_base::memory::NoMemory;
use hs_symbols::{BuiltIn, Referent, Symbols};
use hs_syntax::{Span, Ty};
use hs_values::{Types, ValType};
use sqlite_items::{Boxed, Items};
use std::alloc::Global;

/// The only one of these types, where there is one.
#[tactic(auto, using(crate::proofs::Few::only_last, crate::proofs::Few::not_one))]
fn only(types: Types) -> Option<ValType>
    ensures { result ≡ w.only_one types }
{
    let mut types = types;
    if types.len() == 1 { types.pop() } else { None }
}

/// The two types that these are, where they are two.
#[tactic(auto, using(crate::proofs::Few::both_last, crate::proofs::Few::not_two))]
fn both(types: Types) -> Option<(ValType, ValType)>
    ensures { result ≡ w.only_two types }
{
    let mut types = types;
    if types.len() != 2 {
        return None;
    }
    let second = types.pop()?;
    let first = types.pop()?;
    Some((first, second))
}

/// A built-in name with these types behind it.
#[tactic(auto, using(crate::proofs::Few::made_one, crate::proofs::Few::made_none, crate::proofs::Few::made_two, crate::proofs::Few::made_not_two))]
fn built_in(alloc: Global, word: BuiltIn, types: Types) -> Result<ValType, NoMemory>
    ensures { IfOk result (λ t. t ≡ m.built_type word types) }
{
    match word {
        BuiltIn::Int(kind) => Ok(ValType::Int(kind)),
        BuiltIn::Bool => Ok(ValType::Bool),
        BuiltIn::Seq => match only(types) {
            Some(item) => Ok(ValType::Seq(Boxed::new(alloc, item)?)),
            None => Ok(ValType::Unit),
        },
        BuiltIn::Option => match only(types) {
            Some(item) => Ok(ValType::Option(Boxed::new(alloc, item)?)),
            None => Ok(ValType::Unit),
        },
        BuiltIn::Result => match both(types) {
            Some((good, bad)) => {
                let good = Boxed::new(alloc, good)?;
                Ok(ValType::Result(good, Boxed::new(alloc, bad)?))
            }
            None => Ok(ValType::Unit),
        },
        BuiltIn::Some | BuiltIn::None | BuiltIn::Ok | BuiltIn::Err | BuiltIn::Convert(_, _) => Ok(
            ValType::Unit,
        ),
    }
}

/// What names stand for, and what each item declares, by its place in the file.
#[derive(Clone, Copy)]
pub struct Meanings<'a> {
    pub symbols: &'a Symbols<'a>,
    pub items: &'a [Declaration],
}

impl<'a> Meanings<'a> {
    /// The type that the name of an item stands for, `()` where it stands for none.
    fn of_item(&self, alloc: Global, item: usize) -> Result<ValType, NoMemory>
        ensures { IfOk result (λ t. t ≡ w.stands_in self.now.items.now item) }
    {
        match self.items.get(item) {
            Some(Declaration::Named(ty)) => ty.copy(alloc),
            _ => Ok(ValType::Unit),
        }
    }

    /// A name with these types behind it.
    fn named(&self, alloc: Global, name: Span, types: Types) -> Result<ValType, NoMemory>
        ensures { IfOk result (λ t. t ≡ w.named_in self.now.symbols.now self.now.items.now name types) }
    {
        match referent_of(self.symbols, name, types.len()) {
            Some(Referent::Item(item)) => self.of_item(alloc, item),
            Some(Referent::BuiltIn(word)) => built_in(alloc, word, types),
            Some(Referent::Local(_) | Referent::Ctor(_, _)) | None => Ok(ValType::Unit),
        }
    }

    /// The type that a written type means: names are what they stand for, aliases expanded. The recursion goes as deep as the type
    /// is written. Where a name stands for no type, it is `()`.
    ///
    /// # Errors
    ///
    /// `NoMemory` only for want of memory.
    #[cycle(meaning)]
    pub fn of(&self, alloc: Global, ty: &Ty) -> Result<ValType, NoMemory>
        ensures { IfOk result (λ t. t ≡ m.meaning self.now.symbols.now (w.stands_in self.now.items.now) ty.now) }
    {
        match ty {
            Ty::Name(name) => self.named(alloc, *name, Items::new(alloc)),
            Ty::Unit(_) => Ok(ValType::Unit),
            Ty::Tuple(_, parts) => Ok(ValType::Tuple(self.of_all(alloc, parts)?)),
            Ty::Applied(_, name, parts) => self.named(alloc, *name, self.of_all(alloc, parts)?),
        }
    }

    /// The types that written types mean.
    ///
    /// # Errors
    ///
    /// `NoMemory` only for want of memory.
    #[cycle(meaning)]
    pub fn of_all(&self, alloc: Global, types: &Items<Ty>) -> Result<Types, NoMemory>
        ensures { IfOk result (λ ts. ts ≡ m.meanings self.now.symbols.now (w.stands_in self.now.items.now) types.now) }
    {
        let mut all = Items::new(alloc);
        for ty in types.as_slice() {
            all.push(self.of(alloc, ty)?)?;
        }
        Ok(all)
    }

    /// The type of what a function gives, `()` where none is written.
    pub fn of_result(&self, alloc: Global, ty: &Option<Ty>) -> Result<ValType, NoMemory>
        ensures { IfOk result (λ t. t ≡ m.result_type self.now.symbols.now (w.stands_in self.now.items.now) ty.now) }
    {
        match ty {
            None => Ok(ValType::Unit),
            Some(ty) => self.of(alloc, ty),
        }
    }
}
