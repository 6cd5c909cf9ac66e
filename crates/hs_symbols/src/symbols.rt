//! What names stand for outside functions.

ghost use Rattle.std.specs.Prelude.{◌≡◌, ◌++◌, map, IfOk, OnOk};
ghost use Rattle.hs_syntax.specs.Texts.{bytes_at};
ghost use Rattle.hs_symbols.specs.declared.declared.Declared.{Declared};
ghost use Rattle.hs_scope.specs.Scope.{Binding, look};
ghost use Rattle.hs_symbols.specs.Symbols as y;

use crate::declared::{Declared, Sort};
use crate::referent::Referent;
use crate::words::{built_in, called_word, ctor_word, empty_ctor, type_word};
use hs_base::memory::NoMemory;
use hs_scope::{Names, Scope};
use hs_syntax::{File, Item, ItemKind, Span, Text};
use sqlite_items::Items;
use std::alloc::Global;
use std::marker::Model;

/// What the items of a file declare, by name.
#[derive(Drop)]
pub struct Symbols<'a> {
    file: &'a File,
    declared: Items<Declared>,
    titles: Names<'a>,
}

impl<'a> Model for Symbols<'a> {
    ghost use Rattle.hs_syntax.specs.declared.file.File.{File};
    ghost use Rattle.hs_syntax.specs.contracts.ty.Ty as ty;
    ghost use Rattle.hs_syntax.specs.contracts.pat.Pat as pat;
    ghost use Rattle.hs_syntax.specs.contracts.exp.Exp as exp;
    ghost use Rattle.hs_syntax.specs.contracts.exp.Block as block;
    ghost use Rattle.std.specs.Coded.{codes};

    ghost Value = { File };

    ghost coded = { Prim.hlevel (codes, ty.the_row.coded, pat.the_row.coded, exp.the_row.coded, block.the_row.coded) };

    ghost use Rattle.hs_symbols.specs.Kept.{Kept};

    ghost view = { λ s. s.file.now };

    ghost invariant = { λ s. Kept s.file.now s.declared s.titles };
}

/// Adds what an item of this number declares.
fn declare(declared: &mut Items<Declared>, item: usize, kind: &ItemKind) -> Result<(), NoMemory>
    ensures { OnOk result (declared.new ≡ declared.old ++ y.declared_by item kind.now) }
{
    let (name, sort) = match kind {
        ItemKind::Use => return Ok(()),
        ItemKind::Const(name, _, _) => (*name, Sort::Constant),
        ItemKind::Alias(name, _) => (*name, Sort::Alias),
        ItemKind::Struct(name, _) => (*name, Sort::Struct),
        ItemKind::Enum(name, _) => (*name, Sort::Enum),
        ItemKind::Fn(name, _, _, _) => (*name, Sort::Function),
        ItemKind::Array(name, _, _) | ItemKind::Bytes(name, _) => (*name, Sort::Array),
        ItemKind::NatMod(name, canvas, _, _) => {
            declared.push(Declared {
                name: *name,
                item,
                sort: Sort::Field,
            })?;
            (*canvas, Sort::Canvas)
        }
    };
    declared.push(Declared { name, item, sort })?;
    Ok(())
}

/// All that items declare.
fn declared(alloc: Global, items: &[Item]) -> Result<Items<Declared>, NoMemory>
    ensures { IfOk result (λ d. d ≡ y.declared_from 0 items.now) }
{
    let mut declared = Items::new(alloc);
    for (number, item) in items.iter().enumerate() {
        declare(&mut declared, number, &item.kind)?;
    }
    Ok(declared)
}

/// The names under which it is declared.
fn titles<'a>(alloc: Global, text: &'a Text, declared: &[Declared]) -> Result<Names<'a>, NoMemory>
    ensures { IfOk result (λ names. names ≡ map (λ (d : Declared). bytes_at text.now d.name) declared.now) }
{
    let mut titles = Names::new(alloc);
    for one in declared {
        titles.add(text.at(one.name))?;
    }
    Ok(titles)
}

impl<'a> Symbols<'a> {
    /// What the items of a file declare.
    ///
    /// # Errors
    ///
    /// Want of memory.
    pub fn new(alloc: Global, file: &'a File) -> Result<Symbols<'a>, NoMemory>
        ensures { IfOk result (λ s. s ≡ file.now) }
    {
        let declared = declared(alloc, file.items.as_slice())?;
        let titles = titles(alloc, &file.text, declared.as_slice())?;
        Ok(Symbols {
            file,
            declared,
            titles,
        })
    }

    /// The items, in the order of the file.
    pub fn items(&self) -> &'a [Item]
        ensures { result.now ≡ self.now.items }
    {
        self.file.items.as_slice()
    }

    /// The bytes of a name, as far as the text has them.
    pub fn spelled(&self, name: Span) -> &'a [u8]
        ensures { result.now ≡ bytes_at self.now.text name }
    {
        self.file.text.at(name)
    }

    /// What a name stands for among items.
    fn named(&self, name: &[u8]) -> Option<Declared>
        ensures { result ≡ y.named self.now.text self.now.items name.now }
    {
        if built_in(name).is_some() {
            return None;
        }
        let number = self.titles.find(name)?;
        self.declared.get(number).copied()
    }

    /// The item that declares a name as a type, if one does.
    fn declared_type(&self, name: &[u8]) -> Option<Referent>
        ensures { result ≡ y.item_named self.now.text self.now.items y.is_type name.now }
    {
        match self.named(name) {
            Some(
                Declared {
                    item,
                    sort: Sort::Alias | Sort::Struct | Sort::Enum | Sort::Array | Sort::Field,
                    ..
                },
            ) => Some(Referent::Item(item)),
            _ => None,
        }
    }

    /// What a name stands for as a type, with no types behind it: a built-in type, else an alias, a struct, an enum, an array
    /// type or the type of a field. Takes no memory, as each call below.
    pub fn type_named(&self, name: &[u8]) -> Option<Referent>
        ensures { result ≡ y.type_named self.now.text self.now.items name.now }
    {
        match type_word(name) {
            Some(word) => Some(Referent::BuiltIn(word)),
            None => self.declared_type(name),
        }
    }

    /// What a name before `(` stands for: a secret kind, `Some`, `Ok`, `Err` or a conversion, else a function, a struct or an
    /// array type. An alias is none of these.
    pub fn callee_named(&self, name: &[u8]) -> Option<Referent>
        ensures { result ≡ y.callee_named self.now.text self.now.items name.now }
    {
        if let Some(word) = called_word(name) {
            return Some(Referent::BuiltIn(word));
        }
        match self.named(name) {
            Some(
                Declared {
                    item,
                    sort: Sort::Function | Sort::Struct | Sort::Array,
                    ..
                },
            ) => Some(Referent::Item(item)),
            _ => None,
        }
    }

    /// The constant of this name.
    fn constant(&self, name: &[u8]) -> Option<usize>
        ensures { result ≡ y.item_if y.is_constant (y.named self.now.text self.now.items name.now) }
    {
        match self.named(name) {
            Some(
                Declared {
                    item,
                    sort: Sort::Constant,
                    ..
                },
            ) => Some(item),
            _ => None,
        }
    }

    /// Whether it is a constant's name. A constant with a built-in name is never found.
    pub fn is_constant(&self, name: &[u8]) -> bool
        ensures { result ≡ y.is_constant_name self.now.text self.now.items name.now }
    {
        self.constant(name).is_some()
    }

    /// What a name that stands alone stands for, where these are in scope: the local of that name, else `None`, else a constant.
    pub fn value_named(&self, scope: &Scope<'a>, name: &[u8]) -> Option<Referent>
        ensures { result ≡ y.value_named self.now.text self.now.items scope.now name.now }
    {
        if let Some(local) = scope.find(name) {
            return Some(Referent::Local(local));
        }
        match empty_ctor(name) {
            Some(word) => Some(Referent::BuiltIn(word)),
            None => self.constant(name).map(Referent::Item),
        }
    }

    /// What a constructor's name in a pattern stands for: `Some`, `Ok`, `Err` or `None`, else the constructor of a struct.
    pub fn ctor_named(&self, name: &[u8]) -> Option<Referent>
        ensures { result ≡ y.ctor_named self.now.text self.now.items name.now }
    {
        if let Some(word) = ctor_word(name) {
            return Some(Referent::BuiltIn(word));
        }
        match self.named(name) {
            Some(
                Declared {
                    item,
                    sort: Sort::Struct,
                    ..
                },
            ) => Some(Referent::Ctor(item, 0)),
            _ => None,
        }
    }
}
