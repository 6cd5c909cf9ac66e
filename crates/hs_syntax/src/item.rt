//! Items.

use crate::exp::{Block, Exp};
use crate::span::{Int, Span};
use crate::ty::Ty;
use sqlite_items::Items;

/// An item: the bytes that it stands for, the names of its derive list, none where it has no such list, and what it
/// declares. Whether `pub` stands before it is not kept.
#[derive(Drop)]
pub struct Item {
    pub span: Span,
    pub derives: Items<Span>,
    pub kind: ItemKind,
}

/// What an item declares.
#[derive(Drop)]
pub enum ItemKind {
    /// `use hacspec_lib::*;`.
    Use,
    /// `const N: T = e;`.
    Const(Span, Ty, Exp),
    /// `type N = T;`.
    Alias(Span, Ty),
    /// `struct N(T, U);`: its name, and one type or more.
    Struct(Span, Items<Ty>),
    /// `enum N { C, D(T) }`: its name, and one constructor or more.
    Enum(Span, Items<Ctor>),
    /// `fn f(x: T) -> U { .. }`: its name, its parameters, its type where one is written, and its body.
    Fn(Span, Items<Param>, Option<Ty>, Block),
    /// `array!(N, n, T);`.
    Array(Span, Int, Ty),
    /// `bytes!(N, n);`.
    Bytes(Span, Int),
    /// `nat_mod!(type_name: N, type_of_canvas: C, bit_size_of_field: n, modulo_value: "..");`: both names, the number, and
    /// the string with its quotes.
    NatMod(Span, Span, Int, Span),
}

/// A constructor of an enum: the types of its parts, none where it has no parentheses.
#[derive(Drop)]
pub struct Ctor {
    pub span: Span,
    pub name: Span,
    pub parts: Items<Ty>,
}

/// How a parameter is taken.
#[derive(Clone, Copy, Debug, PartialEq, Eq)]
pub enum Mode {
    /// `x: T`.
    Value,
    /// `mut x: T`.
    Mut,
    /// `x: &T`.
    Shared,
    /// `x: &mut T`.
    Lent,
}

/// A parameter of a function. `ty` is what stands behind `&` or `&mut`.
#[derive(Drop)]
pub struct Param {
    pub span: Span,
    pub mode: Mode,
    pub name: Span,
    pub ty: Ty,
}
