//! The trees of emitted modules. A name is held without the prefix with which it is printed.

use hs_base::name::Name;
use hs_words::{IntTy, Word};
use sqlite_items::{Boxed, Items};

/// A local, by its name and its number. Both are printed.
#[derive(Drop)]
pub struct EmVar {
    pub name: Name,
    pub number: usize,
}

/// The type of a value.
#[derive(Drop)]
pub enum EmTy {
    /// The type with one value.
    Unit,
    /// The truth values.
    Bool,
    /// The machine integers of one kind.
    Int(IntTy),
    /// The sequences of items of one type.
    Seq(Boxed<EmTy>),
    /// Nothing, or one value of the type.
    Option(Boxed<EmTy>),
    /// A good value of the first type, or a bad one of the second.
    Result(Boxed<EmTy>, Boxed<EmTy>),
    /// The tuples with parts of these types, in order.
    Tuple(EmTys),
    /// The type of this name.
    Named(Name),
}

/// Types in order.
pub type EmTys = Items<EmTy>;

/// A pattern.
#[derive(Drop)]
pub enum EmPat {
    /// Binds a local.
    Var(EmVar),
    /// Takes any value.
    Any,
    /// The parts of a tuple.
    Tuple(Items<EmPat>),
    /// The parts of a constructor, by the name of its type and its own.
    Ctor(Name, Name, Items<EmPat>),
}

/// Which constructor of an option or a result has a part.
#[derive(Clone, Copy, Debug, PartialEq, Eq)]
pub enum EmHolder {
    /// An option's.
    Some,
    /// A good result's.
    Ok,
    /// A bad result's.
    Err,
}

/// What an arm of a match takes.
#[derive(Drop)]
pub enum EmArm {
    /// A constructor without parts, by the name of its type and its own.
    Ctor(Name, Name),
    /// A constructor with these parts.
    Parts(Name, Name, Items<EmPat>),
    /// An option without a part.
    None,
    /// An option or a result with a part.
    Holder(EmHolder, EmPat),
    /// Takes any value.
    Any,
}

/// What is written round a value that it holds.
#[derive(Clone, Copy, Debug, PartialEq, Eq)]
pub enum EmWrap {
    /// An option or a result.
    Holder(EmHolder),
    /// The control value that ends what takes it.
    Exit,
    /// The control value that goes on.
    Cont,
}

/// What becomes of a value that an end holds.
#[derive(Clone, Copy, Debug, PartialEq, Eq)]
pub enum EmAround {
    /// It is the value: the binding is a function's own.
    Top,
    /// It stays in an end: the binding stands inside.
    Inside,
}

/// Whether control values end a fold.
#[derive(Clone, Copy, Debug, PartialEq, Eq)]
pub enum EmFold {
    /// They do not: each turn gives the next value.
    Whole,
    /// They do: a turn gives an end, or the next value to go on with.
    Control,
}

/// An expression.
#[cycle(tree)]
#[derive(Drop)]
pub enum Em {
    /// Binds patterns to values, one after the other, for what follows.
    Let(Items<EmLet>, Boxed<Em>),
    /// The value of a local.
    Var(EmVar),
    /// The value of the constant of this name.
    Const(Name),
    /// A constructor without parts, by the name of its type and its own.
    Ctor(Name, Name),
    /// The option without a part.
    None,
    /// A truth value.
    Truth(bool),
    /// The value of the unit type.
    Unit,
    /// A number of a kind.
    Lit(Word),
    /// A constructor with these parts.
    Parts(Name, Name, Items<Em>),
    /// The operation of this name on these operands.
    Op(Name, Items<Em>),
    /// An option, a result or a control value that holds this.
    Wrap(EmWrap, Boxed<Em>),
    /// A call of the definition of this name with these arguments.
    Call(Name, Items<Em>),
    /// The tuple of these parts.
    Tuple(Items<Em>),
    /// The array of these items.
    List(Items<Em>),
    /// The second where the first is true, else the third.
    If(Boxed<Em>, Boxed<Em>, Boxed<Em>),
    /// The first case whose arm takes the value.
    Match(Boxed<Em>, Items<EmCase>),
    /// A control value decides: its end is what it says, or what it goes on with goes to the pattern.
    Bind(EmAround, Boxed<Em>, EmPat, Boxed<Em>),
    /// A fold.
    Fold(EmFold, Boxed<EmTurns>),
}

/// A pattern bound to a value.
#[cycle(tree)]
#[derive(Drop)]
pub struct EmLet {
    pub pattern: EmPat,
    pub value: Em,
}

/// A case of a match.
#[cycle(tree)]
#[derive(Drop)]
pub struct EmCase {
    pub arm: EmArm,
    pub body: Em,
}

/// What a fold has.
#[cycle(tree)]
#[derive(Drop)]
pub struct EmTurns {
    /// The first number.
    pub low: Em,
    /// The number behind the last.
    pub high: Em,
    /// The first value.
    pub first: Em,
    /// What takes the number in each turn.
    pub variable: EmVar,
    /// What takes the value so far.
    pub pattern: EmPat,
    /// What gives the next one.
    pub body: Em,
}

/// A constructor of a type, with the types of its parts.
#[derive(Drop)]
pub struct EmCtor {
    pub name: Name,
    pub parts: EmTys,
}

/// Constructors in the order of their numbers.
pub type EmCtors = Items<EmCtor>;

/// What a type with a name is.
#[derive(Drop)]
pub enum EmKind {
    /// The arrays of so many items of one type.
    Array(EmTy, u32),
    /// The values that one of the constructors makes.
    Ctors(EmCtors),
}

/// A type with a name.
#[derive(Drop)]
pub struct EmType {
    pub name: Name,
    pub kind: EmKind,
}

/// Types with names in order.
pub type EmTypes = Items<EmType>;

/// A constant.
#[derive(Drop)]
pub struct EmConst {
    pub name: Name,
    pub ty: EmTy,
    pub body: Em,
}

/// Constants in order.
pub type EmConsts = Items<EmConst>;

/// A parameter of a definition.
#[derive(Drop)]
pub struct EmPar {
    pub local: EmVar,
    pub ty: EmTy,
}

/// Parameters in order.
pub type EmPars = Items<EmPar>;

/// A definition.
#[derive(Drop)]
pub struct EmDef {
    pub name: Name,
    pub params: EmPars,
    pub result: EmTy,
    pub body: Em,
}

/// Definitions in order.
pub type EmDefs = Items<EmDef>;

/// A module: its name, and its types, constants and definitions, each in order.
#[derive(Drop)]
pub struct Module {
    pub name: Name,
    pub types: EmTypes,
    pub consts: EmConsts,
    pub defs: EmDefs,
}
