//! Nodes of trees. A local is held by its number, from 0, in its function's list of names. A node that not each stage has holds a
//! mark of each feature that it needs. Types are shared: all nodes of one type may hold the same.

use crate::features::Features;
use crate::shared::Shared;
use hs_base::name::Name;
use hs_values::ValType;
use hs_words::Word;
use sqlite_items::{Boxed, Items};

/// Where a node of a source stands in the text: its first byte, and the one behind its last. What a phase makes has 0 for both.
#[derive(Clone, Copy, Debug, PartialEq, Eq)]
pub struct Span {
    pub start: usize,
    pub end: usize,
}

/// What is known of a node of a source: its type, and where it stands in the text.
#[derive(Drop)]
pub struct Note {
    pub ty: Shared<ValType>,
    pub span: Span,
}

/// Whose block a binding of a control value stands in.
#[derive(Clone, Copy, Debug, PartialEq, Eq)]
pub enum Around {
    /// The function's own: an end is the function's value.
    Top,
    /// One inside it: an end stays an end.
    Inside,
}

/// A pattern.
#[derive(Drop)]
pub enum Pattern {
    /// Binds a local.
    Local(usize),
    /// Takes any value.
    Any,
    /// The parts of a tuple.
    Tuple(Items<Pattern>),
    /// The parts of a constructor of a type.
    Ctor(Shared<ValType>, Name, Items<Pattern>),
}

/// An expression.
#[cycle(tree)]
#[derive(Drop)]
pub enum Exp<F: Features> {
    /// The value of a local.
    Var(usize, Span),
    /// A number of a kind.
    Lit(Word),
    /// A truth value.
    Truth(bool),
    /// The value of the unit type.
    Unit,
    /// The value of the constant of this name.
    Const(Name),
    /// The tuple of these parts.
    Tuple(Items<Exp<F>>),
    /// The array of these items.
    List(Items<Exp<F>>),
    /// A constructor of a type, by its name, with these parts.
    Ctor(Shared<ValType>, Name, Items<Exp<F>>),
    /// The operation of this name on the operands, from left to right.
    Op(Name, Note, Items<Exp<F>>),
    /// A call of the function of this name with these arguments.
    Call(Name, Items<Exp<F>>),
    /// The second is run only where the first is true.
    And(Boxed<Exp<F>>, Boxed<Exp<F>>),
    /// The second is run only where the first is false.
    Or(Boxed<Exp<F>>, Boxed<Exp<F>>),
    /// A right side inside.
    In(F::Nested, Boxed<Rhs<F>>),
    /// The control value that ends what takes it.
    Exit(F::Cf, Boxed<Exp<F>>),
    /// The control value that goes on.
    Cont(F::Cf, Boxed<Exp<F>>),
}

/// An argument of a call that lends.
#[cycle(tree)]
#[derive(Drop)]
pub enum Arg<F: Features> {
    /// The value of an expression.
    Value(Exp<F>),
    /// A local that is lent.
    Lend(usize, Span),
}

/// A right side: what a statement takes, and what a block gives.
#[cycle(tree)]
#[derive(Drop)]
pub enum Rhs<F: Features> {
    /// The value of an expression.
    Exp(Exp<F>),
    /// The first block where the condition is true, else the second.
    If(Exp<F>, Boxed<Block<F>>, Boxed<Block<F>>),
    /// The first arm that fits.
    Match(Exp<F>, Items<Arm<F>>),
    /// A block inside.
    Block(Boxed<Block<F>>),
    /// A call that lends locals.
    LendCall(F::MutArg, Name, Items<Arg<F>>),
    /// `?` on a value of this type.
    Quest(F::Quest, Shared<ValType>, Exp<F>),
    /// A loop whose body gives control values: its variable, its bounds, its body.
    ForCf(F::Loop, F::Assign, F::Cf, usize, Exp<F>, Exp<F>, Boxed<Block<F>>),
    /// A loop that carries a value along.
    Turns(F::Loop, F::Acc, Boxed<Carry<F>>),
    /// The same, which a control value ends.
    TurnsCf(F::Loop, F::Acc, F::Cf, Boxed<Carry<F>>),
    /// A fold.
    Fold(F::Fold, Boxed<Carry<F>>),
    /// The same, which a control value ends.
    FoldCf(F::Fold, F::Cf, Boxed<Carry<F>>),
}

/// What a loop that carries a value along, and a fold, has.
#[cycle(tree)]
#[derive(Drop)]
pub struct Carry<F: Features> {
    /// The loop's variable.
    pub variable: usize,
    /// The first number.
    pub low: Exp<F>,
    /// The number behind the last.
    pub high: Exp<F>,
    /// The first value that is carried.
    pub first: Exp<F>,
    /// What takes the value before each turn.
    pub pattern: Pattern,
    /// What gives the next one.
    pub body: Block<F>,
}

/// An arm of a match.
#[cycle(tree)]
#[derive(Drop)]
pub struct Arm<F: Features> {
    pub pattern: Pattern,
    pub block: Block<F>,
}

/// A step from a value to a part of it.
#[cycle(tree)]
#[derive(Drop)]
pub enum Step<F: Features> {
    /// To the item at this place.
    At(Exp<F>),
    /// To the part of this number.
    Part(usize),
}

/// A statement.
#[cycle(tree)]
#[derive(Drop)]
pub enum Stmt<F: Features> {
    /// Binds a pattern from here to the end of the block.
    Let(Pattern, Rhs<F>),
    /// Drops a value.
    Do(Rhs<F>),
    /// Assigns a part of a local, or with the operator of this name. The span is that of what is assigned.
    Place(F::Place, Span, Option<Name>, usize, Items<Step<F>>, Rhs<F>),
    /// Assigns a local.
    Set(F::Assign, usize, Rhs<F>),
    /// A loop: its variable, its bounds, its body.
    For(F::Loop, F::Assign, usize, Exp<F>, Exp<F>, Boxed<Block<F>>),
}

/// The end of a block.
#[cycle(tree)]
#[derive(Drop)]
pub enum Tail<F: Features> {
    /// The block gives this value.
    Rhs(Rhs<F>),
    /// The function gives this value.
    Return(F::Exit, Exp<F>),
    /// A control value decides: its end is the block's value, or what it carries goes to the pattern.
    Bind(F::Cf, Around, Pattern, Rhs<F>, Boxed<Block<F>>),
}

/// Statements, which run in order, and then an end.
#[cycle(tree)]
#[derive(Drop)]
pub struct Block<F: Features> {
    pub statements: Items<Stmt<F>>,
    pub tail: Tail<F>,
}
