//! Expressions, statements and blocks.
//!
//! Operands of one binding strength stand in one list, as in the grammar, and so do the steps behind an expression and the
//! names behind `as`. So a tree is no deeper than brackets, prefixes and blocks nest in the text.

ghost use Rattle.std.specs.Prelude.{◌≡◌};
ghost use Rattle.hs_syntax.specs.Spans.{span_of_path, span_of_if, span_of_else, span_of_exp, span_of_step, span_of_postfix, span_of_stmt, span_of_variable};
ghost use Rattle.hs_syntax.specs.Levels.{level_of};

use crate::pat::{ArmPat, Pat};
use crate::span::{Int, Span};
use crate::ty::Ty;
use sqlite_items::{Boxed, Items};

/// A prefix.
#[derive(Clone, Copy, Debug, PartialEq, Eq)]
pub enum PrefixOp {
    /// `-`.
    Negate,
    /// `!`.
    Not,
    /// `*`.
    Read,
}

/// An operator between two operands.
#[derive(Clone, Copy, Debug, PartialEq, Eq)]
pub enum BinaryOp {
    /// `||`.
    Or,
    /// `&&`.
    And,
    /// `==`.
    Equal,
    /// `!=`.
    Differ,
    /// `<`.
    Less,
    /// `<=`.
    AtMost,
    /// `>`.
    Greater,
    /// `>=`.
    AtLeast,
    /// `|`.
    BitOr,
    /// `^`.
    BitXor,
    /// `&`.
    BitAnd,
    /// `<<`.
    ShiftLeft,
    /// `>>`.
    ShiftRight,
    /// `+`.
    Add,
    /// `-`.
    Subtract,
    /// `*`.
    Multiply,
    /// `/`.
    Divide,
    /// `%`.
    Remainder,
}

/// How strongly an operator binds its operands, from the strongest on.
#[derive(Clone, Copy, Debug, PartialEq, Eq)]
pub enum Level {
    /// `*`, `/` and `%`.
    Product,
    /// `+` and `-`.
    Sum,
    /// `<<` and `>>`.
    Shift,
    /// `&`.
    BitAnd,
    /// `^`.
    BitXor,
    /// `|`.
    BitOr,
    /// `==`, `!=`, `<`, `<=`, `>` and `>=`.
    Compare,
    /// `&&`.
    And,
    /// `||`.
    Or,
}

impl BinaryOp {
    /// How strongly the operator binds.
    pub fn level(self) -> Level
        ensures { result ≡ level_of self }
    {
        match self {
            BinaryOp::Or => Level::Or,
            BinaryOp::And => Level::And,
            BinaryOp::Equal
            | BinaryOp::Differ
            | BinaryOp::Less
            | BinaryOp::AtMost
            | BinaryOp::Greater
            | BinaryOp::AtLeast => Level::Compare,
            BinaryOp::BitOr => Level::BitOr,
            BinaryOp::BitXor => Level::BitXor,
            BinaryOp::BitAnd => Level::BitAnd,
            BinaryOp::ShiftLeft | BinaryOp::ShiftRight => Level::Shift,
            BinaryOp::Add | BinaryOp::Subtract => Level::Sum,
            BinaryOp::Multiply | BinaryOp::Divide | BinaryOp::Remainder => Level::Product,
        }
    }
}

/// A path: what a name alone, or a name of a type, names.
#[derive(Drop)]
pub enum Path {
    /// `x`.
    Name(Span),
    /// `T::x`: the whole, and both names.
    Member(Span, Span, Span),
    /// `X::<T>::x`: the whole, the first name, the type, and the last name.
    Of(Span, Span, Ty, Span),
}

impl Path {
    /// The bytes that the path stands for.
    #[tactic(auto, unfolding(crate::specs::Spans::span_of_path))]
    pub fn span(&self) -> Span
        ensures { result ≡ span_of_path self.now }
    {
        match self {
            Path::Name(span) | Path::Member(span, _, _) | Path::Of(span, _, _, _) => *span,
        }
    }
}

/// An expression.
#[cycle(exp)]
#[derive(Drop)]
pub enum Exp {
    /// An integer.
    Int(Int),
    /// `true` or `false`.
    Bool(Span, bool),
    /// `()`.
    Unit(Span),
    /// `(e)`.
    Group(Span, Boxed<Exp>),
    /// `(e, f)`: two expressions or more.
    Tuple(Span, Items<Exp>),
    /// A path.
    Path(Path),
    /// `p(a, b)`: a path, and what it is called with.
    Call(Span, Path, Items<Arg>),
    /// `{ .. }`.
    Block(Boxed<Block>),
    /// `if c { .. } else ..`.
    If(Boxed<If>),
    /// `match e { .. }`: what is looked at, and one arm or more.
    Match(Span, Boxed<Exp>, Items<Arm>),
    /// An expression, and one or more of `?`, calls of methods, indices and parts behind it, which group to the left.
    Post(Span, Boxed<Exp>, Items<Postfix>),
    /// `-e`, `!e` or `*e`.
    Prefix(Span, PrefixOp, Boxed<Exp>),
    /// `e as T as U`: an expression, and one name or more, which group to the left.
    Cast(Span, Boxed<Exp>, Items<Span>),
    /// `e + f - g`: an operand, and one operator of one binding strength or more, each with its right operand, which group
    /// to the left. A comparison has one operator.
    Binary(Span, Boxed<Exp>, Items<Operand>),
}

/// An `if`: its condition, its first branch, and what stands behind `else`.
#[cycle(exp)]
#[derive(Drop)]
pub struct If {
    pub span: Span,
    pub condition: Exp,
    pub then: Block,
    pub otherwise: Option<Else>,
}

/// What stands behind `else`.
#[cycle(exp)]
#[derive(Drop)]
pub enum Else {
    /// `if c { .. }`, and what stands behind its own `else`: the chain goes on.
    Chain(Boxed<If>),
    /// `{ .. }`: the chain ends.
    Last(Boxed<Block>),
}

/// An operator, and the operand on its right.
#[cycle(exp)]
#[derive(Drop)]
pub struct Operand {
    pub op: BinaryOp,
    pub right: Exp,
}

/// What stands behind an expression.
#[cycle(exp)]
#[derive(Drop)]
pub enum Postfix {
    /// `?`.
    Try(Span),
    /// `.m(a, b)`: a method's name, and what it is called with.
    Method(Span, Span, Items<Arg>),
    /// `[i]` or `.0`.
    Step(Step),
}

/// A step into a value: to an item or to a part.
#[cycle(exp)]
#[derive(Drop)]
pub enum Step {
    /// `[i]`.
    Index(Span, Exp),
    /// `.0`: an integer with decimal digits alone.
    Part(Span, Int),
}

/// An argument of a call.
#[cycle(exp)]
#[derive(Drop)]
pub enum Arg {
    /// `e`.
    Value(Exp),
    /// `&e`.
    Shared(Span, Exp),
    /// `&mut x`: the whole, and the name.
    Lent(Span, Span),
    /// `[e, f]`: one expression or more.
    List(Span, Items<Exp>),
}

/// An arm of a `match`.
#[cycle(exp)]
#[derive(Drop)]
pub struct Arm {
    pub span: Span,
    pub pattern: ArmPat,
    pub value: Exp,
}

/// A block: statements, and the expression at its end. An `if`, a `match` or a block directly before the `}`, with no `;`
/// behind it, is that expression.
#[cycle(exp)]
#[derive(Drop)]
pub struct Block {
    pub span: Span,
    pub statements: Items<Stmt>,
    pub tail: Option<Boxed<Exp>>,
}

/// A statement.
#[cycle(exp)]
#[derive(Drop)]
pub enum Stmt {
    /// `let p: T = e;`.
    Let(Span, Pat, Option<Ty>, Exp),
    /// `*x[i].0 += e;`: what is assigned, the steps behind its name, the operator of a compound assignment, and the right side.
    Assign(Span, Target, Items<Step>, Option<BinaryOp>, Exp),
    /// `for i in e..f { .. }`: the variable, the two bounds, and the body.
    For(Span, Variable, Exp, Exp, Block),
    /// `return e;`.
    Return(Span, Option<Exp>),
    /// An `if`, a `match` or a block with no `;` behind it, before a further statement or expression.
    Bare(Exp),
    /// `e;`.
    Exp(Span, Exp),
}

/// The local that is assigned: the whole place with its steps, whether a `*` stands before it, and its name.
#[derive(Clone, Copy, Debug, PartialEq, Eq)]
pub struct Target {
    pub span: Span,
    pub star: bool,
    pub name: Span,
}

/// The variable of a loop.
#[derive(Clone, Copy, Debug, PartialEq, Eq)]
pub enum Variable {
    /// `i`.
    Name(Span),
    /// `_`.
    Any(Span),
}

impl Variable {
    /// The bytes that the variable stands for.
    #[tactic(auto, unfolding(crate::specs::Spans::span_of_variable))]
    pub fn span(&self) -> Span
        ensures { result ≡ span_of_variable self.now }
    {
        match self {
            Variable::Name(span) | Variable::Any(span) => *span,
        }
    }
}

impl Exp {
    /// The bytes that the expression stands for.
    #[tactic(auto, unfolding(crate::specs::Spans::span_of_exp, crate::specs::Spans::span_of_block, crate::specs::Spans::span_of_if))]
    pub fn span(&self) -> Span
        ensures { result ≡ span_of_exp self.now }
    {
        match self {
            Exp::Int(int) => int.span,
            Exp::Path(path) => path.span(),
            Exp::Block(block) => block.get().span,
            Exp::If(branches) => branches.get().span,
            Exp::Bool(span, _)
            | Exp::Unit(span)
            | Exp::Group(span, _)
            | Exp::Tuple(span, _)
            | Exp::Call(span, _, _)
            | Exp::Match(span, _, _)
            | Exp::Post(span, _, _)
            | Exp::Prefix(span, _, _)
            | Exp::Cast(span, _, _)
            | Exp::Binary(span, _, _) => *span,
        }
    }
}

impl Else {
    /// The bytes that stand behind `else`.
    #[tactic(auto, unfolding(crate::specs::Spans::span_of_else, crate::specs::Spans::span_of_block, crate::specs::Spans::span_of_if))]
    pub fn span(&self) -> Span
        ensures { result ≡ span_of_else self.now }
    {
        match self {
            Else::Chain(branches) => branches.get().span,
            Else::Last(block) => block.get().span,
        }
    }
}

impl Step {
    /// The bytes that the step stands for, without what stands before it.
    #[tactic(auto, unfolding(crate::specs::Spans::span_of_step))]
    pub fn span(&self) -> Span
        ensures { result ≡ span_of_step self.now }
    {
        match self {
            Step::Index(span, _) | Step::Part(span, _) => *span,
        }
    }
}

impl Postfix {
    /// The bytes that this stands for, without what stands before it.
    #[tactic(auto, unfolding(crate::specs::Spans::span_of_postfix))]
    pub fn span(&self) -> Span
        ensures { result ≡ span_of_postfix self.now }
    {
        match self {
            Postfix::Try(span) | Postfix::Method(span, _, _) => *span,
            Postfix::Step(step) => step.span(),
        }
    }
}

impl Stmt {
    /// The bytes that the statement stands for.
    #[tactic(auto, unfolding(crate::specs::Spans::span_of_stmt))]
    pub fn span(&self) -> Span
        ensures { result ≡ span_of_stmt self.now }
    {
        match self {
            Stmt::Bare(exp) => exp.span(),
            Stmt::Let(span, _, _, _)
            | Stmt::Assign(span, _, _, _, _)
            | Stmt::For(span, _, _, _, _)
            | Stmt::Return(span, _)
            | Stmt::Exp(span, _) => *span,
        }
    }
}
