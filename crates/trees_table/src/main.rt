//! Prints the features of each stage, and the text of a small program of each stage, with each kind of node that the stages have.
#![tactic(auto)]

use hs_base::memory::NoMemory;
use hs_base::name::Name;
use hs_tree::features::{
    Features, Flat, NoAssign, NoExit, NoLoop, NoMutArg, NoPlace, NoQuest, On, Src,
    features_of_stages,
};
use hs_tree::node::{
    Arg, Arm, Around, Block, Carry, Exp, Note, Pattern, Rhs, Span, Step, Stmt, Tail,
};
use hs_tree::program::{Body, Function, Mode, Param, Program};
use hs_tree::shared::Shared;
use hs_tree::show::show;
use hs_values::{TypeDef, TypeKind, ValType};
use hs_words::{IntTy, Word};
use sqlite_items::{Boxed, Items};
use std::alloc::Global;
use std::io;

const STAGES: [&str; 8] = [
    "Src", "NoPlace", "Flat", "NoQuest", "NoMutArg", "NoExit", "NoAssign", "NoLoop",
];

const FEATURES: [&str; 10] = [
    "Place", "Nested", "Quest", "MutArg", "Exit", "Assign", "Loop", "Cf", "Acc", "Fold",
];

const NOWHERE: Span = Span { start: 0, end: 0 };

/// A list of one item.
fn one<T: Drop>(alloc: Global, item: T) -> Result<Items<T>, NoMemory> {
    let mut items = Items::new(alloc);
    items.push(item)?;
    Ok(items)
}

/// A list of two items.
fn two<T: Drop>(alloc: Global, first: T, second: T) -> Result<Items<T>, NoMemory> {
    let mut items = one(alloc, first)?;
    items.push(second)?;
    Ok(items)
}

/// The unit type.
fn unit(alloc: Global) -> Result<Shared<ValType>, NoMemory> {
    Shared::new(alloc, ValType::Unit)
}

fn var<F: Features>(local: usize) -> Exp<F> {
    Exp::Var(local, NOWHERE)
}

/// The number 7 of a kind, or the least one where the kind is signed.
fn number<F: Features>(kind: IntTy) -> Exp<F> {
    let bits = if kind.signed() { 128 } else { 7 };
    match Word::new(kind, bits) {
        Some(word) => Exp::Lit(word),
        None => Exp::Unit,
    }
}

/// A block without statements, which gives the value of a right side.
fn ends<F: Features>(alloc: Global, rhs: Rhs<F>) -> Block<F> {
    Block {
        statements: Items::new(alloc),
        tail: Tail::Rhs(rhs),
    }
}

/// A block that gives the value of an expression.
fn gives<F: Features>(alloc: Global, exp: Exp<F>) -> Block<F> {
    ends(alloc, Rhs::Exp(exp))
}

/// What a loop over t carries along, and a fold.
fn carried<F: Features>(
    alloc: Global,
    first: Exp<F>,
    pattern: Pattern,
    body: Block<F>,
) -> Result<Boxed<Carry<F>>, NoMemory> {
    let carry = Carry {
        variable: 1,
        low: number(IntTy::PUsize),
        high: var(0),
        first,
        pattern,
        body,
    };
    Boxed::new(alloc, carry)
}

/// The parameter x, a sequence.
fn parameter<F: Features>(alloc: Global, mode: Mode<F>) -> Result<Param<F>, NoMemory> {
    let item = Boxed::new(alloc, ValType::Int(IntTy::SU8))?;
    Ok(Param {
        mode,
        local: 0,
        ty: Shared::new(alloc, ValType::Seq(item))?,
    })
}

/// The names of the locals.
fn locals(alloc: Global) -> Result<Items<Name>, NoMemory> {
    let first = Name::of(alloc, "x")?;
    two(alloc, first, Name::of(alloc, "t")?)
}

/// A table of one type.
fn table(alloc: Global) -> Result<Shared<Items<TypeDef>>, NoMemory> {
    let state = TypeDef {
        name: Name::of(alloc, "State")?,
        copies: false,
        kind: TypeKind::Array(16, ValType::Int(IntTy::SU32)),
    };
    Shared::new(alloc, one(alloc, state)?)
}

/// A function whose locals are called x and t, and which takes the first of them.
fn function<F: Features>(
    alloc: Global,
    param: Param<F>,
    ty: Shared<ValType>,
    body: Body<F>,
) -> Result<Function<F>, NoMemory> {
    Ok(Function {
        name: Name::of(alloc, "f")?,
        params: one(alloc, param)?,
        ty,
        body,
    })
}

/// A program of one type and one function.
fn program<F: Features>(
    alloc: Global,
    mode: Mode<F>,
    ty: ValType,
    block: Block<F>,
) -> Result<Program<F>, NoMemory> {
    let body = Body {
        locals: locals(alloc)?,
        types: Items::new(alloc),
        block,
    };
    let ty = Shared::new(alloc, ty)?;
    let function = function(alloc, parameter(alloc, mode)?, ty, body)?;
    let functions = Shared::new(alloc, one(alloc, function)?)?;
    Ok(Program {
        text: Shared::new(alloc, Vec::new(alloc))?,
        types: table(alloc)?,
        constants: Shared::new(alloc, Items::new(alloc))?,
        functions,
    })
}

/// A part of a local is assigned, by an operator.
fn part_assigned(alloc: Global) -> Result<Stmt<Src>, NoMemory> {
    let operator = Some(Name::of(alloc, "u8_add")?);
    let steps = two(alloc, Step::At(number(IntTy::PUsize)), Step::Part(2))?;
    let rhs = Rhs::Exp(number(IntTy::PU8));
    Ok(Stmt::Place(On::Here, NOWHERE, operator, 0, steps, rhs))
}

/// A loop.
fn looped(alloc: Global) -> Result<Stmt<Src>, NoMemory> {
    let body = Boxed::new(alloc, gives(alloc, Exp::Unit))?;
    let low = number(IntTy::PUsize);
    Ok(Stmt::For(On::Here, On::Here, 1, low, var(0), body))
}

/// A part of a local is assigned, and a loop runs.
fn source(alloc: Global) -> Result<Program<Src>, NoMemory> {
    let set = Rhs::Exp(number(IntTy::PU8));
    let whole = Stmt::Place(On::Here, NOWHERE, None, 0, Items::new(alloc), set);
    let mut statements = two(alloc, part_assigned(alloc)?, whole)?;
    statements.push(looped(alloc)?)?;
    let block = Block {
        statements,
        tail: Tail::Rhs(Rhs::Exp(Exp::Truth(true))),
    };
    program(alloc, Mode::Val, ValType::Bool, block)
}

/// A right side inside an expression.
fn nested(alloc: Global) -> Result<Exp<NoPlace>, NoMemory> {
    let block = Boxed::new(alloc, gives(alloc, number(IntTy::PI8)))?;
    Ok(Exp::In(On::Here, Boxed::new(alloc, Rhs::Block(block))?))
}

/// One of two truth values.
fn either(alloc: Global) -> Result<Exp<NoPlace>, NoMemory> {
    let first = Boxed::new(alloc, nested(alloc)?)?;
    Ok(Exp::Or(first, Boxed::new(alloc, Exp::Truth(false))?))
}

/// A right side stands inside an expression.
fn without_places(alloc: Global) -> Result<Program<NoPlace>, NoMemory> {
    let first = Boxed::new(alloc, either(alloc)?)?;
    let both = Exp::And(first, Boxed::new(alloc, var(1))?);
    program(alloc, Mode::Ref, ValType::Unit, gives(alloc, both))
}

/// A value is asked by `?`.
fn flat(alloc: Global) -> Result<Program<Flat>, NoMemory> {
    let asked = Rhs::Quest(On::Here, unit(alloc)?, var(0));
    let statements = one(alloc, Stmt::Let(Pattern::Local(1), asked))?;
    let constant = Exp::Const(Name::of(alloc, "C")?);
    let block = Block {
        statements,
        tail: Tail::Rhs(Rhs::Exp(constant)),
    };
    program(alloc, Mode::Val, ValType::Tuple(Items::new(alloc)), block)
}

/// A call that lends a local.
fn lends(alloc: Global) -> Result<Rhs<NoQuest>, NoMemory> {
    let name = Name::of(alloc, "g")?;
    let arguments = two(alloc, Arg::Value(var(1)), Arg::Lend(0, NOWHERE))?;
    Ok(Rhs::LendCall(On::Here, name, arguments))
}

/// A local is lent.
fn without_quests(alloc: Global) -> Result<Program<NoQuest>, NoMemory> {
    let parts = two(alloc, ValType::Bool, ValType::Named(0))?;
    let block = ends(alloc, lends(alloc)?);
    program(alloc, Mode::Mut(On::Here), ValType::Tuple(parts), block)
}

/// A constructor of a local's value.
fn made<F: Features>(alloc: Global) -> Result<Exp<F>, NoMemory> {
    let parts = one(alloc, var(1))?;
    Ok(Exp::Ctor(unit(alloc)?, Name::of(alloc, "B")?, parts))
}

/// A function returns.
fn without_mutable_parameters(alloc: Global) -> Result<Program<NoMutArg>, NoMemory> {
    let statements = one(alloc, Stmt::Set(On::Here, 1, Rhs::Exp(Exp::Unit)))?;
    let block = Block {
        statements,
        tail: Tail::Return(On::Here, made(alloc)?),
    };
    program(alloc, Mode::Val, ValType::Unit, block)
}

/// A loop that a control value ends.
fn loop_ended(alloc: Global) -> Result<Rhs<NoExit>, NoMemory> {
    let ended = Exp::Exit(On::Here, Boxed::new(alloc, Exp::Unit)?);
    let turn = Boxed::new(alloc, gives(alloc, ended))?;
    Ok(Rhs::ForCf(On::Here, On::Here, On::Here, 1, var(0), var(1), turn))
}

/// A block that a control value ends, inside another one.
fn block_ended(alloc: Global) -> Result<Boxed<Block<NoExit>>, NoMemory> {
    let goes_on = Exp::Cont(On::Here, Boxed::new(alloc, var(0))?);
    let last = Boxed::new(alloc, gives(alloc, goes_on))?;
    let asked = Rhs::Exp(var(0));
    let block = Block {
        statements: Items::new(alloc),
        tail: Tail::Bind(On::Here, Around::Inside, Pattern::Local(1), asked, last),
    };
    Boxed::new(alloc, block)
}

/// Control values end a loop, and a block.
fn without_exits(alloc: Global) -> Result<Program<NoExit>, NoMemory> {
    let rest = block_ended(alloc)?;
    let looped = loop_ended(alloc)?;
    let block = Block {
        statements: Items::new(alloc),
        tail: Tail::Bind(On::Here, Around::Top, Pattern::Any, looped, rest),
    };
    program(alloc, Mode::Val, ValType::Unit, block)
}

/// The sum of the locals.
fn sum(alloc: Global) -> Result<Exp<NoAssign>, NoMemory> {
    let note = Note {
        ty: unit(alloc)?,
        span: NOWHERE,
    };
    let operands = two(alloc, var(0), var(1))?;
    Ok(Exp::Op(Name::of(alloc, "usize_add")?, note, operands))
}

/// A loop that carries a value along.
fn carries(alloc: Global) -> Result<Rhs<NoAssign>, NoMemory> {
    let pattern = Pattern::Tuple(one(alloc, Pattern::Any)?);
    let body = gives(alloc, sum(alloc)?);
    let carry = carried(alloc, Exp::Tuple(Items::new(alloc)), pattern, body)?;
    Ok(Rhs::Turns(On::Here, On::Here, carry))
}

/// The same, which a control value ends.
fn carries_ended(alloc: Global) -> Result<Rhs<NoAssign>, NoMemory> {
    let goes_on = Exp::Cont(On::Here, Boxed::new(alloc, Exp::Unit)?);
    let carry = carried(alloc, Exp::Unit, Pattern::Any, gives(alloc, goes_on))?;
    Ok(Rhs::TurnsCf(On::Here, On::Here, On::Here, carry))
}

/// A loop carries a value along.
fn without_assignments(alloc: Global) -> Result<Program<NoAssign>, NoMemory> {
    let statements = one(alloc, Stmt::Do(carries_ended(alloc)?))?;
    let block = Block {
        statements,
        tail: Tail::Rhs(carries(alloc)?),
    };
    program(alloc, Mode::Val, ValType::Unit, block)
}

/// A fold that a control value ends.
fn fold_ended(alloc: Global) -> Result<Rhs<NoLoop>, NoMemory> {
    let called = Exp::Call(Name::of(alloc, "g")?, Items::new(alloc));
    let list = Exp::List(one(alloc, var(1))?);
    let carry = carried(alloc, list, Pattern::Any, gives(alloc, called))?;
    Ok(Rhs::FoldCf(On::Here, On::Here, carry))
}

/// A fold.
fn folds(alloc: Global) -> Result<Rhs<NoLoop>, NoMemory> {
    let body = gives(alloc, Exp::Unit);
    let carry = carried(alloc, Exp::Unit, Pattern::Local(1), body)?;
    Ok(Rhs::Fold(On::Here, carry))
}

/// One of two blocks.
fn branches(alloc: Global) -> Result<Rhs<NoLoop>, NoMemory> {
    let first = Boxed::new(alloc, gives(alloc, var(0)))?;
    let second = Boxed::new(alloc, gives(alloc, var(1)))?;
    Ok(Rhs::If(var(1), first, second))
}

/// A match with one arm.
fn matched(alloc: Global) -> Result<Rhs<NoLoop>, NoMemory> {
    let parts = one(alloc, Pattern::Any)?;
    let pattern = Pattern::Ctor(unit(alloc)?, Name::of(alloc, "Some")?, parts);
    let arm = Arm {
        pattern,
        block: gives(alloc, Exp::Unit),
    };
    Ok(Rhs::Match(var(0), one(alloc, arm)?))
}

/// A value is folded, and matched.
fn without_loops(alloc: Global) -> Result<Program<NoLoop>, NoMemory> {
    let mut statements = one(alloc, Stmt::Do(fold_ended(alloc)?))?;
    statements.push(Stmt::Do(folds(alloc)?))?;
    statements.push(Stmt::Do(branches(alloc)?))?;
    let block = Block {
        statements,
        tail: Tail::Rhs(matched(alloc)?),
    };
    program(alloc, Mode::Val, ValType::Unit, block)
}

/// The features of a stage, in one line.
fn print_features(rt: &impl Print, stage: &str, switches: &[bool; 10]) -> io::Result<()> {
    print!(rt; "{stage}:")?;
    for (feature, holds) in FEATURES.iter().zip(switches) {
        if *holds {
            print!(rt; " {feature}")?;
        }
    }
    println!(rt; "")
}

fn print_text<F: Features>(rt: &impl Print, alloc: Global, program: &Program<F>) -> io::Result<()> {
    let text = show(alloc, program)?;
    match str::from_utf8(&text) {
        Ok(line) => print!(rt; "{line}"),
        Err(_) => println!(rt; "?"),
    }
}

fn main(rt: HostRuntime) -> io::Result<()> {
    let alloc = rt.alloc();
    for (stage, switches) in STAGES.iter().zip(&features_of_stages()) {
        print_features(&rt, stage, switches)?;
    }
    print_text(&rt, alloc, &source(alloc)?)?;
    print_text(&rt, alloc, &without_places(alloc)?)?;
    print_text(&rt, alloc, &flat(alloc)?)?;
    print_text(&rt, alloc, &without_quests(alloc)?)?;
    print_text(&rt, alloc, &without_mutable_parameters(alloc)?)?;
    print_text(&rt, alloc, &without_exits(alloc)?)?;
    print_text(&rt, alloc, &without_assignments(alloc)?)?;
    print_text(&rt, alloc, &without_loops(alloc)?)
}
