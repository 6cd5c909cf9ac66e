//! Prints what is told of the moves of some small trees, each that of the text beside it.
#![tactic(auto)]

use hs_base::memory::NoMemory;
use hs_base::name::Name;
use hs_base::place::Stop;
use hs_linear::moves;
use hs_tree::features::{On, Src};
use hs_tree::node::{Block, Exp, Rhs, Span, Stmt, Tail};
use hs_tree::program::{Body, Function, Mode, Param, Program};
use hs_tree::shared::Shared;
use hs_values::ValType;
use hs_words::IntTy;
use sqlite_items::{Boxed, Items};
use std::alloc::Global;
use std::io;

/// A list of one item.
fn one<T: Drop>(alloc: Global, item: T) -> Result<Items<T>, NoMemory> {
    let mut items = Items::new(alloc);
    items.push(item)?;
    Ok(items)
}

/// A list of two items.
fn two<T: Drop>(alloc: Global, first: T, second: T) -> Result<Items<T>, NoMemory> {
    let mut items = one(alloc, first)?;
    items.push(second)?;
    Ok(items)
}

/// The type of sequences of bytes.
fn bytes(alloc: Global) -> Result<Shared<ValType>, NoMemory> {
    let item = Boxed::new(alloc, ValType::Int(IntTy::PU8))?;
    Shared::new(alloc, ValType::Seq(item))
}

/// `a;`, which stands between these bytes.
fn read(start: usize, end: usize) -> Stmt<Src> {
    Stmt::Do(Rhs::Exp(Exp::Var(0, Span { start, end })))
}

/// A block of these statements.
fn block(statements: Items<Stmt<Src>>) -> Block<Src> {
    Block {
        statements,
        tail: Tail::Rhs(Rhs::Exp(Exp::Unit)),
    }
}

/// The function f of a parameter a and a local i, with these statements.
fn function(
    alloc: Global,
    mode: Mode<Src>,
    statements: Items<Stmt<Src>>,
) -> Result<Function<Src>, NoMemory> {
    let ty = bytes(alloc)?;
    let param = Param { mode, local: 0, ty };
    let first = Name::of(alloc, "a")?;
    let locals = two(alloc, first, Name::of(alloc, "i")?)?;
    let ty = bytes(alloc)?;
    let types = two(alloc, ty, Shared::new(alloc, ValType::Int(IntTy::PUsize))?)?;
    Ok(Function {
        name: Name::of(alloc, "f")?,
        params: one(alloc, param)?,
        ty: Shared::new(alloc, ValType::Unit)?,
        body: Body {
            locals,
            types,
            block: block(statements),
        },
    })
}

/// What is told of the program of this text and function alone.
fn told(alloc: Global, text: &str, function: Function<Src>) -> Result<(), Stop> {
    let mut bytes = Vec::new(alloc);
    bytes.extend_from_slice(text.as_bytes())?;
    let program = Program {
        text: Shared::new(alloc, bytes)?,
        types: Shared::new(alloc, Items::new(alloc))?,
        constants: Shared::new(alloc, Items::new(alloc))?,
        functions: Shared::new(alloc, one(alloc, function)?)?,
    };
    moves(alloc, &program)
}

/// Prints it behind the text.
fn print_told(
    rt: &impl Print,
    alloc: Global,
    text: &str,
    function: Function<Src>,
) -> io::Result<()> {
    match told(alloc, text, function) {
        Ok(()) => println!(rt; "{text}: accepted"),
        Err(Stop::Broken(broken)) => {
            let code = broken.rule.code();
            println!(rt; "{text}: {code} {}:{}", broken.at.line, broken.at.col)
        }
        Err(Stop::NoMemory) => println!(rt; "{text}: no memory"),
    }
}

/// A loop of two turns with a body of one read.
fn looped(alloc: Global, start: usize, end: usize) -> Result<Stmt<Src>, NoMemory> {
    let body = Boxed::new(alloc, block(one(alloc, read(start, end))?))?;
    Ok(Stmt::For(On::Here, On::Here, 1, Exp::Unit, Exp::Unit, body))
}

/// An `if` with one read and no `else`.
fn chosen(alloc: Global, start: usize, end: usize) -> Result<Stmt<Src>, NoMemory> {
    let then = Boxed::new(alloc, block(one(alloc, read(start, end))?))?;
    let otherwise = Boxed::new(alloc, block(Items::new(alloc)))?;
    Ok(Stmt::Do(Rhs::If(Exp::Truth(true), then, otherwise)))
}

fn main(rt: HostRuntime) -> io::Result<()> {
    let alloc = rt.alloc();
    let once = one(alloc, read(19, 20))?;
    print_told(
        &rt,
        alloc,
        "fn f(a: Seq<u8>) { a; }",
        function(alloc, Mode::Val, once)?,
    )?;
    let twice = two(alloc, read(19, 20), read(22, 23))?;
    print_told(
        &rt,
        alloc,
        "fn f(a: Seq<u8>) { a; a; }",
        function(alloc, Mode::Val, twice)?,
    )?;
    let again = two(alloc, chosen(alloc, 29, 30)?, read(34, 35))?;
    print_told(
        &rt,
        alloc,
        "fn f(a: Seq<u8>) { if true { a; } a; }",
        function(alloc, Mode::Val, again)?,
    )?;
    let turns = one(alloc, looped(alloc, 35, 36)?)?;
    print_told(
        &rt,
        alloc,
        "fn f(a: Seq<u8>) { for i in 0..2 { a; } }",
        function(alloc, Mode::Val, turns)?,
    )?;
    let through = one(alloc, read(20, 22))?;
    print_told(
        &rt,
        alloc,
        "fn f(a: &Seq<u8>) { *a; }",
        function(alloc, Mode::Ref, through)?,
    )
}
