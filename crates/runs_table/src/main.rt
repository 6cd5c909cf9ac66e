//! Prints what the check gives or tells of each source of a table and what a call that asks for its module leaves, and what the calls
//! of another table leave: with other words, and over files and sinks that fail.
#![tactic(auto)]

use hs_base::heap::Heap;
use hs_base::shelf::Shelf;
use hs_cli::run;
use hs_first_tree::features::{Src, features_of_stages};
use hs_first_tree::node::{Exp, Rhs, Stmt};
use hs_first_tree::program::{Function, Program};
use hs_front::check::check;
use hs_parser::ParseStop;
use std::alloc::{AllocError, Global};
use std::{fs, io};

/// Room for each output.
const ROOM: u32 = 65_536;

/// So many bytes of an output are printed, and of a longer one how many it has.
const MOST: usize = 1_000;

/// So many statements and locals of a function are printed.
const FIRST: usize = 8;

/// What the file `minus.rs` holds.
const MINUS: &[u8] = b"pub fn f(a: u32) -> u32 { a - 1 }";

/// How calls go: their words, how many bytes a put takes at most, the numbers of the fetch and of the puts on each output that
/// fail, and how many calls there are.
#[derive(Clone, Copy)]
struct Calls<'t> {
    words: &'t str,
    most: Option<u32>,
    fetch: u64,
    out: u64,
    err: u64,
    count: u32,
}

/// The words, none where nothing is written.
fn words_of(alloc: Global, words: &str) -> Result<Vec<String>, AllocError> {
    let mut all = Vec::new(alloc);
    if !words.is_empty() {
        for word in words.split(' ') {
            all.push(String::from_str(alloc, word)?)?;
        }
    }
    Ok(all)
}

/// What fails: nothing for 0, and else what has this number.
fn failing(alloc: Global, number: u64) -> Result<Vec<u64>, AllocError> {
    let mut numbers = Vec::new(alloc);
    if number > 0 {
        numbers.push(number)?;
    }
    Ok(numbers)
}

fn print_taken(rt: &impl Print, name: &str, sink: &Heap) -> io::Result<()> {
    let bytes = sink.taken();
    if bytes.len() > MOST {
        return print!(rt; "; {name} of {} bytes", bytes.len());
    }
    match str::from_utf8(bytes) {
        Ok("") => Ok(()),
        Ok(text) => print!(rt; "; {name} {text:?}"),
        Err(_) => print!(rt; "; {name} is no text"),
    }
}

/// Prints of each call its status and what stands on the outputs behind it.
fn print_calls(rt: &impl Print, alloc: Global, calls: Calls<'_>, source: &[u8]) -> io::Result<()> {
    let mut files = Shelf::new(alloc, failing(alloc, calls.fetch)?);
    files.add("add.rs", source)?;
    files.add("minus.rs", MINUS)?;
    let mut out = Heap::new(alloc, ROOM, calls.most, failing(alloc, calls.out)?)?;
    let mut err = Heap::new(alloc, ROOM, calls.most, failing(alloc, calls.err)?)?;
    let words = words_of(alloc, calls.words)?;
    for _ in 0..calls.count {
        let status = run(alloc, &words, &mut files, &mut out, &mut err);
        print!(rt; "; {status:?} {}", status.code())?;
        print_taken(rt, "out", &out)?;
        print_taken(rt, "err", &err)?;
    }
    println!(rt; "")
}

fn print_bytes(rt: &impl Print, bytes: &[u8]) -> io::Result<()> {
    let text = str::from_utf8(bytes).unwrap_or("?");
    print!(rt; " {text}")
}

/// An expression: a local's number behind a `v`, a number, or an operation and its operands.
fn print_exp(rt: &impl Print, exp: &Exp<Src>) -> io::Result<()> {
    match exp {
        Exp::Var(local) => print!(rt; " v{local}"),
        Exp::Lit(value) => print!(rt; " {value}"),
        Exp::Op(name, operands) => {
            print!(rt; " (")?;
            print_bytes(rt, name.bytes())?;
            for operand in operands.as_slice() {
                print_exp(rt, operand)?;
            }
            print!(rt; " )")
        }
        Exp::In(_, off, _) => match *off {},
    }
}

fn print_rhs(rt: &impl Print, rhs: &Rhs<Src>) -> io::Result<()> {
    match rhs {
        Rhs::Exp(exp) => print_exp(rt, exp),
    }
}

fn print_stmt(rt: &impl Print, stmt: &Stmt<Src>) -> io::Result<()> {
    match stmt {
        Stmt::Let(local, rhs) => {
            print!(rt; " let {local} =")?;
            print_rhs(rt, rhs)
        }
        Stmt::Set(_, local, rhs) => {
            print!(rt; " set {local} =")?;
            print_rhs(rt, rhs)
        }
    }
}

/// A function: its name, how many parameters it has, its locals, its first statements, how many there are, and its value.
fn print_function(rt: &impl Print, function: &Function<Src>) -> io::Result<()> {
    print!(rt; ", fn")?;
    print_bytes(rt, function.name.bytes())?;
    print!(rt; " of {}:", function.parameters.len())?;
    for local in function.body.locals.as_slice().iter().take(FIRST) {
        print_bytes(rt, local.bytes())?;
    }
    let statements = &function.body.block.statements;
    for stmt in statements.as_slice().iter().take(FIRST) {
        print!(rt; ",")?;
        print_stmt(rt, stmt)?;
    }
    print!(rt; ", {} in all,", statements.len())?;
    print_rhs(rt, &function.body.block.tail)
}

/// Prints a copy of a program.
fn print_program(rt: &impl Print, alloc: Global, program: Program<Src>) -> io::Result<()> {
    let copy = program.copy(alloc)?;
    print!(rt; "a program")?;
    for function in copy.functions.as_slice() {
        print_function(rt, function)?;
    }
    Ok(())
}

fn print_checked(rt: &impl Print, alloc: Global, source: &[u8]) -> io::Result<()> {
    match check(alloc, source) {
        Ok(program) => print_program(rt, alloc, program),
        Err(ParseStop::Broken(broken)) => {
            let code = broken.rule.code();
            let at = broken.at;
            print!(rt; "{code} at byte {}, {}:{}", at.byte, at.line, at.col)
        }
        Err(ParseStop::TooDeep) => print!(rt; "too deep"),
        Err(ParseStop::NoMemory) => print!(rt; "no memory"),
    }
}

/// What a part repeats, and how often: `3*a` is `aaa`; `\n`, `\r` and `\t` are a line feed, a carriage return and a tab.
fn counted(part: &str) -> (&str, usize) {
    if let Some((number, unit)) = part.split_once('*')
        && let Ok(count) = number.parse()
    {
        return (unit, count);
    }
    match part {
        "\\n" => ("\n", 1),
        "\\r" => ("\r", 1),
        "\\t" => ("\t", 1),
        _ => (part, 1),
    }
}

/// The source that a row stands for; its parts have a `~` between.
fn source_of(alloc: Global, row: &str) -> Result<String, AllocError> {
    let mut text = String::new(alloc);
    for part in row.split('~') {
        let (unit, count) = counted(part);
        for _ in 0..count {
            text.push_str(unit)?;
        }
    }
    Ok(text)
}

/// Prints what is told of each source, and what a call leaves.
fn print_sources(rt: &impl Print, alloc: Global, table: &str) -> io::Result<()> {
    for row in table.lines() {
        let source = source_of(alloc, row)?;
        let calls = Calls {
            words: "print fstar Add add.rs",
            most: None,
            fetch: 0,
            out: 0,
            err: 0,
            count: 1,
        };
        print_checked(rt, alloc, source.as_bytes())?;
        print_calls(rt, alloc, calls, source.as_bytes())?;
    }
    Ok(())
}

/// The number that a word is, 0 where it is none.
fn number(words: Option<&str>) -> u32 {
    match words {
        Some(word) => word.parse().unwrap_or(0),
        None => 0,
    }
}

/// The calls of a row. Before the first `:` stand how many bytes a put takes at most, where it is not 0; which fetch fails, which
/// put on each output does, where it is not 0; and how many calls there are. Behind it stand the words.
fn calls_of(row: &str) -> Calls<'_> {
    let (numbers, words) = row.split_once(':').unwrap_or((row, ""));
    let mut numbers = numbers.split(' ');
    let most = number(numbers.next());
    Calls {
        words,
        most: if most > 0 { Some(most) } else { None },
        fetch: number(numbers.next()) as u64,
        out: number(numbers.next()) as u64,
        err: number(numbers.next()) as u64,
        count: number(numbers.next()),
    }
}

/// Prints which features each stage of the first language's tree has.
fn print_features(rt: &impl Print) -> io::Result<()> {
    for stage in features_of_stages() {
        for has in stage {
            let letter = if has { 'y' } else { 'n' };
            print!(rt; "{letter}")?;
        }
        println!(rt; "")?;
    }
    Ok(())
}

fn main(rt: HostRuntime) -> io::Result<()> {
    let alloc = rt.alloc();
    let table = fs::read_to_string(&rt, "table.txt")?;
    print_sources(&rt, alloc, &table)?;
    let source = fs::read(&rt, "add.rs")?;
    let rows = fs::read_to_string(&rt, "calls.txt")?;
    for row in rows.lines() {
        print!(rt; "{row}")?;
        print_calls(&rt, alloc, calls_of(row), &source)?;
    }
    print_features(&rt)
}
