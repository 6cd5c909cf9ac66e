//! Prints what names stand for: for each line of a table, which asks something of a name in a source, and in long chains of
//! aliases.
#![tactic(auto)]

use hs_lexer::lex;
use hs_parser::{ParseStop, parse};
use hs_scope::Scope;
use hs_symbols::{Paths, Referent, built_in, maker_word, sequence};
use hs_syntax::{File, Span};
use std::alloc::{AllocError, Global};
use std::{fs, io};

/// The file that a text is.
fn read(alloc: Global, text: &[u8]) -> Result<File, ParseStop> {
    let tokens = lex(alloc, text)?;
    parse(alloc, &tokens, text)
}

/// What stands before the first mark, and what stands behind it; where there is none, nothing before it.
fn behind<'t>(text: &'t str, mark: &str) -> (&'t str, &'t str) {
    match text.split_once(mark) {
        Some(halves) => halves,
        None => ("", text),
    }
}

/// What stands before the first blank, and what stands behind it; where there is none, nothing behind it.
fn word(text: &str) -> (&str, &str) {
    match text.split_once(' ') {
        Some(halves) => halves,
        None => (text, ""),
    }
}

/// What a line asks.
#[derive(Clone, Copy)]
struct Question<'t> {
    /// What is to be told of the name.
    what: &'t str,
    /// What stands before the `::` of the name: a type, a number, or the locals in scope.
    before: &'t str,
    name: &'t str,
}

/// The names of locals, with numbers from 0.
fn scope<'t>(alloc: Global, locals: &'t str) -> Result<Scope<'t>, AllocError> {
    let mut scope = Scope::new(alloc);
    if !locals.is_empty() {
        for (number, local) in locals.split(',').enumerate() {
            scope.bind(local.as_bytes(), number)?;
        }
    }
    Ok(scope)
}

/// What the name stands for.
fn referent(
    alloc: Global,
    paths: &Paths<'_>,
    asked: Question<'_>,
) -> Result<Option<Referent>, AllocError> {
    let symbols = paths.symbols();
    let name = asked.name.as_bytes();
    let answer = match asked.what {
        "built-in" => built_in(name).map(Referent::BuiltIn),
        "sequence" => sequence(name).map(Referent::BuiltIn),
        "maker" => maker_word(name, asked.before.parse().unwrap_or(0)).map(Referent::BuiltIn),
        "type" => symbols.type_named(name),
        "called" => symbols.callee_named(name),
        "pattern" => symbols.ctor_named(name),
        "leads" => paths.data_of(name).map(Referent::Item),
        "member" => paths.ctor_in(paths.data_of(asked.before.as_bytes()), name),
        "of" => paths.ctor_in(asked.before.parse().ok(), name),
        _ => {
            let scope = scope(alloc, asked.before)?;
            symbols.value_named(&scope, name)
        }
    };
    Ok(answer)
}

fn print_referent(rt: &impl Print, referent: Option<Referent>) -> io::Result<()> {
    match referent {
        None => println!(rt; "nothing"),
        Some(Referent::Local(number)) => println!(rt; "local {number}"),
        Some(Referent::Item(item)) => println!(rt; "item {item}"),
        Some(Referent::Ctor(item, place)) => println!(rt; "constructor {place} of item {item}"),
        Some(Referent::BuiltIn(name)) => println!(rt; "built-in {name:?}"),
    }
}

fn print_bytes(rt: &impl Print, bytes: &[u8]) -> io::Result<()> {
    for byte in bytes {
        let letter = *byte as char;
        print!(rt; "{letter}")?;
    }
    println!(rt; "")
}

fn print_answer(
    rt: &impl Print,
    alloc: Global,
    paths: &Paths<'_>,
    asked: Question<'_>,
) -> io::Result<()> {
    let symbols = paths.symbols();
    match asked.what {
        "items" => println!(rt; "{}", symbols.items().len()),
        "item" => match symbols.items().get(asked.name.parse().unwrap_or(0)) {
            None => println!(rt; "nothing"),
            Some(item) => print_bytes(rt, symbols.spelled(item.span)),
        },
        "constant" => println!(rt; "{}", symbols.is_constant(asked.name.as_bytes())),
        "spelled" => {
            let start = asked.before.parse().unwrap_or(0);
            let end = asked.name.parse().unwrap_or(0);
            print_bytes(rt, symbols.spelled(Span { start, end }))
        }
        _ => print_referent(rt, referent(alloc, paths, asked)?),
    }
}

/// Prints what is asked of a source.
fn print_asked(
    rt: &impl Print,
    alloc: Global,
    source: &str,
    asked: Question<'_>,
) -> io::Result<()> {
    match read(alloc, source.as_bytes()) {
        Ok(file) => {
            let paths = Paths::new(alloc, &file)?;
            print_answer(rt, alloc, &paths, asked)
        }
        Err(_) => println!(rt; "no file"),
    }
}

/// Prints what a line asks: the words are the question, the name and the source.
fn print_line(rt: &impl Print, alloc: Global, line: &str) -> io::Result<()> {
    let (what, rest) = word(line);
    let (asked, source) = word(rest);
    let (before, name) = behind(asked, "::");
    print_asked(rt, alloc, source, Question { what, before, name })
}

/// Prints to which item the name of this number leads.
fn print_led(rt: &impl Print, alloc: Global, source: &str, number: usize) -> io::Result<()> {
    let name = format!(in alloc; "a{number:05}")?;
    let asked = Question {
        what: "leads",
        before: "",
        name: &name,
    };
    print_asked(rt, alloc, source, asked)
}

/// So many aliases, each of the name that comes next.
fn aliases(alloc: Global, count: usize) -> Result<String, AllocError> {
    let mut text = String::new(alloc);
    for number in 0..count {
        let next = number.saturating_add(1);
        let alias = format!(in alloc; "type a{number:05} = a{next:05}; ")?;
        text.push_str(&alias)?;
    }
    Ok(text)
}

/// A struct, and behind it so many aliases, each of the name before.
fn aliases_behind(alloc: Global, count: usize) -> Result<String, AllocError> {
    let mut text = String::new(alloc);
    text.push_str("struct a00000(u8); ")?;
    for number in 0..count {
        let next = number.saturating_add(1);
        let alias = format!(in alloc; "type a{next:05} = a{number:05}; ")?;
        text.push_str(&alias)?;
    }
    Ok(text)
}

/// Prints where so many aliases lead: to a struct behind them, to a struct before them, to an array type, round in a circle, and
/// into one.
fn print_chains(rt: &impl Print, alloc: Global, count: usize) -> io::Result<()> {
    let chain = aliases(alloc, count)?;
    let data = format!(in alloc; "{chain}struct a{count:05}(u8);")?;
    print_led(rt, alloc, &data, 0)?;
    print_led(rt, alloc, &aliases_behind(alloc, count)?, count)?;
    let array = format!(in alloc; "{chain}array!(a{count:05}, 1, u8);")?;
    print_led(rt, alloc, &array, 0)?;
    let circle = format!(in alloc; "{chain}type a{count:05} = a00000;")?;
    print_led(rt, alloc, &circle, 0)?;
    let into = format!(in alloc; "{chain}type a{count:05} = a{count:05};")?;
    print_led(rt, alloc, &into, 0)
}

fn main(rt: HostRuntime) -> io::Result<()> {
    let alloc = rt.alloc();
    let table = fs::read_to_string(&rt, "table.txt")?;
    for line in table.lines() {
        print_line(&rt, alloc, line)?;
    }
    for count in [0, 1, 2, 100, 3_000] {
        print_chains(&rt, alloc, count)?;
    }
    Ok(())
}
