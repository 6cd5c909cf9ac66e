//! Looks for the names of made texts and for what their items declare, so that the time that it takes can be measured.
//!
//! `bench_names KIND COUNT ROUNDS` makes a text with so many parts, looks for its names and declarations so often, and prints how
//! many items declare something or nothing, or the rule that is told. KIND is `functions`, each of which calls the one behind it; `constants`, each of which needs
//! the one behind it; `aliases`, each of which names the one behind it; `locals` of one function; `shadows`, blocks in one another
//! that each bind one name; `constructors`, enums of 256 of them, each of which is named; or `structs`, ten in a row, each of which
//! but the last has the one behind it twice. Without arguments it takes 16 parts of each kind once.
#![tactic(auto)]

use hs_base::place::Stop;
use hs_items::items;
use hs_lexer::lex;
use hs_parser::{ParseStop, parse};
use hs_resolver::resolve;
use std::alloc::{AllocError, Global};
use std::{env, io};

/// The kinds of texts.
const KINDS: [&str; 7] = [
    "functions",
    "constants",
    "aliases",
    "locals",
    "shadows",
    "constructors",
    "structs",
];

/// Parts, each with its number and the next one's, and a last one.
fn chain(
    alloc: Global,
    parts: [&str; 3],
    last: [&str; 2],
    count: usize,
) -> Result<String, AllocError> {
    let [before, between, behind] = parts;
    let mut text = String::new(alloc);
    for number in 1..count {
        let next = number + 1;
        let part = format!(in alloc; "{before}{number}{between}{next}{behind}")?;
        text.push_str(&part)?;
    }
    let [before, behind] = last;
    let part = format!(in alloc; "{before}{count}{behind}")?;
    text.push_str(&part)?;
    Ok(text)
}

/// A function with so many locals, 8 in each pattern.
fn locals(alloc: Global, count: usize) -> Result<String, AllocError> {
    let mut text = String::new(alloc);
    text.push_str("fn f() { ")?;
    for number in 0..count / 8 {
        let n = number;
        let part = format!(in alloc; "let (a{n}, b{n}, c{n}, d{n}, e{n}, f{n}, g{n}, h{n}) = 1; ")?;
        text.push_str(&part)?;
    }
    text.push_str("}")?;
    Ok(text)
}

/// Rows of 16 blocks in one another, each of which binds one name.
fn shadows(alloc: Global, count: usize) -> Result<String, AllocError> {
    let mut text = String::new(alloc);
    text.push_str("fn f(x: u8) { ")?;
    for _ in 0..count / 16 {
        for _ in 0..16 {
            text.push_str("{ let x = x; ")?;
        }
        for _ in 0..16 {
            text.push_str("x; } ")?;
        }
    }
    text.push_str("}")?;
    Ok(text)
}

/// Enums of 256 constructors, and a function that names each.
fn constructors(alloc: Global, count: usize) -> Result<String, AllocError> {
    let mut text = String::new(alloc);
    for number in 0..count.div_ceil(256) {
        let part = format!(in alloc; "enum E{number} {{ ")?;
        text.push_str(&part)?;
        for ctor in 0..256 {
            let part = format!(in alloc; "C{ctor}, ")?;
            text.push_str(&part)?;
        }
        let part = format!(in alloc; "}} fn f{number}() {{ ")?;
        text.push_str(&part)?;
        for ctor in 0..256 {
            let part = format!(in alloc; "E{number}::C{ctor}; ")?;
            text.push_str(&part)?;
        }
        text.push_str("} ")?;
    }
    Ok(text)
}

/// Rows of ten structs, each of which but the last has the one behind it twice.
fn structs(alloc: Global, count: usize) -> Result<String, AllocError> {
    let mut text = String::new(alloc);
    for number in 0..count {
        let next = number + 1;
        let part = if next % 10 == 0 || next == count {
            format!(in alloc; "struct S{number}(u8); ")?
        } else {
            format!(in alloc; "struct S{number}(S{next}, S{next}); ")?
        };
        text.push_str(&part)?;
    }
    Ok(text)
}

/// A text of a kind; an empty one, where there is no such kind.
fn made(alloc: Global, kind: &str, count: usize) -> Result<String, AllocError> {
    match kind {
        "functions" => chain(
            alloc,
            ["fn f", "() { f", "(); } "],
            ["fn f", "() { }"],
            count,
        ),
        "constants" => chain(
            alloc,
            ["const C", ": u8 = C", "; "],
            ["const C", ": u8 = 1;"],
            count,
        ),
        "aliases" => chain(alloc, ["type A", " = A", "; "], ["type A", " = u8;"], count),
        "locals" => locals(alloc, count),
        "shadows" => shadows(alloc, count),
        "constructors" => constructors(alloc, count),
        "structs" => structs(alloc, count),
        _ => Ok(String::new(alloc)),
    }
}

/// How many items there are of which it is known what they declare.
fn items_known(alloc: Global, text: &[u8], rounds: usize) -> Result<usize, Stop> {
    let tokens = lex(alloc, text)?;
    let file = match parse(alloc, &tokens, text) {
        Ok(file) => file,
        Err(ParseStop::Broken(broken)) => return Err(Stop::Broken(broken)),
        Err(ParseStop::TooDeep | ParseStop::NoMemory) => return Err(Stop::NoMemory),
    };
    let mut count = 0;
    for _ in 0..rounds {
        let names = resolve(alloc, &file)?;
        count = items(alloc, &file, &names)?.items.len();
    }
    Ok(count)
}

fn print_answer(
    rt: &impl Print,
    alloc: Global,
    kind: &str,
    count: usize,
    rounds: usize,
) -> io::Result<()> {
    let text = made(alloc, kind, count)?;
    match items_known(alloc, text.as_bytes(), rounds) {
        Ok(items) => println!(rt; "{kind}: {items} items"),
        Err(Stop::Broken(broken)) => {
            let code = broken.rule.code();
            println!(rt; "{kind}: {code} at byte {}", broken.at.byte)
        }
        Err(Stop::NoMemory) => println!(rt; "{kind}: no memory"),
    }
}

fn main(rt: HostRuntime) -> io::Result<()> {
    let mut arguments = env::args(&rt)?.skip(1);
    if let (Some(kind), Some(count), Some(rounds)) = (
        arguments.next(),
        arguments.next(),
        arguments.next(),
    ) {
        let count = count.as_str().parse().unwrap_or(0);
        let rounds = rounds.as_str().parse().unwrap_or(0);
        return print_answer(&rt, rt.alloc(), kind.as_str(), count, rounds);
    }
    for kind in KINDS {
        print_answer(&rt, rt.alloc(), kind, 16, 1)?;
    }
    Ok(())
}
