//! Checks made texts, so that the time and the memory of `check` can be measured.
//!
//! `bench_front KIND BYTES ROUNDS` makes a text of nearly that many bytes and checks it that many times, and prints how many
//! statements its program has, or the rule that is told. KIND is `comments`, `names`, `bindings` or `assignments`, texts that
//! are accepted; or `functions`, many of them, `sum`, a long one, `nesting`, many expressions in 40 pairs of parentheses, or
//! `list`, a long one, texts of the whole language. Without arguments it checks a text of 2000 bytes of each kind once.
#![tactic(auto)]

use hs_front::check::check;
use hs_parser::ParseStop;
use std::alloc::{AllocError, Global};
use std::{env, io};

/// A name of 64 bytes, as far as its last byte.
const LONG: &[u8] = b"nnnnnnnnnnnnnnnnnnnnnnnnnnnnnnnnnnnnnnnnnnnnnnnnnnnnnnnnnnnnnnn";

/// The kinds of texts.
const KINDS: [&str; 8] = [
    "comments",
    "names",
    "bindings",
    "assignments",
    "functions",
    "sum",
    "nesting",
    "list",
];

fn repeat(text: &mut Vec<u8>, pattern: &[u8], times: usize) -> Result<(), AllocError> {
    for _ in 0..times {
        text.extend_from_slice(pattern)?;
    }
    Ok(())
}

/// A statement of 256 bytes, whose sum has 60 `+`: it binds `b` or assigns `x`.
fn sum(alloc: Global, head: &[u8]) -> Result<Vec<u8>, AllocError> {
    let mut statement = Vec::new(alloc);
    statement.extend_from_slice(head)?;
    repeat(&mut statement, b" + a", 60)?;
    statement.extend_from_slice(b"; ")?;
    Ok(statement)
}

/// A statement of 276 bytes, with long names that differ in their last byte.
fn long_names(alloc: Global) -> Result<Vec<u8>, AllocError> {
    let mut statement = Vec::new(alloc);
    let parts: [&[u8]; 8] = [
        b"let ",
        LONG,
        b"b: u32 = ",
        LONG,
        b"a + ",
        LONG,
        b"a + ",
        LONG,
    ];
    for part in &parts {
        statement.extend_from_slice(part)?;
    }
    statement.extend_from_slice(b"a; ")?;
    Ok(statement)
}

/// A statement of 83 bytes, with 40 pairs of parentheses.
fn parentheses(alloc: Global) -> Result<Vec<u8>, AllocError> {
    let mut statement = Vec::new(alloc);
    repeat(&mut statement, b"(", 40)?;
    statement.extend_from_slice(b"1")?;
    repeat(&mut statement, b")", 40)?;
    statement.extend_from_slice(b"; ")?;
    Ok(statement)
}

/// A file of about so many bytes, with as many of these pieces in its middle.
fn filled(
    alloc: Global,
    head: &[u8],
    piece: &[u8],
    tail: &[u8],
    length: usize,
) -> Result<Vec<u8>, AllocError> {
    let mut text = Vec::new(alloc);
    text.extend_from_slice(head)?;
    let room = length.saturating_sub(head.len()).saturating_sub(tail.len());
    if !piece.is_empty() {
        repeat(&mut text, piece, room / piece.len())?;
    }
    text.extend_from_slice(tail)?;
    Ok(text)
}

/// Functions of nearly so many bytes in all, each with a name of its own, of a line of up to 70 bytes.
fn functions(alloc: Global, length: usize) -> Result<Vec<u8>, AllocError> {
    let mut text = Vec::new(alloc);
    for number in 0..length / 70 {
        let name = format!(in alloc; "fn f{number}")?;
        text.extend_from_slice(name.as_bytes())?;
        text.extend_from_slice(b"(a: u8) -> u8 { let b = a + 1; let c = b + 2; c + 3 }\n")?;
    }
    Ok(text)
}

/// A text of about so many bytes, if there is such a kind.
fn text_of(alloc: Global, kind: &str, length: usize) -> Result<Option<Vec<u8>>, AllocError> {
    let text = match kind {
        "comments" => {
            let head = b"fn f(a: u32) -> u32 { ";
            filled(alloc, head, b"/* b */ // c\n", b"a }", length)?
        }
        "names" => {
            let mut head = Vec::new(alloc);
            head.extend_from_slice(b"fn f(")?;
            head.extend_from_slice(LONG)?;
            head.extend_from_slice(b"a: u32) -> u32 { ")?;
            filled(alloc, &head, &long_names(alloc)?, b"1 }", length)?
        }
        "bindings" => {
            let head = b"fn f(a: u32) -> u32 { ";
            filled(alloc, head, &sum(alloc, b"let b: u32 = a")?, b"a }", length)?
        }
        "assignments" => {
            let head = b"fn f(a: u32) -> u32 { let mut x: u32 = a; ";
            filled(alloc, head, &sum(alloc, b"x =          a")?, b"x }", length)?
        }
        "functions" => functions(alloc, length)?,
        "sum" => filled(alloc, b"fn f() -> u32 { 1", b" + a[1]", b" }", length)?,
        "nesting" => filled(alloc, b"fn f() { ", &parentheses(alloc)?, b"}", length)?,
        "list" => {
            let head = b"fn g() {} fn f(a: u32, b: u32) { g(1";
            filled(alloc, head, b", a, &b", b") }", length)?
        }
        _ => return Ok(None),
    };
    Ok(Some(text))
}

/// How many statements the program of a text has.
fn statements(alloc: Global, text: &[u8]) -> Result<usize, ParseStop> {
    let program = check(alloc, text)?;
    match program.functions.get(0) {
        Some(function) => Ok(function.body.block.statements.len()),
        None => Ok(0),
    }
}

/// Prints how many statements the text's program has, or the rule that is told, after checking it so many times.
fn print_checked(
    rt: &impl Print,
    alloc: Global,
    kind: &str,
    length: usize,
    rounds: usize,
) -> io::Result<()> {
    let Ok(Some(text)) = text_of(alloc, kind, length) else {
        return println!(rt; "no text of {kind}");
    };
    let mut answer = Ok(0);
    for _ in 0..rounds {
        answer = statements(alloc, &text);
    }
    match answer {
        Ok(count) => println!(rt; "{kind} {length}: {count} statements"),
        Err(ParseStop::Broken(broken)) => println!(rt; "{kind} {length}: {}", broken.rule.code()),
        Err(ParseStop::TooDeep) => println!(rt; "{kind} {length}: too deep"),
        Err(ParseStop::NoMemory) => println!(rt; "{kind} {length}: no memory"),
    }
}

fn main(rt: HostRuntime) -> io::Result<()> {
    let mut arguments = env::args(&rt)?.skip(1);
    if let (Some(kind), Some(length), Some(rounds)) = (
        arguments.next(),
        arguments.next(),
        arguments.next(),
    ) {
        let length = length.as_str().parse().unwrap_or(0);
        let rounds = rounds.as_str().parse().unwrap_or(0);
        return print_checked(&rt, rt.alloc(), kind.as_str(), length, rounds);
    }
    for kind in KINDS {
        print_checked(&rt, rt.alloc(), kind, 2000, 1)?;
    }
    Ok(())
}
