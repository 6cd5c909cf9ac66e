//! Prints what is told of each front of a source, of each line of two tables of sources, and of sources that nest deeply.
#![tactic(auto)]

use hs_lexer::lex;
use hs_parser::{ParseStop, parse};
use std::alloc::{AllocError, Global};
use std::{fs, io};

/// Whether a text is a file that passes no limit.
fn read(alloc: Global, text: &[u8]) -> Result<(), ParseStop> {
    let tokens = lex(alloc, text)?;
    let _file = parse(alloc, &tokens, text)?;
    Ok(())
}

fn print_told(rt: &impl Print, alloc: Global, text: &[u8]) -> io::Result<()> {
    match read(alloc, text) {
        Ok(()) => println!(rt; "a file"),
        Err(ParseStop::Broken(broken)) => {
            let code = broken.rule.code();
            println!(rt; "{code} {}:{}", broken.at.line, broken.at.col)
        }
        Err(ParseStop::TooDeep) => println!(rt; "too deep"),
        Err(ParseStop::NoMemory) => println!(rt; "no memory"),
    }
}

/// A part so many times.
fn repeat(text: &mut String, part: &str, count: usize) -> Result<(), AllocError> {
    for _ in 0..count {
        text.push_str(part)?;
    }
    Ok(())
}

/// A form that nests: what stands before all, how each begins, what is innermost, how each ends, what stands behind all, and how
/// often it nests in a source of nearly the greatest length.
#[derive(Clone, Copy)]
struct Nest {
    head: &'static str,
    before: &'static str,
    inside: &'static str,
    behind: &'static str,
    tail: &'static str,
    most: usize,
}

/// A source in which the form nests so many times, closed as often as said, and then the function too.
fn nested(alloc: Global, nest: Nest, count: usize, closed: usize) -> Result<String, AllocError> {
    let mut text = String::new(alloc);
    text.push_str(nest.head)?;
    repeat(&mut text, nest.before, count)?;
    text.push_str(nest.inside)?;
    repeat(&mut text, nest.behind, closed)?;
    if closed > 0 {
        text.push_str(nest.tail)?;
    }
    Ok(text)
}

fn print_nested(rt: &impl Print, alloc: Global, nest: Nest) -> io::Result<()> {
    for count in [20, 64, 170, 500, nest.most] {
        for closed in [0, count] {
            print!(rt; "{} {count} {closed}: ", nest.before)?;
            let text = nested(alloc, nest, count, closed)?;
            print_told(rt, alloc, text.as_bytes())?;
        }
    }
    Ok(())
}

const fn nesting(
    before: &'static str,
    inside: &'static str,
    behind: &'static str,
    most: usize,
) -> Nest {
    within("fn f() { ", before, inside, behind, " }", most)
}

const fn within(
    head: &'static str,
    before: &'static str,
    inside: &'static str,
    behind: &'static str,
    tail: &'static str,
    most: usize,
) -> Nest {
    Nest {
        head,
        before,
        inside,
        behind,
        tail,
        most,
    }
}

/// A source of parts, each so many times.
fn print_parts(rt: &impl Print, alloc: Global, parts: &[(&str, usize)]) -> io::Result<()> {
    let mut text = String::new(alloc);
    for (part, count) in parts {
        repeat(&mut text, part, *count)?;
    }
    print_told(rt, alloc, text.as_bytes())
}

/// Prints what is told of sources that nest.
fn print_nests(rt: &impl Print, alloc: Global) -> io::Result<()> {
    let nests = [
        nesting("(", "1", ")", 100000),
        nesting("{", "1", "}", 60000),
        nesting("-", "1", "", 100000),
        nesting("a[", "1", "]", 60000),
        nesting("if a {", "1", "}", 30000),
        nesting("match a { _ => ", "1", "}", 16000),
        nesting("f(", "1", ")", 60000),
        nesting("if a {} else ", "{}", "", 16000),
        nesting("f([", "1", "])", 50000),
        nesting("f(&", "1", ")", 60000),
        nesting("a.f(", "1", ")", 50000),
        nesting("(1, ", "1", ")", 50000),
        nesting("(", "1", " as u8)", 30000),
        nesting("a + (", "1", ")", 40000),
        nesting("if ", "a", " {}", 40000),
        nesting("match ", "a", " { _ => 1 }", 14000),
        nesting("for i in 0..1 {", "1;", "}", 16000),
        nesting("let a = {", "1;", "};", 20000),
        nesting("a || a && a == a | a ^ a & a << a + a * (", "1", ")", 6000),
        within("fn f() { let x: ", "A<", "u8", ">", " = 1; }", 80000),
        within("fn f() { let x: ", "A<u8, ", "u8", ">", " = 1; }", 30000),
        within("fn f() { let x: ", "(u8, ", "u8", ")", " = 1; }", 40000),
        within("fn f() { f(A::<", "A<", "u8", ">", ">::b(1)) }", 80000),
        within("fn f() { let ", "S(", "a", ")", " = 1; }", 80000),
        within("fn f() { let ", "(a, ", "a", ")", " = 1; }", 50000),
        within("fn f() { match a { ", "S(", "a", ")", " => 1 } }", 80000),
    ];
    for nest in nests {
        print_nested(rt, alloc, nest)?;
    }
    Ok(())
}

/// Prints what is told of sources that are long, or break before they nest too deep.
fn print_others(rt: &impl Print, alloc: Global) -> io::Result<()> {
    print_parts(rt, alloc, &[])?;
    print_parts(rt, alloc, &[("const A: u8 = 1; ", 800)])?;
    let flat = "fn f() -> Seq<u8> { if a { f([1]) } else { - 1 } } ";
    print_parts(rt, alloc, &[(flat, 1500)])?;
    print_parts(rt, alloc, &[("\n", 70_000), ("1", 1)])?;
    print_parts(rt, alloc, &[("(1 2)", 1)])?;
    print_parts(rt, alloc, &[("1", 1), ("(", 2_000)])?;
    print_parts(rt, alloc, &[("fn f() { 1 2 ", 1), ("(", 2_000)])?;
    let types = [
        ("fn f() { f(A::<", 1),
        ("A<", 800),
        ("u8", 1),
        (">", 800),
        (">::b(1)) }", 1),
    ];
    print_parts(rt, alloc, &types)
}

/// The source that a row stands for: its parts have a `~` between, `3*a` is `aaa`, and `\n` is a line feed.
fn source_of(alloc: Global, row: &str) -> Result<String, AllocError> {
    let mut text = String::new(alloc);
    for part in row.split('~') {
        if part == "\\n" {
            text.push_str("\n")?;
        } else {
            let (unit, count) = counted(part);
            repeat(&mut text, unit, count)?;
        }
    }
    Ok(text)
}

/// What a part repeats, and how often.
fn counted(part: &str) -> (&str, usize) {
    if let Some((number, unit)) = part.split_once('*')
        && let Ok(count) = number.parse()
    {
        return (unit, count);
    }
    (part, 1)
}

/// Prints what is told of the sources that were chosen one by one.
fn print_chosen(rt: &HostRuntime, alloc: Global) -> io::Result<()> {
    let chosen = fs::read_to_string(rt, "chosen.txt")?;
    for row in chosen.lines() {
        let text = source_of(alloc, row)?;
        print_told(rt, alloc, text.as_bytes())?;
    }
    Ok(())
}

fn main(rt: HostRuntime) -> io::Result<()> {
    let alloc = rt.alloc();
    let source = fs::read_to_string(&rt, "chacha20.rs")?;
    for length in 0..source.len() {
        print!(rt; "{length}: ")?;
        print_told(&rt, alloc, &source.as_bytes()[..length])?;
    }
    print_told(&rt, alloc, source.as_bytes())?;
    let table = fs::read_to_string(&rt, "table.txt")?;
    for line in table.lines() {
        print_told(&rt, alloc, line.as_bytes())?;
    }
    print_chosen(&rt, alloc)?;
    print_nests(&rt, alloc)?;
    print_others(&rt, alloc)?;
    Ok(())
}
