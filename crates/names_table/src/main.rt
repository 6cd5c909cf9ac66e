//! Prints what is told of the names of each line of a table of sources, or the order of its items, and of sources at limits.
#![tactic(auto)]

use hs_base::place::Stop;
use hs_lexer::lex;
use hs_parser::{ParseStop, parse};
use hs_resolver::{Names, resolve};
use std::alloc::{AllocError, Global};
use std::{fs, io};

/// What is known of the names of a text.
fn names(alloc: Global, text: &[u8]) -> Result<Names, Stop> {
    let tokens = lex(alloc, text)?;
    match parse(alloc, &tokens, text) {
        Ok(file) => resolve(alloc, &file),
        Err(ParseStop::Broken(broken)) => Err(Stop::Broken(broken)),
        Err(ParseStop::TooDeep | ParseStop::NoMemory) => Err(Stop::NoMemory),
    }
}

fn print_told(rt: &impl Print, alloc: Global, text: &[u8]) -> io::Result<()> {
    match names(alloc, text) {
        Ok(names) => {
            print!(rt; "order")?;
            for item in names.order.as_slice() {
                print!(rt; " {item}")?;
            }
            println!(rt; "")
        }
        Err(Stop::Broken(broken)) => {
            let code = broken.rule.code();
            println!(rt; "{code} {}:{}", broken.at.line, broken.at.col)
        }
        Err(Stop::NoMemory) => println!(rt; "no memory"),
    }
}

/// A text with a part in it so many times.
fn repeated(
    alloc: Global,
    before: &str,
    part: &str,
    count: usize,
    behind: &str,
) -> Result<String, AllocError> {
    let mut text = String::new(alloc);
    text.push_str(before)?;
    for _ in 0..count {
        text.push_str(part)?;
    }
    text.push_str(behind)?;
    Ok(text)
}

/// So many functions, each with a name of its own, of 15 bytes each.
fn functions(alloc: Global, count: usize) -> Result<String, AllocError> {
    let mut text = String::new(alloc);
    for number in 0..count {
        let function = format!(in alloc; "fn f{number:04}() {{ }} ")?;
        text.push_str(&function)?;
    }
    Ok(text)
}

/// Eight locals.
const LOCALS: &str = "let (a, b, c, d, e, f, g, h) = 1; ";

fn main(rt: HostRuntime) -> io::Result<()> {
    let alloc = rt.alloc();
    let table = fs::read_to_string(&rt, "table.txt")?;
    for line in table.lines() {
        print_told(&rt, alloc, line.as_bytes())?;
    }
    let limits = [
        functions(alloc, 4097)?,
        repeated(alloc, "fn f() { ", LOCALS, 512, "let z = 1; }")?,
        repeated(alloc, "fn f() { ", LOCALS, 512, "for _ in 0..1 { } }")?,
        repeated(alloc, "const C: u8 = { ", LOCALS, 513, "a };")?,
        repeated(alloc, "fn f(x: u8) { ", "return; ", 256, "x?; }")?,
        repeated(alloc, "fn f(x: u8) { ", "return; ", 255, "return x?; }")?,
        repeated(alloc, "fn f(x: u8) { ", "return; ", 256, "}")?,
    ];
    for text in &limits {
        print_told(&rt, alloc, text.as_bytes())?;
    }
    Ok(())
}
