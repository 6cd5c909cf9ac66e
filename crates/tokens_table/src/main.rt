//! Prints the tokens of each text of two tables, as the grammar sees them, and where the tokens of each line of a third end.
#![tactic(auto)]

use hs_base::place::Stop;
use hs_forms::{Kind, Token, tokens_of};
use hs_lexer::lex;
use sqlite_items::Items;
use std::alloc::Global;
use std::{fs, io};

/// The tokens of a text.
fn seen(alloc: Global, text: &[u8]) -> Result<Items<Token>, Stop> {
    let tokens = lex(alloc, text)?;
    Ok(tokens_of(alloc, text, tokens.as_slice())?)
}

/// A token: its kind and its bytes, behind a `=` the value of an integer, and behind a `:` its suffix.
fn print_token(rt: &impl Print, token: &Token) -> io::Result<()> {
    let span = token.span;
    print!(rt; " {:?} {}..{}", token.kind, span.start, span.end)?;
    if matches!(token.kind, Kind::Digits | Kind::Int) {
        print!(rt; "={}", token.value)?;
    }
    match token.suffix {
        Some(suffix) => print!(rt; ":{suffix:?}"),
        None => Ok(()),
    }
}

/// What breaks, or that there is no memory.
fn print_stop(rt: &impl Print, stop: Stop) -> io::Result<()> {
    match stop {
        Stop::Broken(broken) => {
            let code = broken.rule.code();
            let at = broken.at;
            println!(rt; " {code} at byte {}, {}:{}", at.byte, at.line, at.col)
        }
        Stop::NoMemory => println!(rt; " no memory"),
    }
}

fn print_tokens(rt: &impl Print, alloc: Global, text: &[u8]) -> io::Result<()> {
    match seen(alloc, text) {
        Ok(tokens) => {
            for token in tokens.as_slice() {
                print_token(rt, token)?;
            }
            println!(rt; "")
        }
        Err(stop) => print_stop(rt, stop),
    }
}

/// Prints the last byte's number and one of each token.
fn print_ends(rt: &impl Print, alloc: Global, text: &[u8]) -> io::Result<()> {
    match lex(alloc, text) {
        Ok(tokens) => {
            for token in tokens.as_slice() {
                print!(rt; " {}", token.end)?;
            }
            println!(rt; "")
        }
        Err(stop) => print_stop(rt, stop),
    }
}

fn main(rt: HostRuntime) -> io::Result<()> {
    let alloc = rt.alloc();
    let table = fs::read_to_string(&rt, "table.txt")?;
    for line in table.lines() {
        print_tokens(&rt, alloc, line.as_bytes())?;
    }
    let texts = fs::read(&rt, "texts.txt")?;
    for text in texts.split(|byte| *byte == b'`') {
        print_tokens(&rt, alloc, text)?;
    }
    let marks = fs::read_to_string(&rt, "marks.txt")?;
    for line in marks.lines() {
        print_ends(&rt, alloc, line.as_bytes())?;
    }
    for length in [262_144, 262_145] {
        let blanks = vec![in alloc; b' '; length]?;
        print_tokens(&rt, alloc, &blanks)?;
    }
    Ok(())
}
