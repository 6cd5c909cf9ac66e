//! Lexes made texts, so that the time and the memory of `lex` can be measured.
//!
//! `bench_lexer KIND BYTES ROUNDS` makes a text of about that many bytes and lexes it that many times, and prints how many
//! tokens it has. KIND is `names`, `marks`, `comment` or `nested`. Without arguments it lexes a text of 1000 bytes of each
//! kind once.
#![tactic(auto)]

use hs_lexer::lex;
use std::alloc::{AllocError, Global};
use std::{env, io};

fn repeat(text: &mut Vec<u8>, pattern: &[u8], times: usize) -> Result<(), AllocError> {
    for _ in 0..times {
        text.extend_from_slice(pattern)?;
    }
    Ok(())
}

/// A text of about so many bytes, if there is such a kind.
fn text_of(alloc: Global, kind: &str, length: usize) -> Result<Option<Vec<u8>>, AllocError> {
    let mut text = Vec::new(alloc);
    match kind {
        "names" => repeat(&mut text, b"name ", length / 5)?,
        "marks" => repeat(&mut text, b"+", length)?,
        "comment" => {
            repeat(&mut text, b"/*", 1)?;
            repeat(&mut text, b"*", length.saturating_sub(4))?;
            repeat(&mut text, b"*/", 1)?;
        }
        "nested" => {
            repeat(&mut text, b"/*", length / 4)?;
            repeat(&mut text, b"*/", length / 4)?;
        }
        _ => return Ok(None),
    }
    Ok(Some(text))
}

/// Prints how many tokens the text has, after lexing it so many times.
fn print_lexed(
    rt: &impl Print,
    alloc: Global,
    kind: &str,
    length: usize,
    rounds: usize,
) -> io::Result<()> {
    let Ok(Some(text)) = text_of(alloc, kind, length) else {
        return println!(rt; "no text of {kind}");
    };
    let mut count = 0;
    for _ in 0..rounds {
        match lex(alloc, &text) {
            Ok(tokens) => count = tokens.len(),
            Err(_) => return println!(rt; "{kind} {length}: no tokens"),
        }
    }
    println!(rt; "{kind} {length}: {count} tokens")
}

fn main(rt: HostRuntime) -> io::Result<()> {
    let mut arguments = env::args(&rt)?.skip(1);
    if let (Some(kind), Some(length), Some(rounds)) = (
        arguments.next(),
        arguments.next(),
        arguments.next(),
    ) {
        let length = length.as_str().parse().unwrap_or(0);
        let rounds = rounds.as_str().parse().unwrap_or(0);
        return print_lexed(&rt, rt.alloc(), kind.as_str(), length, rounds);
    }
    for kind in ["names", "marks", "comment", "nested"] {
        print_lexed(&rt, rt.alloc(), kind, 1000, 1)?;
    }
    Ok(())
}
