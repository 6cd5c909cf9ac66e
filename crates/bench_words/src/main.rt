//! Folds operations on machine integers, and the same operations on plain integers, so that their times can be compared.
//!
//! `bench_words WIDTH WAY ROUNDS` folds that many rounds of four operations at the width `32` or `128` by the way `words` or
//! `plain`, and prints the last number. Without arguments it folds 1000 rounds at each width by each way.
#![tactic(auto)]

use hs_words::{IntTy, Word};
use std::{env, io};

/// Folds a product, an exclusive or, a mask and an exact sum in each round; `None` where the kind lacks a constant or a sum.
fn fold_words(ty: IntTy, rounds: u64) -> Option<Word> {
    let factor = Word::new(ty, 1664525)?;
    let mixed = Word::new(ty, 1013904223)?;
    let low = Word::new(ty, (u128::MAX >> (128 - ty.width())) >> 1)?;
    let one = Word::new(ty, 1)?;
    let mut number = one;
    for _ in 0..rounds {
        match number.wmul(&factor).xor(&mixed).and(&low).add(&one) {
            Ok(next) => number = next,
            Err(_) => return None,
        }
    }
    Some(number)
}

fn fold_u32(rounds: u64) -> u32 {
    let mut number: u32 = 1;
    for _ in 0..rounds {
        number = ((number.wrapping_mul(1664525) ^ 1013904223) & (u32::MAX >> 1)) + 1;
    }
    number
}

fn fold_u128(rounds: u64) -> u128 {
    let mut number: u128 = 1;
    for _ in 0..rounds {
        number = ((number.wrapping_mul(1664525) ^ 1013904223) & (u128::MAX >> 1)) + 1;
    }
    number
}

/// The last number of a fold, if there is one. The kind is known only as the program runs.
fn fold(width: &str, way: &str, rounds: u64) -> Option<u128> {
    let ty = match width {
        "32" => IntTy::PU32,
        "128" => IntTy::PU128,
        _ => return None,
    };
    match (way, ty) {
        ("words", _) => fold_words(ty, rounds).map(|word| word.bits()),
        ("plain", IntTy::PU32) => Some(fold_u32(rounds) as u128),
        ("plain", _) => Some(fold_u128(rounds)),
        _ => None,
    }
}

fn print_fold(rt: &impl Print, width: &str, way: &str, rounds: u64) -> io::Result<()> {
    match fold(width, way, rounds) {
        Some(number) => println!(rt; "{width} {way} {number}"),
        None => println!(rt; "{width} {way} has no fold"),
    }
}

fn main(rt: HostRuntime) -> io::Result<()> {
    let mut arguments = env::args(&rt)?.skip(1);
    if let (Some(width), Some(way), Some(rounds)) = (
        arguments.next(),
        arguments.next(),
        arguments.next(),
    ) {
        return print_fold(
            &rt,
            width.as_str(),
            way.as_str(),
            rounds.as_str().parse().unwrap_or(0),
        );
    }
    for width in ["32", "128"] {
        for way in ["words", "plain"] {
            print_fold(&rt, width, way, 1000)?;
        }
    }
    Ok(())
}
