//! Prints what each operation on machine integers gives at the edges of the sixteen kinds.
//!
//! A line has a kind, an operation and its answers, in the order of the operands: bits in hexadecimal, or why there is no
//! value. The operands are the words with the bits 0, 1, 2^(width-1) - 1, 2^(width-1) and 2^width - 1, each with each.
#![tactic(auto)]

ghost use Rattle.std.specs.Prelude.{◌≡◌};

use hs_words::{IntTy, Panic, Word};
use std::io;

const KINDS: [IntTy; 16] = [
    IntTy::PU8,
    IntTy::PU16,
    IntTy::PU32,
    IntTy::PU64,
    IntTy::PU128,
    IntTy::PUsize,
    IntTy::PI8,
    IntTy::PI16,
    IntTy::PI32,
    IntTy::PI64,
    IntTy::PI128,
    IntTy::SU8,
    IntTy::SU16,
    IntTy::SU32,
    IntTy::SU64,
    IntTy::SU128,
];

/// An operation on two words of one kind.
#[derive(Clone, Copy, Debug)]
enum Operation {
    Add,
    Sub,
    Mul,
    Div,
    Rem,
    WrappingAdd,
    WrappingSub,
    WrappingMul,
    And,
    Or,
    Xor,
}

const OPERATIONS: [Operation; 11] = [
    Operation::Add,
    Operation::Sub,
    Operation::Mul,
    Operation::Div,
    Operation::Rem,
    Operation::WrappingAdd,
    Operation::WrappingSub,
    Operation::WrappingMul,
    Operation::And,
    Operation::Or,
    Operation::Xor,
];

/// An operation that moves bits by a number of places.
#[derive(Clone, Copy, Debug)]
enum Move {
    ShiftLeft,
    ShiftRight,
    TurnLeft,
    TurnRight,
}

const MOVES: [Move; 4] = [
    Move::ShiftLeft,
    Move::ShiftRight,
    Move::TurnLeft,
    Move::TurnRight,
];

/// The bits that stand at the edges of a kind.
fn edges(ty: IntTy) -> [u128; 5] {
    let greatest = u128::MAX >> (128 - ty.width());
    let half = greatest >> 1;
    [0, 1, half, half + 1, greatest]
}

fn print_answer(rt: &impl Print, answer: Result<Word, Panic>) -> io::Result<()> {
    match answer {
        Ok(word) => print!(rt; " {:x}", word.bits()),
        Err(panic) => print!(rt; " {panic:?}"),
    }
}

/// What the operation gives, if the kind has it.
fn answer_of(operation: Operation, a: &Word, b: &Word) -> Option<Result<Word, Panic>>
    requires { b.now.kind ≡ a.now.kind }
{
    let public = !a.ty().secret();
    match operation {
        Operation::Add => Some(a.add(b)),
        Operation::Sub => Some(a.sub(b)),
        Operation::Mul => Some(a.mul(b)),
        Operation::Div if public => Some(a.div(b)),
        Operation::Rem if public => Some(a.rem(b)),
        Operation::Div | Operation::Rem => None,
        Operation::WrappingAdd => Some(Ok(a.wadd(b))),
        Operation::WrappingSub => Some(Ok(a.wsub(b))),
        Operation::WrappingMul => Some(Ok(a.wmul(b))),
        Operation::And => Some(Ok(a.and(b))),
        Operation::Or => Some(Ok(a.or(b))),
        Operation::Xor => Some(Ok(a.xor(b))),
    }
}

/// What the move gives, if the kind has it.
fn moved(operation: Move, a: &Word, places: &Word) -> Option<Result<Word, Panic>>
    requires { places.now.kind ≡ IntTy.PUsize }
{
    let unsigned = !a.ty().signed();
    match operation {
        Move::ShiftLeft => Some(a.shl(places)),
        Move::ShiftRight => Some(a.shr(places)),
        Move::TurnLeft if unsigned => Some(Ok(a.rotl(places))),
        Move::TurnRight if unsigned => Some(Ok(a.rotr(places))),
        Move::TurnLeft | Move::TurnRight => None,
    }
}

fn print_operation(rt: &impl Print, ty: IntTy, operation: Operation) -> io::Result<()> {
    print!(rt; "{ty:?} {operation:?}")?;
    for left in edges(ty) {
        for right in edges(ty) {
            if let (Some(a), Some(b)) = (Word::new(ty, left), Word::new(ty, right))
                && let Some(answer) = answer_of(operation, &a, &b)
            {
                print_answer(rt, answer)?;
            }
        }
    }
    println!(rt; "")
}

fn print_move(rt: &impl Print, ty: IntTy, operation: Move) -> io::Result<()> {
    print!(rt; "{ty:?} {operation:?}")?;
    let width = ty.width() as u128;
    for bits in edges(ty) {
        for places in [0, 1, width - 1, width, width + 3] {
            if let (Some(a), Some(n)) = (Word::new(ty, bits), Word::new(IntTy::PUsize, places))
                && let Some(answer) = moved(operation, &a, &n)
            {
                print_answer(rt, answer)?;
            }
        }
    }
    println!(rt; "")
}

/// The operations on one word: its complement, its number with the other sign, and the casts.
fn print_single(rt: &impl Print, ty: IntTy) -> io::Result<()> {
    for bits in edges(ty) {
        if let Some(a) = Word::new(ty, bits) {
            print!(rt; "{ty:?} {bits:x} not")?;
            print_answer(rt, Ok(a.not()))?;
            if ty.signed() {
                print!(rt; " neg")?;
                print_answer(rt, a.neg())?;
            }
            print!(rt; " cast")?;
            for to in KINDS {
                print_answer(rt, Ok(a.cast(to)))?;
            }
            println!(rt; "")?;
        }
    }
    Ok(())
}

/// Equality with each word, and the order where the kind is public.
fn print_order(rt: &impl Print, ty: IntTy) -> io::Result<()> {
    print!(rt; "{ty:?} order")?;
    for left in edges(ty) {
        for right in edges(ty) {
            if let (Some(a), Some(b)) = (Word::new(ty, left), Word::new(ty, right)) {
                print!(rt; " {}", a.eq(&b))?;
                if !ty.secret() {
                    print!(rt; "/{}", a.lt(&b))?;
                }
            }
        }
    }
    println!(rt; "")
}

fn main(rt: HostRuntime) -> io::Result<()> {
    for ty in KINDS {
        for operation in OPERATIONS {
            print_operation(&rt, ty, operation)?;
        }
        for operation in MOVES {
            print_move(&rt, ty, operation)?;
        }
        print_single(&rt, ty)?;
        print_order(&rt, ty)?;
    }
    Ok(())
}
