//! Prints the rules, the places of a text's bytes, and what the lower crates answer to the questions of a table: names, scopes,
//! orders, parsers over letters, and walks that stop.
#![tactic(auto)]

ghost use Rattle.std.specs.Prelude.{◌<◌, OnOk, length, [], ◌∷◌, Some};
ghost use Rattle.hs_order.specs.Order.{IsOrder, IsLeftOut};

use hs_base::place::pos_at;
use hs_base::rule::Rule;
use hs_base::spelling::is_name;
use hs_grammar::cursor::{Lexeme, Tokens};
use hs_grammar::error::{ParseError, Refusal};
use hs_grammar::loops::{Turn, repeat, repeat_until};
use hs_grammar::whole::finish;
use hs_marks::{Halt, refuse_if};
use hs_order::Order;
use hs_scope::{Names, Scope};
use hs_syntax::Span;
use sqlite_items::Items;
use std::alloc::{AllocError, Global};
use std::{fs, io};

/// The rules in the order of their numbers.
const RULES: [Rule; 75] = [
    Rule::X1,
    Rule::X2,
    Rule::X3,
    Rule::X4,
    Rule::X5,
    Rule::X6,
    Rule::G1,
    Rule::G2,
    Rule::G3,
    Rule::G4,
    Rule::G5,
    Rule::G6,
    Rule::G7,
    Rule::G8,
    Rule::N1,
    Rule::N2,
    Rule::N3,
    Rule::N4,
    Rule::N5,
    Rule::N6,
    Rule::N7,
    Rule::N8,
    Rule::N9,
    Rule::N10,
    Rule::N11,
    Rule::N12,
    Rule::T1,
    Rule::T2,
    Rule::T3,
    Rule::T4,
    Rule::T5,
    Rule::T6,
    Rule::T7,
    Rule::T8,
    Rule::T9,
    Rule::T10,
    Rule::T11,
    Rule::T12,
    Rule::T13,
    Rule::T14,
    Rule::T15,
    Rule::T16,
    Rule::T17,
    Rule::T18,
    Rule::T19,
    Rule::T20,
    Rule::T21,
    Rule::T22,
    Rule::T23,
    Rule::T24,
    Rule::T25,
    Rule::T26,
    Rule::T27,
    Rule::T28,
    Rule::T29,
    Rule::T30,
    Rule::L1,
    Rule::L2,
    Rule::L3,
    Rule::L4,
    Rule::L5,
    Rule::L6,
    Rule::S1,
    Rule::S2,
    Rule::S3,
    Rule::S4,
    Rule::S5,
    Rule::S6,
    Rule::S7,
    Rule::S8,
    Rule::S9,
    Rule::M1,
    Rule::M2,
    Rule::M3,
    Rule::M4,
];

fn print_rules(rt: &impl Print) -> io::Result<()> {
    for rule in RULES {
        let code = rule.code();
        let text = rule.text();
        println!(rt; "{} {code} {text}", rule.number())?;
    }
    Ok(())
}

/// Prints the place of each byte of a text, of its end, and of the number behind that.
fn print_places(rt: &impl Print, text: &[u8]) -> io::Result<()> {
    for byte in 0..text.len().saturating_add(2) {
        let at = pos_at(text, byte);
        println!(rt; "{byte}: byte {}, {}:{}", at.byte, at.line, at.col)?;
    }
    Ok(())
}

/// A letter.
#[derive(Clone, Copy, Debug, PartialEq, Eq)]
struct Letter(u8);

impl Lexeme for Letter {
    type Kind = u8;

    ghost use Rattle.std.specs.Prelude.{◌==◌};

    ghost kind_of = { λ t. t.0 };

    ghost same = { λ a b. a == b };

    fn is(&self, kind: u8) -> bool {
        kind == self.0
    }
}

/// The letters of a text.
fn letters(alloc: Global, text: &str) -> Result<Vec<Letter>, AllocError> {
    let mut all = Vec::new(alloc);
    for byte in text.as_bytes() {
        all.push(Letter(*byte))?;
    }
    Ok(all)
}

/// A letter, and more of them behind pluses. The last is given.
fn last_operand(tokens: &mut Tokens<'_, Letter>) -> Result<Letter, ParseError> {
    let first = tokens.expect_any(b"ab")?;
    repeat(
        tokens,
        first,
        b"+",
        |_last, tokens|
            ensures { OnOk result (length tokens.new < length tokens.old) }
        {
            tokens.expect(b'+')?;
            tokens.expect_any(b"ab")
        },
    )
}

/// Letters with commas between, and perhaps one at the end. The last is given.
fn last_item(tokens: &mut Tokens<'_, Letter>) -> Result<Letter, ParseError> {
    let first = tokens.expect(b'a')?;
    repeat_until(
        tokens,
        first,
        b",",
        |last, tokens|
            ensures { OnOk result (length tokens.new < length tokens.old) }
        {
            tokens.expect(b',')?;
            if !tokens.is_at_any(b"ab") {
                return Ok(Turn::Last(last));
            }
            Ok(Turn::More(tokens.expect_any(b"ab")?))
        },
    )
}

fn print_parsed(rt: &impl Print, answer: Result<Letter, Refusal>) -> io::Result<()> {
    match answer {
        Ok(letter) => {
            let letter = letter.0 as char;
            println!(rt; "{letter}")
        }
        Err(Refusal::At(place)) => println!(rt; "refused at {place}"),
        Err(Refusal::TooDeep) => println!(rt; "too deep"),
        Err(Refusal::NoMemory) => println!(rt; "no memory"),
    }
}

/// What stands before the first blank, and what stands behind it; where there is none, nothing behind it.
fn word(text: &str) -> (&str, &str) {
    text.split_once(' ').unwrap_or((text, ""))
}

/// Prints what a cursor answers to a step: a word, and behind it letters.
fn print_step(rt: &impl Print, tokens: &mut Tokens<'_, Letter>, step: &str) -> io::Result<()> {
    let (what, kinds) = word(step);
    let kinds = kinds.as_bytes();
    let first = kinds.first().copied().unwrap_or(0);
    match what {
        "is_at" => print!(rt; " {}", tokens.is_at(first)),
        "is_at_any" => print!(rt; " {}", tokens.is_at_any(kinds)),
        "eat" => print!(rt; " {}", tokens.eat(first)),
        "expect" => print!(rt; " {:?}", tokens.expect(first)),
        "expect_any" => print!(rt; " {:?}", tokens.expect_any(kinds)),
        _ => print!(rt; " {}", tokens.left()),
    }
}

/// Prints what a cursor over the letters before the first blank answers to the steps behind it.
fn print_cursor(rt: &impl Print, alloc: Global, text: &str) -> io::Result<()> {
    let (text, steps) = word(text);
    let letters = letters(alloc, text)?;
    let mut tokens = Tokens::new(letters.as_slice());
    for step in steps.split(',') {
        print_step(rt, &mut tokens, step)?;
    }
    println!(rt; "")
}

/// What the definitions say of two lists of needs: the first item needs the last, and a cycle of two. Nothing runs.
fn definitions()
    ensures first_needs_last { IsOrder ((5 ∷ []) ∷ [] ∷ [] ∷ [] ∷ [] ∷ [] ∷ []) [] (1 ∷ 2 ∷ 3 ∷ 4 ∷ 5 ∷ 0 ∷ []) }
    ensures cycle { IsOrder ([] ∷ (2 ∷ []) ∷ (1 ∷ []) ∷ (0 ∷ []) ∷ []) [] (0 ∷ 3 ∷ []) }
    ensures left_out { IsLeftOut (0 ∷ 3 ∷ []) 4 (Some 1) }
{}

/// The numbers of a list with commas between; what is no number is passed over.
fn numbers(alloc: Global, text: &str) -> Result<Items<usize>, AllocError> {
    let mut all = Items::new(alloc);
    for word in text.split(',') {
        if let Ok(number) = word.parse() {
            all.push(number)?;
        }
    }
    Ok(all)
}

/// The needs of items, lists with a `;` between.
fn needs(alloc: Global, text: &str) -> Result<Vec<Items<usize>>, AllocError> {
    let mut all = Vec::new(alloc);
    if !text.is_empty() {
        for list in text.split(';') {
            all.push(numbers(alloc, list)?)?;
        }
    }
    Ok(all)
}

/// Prints the order of items by their needs, and which is left out first.
fn print_order(rt: &impl Print, alloc: Global, needs: &[Items<usize>]) -> io::Result<()> {
    let order = Order::of(alloc, needs)?;
    for item in order.listed.as_slice() {
        print!(rt; "{item} ")?;
    }
    match order.left_out {
        Some(item) => println!(rt; "without {item}"),
        None => println!(rt; "all"),
    }
}

/// Prints the order of so many items, of which each needs the two behind it, without these two and with them.
fn print_long_order(rt: &impl Print, alloc: Global, count: usize) -> io::Result<()> {
    let mut needs = Vec::new(alloc);
    for item in 0..count {
        let next = item.saturating_add(1);
        needs.push(Items::from_slice(alloc, &[next, next.saturating_add(1)])?)?;
    }
    print_order(rt, alloc, needs.as_slice())?;
    needs.push(Items::new(alloc))?;
    needs.push(Items::new(alloc))?;
    print_order(rt, alloc, needs.as_slice())
}

/// The bytes of a node.
const AT: Span = Span { start: 3, end: 5 };

/// The numbers, of which none is above 9.
fn digits(alloc: Global, numbers: &[usize]) -> Result<Vec<usize>, Halt> {
    let mut list = Vec::new(alloc);
    for number in numbers {
        refuse_if(*number > 9, Rule::X3, AT)?;
        list.push(*number)?;
    }
    Ok(list)
}

/// Prints the numbers of a list, or what halts a walk over them.
fn print_digits(rt: &impl Print, alloc: Global, text: &str) -> io::Result<()> {
    let numbers = numbers(alloc, text)?;
    match digits(alloc, numbers.as_slice()) {
        Ok(digits) => println!(rt; "{:?}", digits.as_slice()),
        Err(halt) => println!(rt; "{halt:?}"),
    }
}

fn print_number(rt: &impl Print, number: Option<usize>) -> io::Result<()> {
    match number {
        Some(number) => println!(rt; "{number}"),
        None => println!(rt; "nothing"),
    }
}

/// The bindings in scope, and a list of names.
#[derive(Drop)]
struct Known<'t> {
    scope: Scope<'t>,
    names: Names<'t>,
}

/// Prints the answer to a question about what is known, and whether it is one.
fn print_known<'t>(
    rt: &impl Print,
    known: &mut Known<'t>,
    what: &str,
    asked: &'t str,
) -> io::Result<()> {
    match what {
        "bind" => {
            let (name, number) = word(asked);
            known
                .scope
                .bind(name.as_bytes(), number.parse().unwrap_or(0))?;
            println!(rt; "{}", known.scope.len())
        }
        "find" => print_number(rt, known.scope.find(asked.as_bytes())),
        "leave" => {
            known.scope.leave(asked.parse().unwrap_or(0));
            println!(rt; "{}", known.scope.len())
        }
        "add" => println!(rt; "{}", known.names.add(asked.as_bytes())?),
        "first" => print_number(rt, known.names.find(asked.as_bytes())),
        _ => println!(rt; "{} names", known.names.len()),
    }
}

/// Prints the answer to a question: a word, and what is asked.
fn print_answer<'t>(
    rt: &impl Print,
    alloc: Global,
    known: &mut Known<'t>,
    row: &'t str,
) -> io::Result<()> {
    let (what, asked) = word(row);
    match what {
        "is_name" => println!(rt; "{}", is_name(asked.as_bytes())),
        "chain" => {
            let text = letters(alloc, asked)?;
            let mut rest = Tokens::new(text.as_slice());
            let found = last_operand(&mut rest);
            print_parsed(rt, finish(found, text.as_slice(), &rest))
        }
        "list" => {
            let text = letters(alloc, asked)?;
            let mut rest = Tokens::new(text.as_slice());
            let found = last_item(&mut rest);
            print_parsed(rt, finish(found, text.as_slice(), &rest))
        }
        "cursor" => print_cursor(rt, alloc, asked),
        "order" => print_order(rt, alloc, needs(alloc, asked)?.as_slice()),
        "digits" => print_digits(rt, alloc, asked),
        "refused" => {
            let answer = refuse_if(asked == "true", Rule::N5, AT);
            println!(rt; "{answer:?}")
        }
        _ => print_known(rt, known, what, asked),
    }
}

fn main(rt: HostRuntime) -> io::Result<()> {
    let alloc = rt.alloc();
    definitions();
    print_rules(&rt)?;
    print_places(&rt, &fs::read(&rt, "lines.txt")?)?;
    let table = fs::read_to_string(&rt, "table.txt")?;
    let mut known = Known {
        scope: Scope::new(alloc),
        names: Names::new(alloc),
    };
    for row in table.lines() {
        print_answer(&rt, alloc, &mut known, row)?;
    }
    print_long_order(&rt, alloc, 3_000)
}
