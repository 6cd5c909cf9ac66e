//! Prints what is asked of the type that the first item of each source of a table names: the operations that its methods and paths
//! are, which numbers it has, and what the rules ask of it.
#![tactic(auto)]

ghost use Rattle.std.specs.Prelude.{IfOk};
ghost use Rattle.hs_typing.specs.Types.{FactsAgree};

use hs_base::place::Stop;
use hs_items::{Declaration, Decls, items};
use hs_lexer::lex;
use hs_ops::{is_known, name_of};
use hs_parser::{ParseStop, parse};
use hs_resolver::resolve;
use hs_syntax::BinaryOp;
use hs_typing::ground::Ground;
use hs_typing::kinds::Kinds;
use hs_typing::locals::{Entry, Locals};
use hs_typing::numbers::literal;
use hs_typing::operations::{Ask, Asks, Before, Called};
use hs_typing::operators::beside;
use hs_typing::shared::SharedType;
use hs_typing::sorts::Sort;
use hs_typing::table::{Table, secrets_of};
use hs_typing::types::{kind_of, parts_of};
use hs_typing::wishes::{Got, Wish};
use hs_values::ValType;
use hs_words::IntTy;
use std::alloc::Global;
use std::{fs, io};

fn kind_name(kind: IntTy) -> &'static str {
    match kind {
        IntTy::PU8 => "u8",
        IntTy::PU16 => "u16",
        IntTy::PU32 => "u32",
        IntTy::PU64 => "u64",
        IntTy::PU128 => "u128",
        IntTy::PUsize => "usize",
        IntTy::PI8 => "i8",
        IntTy::PI16 => "i16",
        IntTy::PI32 => "i32",
        IntTy::PI64 => "i64",
        IntTy::PI128 => "i128",
        IntTy::SU8 => "U8",
        IntTy::SU16 => "U16",
        IntTy::SU32 => "U32",
        IntTy::SU64 => "U64",
        IntTy::SU128 => "U128",
    }
}

#[cycle(print)]
fn print_type(rt: &impl Print, ty: &ValType) -> io::Result<()> {
    match ty {
        ValType::Unit => print!(rt; "()"),
        ValType::Bool => print!(rt; "bool"),
        ValType::Int(kind) => {
            let name = kind_name(*kind);
            print!(rt; "{name}")
        }
        ValType::Seq(item) => {
            print!(rt; "Seq<")?;
            print_type(rt, item.get())?;
            print!(rt; ">")
        }
        ValType::Named(number) => print!(rt; "#{number}"),
        ValType::Tuple(parts) => print_types(rt, parts.as_slice()),
        ValType::Option(item) => {
            print!(rt; "Option<")?;
            print_type(rt, item.get())?;
            print!(rt; ">")
        }
        ValType::Result(good, bad) => {
            print!(rt; "Result<")?;
            print_type(rt, good.get())?;
            print!(rt; ", ")?;
            print_type(rt, bad.get())?;
            print!(rt; ">")
        }
    }
}

#[cycle(print)]
fn print_types(rt: &impl Print, types: &[ValType]) -> io::Result<()> {
    print!(rt; "(")?;
    let mut is_first = true;
    for ty in types {
        if !is_first {
            print!(rt; ", ")?;
        }
        print_type(rt, ty)?;
        is_first = false;
    }
    print!(rt; ")")
}

fn print_bytes(rt: &impl Print, bytes: &[u8]) -> io::Result<()> {
    for byte in bytes {
        let letter = *byte as char;
        print!(rt; "{letter}")?;
    }
    Ok(())
}

/// What a place asks: `T`, or `[T]` for a sequence or an array of items of this type.
fn print_wish(rt: &impl Print, wish: Wish<'_>) -> io::Result<()> {
    match wish {
        Wish::Free => print!(rt; "any"),
        Wish::Hint(ty) => {
            print!(rt; "hint ")?;
            print_type(rt, ty)
        }
        Wish::Same(ty) => {
            print!(rt; "same ")?;
            print_type(rt, ty)
        }
        Wish::Wants(ty) => print_type(rt, ty),
        Wish::Rows(item) => {
            print!(rt; "[")?;
            print_type(rt, item)?;
            print!(rt; "]")
        }
    }
}

/// What an argument is asked, behind a `&` where it is only read.
fn print_ask(rt: &impl Print, ask: Ask<'_>) -> io::Result<()> {
    match ask {
        Ask::Takes(wish) => print_wish(rt, wish),
        Ask::Reads(wish) => {
            print!(rt; "&")?;
            print_wish(rt, wish)
        }
        Ask::Changes(ty) => {
            print!(rt; "&mut ")?;
            print_type(rt, ty)
        }
        Ask::Lists(count, ty) => {
            print!(rt; "list of {count} ")?;
            print_type(rt, ty)
        }
        Ask::Spare(count) => print!(rt; "list of {count}"),
    }
}

fn print_asks(rt: &impl Print, asks: Asks<'_>) -> io::Result<()> {
    print!(rt; "(")?;
    for number in 0..asks.count() {
        if number > 0 {
            print!(rt; ", ")?;
        }
        if let Some(ask) = asks.get(number) {
            print_ask(rt, ask)?;
        }
    }
    print!(rt; ")")
}

/// The operands before the arguments.
fn print_before(rt: &impl Print, before: Before<'_>) -> io::Result<()> {
    match before {
        Before::Nothing => Ok(()),
        Before::Zero(ty) => {
            print!(rt; " from the zero of ")?;
            print_type(rt, ty)
        }
        Before::Zeros(ty, count) => {
            print!(rt; " from the zero of ")?;
            print_type(rt, ty)?;
            print!(rt; ", {count}")
        }
        Before::Length(count) => print!(rt; " from {count}"),
    }
}

/// An operation: its name, what its arguments are asked, what it gives, and the operands before its arguments.
fn print_called(rt: &impl Print, alloc: Global, called: Option<Called<'_>>) -> io::Result<()> {
    match called {
        Some(called) => {
            if !is_known(called.operation) {
                return println!(rt; "an operation that there is not");
            }
            let name = name_of(alloc, called.operation)?;
            print_bytes(rt, name.bytes())?;
            print_asks(rt, called.asks)?;
            print!(rt; " -> ")?;
            print_type(rt, called.gives.get())?;
            print_before(rt, called.before)?;
            if !called.has_zero {
                print!(rt; ", which there is not")?;
            }
            println!(rt; "")
        }
        None => println!(rt; "no operation"),
    }
}

/// What the rules ask of a type, and whether a sequence of its values is of a type that is too great.
fn print_facts(rt: &impl Print, ground: &Ground<'_>, ty: &ValType) -> io::Result<()> {
    let table = &ground.table;
    let moves = if table.is_copied(ty) {
        "copied"
    } else {
        "moved"
    };
    let zero = if table.has_zero(ty) {
        "a zero"
    } else {
        "no zero"
    };
    let secret = if table.has_secret(ty) {
        "secret"
    } else {
        "public"
    };
    print!(rt; "{moves}, {zero}, {secret}")?;
    let row = ground.seq_of(ty.copy(ground.alloc)?)?;
    if table.is_too_great(row.get()) {
        print!(rt; ", its sequence is too great")?;
    }
    println!(rt; "")
}

/// The number that a type has with this value.
fn print_literal(rt: &impl Print, ty: &ValType, word: &str) -> io::Result<()> {
    let digits = word.strip_prefix("-").unwrap_or(word);
    match kind_of(ty) {
        Some(kind) => match literal(kind, word.starts_with("-"), digits.parse().unwrap_or(0)) {
            Some(number) => println!(rt; "bits {}", number.bits()),
            None => println!(rt; "does not fit"),
        },
        None => println!(rt; "no kind"),
    }
}

/// The conversion between the kinds of a pair.
fn print_conversion(rt: &impl Print, ground: &Ground<'_>, ty: &ValType) -> io::Result<()> {
    if let Some(parts) = parts_of(ty)
        && let Some(from) = parts.get(0)
        && let Some(to) = parts.get(1)
        && let Some(from) = kind_of(from)
        && let Some(to) = kind_of(to)
    {
        let called = ground.convert(to, from)?;
        return print_called(rt, ground.alloc, Some(called));
    }
    println!(rt; "no kinds")
}

/// Prints what is asked of a type.
fn print_answer(rt: &impl Print, ground: &Ground<'_>, ty: &ValType, asked: &str) -> io::Result<()> {
    let own = ground.copied(ty)?;
    if let Some(name) = asked.strip_prefix("::") {
        let called = ground.path_operation(&own, name.as_bytes())?;
        return print_called(rt, ground.alloc, called);
    }
    if let Some(name) = asked.strip_prefix(".") {
        let called = ground.method(&own, name.as_bytes())?;
        return print_called(rt, ground.alloc, called);
    }
    match asked {
        "facts" => print_facts(rt, ground, ty),
        "convert" => print_conversion(rt, ground, ty),
        "classify" => match kind_of(ty) {
            Some(kind) => {
                let called = ground.classify(kind)?;
                print_called(rt, ground.alloc, Some(called))
            }
            None => println!(rt; "no kind"),
        },
        _ => print_literal(rt, ty, asked),
    }
}

/// What the items of a text declare.
fn declared(alloc: Global, text: &[u8]) -> Result<Decls, Stop>
    ensures { IfOk result (λ decls. FactsAgree decls.table decls.facts) }
{
    let tokens = lex(alloc, text)?;
    match parse(alloc, &tokens, text) {
        Ok(file) => {
            let names = resolve(alloc, &file)?;
            items(alloc, &file, &names)
        }
        Err(ParseStop::Broken(broken)) => Err(Stop::Broken(broken)),
        Err(ParseStop::TooDeep | ParseStop::NoMemory) => Err(Stop::NoMemory),
    }
}

/// What is known of types with this table.
fn ground_of<'a>(alloc: Global, kinds: &'a Kinds, table: Table<'a>) -> Ground<'a> {
    Ground {
        alloc,
        kinds,
        table,
    }
}

/// Prints what is asked of the type that the first item of a text names.
fn print_asked(
    rt: &impl Print,
    alloc: Global,
    kinds: &Kinds,
    (asked, text): (&str, &str),
) -> io::Result<()> {
    match declared(alloc, text.as_bytes()) {
        Ok(decls) => {
            let types = decls.table.as_slice();
            let secrets = secrets_of(alloc, types)?;
            let table = Table {
                types,
                facts: decls.facts.as_slice(),
                secrets: secrets.as_slice(),
            };
            let ground = ground_of(alloc, kinds, table);
            match decls.items.get(0) {
                Some(Declaration::Named(ty)) => print_answer(rt, &ground, ty, asked),
                _ => println!(rt; "no type"),
            }
        }
        Err(_) => println!(rt; "no declarations"),
    }
}

/// Prints what is asked of the branches behind one of this type, and of a bare number added to such a value.
fn print_wishes(rt: &impl Print, ty: SharedType) -> io::Result<()> {
    let got = Got::Is(ty);
    let first = got.share()?;
    let wish = Wish::Free.after_first(&first)?;
    print_wish(rt, wish)?;
    print!(rt; ", then ")?;
    print_wish(rt, wish.hint())?;
    print!(rt; ", beside ")?;
    print_wish(rt, beside(BinaryOp::Add, &got)?)?;
    println!(rt; "")
}

/// The local of this number.
fn print_local(rt: &impl Print, locals: &Locals, number: usize) -> io::Result<()> {
    match locals.find(number) {
        Some(entry) => {
            let sort = entry.sort;
            print!(rt; "{sort:?} ")?;
            print_type(rt, entry.ty.get())?;
            println!(rt; "")
        }
        None => println!(rt; "not known"),
    }
}

/// Prints which locals are known in a block, and behind it.
fn print_locals(rt: &impl Print, alloc: Global, ground: &Ground<'_>) -> io::Result<()> {
    let mut locals = Locals::new(alloc);
    let truth = ground.truth()?;
    locals.bind(Entry {
        number: 0,
        ty: truth.share()?,
        sort: Sort::Fixed,
    })?;
    let outer = locals.len();
    locals.bind(Entry {
        number: 1,
        ty: ground.unit()?,
        sort: Sort::Turn,
    })?;
    print_local(rt, &locals, 0)?;
    print_local(rt, &locals, 1)?;
    locals.leave(outer);
    print_local(rt, &locals, 0)?;
    print_local(rt, &locals, 1)?;
    let kept = truth.kept()?;
    print_type(rt, kept.get())?;
    println!(rt; ", {} in all", locals.into_typed().len())
}

fn main(rt: HostRuntime) -> io::Result<()> {
    let alloc = rt.alloc();
    let kinds = Kinds::new(alloc)?;
    let table = Table {
        types: &[],
        facts: &[],
        secrets: &[],
    };
    let ground = ground_of(alloc, &kinds, table);
    print_wishes(&rt, ground.int(IntTy::PU8)?)?;
    print_wishes(&rt, ground.chunk_of(kinds.truth())?)?;
    print_wishes(&rt, ground.seq_of(ValType::Bool)?)?;
    print_locals(&rt, alloc, &ground)?;
    let rows = fs::read_to_string(&rt, "table.txt")?;
    for row in rows.lines() {
        print_asked(&rt, alloc, &kinds, row.split_once(' ').unwrap_or((row, "")))?;
    }
    Ok(())
}
