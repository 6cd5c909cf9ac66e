//! Prints what operations give for the arguments of each line of a table, and which values are of which types.
#![tactic(auto)]

use hs_base::name::Name;
use hs_ops::{OPS, OpStop, OpTable, standard};
use hs_values::{
    Ctors, EvalFault, Header, HeaderList, Headers, OpId, Sort, TypeDef, TypeKind, TypeTable, Types,
    ValType, Value, Values,
};
use hs_words::{IntTy, Word};
use sqlite_items::{Boxed, Items};
use std::alloc::{AllocError, Global};
use std::{fs, io};

fn kind_named(name: &str) -> Option<IntTy> {
    match name {
        "PU8" => Some(IntTy::PU8),
        "PU16" => Some(IntTy::PU16),
        "PU32" => Some(IntTy::PU32),
        "PU128" => Some(IntTy::PU128),
        "PUsize" => Some(IntTy::PUsize),
        "PI8" => Some(IntTy::PI8),
        "PI16" => Some(IntTy::PI16),
        "PI128" => Some(IntTy::PI128),
        "SU8" => Some(IntTy::SU8),
        "SU16" => Some(IntTy::SU16),
        "SU32" => Some(IntTy::SU32),
        _ => None,
    }
}

/// The integer of this kind with these bits in hexadecimal, or the unit where the kind has none.
fn integer(kind: Option<IntTy>, digits: &str) -> Value {
    if let Some(kind) = kind
        && let Ok(bits) = u128::from_str_radix(digits, 16)
        && let Some(word) = Word::new(kind, bits)
    {
        return Value::Int(word);
    }
    Value::Unit
}

/// The integers that are written as `KIND/BITS,BITS`, none where nothing is written.
fn integers(alloc: Global, text: &str) -> Result<Values, AllocError> {
    let mut values: Values = Items::new(alloc);
    if let Some((kind, items)) = text.split_once('/') {
        for digits in items.split(',') {
            values.push(integer(kind_named(kind), digits))?;
        }
    }
    Ok(values)
}

/// The list of one value.
fn alone(alloc: Global, value: Value) -> Result<Values, AllocError> {
    let mut values: Values = Items::new(alloc);
    values.push(value)?;
    Ok(values)
}

/// The value that a word writes: a word for its form, and behind a `:` its integers.
fn value_of(alloc: Global, word: &str) -> Result<Value, AllocError> {
    let (form, text) = word.split_once(':').unwrap_or((word, ""));
    let value = match form {
        "false" => Value::Bool(false),
        "true" => Value::Bool(true),
        "seq" => Value::Seq(integers(alloc, text)?),
        "rows" => Value::Seq(alone(alloc, Value::Seq(integers(alloc, text)?))?),
        "tup" => Value::Tuple(integers(alloc, text)?),
        "none" => Value::Ctor(Sort::Option, 0, integers(alloc, text)?),
        "some" => Value::Ctor(Sort::Option, 1, integers(alloc, text)?),
        "ok" => Value::Ctor(Sort::Result, 0, integers(alloc, text)?),
        "err" => Value::Ctor(Sort::Result, 1, integers(alloc, text)?),
        "own" => Value::Ctor(Sort::Named(0), 1, integers(alloc, text)?),
        "flag" => Value::Ctor(Sort::Named(1), 0, alone(alloc, Value::Bool(true))?),
        _ => integer(kind_named(form), text),
    };
    Ok(value)
}

fn values_of(alloc: Global, words: &str) -> Result<Values, AllocError> {
    let mut values: Values = Items::new(alloc);
    if !words.is_empty() {
        for word in words.split(' ') {
            values.push(value_of(alloc, word)?)?;
        }
    }
    Ok(values)
}

#[cycle(print)]
fn print_value(rt: &impl Print, value: &Value) -> io::Result<()> {
    match value {
        Value::Unit => print!(rt; "()"),
        Value::Bool(holds) => print!(rt; "{holds}"),
        Value::Int(word) => print!(rt; "{:?}:{:x}", word.ty(), word.bits()),
        Value::Seq(items) => print_values(rt, "[", items.as_slice(), "]"),
        Value::Tuple(parts) => print_values(rt, "(", parts.as_slice(), ")"),
        Value::Ctor(sort, number, parts) => {
            print!(rt; "{sort:?} {number}")?;
            print_values(rt, "(", parts.as_slice(), ")")
        }
    }
}

#[cycle(print)]
fn print_values(rt: &impl Print, open: &str, values: &[Value], close: &str) -> io::Result<()> {
    print!(rt; "{open}")?;
    let mut is_first = true;
    for value in values {
        if !is_first {
            print!(rt; " ")?;
        }
        print_value(rt, value)?;
        is_first = false;
    }
    print!(rt; "{close}")
}

fn print_answer(rt: &impl Print, answer: Result<Value, OpStop>) -> io::Result<()> {
    match answer {
        Ok(value) => {
            print_value(rt, &value)?;
            println!(rt; "")
        }
        Err(OpStop::Kind) => println!(rt; "other kinds"),
        Err(OpStop::Panic(panic)) => println!(rt; "panic {panic:?}"),
        Err(OpStop::NoMemory) => println!(rt; "no memory"),
    }
}

/// Prints what the operation with this name gives.
fn print_applied(
    rt: &impl Print,
    alloc: Global,
    table: &OpTable<OPS>,
    (name, words): (&str, &str),
) -> io::Result<()> {
    match table.find(name.as_bytes()) {
        Some(op) => {
            let args = values_of(alloc, words)?;
            print_answer(rt, table.apply(alloc, op, args))
        }
        None => println!(rt; "no operation"),
    }
}

/// An array of two bytes, and a struct with a truth value.
fn types(alloc: Global) -> Result<TypeTable, AllocError> {
    let mut parts: Types = Items::new(alloc);
    parts.push(ValType::Bool)?;
    let mut ctors: Ctors = Items::new(alloc);
    ctors.push((Name::of(alloc, "Flag")?, parts))?;
    let mut table: TypeTable = Items::new(alloc);
    table.push(TypeDef {
        name: Name::of(alloc, "Pair")?,
        copies: false,
        kind: TypeKind::Array(2, ValType::Int(IntTy::PU8)),
    })?;
    table.push(TypeDef {
        name: Name::of(alloc, "Flag")?,
        copies: false,
        kind: TypeKind::Ctors(ctors),
    })?;
    Ok(table)
}

/// These types, and one function.
fn headers(alloc: Global) -> Result<Headers, AllocError> {
    let mut functions: HeaderList = Items::new(alloc);
    functions.push(Header {
        name: Name::of(alloc, "draw")?,
        params: Items::new(alloc),
        result: ValType::Unit,
    })?;
    let table = types(alloc)?;
    Ok(Headers { table, functions })
}

/// Prints what lists of headers hold, and whether faults and numbers are told apart.
fn print_headers(rt: &impl Print, alloc: Global) -> io::Result<()> {
    let headers = headers(alloc)?;
    let first = headers.functions.get(0).is_some();
    let second = headers.functions.get(1).is_some();
    let count = headers.table.len();
    println!(rt; "{count} types; a first function: {first}, a second: {second}")?;
    let faults = EvalFault::NoFunction != EvalFault::BadArgs;
    let numbers = OpId(1) != OpId(2);
    println!(rt; "faults apart: {faults}, numbers apart: {numbers}")
}

/// The type that a word writes: `bool`, a kind, or the number of a type with a name.
fn type_of(word: &str) -> ValType {
    match kind_named(word) {
        Some(kind) => ValType::Int(kind),
        None if word == "bool" => ValType::Bool,
        None => ValType::Named(word.parse().unwrap_or(0)),
    }
}

/// Prints whether a value is of a type; the words are the value and the type. Behind it, whether copies of an option of the type
/// and of the value are the same.
fn print_fits(rt: &impl Print, alloc: Global, words: &str) -> io::Result<()> {
    let (word, name) = words.split_once(' ').unwrap_or((words, ""));
    let value = value_of(alloc, word)?;
    let fits = value.fits(&type_of(name), &types(alloc)?);
    let option = ValType::Option(Boxed::new(alloc, type_of(name))?);
    let option_copied = option.copy(alloc)?.same(&option);
    let value_copied = value.copy(alloc)?.same(&value);
    println!(rt; "{fits}, copied {option_copied} {value_copied}")
}

fn print_row(rt: &impl Print, alloc: Global, table: &OpTable<OPS>, row: &str) -> io::Result<()> {
    let (name, words) = row.split_once(' ').unwrap_or((row, ""));
    match name {
        "fits" => print_fits(rt, alloc, words),
        _ => print_applied(rt, alloc, table, (name, words)),
    }
}

fn main(rt: HostRuntime) -> io::Result<()> {
    let alloc = rt.alloc();
    let table = standard(alloc)?;
    println!(rt; "prefix of {} bytes", table.prefix().len())?;
    print_headers(&rt, alloc)?;
    let rows = fs::read_to_string(&rt, "table.txt")?;
    for row in rows.lines() {
        print_row(&rt, alloc, &table, row)?;
    }
    Ok(())
}
