//! Prints what the items of each line of a table of sources declare, or what is told of them.
#![tactic(auto)]

use hs_base::place::Stop;
use hs_items::{Declaration, Decls, Function, Passing, items};
use hs_lexer::lex;
use hs_parser::{ParseStop, parse};
use hs_resolver::resolve;
use hs_values::{TypeDef, TypeKind, ValType};
use hs_words::IntTy;
use std::alloc::Global;
use std::{fs, io};

/// What the items of a text declare.
fn decls(alloc: Global, text: &[u8]) -> Result<Decls, Stop> {
    let tokens = lex(alloc, text)?;
    match parse(alloc, &tokens, text) {
        Ok(file) => {
            let names = resolve(alloc, &file)?;
            items(alloc, &file, &names)
        }
        Err(ParseStop::Broken(broken)) => Err(Stop::Broken(broken)),
        Err(ParseStop::TooDeep | ParseStop::NoMemory) => Err(Stop::NoMemory),
    }
}

fn kind_name(kind: IntTy) -> &'static str {
    match kind {
        IntTy::PU8 => "u8",
        IntTy::PU16 => "u16",
        IntTy::PU32 => "u32",
        IntTy::PU64 => "u64",
        IntTy::PU128 => "u128",
        IntTy::PUsize => "usize",
        IntTy::PI8 => "i8",
        IntTy::PI16 => "i16",
        IntTy::PI32 => "i32",
        IntTy::PI64 => "i64",
        IntTy::PI128 => "i128",
        IntTy::SU8 => "U8",
        IntTy::SU16 => "U16",
        IntTy::SU32 => "U32",
        IntTy::SU64 => "U64",
        IntTy::SU128 => "U128",
    }
}

#[cycle(print)]
fn print_type(rt: &impl Print, ty: &ValType) -> io::Result<()> {
    match ty {
        ValType::Unit => print!(rt; "()"),
        ValType::Bool => print!(rt; "bool"),
        ValType::Int(kind) => {
            let name = kind_name(*kind);
            print!(rt; "{name}")
        }
        ValType::Seq(item) => {
            print!(rt; "Seq<")?;
            print_type(rt, item.get())?;
            print!(rt; ">")
        }
        ValType::Named(number) => print!(rt; "#{number}"),
        ValType::Tuple(parts) => print_types(rt, parts.as_slice()),
        ValType::Option(item) => {
            print!(rt; "Option<")?;
            print_type(rt, item.get())?;
            print!(rt; ">")
        }
        ValType::Result(good, bad) => {
            print!(rt; "Result<")?;
            print_type(rt, good.get())?;
            print!(rt; ",")?;
            print_type(rt, bad.get())?;
            print!(rt; ">")
        }
    }
}

#[cycle(print)]
fn print_types(rt: &impl Print, types: &[ValType]) -> io::Result<()> {
    print!(rt; "(")?;
    let mut is_first = true;
    for ty in types {
        if !is_first {
            print!(rt; ",")?;
        }
        print_type(rt, ty)?;
        is_first = false;
    }
    print!(rt; ")")
}

fn print_bytes(rt: &impl Print, bytes: &[u8]) -> io::Result<()> {
    for byte in bytes {
        let letter = *byte as char;
        print!(rt; "{letter}")?;
    }
    Ok(())
}

/// An entry of the table: `A=[T;n]`, `S=S(T,U)` or `E=A|B(T)`, behind a `+` where its values are copied.
fn print_entry(rt: &impl Print, entry: &TypeDef) -> io::Result<()> {
    if entry.copies {
        print!(rt; "+")?;
    }
    print_bytes(rt, entry.name.bytes())?;
    print!(rt; "=")?;
    match &entry.kind {
        TypeKind::Array(length, item) => {
            print!(rt; "[")?;
            print_type(rt, item)?;
            print!(rt; ";{length}] ")
        }
        TypeKind::Ctors(ctors) => {
            let mut is_first = true;
            for (name, parts) in ctors.as_slice() {
                if !is_first {
                    print!(rt; "|")?;
                }
                print_bytes(rt, name.bytes())?;
                if !parts.is_empty() {
                    print_types(rt, parts.as_slice())?;
                }
                is_first = false;
            }
            print!(rt; " ")
        }
    }
}

fn passing_name(mode: Passing) -> &'static str {
    match mode {
        Passing::Value => "val",
        Passing::Shared => "ref",
        Passing::Mutable => "mut",
    }
}

/// A function: `f(val T,ref U)->V`, and behind a `:` its own result, where parameters are mutable.
fn print_function(rt: &impl Print, function: &Function) -> io::Result<()> {
    print_bytes(rt, function.header.name.bytes())?;
    print!(rt; "(")?;
    let mut is_first = true;
    let mut is_own = true;
    for (mode, ty) in function
        .modes
        .as_slice()
        .iter()
        .zip(function.header.params.as_slice().iter())
    {
        if !is_first {
            print!(rt; ",")?;
        }
        let name = passing_name(*mode);
        print!(rt; "{name} ")?;
        print_type(rt, ty)?;
        is_first = false;
        is_own = is_own && *mode != Passing::Mutable;
    }
    print!(rt; ")->")?;
    print_type(rt, &function.header.result)?;
    if !is_own {
        print!(rt; ":")?;
        print_type(rt, &function.result)?;
    }
    Ok(())
}

fn print_declaration(rt: &impl Print, declaration: &Declaration) -> io::Result<()> {
    match declaration {
        Declaration::Nothing => print!(rt; " -"),
        Declaration::Named(ty) => {
            print!(rt; " ")?;
            print_type(rt, ty)
        }
        Declaration::Constant(ty) => {
            print!(rt; " const ")?;
            print_type(rt, ty)
        }
        Declaration::Function(function) => {
            print!(rt; " ")?;
            print_function(rt, function)
        }
    }
}

fn print_told(rt: &impl Print, alloc: Global, text: &[u8]) -> io::Result<()> {
    match decls(alloc, text) {
        Ok(decls) => {
            for entry in decls.table.as_slice() {
                print_entry(rt, entry)?;
            }
            print!(rt; "//")?;
            for declaration in decls.items.as_slice() {
                print_declaration(rt, declaration)?;
            }
            println!(rt; "")
        }
        Err(Stop::Broken(broken)) => {
            let code = broken.rule.code();
            println!(rt; "{code} {}:{}", broken.at.line, broken.at.col)
        }
        Err(Stop::NoMemory) => println!(rt; "no memory"),
    }
}

fn main(rt: HostRuntime) -> io::Result<()> {
    let alloc = rt.alloc();
    let table = fs::read_to_string(&rt, "table.txt")?;
    for line in table.lines() {
        print_told(&rt, alloc, line.as_bytes())?;
    }
    Ok(())
}
