//! Prints what the parsers of types, patterns and items give for the texts of a table, with the bytes of the nodes and the tokens
//! that are left, and the heights of what items hold.
#![tactic(auto)]

use hs_base::rule::Rule;
use hs_forms::{Token, tokens_of};
use hs_grammar::cursor::Tokens;
use hs_grammar::error::ParseError;
use hs_lexer::lex;
use hs_parse_items::file;
use hs_parse_types::{arm_pattern, maybe_open, parts, pattern, patterns, ty};
use hs_syntax::{
    ArmPat, Block, Ctor, Item, ItemKind, Param, Pat, Span, Stmt, Text, Ty, Variable, height,
    height_of_block,
};
use sqlite_items::Items;
use std::alloc::{AllocError, Global};
use std::{fs, io};

/// The tokens of a text, none where there are none.
fn seen(alloc: Global, text: &str) -> Result<Items<Token>, AllocError> {
    match lex(alloc, text.as_bytes()) {
        Ok(tokens) => tokens_of(alloc, text.as_bytes(), tokens.as_slice()),
        Err(_) => Ok(Items::new(alloc)),
    }
}

fn print_span(rt: &impl Print, span: Span) -> io::Result<()> {
    print!(rt; " {}..{}", span.start, span.end)
}

#[cycle(types)]
fn print_type(rt: &impl Print, ty: &Ty) -> io::Result<()> {
    match ty {
        Ty::Name(_) => print!(rt; " name")?,
        Ty::Unit(_) => print!(rt; " unit")?,
        Ty::Tuple(_, _) => print!(rt; " tuple")?,
        Ty::Applied(_, _, _) => print!(rt; " applied")?,
    }
    print_span(rt, ty.span())?;
    match ty {
        Ty::Name(_) | Ty::Unit(_) => Ok(()),
        Ty::Tuple(_, types) => print_types(rt, types),
        Ty::Applied(_, name, types) => {
            print_span(rt, *name)?;
            print_types(rt, types)
        }
    }
}

#[cycle(types)]
fn print_types(rt: &impl Print, types: &Items<Ty>) -> io::Result<()> {
    print!(rt; " (")?;
    for ty in types.as_slice() {
        print_type(rt, ty)?;
    }
    print!(rt; " )")
}

#[cycle(patterns)]
fn print_pattern(rt: &impl Print, pattern: &Pat) -> io::Result<()> {
    match pattern {
        Pat::Name(_, false, _) => print!(rt; " name")?,
        Pat::Name(_, true, _) => print!(rt; " mut")?,
        Pat::Any(_) => print!(rt; " any")?,
        Pat::Tuple(_, _) => print!(rt; " tuple")?,
        Pat::Struct(_, _, _) => print!(rt; " struct")?,
    }
    print_span(rt, pattern.span())?;
    match pattern {
        Pat::Any(_) => Ok(()),
        Pat::Name(_, _, name) => print_span(rt, *name),
        Pat::Tuple(_, patterns) => print_patterns(rt, patterns),
        Pat::Struct(_, name, patterns) => {
            print_span(rt, *name)?;
            print_patterns(rt, patterns)
        }
    }
}

#[cycle(patterns)]
fn print_patterns(rt: &impl Print, patterns: &Items<Pat>) -> io::Result<()> {
    print!(rt; " (")?;
    for pattern in patterns.as_slice() {
        print_pattern(rt, pattern)?;
    }
    print!(rt; " )")
}

fn print_arm(rt: &impl Print, pattern: &ArmPat) -> io::Result<()> {
    match pattern {
        ArmPat::Any(bytes) => {
            print!(rt; " any")?;
            print_span(rt, *bytes)
        }
        ArmPat::Ctor(bytes, name, patterns) => {
            print!(rt; " constructor")?;
            print_span(rt, *bytes)?;
            print_span(rt, *name)?;
            print_patterns(rt, patterns)
        }
        ArmPat::Member(bytes, ty, name, patterns) => {
            print!(rt; " member")?;
            print_span(rt, *bytes)?;
            print_span(rt, *ty)?;
            print_span(rt, *name)?;
            print_patterns(rt, patterns)
        }
    }
}

fn print_ctors(rt: &impl Print, ctors: &Items<Ctor>) -> io::Result<()> {
    for ctor in ctors.as_slice() {
        print!(rt; " constructor")?;
        print_span(rt, ctor.span)?;
        print_span(rt, ctor.name)?;
        print_types(rt, &ctor.parts)?;
    }
    Ok(())
}

fn print_params(rt: &impl Print, params: &Items<Param>) -> io::Result<()> {
    for param in params.as_slice() {
        print!(rt; " {:?}", param.mode)?;
        print_span(rt, param.span)?;
        print_span(rt, param.name)?;
        print_type(rt, &param.ty)?;
    }
    Ok(())
}

/// A block: its bytes, its height, and the variables of its loops.
fn print_block(rt: &impl Print, block: &Block) -> io::Result<()> {
    print!(rt; " block")?;
    print_span(rt, block.span)?;
    print!(rt; " of height {}", height_of_block(block))?;
    for stmt in block.statements.as_slice() {
        match stmt {
            Stmt::For(_, Variable::Any(span), _, _, _) => {
                print!(rt; " loop of any")?;
                print_span(rt, *span)?;
            }
            Stmt::For(_, Variable::Name(span), _, _, _) => {
                print!(rt; " loop of name")?;
                print_span(rt, *span)?;
            }
            _ => {}
        }
    }
    Ok(())
}

/// What an item declares, and behind it the name.
fn print_kind(rt: &impl Print, kind: &ItemKind) -> io::Result<()> {
    match kind {
        ItemKind::Use => print!(rt; " use"),
        ItemKind::Const(name, ty, value) => {
            print!(rt; " const")?;
            print_span(rt, *name)?;
            print_type(rt, ty)?;
            print!(rt; " value")?;
            print_span(rt, value.span())?;
            print!(rt; " of height {}", height(value))
        }
        ItemKind::Alias(name, ty) => {
            print!(rt; " type")?;
            print_span(rt, *name)?;
            print_type(rt, ty)
        }
        ItemKind::Struct(name, types) => {
            print!(rt; " struct")?;
            print_span(rt, *name)?;
            print_types(rt, types)
        }
        ItemKind::Enum(name, ctors) => {
            print!(rt; " enum")?;
            print_span(rt, *name)?;
            print_ctors(rt, ctors)
        }
        ItemKind::Fn(name, params, result, body) => {
            print!(rt; " fn")?;
            print_span(rt, *name)?;
            print_params(rt, params)?;
            if let Some(ty) = result {
                print!(rt; " gives")?;
                print_type(rt, ty)?;
            }
            print_block(rt, body)
        }
        ItemKind::Array(name, size, ty) => {
            print!(rt; " array")?;
            print_span(rt, *name)?;
            print!(rt; " of {}", size.value)?;
            print_type(rt, ty)
        }
        ItemKind::Bytes(name, size) => {
            print!(rt; " bytes")?;
            print_span(rt, *name)?;
            print!(rt; " of {}", size.value)
        }
        ItemKind::NatMod(name, canvas, bits, modulus) => {
            print!(rt; " nat_mod")?;
            print_span(rt, *name)?;
            print_span(rt, *canvas)?;
            print!(rt; " of {}", bits.value)?;
            print_span(rt, *modulus)
        }
    }
}

fn print_items(rt: &impl Print, items: &Items<Item>) -> io::Result<()> {
    for item in items.as_slice() {
        print!(rt; " item")?;
        print_span(rt, item.span)?;
        for name in item.derives.as_slice() {
            print!(rt; " derives")?;
            print_span(rt, *name)?;
        }
        print_kind(rt, &item.kind)?;
    }
    Ok(())
}

fn print_error(rt: &impl Print, error: ParseError) -> io::Result<()> {
    match error {
        ParseError::Syntax => print!(rt; " refused"),
        ParseError::TooDeep => print!(rt; " too deep"),
        ParseError::NoMemory => print!(rt; " no memory"),
    }
}

/// What the parser of this name gives, where rules nest no deeper than this.
fn print_parsed(
    rt: &impl Print,
    alloc: Global,
    (name, depth): (&str, usize),
    tokens: &mut Tokens<'_, Token>,
) -> io::Result<()> {
    match name {
        "type" => match ty(alloc, tokens, depth) {
            Ok(found) => print_type(rt, &found),
            Err(error) => print_error(rt, error),
        },
        "maybe_open" => match maybe_open(alloc, tokens, depth) {
            Ok((found, open)) => {
                print!(rt; " {open}")?;
                print_type(rt, &found)
            }
            Err(error) => print_error(rt, error),
        },
        "parts" => match parts(alloc, tokens, depth) {
            Ok((found, close)) => {
                print_types(rt, &found)?;
                print_span(rt, close)
            }
            Err(error) => print_error(rt, error),
        },
        "pattern" => match pattern(alloc, tokens, depth) {
            Ok(found) => print_pattern(rt, &found),
            Err(error) => print_error(rt, error),
        },
        "patterns" => match patterns(alloc, tokens, depth) {
            Ok((found, close)) => {
                print_patterns(rt, &found)?;
                print_span(rt, close)
            }
            Err(error) => print_error(rt, error),
        },
        "arm" => match arm_pattern(alloc, tokens, depth) {
            Ok(found) => print_arm(rt, &found),
            Err(error) => print_error(rt, error),
        },
        _ => match file(alloc, tokens, depth) {
            Ok(found) => print_items(rt, &found),
            Err(error) => print_error(rt, error),
        },
    }
}

/// Prints what a row asks: its words are the parser, how deep rules may nest, and the text.
fn print_row(rt: &impl Print, alloc: Global, row: &str) -> io::Result<()> {
    let (name, rest) = row.split_once(' ').unwrap_or((row, ""));
    let (depth, text) = rest.split_once(' ').unwrap_or((rest, ""));
    let tokens = seen(alloc, text)?;
    let mut rest = Tokens::new(tokens.as_slice());
    print_parsed(rt, alloc, (name, depth.parse().unwrap_or(0)), &mut rest)?;
    println!(rt; ", {} left", rest.left())
}

/// Prints the bytes of a span of a text, and what is told there.
fn print_place(rt: &impl Print, text: &Text, span: Span) -> io::Result<()> {
    let spelled = str::from_utf8(text.at(span)).unwrap_or("?");
    let at = text.pos(span);
    let told = text.told(Rule::N2, span);
    let code = told.rule.code();
    print!(rt; "{spelled:?} at byte {}, {}:{}", at.byte, at.line, at.col)?;
    println!(rt;
        ", {code} at byte {}, {}:{}",
        told.at.byte, told.at.line, told.at.col
    )
}

fn main(rt: HostRuntime) -> io::Result<()> {
    let alloc = rt.alloc();
    let table = fs::read_to_string(&rt, "table.txt")?;
    for row in table.lines() {
        print_row(&rt, alloc, row)?;
    }
    let text = Text::of(alloc, &fs::read(&rt, "lines.rs")?)?;
    for (start, end) in [(3, 4), (7, 90), (11, 12)] {
        print_place(&rt, &text, Span { start, end })?;
    }
    Ok(())
}
