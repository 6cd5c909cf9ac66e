//! Files and sinks that never fail, with room for no more than the call can write.

ghost use Rattle.std.specs.Prelude.{◌≡◌, List, [], ◌∷◌, map, string_bytes, codes, IfOk};
ghost use Rattle.hs_cli.specs.Lines.{refused_line};

use hs_base::heap::SureHeap;
use hs_base::place::Broken;
use hs_base::shelf::SureShelf;
use hs_cli::{Status, run};
use hs_front::check::check;
use hs_parser::ParseStop;
use std::alloc::{AllocError, Global};
use std::test::Fail;

// A source in which `-` stands where no token of its kind can.
const MINUS: &[u8] = b"pub fn f(a: u32) -> u32 { a - 1 }";

// The line of that source's refusal.
const MINUS_LINE: &str = "add.rs:1:29: G8 this word is not part of HS-1\n";

// The line that tells the forms.
const USAGE: &[u8] =
    b"usage: hs check FILE | show PHASE FILE | print DIALECT NAME FILE | run FILE FUNCTION ARGS | vectors FILE VECTORS [BUDGET] | replay DIALECT MODULE VECTORS [BUDGET] | sample SEED COUNT [run]\n";

// What a call gives and leaves on the sinks.
#[derive(Drop)]
struct Left {
    status: Status,
    out: Vec<u8>,
    err: Vec<u8>,
}

// The words that ask for the module of a file.
fn asked(alloc: Global, file: &str) -> Result<Vec<String>, AllocError>
    ensures { IfOk result (λ words. map string_bytes words.items ≡ codes "print" ∷ codes "fstar" ∷ codes "Add" ∷ file.now ∷ []) }
{
    let mut words = Vec::new(alloc);
    words.push(String::from_str(alloc, "print")?)?;
    words.push(String::from_str(alloc, "fstar")?)?;
    words.push(String::from_str(alloc, "Add")?)?;
    words.push(String::from_str(alloc, file)?)?;
    Ok(words)
}

fn left_on(
    alloc: Global,
    status: Status,
    out: &SureHeap,
    err: &SureHeap,
) -> Result<Left, AllocError> {
    Ok(Left {
        status,
        out: out.taken().to_vec(alloc)?,
        err: err.taken().to_vec(alloc)?,
    })
}

// No words: the usage line has 189 bytes.
fn call_without_words(alloc: Global) -> Result<Left, AllocError> {
    let words = Vec::new(alloc);
    let mut files = SureShelf::new(alloc);
    let mut out = SureHeap::new(alloc, 0)?;
    let mut err = SureHeap::new(alloc, 189)?;
    let status = run(alloc, &words, &mut files, &mut out, &mut err);
    left_on(alloc, status, &out, &err)
}

// No files: the longer of the two lines that may be written is `none.rs: read failed`.
fn call_without_files(alloc: Global) -> Result<Left, AllocError> {
    let words = asked(alloc, "none.rs")?;
    let mut files = SureShelf::new(alloc);
    let mut out = SureHeap::new(alloc, 0)?;
    let mut err = SureHeap::new(alloc, 21)?;
    let status = run(alloc, &words, &mut files, &mut out, &mut err);
    left_on(alloc, status, &out, &err)
}

#[test]
fn the_usage_line_fits(rt: HostRuntime) -> Result<(), Fail> {
    let left = call_without_words(rt.alloc())?;
    assert_eq!(rt; left.status, Status::Usage);
    assert!(rt; left.out.is_empty());
    assert_eq!(rt; left.err.as_slice(), USAGE);
    Ok(())
}

#[test]
fn the_line_of_a_missing_file_fits(rt: HostRuntime) -> Result<(), Fail> {
    let left = call_without_files(rt.alloc())?;
    assert_eq!(rt; left.status, Status::NotThere);
    assert!(rt; left.out.is_empty());
    assert_eq!(rt; left.err.as_slice(), b"none.rs: not there\n".as_slice());
    Ok(())
}

// The line of a refusal.
fn line_of(alloc: Global, file: &str, broken: Broken) -> Result<String, AllocError>
    ensures { IfOk result (λ line. string_bytes line ≡ refused_line file.now broken) }
{
    let line = broken.at.line;
    let col = broken.at.col;
    let code = broken.rule.code();
    let text = broken.rule.text();
    format!(in alloc; "{file}:{line}:{col}: {code} {text}\n")
}

// The source is refused by the check with the line of 46 bytes, and no other line that may be written is longer.
fn call_on_minus(alloc: Global) -> Result<Left, Fail> {
    let Err(ParseStop::Broken(broken)) = check(alloc, MINUS) else {
        return Err(Fail::from("not refused"));
    };
    let line = line_of(alloc, "add.rs", broken)?;
    if line.len() != 46 {
        return Err(Fail::from("another line"));
    }
    let words = asked(alloc, "add.rs")?;
    let mut files = SureShelf::new(alloc);
    files.add("add.rs", MINUS)?;
    let mut out = SureHeap::new(alloc, 0)?;
    let mut err = SureHeap::new(alloc, 46)?;
    let status = run(alloc, &words, &mut files, &mut out, &mut err);
    Ok(left_on(alloc, status, &out, &err)?)
}

#[test]
fn the_line_of_a_refusal_fits(rt: HostRuntime) -> Result<(), Fail> {
    let left = call_on_minus(rt.alloc())?;
    assert_eq!(rt; left.status, Status::Refused);
    assert!(rt; left.out.is_empty());
    assert_eq!(rt; left.err.as_slice(), MINUS_LINE.as_bytes());
    Ok(())
}
