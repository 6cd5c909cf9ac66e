//! The program `hs`: the words of the command line, the files of the system, and its two outputs.
#![tactic(auto)]

use hs_base::disk::Disk;
use hs_base::stream::StdSink;
use hs_cli::run;
use std::alloc::Global;
use std::process::ExitCode;
use std::{env, io};

/// The status where the system's words are no text.
const NOT_TEXT: u8 = 10;

/// The status where there is no memory for the words.
const NO_MEMORY: u8 = 8;

// The words behind the program's name, or the status to end with.
fn words_of(rt: &HostRuntime, alloc: Global) -> Result<Vec<String>, u8> {
    let mut args = match env::args(rt) {
        Ok(args) => args,
        Err(error) if error.kind() == io::ErrorKind::OutOfMemory => return Err(NO_MEMORY),
        Err(_) => return Err(NOT_TEXT),
    };
    let _name = args.next();
    let mut words = Vec::new(alloc);
    for word in args {
        if words.push(word).is_err() {
            return Err(NO_MEMORY);
        }
    }
    Ok(words)
}

fn main(rt: HostRuntime) -> ExitCode {
    let alloc = rt.alloc();
    let words = match words_of(&rt, alloc) {
        Ok(words) => words,
        Err(code) => return ExitCode::from(code),
    };
    let mut out = StdSink::new(rt.stdout());
    let mut err = StdSink::new(rt.stderr());
    let mut files = Disk::new(rt, alloc);
    let status = run(alloc, &words, &mut files, &mut out, &mut err);
    ExitCode::from(status.code())
}
