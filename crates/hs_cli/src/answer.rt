//! What is to be written, made before writing begins.

ghost use Rattle.std.specs.Prelude.{◌≡◌, ℕ, ◌≤◌, List, [], map, string_bytes, length, true, IfOk, IsNone};
ghost use Rattle.hs_base.specs.Causes.{Rose};
ghost use Rattle.hs_first_tree.specs.Of.{program_of};
ghost use Rattle.hs_first_tree.specs.Features.{src};
ghost use Rattle.hs_first_tree.specs.Sound.{Sound};
ghost use Rattle.hs_first_em.specs.Of.{module_of};
ghost use Rattle.hs_first_em.specs.Spelled.{is_module_name};
ghost use Rattle.hs_fstar.specs.Layout.{layout};
ghost use Rattle.hs_cli.specs.Command.{AsksPrint, Named, command_of};
ghost use Rattle.hs_cli.specs.Asked.{asked_by};
ghost use Rattle.hs_cli.specs.Lines.{usage_line, not_there_line, too_large_line, read_failed_line, refused_line};
ghost use Rattle.hs_cli.specs.Output.{Prints, OutputAt, OutputFrom, CarriedOut, StoppedBy, says};
ghost use Rattle.hs_cli.specs.Written.{written_of};

use crate::command::{Command, Dialect, read_command};
use crate::status::Status;
use hs_base::outside::{FetchFault, Files};
use hs_base::place::Broken;
use hs_first_em::module::Module;
use hs_first_tree::features::Src;
use hs_first_tree::program::Program;
use hs_front::check::check;
use hs_fstar::law::{layouts_are_read, texts_are_read_once};
use hs_fstar::print::print;
use hs_parser::ParseStop;
use hs_pipeline::emit;
use std::alloc::{AllocError, Global};

/// The greatest length of a source, in bytes.
const SOURCE_BYTES: u32 = 262_144;

/// A status, and the texts for the two sinks.
#[derive(Drop)]
pub(crate) struct Answer {
    pub(crate) status: Status,
    pub(crate) out: Vec<u8>,
    pub(crate) err: Vec<u8>,
}

// A line on `err`, and nothing on `out`.
fn tell(alloc: Global, status: Status, line: String) -> Answer
    ensures { written_of result ≡ says status [] (string_bytes line) }
{
    Answer {
        status,
        out: Vec::new(alloc),
        err: line.into_bytes(),
    }
}

fn usage(alloc: Global) -> Result<Answer, AllocError>
    ensures { IfOk result (λ answer. written_of answer ≡ says Status.Usage [] usage_line) }
{
    let line = String::from_str(
        alloc,
        "usage: hs check FILE | show PHASE FILE | print DIALECT NAME FILE | run FILE FUNCTION ARGS | vectors FILE VECTORS [BUDGET] | replay DIALECT MODULE VECTORS [BUDGET] | sample SEED COUNT [run]\n",
    )?;
    Ok(tell(alloc, Status::Usage, line))
}

fn not_there(alloc: Global, file: &str) -> Result<Answer, AllocError>
    ensures { IfOk result (λ answer. written_of answer ≡ says Status.NotThere [] (not_there_line file.now)) }
{
    let line = format!(in alloc; "{file}: not there\n")?;
    Ok(tell(alloc, Status::NotThere, line))
}

fn too_large(alloc: Global, file: &str) -> Result<Answer, AllocError>
    ensures { IfOk result (λ answer. written_of answer ≡ says Status.TooLarge [] (too_large_line file.now)) }
{
    let line = format!(in alloc; "{file}: longer than 262144 bytes\n")?;
    Ok(tell(alloc, Status::TooLarge, line))
}

fn read_failed(alloc: Global, file: &str) -> Result<Answer, AllocError>
    ensures { IfOk result (λ answer. written_of answer ≡ says Status.ReadFault [] (read_failed_line file.now)) }
{
    let line = format!(in alloc; "{file}: read failed\n")?;
    Ok(tell(alloc, Status::ReadFault, line))
}

fn refused(alloc: Global, file: &str, broken: Broken) -> Result<Answer, AllocError>
    ensures { IfOk result (λ answer. written_of answer ≡ says Status.Refused [] (refused_line file.now broken)) }
{
    let line = broken.at.line;
    let col = broken.at.col;
    let code = broken.rule.code();
    let text = broken.rule.text();
    let line = format!(in alloc; "{file}:{line}:{col}: {code} {text}\n")?;
    Ok(tell(alloc, Status::Refused, line))
}

// The line of what stopped the check.
fn stopped(alloc: Global, file: &str, stop: ParseStop) -> Result<Answer, AllocError>
    ensures { IfOk result (λ answer. StoppedBy stop file.now (written_of answer)) }
{
    match stop {
        ParseStop::Broken(broken) => refused(alloc, file, broken),
        ParseStop::TooDeep | ParseStop::NoMemory => Err(AllocError),
    }
}

// The text of a module, in a dialect.
fn text_of(alloc: Global, dialect: Dialect, made: &Module) -> Result<Vec<u8>, AllocError>
    ensures { IfOk result (λ text. text.items ≡ layout (module_of made.now)) }
{
    match dialect {
        Dialect::FStar => print(alloc, made),
    }
}

// The module of a program, as text.
fn print_program(
    alloc: Global,
    dialect: Dialect,
    module_name: &str,
    program: &Program<Src>,
) -> Result<Answer, AllocError>
    requires named { is_module_name module_name.now ≡ true }
    requires sound { Sound src (program_of program.now) }
    ensures { IfOk result (λ answer. (answer.status ≡ Status.Done) × Prints module_name.now (program_of program.now) answer.out.items × (answer.err.items ≡ [])) }
{
    let made = emit(alloc, program, module_name)?;
    layouts_are_read();
    texts_are_read_once();
    let out = text_of(alloc, dialect, &made)?;
    Ok(Answer {
        status: Status::Done,
        out,
        err: Vec::new(alloc),
    })
}

// The module of the source's program, or the rule that it breaks.
fn print_source(
    alloc: Global,
    dialect: Dialect,
    module_name: &str,
    file: &str,
    source: &[u8],
) -> Result<Answer, AllocError>
    requires { is_module_name module_name.now ≡ true }
    ensures { IfOk result (λ answer. CarriedOut (record { dialect = dialect; module_name = module_name.now; file = file.now }) source.now (written_of answer)) }
{
    match check(alloc, source) {
        Ok(program) => print_program(alloc, dialect, module_name, &program),
        Err(stop) => stopped(alloc, file, stop),
    }
}

// The module of the file's program, or what stands in its way.
fn print_file<F: Files>(
    alloc: Global,
    dialect: Dialect,
    module_name: &str,
    file: &str,
    files: &mut F,
) -> Result<Answer, AllocError>
    requires { is_module_name module_name.now ≡ true }
    ensures output { IfOk result (λ answer. OutputAt (AsksPrint (record { dialect = dialect; module_name = module_name.now; file = file.now })) (F.told files.old) (written_of answer)) }
    ensures read { IfOk result (λ answer. answer.status ≡ Status.ReadFault → Rose (F.faults files.old) (F.faults files.new)) }
    ensures later { F.faults files.old ≤ F.faults files.new }
    ensures same { F.told files.new ≡ F.told files.old }
{
    match files.fetch(file, SOURCE_BYTES) {
        Ok(source) => print_source(alloc, dialect, module_name, file, &source),
        Err(FetchFault::NotThere) => not_there(alloc, file),
        Err(FetchFault::TooLarge) => too_large(alloc, file),
        Err(FetchFault::Failed) => read_failed(alloc, file),
        Err(FetchFault::NoMemory) => Err(AllocError),
    }
}

// What the command asks for.
fn carry_out<F: Files>(alloc: Global, command: Command, files: &mut F) -> Result<Answer, AllocError>
    requires { Named (asked_by command) }
    ensures output { IfOk result (λ answer. OutputAt (asked_by command.entry) (F.told files.old) (written_of answer)) }
    ensures read { IfOk result (λ answer. answer.status ≡ Status.ReadFault → Rose (F.faults files.old) (F.faults files.new)) }
    ensures later { F.faults files.old ≤ F.faults files.new }
    ensures same { F.told files.new ≡ F.told files.old }
{
    match command {
        Command::Print {
            dialect,
            module_name,
            file,
        } => print_file(alloc, dialect, module_name, file, files),
    }
}

/// All that is to be written. Fails only for want of memory.
pub(crate) fn make_answer<F: Files>(
    alloc: Global,
    words: &[String],
    files: &mut F,
) -> Result<Answer, AllocError>
    ensures output { IfOk result (λ answer. OutputFrom (map string_bytes words.now) (F.told files.old) (written_of answer)) }
    ensures read { IfOk result (λ answer. answer.status ≡ Status.ReadFault → Rose (F.faults files.old) (F.faults files.new)) }
    ensures later { F.faults files.old ≤ F.faults files.new }
    ensures same { F.told files.new ≡ F.told files.old }
    ensures unasked { IsNone (command_of (map string_bytes words.now)) → files.new ≡ files.old }
{
    match read_command(words) {
        None => usage(alloc),
        Some(command) => carry_out(alloc, command, files),
    }
}
