//! The top call.

ghost use Rattle.std.specs.Prelude.{◌≡◌, ◌≢◌, ◌⊎◌, ◌↔◌, ℕ, ◌≤◌, List, map, string_bytes, length, IsNone};
ghost use Rattle.hs_base.specs.Causes.{Rose};
ghost use Rattle.hs_cli.specs.Command.{command_of};
ghost use Rattle.hs_cli.specs.Output.{Written, OutputFrom};
ghost use Rattle.hs_cli.specs.Ends.{TookWhole, TookNothing, TookParts, Headline};

use crate::answer::make_answer;
use crate::status::Status;
use hs_base::outside::{Files, Sink};
use hs_base::put::put_all;
use std::alloc::Global;

/// Carries out what the words ask, and puts the result on the two sinks: the text on `out`, the line of
/// a refusal on `err`. The words are those of the command line, without the program's name.
///
/// `Usage` comes exactly where the words match no form; no file is fetched then. Else the file is: `NotThere` comes
/// exactly where the files lack it, and `TooLarge` exactly where it has more than 262,144 bytes.
/// `Refused` comes exactly where the source breaks a rule, and `Done` exactly where it breaks none. All
/// this but for `ReadFault`, which comes only where the count of faults of `files` rose in this call,
/// `WriteFault`, which comes only where that of `out` or `err` rose, and `NoMemory`.
///
/// After `WriteFault` the sinks took nothing, or a prefix each of one output; nothing is put on the other
/// sink after a failed write. After `NoMemory` they took nothing.
pub fn run<F: Files, O: Sink, E: Sink>(
    alloc: Global,
    words: &Vec<String>,
    files: &mut F,
    out: &mut O,
    err: &mut E,
) -> Status
    // The sinks have room for each output.
    requires { (written : Written) → OutputFrom (map string_bytes words.now.items) (F.told files.old) written
        → O.accepts out.old (length written.out) × E.accepts err.old (length written.err) }

    // Where the words are those of a print, and the file is told within its limit.
    ensures headline { Headline (command_of (map string_bytes words.now.items)) (F.told files.old) result
        (O.taken out.old) (O.taken out.new) (E.taken err.old) (E.taken err.new) }

    // With a status of its own the call leaves one whole output on the sinks.
    ensures whole { result ≢ Status.WriteFault → result ≢ Status.NoMemory
        → TookWhole (map string_bytes words.now.items) (F.told files.old) result
        (O.taken out.old) (O.taken out.new) (E.taken err.old) (E.taken err.new) }

    // After a failed write the sinks took nothing, or a prefix each of one output.
    ensures part { result ≡ Status.WriteFault
        → TookNothing (O.taken out.old) (O.taken out.new) (E.taken err.old) (E.taken err.new)
        ⊎ TookParts (map string_bytes words.now.items) (F.told files.old) (Rose (F.faults files.old) (F.faults files.new))
        (O.taken out.old) (O.taken out.new) (E.taken err.old) (E.taken err.new) }

    // Without memory they took nothing.
    ensures no_memory { result ≡ Status.NoMemory
        → TookNothing (O.taken out.old) (O.taken out.new) (E.taken err.old) (E.taken err.new) }

    ensures usage { result ≡ Status.Usage → IsNone (command_of (map string_bytes words.now.items)) }
    ensures usage_first { IsNone (command_of (map string_bytes words.now.items))
        → (result ≡ Status.Usage) ⊎ (result ≡ Status.WriteFault) ⊎ (result ≡ Status.NoMemory) }

    // Then no file is fetched.
    ensures unasked { IsNone (command_of (map string_bytes words.now.items)) → files.new ≡ files.old }

    ensures read_fault { result ≡ Status.ReadFault → Rose (F.faults files.old) (F.faults files.new) }
    ensures write_fault { result ≡ Status.WriteFault
        → Rose (O.faults out.old) (O.faults out.new) ⊎ Rose (E.faults err.old) (E.faults err.new) }

    // The map stays as it is, and no count falls.
    ensures files_same { F.told files.new ≡ F.told files.old }
    ensures files_later { F.faults files.old ≤ F.faults files.new }
    ensures out_later { O.faults out.old ≤ O.faults out.new }
    ensures err_later { E.faults err.old ≤ E.faults err.new }
{
    let Ok(answer) = make_answer(alloc, words, files) else {
        return Status::NoMemory;
    };
    if put_all(out, &answer.out).is_err() {
        return Status::WriteFault;
    }
    if put_all(err, &answer.err).is_err() {
        return Status::WriteFault;
    }
    answer.status
}
