//! A sink over a writer of the system.

ghost use Rattle.std.specs.Prelude.{◌≡◌, ◌≢◌, ℕ, ◌≤◌, List, [], length, take, IfOk, OnOk, OnErr, IfErr};
ghost use Rattle.std.specs.Io.{WritesAtMost};
ghost use Rattle.std.specs.Io.KnownBytes.{WriteAppends};
ghost use Rattle.hs_base.specs.Causes.{HasCause, next_of};
ghost use Rattle.hs_base.specs.Reads.{IsTold};

use crate::outside::{Failed, Sink};
use crate::repeats::Repeats;
use std::io;
use std::io::Write;

// One write, made again where it was interrupted.
fn write_again<W: Write>(writer: &mut W, piece: &[u8], repeats: &mut Repeats) -> io::Result<usize>
    ensures bound { WritesAtMost result piece.now }
    ensures bytes { WriteAppends (W.contents writer.old) (W.contents writer.new) result piece.now }
    ensures failed { IfErr result (λ error. IsTold error repeats.new) }
{
    loop {
        match writer.write(piece) {
            Ok(count) => return Ok(count),
            Err(error) => repeats.after(error)?,
        }
    }
}

/// Standard output or standard error, or another writer, whose failures are counted.
///
/// A write that was interrupted is made again at most 1,024 times in a put. A further interruption is a
/// failure.
#[derive(Drop)]
pub struct StdSink<W> {
    writer: W,
    faults: u64,
}

impl<W: Write> StdSink<W> {
    /// A sink over the writer. Takes no memory.
    pub fn new(writer: W) -> StdSink<W>
        ensures taken { ⟦<StdSink<W> as Sink>⟧.taken result ≡ W.contents writer }
        ensures faults { ⟦<StdSink<W> as Sink>⟧.faults result ≡ 0 }
    {
        StdSink { writer, faults: 0 }
    }
}

/// The bytes taken are those that the writer is known to hold, and of standard output and standard error
/// none are known. Every length is accepted. Each failure raises the count of faults.
impl<W: Write> Sink for StdSink<W> {
    ghost taken = { λ sink. W.contents sink.writer };

    ghost faults = { λ sink. sink.faults };

    ghost accepts = { λ _ _. Unit {0} };

    ghost accepts_smaller = { λ _ _ _ _ _. tt };

    fn put(&mut self, piece: &[u8]) -> Result<usize, Failed>
        ensures bound { WritesAtMost result piece.now }
        ensures some { IfOk result (λ count. count ≡ 0 → piece.now ≡ []) }
        ensures bytes { WriteAppends (W.contents self.old.writer) (W.contents self.new.writer) result piece.now }
        ensures cause { HasCause self.old.faults self.new.faults result }
        ensures room { IfOk result (λ count. (len : ℕ) → Unit {0} → Unit {0}) }
        ensures room_kept { OnErr result ((len : ℕ) → Unit {0} → Unit {0}) }

        // The count rises by one at each failure, and at nothing else.
        ensures one_fault { OnErr result (self.new.faults ≡ next_of self.old.faults) }
        ensures no_fault { OnOk result (self.new.faults ≡ self.old.faults) }
    {
        match write_again(&mut self.writer, piece, &mut Repeats::new()) {
            Ok(count) if count > 0 || piece.is_empty() => Ok(count),
            _ => {
                self.faults = self.faults.saturating_add(1);
                Err(Failed)
            }
        }
    }
}
