//! What a program asks of the outside: files to read, and sinks to write to.

ghost use Rattle.std.specs.Prelude.{◌≡◌, ℕ, ◌+◌, ◌≤◌, List, [], length, IfOk, OnErr, IsErrOf};
ghost use Rattle.std.specs.declared.option.Option.{Option};
ghost use Rattle.std.specs.Io.{WritesAtMost};
ghost use Rattle.std.specs.Io.KnownBytes.{WriteAppends};
ghost use Rattle.hs_base.specs.Causes.{Rose, HasCause};
ghost use Rattle.hs_base.specs.Contents.{Entry, Holds, Lacks, Exceeds};

use std::alloc::AllocError;

/// Why a fetch gave no bytes.
#[derive(Clone, Copy, Debug, PartialEq, Eq)]
pub enum FetchFault {
    /// Nothing stands under the name.
    NotThere,
    /// More bytes stand under the name than the limit allows.
    TooLarge,
    /// The outside failed. The count of faults rose.
    Failed,
    /// There was no memory for the bytes.
    NoMemory,
}

impl From<AllocError> for FetchFault {
    ghost use Rattle.hs_base.specs.declared.outside.FetchFault.TheVariants.{NoMemory};

    ghost from_gives = { λ _ fault. fault ≡ NoMemory };

    fn from(_error: AllocError) -> FetchFault {
        FetchFault::NoMemory
    }
}

/// Files by their names.
///
/// `told` is the map from names to bytes, or `None` where it is not known. `faults` counts failures,
/// and never falls. That it rose means that it went up, or stands at 18446744073709551615.
pub trait Files {
    ghost told: { Self → Option (List Entry) };

    ghost faults: { Self → ℕ };

    /// The bytes under a name, at most `limit` many. The map stays as it is.
    ///
    /// Where the map is told, `NotThere` comes exactly where it lacks the name, and `TooLarge` exactly
    /// where more than `limit` bytes stand under it, but for a fault and want of memory. `Failed` comes
    /// only where the count of faults rose in this call.
    fn fetch(&mut self, name: &str, limit: u32) -> Result<Vec<u8>, FetchFault>
        ensures bytes { IfOk result (λ bytes. Holds (told self.old) name.now bytes.items) }
        ensures within { IfOk result (λ bytes. length bytes.items ≤ limit) }
        ensures not_there { IsErrOf result FetchFault.NotThere → Lacks (told self.old) name.now }
        ensures too_large { IsErrOf result FetchFault.TooLarge → Exceeds (told self.old) name.now limit }
        ensures failed { IsErrOf result FetchFault.Failed → Rose (faults self.old) (faults self.new) }
        ensures later { faults self.old ≤ faults self.new }
        ensures same { told self.new ≡ told self.old };
}

/// The outside took nothing, and the count of faults rose.
#[derive(Clone, Copy, Debug, PartialEq, Eq)]
pub struct Failed;

/// Takes bytes.
///
/// `taken` is all the bytes that were taken so far, or `None` where they are not known. `faults` counts
/// failures, and never falls. `accepts` says of which lengths a piece may be put: a sink that accepts
/// a length accepts each smaller one.
pub trait Sink {
    ghost taken: { Self → Option (List ℕ) };

    ghost faults: { Self → ℕ };

    ghost accepts: { Self → ℕ → Type 0 };

    /// Takes some bytes at the front of the piece, and answers how many. Takes no memory.
    ///
    /// Of a piece that is not empty at least one byte is taken. After `Failed` nothing is taken, and the
    /// sink accepts what it accepted before. It comes only where the count of faults rose in this call.
    /// After `Ok(n)` the sink accepts each length that it accepted with `n` more before.
    fn put(&mut self, piece: &[u8]) -> Result<usize, Failed>
        requires { accepts self.old (length piece.now) }
        ensures bound { WritesAtMost result piece.now }
        ensures some { IfOk result (λ count. count ≡ 0 → piece.now ≡ []) }
        ensures bytes { WriteAppends (taken self.old) (taken self.new) result piece.now }
        ensures cause { HasCause (faults self.old) (faults self.new) result }
        ensures room { IfOk result (λ count. (len : ℕ) → accepts self.old (len + count) → accepts self.new len) }
        ensures room_kept { OnErr result ((len : ℕ) → accepts self.old len → accepts self.new len) };

    ghost accepts_smaller: { (sink : Self) (a b : ℕ) → a ≤ b → accepts sink b → accepts sink a };
}
