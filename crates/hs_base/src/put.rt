//! Puts a whole text on a sink.

ghost use Rattle.std.specs.Prelude.{◌≡◌, ℕ, ◌+◌, ◌≤◌, length, OnOk, OnErr};
ghost use Rattle.std.specs.Io.KnownBytes.{Appends};
ghost use Rattle.hs_base.specs.Causes.{HasCause, TookPrefix};

use crate::outside::{Failed, Sink};

/// Puts all of the bytes. Takes no memory.
///
/// After `Failed` the sink took some bytes at the front, maybe none. It comes only where the count of
/// faults of the sink rose in this call. Either way the sink accepts each length that it accepted with
/// all these bytes more before.
pub fn put_all<S: Sink>(sink: &mut S, bytes: &[u8]) -> Result<(), Failed>
    requires { S.accepts sink.old (length bytes.now) }
    ensures ok { OnOk result (Appends (S.taken sink.old) (S.taken sink.new) bytes.now) }
    ensures err { OnErr result (TookPrefix (S.taken sink.old) (S.taken sink.new) bytes.now) }
    ensures cause { HasCause (S.faults sink.old) (S.faults sink.new) result }
    ensures room { (len : ℕ) → S.accepts sink.old (len + length bytes.now) → S.accepts sink.new len }
{
    let mut done = 0;
    while done < bytes.len() {
        done += sink.put(&bytes[done..])?;
    }
    Ok(())
}
