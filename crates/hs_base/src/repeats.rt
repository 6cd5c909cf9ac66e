//! How often a read or a write is made again.

ghost use Rattle.std.specs.Prelude.{◌≡◌, ◌≢◌, ◌⊎◌, ◌+◌, OnOk, IfErr};
ghost use Rattle.std.specs.IoError.{error_kind};
ghost use Rattle.hs_base.specs.Reads.{IsTold};

use std::io;
use std::io::ErrorKind;
use std::marker::Model;

// How many there are in one fetch or put.
const REPEATS: u32 = 1024;

/// The repeats that are left in one fetch or put, seen by contracts as their number.
#[derive(Drop)]
pub struct Repeats {
    left: u32,
}

impl Model for Repeats {
    ghost use Rattle.std.specs.Prelude.{ℕ};

    ghost Value = { ℕ };

    ghost view = { λ repeats. repeats.left };
}

impl Repeats {
    /// All 1,024.
    pub fn new() -> Repeats
        ensures { result ≡ 1024 }
    {
        Repeats { left: REPEATS }
    }

    /// Takes a repeat after an interruption. Any other error is told, and so is an interruption where no repeat is left.
    pub fn after(&mut self, error: io::Error) -> io::Result<()>
        ensures again { OnOk result ((error_kind error ≡ ErrorKind.Interrupted) × (self.old ≡ self.new + 1)) }
        ensures told { IfErr result (λ e. (e ≡ error) × IsTold error self.old × (self.new ≡ self.old)) }
    {
        if error.kind() != ErrorKind::Interrupted || self.left == 0 {
            return Err(error);
        }
        self.left -= 1;
        Ok(())
    }
}
