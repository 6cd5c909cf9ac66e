//! Why a text has no file.

ghost use Rattle.std.specs.Prelude.{◌≡◌};

use hs_base::place::{Broken, Stop};
use std::alloc::{AllocError, AllocFailed};

/// Why the tokens of a text give no file.
#[derive(Clone, Copy, Debug, PartialEq, Eq)]
pub enum ParseStop {
    /// The text breaks a rule.
    Broken(Broken),
    /// So much nests that reading it may take more of the stack than there is.
    TooDeep,
    /// There was no memory.
    NoMemory,
}

impl From<AllocError> for ParseStop {
    ghost use Rattle.hs_parser.specs.declared.stop.ParseStop.TheVariants.{NoMemory};

    ghost from_gives = { λ _ stop. stop ≡ NoMemory };

    fn from(_error: AllocError) -> ParseStop {
        ParseStop::NoMemory
    }
}

impl<T: Drop> From<AllocFailed<T>> for ParseStop {
    ghost use Rattle.hs_parser.specs.declared.stop.ParseStop.TheVariants.{NoMemory};

    ghost from_gives = { λ _ stop. stop ≡ NoMemory };

    fn from(_error: AllocFailed<T>) -> ParseStop {
        ParseStop::NoMemory
    }
}

impl From<Stop> for ParseStop {
    ghost use Rattle.hs_base.specs.declared.place.Stop.{Stop as Told};
    ghost use Rattle.hs_base.specs.declared.place.Stop.TheVariants as told;
    ghost use Rattle.hs_parser.specs.declared.stop.ParseStop.TheVariants as stop;

    ghost from_gives = { λ stopped parse_stop. parse_stop ≡ (elim stopped [ told.Broken broken ↦ stop.Broken broken | told.NoMemory ↦ stop.NoMemory ]) };

    fn from(stopped: Stop) -> ParseStop {
        match stopped {
            Stop::Broken(broken) => ParseStop::Broken(broken),
            Stop::NoMemory => ParseStop::NoMemory,
        }
    }
}
