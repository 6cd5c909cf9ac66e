//! What ends a walk that makes a value.

ghost use Rattle.std.specs.Prelude.{◌≡◌};

use crate::breach::Breach;
use std::alloc::{AllocError, AllocFailed};

/// Why a walk that makes a value has none.
#[derive(Clone, Copy, Debug, PartialEq, Eq)]
pub enum Halt {
    /// A rule is broken.
    Breach(Breach),
    /// There was no memory.
    NoMemory,
}

impl From<AllocError> for Halt {
    ghost use Rattle.hs_marks.specs.declared.halt.Halt.TheVariants.{NoMemory};

    ghost from_gives = { λ _ halt. halt ≡ NoMemory };

    fn from(_error: AllocError) -> Halt {
        Halt::NoMemory
    }
}

impl<T: Drop> From<AllocFailed<T>> for Halt {
    ghost use Rattle.hs_marks.specs.declared.halt.Halt.TheVariants.{NoMemory};

    ghost from_gives = { λ _ halt. halt ≡ NoMemory };

    fn from(_error: AllocFailed<T>) -> Halt {
        Halt::NoMemory
    }
}

impl From<Breach> for Halt {
    ghost use Rattle.hs_marks.specs.declared.halt.Halt.TheVariants as halt;

    ghost from_gives = { λ breach halted. halted ≡ halt.Breach breach };

    fn from(breach: Breach) -> Halt {
        Halt::Breach(breach)
    }
}
