//! Why nothing was parsed.

ghost use Rattle.std.specs.Prelude.{◌≡◌};
ghost use Rattle.hs_grammar.specs.declared.error.ParseError.TheVariants as errors;

use std::alloc::{AllocError, AllocFailed};

/// Why a function that parses a part gives no value.
#[derive(Clone, Copy, Debug, Drop, PartialEq, Eq)]
pub enum ParseError {
    /// There was no memory.
    NoMemory,
    /// Rules nest deeper than they may.
    TooDeep,
    /// The first of the tokens that are left cannot stand there, or none is left and the part is unfinished.
    Syntax,
}

impl From<AllocError> for ParseError {
    ghost from_gives = { λ _ e. e ≡ errors.NoMemory };

    fn from(_error: AllocError) -> ParseError {
        ParseError::NoMemory
    }
}

impl<T: Drop> From<AllocFailed<T>> for ParseError {
    ghost from_gives = { λ _ e. e ≡ errors.NoMemory };

    fn from(_error: AllocFailed<T>) -> ParseError {
        ParseError::NoMemory
    }
}

/// Why a whole list of tokens gives no value.
#[derive(Clone, Copy, Debug, Drop, PartialEq, Eq)]
pub enum Refusal {
    /// There was no memory.
    NoMemory,
    /// Rules nest deeper than they may.
    TooDeep,
    /// The token at this place is the first that cannot stand there, counted from 0. At the number of tokens: they end too early.
    At(usize),
}
