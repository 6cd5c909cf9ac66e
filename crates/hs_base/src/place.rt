//! Places in a text, and what stops the work on it.

ghost use Rattle.std.specs.Prelude.{◌≡◌, ◌≤◌, OnErr, IsErrOf, length, count_by};
ghost use Rattle.std.specs.List.{suffix_len};
ghost use Rattle.std.proofs.Common.{eqb};
ghost use Rattle.hs_base.specs.Positions as positions;

use crate::parts::front;
use crate::rule::Rule;
use std::alloc::{AllocError, AllocFailed};

/// A place in a text.
#[derive(Clone, Copy, Debug, PartialEq, Eq)]
pub struct Pos {
    /// The number of bytes before the place.
    pub byte: u64,
    /// The line, from 1.
    pub line: u64,
    /// The column in bytes, from 1.
    pub col: u64,
}

// How many line feeds there are.
fn line_feeds(before: &[u8]) -> usize
    ensures count { result ≡ count_by (λ b. eqb b 10) before.now }
    ensures within { result ≤ length before.now }
{
    before.iter().filter(|byte| **byte == b'\n').count()
}

// How many bytes stand behind the last line feed.
#[tactic(auto, unfolding(crate::specs::Positions::is_in_line))]
fn last_line(before: &[u8]) -> usize
    ensures count { result ≡ suffix_len positions.is_in_line before.now }
    ensures within { result ≤ length before.now }
{
    before
        .iter()
        .rev()
        .take_while(|byte| **byte != b'\n')
        .count()
}

/// The place behind a text. Takes no memory.
#[tactic(auto, unfolding(crate::specs::Positions::place_behind))]
pub fn place_behind(before: &[u8]) -> Pos
    ensures { result ≡ positions.place_behind before.now }
{
    Pos {
        byte: before.len() as u64,
        line: 1 + line_feeds(before) as u64,
        col: 1 + last_line(before) as u64,
    }
}

/// The place before which so many bytes of a text stand, or its end where it has no more. Takes no memory.
pub fn pos_at(text: &[u8], byte: usize) -> Pos
    ensures { result ≡ positions.pos_at text.now byte }
{
    place_behind(front(text, byte))
}

/// A broken rule, and the place where it is broken.
#[derive(Clone, Copy, Debug, PartialEq, Eq)]
pub struct Broken {
    pub rule: Rule,
    pub at: Pos,
}

impl Broken {
    /// That a rule is broken at the place before which so many bytes of a text stand, or at its end where it has no more.
    /// Takes no memory.
    pub fn told_at(text: &[u8], rule: Rule, byte: usize) -> Broken
        ensures { result ≡ positions.told_at text.now rule byte }
    {
        Broken {
            rule,
            at: pos_at(text, byte),
        }
    }
}

/// Why there is no result.
#[derive(Clone, Copy, Debug, PartialEq, Eq)]
pub enum Stop {
    /// The text breaks a rule.
    Broken(Broken),
    /// There was no memory.
    NoMemory,
}

impl From<AllocError> for Stop {
    ghost use Rattle.hs_base.specs.declared.place.Stop.TheVariants.{NoMemory};

    ghost from_gives = { λ _ stop. stop ≡ NoMemory };

    fn from(_error: AllocError) -> Stop {
        Stop::NoMemory
    }
}

impl<T: Drop> From<AllocFailed<T>> for Stop {
    ghost use Rattle.hs_base.specs.declared.place.Stop.TheVariants.{NoMemory};

    ghost from_gives = { λ _ stop. stop ≡ NoMemory };

    fn from(_error: AllocFailed<T>) -> Stop {
        Stop::NoMemory
    }
}

impl From<Broken> for Stop {
    ghost use Rattle.hs_base.specs.declared.place.Stop.TheVariants as stop;

    ghost from_gives = { λ broken stopped. stopped ≡ stop.Broken broken };

    fn from(broken: Broken) -> Stop {
        Stop::Broken(broken)
    }
}
