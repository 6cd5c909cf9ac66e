//! Sinks in memory.

ghost use Rattle.std.specs.Prelude.{◌≡◌, ◌≢◌, ◌↔◌, ◌⊎◌, ℕ, ◌+◌, ◌-◌, ◌≤◌, List, [], length, IfOk, OnOk, OnErr, IsErr, Contains, Some};
ghost use Rattle.std.specs.Io.{WritesAtMost};
ghost use Rattle.std.specs.Io.KnownBytes.{WriteAppends};
ghost use Rattle.hs_base.specs.Causes.{HasCause, next_of};
ghost use Rattle.hs_base.specs.Heaps.{share_of};

use crate::memory::NoMemory;
use crate::outside::{Failed, Sink};
use std::alloc::Global;
use std::marker::Model;

/// Bytes in memory. A put takes a part where it has to, and the puts of given numbers fail.
///
/// Puts are numbered from 1. Each one after number 18446744073709551615 has that number too.
#[derive(Drop)]
pub struct Heap {
    bytes: Vec<u8>,
    room: u32,
    most: Option<u32>,
    failing: Vec<u64>,
    puts: u64,
    faults: u64,
}

impl Model for Heap {
    ghost use Rattle.std.specs.Prelude.{◌≤◌, vec_len, vec_capacity};
    ghost use Rattle.hs_base.specs.Heaps.{HeapState};

    ghost Value = { HeapState };

    ghost view = { λ heap. record {
      bytes = heap.bytes.items;
      room = heap.room;
      most = heap.most;
      failing = heap.failing.items;
      puts = heap.puts;
      faults = heap.faults;
    } };

    ghost invariant = { λ heap. (heap.room ≤ vec_capacity heap.bytes) × (vec_len heap.bytes ≤ heap.room) };
}

impl Heap {
    /// A sink that reserves `room` bytes, takes at most `most` of them in a put, and fails at the puts
    /// of the numbers in `failing`. `NoMemory` comes only for want of memory.
    pub fn new(
        alloc: Global,
        room: u32,
        most: Option<u32>,
        failing: Vec<u64>,
    ) -> Result<Heap, NoMemory>
        ensures { IfOk result (λ heap. heap ≡ record {
          bytes = [];
          room = room;
          most = most;
          failing = failing.items;
          puts = 0;
          faults = 0;
        }) }
    {
        Ok(Heap {
            bytes: Vec::with_capacity(alloc, room as usize)?,
            room,
            most,
            failing,
            puts: 0,
            faults: 0,
        })
    }

    /// The bytes that were taken.
    pub fn taken(&self) -> &[u8]
        ensures { ⟦<Heap as Sink>⟧.taken self.now ≡ Some result.now }
    {
        &self.bytes
    }

    // How many of so many bytes a put takes that does not fail.
    fn share(&self, len: usize) -> usize
        ensures room { length self.now.bytes + result ≤ self.now.room }
        ensures value { result ≡ share_of self.now len }
    {
        let left = self.room as usize - self.bytes.len();
        let most = match self.most {
            Some(most) => most as usize,
            None => len,
        };
        len.min(left).min(most)
    }
}

/// The bytes are told, and every length is accepted. A put takes the least of the piece's length, the
/// greatest count and the room left. `Failed` comes exactly at the puts of the given numbers, and where
/// that least is 0 for a piece that is not empty. Nothing else raises the count of faults.
impl Sink for Heap {
    ghost taken = { λ heap. Some heap.bytes };

    ghost faults = { λ heap. heap.faults };

    ghost accepts = { λ _ _. Unit {0} };

    ghost accepts_smaller = { λ _ _ _ _ _. tt };

    fn put(&mut self, piece: &[u8]) -> Result<usize, Failed>
        ensures bound { WritesAtMost result piece.now }
        ensures some { IfOk result (λ count. count ≡ 0 → piece.now ≡ []) }
        ensures bytes { WriteAppends (Some self.old.bytes) (Some self.new.bytes) result piece.now }
        ensures cause { HasCause self.old.faults self.new.faults result }
        ensures room { IfOk result (λ count. (len : ℕ) → Unit {0} → Unit {0}) }
        ensures room_kept { OnErr result ((len : ℕ) → Unit {0} → Unit {0}) }

        // The least of the three is taken.
        ensures share { IfOk result (λ count. count ≡ share_of self.old (length piece.now)) }

        // The puts of the given numbers fail, and those that would take nothing.
        ensures exactly { IsErr result ↔ (Contains self.old.failing self.new.puts
            ⊎ ((share_of self.old (length piece.now) ≡ 0) × (piece.now ≢ []))) }
        ensures number { self.new.puts ≡ next_of self.old.puts }
        ensures one_fault { OnErr result (self.new.faults ≡ next_of self.old.faults) }
        ensures no_fault { OnOk result (self.new.faults ≡ self.old.faults) }
        ensures rest { self.new ≡ record self.old {
          bytes = self.new.bytes;
          puts = self.new.puts;
          faults = self.new.faults;
        } }
    {
        self.puts = self.puts.saturating_add(1);
        let count = self.share(piece.len());
        if self.failing.contains(&self.puts) {
            self.faults = self.faults.saturating_add(1);
            return Err(Failed);
        }
        if count == 0 && !piece.is_empty() {
            self.faults = self.faults.saturating_add(1);
            return Err(Failed);
        }
        self.bytes.extend_from_slice(&piece[..count]).unwrap();
        Ok(count)
    }
}

/// Bytes in memory, of which the caller knows that they fit.
#[derive(Drop)]
pub struct SureHeap {
    bytes: Vec<u8>,
    room: u32,
}

impl Model for SureHeap {
    ghost use Rattle.std.specs.Prelude.{◌≤◌, vec_capacity};
    ghost use Rattle.hs_base.specs.Heaps.{SureHeapState};

    ghost Value = { SureHeapState };

    ghost view = { λ heap. record { bytes = heap.bytes.items; room = heap.room } };

    ghost invariant = { λ heap. heap.room ≤ vec_capacity heap.bytes };
}

impl SureHeap {
    /// A sink that reserves `room` bytes. `NoMemory` comes only for want of memory.
    pub fn new(alloc: Global, room: u32) -> Result<SureHeap, NoMemory>
        ensures { IfOk result (λ heap. heap ≡ record { bytes = []; room = room }) }
    {
        Ok(SureHeap {
            bytes: Vec::with_capacity(alloc, room as usize)?,
            room,
        })
    }

    /// The bytes that were taken.
    pub fn taken(&self) -> &[u8]
        ensures { ⟦<SureHeap as Sink>⟧.taken self.now ≡ Some result.now }
    {
        &self.bytes
    }
}

/// The bytes are told. Exactly the lengths that fit into the room left are accepted. A put takes the
/// whole piece, and never fails: the count of faults is 0.
impl Sink for SureHeap {
    ghost use Rattle.std.proofs.Common.{arith};

    ghost taken = { λ heap. Some heap.bytes };

    ghost faults = { λ _. 0 };

    ghost accepts = { λ heap len. length heap.bytes + len ≤ heap.room };

    ghost accepts_smaller = { λ heap a b le room. Prim.omega arith };

    fn put(&mut self, piece: &[u8]) -> Result<usize, Failed>
        requires { length self.old.bytes + length piece.now ≤ self.old.room }
        ensures bound { WritesAtMost result piece.now }
        ensures some { IfOk result (λ count. count ≡ 0 → piece.now ≡ []) }
        ensures bytes { WriteAppends (Some self.old.bytes) (Some self.new.bytes) result piece.now }
        ensures cause { HasCause 0 0 result }
        ensures room { IfOk result (λ count. (len : ℕ) → length self.old.bytes + (len + count) ≤ self.old.room
            → length self.new.bytes + len ≤ self.new.room) }
        ensures room_kept { OnErr result ((len : ℕ) → length self.old.bytes + len ≤ self.old.room
            → length self.new.bytes + len ≤ self.new.room) }

        // The whole piece is taken.
        ensures whole { result ≡ Ok (length piece.now) }
        ensures kept { self.new.room ≡ self.old.room }
    {
        self.bytes.extend_from_slice(piece).unwrap();
        Ok(piece.len())
    }
}
