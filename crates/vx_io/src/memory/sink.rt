//! A sink in memory with limited room.
ghost use Rattle.std.specs.Prelude.{◌≡◌, ◌-◌, ◌<◌, ◌↔◌, ◌⊎◌, ◌++◌, ℕ, Some, [], min, length, take, IfOk, OnErr, IsErr};
ghost use Rattle.std.specs.List.{Contains};
ghost use Rattle.std.specs.Io.{WritesAtMost};
ghost use Rattle.std.specs.Io.KnownBytes.{WriteAppends};
ghost use Rattle.vx_io.specs.Faults.{CountsFault};
ghost use Rattle.vx_io.specs.Memory.{fresh_plan, after_call, after_fault, moved_len};

use super::calls::Calls;
use crate::write::{Sink, SinkFailed};
use std::alloc::{AllocError, Global};
use std::marker::Model;

/// A sink in memory with room for a given number of bytes. Contracts know its bytes.
///
/// Writes are cut into pieces and fail as the reads of a [`MemorySource`](super::MemorySource) do. A write of
/// at least one byte also fails once the room is used up. *Model:* the bytes taken, the room, and the plan of
/// its calls.
#[derive(Drop)]
pub struct MemorySink {
    bytes: Vec<u8>,
    room: usize,
    calls: Calls,
}

impl Model for MemorySink {
    ghost use Rattle.std.specs.Prelude.{◌≤◌, vec_len, vec_capacity};
    ghost use Rattle.vx_io.specs.Memory.{Store};

    ghost Value = { Store };

    ghost view = { λ m. record { taken = m.bytes.items; room = m.room; plan = m.calls } };

    ghost invariant = { λ m. (vec_len m.bytes ≤ m.room) × (m.room ≤ vec_capacity m.bytes) };
}

impl MemorySink {
    /// Returns an empty sink, and allocates all of its room.
    ///
    /// # Errors
    ///
    /// `AllocError` if memory runs out.
    pub fn new(
        alloc: Global,
        room: usize,
        pieces: Vec<u32>,
        failing: Vec<u64>,
    ) -> Result<MemorySink, AllocError>
        ensures { IfOk result (λ m. m ≡ record {
          taken = [];
          room = room;
          plan = fresh_plan pieces.items failing.items;
        }) }
    {
        Ok(MemorySink {
            bytes: Vec::with_capacity(alloc, room)?,
            room,
            calls: Calls::new(pieces, failing),
        })
    }

    /// Returns the bytes that were written.
    pub fn bytes(&self) -> &[u8]
        ensures { result.now ≡ self.now.taken }
    {
        &self.bytes
    }
}

impl Sink for MemorySink {
    ghost bytes_taken = { λ m. Some m.taken };

    ghost write_faults = { λ m. m.plan.faults };

    /// Appends a prefix of `piece`, and returns its length. Takes no memory.
    fn write(&mut self, piece: &[u8]) -> Result<usize, SinkFailed>
        ensures bound { WritesAtMost result piece.now }
        ensures bytes { WriteAppends (Some self.old.taken) (Some self.new.taken) result piece.now }
        ensures some { IfOk result (λ n. 0 < length piece.now → 0 < n) }
        ensures faults { CountsFault self.old.plan.faults self.new.plan.faults result }

        // A write fails if and only if its number is listed, or it has bytes and no room is left.
        ensures fails { IsErr result ↔ (Contains self.old.plan.failing self.old.plan.calls
            ⊎ ((length self.old.taken ≡ self.old.room) × (0 < length piece.now))) }
        ensures failed { OnErr result (self.new ≡ record self.old { plan = after_fault self.old.plan }) }

        // Otherwise it takes what its piece length and the room allow.
        ensures count { IfOk result (λ n. n ≡ moved_len self.old.plan.pieces self.old.plan.calls
            (min (length piece.now) (self.old.room - length self.old.taken))) }
        ensures taken { IfOk result (λ n. self.new ≡ record self.old {
          taken = self.old.taken ++ take n piece.now;
          plan = after_call self.old.plan;
        }) }
    {
        let left = self.room - self.bytes.len();
        if left == 0 && !piece.is_empty() {
            self.calls.fail();
            return Err(SinkFailed);
        }
        let count = self.calls.next(piece.len().min(left)).ok_or(SinkFailed)?;
        self.bytes.extend_from_slice(&piece[..count]).unwrap();
        Ok(count)
    }
}
