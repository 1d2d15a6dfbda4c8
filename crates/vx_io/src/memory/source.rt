//! A source over bytes in memory.
ghost use Rattle.std.specs.Prelude.{◌≡◌, ◌+◌, ◌↔◌, ◌++◌, ℕ, Some, min, length, take, drop, IfOk, OnErr, IsErr};
ghost use Rattle.std.specs.List.{Contains};
ghost use Rattle.std.specs.Io.{ReadsAtMost};
ghost use Rattle.std.specs.Io.KnownBytes.{ReadConsumes};
ghost use Rattle.vx_io.specs.Faults.{CountsFault};
ghost use Rattle.vx_io.specs.Memory.{fresh_plan, after_call, after_fault, moved_len};

use super::calls::Calls;
use crate::read::{Source, SourceFailed};
use std::marker::Model;

/// A source over bytes in memory, for tests and for streams that are already loaded. Contracts know its
/// bytes.
///
/// Read number i (from 0) returns at most `pieces[i % pieces.len()]` bytes; 0 counts as 1, and an empty
/// `pieces` sets no limit. Exactly the reads whose numbers `failing` lists fail. Numbers stop at 2^64 - 1,
/// which is the number of every later read. *Model:* the bytes left, and the plan of its calls.
#[derive(Drop)]
pub struct MemorySource {
    bytes: Vec<u8>,
    at: usize,
    calls: Calls,
}

impl Model for MemorySource {
    ghost use Rattle.std.specs.Prelude.{◌≤◌, drop, length};
    ghost use Rattle.vx_io.specs.Memory.{Supply};

    ghost Value = { Supply };

    ghost view = { λ m. record { left = drop m.at m.bytes.items; plan = m.calls } };

    ghost invariant = { λ m. m.at ≤ length m.bytes.items };
}

impl MemorySource {
    /// Returns a source of `bytes` of which nothing has been read.
    pub fn new(bytes: Vec<u8>, pieces: Vec<u32>, failing: Vec<u64>) -> MemorySource
        ensures { result ≡ record {
          left = bytes.items;
          plan = fresh_plan pieces.items failing.items;
        } }
    {
        MemorySource {
            bytes,
            at: 0,
            calls: Calls::new(pieces, failing),
        }
    }
}

impl Source for MemorySource {
    ghost bytes_left = { λ m. Some m.left };

    ghost read_faults = { λ m. m.plan.faults };

    fn read(&mut self, into: &mut [u8]) -> Result<usize, SourceFailed>
        ensures bound { ReadsAtMost result into.new }
        ensures bytes { ReadConsumes (Some self.old.left) (Some self.new.left) result into.new }
        ensures faults { CountsFault self.old.plan.faults self.new.plan.faults result }

        // A read fails if and only if its number is listed.
        ensures fails { IsErr result ↔ Contains self.old.plan.failing self.old.plan.calls }
        ensures failed { OnErr result (self.new ≡ record self.old { plan = after_fault self.old.plan }) }
        ensures kept { OnErr result (into.new ≡ into.old) }

        // Otherwise it returns what its piece length, the room and the bytes left allow.
        ensures count { IfOk result (λ n. n ≡ moved_len self.old.plan.pieces self.old.plan.calls
            (min (length into.old) (length self.old.left))) }
        ensures filled { IfOk result (λ n. into.new ≡ take n self.old.left ++ drop n into.old) }
        ensures left { IfOk result (λ n. self.new ≡ record {
          left = drop n self.old.left;
          plan = after_call self.old.plan;
        }) }
    {
        let rest = &self.bytes[self.at..];
        let most = into.len().min(rest.len());
        let count = self.calls.next(most).ok_or(SourceFailed)?;
        into[..count].copy_from_slice(&rest[..count]);
        self.at += count;
        Ok(count)
    }
}
