//! A queue of bytes in one buffer, into which a source is read in place.
ghost use Rattle.std.specs.Prelude.{◌≡◌, ◌+◌, ◌≤◌, take, vec_len, IsOk, OnOk, OnErr};

use std::alloc::{AllocError, Global};
use std::marker::Model;
use vx_io::{Source, SourceFailed};

/// The bytes held are moved to the start of the buffer only if this many times as many have been passed, so
/// that few are moved in all.
const PASSED_TO_MOVE: usize = 4;

/// A queue of bytes: the first ones have been passed, and new ones are appended.
#[derive(Drop)]
pub(crate) struct ByteQueue {
    buffer: Vec<u8>,
    // The place in the buffer of the first byte held; the bytes before it have been passed.
    first: usize,
    // The place after the last byte held; from there on there is room.
    last: usize,
}

impl Model for ByteQueue {
    ghost use Rattle.std.specs.Prelude.{◌≤◌, ◌-◌, slice_range, vec_len};
    ghost use Rattle.vx_annexb.specs.inner.Queue.{Queue};

    ghost Value = { Queue };

    ghost view = { λ a. record {
      items = slice_range a.buffer.items a.first a.last;
      room = vec_len a.buffer - a.last;
    } };

    ghost invariant = { λ a. (a.first ≤ a.last) × (a.last ≤ vec_len a.buffer) };
}

/// Lengthens a buffer if fewer than `n` bytes follow `place`. After an error it is unchanged.
fn lengthen(buffer: &mut Vec<u8>, place: usize, n: usize) -> Result<(), AllocError>
    requires { place ≤ vec_len buffer.old }
    ensures begins { take (vec_len buffer.old) buffer.new.items ≡ buffer.old.items }
    ensures len { OnOk result (place + n ≤ vec_len buffer.new) }
    ensures succeeds { place + n ≤ vec_len buffer.old → IsOk result }
    ensures err { OnErr result (buffer.new.items ≡ buffer.old.items) }
{
    let room = buffer.len() - place;
    if n <= room {
        return Ok(());
    }
    buffer.reserve(n - room)?;
    // The room was made.
    buffer.resize(place + n, 0).unwrap();
    Ok(())
}

impl ByteQueue {
    ghost use Rattle.std.specs.Prelude.{◌≡◌, ◌≤◌, ◌<◌, ◌++◌, [], drop, length, min, IfOk, IsOk, OnOk, OnErr, MatchResult};
    ghost use Rattle.std.specs.Io.KnownBytes.{Keeps};
    ghost use Rattle.vx_io.specs.Faults.{CountsFault};
    ghost use Rattle.vx_annexb.specs.inner.Queue.{Receives};

    /// Returns an empty queue without room.
    pub(crate) fn new(alloc: Global) -> ByteQueue
        ensures { result.items ≡ [] }
    {
        ByteQueue {
            buffer: Vec::new(alloc),
            first: 0,
            last: 0,
        }
    }

    /// Returns the number of bytes held.
    pub(crate) fn len(&self) -> usize
        ensures { result ≡ length self.now.items }
    {
        self.last - self.first
    }

    /// Returns the bytes held.
    pub(crate) fn as_slice(&self) -> &[u8]
        ensures { result.now ≡ self.now.items }
    {
        &self.buffer[self.first..self.last]
    }

    /// Passes the first `k` bytes, and makes room for `n` after the others. After an error nothing has changed.
    pub(crate) fn shift(&mut self, k: usize, n: usize) -> Result<(), AllocError>
        requires { k ≤ length self.old.items }
        ensures items { OnOk result (self.new.items ≡ drop k self.old.items) }
        ensures room { OnOk result (n ≤ self.new.room) }
        ensures succeeds { n ≤ self.old.room → IsOk result }
        ensures err { OnErr result (self.new ≡ self.old) }
    {
        let first = self.first + k;
        let held = self.last - first;
        if first / PASSED_TO_MOVE < held {
            lengthen(&mut self.buffer, self.last, n)?;
            self.first = first;
            return Ok(());
        }
        lengthen(&mut self.buffer, held, n)?;
        self.buffer.copy_within(first..self.last, 0);
        self.first = 0;
        self.last = held;
        Ok(())
    }

    /// Appends a piece for which there is room.
    pub(crate) fn extend(&mut self, piece: &[u8])
        requires { length piece.now ≤ self.old.room }
        ensures { self.new.items ≡ self.old.items ++ piece.now }
    {
        let end = self.last + piece.len();
        self.buffer[self.last..end].copy_from_slice(piece);
        self.last = end;
    }

    /// Reads at most `most` bytes of a source into the room, appends the first `limit` of them to the queue,
    /// and returns the number of bytes read.
    pub(crate) fn read_from(
        &mut self,
        source: &mut dyn Source,
        most: usize,
        limit: usize,
    ) -> Result<usize, SourceFailed>
        requires some { 0 < most }
        requires room { most ≤ self.old.room }
        ensures bound { IfOk result (λ count. count ≤ most) }
        ensures answer { MatchResult result
            (λ count. Receives limit count self.old.items self.new.items (bytes_left source.old) (bytes_left source.new))
            (λ _. Keeps (bytes_left source.old) (bytes_left source.new) × (self.new.items ≡ self.old.items)) }
        ensures faults { CountsFault (read_faults source.old) (read_faults source.new) result }
    {
        let count = source.read(&mut self.buffer[self.last..self.last + most])?;
        self.last += count.min(limit);
        Ok(count)
    }
}
