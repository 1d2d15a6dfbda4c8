//! The plan of a memory source's or sink's calls.
ghost use Rattle.std.specs.Prelude.{◌≡◌, ◌↔◌, IfSome, IfNone, IsNone};
ghost use Rattle.std.specs.List.{Contains};
ghost use Rattle.vx_io.specs.Faults.{Rose};
ghost use Rattle.vx_io.specs.Memory.{fresh_plan, after_call, after_fault, moved_len};

use std::marker::Model;

/// The number of calls made, and the plan that says how each call goes.
///
/// *Model:* the piece lengths, the numbers of failing calls, the number of calls made, and the number of
/// calls that failed.
#[derive(Drop)]
pub(crate) struct Calls {
    pieces: Vec<u32>,
    failing: Vec<u64>,
    made: u64,
    faults: u64,
}

impl Model for Calls {
    ghost use Rattle.vx_io.specs.Memory.{Plan};

    ghost Value = { Plan };

    ghost view = { λ c. record {
      pieces = c.pieces.items;
      failing = c.failing.items;
      calls = c.made;
      faults = c.faults;
    } };
}

impl Calls {
    /// Returns a plan of which no call has been made.
    pub(crate) fn new(pieces: Vec<u32>, failing: Vec<u64>) -> Calls
        ensures { result ≡ fresh_plan pieces.items failing.items }
    {
        Calls {
            pieces,
            failing,
            made: 0,
            faults: 0,
        }
    }

    /// Makes the next call for `len` bytes, and returns how many of them it moves, or `None` if it fails.
    pub(crate) fn next(&mut self, len: usize) -> Option<usize>
        ensures fails { IsNone result ↔ Contains self.old.failing self.old.calls }
        ensures moved { IfSome result (λ n. n ≡ moved_len self.old.pieces self.old.calls len) }
        ensures counted { IfSome result (λ _. self.new ≡ after_call self.old) }
        ensures fault { IfNone result (self.new ≡ after_fault self.old) }
        ensures rose { IfNone result (Rose self.old.faults self.new.faults) }
    {
        if self.failing.contains(&self.made) {
            self.fail();
            return None;
        }
        let moved = piece_len(&self.pieces, self.made, len);
        self.made = self.made.saturating_add(1);
        Some(moved)
    }

    /// Makes the next call fail.
    pub(crate) fn fail(&mut self)
        ensures fault { self.new ≡ after_fault self.old }
        ensures rose { Rose self.old.faults self.new.faults }
    {
        self.made = self.made.saturating_add(1);
        self.faults = self.faults.saturating_add(1);
    }
}

/// Returns how many of `len` bytes call number `call` moves.
fn piece_len(pieces: &[u32], call: u64, len: usize) -> usize
    ensures { result ≡ moved_len pieces.now call len }
{
    if pieces.is_empty() {
        return len;
    }
    let bound = pieces[(call % pieces.len() as u64) as usize];
    len.min((bound as usize).max(1))
}
