//! Whether sources end together.
ghost use Rattle.std.specs.Prelude.{ℕ, ◌<◌, ◌≤◌, length};
ghost use Rattle.std.specs.Bool.{OnTrue, OnFalse};
ghost use Rattle.vx_fit.specs.Lowest.{IsLowestAnswer};
ghost use Rattle.vx_merge.specs.Ends.{IsMarkedGoing, IsMarkedEnded, IsLengths};

use crate::ended::Lengths;
use vx_frame::lowest_of;

/// Returns the lowest source that has ended.
#[tactic(auto, using(vx_frame::proofs::FirstTold::lowest_told))]
fn lowest_ended(ended: &[bool]) -> Option<u16>
    requires { length ended.now ≤ 65536 }
    ensures { IsLowestAnswer (length ended.now) (IsMarkedEnded ended.now) result }
{
    lowest_of(ended.len(), |k| ended[k])
}

/// Returns whether a source goes on.
fn some_goes_on(ended: &[bool]) -> bool
    ensures some { OnTrue result ((j : ℕ) × ((j < length ended.now) × IsMarkedGoing ended.now j)) }
    ensures none { OnFalse result ((k : ℕ) → k < length ended.now → IsMarkedEnded ended.now k) }
{
    for k in 0..ended.len() {
        if !ended[k] {
            return true;
        }
    }
    false
}

/// Returns which sources have ended. `ended` has one mark for each source. Takes no memory.
pub fn lengths(ended: &[bool]) -> Lengths
    requires { (0 < length ended.now) × (length ended.now ≤ 65536) }
    ensures { IsLengths ended.now result }
{
    match lowest_ended(ended) {
        None => Lengths::AllGo,
        Some(k) if some_goes_on(ended) => Lengths::Differ(k),
        Some(_) => Lengths::AllEnded,
    }
}
