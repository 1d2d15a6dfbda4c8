//! Searches for zeros in a slice.
ghost use Rattle.std.specs.Prelude.{◌≢◌, ℕ, ◌+◌, ◌<◌, ◌≤◌, length, max, slice_index, MatchOption};
ghost use Rattle.vx_annexb.specs.Places.{AreZeros, IsMark, IsFirstFrom};

use memchr::memmem;

/// Two zeros are near if they are fewer bytes away than this. More may then follow, and single steps are faster
/// than a search.
const NEAR: usize = 64;

/// The first two bytes of a mark.
const ZEROS: [u8; 2] = [0, 0];

/// Returns the first place from `from` on whose byte isn't 0, or the end.
pub(crate) fn skip_zeros(bytes: &[u8], from: usize) -> usize
    requires { from ≤ length bytes.now }
    ensures zeros { AreZeros bytes.now from result }
    ensures stops { result < length bytes.now → slice_index bytes.now result ≢ 0 }
{
    let mut at = from;
    while at < bytes.len() && bytes[at] == 0 {
        at += 1;
    }
    at
}

/// Returns the place of the first 00 00 from `from` on. It isn't inlined, so that the search stays small where
/// marks are dense.
#[inline(never)]
fn next_zeros(bytes: &[u8], from: usize) -> Option<usize>
    requires { from ≤ length bytes.now }
    ensures { MatchOption result
        ((k : ℕ) → from ≤ k → ¬ AreZeros bytes.now k (k + 2))
        (λ place. IsFirstFrom (λ k. AreZeros bytes.now k (k + 2)) from place) }
{
    let skip = memmem::find(&bytes[from..], &ZEROS)?;
    Some(from + skip)
}

/// Steps from `from` to a mark below `stop`, or past `stop` if there is none, at most three bytes a step.
fn step_to_mark(bytes: &[u8], from: usize, stop: usize, most: u8) -> usize
    requires order { from ≤ stop }
    requires within { stop ≤ length bytes.now }
    ensures order { from ≤ result }
    ensures within { result ≤ length bytes.now }
    ensures none { (k : ℕ) → from ≤ k → k < result → ¬ IsMark most bytes.now k }
    ensures found { result < stop → IsMark most bytes.now result }
{
    let mut at = from;
    while at < stop && bytes.len() - at > 2 {
        if bytes[at + 2] > most {
            at += 3;
        } else if bytes[at] == 0 && bytes[at + 1] == 0 {
            return at;
        } else {
            at += 1;
        }
    }
    at.max(stop)
}

/// Returns the first place from `from` on with 00 00 and a byte of at most `most`.
pub(crate) fn find_mark(bytes: &[u8], from: usize, most: u8) -> Option<usize>
    requires { from ≤ length bytes.now }
    ensures { MatchOption result
        ((k : ℕ) → from ≤ k → ¬ IsMark most bytes.now k)
        (IsFirstFrom (IsMark most bytes.now) from) }
{
    let mut zeros = from;
    let mut reach = NEAR;
    while zeros < bytes.len() {
        let stop = zeros + reach.min(bytes.len() - zeros);
        let at = step_to_mark(bytes, zeros, stop, most);
        if at < stop {
            return Some(at);
        }
        zeros = next_zeros(bytes, at)?;
        reach = if zeros - at < NEAR { NEAR } else { 1 };
    }
    None
}

/// Returns the first place from `from` on with 00 00 and a byte of at most `most`, or from which there are too
/// few bytes to decide.
pub(crate) fn pass_to_mark(bytes: &[u8], from: usize, most: u8) -> usize
    requires { from ≤ length bytes.now }
    ensures order { from ≤ result }
    ensures seen { result + 2 ≤ max (from + 2) (length bytes.now) }
    ensures none { (k : ℕ) → from ≤ k → k < result → ¬ IsMark most bytes.now k }
    ensures stops { result + 2 < length bytes.now → IsMark most bytes.now result }
{
    match find_mark(bytes, from, most) {
        Some(mark) => mark,
        None => from.max(bytes.len().saturating_sub(2)),
    }
}

/// Returns the first place from `from` on after which all bytes to the end are zeros.
pub(crate) fn trim_zeros(bytes: &[u8], from: usize) -> usize
    requires { from ≤ length bytes.now }
    ensures { IsFirstFrom (λ k. AreZeros bytes.now k (length bytes.now)) from result }
{
    let mut end = bytes.len();
    while end > from && bytes[end - 1] == 0 {
        end -= 1;
    }
    end
}
