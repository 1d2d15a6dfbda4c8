//! Where decoding inputs differ.
ghost use Rattle.std.specs.Prelude.{◌≡◌, ◌<◌, ◌≤◌, Some, length, slice_get, IfOk};
ghost use Rattle.vx_pic.specs.Differences.{IsDifference};
ghost use Rattle.vx_pic.specs.Inputs.{input_in, inputs_in};
ghost use Rattle.vx_pic.specs.Parts.{SlicePart};
ghost use Rattle.vx_verify.specs.Verified as words;
ghost use Rattle.vx_verify.specs.inner.Found.{AllOf, FindsInput, TellsSlice};

use crate::mismatch::Mismatch;
use crate::places::places;
use std::alloc::{AllocError, Global};
use vx_pic::{Difference, Picture, decoding_input, same_input};

/// A slice of a subpicture, and where its decoding input differs from another.
#[derive(Clone, Copy)]
pub(crate) struct Differing {
    /// The slice, from 0.
    pub(crate) slice: u32,
    /// Where the inputs differ first.
    pub(crate) difference: Difference,
}

/// Returns where the decoding inputs of two slices differ first.
fn difference_at(
    alloc: Global,
    finished: &Picture<'_>,
    place: u32,
    source: &Picture<'_>,
    other: u32,
) -> Result<Option<Difference>, AllocError>
    requires place { place < length finished.now.slices }
    requires other { other < length source.now.slices }
    ensures { (s t : SlicePart) → slice_get finished.now.slices place ≡ Some s → slice_get source.now.slices other ≡ Some t
        → IfOk result (IsDifference (input_in finished.now s) (input_in source.now t)) }
{
    let input = decoding_input(alloc, finished, place)?;
    let own = decoding_input(alloc, source, other)?;
    Ok(same_input(&input, &own))
}

/// Returns the first slice at which subpicture `k` and a source's picture have different decoding inputs.
fn differing_slice(
    alloc: Global,
    finished: &Picture<'_>,
    k: u32,
    source: &Picture<'_>,
) -> Result<Option<Differing>, AllocError>
    requires { words.HasAsMany finished.now k source.now }
    ensures { IfOk result (TellsSlice (inputs_in finished.now k) (inputs_in source.now 0)) }
{
    let own = places(alloc, finished, k)?;
    let others = places(alloc, source, 0)?;
    for i in 0..own.len() {
        let found = difference_at(alloc, finished, own[i], source, others[i])?;
        if let Some(difference) = found {
            return Ok(Some(Differing {
                slice: i as u32,
                difference,
            }));
        }
    }
    Ok(None)
}

/// C4: returns the lowest source with a slice whose decoding inputs differ, and the first such slice.
pub(crate) fn input_mismatch(
    alloc: Global,
    finished: &Picture<'_>,
    round: &[Picture<'_>],
) -> Result<Option<Mismatch>, AllocError>
    requires few { length round.now ≤ 64 }
    requires as_many { AllOf round.now (words.HasAsMany finished.now) }
    ensures { IfOk result (FindsInput finished.now round.now) }
{
    for k in 0..round.len() {
        let found = differing_slice(alloc, finished, k as u32, &round[k])?;
        if let Some(differing) = found {
            return Ok(Some(Mismatch::Input {
                file: k as u16 + 1,
                slice: differing.slice,
                difference: differing.difference,
            }));
        }
    }
    Ok(None)
}
