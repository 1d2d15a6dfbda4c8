//! The frame of a round that breaks no rule.
ghost use Rattle.std.specs.Prelude.{◌≡◌, ◌<◌, ◌≤◌, ◌++◌, length, IfSome};
ghost use Rattle.vx_frame.specs.Corners.{AreCorners};
ghost use Rattle.vx_frame.specs.Rules.{rules_of, rules_of_pictures, rules_of_slices};
ghost use Rattle.vx_frame.specs.inner.Found.{ChecksRules, Tries};
ghost use Rattle.vx_frame.specs.inner.Frames.{IsFrameOf, IsKeptFrame, KnownWhereKept, SomePassed};
ghost use Rattle.vx_frame.specs.inner.Gathered.{AreGathered};

use crate::bodies::RoundBodies;
use crate::corner::Corner;
use crate::frame::{Frame, RoundFrame, round_frame, whole_frame};
use crate::verdict::verdict;
use std::alloc::Global;
use vx_pic::Picture;
use vx_write::WriteError;

/// Checks that the pictures of a round break no rule. Its sets break none.
///
/// *Errors:* the first rule that the pictures break, or lack of memory.
fn check_pictures(
    alloc: Global,
    round: &[Picture<'_>],
    bodies: &RoundBodies<'_>,
    frame: &RoundFrame,
) -> Result<(), WriteError>
    requires count { (0 < length round.now) × (length round.now ≤ 64) }
    requires bodies { AreGathered round.now bodies.now }
    requires frame { KnownWhereKept (SomePassed round.now) round.now frame.now }
    ensures { ChecksRules (length round.now) (rules_of_pictures round.now ++ rules_of_slices round.now) result }
{
    let found = verdict(alloc, round, bodies, frame)?;
    match found {
        Some(refusal) => Err(WriteError::Refused(refusal)),
        None => Ok(()),
    }
}

/// Returns the frame of a round that breaks no rule.
///
/// `kept` is used again only if all pictures have the sets that it was made for. `level` is the level to write; `None` means the highest
/// of the pictures'. `bodies` is what [`round_bodies`](crate::round_bodies) collects. *Errors:* `Refused`: the first rule that the round
/// breaks. `Memory`.
pub fn sound_frame(
    alloc: Global,
    corners: &[Corner],
    level: Option<u8>,
    kept: Option<Box<Frame>>,
    round: &[Picture<'_>],
    bodies: &RoundBodies<'_>,
) -> Result<Box<Frame>, WriteError>
    requires corners { AreCorners corners.now }
    requires same { length corners.now ≡ length round.now }
    requires kept { IfSome kept (λ f. IsKeptFrame corners.now level f.value) }
    requires bodies { AreGathered round.now bodies.now }
    ensures { Tries (length round.now) (rules_of corners.now round.now) (λ f. IsFrameOf corners.now level round.now f.value) result }
{
    let begun = round_frame(alloc, corners, kept, round)?;
    check_pictures(alloc, round, bodies, &begun)?;
    let frame = whole_frame(alloc, level, begun, round)?;
    Ok(frame)
}
