//! What the rules on pictures, and the sets that are sent, need of the adaptation parameter sets of a round.
ghost use Rattle.std.specs.Prelude.{◌≤◌, length, IfOk};
ghost use Rattle.vx_frame.specs.inner.Gathered.{AreGathered};

use crate::filters::{RoundFilters, round_filters};
use crate::headers::{lowest_with_lmcs, lowest_with_scaling};
use std::alloc::{AllocError, Global};
use vx_pic::Picture;

/// Facts about the adaptation parameter sets of a round's pictures.
#[derive(Drop)]
pub struct RoundBodies<'a> {
    /// The adaptive loop filters in force in slices.
    pub filters: RoundFilters<'a>,
    /// The lowest source whose header has luma mapping with chroma scaling.
    pub lmcs: Option<u16>,
    /// The lowest source whose header has scaling lists.
    pub scaling: Option<u16>,
}

/// Collects facts about the adaptation parameter sets of a round's pictures.
///
/// *Errors:* [`AllocError`] if memory runs out.
pub fn round_bodies<'a>(alloc: Global, round: &[Picture<'a>]) -> Result<RoundBodies<'a>, AllocError>
    requires { length round.now ≤ 64 }
    ensures { IfOk result (AreGathered round.now) }
{
    let filters = round_filters(alloc, round)?;
    Ok(RoundBodies {
        filters,
        lmcs: lowest_with_lmcs(round),
        scaling: lowest_with_scaling(round),
    })
}
