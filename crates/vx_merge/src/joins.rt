//! The rule on pictures that come after a join.
ghost use Rattle.std.specs.Prelude.{◌≡◌, ◌≤◌, ◌∷◌, [], cond, length};
ghost use Rattle.std.specs.Bool.{OnTrue, OnFalse};
ghost use Rattle.vx_fit.specs.Lowest.{IsLowestAnswer};
ghost use Rattle.vx_frame.specs.inner.Found.{Finds};
ghost use Rattle.vx_merge.specs.Joins as words;
ghost use Rattle.vx_merge.specs.Joins.{CanStart};

use vx_bits::Refusal;
use vx_bits::rules::JOIN_START;
use vx_fields::ph::ph_non_ref_pic_flag;
use vx_frame::{lowest_source, of_source};
use vx_pic::{Picture, number_of};

/// Returns whether a picture may not come first after a join.
fn cannot_start(picture: &Picture<'_>) -> bool
    ensures cannot { OnTrue result (¬ CanStart picture.now) }
    ensures can { OnFalse result (CanStart picture.now) }
{
    let kind = picture.kind();
    if !kind.clvss {
        return true;
    }
    if kind.temporal_id != 0 {
        return true;
    }
    number_of(&picture.header().fields, ph_non_ref_pic_flag) != 0
}

/// Returns the lowest source whose picture may not come first after a join.
#[tactic(auto, using(vx_frame::proofs::FirstTold::lowest_told))]
fn lowest_unable(round: &[Picture<'_>]) -> Option<u16>
    requires { length round.now ≤ 64 }
    ensures { IsLowestAnswer (length round.now) (words.join_start round.now).breaks result }
{
    lowest_source(round, cannot_start)
}

/// Returns the refusal of a round that can't be joined (M15).
fn join_start(round: &[Picture<'_>]) -> Option<Refusal>
    requires { length round.now ≤ 64 }
    ensures { Finds (length round.now) (words.join_start round.now ∷ []) result }
{
    of_source(JOIN_START, lowest_unable(round))
}

/// Returns the refusal of a round that is to be joined and can't be (M15).
pub(crate) fn join_refusal(joins: bool, round: &[Picture<'_>]) -> Option<Refusal>
    requires { length round.now ≤ 64 }
    ensures { Finds (length round.now) (cond joins (words.join_start round.now ∷ []) []) result }
{
    if joins {
        return join_start(round);
    }
    None
}
