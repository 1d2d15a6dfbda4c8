//! The rule on in-loop filters across borders.
ghost use Rattle.std.specs.Prelude.{◌≡◌, ◌<◌, ◌≤◌, ◌∷◌, [], false, length};
ghost use Rattle.std.specs.Bool.{OnTrue, OnFalse};
ghost use Rattle.vx_fit.specs.Lowest.{IsLowestAnswer};
ghost use Rattle.vx_frame.specs.Regions as regions;
ghost use Rattle.vx_frame.specs.Rounds.{UnlikeLowest, picture_at};
ghost use Rattle.vx_frame.specs.Rules as rules;
ghost use Rattle.vx_frame.specs.Shapes.{of_lowest};
ghost use Rattle.vx_frame.specs.inner.Borders as borders;
ghost use Rattle.vx_frame.specs.inner.Found.{Finds};
ghost use Rattle.vx_frame.specs.inner.Gathered.{IsLowestWith};

use crate::sought::{Sought, lowest_with};
use crate::told::of_source;
use vx_bits::Refusal;
use vx_bits::rules::FILTER_FLAGS;
use vx_fields::pps::{
    pps_loop_filter_across_slices_enabled_flag, pps_loop_filter_across_tiles_enabled_flag,
};
use vx_layout::Numbers;
use vx_pic::{Picture, several_slices, several_tiles};
use vx_write::in_pps;

/// Pieces of a picture whose borders in-loop filters may cross.
#[derive(Clone, Copy)]
pub(crate) enum Pieces {
    /// Tiles.
    Tiles,
    /// Slices.
    Slices,
}

/// Returns whether in-loop filters cross the borders of such pieces.
fn crosses(picture: &Picture<'_>, pieces: Pieces) -> bool
    ensures { result ≡ borders.crosses pieces picture.now }
{
    match pieces {
        Pieces::Tiles => in_pps(picture, pps_loop_filter_across_tiles_enabled_flag) != 0,
        Pieces::Slices => in_pps(picture, pps_loop_filter_across_slices_enabled_flag) != 0,
    }
}

/// Returns whether source `k` has several such pieces.
pub(crate) fn has_pieces(
    _round: &[Picture<'_>],
    layouts: &[Numbers],
    pieces: Pieces,
    k: usize,
) -> bool
    requires layouts { layouts.now ≡ regions.layouts_in _round.now }
    requires k { k < length _round.now }
    ensures { result ≡ borders.has_several pieces (picture_at _round.now k) }
{
    match pieces {
        Pieces::Tiles => several_tiles(&layouts[k]),
        Pieces::Slices => several_slices(&layouts[k]),
    }
}

/// Returns the lowest source with several such pieces.
fn lowest_with_several(round: &[Picture<'_>], layouts: &[Numbers], pieces: Pieces) -> Option<u16>
    requires few { length round.now ≤ 64 }
    requires layouts { layouts.now ≡ regions.layouts_in round.now }
    ensures { IsLowestWith (borders.has_several pieces) round.now result }
{
    lowest_with(round, Sought::Several { pieces, layouts })
}

/// Returns whether in-loop filters cross their borders in the lowest source with several.
pub(crate) fn lowest_crosses(round: &[Picture<'_>], layouts: &[Numbers], pieces: Pieces) -> bool
    requires few { length round.now ≤ 64 }
    requires layouts { layouts.now ≡ regions.layouts_in round.now }
    ensures { result ≡ of_lowest (borders.has_several pieces) (borders.crosses pieces) false round.now }
{
    match lowest_with_several(round, layouts, pieces) {
        Some(k) => crosses(&round[usize::from(k)], pieces),
        None => false,
    }
}

/// Returns whether source `k` has several, and filters cross their borders otherwise than in the lowest source with several.
pub(crate) fn crosses_otherwise(
    round: &[Picture<'_>],
    layouts: &[Numbers],
    pieces: Pieces,
    lowest: Option<u16>,
    k: usize,
) -> bool
    requires layouts { layouts.now ≡ regions.layouts_in round.now }
    requires k { k < length round.now }
    requires lowest { IsLowestWith (borders.has_several pieces) round.now lowest }
    ensures unlike { OnTrue result (UnlikeLowest (borders.has_several pieces) (borders.crosses pieces) round.now k) }
    ensures alike { OnFalse result (¬ UnlikeLowest (borders.has_several pieces) (borders.crosses pieces) round.now k) }
{
    let Some(j) = lowest else {
        return false;
    };
    if !has_pieces(round, layouts, pieces, k) {
        return false;
    }
    crosses(&round[k], pieces) != crosses(&round[usize::from(j)], pieces)
}

/// Returns the lowest source in which filters cross borders otherwise.
fn lowest_crossed_otherwise(round: &[Picture<'_>], layouts: &[Numbers]) -> Option<u16>
    requires few { length round.now ≤ 64 }
    requires layouts { layouts.now ≡ regions.layouts_in round.now }
    ensures { IsLowestAnswer (length round.now) (rules.filter_flags round.now).breaks result }
{
    let tiles = lowest_with_several(round, layouts, Pieces::Tiles);
    let slices = lowest_with_several(round, layouts, Pieces::Slices);
    lowest_with(
        round,
        Sought::OtherFlags {
            tiles,
            slices,
            layouts,
        },
    )
}

/// Returns the refusal of a source in which filters cross borders otherwise than in another.
pub(crate) fn filter_flags(round: &[Picture<'_>], layouts: &[Numbers]) -> Option<Refusal>
    requires few { length round.now ≤ 64 }
    requires layouts { layouts.now ≡ regions.layouts_in round.now }
    ensures { Finds (length round.now) (rules.filter_flags round.now ∷ []) result }
{
    of_source(FILTER_FLAGS, lowest_crossed_otherwise(round, layouts))
}
