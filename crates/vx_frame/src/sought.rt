//! What is looked for in the sources of a round, and the lowest source that has it.
ghost use Rattle.std.specs.Prelude.{◌<◌, ◌≤◌, length};
ghost use Rattle.std.specs.Bool.{OnTrue, OnFalse};
ghost use Rattle.vx_fit.specs.Lowest.{IsLowestAnswer};
ghost use Rattle.vx_frame.specs.inner.Sought as words;

use crate::borders::{Pieces, crosses_otherwise, has_pieces};
use crate::collocated::Collocated;
use crate::headers::{
    has_lmcs, has_other_lmcs, has_other_scaling, has_scaling, same_first_lists, same_kind,
};
use crate::sets::has_several;
use crate::slices::names_other;
use crate::told::lowest_of;
use vx_layout::Numbers;
use vx_pic::Picture;

/// A property that a source may have.
#[derive(Clone, Copy)]
pub(crate) enum Sought<'a> {
    /// Several subpictures.
    Subpictures,
    /// A picture of another kind than source 0's.
    OtherKind,
    /// Reference picture lists in its first slice that differ from source 0's.
    OtherLists,
    /// LMCS.
    Lmcs,
    /// Scaling lists.
    Scaling,
    /// LMCS or scaling lists that differ from those of the lowest source with them.
    OtherSets {
        /// The lowest source with LMCS.
        lmcs: Option<u16>,
        /// The lowest source with scaling lists.
        scaling: Option<u16>,
    },
    /// Several tiles or slices.
    Several {
        /// Which of them.
        pieces: Pieces,
        /// The layouts of the pictures.
        layouts: &'a [Numbers],
    },
    /// Several tiles or slices, whose borders filters cross otherwise than in the lowest source with several.
    OtherFlags {
        /// The lowest source with several tiles.
        tiles: Option<u16>,
        /// The lowest source with several slices.
        slices: Option<u16>,
        /// The layouts of the pictures.
        layouts: &'a [Numbers],
    },
    /// A slice that names another collocated picture than this, the first of all.
    OtherCollocated(Option<Collocated>),
}

/// Returns whether source `k` has the property.
fn has(round: &[Picture<'_>], sought: Sought<'_>, k: usize) -> bool
    requires k { k < length round.now }
    requires known { words.IsKnown sought round.now }
    ensures has { OnTrue result (words.Has sought.entry round.now k) }
    ensures none { OnFalse result (¬ words.Has sought.entry round.now k) }
{
    let picture = &round[k];
    match sought {
        Sought::Subpictures => has_several(picture),
        Sought::OtherKind => !same_kind(picture, &round[0]),
        Sought::OtherLists => !same_first_lists(picture, &round[0]),
        Sought::Lmcs => has_lmcs(picture),
        Sought::Scaling => has_scaling(picture),
        Sought::OtherSets { lmcs, scaling } => {
            has_other_lmcs(round, lmcs, k) || has_other_scaling(round, scaling, k)
        }
        Sought::Several { pieces, layouts } => has_pieces(round, layouts, pieces, k),
        Sought::OtherFlags {
            tiles,
            slices,
            layouts,
        } => {
            crosses_otherwise(round, layouts, Pieces::Tiles, tiles, k)
                || crosses_otherwise(round, layouts, Pieces::Slices, slices, k)
        }
        Sought::OtherCollocated(first) => names_other(picture, first),
    }
}

/// Returns the lowest source that has the property.
pub(crate) fn lowest_with(round: &[Picture<'_>], sought: Sought<'_>) -> Option<u16>
    requires few { length round.now ≤ 64 }
    requires known { words.IsKnown sought round.now }
    ensures { IsLowestAnswer (length round.now) (words.Has sought.entry round.now) result }
{
    lowest_of(round.len(), move |k| has(round, sought, k))
}
