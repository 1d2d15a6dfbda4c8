//! Comparing lists of items.
ghost use Rattle.std.specs.Prelude.{◌≡◌};
ghost use Rattle.std.specs.Bool.{OnTrue};

use vx_bits::Fields;

/// Returns whether two lists have the same items.
#[tactic(auto, using(vx_pic::proofs::Sent::items_are))]
pub(crate) fn same_items(a: &Fields, b: &Fields) -> bool
    ensures { OnTrue result (a.now ≡ b.now) }
{
    vx_pic::same_items(a.as_slice(), b.as_slice())
}
