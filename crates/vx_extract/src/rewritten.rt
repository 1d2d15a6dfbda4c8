//! The sets that are sent for pictures, kept for later pictures with the same SPS and PPS.
ghost use Rattle.std.specs.Prelude.{◌≡◌, ◌<◌, ◌&&◌, IfOk, IfSome};
ghost use Rattle.vx_sps.specs.Subpictures.{subpics_of};
ghost use Rattle.vx_pic.specs.PictureLayout.{ids_of, numbers_in};
ghost use Rattle.vx_pic.specs.Sets as sets;
ghost use Rattle.vx_extract.specs.inner.Rewritings.{IsRewriting, IsRewritingOf};

use crate::shapes::{rewritten_pps, rewritten_sps};
use std::alloc::{AllocError, Global};
use vx_pic::{Picture, SetsKey};
use vx_pps::Pps;
use vx_sps::Sps;

/// The SPS and PPS that are sent for a subpicture of pictures with the same sets.
pub(crate) struct Rewritten {
    /// The key of the pictures' sets.
    source: SetsKey,
    /// The SPS that is sent.
    pub(crate) sps: Sps,
    /// The PPS that is sent.
    pub(crate) pps: Pps,
}

impl Drop for Rewritten {
    fn drop(self) {
        let Rewritten {
            source: _,
            sps: _,
            pps: _,
        } = self;
    }
}

/// States that the two sets of a picture determine its layout and the ids of its subpictures.
fn sets_tell(picture: &Picture<'_>)
    ensures layout { picture.now.layout ≡ numbers_in picture.now.sps picture.now.pps }
    ensures ids { picture.now.ids ≡ ids_of picture.now.sps picture.now.pps }
{
    let _layout = picture.layout();
    let _ids = picture.ids();
}

/// Makes the sets that are sent for a picture.
fn rewritten_for(
    alloc: Global,
    picture: &Picture<'_>,
    target: u32,
    level: Option<u8>,
) -> Result<Rewritten, AllocError>
    requires { target < subpics_of picture.now.sps }
    ensures { IfOk result (λ made. IsRewritingOf target level picture.now made) }
{
    sets_tell(picture);
    let source = SetsKey::new(alloc, picture.sps(), picture.pps())?;
    let sps = rewritten_sps(alloc, picture, target, level)?;
    let pps = rewritten_pps(alloc, picture, target)?;
    Ok(Rewritten { source, sps, pps })
}

/// Returns whether these sets were made for a picture with the same SPS and PPS.
fn is_of(kept: &Rewritten, picture: &Picture<'_>) -> bool
    ensures { result ≡ (sets.same_items kept.now.source.sps picture.now.sps && sets.same_items kept.now.source.pps picture.now.pps) }
{
    kept.source.is_of(picture.sps(), picture.pps())
}

/// Returns the sets that are sent for a picture.
///
/// They are the kept ones if the picture has the same SPS and PPS.
pub(crate) fn rewrite(
    alloc: Global,
    kept: Option<Rewritten>,
    picture: &Picture<'_>,
    target: u32,
    level: Option<u8>,
) -> Result<Rewritten, AllocError>
    requires target { target < subpics_of picture.now.sps }
    requires kept { IfSome kept (IsRewriting target level) }
    ensures { IfOk result (λ made. IsRewritingOf target level picture.now made) }
{
    sets_tell(picture);
    match kept {
        Some(kept) if is_of(&kept, picture) => Ok(kept),
        _ => rewritten_for(alloc, picture, target, level),
    }
}
