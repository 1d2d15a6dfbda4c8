//! The sets of a picture, and what they make up.
ghost use Rattle.std.specs.Prelude.{◌≡◌, ◌≤◌, length, IfOk, Ok};
ghost use Rattle.vx_bits.specs.Limits.{unit_limit};
ghost use Rattle.vx_pic.specs.PictureLayout.{AnswersLayout, ids_of};

use std::alloc::{AllocError, Global};
use vx_bits::{IdList, ReadError};
use vx_layout::Layout;
use vx_ph::PictureHeader;
use vx_pic::{picture_ids, picture_layout};
use vx_pps::{Pps, read_pps};
use vx_sh::SliceNumbers;
use vx_sps::{Sps, read_sps};

/// The sets of a picture.
#[derive(Drop)]
pub(crate) struct Sets {
    /// The SPS.
    pub(crate) sps: Sps,
    /// The PPS.
    pub(crate) pps: Pps,
}

impl Sets {
    /// Reads the sets from the RBSPs of an SPS and of a PPS.
    ///
    /// *Errors:* the first refusal; lack of memory.
    pub(crate) fn read(alloc: Global, sps: &[u8], pps: &[u8]) -> Result<Box<Sets>, ReadError>
        requires sps { length sps.now ≤ unit_limit }
        requires pps { length pps.now ≤ unit_limit }
    {
        let sets = Sets {
            sps: read_sps(alloc, sps)?,
            pps: read_pps(alloc, pps)?,
        };
        Ok(Box::new(alloc, sets).map_err(AllocError::from)?)
    }
}

/// The sets of a picture, its layout, and the ids of its subpictures.
#[derive(Drop)]
pub(crate) struct Frame<'a> {
    /// The SPS.
    pub(crate) sps: &'a Sps,
    /// The PPS.
    pub(crate) pps: &'a Pps,
    /// The tiles, slices and subpictures.
    pub(crate) layout: Layout,
    /// The ids of the subpictures.
    pub(crate) ids: IdList,
    ghost few: { length ids ≤ 1000 },
    ghost one_each: { length ids ≡ length layout.subpics },
}

impl<'a> Frame<'a> {
    /// Returns what is in force at a slice of a unit of a type, under a picture header.
    pub(crate) fn at_slice<'b>(
        &'b self,
        nal_type: u8,
        header: &'b PictureHeader,
    ) -> SliceNumbers<'b>
        ensures sps { result.sps.now ≡ self.now.sps.now }
        ensures pps { result.pps.now ≡ self.now.pps.now }
        ensures header { result.header.now ≡ header.now }
        ensures nal_type { result.nal_type ≡ nal_type }
        ensures layout { result.layout.now ≡ self.now.layout }
        ensures ids { result.ids.now ≡ self.now.ids }
        ensures few { length result.ids.now ≤ 1000 }
        ensures one_each { length result.ids.now ≡ length result.layout.now.subpics }
    {
        SliceNumbers {
            nal_type,
            sps: self.sps,
            pps: self.pps,
            header,
            layout: &self.layout,
            ids: &self.ids,
        }
    }
}

/// Returns what two sets make up.
///
/// *Errors:* the lowest fault of the layout; lack of memory.
pub(crate) fn frame_of<'a>(
    alloc: Global,
    sps: &'a Sps,
    pps: &'a Pps,
) -> Result<Frame<'a>, ReadError>
    ensures sps { IfOk result (λ frame. frame.sps.now ≡ sps.now) }
    ensures pps { IfOk result (λ frame. frame.pps.now ≡ pps.now) }
    ensures layout { IfOk result (λ frame. AnswersLayout sps.now pps.now (Ok frame.layout)) }
    ensures ids { IfOk result (λ frame. frame.ids ≡ ids_of sps.now pps.now) }
{
    let layout = picture_layout(alloc, sps, pps)?;
    let ids = picture_ids(alloc, sps, pps)?;
    Ok(Frame {
        sps,
        pps,
        layout,
        ids,
    })
}
