//! The place of a slice in its subpicture.
ghost use Rattle.std.specs.Prelude.{◌≡◌, ◌<◌, ◌&&◌, length, IfOk};
ghost use Rattle.vx_table.specs.Scope.{is_set};
ghost use Rattle.vx_pic.specs.Inputs.{luma_size, has_several_tiles, has_several_slices, place_in};

use crate::picture::Picture;
use std::alloc::{AllocError, Global};
use vx_fields::pps::{
    pps_loop_filter_across_slices_enabled_flag, pps_loop_filter_across_tiles_enabled_flag,
};
use vx_layout::Numbers;

/// The place of a slice, counted from the corner of its subpicture.
#[derive(Drop)]
pub struct Place {
    /// The width of the subpicture in luma samples.
    pub width: u32,
    /// Its height in luma samples.
    pub height: u32,
    /// Its tiles and slices, in CTUs from its corner; it is itself the one subpicture.
    pub layout: Numbers,
    /// The address of the slice in it.
    pub address: u32,
    /// Whether in-loop filters cross the borders of its tiles; false if it has only one.
    pub across_tiles: bool,
    /// Whether in-loop filters cross the borders of its slices; false if it has only one.
    pub across_slices: bool,
}

/// Returns the luma samples of `size` CTUs from `from` on, in a picture of `total` samples.
pub fn luma_size_of(from: u32, size: u32, ctb: u32, total: u32) -> u32
    ensures { result ≡ luma_size from size ctb total }
{
    let end = (u64::from(from) + u64::from(size)).saturating_mul(u64::from(ctb));
    let end = end.min(u64::from(total));
    end.saturating_sub(u64::from(from) * u64::from(ctb)) as u32
}

/// Returns whether a layout has several tiles.
pub fn several_tiles(layout: &Numbers) -> bool
    ensures { result ≡ has_several_tiles layout.now }
{
    layout.columns.len() > 2 || layout.rows.len() > 2
}

/// Returns whether a layout has several slices.
pub fn several_slices(layout: &Numbers) -> bool
    ensures { result ≡ has_several_slices layout.now }
{
    layout.slices.len() > 1
}

/// Returns whether in-loop filters cross borders, by their flag, if there are any.
fn crosses(several: bool, flag: u32) -> bool
    ensures { result ≡ (several && is_set flag) }
{
    several && flag != 0
}

/// Returns the place of the slice at an address of a subpicture.
pub(crate) fn place_of(
    alloc: Global,
    picture: &Picture<'_>,
    subpic: u32,
    address: u32,
) -> Result<Place, AllocError>
    requires { subpic < length picture.now.layout.subpics }
    ensures { IfOk result (λ place. place ≡ place_in picture.now subpic address) }
{
    let (sps, pps) = (picture.sps(), picture.pps());
    let layout = picture.layout().region(alloc, subpic)?;
    let rect = picture.rect(subpic);
    let across_tiles = pps
        .scope()
        .latest(pps_loop_filter_across_tiles_enabled_flag);
    let across_slices = pps
        .scope()
        .latest(pps_loop_filter_across_slices_enabled_flag);
    let (tiles, slices) = (several_tiles(&layout), several_slices(&layout));
    Ok(Place {
        width: luma_size_of(rect.x, rect.w, sps.ctb(), pps.width()),
        height: luma_size_of(rect.y, rect.h, sps.ctb(), pps.height()),
        layout,
        address,
        across_tiles: crosses(tiles, across_tiles),
        across_slices: crosses(slices, across_slices),
    })
}
