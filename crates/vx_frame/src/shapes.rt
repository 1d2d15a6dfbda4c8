//! What the sets of a frame say (H.266 7.4.3.4, 7.4.3.5).
ghost use Rattle.std.specs.Prelude.{◌≡◌, ◌==◌, ◌||◌, ◌≤ℤ◌, pos, neg_ℤ, All, length};
ghost use Rattle.std.specs.List.{list_any};
ghost use Rattle.vx_fields.specs.declared.ptl.TheConstants as ptl_fields;
ghost use Rattle.vx_fields.specs.declared.pps.TheConstants as pps_fields;
ghost use Rattle.vx_fields.specs.declared.dpb.TheConstants as dpb_fields;
ghost use Rattle.vx_fit.specs.Placing.{IsInRange, frame_width, frame_height};
ghost use Rattle.vx_pic.specs.Sets.{signed};
ghost use Rattle.vx_frame.specs.Shapes as spec;
ghost use Rattle.vx_frame.specs.inner.Edges as edges;

use vx_fields::dpb::{
    dpb_max_dec_pic_buffering_minus1, dpb_max_latency_increase_plus1, dpb_max_num_reorder_pics,
};
use vx_fields::pps::pps_init_qp_minus26;
use vx_fields::sps::{
    sps_conf_win_bottom_offset, sps_conf_win_left_offset, sps_conf_win_right_offset,
    sps_conf_win_top_offset,
};
use vx_fit::Placed;
use vx_pic::Picture;
use vx_write::{in_sps, own_level};

// ---- the window

/// An edge of a frame.
#[derive(Clone, Copy)]
pub(crate) enum Edge {
    /// The left edge.
    Left,
    /// The right edge of a frame with this width.
    Right(u32),
    /// The upper edge.
    Top,
    /// The lower edge of a frame with this height.
    Bottom(u32),
}

/// Returns whether a region touches an edge.
fn touches(edge: Edge, region: &Placed) -> bool
    requires { IsInRange region.now }
    ensures { result ≡ edges.touches edge region.now }
{
    match edge {
        Edge::Left => region.x == 0,
        Edge::Right(width) => region.x + region.w == width,
        Edge::Top => region.y == 0,
        Edge::Bottom(height) => region.y + region.h == height,
    }
}

/// Returns the smaller of two offsets, or `offset` if there is no other.
fn lesser(least: Option<u32>, offset: u32) -> u32
    ensures { result ≡ edges.lesser least offset }
{
    match least {
        Some(least) => least.min(offset),
        None => offset,
    }
}

/// Returns the smallest offset with one more region, which counts if it touches the edge.
fn with_offset(least: Option<u32>, is_there: bool, offset: u32) -> Option<u32>
    ensures { result ≡ edges.with_offset least is_there offset }
{
    if is_there {
        return Some(lesser(least, offset));
    }
    least
}

/// Returns the smallest offset of the windows of the regions that touch an edge.
fn least_offset(edge: Edge, field: u16, placed: &[Placed], round: &[Picture<'_>]) -> u32
    requires same { length placed.now ≡ length round.now }
    requires range { All IsInRange placed.now }
    ensures { result ≡ spec.least (spec.offsets_at (edges.touches edge) field placed.now round.now) }
{
    let mut least = None;
    for k in 0..round.len() {
        let is_there = touches(edge, &placed[k]);
        least = with_offset(least, is_there, in_sps(&round[k], field));
    }
    least.unwrap_or(0)
}

/// Returns the offsets of the conformance window: left, right, top, bottom.
pub(crate) fn window(placed: &[Placed], round: &[Picture<'_>], width: u32, height: u32) -> [u32; 4]
    requires same { length placed.now ≡ length round.now }
    requires range { All IsInRange placed.now }
    requires wide { width ≡ frame_width placed.now }
    requires high { height ≡ frame_height placed.now }
    ensures { result ≡ spec.frame_window placed.now round.now }
{
    [
        least_offset(Edge::Left, sps_conf_win_left_offset, placed, round),
        least_offset(Edge::Right(width), sps_conf_win_right_offset, placed, round),
        least_offset(Edge::Top, sps_conf_win_top_offset, placed, round),
        least_offset(
            Edge::Bottom(height),
            sps_conf_win_bottom_offset,
            placed,
            round,
        ),
    ]
}

// ---- numbers of several pictures

/// Returns the greatest number that the SPSs have for a field.
fn greatest(round: &[Picture<'_>], field: u16) -> u32
    ensures { result ≡ spec.greatest (spec.numbers_in_round round.now field) }
{
    let mut greatest = 0;
    for k in 0..round.len() {
        greatest = in_sps(&round[k], field).max(greatest);
    }
    greatest
}

/// Returns whether `a` or `b` holds.
fn either(a: bool, b: bool) -> bool
    ensures { result ≡ (a || b) }
{
    a || b
}

/// Returns whether an SPS has the number 0 for a field.
fn has_zero(round: &[Picture<'_>], field: u16) -> bool
    ensures { result ≡ list_any (λ n. n == 0) (spec.numbers_in_round round.now field) }
{
    let mut found = false;
    for k in 0..round.len() {
        found = either(found, in_sps(&round[k], field) == 0);
    }
    found
}

/// Returns the latency of the highest sublayer.
fn latency(round: &[Picture<'_>]) -> u32
    ensures { result ≡ spec.latency_of (spec.numbers_in_round round.now dpb_fields.dpb_max_latency_increase_plus1) }
{
    if has_zero(round, dpb_max_latency_increase_plus1) {
        return 0;
    }
    greatest(round, dpb_max_latency_increase_plus1)
}

/// Returns the DPB parameters of the highest sublayer.
pub(crate) fn dpb(round: &[Picture<'_>]) -> [u32; 3]
    ensures { result ≡ spec.frame_dpb round.now }
{
    [
        greatest(round, dpb_max_dec_pic_buffering_minus1),
        greatest(round, dpb_max_num_reorder_pics),
        latency(round),
    ]
}

/// Returns the highest level of the pictures.
fn highest_level(round: &[Picture<'_>]) -> u8
    ensures { result ≡ spec.greatest (spec.numbers_in_round round.now ptl_fields.general_level_idc) }
{
    let mut highest = 0;
    for k in 0..round.len() {
        highest = own_level(&round[k]).max(highest);
    }
    highest
}

/// Returns the level asked for, or otherwise the highest of the pictures.
pub(crate) fn level_of(round: &[Picture<'_>], level: Option<u8>) -> u8
    ensures { result ≡ spec.frame_level round.now level }
{
    level.unwrap_or(highest_level(round))
}

// ---- the PPS

/// Returns the same number in fewer bits.
fn narrowed(qp: i64) -> i32
    requires { (neg_ℤ (pos 38) ≤ℤ qp) × (qp ≤ℤ pos 37) }
    ensures { result ≡ qp }
{
    qp as i32
}

/// Returns the QP of a picture's PPS, minus 26.
pub fn init_qp(picture: &Picture<'_>) -> i32
    ensures value { result ≡ signed picture.now.pps pps_fields.pps_init_qp_minus26 }
    ensures range { (neg_ℤ (pos 38) ≤ℤ result) × (result ≤ℤ pos 37) }
{
    let fields = picture.pps().fields();
    narrowed(fields.first(pps_init_qp_minus26).unwrap_or(0))
}
