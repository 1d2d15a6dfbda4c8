//! The frame of a round, made from its sets and kept for later rounds with the same sets.
ghost use Rattle.std.specs.Prelude.{◌≡◌, ◌≢◌, ◌<◌, ◌++◌, ◌∷◌, [], All, List, Option, ℕ, length, map, IfOk, IfSome, OnOk};
ghost use Rattle.std.specs.Bool.{OnTrue};
ghost use Rattle.vx_layout.specs.Faults.{IsInLimits, IsLayout};
ghost use Rattle.vx_write.specs.InForce.{AreInForce};
ghost use Rattle.vx_frame.specs.declared.corner.Corner.{Corner as AnyCorner};
ghost use Rattle.vx_frame.specs.Corners.{AreCorners};
ghost use Rattle.vx_frame.specs.Rules.{rules_of_sets};
ghost use Rattle.vx_frame.specs.inner.Found.{Tries};
ghost use Rattle.vx_frame.specs.inner.Frames as words;
ghost use Rattle.vx_frame.specs.inner.Frames.{AreSetsOf, HasPps, HasSetsOf, IsFrameOf, IsKeptFrame, IsPpsFor, IsRoundFrame, IsSomeKept, IsSomeRound, IsSomeUsed, IsSpsFor, ServesAs};
ghost use Rattle.vx_frame.specs.inner.Geometry.{IsRoundGeometry, IsSomeGeometry, OfGeometry};

use crate::corner::Corner;
use crate::frame_sets::{copied_numbers, frame_pps, frame_sps};
use crate::geometry::{FrameGeometry, frame_geometry};
use crate::regions::too_many_slices;
use std::alloc::{AllocError, Global};
use std::mem::replace;
use vx_layout::{Layout, LayoutError};
use vx_pic::{Picture, SetsKey};
use vx_pps::Pps;
use vx_sps::Sps;
use vx_write::{WriteError, sets_in_force};

/// The frame's PPS under an id other than 0.
#[derive(Drop)]
pub(crate) struct RenamedPps {
    /// The id.
    pub(crate) id: u8,
    /// The PPS.
    pub(crate) pps: Pps,
}

/// The frame of a round, made from its sets; it is kept as long as they stay the same.
///
/// Its SPS and PPS are rewritten from source 0's:
///
/// - the frame's size and window,
/// - the level asked for, or else the highest of the sources,
/// - the greatest DPB numbers,
/// - each region as a subpicture whose id is its index,
/// - the tiles and slices of all pictures.
pub struct Frame {
    /// The key of each source's sets.
    pub(crate) sources: Vec<SetsKey>,
    /// The geometry of the frame.
    pub geometry: FrameGeometry,
    /// The layout of the frame.
    pub layout: Layout,
    /// The frame's SPS, with id 0.
    pub sps: Sps,
    /// The frame's PPS under the id 0.
    pub plain: Pps,
    /// The frame's PPS under the last other id that it took.
    pub(crate) renamed: Option<RenamedPps>,
}

impl Drop for Frame {
    fn drop(self) {
        let Frame {
            sources: _,
            geometry: _,
            layout: _,
            sps: _,
            plain: _,
            renamed: _,
        } = self;
    }
}

/// The frame of a round whose sets break no rule, as far as it is made.
#[derive(Drop)]
pub(crate) enum RoundFrame {
    /// A frame that was kept, made for the same sets.
    Kept(Box<Frame>),
    /// A new frame, with this geometry.
    New(FrameGeometry),
}

/// The sets of a frame.
#[derive(Drop)]
struct FrameSets {
    /// The frame's SPS.
    sps: Sps,
    /// The frame's PPS under the id 0.
    plain: Pps,
}

/// What a frame has besides its geometry.
#[derive(Drop)]
struct FrameParts {
    /// The key of each source's sets.
    sources: Vec<SetsKey>,
    /// The layout of the frame.
    layout: Layout,
    /// The sets of the frame.
    sets: FrameSets,
}

// ---- the sets of a round

/// Appends the key of a picture's sets.
fn add_sets(
    alloc: Global,
    sources: &mut Vec<SetsKey>,
    picture: &Picture<'_>,
) -> Result<(), AllocError>
    requires { AreInForce picture.now }
    ensures { OnOk result (map words.sets_in sources.new.items ≡ map words.sets_in sources.old.items ++ words.sets_of picture.now ∷ []) }
{
    let key = SetsKey::new(alloc, picture.sps(), picture.pps())?;
    sources.push(key)?;
    Ok(())
}

/// Returns the key of each picture's sets.
fn sources(alloc: Global, round: &[Picture<'_>]) -> Result<Vec<SetsKey>, AllocError>
    requires { All AreInForce round.now }
    ensures { IfOk result (λ own. AreSetsOf round.now own.items) }
{
    let mut sources = Vec::new(alloc);
    for k in 0..round.len() {
        add_sets(alloc, &mut sources, &round[k])?;
    }
    Ok(sources)
}

/// Returns whether a picture has these sets.
fn has_sets(picture: &Picture<'_>, own: &SetsKey) -> bool
    ensures same { OnTrue result (words.sets_in own.now ≡ words.sets_of picture.now) }
    ensures sets { AreInForce picture.now }
{
    // This reads nothing: contracts learn about a picture only from its calls.
    sets_in_force(picture);
    own.is_of(picture.sps(), picture.pps())
}

/// Returns whether the pictures of a round have these sets.
fn have_sets(round: &[Picture<'_>], sources: &[SetsKey]) -> bool
    requires { length sources.now ≡ length round.now }
    ensures same { OnTrue result (AreSetsOf round.now sources.now) }
    ensures sets { OnTrue result (All AreInForce round.now) }
{
    for k in 0..round.len() {
        if !has_sets(&round[k], &sources[k]) {
            return false;
        }
    }
    true
}

// ---- what the rules on sets leave

/// Makes the beginning of a new frame.
fn new_frame(
    alloc: Global,
    corners: &[Corner],
    round: &[Picture<'_>],
) -> Result<RoundFrame, WriteError>
    requires corners { AreCorners corners.now }
    requires same { length corners.now ≡ length round.now }
    ensures { (level : Option ℕ) → Tries (length round.now) (rules_of_sets corners.now round.now) (IsRoundFrame corners.now level round.now) result }
{
    let geometry = frame_geometry(alloc, corners, round)?;
    Ok(RoundFrame::New(geometry))
}

/// Returns the kept frame if it was made for the same sets, and the beginning of a new one otherwise.
///
/// *Errors:* the first rule that the sets break, or lack of memory.
pub(crate) fn round_frame(
    alloc: Global,
    corners: &[Corner],
    kept: Option<Box<Frame>>,
    round: &[Picture<'_>],
) -> Result<RoundFrame, WriteError>
    requires corners { AreCorners corners.now }
    requires same { length corners.now ≡ length round.now }
    requires kept { IfSome kept (λ f. IsSomeKept corners.now f.value) }
    ensures { (level : Option ℕ) → IfSome kept (λ f. IsKeptFrame corners.now level f.value)
        → Tries (length round.now) (rules_of_sets corners.now round.now) (IsRoundFrame corners.now level round.now) result }
{
    let Some(frame) = kept else {
        return new_frame(alloc, corners, round);
    };
    if !have_sets(round, frame.sources.as_slice()) {
        return new_frame(alloc, corners, round);
    }
    if let Some(refusal) = too_many_slices(round) {
        return Err(WriteError::Refused(refusal));
    }
    Ok(RoundFrame::Kept(frame))
}

// ---- what is made of them

/// Makes the layout of a frame.
fn layout_of(alloc: Global, geometry: &FrameGeometry) -> Result<Layout, AllocError>
    requires layout { IsLayout geometry.now.numbers }
    requires limits { IsInLimits geometry.now.numbers }
    ensures { IfOk result (λ layout. layout ≡ geometry.now.numbers) }
{
    let numbers = copied_numbers(alloc, &geometry.numbers)?;
    match Layout::new(alloc, numbers) {
        Ok(layout) => Ok(layout),
        Err(LayoutError::Memory) => Err(AllocError),
        Err(LayoutError::Fault(_)) => unreachable!(),
    }
}

/// Makes the frame's SPS, with this level or the highest of its pictures, and its PPS under the id 0.
fn sets_for(
    alloc: Global,
    round: &[Picture<'_>],
    geometry: &FrameGeometry,
    level: Option<u8>,
) -> Result<FrameSets, AllocError>
    requires { IsSomeGeometry round.now geometry.now }
    ensures sps { IfOk result (λ sets. OfGeometry round.now geometry.now (λ corners. IsSpsFor corners round.now level sets.sps)) }
    ensures plain { IfOk result (λ sets. OfGeometry round.now geometry.now (λ corners. IsPpsFor corners round.now geometry.now.numbers 0 sets.plain)) }
{
    let sps = frame_sps(alloc, round, geometry, level)?;
    let plain = frame_pps(alloc, round, geometry, 0)?;
    Ok(FrameSets { sps, plain })
}

/// Makes what the frame with this geometry has besides it.
fn parts_for(
    alloc: Global,
    round: &[Picture<'_>],
    geometry: &FrameGeometry,
    level: Option<u8>,
) -> Result<FrameParts, AllocError>
    requires { (corners : List AnyCorner) × IsRoundGeometry corners round.now geometry.now }
    ensures sources { IfOk result (λ parts. AreSetsOf round.now parts.sources.items) }
    ensures layout { IfOk result (λ parts. parts.layout ≡ geometry.now.numbers) }
    ensures sps { IfOk result (λ parts. OfGeometry round.now geometry.now (λ corners. IsSpsFor corners round.now level parts.sets.sps)) }
    ensures plain { IfOk result (λ parts. OfGeometry round.now geometry.now (λ corners. IsPpsFor corners round.now geometry.now.numbers 0 parts.sets.plain)) }
{
    let sources = sources(alloc, round)?;
    let layout = layout_of(alloc, geometry)?;
    let sets = sets_for(alloc, round, geometry, level)?;
    Ok(FrameParts {
        sources,
        layout,
        sets,
    })
}

/// Makes the frame with this geometry.
#[cold]
#[inline(never)]
fn frame_with(
    alloc: Global,
    level: Option<u8>,
    geometry: FrameGeometry,
    round: &[Picture<'_>],
) -> Result<Box<Frame>, AllocError>
    requires { (corners : List AnyCorner) × IsRoundGeometry corners round.now geometry }
    ensures { (corners : List AnyCorner) → IsRoundGeometry corners round.now geometry → IfOk result (λ f. IsFrameOf corners level round.now f.value) }
{
    let FrameParts {
        sources,
        layout,
        sets: FrameSets { sps, plain },
    } = parts_for(alloc, round, &geometry, level)?;
    let frame = Frame {
        sources,
        geometry,
        layout,
        sps,
        plain,
        renamed: None,
    };
    Ok(Box::new(alloc, frame)?)
}

/// Returns the kept frame, or finishes the new one.
pub(crate) fn whole_frame(
    alloc: Global,
    level: Option<u8>,
    frame: RoundFrame,
    round: &[Picture<'_>],
) -> Result<Box<Frame>, AllocError>
    requires { IsSomeRound level round.now frame }
    ensures { (corners : List AnyCorner) → IsRoundFrame corners level round.now frame → IfOk result (λ f. IsFrameOf corners level round.now f.value) }
{
    match frame {
        RoundFrame::Kept(frame) => Ok(frame),
        RoundFrame::New(geometry) => frame_with(alloc, level, geometry, round),
    }
}

// ---- its PPS under an id

/// Returns whether this is the PPS under an id.
fn is_renamed(renamed: &Option<RenamedPps>, id: u8) -> bool
    ensures { result ≡ words.is_renamed renamed.now id }
{
    match renamed {
        Some(renamed) => renamed.id == id,
        None => false,
    }
}

/// Makes the frame's PPS under an id.
#[cold]
#[inline(never)]
fn rename_pps(
    alloc: Global,
    frame: &mut Frame,
    round: &[Picture<'_>],
    id: u8,
) -> Result<(), AllocError>
    requires used { IsSomeUsed round.now frame.old }
    requires id { id < 64 }
    requires other { id ≢ 0 }
    ensures same { OnOk result (ServesAs round.now frame.old frame.new) }
    ensures pps { OnOk result (HasPps round.now id frame.new) }
{
    let pps = frame_pps(alloc, round, &frame.geometry, id)?;
    drop(replace(&mut frame.renamed, Some(RenamedPps { id, pps })));
    Ok(())
}

/// Makes the frame's PPS under `id`, unless it is there.
///
/// *Errors:* [`AllocError`] if memory runs out.
pub fn have_pps(
    alloc: Global,
    frame: &mut Frame,
    round: &[Picture<'_>],
    id: u8,
) -> Result<(), AllocError>
    requires used { IsSomeUsed round.now frame.old }
    requires id { id < 64 }
    ensures same { OnOk result (ServesAs round.now frame.old frame.new) }
    ensures pps { OnOk result (HasPps round.now id frame.new) }
{
    if id == 0 || is_renamed(&frame.renamed, id) {
        return Ok(());
    }
    rename_pps(alloc, frame, round, id)
}

/// Returns the frame's PPS under an id that it has.
pub fn pps_under(frame: &Frame, id: u8) -> &Pps
    ensures { result.now ≡ words.pps_under frame.now id }
{
    if id == 0 {
        return &frame.plain;
    }
    match &frame.renamed {
        Some(renamed) => &renamed.pps,
        None => &frame.plain,
    }
}
