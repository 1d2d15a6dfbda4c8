//! The bodies of adaptive loop filters that are in force in slices.
ghost use Rattle.std.specs.Prelude.{◌≡◌, ◌<◌, ◌≤◌, ◌∷◌, [], List, length, map, option_copied, option_to_list, IfOk, OnOk};
ghost use Rattle.std.specs.Bool.{OnTrue, OnFalse};
ghost use Rattle.vx_pic.specs.Inputs.{alf_of};
ghost use Rattle.vx_pic.specs.Parts.{Parts};
ghost use Rattle.vx_pic.specs.Resident as resident;
ghost use Rattle.vx_frame.specs.Bodies as words;
ghost use Rattle.vx_frame.specs.Rules as rules;
ghost use Rattle.vx_frame.specs.Counts.{alf_slots};
ghost use Rattle.vx_frame.specs.inner.Found.{Finds, piece_at};
ghost use Rattle.vx_frame.specs.inner.Gathered.{AreFilters};

use crate::told::of_source;
use std::alloc::{AllocError, Global};
use vx_aps::ALF;
use vx_bits::rules::TOO_MANY_ALF;
use vx_bits::{BodyList, Fields, Refusal};
use vx_fields::alf::{alf_aps_id_chroma, alf_cc_cb_aps_id, alf_cc_cr_aps_id};
use vx_pic::{Picture, body_named, filter_fields, luma_bodies};

/// How many ids adaptive loop filters have.
const MOST_FILTERS: usize = 8;

/// The bodies of the adaptive loop filters in force in the slices of a round.
#[derive(Drop)]
pub struct RoundFilters<'a> {
    /// Each body once: those of all sources, or of the sources up to `too_many`.
    pub bodies: BodyList<'a>,
    /// The lowest source with which there are more bodies than ids, if there is one.
    pub too_many: Option<u16>,
}

/// Returns whether two byte strings are equal.
pub fn same_bytes(a: &[u8], b: &[u8]) -> bool
    ensures { result ≡ resident.same_bytes a.now b.now }
{
    a == b
}

/// Returns whether a body is in the list.
fn is_among(body: &[u8], bodies: &BodyList<'_>) -> bool
    ensures { result ≡ words.is_among body.now (map (λ b. b.now) bodies.now) }
{
    for i in 0..bodies.len() {
        if same_bytes(bodies.item(i), body) {
            return true;
        }
    }
    false
}

/// Appends a body, unless it is in the list.
fn add<'a>(bodies: &mut BodyList<'a>, body: &'a [u8]) -> Result<(), AllocError>
    ensures { OnOk result (map (λ b. b.now) bodies.new ≡ words.with_body (map (λ b. b.now) bodies.old) body.now) }
{
    if is_among(body, bodies) {
        return Ok(());
    }
    bodies.push(body)
}

/// Appends a body, if there is one.
fn add_some<'a>(bodies: &mut BodyList<'a>, body: Option<&'a [u8]>) -> Result<(), AllocError>
    ensures { OnOk result (map (λ b. b.now) bodies.new ≡ words.with_bodies (map (λ b. b.now) bodies.old) (option_to_list (option_copied body.entry))) }
{
    match body {
        Some(body) => add(bodies, body),
        None => Ok(()),
    }
}

/// Appends several bodies.
fn add_all<'a>(bodies: &mut BodyList<'a>, more: &BodyList<'a>) -> Result<(), AllocError>
    ensures { OnOk result (map (λ b. b.now) bodies.new ≡ words.with_bodies (map (λ b. b.now) bodies.old) (map (λ b. b.now) more.now)) }
{
    for i in 0..more.len() {
        add(bodies, more.item(i))?;
    }
    Ok(())
}

/// Appends the bodies for luma that a header names.
fn add_luma<'a>(
    alloc: Global,
    bodies: &mut BodyList<'a>,
    picture: &Picture<'a>,
    items: &Fields,
) -> Result<(), AllocError>
    ensures { OnOk result (map (λ b. b.now) bodies.new ≡ words.with_bodies (map (λ b. b.now) bodies.old) (alf_of picture.now items.now).luma) }
{
    let luma = luma_bodies(alloc, picture, items)?;
    add_all(bodies, &luma)
}

/// Appends the bodies of a slice.
fn add_slice<'a>(
    alloc: Global,
    bodies: &mut BodyList<'a>,
    picture: &Picture<'a>,
    i: u32,
) -> Result<(), AllocError>
    requires { i < length picture.now.slices }
    ensures { OnOk result (map (λ b. b.now) bodies.new ≡ words.with_bodies (map (λ b. b.now) bodies.old) (piece_at (words.filters_of picture.now) picture.now.slices i)) }
{
    let slice = picture.slice(i);
    let items = filter_fields(picture, slice.header);
    add_luma(alloc, bodies, picture, items)?;
    add_some(bodies, body_named(picture, ALF, alf_aps_id_chroma, items))?;
    add_some(bodies, body_named(picture, ALF, alf_cc_cb_aps_id, items))?;
    add_some(bodies, body_named(picture, ALF, alf_cc_cr_aps_id, items))
}

/// Appends the bodies of a picture's slices.
fn add_picture<'a>(
    alloc: Global,
    bodies: &mut BodyList<'a>,
    picture: &Picture<'a>,
) -> Result<(), AllocError>
    ensures { OnOk result (map (λ b. b.now) bodies.new ≡ words.with_bodies (map (λ b. b.now) bodies.old) (words.filters_in picture.now)) }
{
    for i in 0..picture.slice_count() {
        add_slice(alloc, bodies, picture, i)?;
    }
    Ok(())
}

/// Returns whether there are more bodies than ids.
fn are_too_many(bodies: &BodyList<'_>) -> bool
    ensures many { OnTrue result (alf_slots < length bodies.now) }
    ensures few { OnFalse result (¬ (alf_slots < length bodies.now)) }
{
    MOST_FILTERS < bodies.len()
}

/// Collects the bodies of the adaptive loop filters in force in the slices of a round.
pub(crate) fn round_filters<'a>(
    alloc: Global,
    round: &[Picture<'a>],
) -> Result<RoundFilters<'a>, AllocError>
    requires { length round.now ≤ 64 }
    ensures { IfOk result (AreFilters round.now) }
{
    let mut bodies = BodyList::new(alloc);
    for k in 0..round.len() {
        add_picture(alloc, &mut bodies, &round[k])?;
        if are_too_many(&bodies) {
            return Ok(RoundFilters {
                bodies,
                too_many: Some(k as u16),
            });
        }
    }
    Ok(RoundFilters {
        bodies,
        too_many: None,
    })
}

/// Returns the refusal of a round with more bodies of adaptive loop filters than there are ids.
pub(crate) fn too_many_filters(filters: &RoundFilters<'_>) -> Option<Refusal>
    ensures { (round : List Parts) → AreFilters round filters.now → Finds (length round) (rules.too_many_filters round ∷ []) result }
{
    of_source(TOO_MANY_ALF, filters.too_many)
}
