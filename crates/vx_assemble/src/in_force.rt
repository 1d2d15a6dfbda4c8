//! The sets in force for a picture.
ghost use Rattle.std.specs.Prelude.{◌≡◌, length, IfOk};
ghost use Rattle.vx_pic.specs.Sets.{same_size};
ghost use Rattle.vx_pic.specs.Rules.{Readers};
ghost use Rattle.vx_pic.specs.H266.{AreOfH266};
ghost use Rattle.vx_pic.specs.PictureLayout.{numbers_in};
ghost use Rattle.vx_ph.specs.InForce.{in_force as header_scope};
ghost use Rattle.vx_assemble.specs.inner.Order.{AreMade};
ghost use Rattle.vx_assemble.specs.inner.Takes.{Gives, answer_by};
ghost use Rattle.vx_assemble.specs.inner.Beginning.{layout_under, with_sets, AreOf};

use crate::readers::{ids_of, layout_of};
use crate::refusals::structure;
use crate::shared::Shared;
use std::alloc::{AllocError, Global};
use vx_bits::rules::SIZE_DIFFERS;
use vx_bits::{IdList, ReadError};
use vx_layout::Layout;
use vx_ph::in_force;
use vx_pps::Pps;
use vx_sps::Sps;
use vx_table::Scope;

/// The sets in force for a picture, and what both make up.
pub(crate) struct InForce {
    /// The SPS.
    pub sps: Shared<Sps>,
    /// The PPS.
    pub pps: Shared<Pps>,
    /// The tiles, slices and subpictures.
    pub layout: Layout,
    /// The ids of the subpictures, by their index.
    pub ids: IdList,
    /// The number of slices.
    pub slices: usize,
    /// The numbers of both sets, under which headers are read.
    pub scope: Shared<Scope>,
}

impl Drop for InForce {
    fn drop(self) {
        let InForce {
            sps: _,
            pps: _,
            layout: _,
            ids: _,
            slices: _,
            scope: _,
        } = self;
    }
}

/// Returns whether the pictures of both sets have the same size.
#[tactic(auto, unfolding(vx_pic::specs::Sets::same_size))]
fn have_same_size(sps: &Sps, pps: &Pps) -> bool
    ensures { result ≡ same_size sps.now pps.now }
{
    pps.width() == sps.width() && pps.height() == sps.height()
}

/// Returns the number of slices of two sets.
fn slice_count(sps: &Sps, pps: &Pps) -> usize
    ensures { result ≡ length (numbers_in sps.now pps.now).slices }
{
    if !pps.partitioned() {
        return 1;
    }
    match pps.slices() {
        Some(slices) => slices.len(),
        None => sps.subpics() as usize,
    }
}

/// What two sets make up.
#[derive(Drop)]
struct MadeUp {
    layout: Layout,
    ids: IdList,
    slices: usize,
    scope: Shared<Scope>,
}

/// Returns the numbers of two sets, under which headers are read.
fn scope_of(alloc: Global, sps: &Sps, pps: &Pps) -> Result<Shared<Scope>, AllocError>
    ensures { IfOk result (λ scope. scope ≡ header_scope sps.now pps.now) }
{
    Shared::new(alloc, in_force(sps, pps))
}

/// Returns what two sets make up.
///
/// # Errors
///
/// - `Refused` with SIZE_DIFFERS, or with the lowest fault of the layout.
/// - `Memory` if memory runs out.
fn make_up(alloc: Global, sps: &Sps, pps: &Pps) -> Result<MadeUp, ReadError>
    ensures answer { (R : Readers) → AreOfH266 R → Gives (layout_under R sps.now pps.now) (answer_by (λ made. made.layout) result) }
    ensures made { IfOk result (λ made. AreMade (with_sets sps.now pps.now made)) }
{
    if !have_same_size(sps, pps) {
        return Err(ReadError::Refused(structure(SIZE_DIFFERS)));
    }
    let scope = scope_of(alloc, sps, pps)?;
    let layout = layout_of(alloc, sps, pps)?;
    let ids = ids_of(alloc, sps, pps)?;
    Ok(MadeUp {
        layout,
        ids,
        slices: slice_count(sps, pps),
        scope,
    })
}

impl InForce {
    /// Returns two sets and what they make up.
    ///
    /// # Errors
    ///
    /// - `Refused` with SIZE_DIFFERS, or with the lowest fault of the layout.
    /// - `Memory` if memory runs out.
    pub(crate) fn new(
        alloc: Global,
        sps: Shared<Sps>,
        pps: Shared<Pps>,
    ) -> Result<InForce, ReadError>
        ensures answer { (R : Readers) → AreOfH266 R → Gives (layout_under R sps pps) (answer_by (λ f. f.layout) result) }
        ensures sets { IfOk result (AreOf sps pps) }
    {
        let made = make_up(alloc, sps.value(), pps.value())?;
        Ok(InForce {
            sps,
            pps,
            layout: made.layout,
            ids: made.ids,
            slices: made.slices,
            scope: made.scope,
        })
    }
}
