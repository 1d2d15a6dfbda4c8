//! The kept fields of sets and headers.
ghost use Rattle.std.specs.Prelude.{◌≡◌, ◌++◌, OnOk, IfOk};
ghost use Rattle.vx_table.specs.Shown.{shown_items};
ghost use Rattle.vx_table.specs.Unstarred.{unstarred};
ghost use Rattle.vx_rpl.specs.Lists.{weights};
ghost use Rattle.vx_pic.specs.Inputs as inputs;
ghost use Rattle.vx_ph.specs.Header.{ph_before_lists};
ghost use Rattle.vx_ph.specs.Depends as header;
ghost use Rattle.vx_sh.specs.Slice.{before_lists, behind_weights};
ghost use Rattle.vx_sh.specs.Depends as slice;

use std::alloc::{AllocError, Global};
use vx_bits::{Fields, Kept};
use vx_pps::{Pps, keep_pps};
use vx_sps::{Sps, keep_sps};
use vx_table::{NameList, push_unstarred};

/// Appends the fields of reference picture lists that have no star.
fn push_lists(kept: &mut NameList) -> Result<(), AllocError>
    ensures { OnOk result (kept.new ≡ kept.old ++ unstarred header.lists_tables) }
{
    push_unstarred(kept, &vx_rpl::BEFORE_LIST_0)?;
    push_unstarred(kept, &vx_rpl::CHOICE)?;
    push_unstarred(kept, &vx_rpl::REF_PIC_LIST_STRUCT)?;
    push_unstarred(kept, &vx_rpl::LONG_TERM)?;
    push_unstarred(kept, &vx_rpl::BEHIND_LIST_0)?;
    push_unstarred(kept, &vx_rpl::BEHIND_LIST_1)?;
    Ok(())
}

/// Appends those of prediction weights.
fn push_weights(kept: &mut NameList) -> Result<(), AllocError>
    ensures { OnOk result (kept.new ≡ kept.old ++ unstarred weights) }
{
    push_unstarred(kept, &vx_rpl::WEIGHTS_0)?;
    push_unstarred(kept, &vx_rpl::WEIGHTS)?;
    push_unstarred(kept, &vx_rpl::WEIGHTS_1)?;
    push_unstarred(kept, &vx_rpl::WEIGHTS)?;
    Ok(())
}

/// Appends those of a picture header before its lists.
fn push_header_front(kept: &mut NameList) -> Result<(), AllocError>
    ensures { OnOk result (kept.new ≡ kept.old ++ unstarred ph_before_lists) }
{
    push_unstarred(kept, &vx_ph::PICTURE)?;
    push_unstarred(kept, &vx_ph::PPS_ID)?;
    push_unstarred(kept, &vx_ph::ORDER_COUNT)?;
    push_unstarred(kept, &vx_ph::ALF)?;
    push_unstarred(kept, &vx_ph::LMCS_AND_SCALING)?;
    push_unstarred(kept, &vx_ph::OUTPUT)?;
    Ok(())
}

/// Returns the kept fields of a picture header: those without a star, which a rewritten header has from its source.
///
/// Get them once if the kept fields of several headers are needed.
///
/// # Errors
///
/// `AllocError` if memory runs out.
pub fn header_fields(alloc: Global) -> Result<NameList, AllocError>
    ensures { IfOk result (λ fields. fields ≡ header.kept_ph_fields) }
{
    let mut kept = NameList::new(alloc);
    push_header_front(&mut kept)?;
    push_lists(&mut kept)?;
    push_unstarred(&mut kept, &vx_ph::INTRA)?;
    push_unstarred(&mut kept, &vx_ph::INTER)?;
    push_weights(&mut kept)?;
    push_unstarred(&mut kept, &vx_ph::QP)?;
    push_unstarred(&mut kept, &vx_ph::FILTERS)?;
    Ok(kept)
}

/// Appends the fields of a slice header between its address and its lists that have no star.
fn push_slice_front(kept: &mut NameList) -> Result<(), AllocError>
    ensures { OnOk result (kept.new ≡ kept.old ++ unstarred before_lists) }
{
    push_unstarred(kept, &vx_sh::TYPE)?;
    push_unstarred(kept, &vx_sh::FILTER_HERE)?;
    push_unstarred(kept, &vx_ph::ALF)?;
    push_unstarred(kept, &vx_sh::LMCS_AND_SCALING)?;
    push_unstarred(kept, &vx_sh::LISTS_HERE)?;
    Ok(())
}

/// Appends those after its weights.
fn push_slice_back(kept: &mut NameList) -> Result<(), AllocError>
    ensures { OnOk result (kept.new ≡ kept.old ++ unstarred behind_weights) }
{
    push_unstarred(kept, &vx_sh::QP)?;
    push_unstarred(kept, &vx_sh::CHROMA_QP_AND_FILTERS)?;
    push_unstarred(kept, &vx_sh::END)?;
    push_unstarred(kept, &vx_sh::ALIGNMENT)?;
    Ok(())
}

/// Returns the kept fields of a slice header.
fn slice_fields(alloc: Global) -> Result<NameList, AllocError>
    ensures { IfOk result (λ fields. fields ≡ slice.kept_fields) }
{
    let mut kept = NameList::new(alloc);
    push_unstarred(&mut kept, &vx_sh::HEADER_INSIDE)?;
    push_unstarred(&mut kept, &vx_sh::SUBPIC_ID)?;
    push_unstarred(&mut kept, &vx_sh::KNOWN_SUBPIC)?;
    push_unstarred(&mut kept, &vx_sh::ADDRESS)?;
    push_slice_front(&mut kept)?;
    push_lists(&mut kept)?;
    push_unstarred(&mut kept, &vx_sh::ACTIVE)?;
    push_unstarred(&mut kept, &vx_sh::INTER)?;
    push_weights(&mut kept)?;
    push_slice_back(&mut kept)?;
    Ok(kept)
}

/// Returns the items of the fields in `fields`, in order.
///
/// # Errors
///
/// `AllocError` if memory runs out.
pub fn kept_among(alloc: Global, items: &Fields, fields: &[u16]) -> Result<Kept, AllocError>
    ensures { IfOk result (λ kept. kept ≡ shown_items fields.now items.now) }
{
    let mut kept = Kept::new(alloc);
    for i in 0..items.len() {
        let item = items.item(i);
        if fields.contains(&item.field) {
            kept.push(item)?;
        }
    }
    Ok(kept)
}

/// Returns these items, all of which are kept.
fn keep_all(alloc: Global, items: &Fields) -> Result<Kept, AllocError>
    ensures { IfOk result (λ kept. kept ≡ items.now) }
{
    let mut kept = Kept::new(alloc);
    for i in 0..items.len() {
        kept.push(items.item(i))?;
    }
    Ok(kept)
}

/// Returns the kept fields of an SPS.
pub(crate) fn kept_of_sps(alloc: Global, sps: &Sps) -> Result<Kept, AllocError>
    ensures { IfOk result (λ kept. kept ≡ inputs.sps_fields sps.now) }
{
    keep_all(alloc, &keep_sps(alloc, sps)?)
}

/// Returns the kept fields of a PPS.
pub(crate) fn kept_of_pps(alloc: Global, pps: &Pps) -> Result<Kept, AllocError>
    ensures { IfOk result (λ kept. kept ≡ inputs.pps_fields pps.now) }
{
    keep_all(alloc, &keep_pps(alloc, pps)?)
}

/// Returns the kept fields of a picture header, in order: [`kept_among`] its items with [`header_fields`].
///
/// # Errors
///
/// `AllocError` if memory runs out.
pub fn kept_of_header(alloc: Global, items: &Fields) -> Result<Kept, AllocError>
    ensures { IfOk result (λ kept. kept ≡ inputs.header_fields items.now) }
{
    let fields = header_fields(alloc)?;
    kept_among(alloc, items, fields.as_slice())
}

/// Returns the kept fields of a slice header.
pub(crate) fn kept_of_slice(alloc: Global, items: &Fields) -> Result<Kept, AllocError>
    ensures { IfOk result (λ kept. kept ≡ inputs.kept_slice_items items.now) }
{
    let fields = slice_fields(alloc)?;
    kept_among(alloc, items, fields.as_slice())
}
