//! The walk over a picture parameter set, clause 7.3.2.5, for every coder.
ghost use Rattle.std.specs.Prelude.{◌≡◌};
ghost use Rattle.vx_table.specs.Parts.{sections_form};
ghost use Rattle.vx_table.specs.Walks.{leaving};
ghost use Rattle.vx_pps.specs.Pps.{before_tiles, pps_form, after_slices};
ghost use Rattle.vx_pps.specs.inner.Walked.{Walked};

use crate::halt::Halt;
use crate::numbers::code_sections;
use crate::partition::{Partition, code_partition};
use crate::tables::{
    DBF_CONTROL, DBF_INFO, DBF_OFFSETS, END, HEADER_INFO, IDS, INIT_QP, NAL_TYPES, OUTPUT,
    PREDICTION, QP_OFFSETS, SIZE, SUBPIC_IDS,
};
use std::alloc::Global;
use vx_fields::pps::{
    pps_no_pic_partition_flag, pps_pic_height_in_luma_samples, pps_pic_width_in_luma_samples,
};
use vx_table::{Coder, Scope, parts};

/// Codes the fields before tiles and slices.
fn code_front<I, C: Coder<I>>(
    scope: &mut Scope,
    coder: &mut C,
    items: &mut I,
) -> Result<(), Halt<C::Fault>>
    ensures { Walked C.step (sections_form before_tiles scope.old) coder.old items.old (leaving scope.new result) coder.new items.new }
{
    code_sections(
        &parts![IDS, NAL_TYPES, SIZE, OUTPUT, SUBPIC_IDS],
        scope,
        coder,
        items,
    )
}

/// Codes the fields after them.
fn code_tools<I, C: Coder<I>>(
    scope: &mut Scope,
    coder: &mut C,
    items: &mut I,
) -> Result<(), Halt<C::Fault>>
    ensures { Walked C.step (sections_form after_slices scope.old) coder.old items.old (leaving scope.new result) coder.new items.new }
{
    code_sections(
        &parts![
            PREDICTION,
            INIT_QP,
            QP_OFFSETS,
            DBF_CONTROL,
            DBF_INFO,
            DBF_OFFSETS,
            HEADER_INFO,
            END
        ],
        scope,
        coder,
        items,
    )
}

/// Codes a picture parameter set, and returns its tiles and slices.
///
/// # Errors
///
/// - `Refused` with the coder's error at the first field that it refuses.
/// - `Memory` if memory runs out.
#[tactic(auto, unfolding(crate::specs::Pps::pps_form), using(crate::proofs::Walking::then, crate::proofs::Walking::stop))]
pub(crate) fn code_pps<I, C: Coder<I>>(
    alloc: Global,
    coder: &mut C,
    items: &mut I,
) -> Result<Partition, Halt<C::Fault>>
    ensures { Walked C.step pps_form coder.old items.old result coder.new items.new }
{
    let mut scope = Scope::new();
    code_front(&mut scope, coder, items)?;
    let whole = scope.latest(pps_no_pic_partition_flag);
    let width = scope.latest(pps_pic_width_in_luma_samples);
    let height = scope.latest(pps_pic_height_in_luma_samples);
    let partition = code_partition(alloc, whole, width, height, coder, items)?;
    code_tools(&mut scope, coder, items)?;
    Ok(partition)
}
