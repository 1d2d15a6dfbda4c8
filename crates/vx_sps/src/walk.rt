//! The walk over a sequence parameter set, for every coder.

ghost use Rattle.vx_table.specs.Parts.{sections_form};
ghost use Rattle.vx_table.specs.Walks.{Walks, leaving};
ghost use Rattle.vx_sps.specs.Structure.{sps_sections};

use crate::tables::*;
use vx_fields::names::rpl::{NUM_STRUCTURES, STRUCTURE};
use vx_fields::names::sps::{NUM_PLACES, SUBPIC};
use vx_fields::sps::{sps_subpic_info_present_flag, sps_timing_hrd_params_present_flag};
use vx_ptl::{DPB, NO_TIMING, PTL, SUBLAYER_TIMING, TIMING};
use vx_rpl::REF_PIC_LIST_STRUCT;
use vx_table::{Coder, Scope, code_parts, parts};

/// Codes a sequence parameter set, `seq_parameter_set_rbsp()` (clause 7.3.2.4).
///
/// # Errors
///
/// The coder's error at the first field that it refuses.
pub fn code_sps<I, C: Coder<I>>(
    scope: &mut Scope,
    coder: &mut C,
    items: &mut I,
) -> Result<(), C::Fault>
    ensures { Walks C.step (sections_form sps_sections scope.old) coder.old items.old (leaving scope.new result) coder.new items.new }
{
    code_parts(
        &parts![
            IDS,
            START,
            PTL,
            RESAMPLING,
            SIZE,
            CTUS,
            sps_subpic_info_present_flag => SUBPICTURES,
            SUBPIC in NUM_PLACES => PLACE,
            sps_subpic_info_present_flag => SUBPIC_IDS,
            COUNTS,
            SUBLAYER_DPB,
            DPB,
            PARTITIONS,
            TRANSFORMS,
            CHROMA_QP,
            FILTERS,
            REFERENCES,
            STRUCTURE in NUM_STRUCTURES => REF_PIC_LIST_STRUCT,
            LIST_1,
            STRUCTURE in NUM_STRUCTURES => REF_PIC_LIST_STRUCT,
            INTER,
            INTRA,
            SCALING,
            TIMED,
            NO_TIMING,
            sps_timing_hrd_params_present_flag => TIMING,
            SUBLAYER_CPB,
            sps_timing_hrd_params_present_flag => SUBLAYER_TIMING,
            END,
        ],
        scope,
        coder,
        items,
    )
}
