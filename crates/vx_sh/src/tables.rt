//! The tables of H.266 clause 7.3.7 (slice header).
//!
//! Fields with a star that a merged stream replaces are in tables of their own: the id of the subpicture, what the slice uses of
//! the picture's adaptation sets, and the QP.
//!
//! Tables that are walked over as types have their text in a macro. `table!` makes the array of it, which definitions name, and
//! `rows!` the rows as a type.
use vx_bits::rules::UNKNOWN_SUBPIC_ID;
use vx_fields::alf::*;
use vx_fields::names::rpl::{ACTIVE_0, ACTIVE_1, ENTRIES_0, ENTRIES_1};
use vx_fields::names::sh::*;
use vx_fields::ph::{
    ph_explicit_scaling_list_enabled_flag, ph_inter_slice_allowed_flag, ph_lmcs_enabled_flag,
    ph_temporal_mvp_enabled_flag,
};
use vx_fields::pps::*;
use vx_fields::sh::*;
use vx_fields::sps::{
    sps_alf_enabled_flag, sps_chroma_format_idc, sps_dep_quant_enabled_flag,
    sps_idr_rpl_present_flag, sps_joint_cbcr_enabled_flag, sps_sao_enabled_flag,
    sps_sign_data_hiding_enabled_flag, sps_subpic_id_len_minus1, sps_subpic_info_present_flag,
    sps_transform_skip_enabled_flag,
};
use vx_table::{Row, table};

macro_rules! header_inside_syntax {
    ($as:ident) => { $as! {
        sh_picture_header_in_slice_header_flag*;
    } };
}
/// The first field. After it comes the picture header, if it is inside.
pub const HEADER_INSIDE: [Row; 1] = header_inside_syntax!(table);

macro_rules! subpic_id_syntax {
    ($as:ident) => { $as! {
        default sh_subpic_id = 0;
        if sps_subpic_info_present_flag { sh_subpic_id*: u(sps_subpic_id_len_minus1 + 1); }
    } };
}
/// The id of the subpicture.
pub const SUBPIC_ID: [Row; 3] = subpic_id_syntax!(table);

macro_rules! known_subpic_syntax {
    ($as:ident) => { $as! {
        if (NUM_SUBPICS <= SUBPIC) { refuse sh_subpic_id else Structure(UNKNOWN_SUBPIC_ID); }
    } };
}
/// The refusal of an id that no subpicture has.
pub const KNOWN_SUBPIC: [Row; 2] = known_subpic_syntax!(table);

macro_rules! address_syntax {
    ($as:ident) => { $as! {
        default sh_slice_address = 0;
        if (NUM_SLICES > 1) { sh_slice_address: u(ceil_log2 NUM_SLICES) below NUM_SLICES; }
    } };
}
/// The address of the slice in its subpicture.
pub const ADDRESS: [Row; 3] = address_syntax!(table);

macro_rules! type_syntax {
    ($as:ident) => { $as! {
        for EXTRA_SH_BIT in EXTRA_SH_BITS { sh_extra_bit; }
        default sh_slice_type = 2;
        if ph_inter_slice_allowed_flag { sh_slice_type: ue in 0..=2; }
        if (7 <= NAL_TYPE) { if (NAL_TYPE <= 10) { sh_no_output_of_prior_pics_flag; } }
    } };
}
/// The extra bits, and the type of the slice.
pub const TYPE: [Row; 8] = type_syntax!(table);

macro_rules! filter_here_syntax {
    ($as:ident) => { $as! {
        let HAS_ALF = sps_alf_enabled_flag;
        if pps_alf_info_in_ph_flag { let HAS_ALF = 0; }
    } };
}
/// Whether the adaptive loop filter is in this header. If so, it follows.
pub const FILTER_HERE: [Row; 3] = filter_here_syntax!(table);

macro_rules! lmcs_and_scaling_syntax {
    ($as:ident) => { $as! {
        if ph_lmcs_enabled_flag {
            if (not sh_picture_header_in_slice_header_flag) { sh_lmcs_used_flag*; }
        }
        if ph_explicit_scaling_list_enabled_flag {
            if (not sh_picture_header_in_slice_header_flag) { sh_explicit_scaling_list_used_flag*; }
        }
    } };
}
/// What the slice uses of luma mapping with chroma scaling and of scaling lists, if the picture header is a unit of its own.
pub const LMCS_AND_SCALING: [Row; 6] = lmcs_and_scaling_syntax!(table);

macro_rules! lists_here_syntax {
    ($as:ident) => { $as! {
        let IS_IDR = (NAL_TYPE == 7);
        if (NAL_TYPE == 8) { let IS_IDR = 1; }
        let HAS_LISTS = sps_idr_rpl_present_flag;
        if (not IS_IDR) { let HAS_LISTS = 1; }
        if pps_rpl_info_in_ph_flag { let HAS_LISTS = 0; }
    } };
}
/// Whether reference picture lists are in this header. If so, they follow.
pub const LISTS_HERE: [Row; 8] = lists_here_syntax!(table);

macro_rules! active_syntax {
    ($as:ident) => { $as! {
        let MAY_COUNT_0 = (ENTRIES_0 > 1);
        if (sh_slice_type == 2) { let MAY_COUNT_0 = 0; }
        let MAY_COUNT_1 = (ENTRIES_1 > 1);
        if sh_slice_type { let MAY_COUNT_1 = 0; }
        let ACTIVE_0 = 1;
        let ACTIVE_1 = 1;
        default sh_num_ref_idx_active_override_flag = 1;
        if (MAY_COUNT_0 or MAY_COUNT_1) {
            sh_num_ref_idx_active_override_flag;
            if sh_num_ref_idx_active_override_flag {
                if MAY_COUNT_0 {
                    sh_num_ref_idx_active_minus1: ue in 0..=14;
                    let ACTIVE_0 = (sh_num_ref_idx_active_minus1 + 1);
                }
                if MAY_COUNT_1 {
                    sh_num_ref_idx_active_minus1: ue in 0..=14;
                    let ACTIVE_1 = (sh_num_ref_idx_active_minus1 + 1);
                }
            }
        }
        if (not sh_num_ref_idx_active_override_flag) {
            let ACTIVE_0 = (DEFAULT_ACTIVE_0 + 1);
            let ACTIVE_0 = (ACTIVE_0 min ENTRIES_0);
            let ACTIVE_1 = (DEFAULT_ACTIVE_1 + 1);
            let ACTIVE_1 = (ACTIVE_1 min ENTRIES_1);
        }
        if (sh_slice_type == 2) { let ACTIVE_0 = 0; }
        if sh_slice_type { let ACTIVE_1 = 0; }
    } };
}
/// The active entries of the lists.
pub const ACTIVE: [Row; 27] = active_syntax!(table);

macro_rules! inter_syntax {
    ($as:ident) => { $as! {
        let NAMES_COLLOCATED = ph_temporal_mvp_enabled_flag;
        if pps_rpl_info_in_ph_flag { let NAMES_COLLOCATED = 0; }
        if (sh_slice_type != 2) {
            if pps_cabac_init_present_flag { sh_cabac_init_flag; }
            if NAMES_COLLOCATED {
                default sh_collocated_from_l0_flag = 1;
                if (not sh_slice_type) { sh_collocated_from_l0_flag; }
                let COLLOCATED_AMONG = ACTIVE_0;
                if (not sh_collocated_from_l0_flag) { let COLLOCATED_AMONG = ACTIVE_1; }
                if (COLLOCATED_AMONG > 1) { sh_collocated_ref_idx: ue; }
            }
        }
        let HAS_WEIGHTS = 0;
        if (sh_slice_type == 1) { let HAS_WEIGHTS = pps_weighted_pred_flag; }
        if (not sh_slice_type) { let HAS_WEIGHTS = pps_weighted_bipred_flag; }
        if pps_wp_info_in_ph_flag { let HAS_WEIGHTS = 0; }
    } };
}
/// How motion is predicted, and whether prediction weights are in this header. If so, they follow.
pub const INTER: [Row; 22] = inter_syntax!(table);

macro_rules! qp_syntax {
    ($as:ident) => { $as! {
        if (not pps_qp_delta_info_in_ph_flag) { sh_qp_delta*: se; }
    } };
}
/// The QP of the slice.
pub const QP: [Row; 2] = qp_syntax!(table);

macro_rules! chroma_qp_and_filters_syntax {
    ($as:ident) => { $as! {
        if pps_slice_chroma_qp_offsets_present_flag {
            sh_cb_qp_offset: se;
            sh_cr_qp_offset: se;
            if sps_joint_cbcr_enabled_flag { sh_joint_cbcr_qp_offset: se; }
        }
        if pps_cu_chroma_qp_offset_list_enabled_flag { sh_cu_chroma_qp_offset_enabled_flag; }
        if sps_sao_enabled_flag {
            if (not pps_sao_info_in_ph_flag) {
                sh_sao_luma_used_flag;
                if sps_chroma_format_idc { sh_sao_chroma_used_flag; }
            }
        }
        default sh_deblocking_params_present_flag = 0;
        if pps_deblocking_filter_override_enabled_flag {
            if (not pps_dbf_info_in_ph_flag) { sh_deblocking_params_present_flag; }
        }
        if sh_deblocking_params_present_flag {
            default sh_deblocking_filter_disabled_flag = 0;
            if (not pps_deblocking_filter_disabled_flag) { sh_deblocking_filter_disabled_flag; }
            if (not sh_deblocking_filter_disabled_flag) {
                sh_luma_beta_offset_div2: se;
                sh_luma_tc_offset_div2: se;
                if pps_chroma_tool_offsets_present_flag {
                    sh_cb_beta_offset_div2: se;
                    sh_cb_tc_offset_div2: se;
                    sh_cr_beta_offset_div2: se;
                    sh_cr_tc_offset_div2: se;
                }
            }
        }
    } };
}
/// Chroma QP, and the in-loop filters.
pub const CHROMA_QP_AND_FILTERS: [Row; 28] = chroma_qp_and_filters_syntax!(table);

macro_rules! end_syntax {
    ($as:ident) => { $as! {
        default sh_dep_quant_used_flag = 0;
        if sps_dep_quant_enabled_flag { sh_dep_quant_used_flag; }
        default sh_sign_data_hiding_used_flag = 0;
        if sps_sign_data_hiding_enabled_flag {
            if (not sh_dep_quant_used_flag) { sh_sign_data_hiding_used_flag; }
        }
        if sps_transform_skip_enabled_flag {
            if (not sh_dep_quant_used_flag) {
                if (not sh_sign_data_hiding_used_flag) { sh_ts_residual_coding_disabled_flag; }
            }
        }
        if pps_slice_header_extension_present_flag {
            sh_slice_header_extension_length: ue in 0..=256;
            for EXTENSION_BYTE in sh_slice_header_extension_length {
                sh_slice_header_extension_data_byte: u(8);
            }
        }
        if NUM_ENTRY_POINTS {
            sh_entry_offset_len_minus1: ue in 0..=31;
            for ENTRY_POINT in NUM_ENTRY_POINTS {
                sh_entry_point_offset_minus1: u(sh_entry_offset_len_minus1 + 1);
            }
        }
    } };
}
/// Residuals, the extension, and the entry points.
pub const END: [Row; 19] = end_syntax!(table);

macro_rules! alignment_syntax {
    ($as:ident) => { $as! {
        one_and_zeros sh_byte_alignment;
    } };
}
/// The alignment.
pub const ALIGNMENT: [Row; 1] = alignment_syntax!(table);

/// The fields with a star, each of which a merged stream replaces: whether the picture header is inside, the id of the
/// subpicture, the filter, the uses of LMCS and scaling lists, and the QP.
pub const STARRED: [u16; 15] = [
    sh_picture_header_in_slice_header_flag,
    sh_subpic_id,
    alf_enabled_flag,
    num_alf_aps_ids_luma,
    alf_aps_id_luma,
    alf_cb_enabled_flag,
    alf_cr_enabled_flag,
    alf_aps_id_chroma,
    alf_cc_cb_enabled_flag,
    alf_cc_cb_aps_id,
    alf_cc_cr_enabled_flag,
    alf_cc_cr_aps_id,
    sh_lmcs_used_flag,
    sh_explicit_scaling_list_used_flag,
    sh_qp_delta,
];

pub(crate) use active_syntax;
pub(crate) use address_syntax;
pub(crate) use alignment_syntax;
pub(crate) use chroma_qp_and_filters_syntax;
pub(crate) use end_syntax;
pub(crate) use filter_here_syntax;
pub(crate) use header_inside_syntax;
pub(crate) use inter_syntax;
pub(crate) use known_subpic_syntax;
pub(crate) use lists_here_syntax;
pub(crate) use lmcs_and_scaling_syntax;
pub(crate) use qp_syntax;
pub(crate) use subpic_id_syntax;
pub(crate) use type_syntax;
