//! The tables of H.266 clause 7.3.2.8 (picture header), and of the adaptive loop filter in both headers.
//!
//! Fields with a star that a merged stream replaces are in tables of their own: the id of the PPS, the filter, LMCS and scaling
//! lists, and the QP.
//!
//! Tables that are walked over as types have their text in a macro. `table!` makes the array of it, which definitions name, and
//! `rows!` the rows as a type.
use vx_fields::alf::*;
use vx_fields::names::ph::*;
use vx_fields::names::rpl::{ACTIVE_0, ACTIVE_1, ENTRIES_0, ENTRIES_1};
use vx_fields::ph::*;
use vx_fields::pps::{
    pps_chroma_tool_offsets_present_flag, pps_cu_chroma_qp_offset_list_enabled_flag,
    pps_cu_qp_delta_enabled_flag, pps_dbf_info_in_ph_flag, pps_deblocking_filter_disabled_flag,
    pps_output_flag_present_flag, pps_picture_header_extension_present_flag,
    pps_qp_delta_info_in_ph_flag, pps_rpl_info_in_ph_flag, pps_sao_info_in_ph_flag,
    pps_weighted_bipred_flag, pps_weighted_pred_flag, pps_wp_info_in_ph_flag,
};
use vx_fields::sps::{
    sps_bdof_control_present_in_ph_flag, sps_ccalf_enabled_flag, sps_chroma_format_idc,
    sps_dmvr_control_present_in_ph_flag, sps_explicit_scaling_list_enabled_flag,
    sps_joint_cbcr_enabled_flag, sps_lmcs_enabled_flag, sps_log2_max_pic_order_cnt_lsb_minus4,
    sps_mmvd_fullpel_only_enabled_flag, sps_partition_constraints_override_enabled_flag,
    sps_poc_msb_cycle_flag, sps_poc_msb_cycle_len_minus1, sps_prof_control_present_in_ph_flag,
    sps_qtbtt_dual_tree_intra_flag, sps_sao_enabled_flag, sps_temporal_mvp_enabled_flag,
};
use vx_table::{Row, table};

macro_rules! picture_syntax {
    ($as:ident) => { $as! {
        ph_gdr_or_irap_pic_flag;
        ph_non_ref_pic_flag;
        default ph_gdr_pic_flag = 0;
        if ph_gdr_or_irap_pic_flag { ph_gdr_pic_flag; }
        ph_inter_slice_allowed_flag;
        default ph_intra_slice_allowed_flag = 1;
        if ph_inter_slice_allowed_flag { ph_intra_slice_allowed_flag; }
    } };
}
/// The kind of the picture.
pub const PICTURE: [Row; 9] = picture_syntax!(table);

macro_rules! pps_id_syntax {
    ($as:ident) => { $as! {
        ph_pic_parameter_set_id*: ue in 0..=63;
    } };
}
/// The PPS to which it refers.
pub const PPS_ID: [Row; 1] = pps_id_syntax!(table);

macro_rules! order_count_syntax {
    ($as:ident) => { $as! {
        ph_pic_order_cnt_lsb: u(sps_log2_max_pic_order_cnt_lsb_minus4 + 4);
        if ph_gdr_pic_flag { ph_recovery_poc_cnt: ue; }
        for EXTRA_BIT in EXTRA_PH_BITS { ph_extra_bit; }
        default ph_poc_msb_cycle_present_flag = 0;
        if sps_poc_msb_cycle_flag { ph_poc_msb_cycle_present_flag; }
        if ph_poc_msb_cycle_present_flag { ph_poc_msb_cycle_val: u(sps_poc_msb_cycle_len_minus1 + 1); }
    } };
}
/// Its picture order count, and the extra bits.
pub const ORDER_COUNT: [Row; 10] = order_count_syntax!(table);

/// The text of [`ALF`], for `table!` and `rows!`. Where it is called, these must be in scope: the macro for which it is, all of
/// `vx_fields::alf`, `FILTER_SET`, `sps_chroma_format_idc` and `sps_ccalf_enabled_flag`.
#[macro_export]
macro_rules! alf_syntax {
    ($as:ident) => { $as! {
        alf_enabled_flag*;
        if alf_enabled_flag {
            num_alf_aps_ids_luma*: u(3);
            for FILTER_SET in num_alf_aps_ids_luma { alf_aps_id_luma*: u(3); }
            default alf_cb_enabled_flag = 0;
            default alf_cr_enabled_flag = 0;
            if sps_chroma_format_idc {
                alf_cb_enabled_flag*;
                alf_cr_enabled_flag*;
            }
            if (alf_cb_enabled_flag or alf_cr_enabled_flag) { alf_aps_id_chroma*: u(3); }
            if sps_ccalf_enabled_flag {
                alf_cc_cb_enabled_flag*;
                if alf_cc_cb_enabled_flag { alf_cc_cb_aps_id*: u(3); }
                alf_cc_cr_enabled_flag*;
                if alf_cc_cr_enabled_flag { alf_cc_cr_aps_id*: u(3); }
            }
        }
    } };
}
/// The adaptive loop filter, in a picture header or a slice header (clause 7.3.7).
pub const ALF: [Row; 19] = alf_syntax!(table);

macro_rules! lmcs_and_scaling_syntax {
    ($as:ident) => { $as! {
        default ph_lmcs_enabled_flag = 0;
        if sps_lmcs_enabled_flag { ph_lmcs_enabled_flag*; }
        if ph_lmcs_enabled_flag {
            ph_lmcs_aps_id*: u(2);
            if sps_chroma_format_idc { ph_chroma_residual_scale_flag*; }
        }
        default ph_explicit_scaling_list_enabled_flag = 0;
        if sps_explicit_scaling_list_enabled_flag { ph_explicit_scaling_list_enabled_flag*; }
        if ph_explicit_scaling_list_enabled_flag { ph_scaling_list_aps_id*: u(3); }
    } };
}
/// Luma mapping with chroma scaling, and scaling lists.
pub const LMCS_AND_SCALING: [Row; 12] = lmcs_and_scaling_syntax!(table);

macro_rules! output_syntax {
    ($as:ident) => { $as! {
        default ph_pic_output_flag = 1;
        let MAY_BE_REF = (not ph_non_ref_pic_flag);
        if (pps_output_flag_present_flag and MAY_BE_REF) { ph_pic_output_flag; }
        let ENTRIES_0 = 0;
        let ENTRIES_1 = 0;
    } };
}
/// Whether the picture is shown. After it come the reference picture lists, if the header has them.
pub const OUTPUT: [Row; 6] = output_syntax!(table);

macro_rules! intra_syntax {
    ($as:ident) => { $as! {
        default ph_partition_constraints_override_flag = 0;
        if sps_partition_constraints_override_enabled_flag { ph_partition_constraints_override_flag; }
        if ph_intra_slice_allowed_flag {
            if ph_partition_constraints_override_flag {
                ph_log2_diff_min_qt_min_cb_intra_slice_luma: ue;
                ph_max_mtt_hierarchy_depth_intra_slice_luma: ue;
                if ph_max_mtt_hierarchy_depth_intra_slice_luma {
                    ph_log2_diff_max_bt_min_qt_intra_slice_luma: ue;
                    ph_log2_diff_max_tt_min_qt_intra_slice_luma: ue;
                }
            }
            if (ph_partition_constraints_override_flag and sps_qtbtt_dual_tree_intra_flag) {
                ph_log2_diff_min_qt_min_cb_intra_slice_chroma: ue;
                ph_max_mtt_hierarchy_depth_intra_slice_chroma: ue;
                if ph_max_mtt_hierarchy_depth_intra_slice_chroma {
                    ph_log2_diff_max_bt_min_qt_intra_slice_chroma: ue;
                    ph_log2_diff_max_tt_min_qt_intra_slice_chroma: ue;
                }
            }
            if pps_cu_qp_delta_enabled_flag { ph_cu_qp_delta_subdiv_intra_slice: ue; }
            if pps_cu_chroma_qp_offset_list_enabled_flag {
                ph_cu_chroma_qp_offset_subdiv_intra_slice: ue;
            }
        }
    } };
}
/// Partitions of intra slices.
pub const INTRA: [Row; 20] = intra_syntax!(table);

macro_rules! inter_syntax {
    ($as:ident) => { $as! {
        default ph_temporal_mvp_enabled_flag = 0;
        default ph_collocated_from_l0_flag = 1;
        let ARE_WEIGHTED = (pps_weighted_pred_flag or pps_weighted_bipred_flag);
        let HAS_WEIGHTS = 0;
        let ACTIVE_0 = 0;
        let ACTIVE_1 = 0;
        if ph_inter_slice_allowed_flag {
            if ph_partition_constraints_override_flag {
                ph_log2_diff_min_qt_min_cb_inter_slice: ue;
                ph_max_mtt_hierarchy_depth_inter_slice: ue;
                if ph_max_mtt_hierarchy_depth_inter_slice {
                    ph_log2_diff_max_bt_min_qt_inter_slice: ue;
                    ph_log2_diff_max_tt_min_qt_inter_slice: ue;
                }
            }
            if pps_cu_qp_delta_enabled_flag { ph_cu_qp_delta_subdiv_inter_slice: ue; }
            if pps_cu_chroma_qp_offset_list_enabled_flag {
                ph_cu_chroma_qp_offset_subdiv_inter_slice: ue;
            }
            if sps_temporal_mvp_enabled_flag { ph_temporal_mvp_enabled_flag; }
            if (ph_temporal_mvp_enabled_flag and pps_rpl_info_in_ph_flag) {
                if ENTRIES_1 { ph_collocated_from_l0_flag; }
                let COLLOCATED_IN_0 = (ph_collocated_from_l0_flag * ENTRIES_0);
                let IS_IN_1 = (not ph_collocated_from_l0_flag);
                let COLLOCATED_IN_1 = (IS_IN_1 * ENTRIES_1);
                let COLLOCATED_IN = (COLLOCATED_IN_0 + COLLOCATED_IN_1);
                if (COLLOCATED_IN > 1) { ph_collocated_ref_idx: ue; }
            }
            if sps_mmvd_fullpel_only_enabled_flag { ph_mmvd_fullpel_only_flag; }
            let LISTS_IN_SLICES = (not pps_rpl_info_in_ph_flag);
            if (LISTS_IN_SLICES or ENTRIES_1) {
                ph_mvd_l1_zero_flag;
                if sps_bdof_control_present_in_ph_flag { ph_bdof_disabled_flag; }
                if sps_dmvr_control_present_in_ph_flag { ph_dmvr_disabled_flag; }
            }
            if sps_prof_control_present_in_ph_flag { ph_prof_disabled_flag; }
            let HAS_WEIGHTS = (ARE_WEIGHTED and pps_wp_info_in_ph_flag);
        }
    } };
}
/// Partitions and motion of inter slices. After it come prediction weights, if the header has them.
pub const INTER: [Row; 40] = inter_syntax!(table);

macro_rules! qp_syntax {
    ($as:ident) => { $as! {
        if pps_qp_delta_info_in_ph_flag { ph_qp_delta*: se; }
    } };
}
/// The QP of the slices.
pub const QP: [Row; 2] = qp_syntax!(table);

macro_rules! filters_syntax {
    ($as:ident) => { $as! {
        if sps_joint_cbcr_enabled_flag { ph_joint_cbcr_sign_flag; }
        if (sps_sao_enabled_flag and pps_sao_info_in_ph_flag) {
            ph_sao_luma_enabled_flag;
            if sps_chroma_format_idc { ph_sao_chroma_enabled_flag; }
        }
        default ph_deblocking_params_present_flag = 0;
        if pps_dbf_info_in_ph_flag { ph_deblocking_params_present_flag; }
        if ph_deblocking_params_present_flag {
            default ph_deblocking_filter_disabled_flag = 0;
            if (not pps_deblocking_filter_disabled_flag) { ph_deblocking_filter_disabled_flag; }
            if (not ph_deblocking_filter_disabled_flag) {
                ph_luma_beta_offset_div2: se;
                ph_luma_tc_offset_div2: se;
                if pps_chroma_tool_offsets_present_flag {
                    ph_cb_beta_offset_div2: se;
                    ph_cb_tc_offset_div2: se;
                    ph_cr_beta_offset_div2: se;
                    ph_cr_tc_offset_div2: se;
                }
            }
        }
        if pps_picture_header_extension_present_flag {
            ph_extension_length: ue in 0..=256;
            for EXTENSION_BYTE in ph_extension_length { ph_extension_data_byte: u(8); }
        }
    } };
}
/// Chroma residuals, in-loop filters, and the extension.
pub const FILTERS: [Row; 25] = filters_syntax!(table);

/// The end of a picture header that is a unit of its own (clause 7.3.2.7).
pub const TRAILING: [Row; 1] = table! { trailing ph_rbsp_trailing_bits; };

/// The fields with a star, each of which a merged stream replaces: the id of the PPS, the filter, LMCS and scaling lists, and the
/// QP.
pub const STARRED: [u16; 17] = [
    ph_pic_parameter_set_id,
    alf_enabled_flag,
    num_alf_aps_ids_luma,
    alf_aps_id_luma,
    alf_cb_enabled_flag,
    alf_cr_enabled_flag,
    alf_aps_id_chroma,
    alf_cc_cb_enabled_flag,
    alf_cc_cb_aps_id,
    alf_cc_cr_enabled_flag,
    alf_cc_cr_aps_id,
    ph_lmcs_enabled_flag,
    ph_lmcs_aps_id,
    ph_chroma_residual_scale_flag,
    ph_explicit_scaling_list_enabled_flag,
    ph_scaling_list_aps_id,
    ph_qp_delta,
];

pub(crate) use filters_syntax;
pub(crate) use inter_syntax;
pub(crate) use intra_syntax;
pub(crate) use lmcs_and_scaling_syntax;
pub(crate) use order_count_syntax;
pub(crate) use output_syntax;
pub(crate) use picture_syntax;
pub(crate) use pps_id_syntax;
pub(crate) use qp_syntax;
