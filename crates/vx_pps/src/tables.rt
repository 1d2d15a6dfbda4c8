//! The tables of H.266 clause 7.3.2.5, the picture parameter set. Its fields of tiles and slices can't be written as a table,
//! and are coded in direct style between [`SUBPIC_IDS`] and [`PREDICTION`].
//!
//! Tables end where fields that a rewritten set copies meet fields that it replaces.
use vx_bits::rules::{
    MIXED_NAL_TYPES, PPS_EXTENSION, REFERENCE_WRAPAROUND, SCALING_WINDOW, TOO_LARGE,
    TOO_MANY_SUBPICTURES,
};
use vx_fields::names::pps::*;
use vx_fields::pps::*;
use vx_table::{Row, table};

/// The ids.
pub const IDS: [Row; 2] = table! {
    pps_pic_parameter_set_id*: u(6);
    pps_seq_parameter_set_id*: u(4);
};

/// Whether the slices of a picture have several NAL unit types.
pub const NAL_TYPES: [Row; 1] = table! {
    pps_mixed_nalu_types_in_pic_flag in 0..=0 else Profile(MIXED_NAL_TYPES);
};

/// The size of a picture, and its conformance window.
pub const SIZE: [Row; 8] = table! {
    pps_pic_width_in_luma_samples*: ue multiple 8 upto 16384 else Limit(TOO_LARGE);
    pps_pic_height_in_luma_samples*: ue multiple 8 upto 16384 else Limit(TOO_LARGE);
    pps_conformance_window_flag*;
    if pps_conformance_window_flag {
        pps_conf_win_left_offset*: ue;
        pps_conf_win_right_offset*: ue;
        pps_conf_win_top_offset*: ue;
        pps_conf_win_bottom_offset*: ue;
    }
};

/// The scaling window, and whether picture headers can say that a picture is not shown.
pub const OUTPUT: [Row; 2] = table! {
    pps_scaling_window_explicit_signalling_flag in 0..=0 else Profile(SCALING_WINDOW);
    pps_output_flag_present_flag;
};

/// Whether the picture may have several tiles and slices, and the ids of its subpictures.
pub const SUBPIC_IDS: [Row; 9] = table! {
    pps_no_pic_partition_flag*;
    pps_subpic_id_mapping_present_flag*;
    if pps_subpic_id_mapping_present_flag {
        default pps_num_subpics_minus1 = 0;
        if (not pps_no_pic_partition_flag) {
            pps_num_subpics_minus1*: ue below 1000 else Limit(TOO_MANY_SUBPICTURES);
        }
        pps_subpic_id_len_minus1*: ue in 0..=15;
        for SUBPIC in (pps_num_subpics_minus1 + 1) {
            pps_subpic_id*: u(pps_subpic_id_len_minus1 + 1);
        }
    }
};

/// After tiles and slices: references and weights.
pub const PREDICTION: [Row; 7] = table! {
    pps_cabac_init_present_flag;
    for LIST in 2 { pps_num_ref_idx_default_active_minus1: ue in 0..=14; }
    pps_rpl1_idx_present_flag;
    pps_weighted_pred_flag;
    pps_weighted_bipred_flag;
    pps_ref_wraparound_enabled_flag in 0..=0 else Profile(REFERENCE_WRAPAROUND);
};

/// The QP to which slices add.
pub const INIT_QP: [Row; 1] = table! { pps_init_qp_minus26*: se in -38..=37; };

/// Offsets of the chroma QP.
pub const QP_OFFSETS: [Row; 17] = table! {
    pps_cu_qp_delta_enabled_flag;
    pps_chroma_tool_offsets_present_flag;
    if pps_chroma_tool_offsets_present_flag {
        pps_cb_qp_offset: se;
        pps_cr_qp_offset: se;
        pps_joint_cbcr_qp_offset_present_flag;
        if pps_joint_cbcr_qp_offset_present_flag { pps_joint_cbcr_qp_offset_value: se; }
        pps_slice_chroma_qp_offsets_present_flag;
        pps_cu_chroma_qp_offset_list_enabled_flag;
        if pps_cu_chroma_qp_offset_list_enabled_flag {
            pps_chroma_qp_offset_list_len_minus1: ue in 0..=5;
            for OFFSET in (pps_chroma_qp_offset_list_len_minus1 + 1) {
                pps_cb_qp_offset_list: se;
                pps_cr_qp_offset_list: se;
                if pps_joint_cbcr_qp_offset_present_flag { pps_joint_cbcr_qp_offset_list: se; }
            }
        }
    }
};

/// Whether the deblocking filter is on.
pub const DBF_CONTROL: [Row; 6] = table! {
    pps_deblocking_filter_control_present_flag;
    default pps_deblocking_filter_override_enabled_flag = 0;
    default pps_deblocking_filter_disabled_flag = 0;
    if pps_deblocking_filter_control_present_flag {
        pps_deblocking_filter_override_enabled_flag;
        pps_deblocking_filter_disabled_flag;
    }
};

/// Whether the deblocking filter's parameters are in picture headers. It is a kept field even if it is absent, as 0.
pub const DBF_INFO: [Row; 6] = table! {
    let PARTITIONED = (not pps_no_pic_partition_flag);
    let HAS_DBF_INFO = (PARTITIONED and pps_deblocking_filter_override_enabled_flag);
    if HAS_DBF_INFO { pps_dbf_info_in_ph_flag; }
    if (not HAS_DBF_INFO) { fill pps_dbf_info_in_ph_flag; }
};

/// The offsets of the deblocking filter.
pub const DBF_OFFSETS: [Row; 9] = table! {
    if pps_deblocking_filter_control_present_flag {
        if (not pps_deblocking_filter_disabled_flag) {
            pps_luma_beta_offset_div2: se;
            pps_luma_tc_offset_div2: se;
            if pps_chroma_tool_offsets_present_flag {
                pps_cb_beta_offset_div2: se;
                pps_cb_tc_offset_div2: se;
                pps_cr_beta_offset_div2: se;
                pps_cr_tc_offset_div2: se;
            }
        }
    }
};

/// What else is in picture headers. Lists, sample adaptive offset and weights are kept fields even if they are absent, as 0.
pub const HEADER_INFO: [Row; 15] = table! {
    let IS_WEIGHTED = (pps_weighted_pred_flag or pps_weighted_bipred_flag);
    if (not pps_no_pic_partition_flag) {
        pps_rpl_info_in_ph_flag;
        pps_sao_info_in_ph_flag;
        pps_alf_info_in_ph_flag*;
        let HAS_WP_INFO = (IS_WEIGHTED and pps_rpl_info_in_ph_flag);
        if HAS_WP_INFO { pps_wp_info_in_ph_flag; }
        if (not HAS_WP_INFO) { fill pps_wp_info_in_ph_flag; }
        pps_qp_delta_info_in_ph_flag*;
    }
    if pps_no_pic_partition_flag {
        fill pps_rpl_info_in_ph_flag;
        fill pps_sao_info_in_ph_flag;
        fill pps_wp_info_in_ph_flag;
    }
};

/// The extensions of headers, and the end.
pub const END: [Row; 4] = table! {
    pps_picture_header_extension_present_flag;
    pps_slice_header_extension_present_flag;
    pps_extension_flag in 0..=0 else Profile(PPS_EXTENSION);
    trailing pps_rbsp_trailing_bits;
};
