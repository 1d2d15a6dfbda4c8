//! The tables of H.266 clause 7.3.2.4 (the sequence parameter set), for the accepted profiles.
//!
//! Each has one purpose. A set rewritten from another copies all fields of a table, or replaces them all.
use vx_bits::rules::*;
use vx_fields::names::rpl::*;
use vx_fields::names::sps::*;
use vx_fields::rpl::*;
use vx_fields::sps::*;
use vx_table::{Row, table};

/// The ids of the set and of its VPS.
pub const IDS: [Row; 2] = table! {
    sps_seq_parameter_set_id*: u(4);
    sps_video_parameter_set_id*: u(4) in 0..=0 else Profile(VPS_REFERRED_TO);
};

/// Sublayers, chroma format and CTU size, before profile, tier and level.
pub const START: [Row; 4] = table! {
    sps_max_sublayers_minus1: u(3) in 0..=6;
    sps_chroma_format_idc: u(2) in 0..=1 else Profile(CHROMA_FORMAT);
    sps_log2_ctu_size_minus5: u(2) in 0..=2;
    sps_ptl_dpb_hrd_params_present_flag in 1..=1 else Profile(NO_PROFILE_TIER_LEVEL);
};

/// What may change within a coded video sequence.
pub const RESAMPLING: [Row; 4] = table! {
    sps_gdr_enabled_flag;
    sps_ref_pic_resampling_enabled_flag;
    if sps_ref_pic_resampling_enabled_flag {
        sps_res_change_in_clvs_allowed_flag in 0..=0 else Profile(RESOLUTION_CHANGE);
    }
};

/// The size of the pictures and their conformance window.
pub const SIZE: [Row; 8] = table! {
    sps_pic_width_max_in_luma_samples*: ue multiple 8 upto 16384 else Limit(TOO_LARGE);
    sps_pic_height_max_in_luma_samples*: ue multiple 8 upto 16384 else Limit(TOO_LARGE);
    sps_conformance_window_flag*;
    if sps_conformance_window_flag {
        sps_conf_win_left_offset*: ue;
        sps_conf_win_right_offset*: ue;
        sps_conf_win_top_offset*: ue;
        sps_conf_win_bottom_offset*: ue;
    }
};

/// The CTUs of the pictures, in which subpictures are measured, and whether subpictures are described.
pub const CTUS: [Row; 10] = table! {
    let CTB_SIZE = (sps_log2_ctu_size_minus5 + 5);
    let CTB_SIZE = (pow2 CTB_SIZE);
    let WIDTH_IN_CTBS = (sps_pic_width_max_in_luma_samples / CTB_SIZE);
    let HEIGHT_IN_CTBS = (sps_pic_height_max_in_luma_samples / CTB_SIZE);
    let IS_WIDE = (WIDTH_IN_CTBS > 1);
    let IS_HIGH = (HEIGHT_IN_CTBS > 1);
    let X_BITS = (ceil_log2 WIDTH_IN_CTBS);
    let Y_BITS = (ceil_log2 HEIGHT_IN_CTBS);
    let NUM_PLACES = 0;
    sps_subpic_info_present_flag*;
};

/// The number of subpictures, and what they have in common.
pub const SUBPICTURES: [Row; 5] = table! {
    sps_num_subpics_minus1*: ue in 0..=999 else Limit(TOO_MANY_SUBPICTURES);
    if sps_num_subpics_minus1 {
        sps_independent_subpics_flag*;
        sps_subpic_same_size_flag*;
        let NUM_PLACES = (sps_num_subpics_minus1 + 1);
    }
};

/// The place of a subpicture, in CTUs, and how it is coded.
///
/// The first has no corner and the last no size; they are derived.
pub const PLACE: [Row; 14] = table! {
    let LIKE_FIRST = (sps_subpic_same_size_flag and SUBPIC);
    if (not LIKE_FIRST) {
        if (SUBPIC and IS_WIDE) { sps_subpic_ctu_top_left_x*: u(X_BITS); }
        if (SUBPIC and IS_HIGH) { sps_subpic_ctu_top_left_y*: u(Y_BITS); }
        if (SUBPIC < sps_num_subpics_minus1) {
            if IS_WIDE { sps_subpic_width_minus1*: u(X_BITS); }
            if IS_HIGH { sps_subpic_height_minus1*: u(Y_BITS); }
        }
    }
    if (not sps_independent_subpics_flag) {
        sps_subpic_treated_as_pic_flag*;
        sps_loop_filter_across_subpic_enabled_flag*;
    }
};

/// The ids of the subpictures.
pub const SUBPIC_IDS: [Row; 8] = table! {
    sps_subpic_id_len_minus1*: ue in 0..=15;
    sps_subpic_id_mapping_explicitly_signalled_flag*;
    default sps_subpic_id_mapping_present_flag = 0;
    if sps_subpic_id_mapping_explicitly_signalled_flag { sps_subpic_id_mapping_present_flag*; }
    if sps_subpic_id_mapping_present_flag {
        for SUBPIC in (sps_num_subpics_minus1 + 1) { sps_subpic_id*: u(sps_subpic_id_len_minus1 + 1); }
    }
};

/// Bits of samples, entry points, bits of picture order counts, and extra bits of headers.
pub const COUNTS: [Row; 13] = table! {
    sps_bitdepth_minus8: ue in 0..=2 else Profile(BIT_DEPTH);
    sps_entropy_coding_sync_enabled_flag;
    sps_entry_point_offsets_present_flag;
    sps_log2_max_pic_order_cnt_lsb_minus4: u(4) in 0..=12;
    sps_poc_msb_cycle_flag;
    if sps_poc_msb_cycle_flag {
        sps_poc_msb_cycle_len_minus1: ue in 0..=(27 - sps_log2_max_pic_order_cnt_lsb_minus4);
    }
    sps_num_extra_ph_bytes: u(2);
    for EXTRA_BIT in (sps_num_extra_ph_bytes * 8) { sps_extra_ph_bit_present_flag; }
    sps_num_extra_sh_bytes: u(2);
    for EXTRA_BIT in (sps_num_extra_sh_bytes * 8) { sps_extra_sh_bit_present_flag; }
};

/// Whether each sublayer has DPB parameters, before these.
pub const SUBLAYER_DPB: [Row; 3] = table! {
    default sps_sublayer_dpb_params_flag = 0;
    if sps_max_sublayers_minus1 { sps_sublayer_dpb_params_flag*; }
};

/// The limits of partitions: of intra slices in luma and in chroma, and of inter slices.
pub const PARTITIONS: [Row; 21] = table! {
    sps_log2_min_luma_coding_block_size_minus2: ue;
    sps_partition_constraints_override_enabled_flag;
    sps_log2_diff_min_qt_min_cb_intra_slice_luma: ue;
    sps_max_mtt_hierarchy_depth_intra_slice_luma: ue;
    if sps_max_mtt_hierarchy_depth_intra_slice_luma {
        sps_log2_diff_max_bt_min_qt_intra_slice_luma: ue;
        sps_log2_diff_max_tt_min_qt_intra_slice_luma: ue;
    }
    default sps_qtbtt_dual_tree_intra_flag = 0;
    if sps_chroma_format_idc { sps_qtbtt_dual_tree_intra_flag; }
    if sps_qtbtt_dual_tree_intra_flag {
        sps_log2_diff_min_qt_min_cb_intra_slice_chroma: ue;
        sps_max_mtt_hierarchy_depth_intra_slice_chroma: ue;
        if sps_max_mtt_hierarchy_depth_intra_slice_chroma {
            sps_log2_diff_max_bt_min_qt_intra_slice_chroma: ue;
            sps_log2_diff_max_tt_min_qt_intra_slice_chroma: ue;
        }
    }
    sps_log2_diff_min_qt_min_cb_inter_slice: ue;
    sps_max_mtt_hierarchy_depth_inter_slice: ue;
    if sps_max_mtt_hierarchy_depth_inter_slice {
        sps_log2_diff_max_bt_min_qt_inter_slice: ue;
        sps_log2_diff_max_tt_min_qt_inter_slice: ue;
    }
};

/// Transforms.
pub const TRANSFORMS: [Row; 11] = table! {
    if sps_log2_ctu_size_minus5 { sps_max_luma_transform_size_64_flag; }
    sps_transform_skip_enabled_flag;
    if sps_transform_skip_enabled_flag {
        sps_log2_transform_skip_max_size_minus2: ue;
        sps_bdpcm_enabled_flag;
    }
    sps_mts_enabled_flag;
    if sps_mts_enabled_flag {
        sps_explicit_mts_intra_enabled_flag;
        sps_explicit_mts_inter_enabled_flag;
    }
    sps_lfnst_enabled_flag;
};

/// The chroma QP tables.
pub const CHROMA_QP: [Row; 12] = table! {
    if sps_chroma_format_idc {
        sps_joint_cbcr_enabled_flag;
        sps_same_qp_table_for_chroma_flag;
        let NUM_QP_TABLES = 1;
        if (not sps_same_qp_table_for_chroma_flag) { let NUM_QP_TABLES = (sps_joint_cbcr_enabled_flag + 2); }
        for QP_TABLE in NUM_QP_TABLES {
            sps_qp_table_start_minus26: se;
            sps_num_points_in_qp_table_minus1: ue in 0..=74;
            for QP_POINT in (sps_num_points_in_qp_table_minus1 + 1) {
                sps_delta_qp_in_val_minus1: ue;
                sps_delta_qp_diff_val: ue;
            }
        }
    }
};

/// In-loop filters.
pub const FILTERS: [Row; 5] = table! {
    sps_sao_enabled_flag;
    sps_alf_enabled_flag;
    if (sps_alf_enabled_flag and sps_chroma_format_idc) { sps_ccalf_enabled_flag; }
    sps_lmcs_enabled_flag;
};

/// Weights and reference pictures, and the number of list 0's reference picture list structures.
pub const REFERENCES: [Row; 7] = table! {
    sps_weighted_pred_flag;
    sps_weighted_bipred_flag;
    sps_long_term_ref_pics_flag;
    sps_idr_rpl_present_flag;
    sps_rpl1_same_as_rpl0_flag;
    sps_num_ref_pic_lists: ue in 0..=64 else Limit(TOO_MANY_REF_PIC_LISTS);
    let NUM_STRUCTURES = sps_num_ref_pic_lists;
};

/// The number of list 1's structures, if it has its own.
pub const LIST_1: [Row; 4] = table! {
    let NUM_STRUCTURES = 0;
    if (not sps_rpl1_same_as_rpl0_flag) {
        sps_num_ref_pic_lists: ue in 0..=64 else Limit(TOO_MANY_REF_PIC_LISTS);
        let NUM_STRUCTURES = sps_num_ref_pic_lists;
    }
};

/// Inter prediction.
pub const INTER: [Row; 34] = table! {
    sps_ref_wraparound_enabled_flag;
    sps_temporal_mvp_enabled_flag;
    if sps_temporal_mvp_enabled_flag { sps_sbtmvp_enabled_flag; }
    sps_amvr_enabled_flag;
    sps_bdof_enabled_flag;
    if sps_bdof_enabled_flag { sps_bdof_control_present_in_ph_flag; }
    sps_smvd_enabled_flag;
    sps_dmvr_enabled_flag;
    if sps_dmvr_enabled_flag { sps_dmvr_control_present_in_ph_flag; }
    sps_mmvd_enabled_flag;
    if sps_mmvd_enabled_flag { sps_mmvd_fullpel_only_enabled_flag; }
    sps_six_minus_max_num_merge_cand: ue in 0..=5;
    sps_sbt_enabled_flag;
    sps_affine_enabled_flag;
    if sps_affine_enabled_flag {
        sps_five_minus_max_num_subblock_merge_cand: ue;
        sps_6param_affine_enabled_flag;
        if sps_amvr_enabled_flag { sps_affine_amvr_enabled_flag; }
        sps_affine_prof_enabled_flag;
        if sps_affine_prof_enabled_flag { sps_prof_control_present_in_ph_flag; }
    }
    sps_bcw_enabled_flag;
    sps_ciip_enabled_flag;
    if (sps_six_minus_max_num_merge_cand <= 4) {
        sps_gpm_enabled_flag;
        if sps_gpm_enabled_flag {
            if (sps_six_minus_max_num_merge_cand <= 3) { sps_max_num_merge_cand_minus_max_num_gpm_cand: ue; }
        }
    }
    sps_log2_parallel_merge_level_minus2: ue;
};

/// Intra prediction, palette, intra block copy and deblocking that adapts to luma.
pub const INTRA: [Row; 21] = table! {
    sps_isp_enabled_flag;
    sps_mrl_enabled_flag;
    sps_mip_enabled_flag;
    if sps_chroma_format_idc { sps_cclm_enabled_flag; }
    if (sps_chroma_format_idc == 1) {
        sps_chroma_horizontal_collocated_flag;
        sps_chroma_vertical_collocated_flag;
    }
    sps_palette_enabled_flag in 0..=0 else Profile(PALETTE);
    if sps_transform_skip_enabled_flag { sps_min_qp_prime_ts: ue; }
    sps_ibc_enabled_flag;
    if sps_ibc_enabled_flag { sps_six_minus_max_num_ibc_merge_cand: ue; }
    sps_ladf_enabled_flag;
    if sps_ladf_enabled_flag {
        sps_num_ladf_intervals_minus2: u(2);
        sps_ladf_lowest_interval_qp_offset: se;
        for INTERVAL in (sps_num_ladf_intervals_minus2 + 1) {
            sps_ladf_qp_offset: se;
            sps_ladf_delta_threshold_minus1: ue;
        }
    }
};

/// Scaling lists, quantization, and what the accepted profiles don't allow.
pub const SCALING: [Row; 6] = table! {
    sps_explicit_scaling_list_enabled_flag;
    if (sps_lfnst_enabled_flag and sps_explicit_scaling_list_enabled_flag) {
        sps_scaling_matrix_for_lfnst_disabled_flag;
    }
    sps_dep_quant_enabled_flag;
    sps_sign_data_hiding_enabled_flag;
    sps_virtual_boundaries_enabled_flag in 0..=0 else Profile(VIRTUAL_BOUNDARIES);
};

/// Whether timing and HRD parameters follow.
pub const TIMED: [Row; 1] = table! {
    sps_timing_hrd_params_present_flag*;
};

/// Whether each sublayer has HRD parameters, between the general ones and those of sublayers.
pub const SUBLAYER_CPB: [Row; 4] = table! {
    default sps_sublayer_cpb_params_present_flag = 0;
    if sps_timing_hrd_params_present_flag {
        if sps_max_sublayers_minus1 { sps_sublayer_cpb_params_present_flag*; }
    }
};

/// Fields or frames, usability information, and the end.
pub const END: [Row; 9] = table! {
    sps_field_seq_flag;
    sps_vui_parameters_present_flag*;
    if sps_vui_parameters_present_flag {
        sps_vui_payload_size_minus1*: ue in 0..=1023;
        zeros vui_payload_byte;
        for VUI_BYTE in (sps_vui_payload_size_minus1 + 1) { vui_payload_byte*: u(8); }
    }
    sps_extension_flag in 0..=0 else Profile(SPS_EXTENSION);
    trailing sps_rbsp_trailing_bits;
};

/// The names that the tables of kept fields use, and what a rewritten set copies from its source in addition to these fields:
/// whether there is timing, the usability information, and the gap at the end.
pub(crate) const TAKEN_BESIDES: [u16; 21] = [
    EXTRA_BIT,
    NUM_QP_TABLES,
    QP_TABLE,
    QP_POINT,
    NUM_STRUCTURES,
    STRUCTURE,
    IN_SPS,
    IN_HEADER,
    MAY_WEIGHT,
    ENTRY,
    MAY_BE_0,
    HAS_SIGN,
    IS_LONG,
    LONG_ENTRIES,
    INTERVAL,
    sps_timing_hrd_params_present_flag,
    sps_vui_parameters_present_flag,
    sps_vui_payload_size_minus1,
    vui_payload_byte,
    VUI_BYTE,
    sps_rbsp_trailing_bits,
];
