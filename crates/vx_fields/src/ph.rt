//! Fields of a picture header, clause 7.3.2.8.

/// Whether the picture is a GDR or an IRAP picture.
pub const ph_gdr_or_irap_pic_flag: u16 = 600;
/// Whether no other picture refers to it.
pub const ph_non_ref_pic_flag: u16 = 601;
/// Whether it is a GDR picture.
pub const ph_gdr_pic_flag: u16 = 602;
/// Whether there may be inter slices.
pub const ph_inter_slice_allowed_flag: u16 = 603;
/// Whether there may be intra slices; 1 if absent.
pub const ph_intra_slice_allowed_flag: u16 = 604;
/// The id of the picture parameter set.
pub const ph_pic_parameter_set_id: u16 = 605;
/// The low bits of the picture order count.
pub const ph_pic_order_cnt_lsb: u16 = 606;
/// How far a GDR picture is from the recovery point.
pub const ph_recovery_poc_cnt: u16 = 607;
/// An extra bit.
pub const ph_extra_bit: u16 = 608;
/// Whether the cycle of the high bits follows.
pub const ph_poc_msb_cycle_present_flag: u16 = 609;
/// That cycle.
pub const ph_poc_msb_cycle_val: u16 = 610;
/// Whether there is luma mapping with chroma scaling.
pub const ph_lmcs_enabled_flag: u16 = 611;
/// The id of its adaptation parameter set.
pub const ph_lmcs_aps_id: u16 = 612;
/// Whether chroma residuals are scaled.
pub const ph_chroma_residual_scale_flag: u16 = 613;
/// Whether there are scaling lists.
pub const ph_explicit_scaling_list_enabled_flag: u16 = 614;
/// The id of their adaptation parameter set.
pub const ph_scaling_list_aps_id: u16 = 615;
/// Whether the picture is shown; 1 if absent.
pub const ph_pic_output_flag: u16 = 616;
/// Whether the header has its own limits of partitions.
pub const ph_partition_constraints_override_flag: u16 = 617;
/// Intra luma: the least quadtree leaf over the least coding block, in binary logarithms.
pub const ph_log2_diff_min_qt_min_cb_intra_slice_luma: u16 = 618;
/// Intra luma: the greatest depth of multi-type trees.
pub const ph_max_mtt_hierarchy_depth_intra_slice_luma: u16 = 619;
/// Intra luma: the largest binary split over the least quadtree leaf, in binary logarithms.
pub const ph_log2_diff_max_bt_min_qt_intra_slice_luma: u16 = 620;
/// Intra luma: the largest ternary split over the least quadtree leaf, in binary logarithms.
pub const ph_log2_diff_max_tt_min_qt_intra_slice_luma: u16 = 621;
/// Intra chroma: the least quadtree leaf over the least coding block, in binary logarithms.
pub const ph_log2_diff_min_qt_min_cb_intra_slice_chroma: u16 = 622;
/// Intra chroma: the greatest depth of multi-type trees.
pub const ph_max_mtt_hierarchy_depth_intra_slice_chroma: u16 = 623;
/// Intra chroma: the largest binary split over the least quadtree leaf, in binary logarithms.
pub const ph_log2_diff_max_bt_min_qt_intra_slice_chroma: u16 = 624;
/// Intra chroma: the largest ternary split over the least quadtree leaf, in binary logarithms.
pub const ph_log2_diff_max_tt_min_qt_intra_slice_chroma: u16 = 625;
/// The depth at which the QP changes in intra slices.
pub const ph_cu_qp_delta_subdiv_intra_slice: u16 = 626;
/// The depth at which chroma QP offsets change in intra slices.
pub const ph_cu_chroma_qp_offset_subdiv_intra_slice: u16 = 627;
/// Inter slices: the least quadtree leaf over the least coding block, in binary logarithms.
pub const ph_log2_diff_min_qt_min_cb_inter_slice: u16 = 628;
/// Inter slices: the greatest depth of multi-type trees.
pub const ph_max_mtt_hierarchy_depth_inter_slice: u16 = 629;
/// Inter slices: the largest binary split over the least quadtree leaf, in binary logarithms.
pub const ph_log2_diff_max_bt_min_qt_inter_slice: u16 = 630;
/// Inter slices: the largest ternary split over the least quadtree leaf, in binary logarithms.
pub const ph_log2_diff_max_tt_min_qt_inter_slice: u16 = 631;
/// The depth at which the QP changes in inter slices.
pub const ph_cu_qp_delta_subdiv_inter_slice: u16 = 632;
/// The depth at which chroma QP offsets change in inter slices.
pub const ph_cu_chroma_qp_offset_subdiv_inter_slice: u16 = 633;
/// Whether motion is predicted from another picture.
pub const ph_temporal_mvp_enabled_flag: u16 = 634;
/// Whether that picture is in list 0; 1 if absent.
pub const ph_collocated_from_l0_flag: u16 = 635;
/// The place of that picture in the list.
pub const ph_collocated_ref_idx: u16 = 636;
/// Whether motion differences of merge mode are whole samples.
pub const ph_mmvd_fullpel_only_flag: u16 = 637;
/// Whether motion differences of list 1 are zero.
pub const ph_mvd_l1_zero_flag: u16 = 638;
/// Whether bi-directional optical flow is off.
pub const ph_bdof_disabled_flag: u16 = 639;
/// Whether decoders refine no motion.
pub const ph_dmvr_disabled_flag: u16 = 640;
/// Whether affine prediction is not refined.
pub const ph_prof_disabled_flag: u16 = 641;
/// The QP of the slices, as a difference.
pub const ph_qp_delta: u16 = 642;
/// The sign of joint chroma residuals.
pub const ph_joint_cbcr_sign_flag: u16 = 643;
/// Whether there is sample adaptive offset of luma.
pub const ph_sao_luma_enabled_flag: u16 = 644;
/// Whether there is sample adaptive offset of chroma.
pub const ph_sao_chroma_enabled_flag: u16 = 645;
/// Whether the deblocking filter is described.
pub const ph_deblocking_params_present_flag: u16 = 646;
/// Whether it is off.
pub const ph_deblocking_filter_disabled_flag: u16 = 647;
/// The beta offset of luma, halved.
pub const ph_luma_beta_offset_div2: u16 = 648;
/// The tc offset of luma, halved.
pub const ph_luma_tc_offset_div2: u16 = 649;
/// The beta offset of Cb, halved.
pub const ph_cb_beta_offset_div2: u16 = 650;
/// The tc offset of Cb, halved.
pub const ph_cb_tc_offset_div2: u16 = 651;
/// The beta offset of Cr, halved.
pub const ph_cr_beta_offset_div2: u16 = 652;
/// The tc offset of Cr, halved.
pub const ph_cr_tc_offset_div2: u16 = 653;
/// The bytes of the extension.
pub const ph_extension_length: u16 = 654;
/// A byte of the extension.
pub const ph_extension_data_byte: u16 = 655;
/// The trailing bits of a picture header that is a unit of its own.
pub const ph_rbsp_trailing_bits: u16 = 656;

/// The numbers above, in their order.
pub const ALL: [u16; 57] = [
    ph_gdr_or_irap_pic_flag,
    ph_non_ref_pic_flag,
    ph_gdr_pic_flag,
    ph_inter_slice_allowed_flag,
    ph_intra_slice_allowed_flag,
    ph_pic_parameter_set_id,
    ph_pic_order_cnt_lsb,
    ph_recovery_poc_cnt,
    ph_extra_bit,
    ph_poc_msb_cycle_present_flag,
    ph_poc_msb_cycle_val,
    ph_lmcs_enabled_flag,
    ph_lmcs_aps_id,
    ph_chroma_residual_scale_flag,
    ph_explicit_scaling_list_enabled_flag,
    ph_scaling_list_aps_id,
    ph_pic_output_flag,
    ph_partition_constraints_override_flag,
    ph_log2_diff_min_qt_min_cb_intra_slice_luma,
    ph_max_mtt_hierarchy_depth_intra_slice_luma,
    ph_log2_diff_max_bt_min_qt_intra_slice_luma,
    ph_log2_diff_max_tt_min_qt_intra_slice_luma,
    ph_log2_diff_min_qt_min_cb_intra_slice_chroma,
    ph_max_mtt_hierarchy_depth_intra_slice_chroma,
    ph_log2_diff_max_bt_min_qt_intra_slice_chroma,
    ph_log2_diff_max_tt_min_qt_intra_slice_chroma,
    ph_cu_qp_delta_subdiv_intra_slice,
    ph_cu_chroma_qp_offset_subdiv_intra_slice,
    ph_log2_diff_min_qt_min_cb_inter_slice,
    ph_max_mtt_hierarchy_depth_inter_slice,
    ph_log2_diff_max_bt_min_qt_inter_slice,
    ph_log2_diff_max_tt_min_qt_inter_slice,
    ph_cu_qp_delta_subdiv_inter_slice,
    ph_cu_chroma_qp_offset_subdiv_inter_slice,
    ph_temporal_mvp_enabled_flag,
    ph_collocated_from_l0_flag,
    ph_collocated_ref_idx,
    ph_mmvd_fullpel_only_flag,
    ph_mvd_l1_zero_flag,
    ph_bdof_disabled_flag,
    ph_dmvr_disabled_flag,
    ph_prof_disabled_flag,
    ph_qp_delta,
    ph_joint_cbcr_sign_flag,
    ph_sao_luma_enabled_flag,
    ph_sao_chroma_enabled_flag,
    ph_deblocking_params_present_flag,
    ph_deblocking_filter_disabled_flag,
    ph_luma_beta_offset_div2,
    ph_luma_tc_offset_div2,
    ph_cb_beta_offset_div2,
    ph_cb_tc_offset_div2,
    ph_cr_beta_offset_div2,
    ph_cr_tc_offset_div2,
    ph_extension_length,
    ph_extension_data_byte,
    ph_rbsp_trailing_bits,
];
