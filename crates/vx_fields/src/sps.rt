//! Fields of a sequence parameter set, clause 7.3.2.4.

/// The id of the sequence parameter set.
pub const sps_seq_parameter_set_id: u16 = 100;
/// The id of its video parameter set; 0 for none.
pub const sps_video_parameter_set_id: u16 = 101;
/// The greatest number of sublayers, less 1.
pub const sps_max_sublayers_minus1: u16 = 102;
/// The chroma format: 0 for 4:0:0, 1 for 4:2:0.
pub const sps_chroma_format_idc: u16 = 103;
/// The binary logarithm of the CTU size, less 5.
pub const sps_log2_ctu_size_minus5: u16 = 104;
/// Whether profile, tier, level, DPB and HRD parameters follow.
pub const sps_ptl_dpb_hrd_params_present_flag: u16 = 105;
/// Whether there may be GDR pictures.
pub const sps_gdr_enabled_flag: u16 = 106;
/// Whether reference pictures may be resampled.
pub const sps_ref_pic_resampling_enabled_flag: u16 = 107;
/// Whether the size may change within a CLVS.
pub const sps_res_change_in_clvs_allowed_flag: u16 = 108;
/// The largest width of a picture.
pub const sps_pic_width_max_in_luma_samples: u16 = 109;
/// The largest height of a picture.
pub const sps_pic_height_max_in_luma_samples: u16 = 110;
/// Whether a conformance window follows.
pub const sps_conformance_window_flag: u16 = 111;
/// The left border of the conformance window.
pub const sps_conf_win_left_offset: u16 = 112;
/// The right border of the conformance window.
pub const sps_conf_win_right_offset: u16 = 113;
/// The top border of the conformance window.
pub const sps_conf_win_top_offset: u16 = 114;
/// The bottom border of the conformance window.
pub const sps_conf_win_bottom_offset: u16 = 115;
/// Whether subpictures are described.
pub const sps_subpic_info_present_flag: u16 = 116;
/// The number of subpictures, less 1.
pub const sps_num_subpics_minus1: u16 = 117;
/// Whether each subpicture is decoded by itself.
pub const sps_independent_subpics_flag: u16 = 118;
/// Whether all subpictures have the size of the first.
pub const sps_subpic_same_size_flag: u16 = 119;
/// The column of CTUs at which a subpicture begins.
pub const sps_subpic_ctu_top_left_x: u16 = 120;
/// The row of CTUs at which a subpicture begins.
pub const sps_subpic_ctu_top_left_y: u16 = 121;
/// The width of a subpicture in CTUs, less 1.
pub const sps_subpic_width_minus1: u16 = 122;
/// The height of a subpicture in CTUs, less 1.
pub const sps_subpic_height_minus1: u16 = 123;
/// Whether a subpicture is treated as a picture.
pub const sps_subpic_treated_as_pic_flag: u16 = 124;
/// Whether loop filters cross the borders of a subpicture.
pub const sps_loop_filter_across_subpic_enabled_flag: u16 = 125;
/// The bits of a subpicture id, less 1.
pub const sps_subpic_id_len_minus1: u16 = 126;
/// Whether subpicture ids are written, here or in the PPS.
pub const sps_subpic_id_mapping_explicitly_signalled_flag: u16 = 127;
/// Whether they are written here.
pub const sps_subpic_id_mapping_present_flag: u16 = 128;
/// The id of a subpicture.
pub const sps_subpic_id: u16 = 129;
/// The bits of a sample, less 8.
pub const sps_bitdepth_minus8: u16 = 130;
/// Whether entropy coding starts again in each row of CTUs.
pub const sps_entropy_coding_sync_enabled_flag: u16 = 131;
/// Whether slice headers have entry points.
pub const sps_entry_point_offsets_present_flag: u16 = 132;
/// The low bits of a picture order count, less 4.
pub const sps_log2_max_pic_order_cnt_lsb_minus4: u16 = 133;
/// Whether picture headers may have the cycle of the high bits.
pub const sps_poc_msb_cycle_flag: u16 = 134;
/// The bits of that cycle, less 1.
pub const sps_poc_msb_cycle_len_minus1: u16 = 135;
/// The bytes of flags on extra bits of picture headers.
pub const sps_num_extra_ph_bytes: u16 = 136;
/// Whether picture headers have an extra bit.
pub const sps_extra_ph_bit_present_flag: u16 = 137;
/// The bytes of flags on extra bits of slice headers.
pub const sps_num_extra_sh_bytes: u16 = 138;
/// Whether slice headers have an extra bit.
pub const sps_extra_sh_bit_present_flag: u16 = 139;
/// Whether each sublayer has DPB parameters of its own.
pub const sps_sublayer_dpb_params_flag: u16 = 140;
/// The binary logarithm of the least luma coding block size, less 2.
pub const sps_log2_min_luma_coding_block_size_minus2: u16 = 141;
/// Whether picture headers may have their own limits of partitions.
pub const sps_partition_constraints_override_enabled_flag: u16 = 142;
/// Intra luma: the least quadtree leaf over the least coding block, in binary logarithms.
pub const sps_log2_diff_min_qt_min_cb_intra_slice_luma: u16 = 143;
/// Intra luma: the greatest depth of multi-type trees.
pub const sps_max_mtt_hierarchy_depth_intra_slice_luma: u16 = 144;
/// Intra luma: the largest binary split over the least quadtree leaf, in binary logarithms.
pub const sps_log2_diff_max_bt_min_qt_intra_slice_luma: u16 = 145;
/// Intra luma: the largest ternary split over the least quadtree leaf, in binary logarithms.
pub const sps_log2_diff_max_tt_min_qt_intra_slice_luma: u16 = 146;
/// Whether luma and chroma have separate trees in intra slices.
pub const sps_qtbtt_dual_tree_intra_flag: u16 = 147;
/// Intra chroma: the least quadtree leaf over the least coding block, in binary logarithms.
pub const sps_log2_diff_min_qt_min_cb_intra_slice_chroma: u16 = 148;
/// Intra chroma: the greatest depth of multi-type trees.
pub const sps_max_mtt_hierarchy_depth_intra_slice_chroma: u16 = 149;
/// Intra chroma: the largest binary split over the least quadtree leaf, in binary logarithms.
pub const sps_log2_diff_max_bt_min_qt_intra_slice_chroma: u16 = 150;
/// Intra chroma: the largest ternary split over the least quadtree leaf, in binary logarithms.
pub const sps_log2_diff_max_tt_min_qt_intra_slice_chroma: u16 = 151;
/// Inter slices: the least quadtree leaf over the least coding block, in binary logarithms.
pub const sps_log2_diff_min_qt_min_cb_inter_slice: u16 = 152;
/// Inter slices: the greatest depth of multi-type trees.
pub const sps_max_mtt_hierarchy_depth_inter_slice: u16 = 153;
/// Inter slices: the largest binary split over the least quadtree leaf, in binary logarithms.
pub const sps_log2_diff_max_bt_min_qt_inter_slice: u16 = 154;
/// Inter slices: the largest ternary split over the least quadtree leaf, in binary logarithms.
pub const sps_log2_diff_max_tt_min_qt_inter_slice: u16 = 155;
/// Whether luma transforms may have 64 samples.
pub const sps_max_luma_transform_size_64_flag: u16 = 156;
/// Whether transforms may be skipped.
pub const sps_transform_skip_enabled_flag: u16 = 157;
/// The binary logarithm of the largest block whose transform is skipped, less 2.
pub const sps_log2_transform_skip_max_size_minus2: u16 = 158;
/// Whether there is BDPCM.
pub const sps_bdpcm_enabled_flag: u16 = 159;
/// Whether there are multiple transform sets.
pub const sps_mts_enabled_flag: u16 = 160;
/// Whether intra blocks name their transforms.
pub const sps_explicit_mts_intra_enabled_flag: u16 = 161;
/// Whether inter blocks name their transforms.
pub const sps_explicit_mts_inter_enabled_flag: u16 = 162;
/// Whether there is the low-frequency non-separable transform.
pub const sps_lfnst_enabled_flag: u16 = 163;
/// Whether chroma residuals may be coded jointly.
pub const sps_joint_cbcr_enabled_flag: u16 = 164;
/// Whether there is only one chroma QP table.
pub const sps_same_qp_table_for_chroma_flag: u16 = 165;
/// The luma QP at which a chroma QP table begins, less 26.
pub const sps_qp_table_start_minus26: u16 = 166;
/// The points of a chroma QP table, less 1.
pub const sps_num_points_in_qp_table_minus1: u16 = 167;
/// The step of the luma QP to a point, less 1.
pub const sps_delta_qp_in_val_minus1: u16 = 168;
/// The step of the chroma QP to a point, relative to the luma QP.
pub const sps_delta_qp_diff_val: u16 = 169;
/// Whether there is sample adaptive offset.
pub const sps_sao_enabled_flag: u16 = 170;
/// Whether there is the adaptive loop filter.
pub const sps_alf_enabled_flag: u16 = 171;
/// Whether there is the cross-component adaptive loop filter.
pub const sps_ccalf_enabled_flag: u16 = 172;
/// Whether there is luma mapping with chroma scaling.
pub const sps_lmcs_enabled_flag: u16 = 173;
/// Whether P slices may have weights.
pub const sps_weighted_pred_flag: u16 = 174;
/// Whether B slices may have weights.
pub const sps_weighted_bipred_flag: u16 = 175;
/// Whether there are long-term reference pictures.
pub const sps_long_term_ref_pics_flag: u16 = 176;
/// Whether slices of IDR pictures have reference lists.
pub const sps_idr_rpl_present_flag: u16 = 177;
/// Whether list 1 has the reference structures of list 0.
pub const sps_rpl1_same_as_rpl0_flag: u16 = 178;
/// The number of reference structures of a list.
pub const sps_num_ref_pic_lists: u16 = 179;
/// Whether motion may wrap around the picture.
pub const sps_ref_wraparound_enabled_flag: u16 = 180;
/// Whether motion is predicted from another picture.
pub const sps_temporal_mvp_enabled_flag: u16 = 181;
/// Whether it is predicted in this way for subblocks.
pub const sps_sbtmvp_enabled_flag: u16 = 182;
/// Whether the resolution of motion is adaptive.
pub const sps_amvr_enabled_flag: u16 = 183;
/// Whether there is bi-directional optical flow.
pub const sps_bdof_enabled_flag: u16 = 184;
/// Whether picture headers turn it off.
pub const sps_bdof_control_present_in_ph_flag: u16 = 185;
/// Whether motion differences may be symmetric.
pub const sps_smvd_enabled_flag: u16 = 186;
/// Whether decoders refine motion.
pub const sps_dmvr_enabled_flag: u16 = 187;
/// Whether picture headers turn that off.
pub const sps_dmvr_control_present_in_ph_flag: u16 = 188;
/// Whether there is merge mode with motion differences.
pub const sps_mmvd_enabled_flag: u16 = 189;
/// Whether these may only be whole samples.
pub const sps_mmvd_fullpel_only_enabled_flag: u16 = 190;
/// 6 less the greatest number of merge candidates.
pub const sps_six_minus_max_num_merge_cand: u16 = 191;
/// Whether there are subblock transforms.
pub const sps_sbt_enabled_flag: u16 = 192;
/// Whether there is affine motion.
pub const sps_affine_enabled_flag: u16 = 193;
/// 5 less the greatest number of subblock merge candidates.
pub const sps_five_minus_max_num_subblock_merge_cand: u16 = 194;
/// Whether affine motion may have six parameters.
pub const sps_6param_affine_enabled_flag: u16 = 195;
/// Whether the resolution of affine motion is adaptive.
pub const sps_affine_amvr_enabled_flag: u16 = 196;
/// Whether affine prediction is refined by optical flow.
pub const sps_affine_prof_enabled_flag: u16 = 197;
/// Whether picture headers turn that off.
pub const sps_prof_control_present_in_ph_flag: u16 = 198;
/// Whether there is bi-prediction with CU weights.
pub const sps_bcw_enabled_flag: u16 = 199;
/// Whether there is combined inter and intra prediction.
pub const sps_ciip_enabled_flag: u16 = 200;
/// Whether there is geometric partition.
pub const sps_gpm_enabled_flag: u16 = 201;
/// The greatest number of merge candidates less that of geometric partition.
pub const sps_max_num_merge_cand_minus_max_num_gpm_cand: u16 = 202;
/// The binary logarithm of the parallel merge level, less 2.
pub const sps_log2_parallel_merge_level_minus2: u16 = 203;
/// Whether there are intra subpartitions.
pub const sps_isp_enabled_flag: u16 = 204;
/// Whether intra prediction has several reference lines.
pub const sps_mrl_enabled_flag: u16 = 205;
/// Whether there is matrix intra prediction.
pub const sps_mip_enabled_flag: u16 = 206;
/// Whether chroma is predicted from luma by a linear model.
pub const sps_cclm_enabled_flag: u16 = 207;
/// Whether chroma samples lie at luma samples, horizontally.
pub const sps_chroma_horizontal_collocated_flag: u16 = 208;
/// Whether chroma samples lie at luma samples, vertically.
pub const sps_chroma_vertical_collocated_flag: u16 = 209;
/// Whether there is palette mode.
pub const sps_palette_enabled_flag: u16 = 210;
/// The least QP of blocks whose transform is skipped, less 4, in sixths.
pub const sps_min_qp_prime_ts: u16 = 211;
/// Whether there is intra block copy.
pub const sps_ibc_enabled_flag: u16 = 212;
/// 6 less the greatest number of merge candidates of intra block copy.
pub const sps_six_minus_max_num_ibc_merge_cand: u16 = 213;
/// Whether deblocking adapts to luma.
pub const sps_ladf_enabled_flag: u16 = 214;
/// The intervals of luma for that, less 2.
pub const sps_num_ladf_intervals_minus2: u16 = 215;
/// The QP offset of the lowest interval.
pub const sps_ladf_lowest_interval_qp_offset: u16 = 216;
/// The QP offset of an interval.
pub const sps_ladf_qp_offset: u16 = 217;
/// The size of an interval, less 1.
pub const sps_ladf_delta_threshold_minus1: u16 = 218;
/// Whether there are scaling lists.
pub const sps_explicit_scaling_list_enabled_flag: u16 = 219;
/// Whether blocks of the non-separable transform have none.
pub const sps_scaling_matrix_for_lfnst_disabled_flag: u16 = 220;
/// Whether there is dependent quantization.
pub const sps_dep_quant_enabled_flag: u16 = 221;
/// Whether signs may be hidden.
pub const sps_sign_data_hiding_enabled_flag: u16 = 222;
/// Whether there are virtual boundaries.
pub const sps_virtual_boundaries_enabled_flag: u16 = 223;
/// Whether timing and HRD parameters follow.
pub const sps_timing_hrd_params_present_flag: u16 = 224;
/// Whether each sublayer has HRD parameters of its own.
pub const sps_sublayer_cpb_params_present_flag: u16 = 225;
/// Whether pictures are fields.
pub const sps_field_seq_flag: u16 = 226;
/// Whether usability information follows.
pub const sps_vui_parameters_present_flag: u16 = 227;
/// The bytes of usability information, less 1.
pub const sps_vui_payload_size_minus1: u16 = 228;
/// A byte of `vui_payload()`; also the zeros before the first.
pub const vui_payload_byte: u16 = 229;
/// Whether an extension follows.
pub const sps_extension_flag: u16 = 230;
/// The trailing bits of a sequence parameter set.
pub const sps_rbsp_trailing_bits: u16 = 231;

/// The numbers above, in their order.
pub const ALL: [u16; 132] = [
    sps_seq_parameter_set_id,
    sps_video_parameter_set_id,
    sps_max_sublayers_minus1,
    sps_chroma_format_idc,
    sps_log2_ctu_size_minus5,
    sps_ptl_dpb_hrd_params_present_flag,
    sps_gdr_enabled_flag,
    sps_ref_pic_resampling_enabled_flag,
    sps_res_change_in_clvs_allowed_flag,
    sps_pic_width_max_in_luma_samples,
    sps_pic_height_max_in_luma_samples,
    sps_conformance_window_flag,
    sps_conf_win_left_offset,
    sps_conf_win_right_offset,
    sps_conf_win_top_offset,
    sps_conf_win_bottom_offset,
    sps_subpic_info_present_flag,
    sps_num_subpics_minus1,
    sps_independent_subpics_flag,
    sps_subpic_same_size_flag,
    sps_subpic_ctu_top_left_x,
    sps_subpic_ctu_top_left_y,
    sps_subpic_width_minus1,
    sps_subpic_height_minus1,
    sps_subpic_treated_as_pic_flag,
    sps_loop_filter_across_subpic_enabled_flag,
    sps_subpic_id_len_minus1,
    sps_subpic_id_mapping_explicitly_signalled_flag,
    sps_subpic_id_mapping_present_flag,
    sps_subpic_id,
    sps_bitdepth_minus8,
    sps_entropy_coding_sync_enabled_flag,
    sps_entry_point_offsets_present_flag,
    sps_log2_max_pic_order_cnt_lsb_minus4,
    sps_poc_msb_cycle_flag,
    sps_poc_msb_cycle_len_minus1,
    sps_num_extra_ph_bytes,
    sps_extra_ph_bit_present_flag,
    sps_num_extra_sh_bytes,
    sps_extra_sh_bit_present_flag,
    sps_sublayer_dpb_params_flag,
    sps_log2_min_luma_coding_block_size_minus2,
    sps_partition_constraints_override_enabled_flag,
    sps_log2_diff_min_qt_min_cb_intra_slice_luma,
    sps_max_mtt_hierarchy_depth_intra_slice_luma,
    sps_log2_diff_max_bt_min_qt_intra_slice_luma,
    sps_log2_diff_max_tt_min_qt_intra_slice_luma,
    sps_qtbtt_dual_tree_intra_flag,
    sps_log2_diff_min_qt_min_cb_intra_slice_chroma,
    sps_max_mtt_hierarchy_depth_intra_slice_chroma,
    sps_log2_diff_max_bt_min_qt_intra_slice_chroma,
    sps_log2_diff_max_tt_min_qt_intra_slice_chroma,
    sps_log2_diff_min_qt_min_cb_inter_slice,
    sps_max_mtt_hierarchy_depth_inter_slice,
    sps_log2_diff_max_bt_min_qt_inter_slice,
    sps_log2_diff_max_tt_min_qt_inter_slice,
    sps_max_luma_transform_size_64_flag,
    sps_transform_skip_enabled_flag,
    sps_log2_transform_skip_max_size_minus2,
    sps_bdpcm_enabled_flag,
    sps_mts_enabled_flag,
    sps_explicit_mts_intra_enabled_flag,
    sps_explicit_mts_inter_enabled_flag,
    sps_lfnst_enabled_flag,
    sps_joint_cbcr_enabled_flag,
    sps_same_qp_table_for_chroma_flag,
    sps_qp_table_start_minus26,
    sps_num_points_in_qp_table_minus1,
    sps_delta_qp_in_val_minus1,
    sps_delta_qp_diff_val,
    sps_sao_enabled_flag,
    sps_alf_enabled_flag,
    sps_ccalf_enabled_flag,
    sps_lmcs_enabled_flag,
    sps_weighted_pred_flag,
    sps_weighted_bipred_flag,
    sps_long_term_ref_pics_flag,
    sps_idr_rpl_present_flag,
    sps_rpl1_same_as_rpl0_flag,
    sps_num_ref_pic_lists,
    sps_ref_wraparound_enabled_flag,
    sps_temporal_mvp_enabled_flag,
    sps_sbtmvp_enabled_flag,
    sps_amvr_enabled_flag,
    sps_bdof_enabled_flag,
    sps_bdof_control_present_in_ph_flag,
    sps_smvd_enabled_flag,
    sps_dmvr_enabled_flag,
    sps_dmvr_control_present_in_ph_flag,
    sps_mmvd_enabled_flag,
    sps_mmvd_fullpel_only_enabled_flag,
    sps_six_minus_max_num_merge_cand,
    sps_sbt_enabled_flag,
    sps_affine_enabled_flag,
    sps_five_minus_max_num_subblock_merge_cand,
    sps_6param_affine_enabled_flag,
    sps_affine_amvr_enabled_flag,
    sps_affine_prof_enabled_flag,
    sps_prof_control_present_in_ph_flag,
    sps_bcw_enabled_flag,
    sps_ciip_enabled_flag,
    sps_gpm_enabled_flag,
    sps_max_num_merge_cand_minus_max_num_gpm_cand,
    sps_log2_parallel_merge_level_minus2,
    sps_isp_enabled_flag,
    sps_mrl_enabled_flag,
    sps_mip_enabled_flag,
    sps_cclm_enabled_flag,
    sps_chroma_horizontal_collocated_flag,
    sps_chroma_vertical_collocated_flag,
    sps_palette_enabled_flag,
    sps_min_qp_prime_ts,
    sps_ibc_enabled_flag,
    sps_six_minus_max_num_ibc_merge_cand,
    sps_ladf_enabled_flag,
    sps_num_ladf_intervals_minus2,
    sps_ladf_lowest_interval_qp_offset,
    sps_ladf_qp_offset,
    sps_ladf_delta_threshold_minus1,
    sps_explicit_scaling_list_enabled_flag,
    sps_scaling_matrix_for_lfnst_disabled_flag,
    sps_dep_quant_enabled_flag,
    sps_sign_data_hiding_enabled_flag,
    sps_virtual_boundaries_enabled_flag,
    sps_timing_hrd_params_present_flag,
    sps_sublayer_cpb_params_present_flag,
    sps_field_seq_flag,
    sps_vui_parameters_present_flag,
    sps_vui_payload_size_minus1,
    vui_payload_byte,
    sps_extension_flag,
    sps_rbsp_trailing_bits,
];
