//! The names of all fields, as `scripts/field_names.py` makes them of the constants.

/// The names in the order of their numbers, one after another.
pub(crate) static TEXT: [u8; 9758] = *b"vps_video_parameter_set_id\
      vps_max_layers_minus1\
      vps_max_sublayers_minus1\
      general_profile_idc\
      general_tier_flag\
      general_level_idc\
      ptl_frame_only_constraint_flag\
      ptl_multilayer_enabled_flag\
      gci_present_flag\
      gci_constraint_bit\
      gci_num_additional_bits\
      gci_reserved_bit\
      ptl_sublayer_level_present_flag\
      sublayer_level_idc\
      ptl_num_sub_profiles\
      general_sub_profile_idc\
      dpb_max_dec_pic_buffering_minus1\
      dpb_max_num_reorder_pics\
      dpb_max_latency_increase_plus1\
      num_units_in_tick\
      time_scale\
      general_nal_hrd_params_present_flag\
      general_vcl_hrd_params_present_flag\
      general_same_pic_timing_in_all_ols_flag\
      general_du_hrd_params_present_flag\
      tick_divisor_minus2\
      bit_rate_scale\
      cpb_size_scale\
      cpb_size_du_scale\
      hrd_cpb_cnt_minus1\
      fixed_pic_rate_general_flag\
      fixed_pic_rate_within_cvs_flag\
      elemental_duration_in_tc_minus1\
      low_delay_hrd_flag\
      bit_rate_value_minus1\
      cpb_size_value_minus1\
      cpb_size_du_value_minus1\
      bit_rate_du_value_minus1\
      cbr_flag\
      sps_seq_parameter_set_id\
      sps_video_parameter_set_id\
      sps_max_sublayers_minus1\
      sps_chroma_format_idc\
      sps_log2_ctu_size_minus5\
      sps_ptl_dpb_hrd_params_present_flag\
      sps_gdr_enabled_flag\
      sps_ref_pic_resampling_enabled_flag\
      sps_res_change_in_clvs_allowed_flag\
      sps_pic_width_max_in_luma_samples\
      sps_pic_height_max_in_luma_samples\
      sps_conformance_window_flag\
      sps_conf_win_left_offset\
      sps_conf_win_right_offset\
      sps_conf_win_top_offset\
      sps_conf_win_bottom_offset\
      sps_subpic_info_present_flag\
      sps_num_subpics_minus1\
      sps_independent_subpics_flag\
      sps_subpic_same_size_flag\
      sps_subpic_ctu_top_left_x\
      sps_subpic_ctu_top_left_y\
      sps_subpic_width_minus1\
      sps_subpic_height_minus1\
      sps_subpic_treated_as_pic_flag\
      sps_loop_filter_across_subpic_enabled_flag\
      sps_subpic_id_len_minus1\
      sps_subpic_id_mapping_explicitly_signalled_flag\
      sps_subpic_id_mapping_present_flag\
      sps_subpic_id\
      sps_bitdepth_minus8\
      sps_entropy_coding_sync_enabled_flag\
      sps_entry_point_offsets_present_flag\
      sps_log2_max_pic_order_cnt_lsb_minus4\
      sps_poc_msb_cycle_flag\
      sps_poc_msb_cycle_len_minus1\
      sps_num_extra_ph_bytes\
      sps_extra_ph_bit_present_flag\
      sps_num_extra_sh_bytes\
      sps_extra_sh_bit_present_flag\
      sps_sublayer_dpb_params_flag\
      sps_log2_min_luma_coding_block_size_minus2\
      sps_partition_constraints_override_enabled_flag\
      sps_log2_diff_min_qt_min_cb_intra_slice_luma\
      sps_max_mtt_hierarchy_depth_intra_slice_luma\
      sps_log2_diff_max_bt_min_qt_intra_slice_luma\
      sps_log2_diff_max_tt_min_qt_intra_slice_luma\
      sps_qtbtt_dual_tree_intra_flag\
      sps_log2_diff_min_qt_min_cb_intra_slice_chroma\
      sps_max_mtt_hierarchy_depth_intra_slice_chroma\
      sps_log2_diff_max_bt_min_qt_intra_slice_chroma\
      sps_log2_diff_max_tt_min_qt_intra_slice_chroma\
      sps_log2_diff_min_qt_min_cb_inter_slice\
      sps_max_mtt_hierarchy_depth_inter_slice\
      sps_log2_diff_max_bt_min_qt_inter_slice\
      sps_log2_diff_max_tt_min_qt_inter_slice\
      sps_max_luma_transform_size_64_flag\
      sps_transform_skip_enabled_flag\
      sps_log2_transform_skip_max_size_minus2\
      sps_bdpcm_enabled_flag\
      sps_mts_enabled_flag\
      sps_explicit_mts_intra_enabled_flag\
      sps_explicit_mts_inter_enabled_flag\
      sps_lfnst_enabled_flag\
      sps_joint_cbcr_enabled_flag\
      sps_same_qp_table_for_chroma_flag\
      sps_qp_table_start_minus26\
      sps_num_points_in_qp_table_minus1\
      sps_delta_qp_in_val_minus1\
      sps_delta_qp_diff_val\
      sps_sao_enabled_flag\
      sps_alf_enabled_flag\
      sps_ccalf_enabled_flag\
      sps_lmcs_enabled_flag\
      sps_weighted_pred_flag\
      sps_weighted_bipred_flag\
      sps_long_term_ref_pics_flag\
      sps_idr_rpl_present_flag\
      sps_rpl1_same_as_rpl0_flag\
      sps_num_ref_pic_lists\
      sps_ref_wraparound_enabled_flag\
      sps_temporal_mvp_enabled_flag\
      sps_sbtmvp_enabled_flag\
      sps_amvr_enabled_flag\
      sps_bdof_enabled_flag\
      sps_bdof_control_present_in_ph_flag\
      sps_smvd_enabled_flag\
      sps_dmvr_enabled_flag\
      sps_dmvr_control_present_in_ph_flag\
      sps_mmvd_enabled_flag\
      sps_mmvd_fullpel_only_enabled_flag\
      sps_six_minus_max_num_merge_cand\
      sps_sbt_enabled_flag\
      sps_affine_enabled_flag\
      sps_five_minus_max_num_subblock_merge_cand\
      sps_6param_affine_enabled_flag\
      sps_affine_amvr_enabled_flag\
      sps_affine_prof_enabled_flag\
      sps_prof_control_present_in_ph_flag\
      sps_bcw_enabled_flag\
      sps_ciip_enabled_flag\
      sps_gpm_enabled_flag\
      sps_max_num_merge_cand_minus_max_num_gpm_cand\
      sps_log2_parallel_merge_level_minus2\
      sps_isp_enabled_flag\
      sps_mrl_enabled_flag\
      sps_mip_enabled_flag\
      sps_cclm_enabled_flag\
      sps_chroma_horizontal_collocated_flag\
      sps_chroma_vertical_collocated_flag\
      sps_palette_enabled_flag\
      sps_min_qp_prime_ts\
      sps_ibc_enabled_flag\
      sps_six_minus_max_num_ibc_merge_cand\
      sps_ladf_enabled_flag\
      sps_num_ladf_intervals_minus2\
      sps_ladf_lowest_interval_qp_offset\
      sps_ladf_qp_offset\
      sps_ladf_delta_threshold_minus1\
      sps_explicit_scaling_list_enabled_flag\
      sps_scaling_matrix_for_lfnst_disabled_flag\
      sps_dep_quant_enabled_flag\
      sps_sign_data_hiding_enabled_flag\
      sps_virtual_boundaries_enabled_flag\
      sps_timing_hrd_params_present_flag\
      sps_sublayer_cpb_params_present_flag\
      sps_field_seq_flag\
      sps_vui_parameters_present_flag\
      sps_vui_payload_size_minus1\
      vui_payload_byte\
      sps_extension_flag\
      sps_rbsp_trailing_bits\
      num_ref_entries\
      ltrp_in_header_flag\
      st_ref_pic_flag\
      abs_delta_poc_st\
      strp_entry_sign_flag\
      rpls_poc_lsb_lt\
      rpl_sps_flag\
      rpl_idx\
      poc_lsb_lt\
      delta_poc_msb_cycle_present_flag\
      delta_poc_msb_cycle_lt\
      luma_log2_weight_denom\
      delta_chroma_log2_weight_denom\
      num_l0_weights\
      luma_weight_flag\
      chroma_weight_flag\
      delta_luma_weight\
      luma_offset\
      delta_chroma_weight\
      delta_chroma_offset\
      num_l1_weights\
      pps_pic_parameter_set_id\
      pps_seq_parameter_set_id\
      pps_mixed_nalu_types_in_pic_flag\
      pps_pic_width_in_luma_samples\
      pps_pic_height_in_luma_samples\
      pps_conformance_window_flag\
      pps_conf_win_left_offset\
      pps_conf_win_right_offset\
      pps_conf_win_top_offset\
      pps_conf_win_bottom_offset\
      pps_scaling_window_explicit_signalling_flag\
      pps_output_flag_present_flag\
      pps_no_pic_partition_flag\
      pps_subpic_id_mapping_present_flag\
      pps_num_subpics_minus1\
      pps_subpic_id_len_minus1\
      pps_subpic_id\
      pps_log2_ctu_size_minus5\
      pps_num_exp_tile_columns_minus1\
      pps_num_exp_tile_rows_minus1\
      pps_tile_column_width_minus1\
      pps_tile_row_height_minus1\
      pps_loop_filter_across_tiles_enabled_flag\
      pps_rect_slice_flag\
      pps_single_slice_per_subpic_flag\
      pps_num_slices_in_pic_minus1\
      pps_tile_idx_delta_present_flag\
      pps_slice_width_in_tiles_minus1\
      pps_slice_height_in_tiles_minus1\
      pps_num_exp_slices_in_tile\
      pps_exp_slice_height_in_ctus_minus1\
      pps_tile_idx_delta_val\
      pps_loop_filter_across_slices_enabled_flag\
      pps_cabac_init_present_flag\
      pps_num_ref_idx_default_active_minus1\
      pps_rpl1_idx_present_flag\
      pps_weighted_pred_flag\
      pps_weighted_bipred_flag\
      pps_ref_wraparound_enabled_flag\
      pps_init_qp_minus26\
      pps_cu_qp_delta_enabled_flag\
      pps_chroma_tool_offsets_present_flag\
      pps_cb_qp_offset\
      pps_cr_qp_offset\
      pps_joint_cbcr_qp_offset_present_flag\
      pps_joint_cbcr_qp_offset_value\
      pps_slice_chroma_qp_offsets_present_flag\
      pps_cu_chroma_qp_offset_list_enabled_flag\
      pps_chroma_qp_offset_list_len_minus1\
      pps_cb_qp_offset_list\
      pps_cr_qp_offset_list\
      pps_joint_cbcr_qp_offset_list\
      pps_deblocking_filter_control_present_flag\
      pps_deblocking_filter_override_enabled_flag\
      pps_deblocking_filter_disabled_flag\
      pps_dbf_info_in_ph_flag\
      pps_luma_beta_offset_div2\
      pps_luma_tc_offset_div2\
      pps_cb_beta_offset_div2\
      pps_cb_tc_offset_div2\
      pps_cr_beta_offset_div2\
      pps_cr_tc_offset_div2\
      pps_rpl_info_in_ph_flag\
      pps_sao_info_in_ph_flag\
      pps_alf_info_in_ph_flag\
      pps_wp_info_in_ph_flag\
      pps_qp_delta_info_in_ph_flag\
      pps_picture_header_extension_present_flag\
      pps_slice_header_extension_present_flag\
      pps_extension_flag\
      pps_rbsp_trailing_bits\
      aps_params_type\
      aps_adaptation_parameter_set_id\
      aps_body\
      ph_gdr_or_irap_pic_flag\
      ph_non_ref_pic_flag\
      ph_gdr_pic_flag\
      ph_inter_slice_allowed_flag\
      ph_intra_slice_allowed_flag\
      ph_pic_parameter_set_id\
      ph_pic_order_cnt_lsb\
      ph_recovery_poc_cnt\
      ph_extra_bit\
      ph_poc_msb_cycle_present_flag\
      ph_poc_msb_cycle_val\
      ph_lmcs_enabled_flag\
      ph_lmcs_aps_id\
      ph_chroma_residual_scale_flag\
      ph_explicit_scaling_list_enabled_flag\
      ph_scaling_list_aps_id\
      ph_pic_output_flag\
      ph_partition_constraints_override_flag\
      ph_log2_diff_min_qt_min_cb_intra_slice_luma\
      ph_max_mtt_hierarchy_depth_intra_slice_luma\
      ph_log2_diff_max_bt_min_qt_intra_slice_luma\
      ph_log2_diff_max_tt_min_qt_intra_slice_luma\
      ph_log2_diff_min_qt_min_cb_intra_slice_chroma\
      ph_max_mtt_hierarchy_depth_intra_slice_chroma\
      ph_log2_diff_max_bt_min_qt_intra_slice_chroma\
      ph_log2_diff_max_tt_min_qt_intra_slice_chroma\
      ph_cu_qp_delta_subdiv_intra_slice\
      ph_cu_chroma_qp_offset_subdiv_intra_slice\
      ph_log2_diff_min_qt_min_cb_inter_slice\
      ph_max_mtt_hierarchy_depth_inter_slice\
      ph_log2_diff_max_bt_min_qt_inter_slice\
      ph_log2_diff_max_tt_min_qt_inter_slice\
      ph_cu_qp_delta_subdiv_inter_slice\
      ph_cu_chroma_qp_offset_subdiv_inter_slice\
      ph_temporal_mvp_enabled_flag\
      ph_collocated_from_l0_flag\
      ph_collocated_ref_idx\
      ph_mmvd_fullpel_only_flag\
      ph_mvd_l1_zero_flag\
      ph_bdof_disabled_flag\
      ph_dmvr_disabled_flag\
      ph_prof_disabled_flag\
      ph_qp_delta\
      ph_joint_cbcr_sign_flag\
      ph_sao_luma_enabled_flag\
      ph_sao_chroma_enabled_flag\
      ph_deblocking_params_present_flag\
      ph_deblocking_filter_disabled_flag\
      ph_luma_beta_offset_div2\
      ph_luma_tc_offset_div2\
      ph_cb_beta_offset_div2\
      ph_cb_tc_offset_div2\
      ph_cr_beta_offset_div2\
      ph_cr_tc_offset_div2\
      ph_extension_length\
      ph_extension_data_byte\
      ph_rbsp_trailing_bits\
      alf_enabled_flag\
      num_alf_aps_ids_luma\
      alf_aps_id_luma\
      alf_cb_enabled_flag\
      alf_cr_enabled_flag\
      alf_aps_id_chroma\
      alf_cc_cb_enabled_flag\
      alf_cc_cb_aps_id\
      alf_cc_cr_enabled_flag\
      alf_cc_cr_aps_id\
      sh_picture_header_in_slice_header_flag\
      sh_subpic_id\
      sh_slice_address\
      sh_extra_bit\
      sh_slice_type\
      sh_no_output_of_prior_pics_flag\
      sh_lmcs_used_flag\
      sh_explicit_scaling_list_used_flag\
      sh_num_ref_idx_active_override_flag\
      sh_num_ref_idx_active_minus1\
      sh_cabac_init_flag\
      sh_collocated_from_l0_flag\
      sh_collocated_ref_idx\
      sh_qp_delta\
      sh_cb_qp_offset\
      sh_cr_qp_offset\
      sh_joint_cbcr_qp_offset\
      sh_cu_chroma_qp_offset_enabled_flag\
      sh_sao_luma_used_flag\
      sh_sao_chroma_used_flag\
      sh_deblocking_params_present_flag\
      sh_deblocking_filter_disabled_flag\
      sh_luma_beta_offset_div2\
      sh_luma_tc_offset_div2\
      sh_cb_beta_offset_div2\
      sh_cb_tc_offset_div2\
      sh_cr_beta_offset_div2\
      sh_cr_tc_offset_div2\
      sh_dep_quant_used_flag\
      sh_sign_data_hiding_used_flag\
      sh_ts_residual_coding_disabled_flag\
      sh_slice_header_extension_length\
      sh_slice_header_extension_data_byte\
      sh_entry_offset_len_minus1\
      sh_entry_point_offset_minus1\
      sh_byte_alignment";

/// Where the name of each number begins, and where the last one ends.
pub(crate) static PLACES: [u16; 737] = [
    0, 0, 26, 47, 71, 71, 71, 71, 71, 71, 71, 71, 90, 107, 124, 154, 181, 197, 215, 238, 254, 285,
    303, 323, 346, 346, 346, 346, 346, 346, 346, 346, 378, 402, 432, 432, 432, 432, 432, 432, 432,
    432, 449, 459, 494, 529, 568, 602, 621, 635, 649, 666, 684, 711, 741, 772, 790, 811, 832, 856,
    880, 888, 888, 888, 888, 888, 888, 888, 888, 888, 888, 888, 888, 888, 888, 888, 888, 888, 888,
    888, 888, 888, 888, 888, 888, 888, 888, 888, 888, 888, 888, 888, 888, 888, 888, 888, 888, 888,
    888, 888, 888, 912, 938, 962, 983, 1007, 1042, 1062, 1097, 1132, 1165, 1199, 1226, 1250, 1275,
    1298, 1324, 1352, 1374, 1402, 1427, 1452, 1477, 1500, 1524, 1554, 1596, 1620, 1667, 1701, 1714,
    1733, 1769, 1805, 1842, 1864, 1892, 1914, 1943, 1965, 1994, 2022, 2064, 2111, 2155, 2199, 2243,
    2287, 2317, 2363, 2409, 2455, 2501, 2540, 2579, 2618, 2657, 2692, 2723, 2762, 2784, 2804, 2839,
    2874, 2896, 2923, 2956, 2982, 3015, 3041, 3062, 3082, 3102, 3124, 3145, 3167, 3191, 3218, 3242,
    3268, 3289, 3320, 3349, 3372, 3393, 3414, 3449, 3470, 3491, 3526, 3547, 3581, 3613, 3633, 3656,
    3698, 3728, 3756, 3784, 3819, 3839, 3860, 3880, 3925, 3961, 3981, 4001, 4021, 4042, 4079, 4114,
    4138, 4157, 4177, 4213, 4234, 4263, 4297, 4315, 4346, 4384, 4426, 4452, 4485, 4520, 4554, 4590,
    4608, 4639, 4666, 4682, 4700, 4722, 4722, 4722, 4722, 4722, 4722, 4722, 4722, 4722, 4722, 4722,
    4722, 4722, 4722, 4722, 4722, 4722, 4722, 4722, 4722, 4722, 4722, 4722, 4722, 4722, 4722, 4722,
    4722, 4722, 4722, 4722, 4722, 4722, 4722, 4722, 4722, 4722, 4722, 4722, 4722, 4722, 4722, 4722,
    4722, 4722, 4722, 4722, 4722, 4722, 4722, 4722, 4722, 4722, 4722, 4722, 4722, 4722, 4722, 4722,
    4722, 4722, 4722, 4722, 4722, 4722, 4722, 4722, 4722, 4722, 4722, 4737, 4756, 4771, 4787, 4807,
    4822, 4834, 4841, 4851, 4883, 4905, 4905, 4905, 4905, 4905, 4905, 4905, 4905, 4905, 4905, 4927,
    4957, 4971, 4987, 5005, 5022, 5033, 5052, 5071, 5085, 5085, 5085, 5085, 5085, 5085, 5085, 5085,
    5085, 5085, 5085, 5085, 5085, 5085, 5085, 5085, 5085, 5085, 5085, 5085, 5085, 5085, 5085, 5085,
    5085, 5085, 5085, 5085, 5085, 5085, 5085, 5085, 5085, 5085, 5085, 5085, 5085, 5085, 5085, 5085,
    5085, 5085, 5085, 5085, 5085, 5085, 5085, 5085, 5085, 5085, 5085, 5085, 5085, 5085, 5085, 5085,
    5085, 5085, 5085, 5085, 5085, 5085, 5085, 5085, 5085, 5085, 5085, 5085, 5085, 5085, 5109, 5133,
    5165, 5194, 5224, 5251, 5275, 5300, 5323, 5349, 5392, 5420, 5445, 5479, 5501, 5525, 5538, 5562,
    5593, 5621, 5649, 5675, 5716, 5735, 5767, 5795, 5826, 5857, 5889, 5915, 5950, 5972, 6014, 6041,
    6078, 6103, 6125, 6149, 6180, 6199, 6227, 6263, 6279, 6295, 6332, 6362, 6402, 6443, 6479, 6500,
    6521, 6550, 6592, 6635, 6670, 6693, 6718, 6741, 6764, 6785, 6808, 6829, 6852, 6875, 6898, 6920,
    6948, 6989, 7028, 7046, 7068, 7068, 7068, 7068, 7068, 7068, 7068, 7068, 7068, 7068, 7068, 7068,
    7068, 7068, 7068, 7068, 7068, 7068, 7068, 7068, 7068, 7068, 7068, 7068, 7068, 7068, 7068, 7068,
    7068, 7068, 7068, 7083, 7114, 7122, 7122, 7122, 7122, 7122, 7122, 7122, 7122, 7122, 7122, 7122,
    7122, 7122, 7122, 7122, 7122, 7122, 7122, 7122, 7122, 7122, 7122, 7122, 7122, 7122, 7122, 7122,
    7122, 7122, 7122, 7122, 7122, 7122, 7122, 7122, 7122, 7122, 7122, 7122, 7122, 7122, 7122, 7122,
    7122, 7122, 7122, 7122, 7122, 7122, 7122, 7122, 7122, 7122, 7122, 7122, 7122, 7122, 7122, 7122,
    7122, 7122, 7122, 7122, 7122, 7122, 7122, 7122, 7122, 7122, 7122, 7122, 7122, 7122, 7122, 7122,
    7122, 7122, 7122, 7122, 7122, 7122, 7122, 7122, 7122, 7122, 7122, 7122, 7122, 7122, 7122, 7122,
    7122, 7122, 7122, 7122, 7122, 7122, 7145, 7164, 7179, 7206, 7233, 7256, 7276, 7295, 7307, 7336,
    7356, 7376, 7390, 7419, 7456, 7478, 7496, 7534, 7577, 7620, 7663, 7706, 7751, 7796, 7841, 7886,
    7919, 7960, 7998, 8036, 8074, 8112, 8145, 8186, 8214, 8240, 8261, 8286, 8305, 8326, 8347, 8368,
    8379, 8402, 8426, 8452, 8485, 8519, 8543, 8565, 8587, 8607, 8629, 8649, 8668, 8690, 8711, 8711,
    8711, 8711, 8711, 8711, 8711, 8711, 8711, 8711, 8711, 8711, 8711, 8711, 8711, 8711, 8711, 8711,
    8711, 8711, 8711, 8711, 8711, 8711, 8711, 8727, 8747, 8762, 8781, 8800, 8817, 8839, 8855, 8877,
    8893, 8893, 8893, 8893, 8893, 8893, 8893, 8893, 8893, 8893, 8931, 8943, 8959, 8971, 8984, 9015,
    9032, 9066, 9101, 9129, 9147, 9173, 9194, 9205, 9220, 9235, 9258, 9293, 9314, 9337, 9370, 9404,
    9428, 9450, 9472, 9492, 9514, 9534, 9556, 9585, 9620, 9652, 9687, 9713, 9741, 9758,
];
