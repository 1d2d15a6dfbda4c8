//! Fields of a picture parameter set, clause 7.3.2.5.

/// The id of the picture parameter set.
pub const pps_pic_parameter_set_id: u16 = 400;
/// The id of its sequence parameter set.
pub const pps_seq_parameter_set_id: u16 = 401;
/// Whether the slices of a picture may have several NAL unit types.
pub const pps_mixed_nalu_types_in_pic_flag: u16 = 402;
/// The width of a picture.
pub const pps_pic_width_in_luma_samples: u16 = 403;
/// The height of a picture.
pub const pps_pic_height_in_luma_samples: u16 = 404;
/// Whether a conformance window follows.
pub const pps_conformance_window_flag: u16 = 405;
/// The left border of the conformance window.
pub const pps_conf_win_left_offset: u16 = 406;
/// The right border of the conformance window.
pub const pps_conf_win_right_offset: u16 = 407;
/// The top border of the conformance window.
pub const pps_conf_win_top_offset: u16 = 408;
/// The bottom border of the conformance window.
pub const pps_conf_win_bottom_offset: u16 = 409;
/// Whether a scaling window follows.
pub const pps_scaling_window_explicit_signalling_flag: u16 = 410;
/// Whether picture headers may say that a picture is not shown.
pub const pps_output_flag_present_flag: u16 = 411;
/// Whether a picture has one tile and one slice.
pub const pps_no_pic_partition_flag: u16 = 412;
/// Whether subpicture ids are written here.
pub const pps_subpic_id_mapping_present_flag: u16 = 413;
/// The number of subpictures, less 1.
pub const pps_num_subpics_minus1: u16 = 414;
/// The bits of a subpicture id, less 1.
pub const pps_subpic_id_len_minus1: u16 = 415;
/// The id of a subpicture.
pub const pps_subpic_id: u16 = 416;
/// The binary logarithm of the CTU size, less 5.
pub const pps_log2_ctu_size_minus5: u16 = 417;
/// The tile columns whose width is written, less 1.
pub const pps_num_exp_tile_columns_minus1: u16 = 418;
/// The tile rows whose height is written, less 1.
pub const pps_num_exp_tile_rows_minus1: u16 = 419;
/// The width of a tile column in CTUs, less 1.
pub const pps_tile_column_width_minus1: u16 = 420;
/// The height of a tile row in CTUs, less 1.
pub const pps_tile_row_height_minus1: u16 = 421;
/// Whether loop filters cross the borders of tiles.
pub const pps_loop_filter_across_tiles_enabled_flag: u16 = 422;
/// Whether slices are rectangles; 1 if absent.
pub const pps_rect_slice_flag: u16 = 423;
/// Whether each subpicture is one slice.
pub const pps_single_slice_per_subpic_flag: u16 = 424;
/// The number of slices, less 1.
pub const pps_num_slices_in_pic_minus1: u16 = 425;
/// Whether the steps from slice to slice are written.
pub const pps_tile_idx_delta_present_flag: u16 = 426;
/// The width of a slice in tiles, less 1.
pub const pps_slice_width_in_tiles_minus1: u16 = 427;
/// The height of a slice in tiles, less 1.
pub const pps_slice_height_in_tiles_minus1: u16 = 428;
/// The slices of a tile whose height is written.
pub const pps_num_exp_slices_in_tile: u16 = 429;
/// The height of such a slice in CTUs, less 1.
pub const pps_exp_slice_height_in_ctus_minus1: u16 = 430;
/// The step to the tile of the next slice.
pub const pps_tile_idx_delta_val: u16 = 431;
/// Whether loop filters cross the borders of slices.
pub const pps_loop_filter_across_slices_enabled_flag: u16 = 432;
/// Whether slice headers choose the start of entropy coding.
pub const pps_cabac_init_present_flag: u16 = 433;
/// The default number of active entries of a list, less 1.
pub const pps_num_ref_idx_default_active_minus1: u16 = 434;
/// Whether the choice of list 1 is coded in headers.
pub const pps_rpl1_idx_present_flag: u16 = 435;
/// Whether P slices have weights.
pub const pps_weighted_pred_flag: u16 = 436;
/// Whether B slices have weights.
pub const pps_weighted_bipred_flag: u16 = 437;
/// Whether motion wraps around the picture.
pub const pps_ref_wraparound_enabled_flag: u16 = 438;
/// The QP to which slices add, less 26.
pub const pps_init_qp_minus26: u16 = 439;
/// Whether the QP may change within a slice.
pub const pps_cu_qp_delta_enabled_flag: u16 = 440;
/// Whether chroma offsets follow.
pub const pps_chroma_tool_offsets_present_flag: u16 = 441;
/// The QP offset of Cb.
pub const pps_cb_qp_offset: u16 = 442;
/// The QP offset of Cr.
pub const pps_cr_qp_offset: u16 = 443;
/// Whether joint chroma residuals have a QP offset.
pub const pps_joint_cbcr_qp_offset_present_flag: u16 = 444;
/// That offset.
pub const pps_joint_cbcr_qp_offset_value: u16 = 445;
/// Whether slice headers have chroma QP offsets.
pub const pps_slice_chroma_qp_offsets_present_flag: u16 = 446;
/// Whether blocks choose chroma QP offsets from a list.
pub const pps_cu_chroma_qp_offset_list_enabled_flag: u16 = 447;
/// The length of that list, less 1.
pub const pps_chroma_qp_offset_list_len_minus1: u16 = 448;
/// A QP offset of Cb in the list.
pub const pps_cb_qp_offset_list: u16 = 449;
/// A QP offset of Cr in the list.
pub const pps_cr_qp_offset_list: u16 = 450;
/// A QP offset of joint chroma residuals in the list.
pub const pps_joint_cbcr_qp_offset_list: u16 = 451;
/// Whether the deblocking filter is described.
pub const pps_deblocking_filter_control_present_flag: u16 = 452;
/// Whether headers may describe it themselves.
pub const pps_deblocking_filter_override_enabled_flag: u16 = 453;
/// Whether it is off.
pub const pps_deblocking_filter_disabled_flag: u16 = 454;
/// Whether its parameters are in picture headers.
pub const pps_dbf_info_in_ph_flag: u16 = 455;
/// The beta offset of luma, halved.
pub const pps_luma_beta_offset_div2: u16 = 456;
/// The tc offset of luma, halved.
pub const pps_luma_tc_offset_div2: u16 = 457;
/// The beta offset of Cb, halved.
pub const pps_cb_beta_offset_div2: u16 = 458;
/// The tc offset of Cb, halved.
pub const pps_cb_tc_offset_div2: u16 = 459;
/// The beta offset of Cr, halved.
pub const pps_cr_beta_offset_div2: u16 = 460;
/// The tc offset of Cr, halved.
pub const pps_cr_tc_offset_div2: u16 = 461;
/// Whether reference lists are in picture headers.
pub const pps_rpl_info_in_ph_flag: u16 = 462;
/// Whether sample adaptive offset is in picture headers.
pub const pps_sao_info_in_ph_flag: u16 = 463;
/// Whether the adaptive loop filter is in picture headers.
pub const pps_alf_info_in_ph_flag: u16 = 464;
/// Whether weights are in picture headers.
pub const pps_wp_info_in_ph_flag: u16 = 465;
/// Whether the QP is in picture headers.
pub const pps_qp_delta_info_in_ph_flag: u16 = 466;
/// Whether picture headers have an extension.
pub const pps_picture_header_extension_present_flag: u16 = 467;
/// Whether slice headers have an extension.
pub const pps_slice_header_extension_present_flag: u16 = 468;
/// Whether an extension follows.
pub const pps_extension_flag: u16 = 469;
/// The trailing bits of a picture parameter set.
pub const pps_rbsp_trailing_bits: u16 = 470;

/// The numbers above, in their order.
pub const ALL: [u16; 71] = [
    pps_pic_parameter_set_id,
    pps_seq_parameter_set_id,
    pps_mixed_nalu_types_in_pic_flag,
    pps_pic_width_in_luma_samples,
    pps_pic_height_in_luma_samples,
    pps_conformance_window_flag,
    pps_conf_win_left_offset,
    pps_conf_win_right_offset,
    pps_conf_win_top_offset,
    pps_conf_win_bottom_offset,
    pps_scaling_window_explicit_signalling_flag,
    pps_output_flag_present_flag,
    pps_no_pic_partition_flag,
    pps_subpic_id_mapping_present_flag,
    pps_num_subpics_minus1,
    pps_subpic_id_len_minus1,
    pps_subpic_id,
    pps_log2_ctu_size_minus5,
    pps_num_exp_tile_columns_minus1,
    pps_num_exp_tile_rows_minus1,
    pps_tile_column_width_minus1,
    pps_tile_row_height_minus1,
    pps_loop_filter_across_tiles_enabled_flag,
    pps_rect_slice_flag,
    pps_single_slice_per_subpic_flag,
    pps_num_slices_in_pic_minus1,
    pps_tile_idx_delta_present_flag,
    pps_slice_width_in_tiles_minus1,
    pps_slice_height_in_tiles_minus1,
    pps_num_exp_slices_in_tile,
    pps_exp_slice_height_in_ctus_minus1,
    pps_tile_idx_delta_val,
    pps_loop_filter_across_slices_enabled_flag,
    pps_cabac_init_present_flag,
    pps_num_ref_idx_default_active_minus1,
    pps_rpl1_idx_present_flag,
    pps_weighted_pred_flag,
    pps_weighted_bipred_flag,
    pps_ref_wraparound_enabled_flag,
    pps_init_qp_minus26,
    pps_cu_qp_delta_enabled_flag,
    pps_chroma_tool_offsets_present_flag,
    pps_cb_qp_offset,
    pps_cr_qp_offset,
    pps_joint_cbcr_qp_offset_present_flag,
    pps_joint_cbcr_qp_offset_value,
    pps_slice_chroma_qp_offsets_present_flag,
    pps_cu_chroma_qp_offset_list_enabled_flag,
    pps_chroma_qp_offset_list_len_minus1,
    pps_cb_qp_offset_list,
    pps_cr_qp_offset_list,
    pps_joint_cbcr_qp_offset_list,
    pps_deblocking_filter_control_present_flag,
    pps_deblocking_filter_override_enabled_flag,
    pps_deblocking_filter_disabled_flag,
    pps_dbf_info_in_ph_flag,
    pps_luma_beta_offset_div2,
    pps_luma_tc_offset_div2,
    pps_cb_beta_offset_div2,
    pps_cb_tc_offset_div2,
    pps_cr_beta_offset_div2,
    pps_cr_tc_offset_div2,
    pps_rpl_info_in_ph_flag,
    pps_sao_info_in_ph_flag,
    pps_alf_info_in_ph_flag,
    pps_wp_info_in_ph_flag,
    pps_qp_delta_info_in_ph_flag,
    pps_picture_header_extension_present_flag,
    pps_slice_header_extension_present_flag,
    pps_extension_flag,
    pps_rbsp_trailing_bits,
];
