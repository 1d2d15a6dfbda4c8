//! Fields of a slice header, clause 7.3.7.

/// Whether the picture header follows.
pub const sh_picture_header_in_slice_header_flag: u16 = 700;
/// The id of the subpicture.
pub const sh_subpic_id: u16 = 701;
/// The address of the slice in its subpicture.
pub const sh_slice_address: u16 = 702;
/// An extra bit.
pub const sh_extra_bit: u16 = 703;
/// The type: 0 for B, 1 for P, 2 for I; 2 if absent.
pub const sh_slice_type: u16 = 704;
/// Whether earlier pictures are not shown.
pub const sh_no_output_of_prior_pics_flag: u16 = 705;
/// Whether the slice uses luma mapping with chroma scaling.
pub const sh_lmcs_used_flag: u16 = 706;
/// Whether the slice uses scaling lists.
pub const sh_explicit_scaling_list_used_flag: u16 = 707;
/// Whether the header has the number of active entries; 1 if absent.
pub const sh_num_ref_idx_active_override_flag: u16 = 708;
/// The active entries of a list, less 1.
pub const sh_num_ref_idx_active_minus1: u16 = 709;
/// The start of entropy coding of the slice.
pub const sh_cabac_init_flag: u16 = 710;
/// Whether motion is predicted from a picture of list 0; 1 if absent.
pub const sh_collocated_from_l0_flag: u16 = 711;
/// The place of that picture in the list.
pub const sh_collocated_ref_idx: u16 = 712;
/// The QP of the slice, as a difference.
pub const sh_qp_delta: u16 = 713;
/// The QP offset of Cb.
pub const sh_cb_qp_offset: u16 = 714;
/// The QP offset of Cr.
pub const sh_cr_qp_offset: u16 = 715;
/// The QP offset of joint chroma residuals.
pub const sh_joint_cbcr_qp_offset: u16 = 716;
/// Whether blocks choose chroma QP offsets from the list.
pub const sh_cu_chroma_qp_offset_enabled_flag: u16 = 717;
/// Whether the slice uses sample adaptive offset of luma.
pub const sh_sao_luma_used_flag: u16 = 718;
/// Whether the slice uses sample adaptive offset of chroma.
pub const sh_sao_chroma_used_flag: u16 = 719;
/// Whether the deblocking filter is described.
pub const sh_deblocking_params_present_flag: u16 = 720;
/// Whether it is off.
pub const sh_deblocking_filter_disabled_flag: u16 = 721;
/// The beta offset of luma, halved.
pub const sh_luma_beta_offset_div2: u16 = 722;
/// The tc offset of luma, halved.
pub const sh_luma_tc_offset_div2: u16 = 723;
/// The beta offset of Cb, halved.
pub const sh_cb_beta_offset_div2: u16 = 724;
/// The tc offset of Cb, halved.
pub const sh_cb_tc_offset_div2: u16 = 725;
/// The beta offset of Cr, halved.
pub const sh_cr_beta_offset_div2: u16 = 726;
/// The tc offset of Cr, halved.
pub const sh_cr_tc_offset_div2: u16 = 727;
/// Whether the slice uses dependent quantization.
pub const sh_dep_quant_used_flag: u16 = 728;
/// Whether the slice hides signs.
pub const sh_sign_data_hiding_used_flag: u16 = 729;
/// Whether blocks whose transform is skipped are coded as others.
pub const sh_ts_residual_coding_disabled_flag: u16 = 730;
/// The bytes of the extension.
pub const sh_slice_header_extension_length: u16 = 731;
/// A byte of the extension.
pub const sh_slice_header_extension_data_byte: u16 = 732;
/// The bits of an entry point, less 1.
pub const sh_entry_offset_len_minus1: u16 = 733;
/// The distance of an entry point from the one before, less 1.
pub const sh_entry_point_offset_minus1: u16 = 734;
/// The alignment after the header.
pub const sh_byte_alignment: u16 = 735;

/// The numbers above, in their order.
pub const ALL: [u16; 36] = [
    sh_picture_header_in_slice_header_flag,
    sh_subpic_id,
    sh_slice_address,
    sh_extra_bit,
    sh_slice_type,
    sh_no_output_of_prior_pics_flag,
    sh_lmcs_used_flag,
    sh_explicit_scaling_list_used_flag,
    sh_num_ref_idx_active_override_flag,
    sh_num_ref_idx_active_minus1,
    sh_cabac_init_flag,
    sh_collocated_from_l0_flag,
    sh_collocated_ref_idx,
    sh_qp_delta,
    sh_cb_qp_offset,
    sh_cr_qp_offset,
    sh_joint_cbcr_qp_offset,
    sh_cu_chroma_qp_offset_enabled_flag,
    sh_sao_luma_used_flag,
    sh_sao_chroma_used_flag,
    sh_deblocking_params_present_flag,
    sh_deblocking_filter_disabled_flag,
    sh_luma_beta_offset_div2,
    sh_luma_tc_offset_div2,
    sh_cb_beta_offset_div2,
    sh_cb_tc_offset_div2,
    sh_cr_beta_offset_div2,
    sh_cr_tc_offset_div2,
    sh_dep_quant_used_flag,
    sh_sign_data_hiding_used_flag,
    sh_ts_residual_coding_disabled_flag,
    sh_slice_header_extension_length,
    sh_slice_header_extension_data_byte,
    sh_entry_offset_len_minus1,
    sh_entry_point_offset_minus1,
    sh_byte_alignment,
];
