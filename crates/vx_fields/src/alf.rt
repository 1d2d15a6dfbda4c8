//! Fields of the adaptive loop filter in picture and slice headers, clauses 7.3.2.8 and 7.3.7; each has the name without `ph_`
//! and `sh_`.

/// Whether the filter is on: `ph_alf_enabled_flag`, `sh_alf_enabled_flag`.
pub const alf_enabled_flag: u16 = 681;
/// The number of sets of the luma filter: `ph_num_alf_aps_ids_luma`, `sh_num_alf_aps_ids_luma`.
pub const num_alf_aps_ids_luma: u16 = 682;
/// The id of one of these: `ph_alf_aps_id_luma`, `sh_alf_aps_id_luma`.
pub const alf_aps_id_luma: u16 = 683;
/// Whether Cb is filtered: `ph_alf_cb_enabled_flag`, `sh_alf_cb_enabled_flag`.
pub const alf_cb_enabled_flag: u16 = 684;
/// Whether Cr is filtered: `ph_alf_cr_enabled_flag`, `sh_alf_cr_enabled_flag`.
pub const alf_cr_enabled_flag: u16 = 685;
/// The id of the set of the chroma filter: `ph_alf_aps_id_chroma`, `sh_alf_aps_id_chroma`.
pub const alf_aps_id_chroma: u16 = 686;
/// Whether Cb is filtered by luma: `ph_alf_cc_cb_enabled_flag`, `sh_alf_cc_cb_enabled_flag`.
pub const alf_cc_cb_enabled_flag: u16 = 687;
/// The id of the set for that: `ph_alf_cc_cb_aps_id`, `sh_alf_cc_cb_aps_id`.
pub const alf_cc_cb_aps_id: u16 = 688;
/// Whether Cr is filtered by luma: `ph_alf_cc_cr_enabled_flag`, `sh_alf_cc_cr_enabled_flag`.
pub const alf_cc_cr_enabled_flag: u16 = 689;
/// The id of the set for that: `ph_alf_cc_cr_aps_id`, `sh_alf_cc_cr_aps_id`.
pub const alf_cc_cr_aps_id: u16 = 690;

/// The numbers above, in their order.
pub const ALL: [u16; 10] = [
    alf_enabled_flag,
    num_alf_aps_ids_luma,
    alf_aps_id_luma,
    alf_cb_enabled_flag,
    alf_cr_enabled_flag,
    alf_aps_id_chroma,
    alf_cc_cb_enabled_flag,
    alf_cc_cb_aps_id,
    alf_cc_cr_enabled_flag,
    alf_cc_cr_aps_id,
];
