//! The tables of H.266 clauses 7.3.2.3, 7.3.3.1, 7.3.3.2, 7.3.4, 7.3.5.1, 7.3.5.2 and 7.3.5.3, for the accepted profiles.
use vx_fields::dpb::*;
use vx_fields::names::ptl::*;
use vx_fields::ptl::*;
use vx_fields::sps::{
    sps_max_sublayers_minus1, sps_sublayer_cpb_params_present_flag, sps_sublayer_dpb_params_flag,
};
use vx_fields::timing::*;
use vx_fields::vps::*;
use vx_table::{Row, table};

/// The first fields of a video parameter set, clause 7.3.2.3.
pub const VPS: [Row; 3] = table! {
    vps_video_parameter_set_id*: u(4);
    vps_max_layers_minus1*: u(6);
    vps_max_sublayers_minus1*: u(3) in 0..=6;
};

/// Profile, tier and level, clause 7.3.3.1, with the general constraints of clause 7.3.3.2.
///
/// `sps_max_sublayers_minus1` is the highest sublayer. The 71 bits are those of the constraints from
/// `gci_intra_only_constraint_flag` to `gci_no_virtual_boundaries_constraint_flag`.
pub const PTL: [Row; 23] = table! {
    general_profile_idc*: u(7);
    general_tier_flag*;
    general_level_idc*: u(8);
    ptl_frame_only_constraint_flag*;
    ptl_multilayer_enabled_flag*;
    gci_present_flag*;
    if gci_present_flag {
        for TURN in 71 { gci_constraint_bit*; }
        gci_num_additional_bits*: u(8);
        for TURN in gci_num_additional_bits { gci_reserved_bit*; }
    }
    zeros ptl_sublayer_level_present_flag;
    let WITH_LEVEL = 0;
    for TURN in sps_max_sublayers_minus1 {
        ptl_sublayer_level_present_flag*;
        let WITH_LEVEL = (WITH_LEVEL + ptl_sublayer_level_present_flag);
    }
    zeros sublayer_level_idc;
    for TURN in WITH_LEVEL { sublayer_level_idc*: u(8); }
    ptl_num_sub_profiles*: u(8);
    for TURN in ptl_num_sub_profiles { general_sub_profile_idc*: u(32); }
};

/// DPB parameters, clause 7.3.4: for each sublayer if `sps_sublayer_dpb_params_flag` is 1, otherwise only for the
/// highest.
pub const DPB: [Row; 7] = table! {
    let LOWER = 0;
    if sps_sublayer_dpb_params_flag { let LOWER = sps_max_sublayers_minus1; }
    for TURN in (LOWER + 1) {
        dpb_max_dec_pic_buffering_minus1*: ue;
        dpb_max_num_reorder_pics*: ue;
        dpb_max_latency_increase_plus1*: ue;
    }
};

/// General timing and HRD parameters, clause 7.3.5.1.
pub const TIMING: [Row; 14] = table! {
    num_units_in_tick*: u(32);
    time_scale*: u(32);
    general_nal_hrd_params_present_flag*;
    general_vcl_hrd_params_present_flag*;
    if (general_nal_hrd_params_present_flag or general_vcl_hrd_params_present_flag) {
        general_same_pic_timing_in_all_ols_flag*;
        general_du_hrd_params_present_flag*;
        if general_du_hrd_params_present_flag { tick_divisor_minus2*: u(8); }
        bit_rate_scale*: u(4);
        cpb_size_scale*: u(4);
        if general_du_hrd_params_present_flag { cpb_size_du_scale*: u(4); }
        hrd_cpb_cnt_minus1*: ue in 0..=31;
    }
};

/// The values of general timing that sublayer timing uses if it is absent. Comes before the two in a structure that may
/// lack them.
pub const NO_TIMING: [Row; 4] = table! {
    default general_nal_hrd_params_present_flag = 0;
    default general_vcl_hrd_params_present_flag = 0;
    default general_du_hrd_params_present_flag = 0;
    default hrd_cpb_cnt_minus1 = 0;
};

/// Sublayer timing and HRD parameters, clauses 7.3.5.2 and 7.3.5.3: for each sublayer if
/// `sps_sublayer_cpb_params_present_flag` is 1, otherwise only for the highest. Four fields of general timing are used.
pub const SUBLAYER_TIMING: [Row; 24] = table! {
    let LOWER = 0;
    if sps_sublayer_cpb_params_present_flag { let LOWER = sps_max_sublayers_minus1; }
    let HRD = (general_nal_hrd_params_present_flag or general_vcl_hrd_params_present_flag);
    let KINDS = (general_nal_hrd_params_present_flag + general_vcl_hrd_params_present_flag);
    for TURN in (LOWER + 1) {
        fixed_pic_rate_general_flag*;
        default fixed_pic_rate_within_cvs_flag = 1;
        if (not fixed_pic_rate_general_flag) { fixed_pic_rate_within_cvs_flag*; }
        if fixed_pic_rate_within_cvs_flag { elemental_duration_in_tc_minus1*: ue; }
        if (not fixed_pic_rate_within_cvs_flag) {
            if HRD { if (not hrd_cpb_cnt_minus1) { low_delay_hrd_flag*; } }
        }
        for KIND in KINDS {
            for CPB in (hrd_cpb_cnt_minus1 + 1) {
                bit_rate_value_minus1*: ue;
                cpb_size_value_minus1*: ue;
                if general_du_hrd_params_present_flag {
                    cpb_size_du_value_minus1*: ue;
                    bit_rate_du_value_minus1*: ue;
                }
                cbr_flag*;
            }
        }
    }
};
