//! Fields of timing and HRD parameters, clauses 7.3.5.1 to 7.3.5.3.

/// The units of time in a tick.
pub const num_units_in_tick: u16 = 41;
/// The units of time in a second.
pub const time_scale: u16 = 42;
/// Whether there are NAL HRD parameters.
pub const general_nal_hrd_params_present_flag: u16 = 43;
/// Whether there are VCL HRD parameters.
pub const general_vcl_hrd_params_present_flag: u16 = 44;
/// Whether one picture timing message serves all output layer sets.
pub const general_same_pic_timing_in_all_ols_flag: u16 = 45;
/// Whether there are HRD parameters of decoding units.
pub const general_du_hrd_params_present_flag: u16 = 46;
/// The divisor of a tick for decoding units, less 2.
pub const tick_divisor_minus2: u16 = 47;
/// The scale of bit rates.
pub const bit_rate_scale: u16 = 48;
/// The scale of CPB sizes.
pub const cpb_size_scale: u16 = 49;
/// The scale of CPB sizes of decoding units.
pub const cpb_size_du_scale: u16 = 50;
/// The number of CPBs, less 1.
pub const hrd_cpb_cnt_minus1: u16 = 51;
/// Whether the rate of pictures is fixed.
pub const fixed_pic_rate_general_flag: u16 = 52;
/// Whether it is fixed within a CVS; 1 if absent.
pub const fixed_pic_rate_within_cvs_flag: u16 = 53;
/// The ticks between pictures, less 1.
pub const elemental_duration_in_tc_minus1: u16 = 54;
/// Whether the HRD works at low delay.
pub const low_delay_hrd_flag: u16 = 55;
/// The bit rate of a CPB, less 1, by its scale.
pub const bit_rate_value_minus1: u16 = 56;
/// The size of a CPB, less 1, by its scale.
pub const cpb_size_value_minus1: u16 = 57;
/// The size of a CPB for decoding units, less 1, by its scale.
pub const cpb_size_du_value_minus1: u16 = 58;
/// The bit rate of a CPB for decoding units, less 1, by its scale.
pub const bit_rate_du_value_minus1: u16 = 59;
/// Whether the bit rate is constant.
pub const cbr_flag: u16 = 60;

/// The numbers above, in their order.
pub const ALL: [u16; 20] = [
    num_units_in_tick,
    time_scale,
    general_nal_hrd_params_present_flag,
    general_vcl_hrd_params_present_flag,
    general_same_pic_timing_in_all_ols_flag,
    general_du_hrd_params_present_flag,
    tick_divisor_minus2,
    bit_rate_scale,
    cpb_size_scale,
    cpb_size_du_scale,
    hrd_cpb_cnt_minus1,
    fixed_pic_rate_general_flag,
    fixed_pic_rate_within_cvs_flag,
    elemental_duration_in_tc_minus1,
    low_delay_hrd_flag,
    bit_rate_value_minus1,
    cpb_size_value_minus1,
    cpb_size_du_value_minus1,
    bit_rate_du_value_minus1,
    cbr_flag,
];
