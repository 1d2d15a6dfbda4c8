//! The tables of H.266 clauses 7.3.9 (reference picture lists), 7.3.10 (their structures) and 7.3.8 (weights).
//!
//! Tables that are walked over as types have their text in a macro. `table!` makes the array of it, which definitions
//! name, and `rows!` the rows as a type.
use vx_bits::rules::TOO_MANY_ENTRIES;
use vx_fields::names::rpl::*;
use vx_fields::pps::{pps_rpl1_idx_present_flag, pps_weighted_bipred_flag, pps_wp_info_in_ph_flag};
use vx_fields::rpl::*;
use vx_fields::sps::{
    sps_chroma_format_idc, sps_log2_max_pic_order_cnt_lsb_minus4, sps_long_term_ref_pics_flag,
    sps_weighted_bipred_flag, sps_weighted_pred_flag,
};
use vx_fields::weights::*;
use vx_table::{Row, table};

macro_rules! before_list_0_syntax {
    ($as:ident) => { $as! {
        default rpl_sps_flag = 0;
        default rpl_idx = 0;
    } };
}
/// Before list 0 of a header, which inherits nothing.
pub const BEFORE_LIST_0: [Row; 2] = before_list_0_syntax!(table);

macro_rules! choice_syntax {
    ($as:ident) => { $as! {
        let STRUCTURE = NUM_STRUCTURES;
        default num_ref_entries = 0;
        default ltrp_in_header_flag = 0;
        let LONG_ENTRIES = 0;
        let IS_SPELLED = (IS_LIST_0 or pps_rpl1_idx_present_flag);
        let HAS_SEVERAL = (NUM_STRUCTURES > 1);
        if (not NUM_STRUCTURES) { default rpl_sps_flag = 0; }
        if (NUM_STRUCTURES and IS_SPELLED) { rpl_sps_flag; }
        let HAS_INDEX = (rpl_sps_flag and HAS_SEVERAL);
        if (not HAS_INDEX) { default rpl_idx = 0; }
        if HAS_INDEX {
            if IS_SPELLED { rpl_idx: u(ceil_log2 NUM_STRUCTURES) below NUM_STRUCTURES; }
            let LEADS_PAST = (NUM_STRUCTURES <= rpl_idx);
            if LEADS_PAST { refuse rpl_idx; }
        }
    } };
}
/// Where the structure of a header's list is, clause 7.3.9: in the SPS, with its index, or in the header.
///
/// If list 1 codes neither, it inherits both from list 0.
pub const CHOICE: [Row; 19] = choice_syntax!(table);

macro_rules! ref_pic_list_struct_syntax {
    ($as:ident) => { $as! {
        num_ref_entries: ue in 0..=29 else Limit(TOO_MANY_ENTRIES);
        let IN_SPS = (STRUCTURE < NUM_STRUCTURES);
        let IN_HEADER = (not IN_SPS);
        default ltrp_in_header_flag = (sps_long_term_ref_pics_flag and IN_HEADER);
        if (sps_long_term_ref_pics_flag and IN_SPS) { if num_ref_entries { ltrp_in_header_flag; } }
        let MAY_WEIGHT = (sps_weighted_pred_flag or sps_weighted_bipred_flag);
        let LONG_ENTRIES = 0;
        for ENTRY in num_ref_entries {
            default st_ref_pic_flag = 1;
            if sps_long_term_ref_pics_flag { st_ref_pic_flag; }
            if st_ref_pic_flag {
                abs_delta_poc_st: ue in 0..=32767;
                let MAY_BE_0 = (MAY_WEIGHT and ENTRY);
                let HAS_SIGN = (not MAY_BE_0);
                if (abs_delta_poc_st or HAS_SIGN) { strp_entry_sign_flag; }
            }
            let IS_LONG = (not st_ref_pic_flag);
            let LONG_ENTRIES = (LONG_ENTRIES + IS_LONG);
            if (not ltrp_in_header_flag) {
                if IS_LONG { rpls_poc_lsb_lt: u(sps_log2_max_pic_order_cnt_lsb_minus4 + 4); }
            }
        }
    } };
}
/// A reference picture list structure, clause 7.3.10: number `STRUCTURE` of the SPS's `NUM_STRUCTURES`, or that of a
/// header if the two are equal.
pub const REF_PIC_LIST_STRUCT: [Row; 24] = ref_pic_list_struct_syntax!(table);

macro_rules! long_term_syntax {
    ($as:ident) => { $as! {
        for ENTRY in LONG_ENTRIES {
            if ltrp_in_header_flag { poc_lsb_lt: u(sps_log2_max_pic_order_cnt_lsb_minus4 + 4); }
            delta_poc_msb_cycle_present_flag;
            if delta_poc_msb_cycle_present_flag { delta_poc_msb_cycle_lt: ue; }
        }
    } };
}
/// The fields of a header for each long-term entry of a list, clause 7.3.9.
pub const LONG_TERM: [Row; 6] = long_term_syntax!(table);

macro_rules! behind_list_0_syntax {
    ($as:ident) => { $as! {
        let ENTRIES_0 = num_ref_entries;
    } };
}
/// After list 0.
pub const BEHIND_LIST_0: [Row; 1] = behind_list_0_syntax!(table);

macro_rules! behind_list_1_syntax {
    ($as:ident) => { $as! {
        let ENTRIES_1 = num_ref_entries;
    } };
}
/// After list 1.
pub const BEHIND_LIST_1: [Row; 1] = behind_list_1_syntax!(table);

/// The first fields of prediction weights, clause 7.3.8.
pub const WEIGHTS_0: [Row; 8] = table! {
    luma_log2_weight_denom: ue in 0..=7;
    if sps_chroma_format_idc { delta_chroma_log2_weight_denom: se; }
    let NUM_WEIGHTS = ACTIVE_0;
    let MOST_WEIGHTS = (ENTRIES_0 min 15);
    if pps_wp_info_in_ph_flag {
        num_l0_weights: ue in 0..=MOST_WEIGHTS;
        let NUM_WEIGHTS = num_l0_weights;
    }
};

/// The weights of a list, clause 7.3.8: all luma flags, all chroma flags, and then the fields of each weight.
pub const WEIGHTS: [Row; 26] = table! {
    let LUMA_FLAGS = 0;
    let CHROMA_FLAGS = 0;
    for ENTRY in NUM_WEIGHTS {
        luma_weight_flag;
        let LUMA_FLAGS = (LUMA_FLAGS * 2);
        let LUMA_FLAGS = (LUMA_FLAGS + luma_weight_flag);
    }
    if sps_chroma_format_idc {
        for ENTRY in NUM_WEIGHTS {
            chroma_weight_flag;
            let CHROMA_FLAGS = (CHROMA_FLAGS * 2);
            let CHROMA_FLAGS = (CHROMA_FLAGS + chroma_weight_flag);
        }
    }
    for ENTRY in NUM_WEIGHTS {
        let FLAG_BIT = (NUM_WEIGHTS - ENTRY);
        let FLAG_BIT = (FLAG_BIT - 1);
        let FLAG_BIT = (pow2 FLAG_BIT);
        let IS_SET = (FLAG_BIT <= LUMA_FLAGS);
        if IS_SET {
            delta_luma_weight: se;
            luma_offset: se;
            let LUMA_FLAGS = (LUMA_FLAGS - FLAG_BIT);
        }
        let IS_SET = (FLAG_BIT <= CHROMA_FLAGS);
        if IS_SET {
            for CHROMA in 2 {
                delta_chroma_weight: se;
                delta_chroma_offset: se;
            }
            let CHROMA_FLAGS = (CHROMA_FLAGS - FLAG_BIT);
        }
    }
};

/// Between the weights of list 0 and those of list 1, clause 7.3.8: the number of the latter.
pub const WEIGHTS_1: [Row; 10] = table! {
    let NUM_WEIGHTS = ACTIVE_1;
    let MOST_WEIGHTS = (ENTRIES_1 min 15);
    let HAS_WEIGHTS_1 = (pps_weighted_bipred_flag and ENTRIES_1);
    if (not pps_weighted_bipred_flag) { let NUM_WEIGHTS = 0; }
    if pps_wp_info_in_ph_flag {
        let NUM_WEIGHTS = 0;
        if HAS_WEIGHTS_1 {
            num_l1_weights: ue in 0..=MOST_WEIGHTS;
            let NUM_WEIGHTS = num_l1_weights;
        }
    }
};

pub(crate) use before_list_0_syntax;
pub(crate) use behind_list_0_syntax;
pub(crate) use behind_list_1_syntax;
pub(crate) use choice_syntax;
pub(crate) use long_term_syntax;
pub(crate) use ref_pic_list_struct_syntax;
