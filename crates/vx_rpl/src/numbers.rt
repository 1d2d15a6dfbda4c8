//! The numbers of parameter sets and headers that lists and weights depend on.
ghost use Rattle.std.specs.Prelude.{◌≡◌, ◌≤◌};
ghost use Rattle.vx_rpl.specs.Numbers.{lists_scope, structure_scope, weights_scope};

use vx_fields::names::rpl::{ACTIVE_0, ACTIVE_1, ENTRIES_0, ENTRIES_1, NUM_STRUCTURES, STRUCTURE};
use vx_fields::pps::{pps_rpl1_idx_present_flag, pps_weighted_bipred_flag, pps_wp_info_in_ph_flag};
use vx_fields::sps::{
    sps_chroma_format_idc, sps_log2_max_pic_order_cnt_lsb_minus4, sps_long_term_ref_pics_flag,
    sps_weighted_pred_flag,
};
use vx_table::Scope;

/// The numbers of the parameter sets that reference picture lists depend on.
#[derive(Clone, Copy)]
pub struct RplNumbers {
    /// sps_long_term_ref_pics_flag.
    pub long_term: bool,
    /// Whether slices may have weights: sps_weighted_pred_flag or sps_weighted_bipred_flag.
    pub weighted: bool,
    /// The number of bits of ph_pic_order_cnt_lsb, from 4 to 16.
    pub lsb_bits: u32,
    /// pps_rpl1_idx_present_flag.
    pub rpl1_idx_present: bool,
}

impl RplNumbers {
    /// Returns the scope that has these numbers.
    #[tactic(auto, unfolding(crate::specs::Numbers::lists_scope))]
    pub fn scope(&self) -> Scope
        requires { (4 ≤ self.now.lsb_bits) × (self.now.lsb_bits ≤ 16) }
        ensures { result ≡ lists_scope self.now }
    {
        let mut scope = Scope::new();
        scope.set(sps_long_term_ref_pics_flag, u32::from(self.long_term));
        scope.set(sps_weighted_pred_flag, u32::from(self.weighted));
        scope.set(sps_log2_max_pic_order_cnt_lsb_minus4, self.lsb_bits - 4);
        scope.set(pps_rpl1_idx_present_flag, u32::from(self.rpl1_idx_present));
        scope
    }

    /// Returns the scope of structure `index` of the SPS's `count`, or if they are equal of one in a header.
    #[tactic(auto, unfolding(crate::specs::Numbers::structure_scope))]
    pub fn structure_scope(&self, index: u32, count: u32) -> Scope
        requires { (4 ≤ self.now.lsb_bits) × (self.now.lsb_bits ≤ 16) }
        ensures { result ≡ structure_scope self.now index count }
    {
        let mut scope = self.scope();
        scope.set(STRUCTURE, index);
        scope.set(NUM_STRUCTURES, count);
        scope
    }
}

/// The numbers of parameter sets and headers that prediction weights depend on.
#[derive(Clone, Copy)]
pub struct WeightNumbers {
    /// Whether there is chroma: sps_chroma_format_idc isn't 0.
    pub chroma: bool,
    /// pps_wp_info_in_ph_flag: the weights are in a picture header.
    pub in_header: bool,
    /// pps_weighted_bipred_flag.
    pub bipred: bool,
    /// The numbers of entries of list 0 and list 1.
    pub entries: [u32; 2],
    /// NumRefIdxActive[ 0 ] and NumRefIdxActive[ 1 ].
    pub active: [u32; 2],
}

impl WeightNumbers {
    /// Returns the scope that has these numbers.
    #[tactic(auto, unfolding(crate::specs::Numbers::weights_scope))]
    pub fn scope(&self) -> Scope
        ensures { result ≡ weights_scope self.now }
    {
        let mut scope = Scope::new();
        scope.set(sps_chroma_format_idc, u32::from(self.chroma));
        scope.set(pps_wp_info_in_ph_flag, u32::from(self.in_header));
        scope.set(pps_weighted_bipred_flag, u32::from(self.bipred));
        scope.set(ENTRIES_0, self.entries[0]);
        scope.set(ENTRIES_1, self.entries[1]);
        scope.set(ACTIVE_0, self.active[0]);
        scope.set(ACTIVE_1, self.active[1]);
        scope
    }
}
