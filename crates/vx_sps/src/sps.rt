//! A sequence parameter set, and the values that callers need of it.

ghost use Rattle.std.specs.Prelude.{◌≡◌, ◌+◌, ◌^◌, ◌<◌, ◌≤◌, List, length, slice_index, IfOk};
ghost use Rattle.vx_table.specs.Scope.{fresh, loaded};
ghost use Rattle.vx_table.specs.Loaded.{number};
ghost use Rattle.vx_rpl.specs.Resolved.{table_of};
ghost use Rattle.vx_sps.specs.Set as set;
ghost use Rattle.vx_fields.specs.declared.sps.TheConstants as sps;

use crate::subpictures::{Subpicture, subpictures};
use std::alloc::{AllocError, Global};
use std::marker::Model;
use vx_bits::{Bytes, CopyList, Fields};
use vx_fields::sps::{
    sps_extra_ph_bit_present_flag, sps_extra_sh_bit_present_flag, sps_log2_ctu_size_minus5,
    sps_log2_max_pic_order_cnt_lsb_minus4, sps_long_term_ref_pics_flag, sps_num_subpics_minus1,
    sps_pic_height_max_in_luma_samples, sps_pic_width_max_in_luma_samples,
    sps_seq_parameter_set_id, sps_weighted_bipred_flag, sps_weighted_pred_flag,
};
use vx_layout::Rect;
use vx_rpl::{RplNumbers, RplTable};
use vx_table::{Scope, natural, quotient};

/// A sequence parameter set (H.266 7.3.2.4).
///
/// The values that callers need are computed once, when it is made. *Model:* the list of its items.
pub struct Sps {
    fields: Fields,
    rbsp: Option<Bytes>,
    scope: Box<Scope>,
    subpictures: CopyList<Subpicture>,
    table: RplTable,
    extra_ph_bits: u32,
    extra_sh_bits: u32,
}

impl Drop for Sps {
    fn drop(self) {
        let Sps {
            fields: _,
            rbsp: _,
            scope: _,
            subpictures: _,
            table: _,
            extra_ph_bits: _,
            extra_sh_bits: _,
        } = self;
    }
}

impl Model for Sps {
    ghost use Rattle.std.specs.Prelude.{List};
    ghost use Rattle.vx_bits.specs.declared.list.Item.{Item};
    ghost use Rattle.vx_sps.specs.inner.Kept.{IsKept};

    ghost Value = { List Item };

    ghost view = { λ s. s.fields };

    ghost invariant = { λ s. IsKept s.fields s.rbsp s.scope.value s.subpictures s.table s.extra_ph_bits s.extra_sh_bits };
}

/// Returns how many flags of a field are 1.
#[tactic(auto, using(crate::proofs::Counted::flag_more, crate::proofs::Counted::flag_passed))]
fn set_flags(field: u16, fields: &Fields) -> u32
    ensures { result ≡ set.set_flags field fields.now }
{
    let mut count = 0_u32;
    for i in 0..fields.len() {
        let item = fields.item(i);
        if item.field == field && natural(item.value) != 0 {
            count = count.saturating_add(1);
        }
    }
    count
}

/// Returns the CTU size of a set whose numbers the scope has.
fn ctb_size(scope: &Scope) -> u32
    requires { slice_index scope.now sps.sps_log2_ctu_size_minus5 < 3 }
    ensures { result ≡ 2 ^ (slice_index scope.now sps.sps_log2_ctu_size_minus5 + 5) }
{
    1 << (scope.latest(sps_log2_ctu_size_minus5) + 5)
}

/// Returns the reference picture list structures of a set.
fn structures(alloc: Global, fields: &Fields, scope: &Scope) -> Result<RplTable, AllocError>
    requires { scope.now ≡ loaded fresh fields.now }
    ensures { IfOk result (λ table. table ≡ table_of (set.is_weighted fields.now) fields.now) }
{
    let weighted = scope.latest(sps_weighted_pred_flag) != 0
        || scope.latest(sps_weighted_bipred_flag) != 0;
    // The last of these is in a PPS, and no structure of a set depends on it.
    let numbers = RplNumbers {
        long_term: scope.latest(sps_long_term_ref_pics_flag) != 0,
        weighted,
        lsb_bits: scope
            .latest(sps_log2_max_pic_order_cnt_lsb_minus4)
            .saturating_add(4),
        rpl1_idx_present: false,
    };
    RplTable::new(alloc, &numbers, fields, 0, fields.len())
}

impl Sps {
    ghost use Rattle.std.specs.Prelude.{◌≡◌, ◌<◌, ◌≤◌, IfOk, option_copied};
    ghost use Rattle.vx_fields.specs.declared.sps.TheConstants as sps;
    ghost use Rattle.vx_table.specs.Scope.{fresh, loaded};
    ghost use Rattle.vx_table.specs.Loaded.{number};
    ghost use Rattle.vx_rpl.specs.Resolved.{table_of};
    ghost use Rattle.vx_sps.specs.Set as set;
    ghost use Rattle.vx_sps.specs.Subpictures as pictures;
    ghost use Rattle.vx_sps.specs.inner.Kept.{subpicture_of};
    ghost use Rattle.vx_sps.specs.Subpictures.{subpics_of};
    ghost use Rattle.vx_sps.specs.Structure.{sps_form};
    ghost use Rattle.vx_table.specs.ReadFrom.{IsReadFrom};

    /// Returns the set with these items, which were read from `rbsp` if that is given.
    pub(crate) fn new(alloc: Global, fields: Fields, rbsp: Option<Bytes>) -> Result<Sps, AllocError>
        requires items { set.AreSpsItems fields }
        requires read { IsReadFrom sps_form rbsp fields }
        ensures { IfOk result (λ made. made ≡ fields) }
    {
        let mut scope = Box::new(alloc, Scope::new())?;
        scope.load(&fields);
        let ctb = ctb_size(&scope);
        let columns = quotient(scope.latest(sps_pic_width_max_in_luma_samples), ctb);
        let rows = quotient(scope.latest(sps_pic_height_max_in_luma_samples), ctb);
        let subpictures = subpictures(alloc, &fields, &scope, columns, rows)?;
        let table = structures(alloc, &fields, &scope)?;
        let extra_ph_bits = set_flags(sps_extra_ph_bit_present_flag, &fields);
        let extra_sh_bits = set_flags(sps_extra_sh_bit_present_flag, &fields);
        Ok(Sps {
            fields,
            rbsp,
            scope,
            subpictures,
            table,
            extra_ph_bits,
            extra_sh_bits,
        })
    }

    /// Returns its items, in the order of H.266.
    pub fn fields(&self) -> &Fields
        ensures items { result.now ≡ self.now }
        ensures set { set.AreSpsItems result.now }
    {
        &self.fields
    }

    /// Returns the RBSP from which it was read (H.266 7.3.2.4), if that has at most 1,024 bytes.
    ///
    /// Returns `None` for a longer one, and for a set that was made of items.
    pub fn rbsp(&self) -> Option<&Bytes>
        ensures { IsReadFrom sps_form (option_copied result) self.now }
    {
        self.rbsp.as_ref()
    }

    /// Returns the numbers of its fields, under which headers are read.
    pub fn scope(&self) -> &Scope
        ensures { result.now ≡ loaded fresh self.now }
    {
        &self.scope
    }

    /// Returns the number of a field's last item, or 0 if it has none.
    pub fn number(&self, field: u16) -> u32
        ensures { result ≡ number self.now field }
    {
        self.scope.latest(field)
    }

    /// Returns its id, by which PPSs refer to it: sps_seq_parameter_set_id, below 16.
    pub fn sps_id(&self) -> u8
        ensures value { result ≡ number self.now sps.sps_seq_parameter_set_id }
        ensures low { result < 16 }
    {
        self.scope.latest(sps_seq_parameter_set_id) as u8
    }

    /// Returns the width of the largest picture in luma samples: sps_pic_width_max_in_luma_samples.
    pub fn width(&self) -> u32
        ensures { result ≡ set.width_of self.now }
    {
        self.scope.latest(sps_pic_width_max_in_luma_samples)
    }

    /// Returns the height of the largest picture in luma samples: sps_pic_height_max_in_luma_samples.
    pub fn height(&self) -> u32
        ensures { result ≡ set.height_of self.now }
    {
        self.scope.latest(sps_pic_height_max_in_luma_samples)
    }

    /// Returns the CTU size in luma samples, 32, 64 or 128: CtbSizeY.
    pub fn ctb(&self) -> u32
        ensures { result ≡ set.ctb_size_of self.now }
    {
        ctb_size(&self.scope)
    }

    /// Returns the number of subpictures, from 1 to 1,000: sps_num_subpics_minus1 + 1.
    pub fn subpics(&self) -> u32
        ensures number { result ≡ subpics_of self.now }
        ensures most { result ≤ 1000 }
    {
        self.scope.latest(sps_num_subpics_minus1) + 1
    }

    /// Returns what is stored of a subpicture.
    fn subpicture(&self, i: u32) -> Subpicture
        requires { i < subpics_of self.now }
        ensures { result ≡ subpicture_of self.now i }
    {
        self.subpictures.item(i as usize)
    }

    /// Returns the rectangle of a subpicture, in CTUs: sps_subpic_ctu_top_left_x and so on (H.266 7.4.3.4).
    pub fn rect(&self, i: u32) -> Rect
        requires { i < subpics_of self.now }
        ensures { result ≡ pictures.rect_of self.now i }
    {
        self.subpicture(i).rect
    }

    /// Returns whether a subpicture is treated as a picture: sps_subpic_treated_as_pic_flag, or true if that is absent.
    pub fn treated(&self, i: u32) -> bool
        requires { i < subpics_of self.now }
        ensures { result ≡ pictures.is_treated self.now i }
    {
        self.subpicture(i).treated
    }

    /// Returns whether in-loop filters cross the borders of a subpicture: sps_loop_filter_across_subpic_enabled_flag, or
    /// false if that is absent.
    pub fn filtered(&self, i: u32) -> bool
        requires { i < subpics_of self.now }
        ensures { result ≡ pictures.is_filtered self.now i }
    {
        self.subpicture(i).filtered
    }

    /// Returns the id of a subpicture, if no PPS gives another: sps_subpic_id, or its index if that is absent.
    pub fn id(&self, i: u32) -> u32
        requires { i < subpics_of self.now }
        ensures { result ≡ pictures.sps_subpic_id_of self.now i }
    {
        self.subpicture(i).id
    }

    /// Returns the reference picture list structures.
    pub fn table(&self) -> &RplTable
        ensures { result.now ≡ table_of (set.is_weighted self.now) self.now }
    {
        &self.table
    }

    /// Returns the number of extra bits of a picture header: NumExtraPhBits.
    pub fn extra_ph_bits(&self) -> u32
        ensures { result ≡ set.extra_ph_bits_of self.now }
    {
        self.extra_ph_bits
    }

    /// Returns the number of extra bits of a slice header: NumExtraShBits.
    pub fn extra_sh_bits(&self) -> u32
        ensures { result ≡ set.extra_sh_bits_of self.now }
    {
        self.extra_sh_bits
    }
}
