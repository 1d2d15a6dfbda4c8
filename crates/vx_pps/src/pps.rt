//! A picture parameter set, and the values that callers need of it.
ghost use Rattle.std.specs.Prelude.{◌≡◌, slice_index};
ghost use Rattle.vx_table.specs.Loaded as loading;

use crate::partition::Partition;
use std::alloc::{AllocError, Global};
use std::marker::Model;
use vx_bits::{Bytes, Fields};
use vx_fields::pps::{
    pps_no_pic_partition_flag, pps_num_ref_idx_default_active_minus1,
    pps_pic_height_in_luma_samples, pps_pic_parameter_set_id, pps_pic_width_in_luma_samples,
    pps_seq_parameter_set_id,
};
use vx_layout::{Bounds, RectList};
use vx_table::{Scope, natural};

/// A picture parameter set (H.266 7.3.2.5).
///
/// The values that callers need are computed once, when it is made. Width and height are 1 to 16,384. If the picture is
/// partitioned, the tile bounds rise from 0 to its columns and rows of CTUs, at most 512. It has a slice list exactly if it
/// is partitioned and pps_single_slice_per_subpic_flag isn't 1: 1 to 1,000 slices, each with a CTU (law
/// [`sets_tell_partitions`](crate::sets_tell_partitions)). *Model:* the list of its items.
pub struct Pps {
    fields: Fields,
    rbsp: Option<Bytes>,
    scope: Box<Scope>,
    partition: Partition,
    default_active_0: u32,
    default_active_1: u32,
}

impl Drop for Pps {
    fn drop(self) {
        let Pps {
            fields: _,
            rbsp: _,
            scope: _,
            partition: _,
            default_active_0: _,
            default_active_1: _,
        } = self;
    }
}

impl Model for Pps {
    ghost use Rattle.std.specs.Prelude.{◌≡◌, List};
    ghost use Rattle.vx_bits.specs.declared.list.Item.{Item};
    ghost use Rattle.vx_table.specs.Scope.{fresh, loaded};
    ghost use Rattle.vx_table.specs.ReadFrom.{IsReadFrom};
    ghost use Rattle.vx_pps.specs.Pps.{IsPps, default_active, pps_form};

    ghost Value = { List Item };

    ghost view = { λ p. p.fields };

    ghost invariant = { λ p. IsPps p.fields p.partition × (p.scope.value ≡ loaded fresh p.fields) × (p.default_active_0 ≡ default_active p.fields 0) × (p.default_active_1 ≡ default_active p.fields 1) × IsReadFrom pps_form p.rbsp p.fields };
}

/// Returns the number of a field's item, by its index from 0 among those of this field; 0 if there are fewer.
fn number_at(fields: &Fields, field: u16, index: usize) -> u32
    ensures { result ≡ slice_index (loading.numbers_of fields.now field) index }
{
    let mut before = 0;
    for i in 0..fields.len() {
        let item = fields.item(i);
        if item.field == field {
            if before == index {
                return natural(item.value);
            }
            before += 1;
        }
    }
    0
}

impl Pps {
    ghost use Rattle.std.specs.Prelude.{◌≡◌, ◌<◌, option_copied, IfOk};
    ghost use Rattle.vx_table.specs.Loaded.{number};
    ghost use Rattle.vx_table.specs.Scope.{fresh, loaded};
    ghost use Rattle.vx_fields.specs.declared.pps.TheConstants as names;
    ghost use Rattle.vx_pps.specs.Pps as set;
    ghost use Rattle.vx_table.specs.ReadFrom.{IsReadFrom};
    ghost use Rattle.vx_pps.specs.Pps.{IsPps, pps_form};

    /// Returns the set with these items, which has these tiles and slices, and was read from `rbsp` if that is given.
    pub(crate) fn new(
        alloc: Global,
        fields: Fields,
        partition: Partition,
        rbsp: Option<Bytes>,
    ) -> Result<Pps, AllocError>
        requires set { IsPps fields partition }
        requires read { IsReadFrom pps_form rbsp fields }
        ensures { IfOk result (λ made. made ≡ fields) }
    {
        let mut scope = Box::new(alloc, Scope::new())?;
        scope.load(&fields);
        let field = pps_num_ref_idx_default_active_minus1;
        let default_active_0 = number_at(&fields, field, 0);
        let default_active_1 = number_at(&fields, field, 1);
        Ok(Pps {
            fields,
            rbsp,
            scope,
            partition,
            default_active_0,
            default_active_1,
        })
    }

    /// Returns its items, in the order of H.266.
    pub fn fields(&self) -> &Fields
        ensures items { result.now ≡ self.now }
        ensures set { set.ArePpsItems result.now }
    {
        &self.fields
    }

    /// Returns the RBSP from which it was read (H.266 7.3.2.5), if that has at most 1,024 bytes.
    ///
    /// Returns `None` for a longer one, and for a set that was made of items.
    pub fn rbsp(&self) -> Option<&Bytes>
        ensures { IsReadFrom pps_form (option_copied result) self.now }
    {
        self.rbsp.as_ref()
    }

    /// Returns the numbers of its fields, under which headers are read.
    pub fn scope(&self) -> &Scope
        ensures { result.now ≡ loaded fresh self.now }
    {
        &self.scope
    }

    /// Returns the number of a field's last item, or 0 if it has none.
    pub fn number(&self, field: u16) -> u32
        ensures { result ≡ number self.now field }
    {
        self.scope.latest(field)
    }

    /// Returns its id: pps_pic_parameter_set_id, below 64.
    pub fn pps_id(&self) -> u8
        ensures value { result ≡ number self.now names.pps_pic_parameter_set_id }
        ensures low { result < 64 }
    {
        self.scope.latest(pps_pic_parameter_set_id) as u8
    }

    /// Returns the id of the SPS to which it refers: pps_seq_parameter_set_id, below 16.
    pub fn sps_id(&self) -> u8
        ensures value { result ≡ number self.now names.pps_seq_parameter_set_id }
        ensures low { result < 16 }
    {
        self.scope.latest(pps_seq_parameter_set_id) as u8
    }

    /// Returns the width of a picture in luma samples.
    pub fn width(&self) -> u32
        ensures { result ≡ number self.now names.pps_pic_width_in_luma_samples }
    {
        self.scope.latest(pps_pic_width_in_luma_samples)
    }

    /// Returns the height of a picture in luma samples.
    pub fn height(&self) -> u32
        ensures { result ≡ number self.now names.pps_pic_height_in_luma_samples }
    {
        self.scope.latest(pps_pic_height_in_luma_samples)
    }

    /// Returns whether a picture may have several tiles and slices: pps_no_pic_partition_flag is 0.
    pub fn partitioned(&self) -> bool
        ensures { result ≡ set.is_partitioned self.now }
    {
        self.scope.latest(pps_no_pic_partition_flag) == 0
    }

    /// Returns the bounds of the tile columns in CTUs (H.266 6.5.1); none if the picture isn't partitioned.
    pub fn columns(&self) -> &Bounds
        ensures { result.now ≡ set.tile_columns_of self.now }
    {
        &self.partition.tiles.columns
    }

    /// Returns the bounds of the tile rows in CTUs (H.266 6.5.1); none if the picture isn't partitioned.
    pub fn rows(&self) -> &Bounds
        ensures { result.now ≡ set.tile_rows_of self.now }
    {
        &self.partition.tiles.rows
    }

    /// Returns the slices as rectangles of CTUs (H.266 6.5.1), in the order of the slice list.
    ///
    /// Returns `None` if the picture isn't partitioned, or each subpicture is a slice.
    pub fn slices(&self) -> Option<&RectList>
        ensures { option_copied result ≡ set.slice_list_of self.now }
    {
        self.partition.slices.as_ref()
    }

    /// Returns the default number of active entries of list 0, less 1.
    pub fn default_active_0(&self) -> u32
        ensures { result ≡ set.default_active self.now 0 }
    {
        self.default_active_0
    }

    /// Returns the default number of active entries of list 1, less 1.
    pub fn default_active_1(&self) -> u32
        ensures { result ≡ set.default_active self.now 1 }
    {
        self.default_active_1
    }
}
