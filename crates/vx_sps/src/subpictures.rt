//! The subpictures of a set's pictures, from its items.

ghost use Rattle.std.specs.Prelude.{◌≡◌, ◌+◌, ◌-◌, ◌<◌, ◌≤◌, length, slice_index, slice_index_or, [], OnOk, IfOk};
ghost use Rattle.vx_table.specs.Loaded.{number};
ghost use Rattle.vx_table.specs.Loaded as loading;
ghost use Rattle.vx_sps.specs.Subpictures as spec;
ghost use Rattle.vx_table.specs.Scope.{fresh, loaded};
ghost use Rattle.vx_fields.specs.declared.sps.TheConstants as sps;
ghost use Rattle.vx_sps.specs.Set as set;
ghost use Rattle.vx_sps.specs.inner.Kept.{AreSubpictures, no_numbers};

use std::alloc::{AllocError, Global};
use std::marker::Model;
use vx_bits::{CopyList, Fields, IdList};
use vx_fields::sps::{
    sps_loop_filter_across_subpic_enabled_flag, sps_num_subpics_minus1, sps_subpic_ctu_top_left_x,
    sps_subpic_ctu_top_left_y, sps_subpic_height_minus1, sps_subpic_id, sps_subpic_same_size_flag,
    sps_subpic_treated_as_pic_flag, sps_subpic_width_minus1,
};
use vx_layout::Rect;
use vx_table::{Scope, natural};

/// A subpicture, as a set stores it.
#[derive(Clone, Copy)]
pub(crate) struct Subpicture {
    /// Its rectangle, in CTUs.
    pub rect: Rect,
    /// Whether it is treated as a picture.
    pub treated: bool,
    /// Whether in-loop filters cross its borders.
    pub filtered: bool,
    /// Its id, if no PPS gives another.
    pub id: u32,
}

/// Stores the numbers of a field's items, in order.
#[tactic(auto, using(crate::proofs::Counted::number_more, crate::proofs::Counted::number_passed))]
fn note_numbers(fields: &Fields, field: u16, numbers: &mut IdList) -> Result<(), AllocError>
    requires { numbers.old ≡ [] }
    ensures { OnOk result (numbers.new ≡ loading.numbers_of fields.now field) }
{
    for i in 0..fields.len() {
        let item = fields.item(i);
        if item.field == field {
            numbers.push(natural(item.value))?;
        }
    }
    Ok(())
}

/// Returns a number by its place, or 0 if there is none.
fn number_at(numbers: &IdList, i: u32) -> u32
    ensures { result ≡ slice_index numbers.now i }
{
    number_or(numbers, i, 0)
}

/// Returns a number by its place, or another if there is none.
fn number_or(numbers: &IdList, i: u32, other: u32) -> u32
    ensures { result ≡ slice_index_or numbers.now i other }
{
    numbers.as_slice().get(i as usize).copied().unwrap_or(other)
}

/// Returns the column, or the row, at which subpicture `i` begins.
fn corner_at(corners: &IdList, i: u32) -> u32
    ensures { result ≡ spec.ctu_top_left_at corners.now i }
{
    if i == 0 { 0 } else { number_at(corners, i - 1) }
}

/// Returns its width, or its height, in a picture that ends at this border.
fn size_at(sizes: &IdList, border: u32, corner: u32, i: u32) -> u32
    ensures { result ≡ spec.size_at sizes.now border corner i }
{
    if (i as usize) < sizes.len() {
        number_at(sizes, i).saturating_add(1)
    } else {
        border.saturating_sub(corner)
    }
}

/// Returns how many of a width fit next to each other.
fn across(columns: u32, w: u32) -> u32
    ensures count { result ≡ spec.subpic_columns columns w }
    ensures some { 1 ≤ result }
{
    if w == 0 { 1 } else { (columns / w).max(1) }
}

/// Returns rectangle `i` on the grid of the first one's size.
fn on_grid(columns: u32, first: Rect, i: u32) -> Rect
    ensures { result ≡ spec.on_grid columns first i }
{
    let across = across(columns, first.w);
    Rect {
        x: (i % across).saturating_mul(first.w),
        y: (i / across).saturating_mul(first.h),
        w: first.w,
        h: first.h,
    }
}

/// The numbers of a set's subpictures, field by field.
#[derive(Drop)]
struct Numbers {
    x: IdList,
    y: IdList,
    w: IdList,
    h: IdList,
    treated: IdList,
    filtered: IdList,
    ids: IdList,
}

impl Numbers {
    ghost use Rattle.std.specs.Prelude.{OnOk};
    ghost use Rattle.vx_sps.specs.inner.Kept.{no_numbers, subpicture_numbers};

    /// Returns no numbers.
    fn new(alloc: Global) -> Numbers
        ensures { result ≡ no_numbers }
    {
        Numbers {
            x: IdList::new(alloc),
            y: IdList::new(alloc),
            w: IdList::new(alloc),
            h: IdList::new(alloc),
            treated: IdList::new(alloc),
            filtered: IdList::new(alloc),
            ids: IdList::new(alloc),
        }
    }

    /// Stores the numbers of the items.
    fn note(&mut self, fields: &Fields) -> Result<(), AllocError>
        requires { self.old ≡ no_numbers }
        ensures { OnOk result (self.new ≡ subpicture_numbers fields.now) }
    {
        note_numbers(fields, sps_subpic_ctu_top_left_x, &mut self.x)?;
        note_numbers(fields, sps_subpic_ctu_top_left_y, &mut self.y)?;
        note_numbers(fields, sps_subpic_width_minus1, &mut self.w)?;
        note_numbers(fields, sps_subpic_height_minus1, &mut self.h)?;
        note_numbers(fields, sps_subpic_treated_as_pic_flag, &mut self.treated)?;
        note_numbers(
            fields,
            sps_loop_filter_across_subpic_enabled_flag,
            &mut self.filtered,
        )?;
        note_numbers(fields, sps_subpic_id, &mut self.ids)
    }
}

/// The fields of a set that describe its subpictures. *Model:* the items of the set.
#[derive(Drop)]
struct Told<'a> {
    fields: &'a Fields,
    columns: u32,
    rows: u32,
    same_size: bool,
    numbers: &'a Numbers,
}

impl<'a> Model for Told<'a> {
    ghost use Rattle.std.specs.Prelude.{List};
    ghost use Rattle.vx_bits.specs.declared.list.Item.{Item};
    ghost use Rattle.vx_sps.specs.inner.Kept.{IsTold};

    ghost Value = { List Item };

    ghost view = { λ t. t.fields.now };

    ghost invariant = { λ t. IsTold t.fields.now t.columns t.rows t.same_size t.numbers.now };
}

impl<'a> Told<'a> {
    ghost use Rattle.std.specs.Prelude.{◌≡◌, ◌+◌, ◌-◌, ◌<◌, ◌≤◌, length, slice_index, slice_index_or, IfOk};
    ghost use Rattle.vx_table.specs.Scope.{fresh, loaded};
    ghost use Rattle.vx_sps.specs.Set as set;
    ghost use Rattle.vx_sps.specs.Subpictures as spec;
    ghost use Rattle.vx_sps.specs.inner.Kept.{AreSubpictures, subpicture_of};

    /// Returns the rectangle of subpicture `i`, if it is coded on its own.
    fn own_rect(&self, i: u32) -> Rect
        ensures { result ≡ spec.own_rect self.now i }
    {
        let (x, y) = (corner_at(&self.numbers.x, i), corner_at(&self.numbers.y, i));
        Rect {
            x,
            y,
            w: size_at(&self.numbers.w, self.columns, x, i),
            h: size_at(&self.numbers.h, self.rows, y, i),
        }
    }

    /// Returns the rectangle of subpicture `i`.
    fn rect(&self, i: u32) -> Rect
        ensures { result ≡ spec.rect_of self.now i }
    {
        if self.same_size {
            on_grid(self.columns, self.own_rect(0), i)
        } else {
            self.own_rect(i)
        }
    }

    /// Returns subpicture `i`.
    fn subpicture(&self, i: u32) -> Subpicture
        ensures { result ≡ subpicture_of self.now i }
    {
        Subpicture {
            rect: self.rect(i),
            treated: number_or(&self.numbers.treated, i, 1) != 0,
            filtered: number_or(&self.numbers.filtered, i, 0) != 0,
            id: number_or(&self.numbers.ids, i, i),
        }
    }

    /// Returns the first `n` subpictures.
    #[tactic(auto, using(crate::proofs::Counted::subpicture_more))]
    fn subpictures(&self, alloc: Global, n: u32) -> Result<CopyList<Subpicture>, AllocError>
        ensures { IfOk result (λ list. AreSubpictures self.now n list) }
    {
        let mut list = CopyList::new(alloc);
        for i in 0..n {
            list.push(self.subpicture(i))?;
        }
        Ok(list)
    }
}

/// Returns what [`subpictures`] does, with the numbers that are stored for them.
fn noted_subpictures(
    alloc: Global,
    fields: &Fields,
    scope: &Scope,
    columns: u32,
    rows: u32,
    numbers: &mut Numbers,
) -> Result<CopyList<Subpicture>, AllocError>
    requires scope { scope.now ≡ loaded fresh fields.now }
    requires most { number fields.now sps.sps_num_subpics_minus1 < 1000 }
    requires columns { columns ≡ set.ctu_columns_of fields.now }
    requires rows { rows ≡ set.ctu_rows_of fields.now }
    requires numbers { numbers.old ≡ no_numbers }
    ensures { IfOk result (λ list. AreSubpictures fields.now (spec.subpics_of fields.now) list) }
{
    numbers.note(fields)?;
    let told = Told {
        fields,
        columns,
        rows,
        same_size: scope.latest(sps_subpic_same_size_flag) != 0,
        numbers,
    };
    told.subpictures(alloc, scope.latest(sps_num_subpics_minus1) + 1)
}

/// Returns the subpictures of a set whose numbers the scope has; its pictures have `columns` times `rows` CTUs.
pub(crate) fn subpictures(
    alloc: Global,
    fields: &Fields,
    scope: &Scope,
    columns: u32,
    rows: u32,
) -> Result<CopyList<Subpicture>, AllocError>
    requires scope { scope.now ≡ loaded fresh fields.now }
    requires most { number fields.now sps.sps_num_subpics_minus1 < 1000 }
    requires columns { columns ≡ set.ctu_columns_of fields.now }
    requires rows { rows ≡ set.ctu_rows_of fields.now }
    ensures { IfOk result (λ list. AreSubpictures fields.now (spec.subpics_of fields.now) list) }
{
    let mut numbers = Numbers::new(alloc);
    noted_subpictures(alloc, fields, scope, columns, rows, &mut numbers)
}
