//! The first difference of two decoding inputs.
ghost use Rattle.std.specs.Prelude.{◌≡◌, ℕ, Bool, List, [], ◌∷◌, Some, map, option_copied, option_map};
ghost use Rattle.std.specs.Bool.{OnTrue, OnFalse};
ghost use Rattle.vx_pic.specs.Seen.{alf_seen, input_seen};
ghost use Rattle.vx_pic.specs.Sets as sets;
ghost use Rattle.vx_pic.specs.Differences as differences;
ghost use Rattle.vx_pic.specs.Differences.{IsDifference};
ghost use Rattle.vx_pic.specs.inner.Compared.{Compares};

use crate::in_force::AlfInForce;
use crate::input::DecodingInput;
use crate::place::Place;
use vx_bits::{BodyList, Item, Kept};
use vx_layout::{Bounds, Numbers, Rect, RectList};
use vx_rpl::{RefEntry, RefList, RefLists};

/// The first difference of two decoding inputs.
#[derive(Clone, Copy, Debug, PartialEq, Eq)]
pub struct Difference {
    /// The part, from 1 to 12, in the order of the fields of [`DecodingInput`].
    pub part: u8,
    /// For parts 2 to 5, the kept fields of a set or a header: the number of the field at the first place where the lists differ.
    /// It is the first list's field there, or the second's if the first has ended. Otherwise 0.
    pub field: u16,
}

/// Returns whether two lists have the same items. Takes no memory.
#[tactic(auto, using(crate::proofs::SameItems::items_longer, crate::proofs::SameItems::field_differs, crate::proofs::SameItems::value_differs, crate::proofs::SameItems::alike_at, crate::proofs::SameItems::all_alike_items))]
pub fn same_items(items: &[Item], others: &[Item]) -> bool
    ensures { result ≡ sets.same_items items.now others.now }
{
    if items.len() != others.len() {
        return false;
    }
    for i in 0..items.len() {
        let (item, other) = (&items[i], &others[i]);
        if item.field != other.field {
            return false;
        }
        if item.value != other.value {
            return false;
        }
    }
    true
}

/// Returns the field at the first place where two lists of items differ, or `None` if they are the same. Takes no memory.
///
/// It is the first list's field there, or the second's if the first has ended.
#[tactic(auto, using(crate::proofs::Comparing::item_alike, crate::proofs::Comparing::item_differs))]
pub fn differing_field(items: &[Item], others: &[Item]) -> Option<u16>
    ensures { result ≡ differences.differing_field items.now others.now }
{
    let (mut left, mut behind) = (items, others);
    while let Some((item, more)) = left.split_first() {
        match behind.split_first() {
            Some((other, rest)) if item == other => behind = rest,
            _ => return Some(item.field),
        }
        left = more;
    }
    behind.first().map(|other| other.field)
}

/// Returns whether two byte strings are the same.
fn same_bytes(a: &[u8], b: &[u8]) -> bool
    ensures same { OnTrue result (a.now ≡ b.now) }
    ensures other { OnFalse result (¬ (a.now ≡ b.now)) }
{
    a == b
}

/// Returns whether two bodies are the same, or both are absent.
pub fn same_body(a: Option<&[u8]>, b: Option<&[u8]>) -> bool
    ensures same { OnTrue result (option_copied a.entry ≡ option_copied b.entry) }
    ensures other { OnFalse result (¬ (option_copied a.entry ≡ option_copied b.entry)) }
{
    match (a, b) {
        (None, None) => true,
        (Some(a), Some(b)) => same_bytes(a, b),
        _ => false,
    }
}

/// Returns whether two lists have the same bodies.
#[tactic(auto, using(crate::proofs::Comparing::seen_longer, crate::proofs::Comparing::seen_differ, crate::proofs::Comparing::seen_more, crate::proofs::Comparing::seen_alike))]
fn same_bodies(a: &BodyList<'_>, b: &BodyList<'_>) -> bool
    ensures same { OnTrue result (map (λ body. body.now) a.now ≡ map (λ body. body.now) b.now) }
    ensures other { OnFalse result (¬ (map (λ body. body.now) a.now ≡ map (λ body. body.now) b.now)) }
{
    if a.len() != b.len() {
        return false;
    }
    for i in 0..a.len() {
        if !same_bytes(a.item(i), b.item(i)) {
            return false;
        }
    }
    true
}

/// Returns whether two adaptive loop filters are the same.
#[tactic(auto, using(crate::proofs::FieldByField::alf_alike, crate::proofs::FieldByField::alf_enabled, crate::proofs::FieldByField::alf_luma, crate::proofs::FieldByField::alf_cb, crate::proofs::FieldByField::alf_cr, crate::proofs::FieldByField::alf_chroma, crate::proofs::FieldByField::alf_cc_cb, crate::proofs::FieldByField::alf_cc_cr))]
fn same_alf(a: &AlfInForce<'_>, b: &AlfInForce<'_>) -> bool
    ensures same { OnTrue result (alf_seen a.now ≡ alf_seen b.now) }
    ensures other { OnFalse result (¬ (alf_seen a.now ≡ alf_seen b.now)) }
{
    if a.enabled != b.enabled {
        return false;
    }
    if a.cb != b.cb {
        return false;
    }
    if a.cr != b.cr {
        return false;
    }
    if !same_bodies(&a.luma, &b.luma) {
        return false;
    }
    if !same_body(a.chroma, b.chroma) {
        return false;
    }
    if !same_body(a.cc_cb, b.cc_cb) {
        return false;
    }
    if !same_body(a.cc_cr, b.cc_cr) {
        return false;
    }
    true
}

/// Returns whether two uses of luma mapping with chroma scaling are the same.
fn same_lmcs(a: Option<(&[u8], bool)>, b: Option<(&[u8], bool)>) -> bool
    ensures same { OnTrue result (option_map {U = List ℕ × Bool} (λ x. (x.0.now, x.1)) a.entry ≡ option_map {U = List ℕ × Bool} (λ x. (x.0.now, x.1)) b.entry) }
    ensures other { OnFalse result (¬ (option_map {U = List ℕ × Bool} (λ x. (x.0.now, x.1)) a.entry ≡ option_map {U = List ℕ × Bool} (λ x. (x.0.now, x.1)) b.entry)) }
{
    match (a, b) {
        (None, None) => true,
        (Some((body, scaled)), Some((other, other_scaled))) => {
            if scaled != other_scaled {
                return false;
            }
            same_bytes(body, other)
        }
        _ => false,
    }
}

/// Returns whether two entries of reference picture lists are the same.
fn same_entry(a: RefEntry, b: RefEntry) -> bool
    ensures same { OnTrue result (a ≡ b) }
    ensures other { OnFalse result (¬ (a ≡ b)) }
{
    a == b
}

/// Returns whether two reference picture lists are the same.
#[tactic(auto, using(crate::proofs::Comparing::longer, crate::proofs::Comparing::differ_at, crate::proofs::Comparing::alike_more, crate::proofs::Comparing::all_alike))]
fn same_list(a: &RefList, b: &RefList) -> bool
    ensures same { OnTrue result (a.now ≡ b.now) }
    ensures other { OnFalse result (¬ (a.now ≡ b.now)) }
{
    if a.len() != b.len() {
        return false;
    }
    for i in 0..a.len() {
        if !same_entry(a.item(i), b.item(i)) {
            return false;
        }
    }
    true
}

/// Returns whether two lists of bounds are the same.
#[tactic(auto, using(crate::proofs::Comparing::longer, crate::proofs::Comparing::differ_at, crate::proofs::Comparing::alike_more, crate::proofs::Comparing::all_alike))]
fn same_bounds(a: &Bounds, b: &Bounds) -> bool
    ensures same { OnTrue result (a.now ≡ b.now) }
    ensures other { OnFalse result (¬ (a.now ≡ b.now)) }
{
    if a.len() != b.len() {
        return false;
    }
    for i in 0..a.len() {
        if a.item(i) != b.item(i) {
            return false;
        }
    }
    true
}

/// Returns whether two rectangles are the same.
fn same_rect(a: Rect, b: Rect) -> bool
    ensures same { OnTrue result (a ≡ b) }
    ensures other { OnFalse result (¬ (a ≡ b)) }
{
    a == b
}

/// Returns whether two lists have the same rectangles.
#[tactic(auto, using(crate::proofs::Comparing::longer, crate::proofs::Comparing::differ_at, crate::proofs::Comparing::alike_more, crate::proofs::Comparing::all_alike))]
fn same_rects(a: &RectList, b: &RectList) -> bool
    ensures same { OnTrue result (a.now ≡ b.now) }
    ensures other { OnFalse result (¬ (a.now ≡ b.now)) }
{
    if a.len() != b.len() {
        return false;
    }
    for i in 0..a.len() {
        if !same_rect(a.item(i), b.item(i)) {
            return false;
        }
    }
    true
}

/// Returns whether both have the same reference picture lists. Takes no memory.
#[tactic(auto, using(crate::proofs::FieldByField::lists_alike, crate::proofs::FieldByField::lists_first, crate::proofs::FieldByField::lists_second))]
pub fn same_lists(a: &RefLists, b: &RefLists) -> bool
    ensures same { OnTrue result (a.now ≡ b.now) }
    ensures other { OnFalse result (¬ (a.now ≡ b.now)) }
{
    if !same_list(&a.first, &b.first) {
        return false;
    }
    if !same_list(&a.second, &b.second) {
        return false;
    }
    true
}

/// Returns whether two layouts are the same.
#[tactic(auto, using(crate::proofs::FieldByField::numbers_alike, crate::proofs::FieldByField::numbers_columns, crate::proofs::FieldByField::numbers_rows, crate::proofs::FieldByField::numbers_slices, crate::proofs::FieldByField::numbers_subpics))]
fn same_numbers(a: &Numbers, b: &Numbers) -> bool
    ensures same { OnTrue result (a.now ≡ b.now) }
    ensures other { OnFalse result (¬ (a.now ≡ b.now)) }
{
    if !same_bounds(&a.columns, &b.columns) {
        return false;
    }
    if !same_bounds(&a.rows, &b.rows) {
        return false;
    }
    if !same_rects(&a.slices, &b.slices) {
        return false;
    }
    if !same_rects(&a.subpics, &b.subpics) {
        return false;
    }
    true
}

/// Returns whether two places are the same.
#[tactic(auto, using(crate::proofs::FieldByField::place_alike, crate::proofs::FieldByField::place_width, crate::proofs::FieldByField::place_height, crate::proofs::FieldByField::place_layout, crate::proofs::FieldByField::place_address, crate::proofs::FieldByField::place_tiles, crate::proofs::FieldByField::place_slices))]
fn same_place(a: &Place, b: &Place) -> bool
    ensures same { OnTrue result (a.now ≡ b.now) }
    ensures other { OnFalse result (¬ (a.now ≡ b.now)) }
{
    if a.width != b.width {
        return false;
    }
    if a.height != b.height {
        return false;
    }
    if a.address != b.address {
        return false;
    }
    if a.across_tiles != b.across_tiles {
        return false;
    }
    if a.across_slices != b.across_slices {
        return false;
    }
    if !same_numbers(&a.layout, &b.layout) {
        return false;
    }
    true
}

/// Returns a difference in a part without a field.
fn whole(part: u8) -> Option<Difference>
    ensures { result ≡ Some (record { part = part; field = 0 }) }
{
    Some(Difference { part, field: 0 })
}

/// Returns a difference in a part with a field, if there is one.
#[tactic(auto, using(crate::proofs::Comparing::none_differs, crate::proofs::Comparing::some_differs))]
fn in_fields(part: u8, items: &Kept, others: &Kept) -> Option<Difference>
    ensures { Compares (differences.fields_part items.now others.now ∷ []) part result }
{
    let field = differing_field(items.as_slice(), others.as_slice())?;
    Some(Difference { part, field })
}

/// Returns the first difference of two inputs in the kind and the kept fields.
fn in_headers(a: &DecodingInput<'_>, b: &DecodingInput<'_>) -> Option<Difference>
    ensures { Compares (differences.parts_in_headers (input_seen a.now) (input_seen b.now)) 1 result }
{
    if a.kind != b.kind {
        return whole(1);
    }
    if let Some(found) = in_fields(2, &a.sps, &b.sps) {
        return Some(found);
    }
    if let Some(found) = in_fields(3, &a.pps, &b.pps) {
        return Some(found);
    }
    if let Some(found) = in_fields(4, &a.header, &b.header) {
        return Some(found);
    }
    in_fields(5, &a.slice, &b.slice)
}

/// Returns the first difference of two inputs in what is in force, the place and the payload.
fn in_force(a: &DecodingInput<'_>, b: &DecodingInput<'_>) -> Option<Difference>
    ensures { Compares (differences.parts_in_force (input_seen a.now) (input_seen b.now)) 6 result }
{
    if !same_alf(&a.alf, &b.alf) {
        return whole(6);
    }
    if !same_lmcs(a.lmcs, b.lmcs) {
        return whole(7);
    }
    if !same_body(a.scaling, b.scaling) {
        return whole(8);
    }
    if !same_lists(&a.lists, &b.lists) {
        return whole(9);
    }
    if a.slice_qp != b.slice_qp {
        return whole(10);
    }
    if !same_place(&a.place, &b.place) {
        return whole(11);
    }
    if !same_bytes(a.payload, b.payload) {
        return whole(12);
    }
    None
}

/// Returns the first difference of two decoding inputs, or `None` exactly if they are equal. Takes no memory.
#[tactic(auto, using(crate::proofs::PartByPart::in_front, crate::proofs::PartByPart::in_back, crate::proofs::PartByPart::all_same))]
pub fn same_input(a: &DecodingInput<'_>, b: &DecodingInput<'_>) -> Option<Difference>
    ensures { IsDifference (input_seen a.now) (input_seen b.now) result }
{
    if let Some(found) = in_headers(a, b) {
        return Some(found);
    }
    in_force(a, b)
}
