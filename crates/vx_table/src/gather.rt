//! Items for a rewritten structure: those of listed fields, those of all other fields, and new ones.

ghost use Rattle.std.specs.Prelude.{◌≡◌, pos, [], ◌∷◌, ◌++◌, OnOk, IfOk};
ghost use Rattle.vx_table.specs.Shown.{shown_items};
ghost use Rattle.vx_table.specs.Rewritten.{other_items, where_so};

use crate::depends::has;
use std::alloc::{AllocError, Global};
use vx_bits::{Fields, Item};

/// Returns the items of the fields in `names`, in order.
///
/// # Errors
///
/// `AllocError` if memory runs out.
#[tactic(auto, using(crate::proofs::Gathering::shown_more, crate::proofs::Gathering::shown_passed))]
pub fn items_of(alloc: Global, items: &Fields, names: &[u16]) -> Result<Fields, AllocError>
    ensures { IfOk result (λ shown. shown ≡ shown_items names.now items.now) }
{
    let mut shown = Fields::new(alloc);
    for i in 0..items.len() {
        let item = items.item(i);
        if has(names, item.field) {
            shown.push(item)?;
        }
    }
    Ok(shown)
}

/// Returns the items of all fields except those in `names`, in order.
///
/// # Errors
///
/// `AllocError` if memory runs out.
#[tactic(auto, using(crate::proofs::Gathering::other_more, crate::proofs::Gathering::other_passed))]
pub fn others_of(alloc: Global, items: &Fields, names: &[u16]) -> Result<Fields, AllocError>
    ensures { IfOk result (λ others. others ≡ other_items names.now items.now) }
{
    let mut others = Fields::new(alloc);
    for i in 0..items.len() {
        let item = items.item(i);
        if !has(names, item.field) {
            others.push(item)?;
        }
    }
    Ok(others)
}

/// Returns an item of a field.
pub fn item(field: u16, number: u32) -> Item
    ensures { result ≡ record { field = field; value = pos number } }
{
    Item {
        field,
        value: i64::from(number),
    }
}

/// Appends an item if `holds` is true.
///
/// # Errors
///
/// `AllocError` if memory runs out.
pub fn push_where(holds: bool, item: Item, into: &mut Fields) -> Result<(), AllocError>
    ensures { OnOk result (into.new ≡ into.old ++ where_so holds (item ∷ [])) }
{
    if holds { into.push(item) } else { Ok(()) }
}
