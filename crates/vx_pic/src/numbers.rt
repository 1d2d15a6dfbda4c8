//! Numbers of fields.
ghost use Rattle.std.specs.Prelude.{◌≡◌, ◌==◌, cond};
ghost use Rattle.vx_table.specs.Scope as scopes;
ghost use Rattle.vx_table.specs.Loaded as told;

use vx_bits::{Fields, Item};
use vx_table::natural;

/// Returns the number of a field after an item; before the item it was `latest`.
fn number_behind(latest: u32, field: u16, item: Item) -> u32
    ensures { result ≡ cond (item.field == field) (scopes.natural item.value) latest }
{
    if item.field == field {
        natural(item.value)
    } else {
        latest
    }
}

/// The numbers of fields are below this one.
const FIELDS: u16 = 1024;

/// Returns the number of a field's last item, or 0 if it has none.
///
/// It is the number that a fresh scope has for the field after all items, without the cost of a scope.
#[tactic(auto, using(crate::proofs::FieldNumbers::number_past, crate::proofs::FieldNumbers::number_step, crate::proofs::FieldNumbers::number_all))]
pub fn number_of(fields: &Fields, field: u16) -> u32
    ensures { result ≡ told.number fields.now field }
{
    if field >= FIELDS {
        return 0;
    }
    let mut latest = 0;
    for i in 0..fields.len() {
        let item = fields.item(i);
        latest = number_behind(latest, field, item);
    }
    latest
}
