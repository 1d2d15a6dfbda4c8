//! The name of a field as text.
ghost use Rattle.std.specs.Prelude.{◌≡◌, ◌+◌, ◌≤◌, length};
ghost use Rattle.std.specs.Option.{option_copied};
ghost use Rattle.vx_fields.specs.Names as names;
ghost use Rattle.vx_fields.specs.declared.text.TheConstants.{TEXT as ALL_NAMES};

use crate::text::{PLACES, TEXT};

/// Returns the name of the field with a number, as its constant has it, or `None` if there is no such field.
pub fn name_of(field: u16) -> Option<&'static [u8]>
    ensures { option_copied result ≡ names.name_of field }
{
    let number = usize::from(field);
    let name = &TEXT[place_of(number)..place_of(number + 1)];
    (!name.is_empty()).then_some(name)
}

/// Returns the place in the text where the name of this number begins.
fn place_of(number: usize) -> usize
    ensures place { result ≡ names.place_of_name number }
    ensures climbs { result ≤ names.place_of_name (number + 1) }
    ensures within { result ≤ length ALL_NAMES }
{
    match PLACES.get(number) {
        Some(place) => usize::from(*place),
        None => TEXT.len(),
    }
}
