//! Items of sets and headers.
ghost use Rattle.std.specs.Prelude.{◌≡◌};
ghost use Rattle.vx_pic.specs.Sets as sets;

use vx_bits::Fields;

/// Returns the value of a field's first item, or 0 if it has none.
pub(crate) fn signed(fields: &Fields, field: u16) -> i64
    ensures { result ≡ sets.signed fields.now field }
{
    fields.first(field).unwrap_or(0)
}
