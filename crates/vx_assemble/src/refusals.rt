//! Refusals of the rules on units.
ghost use Rattle.std.specs.Prelude.{◌≡◌};
ghost use Rattle.vx_pic.specs.Rules as words;

use vx_bits::Refusal;
use vx_bits::rules::SET_MISSING;

/// Returns the refusal of a rule that names no set.
pub(crate) fn structure(code: u8) -> Refusal
    ensures { result ≡ words.structure code }
{
    Refusal::Structure {
        code,
        kind: 0,
        id: 0,
    }
}

/// Returns the refusal for a set that is missing.
pub(crate) fn missing(kind: u8, id: u8) -> Refusal
    ensures { result ≡ words.missing kind id }
{
    Refusal::Structure {
        code: SET_MISSING,
        kind,
        id,
    }
}
