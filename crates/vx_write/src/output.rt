//! Writing units one after another.
ghost use Rattle.std.specs.Prelude.{◌≡◌, [], ◌∷◌, map, option_copied, option_to_list};
ghost use Rattle.vx_pic.specs.Written.{eos_units};
ghost use Rattle.vx_write.specs.Writing.{Takes};

use vx_annexb::write_unit;
use vx_io::{Sink, SinkFailed};

/// A unit of type EOS_NUT and TemporalId 0, which is its header (H.266 7.3.2.11).
const END_OF_SEQUENCE: [u8; 2] = [0, 0xA9];

/// Writes a unit.
///
/// *Errors:* [`SinkFailed`]; a proper prefix is written.
pub fn write_one<K: Sink>(out: &mut K, unit: &[u8]) -> Result<(), SinkFailed>
    ensures { Takes (K.bytes_taken out.old) (K.bytes_taken out.new) (K.write_faults out.old) (K.write_faults out.new) (unit.now ∷ []) result }
{
    write_unit(out, &[], unit)
}

/// Writes an end of sequence if `after_eos`.
///
/// *Errors:* [`SinkFailed`]; a proper prefix is written.
pub fn write_end<K: Sink>(out: &mut K, after_eos: bool) -> Result<(), SinkFailed>
    ensures { Takes (K.bytes_taken out.old) (K.bytes_taken out.new) (K.write_faults out.old) (K.write_faults out.new) (eos_units after_eos) result }
{
    if after_eos {
        return write_one(out, &END_OF_SEQUENCE);
    }
    Ok(())
}

/// Writes a unit, if there is one.
///
/// *Errors:* [`SinkFailed`]; a proper prefix is written.
pub fn write_some<K: Sink>(out: &mut K, unit: Option<&[u8]>) -> Result<(), SinkFailed>
    ensures { Takes (K.bytes_taken out.old) (K.bytes_taken out.new) (K.write_faults out.old) (K.write_faults out.new) (option_to_list (option_copied unit.entry)) result }
{
    match unit {
        Some(unit) => write_one(out, unit),
        None => Ok(()),
    }
}

/// Writes units, one after another.
///
/// *Errors:* [`SinkFailed`]; a proper prefix is written.
pub fn write_all_of<K: Sink>(out: &mut K, units: &[Vec<u8>]) -> Result<(), SinkFailed>
    ensures { Takes (K.bytes_taken out.old) (K.bytes_taken out.new) (K.write_faults out.old) (K.write_faults out.new) (map (λ unit. unit.items) units.now) result }
{
    for unit in units {
        write_one(out, unit.as_slice())?;
    }
    Ok(())
}
