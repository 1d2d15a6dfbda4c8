//! Writing the units of a picture.
ghost use Rattle.std.specs.Prelude.{◌<◌, length, map, option_map};
ghost use Rattle.vx_write.specs.Writing.{Takes};
ghost use Rattle.vx_extract.specs.inner.Writing.{slice_units, slice_units_at, units_with};

use crate::send::Made;
use vx_io::{Sink, SinkFailed};
use vx_pic::Picture;
use vx_write::{write_all_of, write_end, write_one, write_some};

/// Writes a slice of a picture, if it belongs to the subpicture.
fn write_slice<K: Sink>(
    out: &mut K,
    picture: &Picture<'_>,
    target: u32,
    i: u32,
) -> Result<(), SinkFailed>
    requires { i < length picture.now.slices }
    ensures { Takes (K.bytes_taken out.old) (K.bytes_taken out.new) (K.write_faults out.old) (K.write_faults out.new)
        (slice_units_at picture.now.slices target i) result }
{
    let slice = picture.slice(i);
    if slice.header.subpic == target {
        return write_one(out, slice.unit);
    }
    Ok(())
}

/// Writes the slices of the subpicture, in order.
fn write_slices<K: Sink>(out: &mut K, picture: &Picture<'_>, target: u32) -> Result<(), SinkFailed>
    ensures { Takes (K.bytes_taken out.old) (K.bytes_taken out.new) (K.write_faults out.old) (K.write_faults out.new) (slice_units picture.now target) result }
{
    for i in 0..picture.slice_count() {
        write_slice(out, picture, target, i)?;
    }
    Ok(())
}

/// Writes all units of a picture. Takes no memory.
pub(crate) fn write_picture<K: Sink>(
    out: &mut K,
    picture: &Picture<'_>,
    target: u32,
    made: &Made,
) -> Result<(), SinkFailed>
    ensures { Takes (K.bytes_taken out.old) (K.bytes_taken out.new) (K.write_faults out.old) (K.write_faults out.new)
        (units_with picture.now target (map (λ unit. unit.items) made.now.sets.items) (option_map (λ unit. unit.items) made.now.sei)) result }
{
    write_end(out, picture.kind().after_eos)?;
    write_all_of(out, made.sets.as_slice())?;
    write_some(out, made.sei_unit())?;
    write_some(out, picture.header_unit())?;
    write_slices(out, picture, target)
}
