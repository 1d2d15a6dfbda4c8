//! The units of a merged picture, and writing them.
ghost use Rattle.std.specs.Prelude.{◌≡◌, ◌<◌, ◌∷◌, [], ◌++◌, length, option_copied, option_map, slice_get, Some};
ghost use Rattle.vx_write.specs.Writing.{Takes};
ghost use Rattle.vx_merge.specs.inner.Making as making;
ghost use Rattle.vx_merge.specs.inner.Making.{HasPayloads};

use vx_annexb::write_unit;
use vx_bits::BodyList;
use vx_io::{Sink, SinkFailed};
use vx_write::{write_all_of, write_end, write_one, write_some};

/// All that is written of a round, made before any of it is written.
#[derive(Drop)]
pub(crate) struct RoundUnits<'a> {
    /// Whether an end of sequence comes first.
    pub(crate) after_eos: bool,
    /// The units of the sets that are sent.
    pub(crate) sets: Vec<Vec<u8>>,
    /// The SEI unit.
    pub(crate) sei: Option<Vec<u8>>,
    /// The PH unit.
    pub(crate) header: Vec<u8>,
    /// The units of the slices, up to their payloads.
    pub(crate) fronts: Vec<Vec<u8>>,
    /// The payloads of the slices.
    pub(crate) payloads: BodyList<'a>,
}

/// The unit of a slice, in two pieces.
#[derive(Clone, Copy)]
pub(crate) struct SliceUnit<'a> {
    /// The unit up to its payload.
    pub(crate) front: &'a [u8],
    /// The payload.
    pub(crate) payload: &'a [u8],
}

impl<'a> RoundUnits<'a> {
    /// Returns the SEI unit, if there is one.
    pub(crate) fn sei_unit(&self) -> Option<&[u8]>
        ensures { option_copied result ≡ option_map (λ unit. unit.items) self.now.sei }
    {
        self.sei.as_deref()
    }

    /// Returns the unit of slice `i`. Slices are ordered by source and then by address.
    pub(crate) fn slice(&self, i: usize) -> SliceUnit<'_>
        requires payloads { HasPayloads self.now }
        requires within { i < length self.now.fronts.items }
        ensures { slice_get (making.slice_units self.now) i ≡ Some (result.front.now ++ result.payload.now) }
    {
        SliceUnit {
            front: self.fronts[i].as_slice(),
            payload: self.payloads.item(i),
        }
    }
}

/// Writes the unit of a slice.
fn write_slice<K: Sink>(out: &mut K, slice: SliceUnit<'_>) -> Result<(), SinkFailed>
    ensures { Takes (K.bytes_taken out.old) (K.bytes_taken out.new) (K.write_faults out.old) (K.write_faults out.new)
        ((slice.entry.front.now ++ slice.entry.payload.now) ∷ []) result }
{
    write_unit(out, slice.front, slice.payload)
}

/// Writes the slices.
fn write_slices<K: Sink>(out: &mut K, units: &RoundUnits<'_>) -> Result<(), SinkFailed>
    requires { HasPayloads units.now }
    ensures { Takes (K.bytes_taken out.old) (K.bytes_taken out.new) (K.write_faults out.old) (K.write_faults out.new) (making.slice_units units.now) result }
{
    for i in 0..units.fronts.len() {
        write_slice(out, units.slice(i))?;
    }
    Ok(())
}

/// Writes the units of a round. Takes no memory.
pub(crate) fn write_units<K: Sink>(out: &mut K, units: &RoundUnits<'_>) -> Result<(), SinkFailed>
    requires { HasPayloads units.now }
    ensures { Takes (K.bytes_taken out.old) (K.bytes_taken out.new) (K.write_faults out.old) (K.write_faults out.new) (making.units_made units.now) result }
{
    write_end(out, units.after_eos)?;
    write_all_of(out, units.sets.as_slice())?;
    write_some(out, units.sei_unit())?;
    write_one(out, units.header.as_slice())?;
    write_slices(out, units)
}
