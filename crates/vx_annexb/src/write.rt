//! Writing of units to a sink.
ghost use Rattle.std.specs.Prelude.{◌++◌, ◌∷◌, OnOk, OnErr};
ghost use Rattle.std.specs.Io.KnownBytes.{Appends};
ghost use Rattle.vx_io.specs.Faults.{CountsFault};
ghost use Rattle.vx_io.specs.Written.{AppendsFront};
ghost use Rattle.vx_annexb.specs.ByteStream.{long_start_code};

use vx_io::{Sink, SinkFailed, write_all};

/// zero_byte and start_code_prefix_one_3bytes (H.266 B.2.1)
const START_CODE: [u8; 4] = [0, 0, 0, 1];

/// Writes 00 00 00 01 and a unit, which is given in two parts. Takes no memory.
///
/// # Errors
///
/// `SinkFailed` if a write failed. A proper prefix of these bytes is then written.
pub fn write_unit<K: Sink>(out: &mut K, front: &[u8], rest: &[u8]) -> Result<(), SinkFailed>
    ensures ok { OnOk result (Appends (K.bytes_taken out.old) (K.bytes_taken out.new) (long_start_code ++ front.now ++ rest.now)) }
    // After a failed write, a proper prefix of these bytes is written.
    ensures err { OnErr result (AppendsFront (K.bytes_taken out.old) (K.bytes_taken out.new) (long_start_code ++ front.now ++ rest.now)) }
    ensures faults { CountsFault (K.write_faults out.old) (K.write_faults out.new) result }
{
    write_all(out, &START_CODE)?;
    write_all(out, front)?;
    write_all(out, rest)
}
