//! The header of a NAL unit (H.266 7.3.1.2).
ghost use Rattle.std.specs.Prelude.{◌≡◌, MatchOption};
ghost use Rattle.vx_annexb.specs.NalUnit.{HasHeader, header_of};

/// A NAL unit header: the values of the first two bytes of a unit (H.266 7.3.1.2).
#[derive(Clone, Copy, Debug, PartialEq, Eq)]
pub struct NalHeader {
    /// nuh_reserved_zero_bit
    pub reserved: bool,
    /// nuh_layer_id
    pub layer_id: u8,
    /// nal_unit_type
    pub nal_type: u8,
    /// TemporalId, which is nuh_temporal_id_plus1 - 1.
    pub temporal_id: u8,
}

/// Returns the header of a NAL unit, or `None` if it can't be read.
///
/// That is so for fewer than two bytes, a forbidden bit of 1, and a nuh_temporal_id_plus1 of 0 (H.266 7.4.2.2).
pub fn read_header(unit: &[u8]) -> Option<NalHeader>
    ensures { MatchOption result (¬ HasHeader unit.now) (λ header. HasHeader unit.now × (header ≡ header_of unit.now)) }
{
    if unit.len() < 2 {
        return None;
    }
    let (first, second) = (unit[0], unit[1]);
    if first >= 128 || second % 8 == 0 {
        return None;
    }
    Some(NalHeader {
        reserved: first / 64 % 2 == 1,
        layer_id: first % 64,
        nal_type: second / 8,
        temporal_id: second % 8 - 1,
    })
}
