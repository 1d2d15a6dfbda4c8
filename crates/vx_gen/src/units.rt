//! The units of generated streams, byte by byte. Laws say what they mean.
ghost use Rattle.std.specs.Prelude.{◌≡◌, ◌<◌};
ghost use Rattle.vx_gen.specs.Units as units;

/// zero_byte and start_code_prefix_one_3bytes (H.266 B.2.1).
pub(crate) const START_CODE: [u8; 4] = [0, 0, 0, 1];

/// The SPS: pictures of 128 × 128 luma samples in CTUs of 64, without chroma and without tools (H.266 7.3.2.4).
pub(crate) const SPS: [u8; 21] = [
    0x00, 0x79, 0x00, 0x03, 0x02, 0x33, 0x80, 0x00, 0x00, 0x40, 0x80, 0x81, 0x20, 0x03, 0xDE, 0x00,
    0x30, 0x06, 0x08, 0x00, 0x10,
];

/// The beginning of a PPS, up to the byte in which pps_init_qp_minus26 begins (H.266 7.3.2.5).
///
/// The pictures have 128 × 128 samples and aren't partitioned.
pub(crate) const PPS_FRONT: [u8; 8] = [0x00, 0x81, 0x00, 0x00, 0x20, 0x40, 0x40, 0x89];

/// The rest of a PPS, for a pps_init_qp_minus26 of 0, −1 and so on.
pub(crate) const PPS_ENDS: [[u8; 3]; 16] = [
    [0x84, 0x08, 0x00],
    [0x83, 0x02, 0x00],
    [0x81, 0x40, 0x80],
    [0x81, 0xC0, 0x80],
    [0x80, 0x90, 0x20],
    [0x80, 0xB0, 0x20],
    [0x80, 0xD0, 0x20],
    [0x80, 0xF0, 0x20],
    [0x80, 0x44, 0x08],
    [0x80, 0x4C, 0x08],
    [0x80, 0x54, 0x08],
    [0x80, 0x5C, 0x08],
    [0x80, 0x64, 0x08],
    [0x80, 0x6C, 0x08],
    [0x80, 0x74, 0x08],
    [0x80, 0x7C, 0x08],
];

/// The lengths of these. The first two take a byte less.
pub(crate) const PPS_END_SIZES: [usize; 16] = [2, 2, 3, 3, 3, 3, 3, 3, 3, 3, 3, 3, 3, 3, 3, 3];

/// The slice of an IDR picture up to its data, with the picture header inside (H.266 7.3.7, 7.3.2.8).
const IDR_SLICE: [u8; 4] = [0x00, 0x41, 0xC4, 0x18];

/// Returns the slice of picture `p` up to its data.
///
/// After the first picture it has the low four bits of the picture's number, and two empty reference picture lists.
#[tactic(auto, using(crate::proofs::Making::trailing_front))]
pub(crate) fn slice_front(p: u32) -> [u8; 4]
    ensures { result ≡ units.slice_front p }
{
    if p == 0 {
        return IDR_SLICE;
    }
    let lsb = (p % 16) as u8;
    [0x00, 0x01, 0x88 + lsb / 2, 0x78 + 0x80 * (lsb % 2)]
}
