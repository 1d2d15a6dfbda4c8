//! The description of a picture that C receives.
ghost use Rattle.std.specs.Prelude.{◌≡◌};
ghost use Rattle.vx_c.specs.Call.{picture_by};

use vx_pic::Kind;

/// Describes a picture that is to be taken.
#[repr(C)]
#[derive(Clone, Copy)]
pub struct GqPicture {
    pub number: u64,
    pub bytes: usize,
    pub order: i32,
    pub nal_type: u8,
    pub temporal_id: u8,
    pub starts_sequence: bool,
}

/// Describes picture `number` of this kind, which has `bytes` bytes.
pub(crate) fn told(number: u64, bytes: usize, kind: Kind) -> GqPicture
    ensures { result ≡ picture_by number bytes kind }
{
    GqPicture {
        number,
        bytes,
        order: kind.poc,
        nal_type: kind.nal_type,
        temporal_id: kind.temporal_id,
        starts_sequence: kind.clvss,
    }
}
