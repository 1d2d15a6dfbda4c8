//! SEI messages, and the types that are copied to the output.
ghost use Rattle.std.specs.Prelude.{◌≡◌, length};
ghost use Rattle.vx_sei.specs.Sei.{sei_message};

use vx_bits::{Bytes, LentList};

/// payloadType of mastering_display_colour_volume( ).
pub const MASTERING_DISPLAY_COLOUR_VOLUME: u32 = 137;
/// payloadType of content_light_level_info( ).
pub const CONTENT_LIGHT_LEVEL_INFO: u32 = 144;
/// payloadType of alternative_transfer_characteristics( ).
pub const ALTERNATIVE_TRANSFER_CHARACTERISTICS: u32 = 147;

/// The byte that ends an SEI RBSP: rbsp_trailing_bits( ) at a byte boundary.
pub(crate) const TRAILING: u8 = 0x80;

/// An SEI message: its type and its payload.
#[derive(Drop)]
pub struct Message {
    /// payloadType
    pub kind: u32,
    /// The bytes of sei_payload( ).
    pub bytes: Bytes,
}

/// A list of SEI messages, in order.
pub type MessageList = LentList<Message>;

impl Message {
    /// Returns the number of bytes of the coded message: type, size and payload.
    pub fn spelled_len(&self) -> usize
        ensures { result ≡ length (sei_message self.now) }
    {
        let size = self.bytes.as_slice().len();
        self.kind as usize / 255 + 1 + size / 255 + 1 + size
    }
}
