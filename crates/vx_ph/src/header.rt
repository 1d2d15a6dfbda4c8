//! The value of a picture header.

use vx_bits::Fields;
use vx_rpl::RefLists;

/// A picture header: its fields, and the reference picture lists that they determine, both empty if it has none.
pub struct PictureHeader {
    /// Its items, in the order of the bits.
    pub fields: Fields,
    /// The lists.
    pub lists: RefLists,
}

impl Drop for PictureHeader {
    fn drop(self) {
        let PictureHeader {
            fields: _,
            lists: _,
        } = self;
    }
}
