//! The value of a slice header.

use vx_bits::Fields;
use vx_rpl::RefLists;

/// A slice header: its fields, its place in the picture, and its reference picture lists.
pub struct SliceHeader {
    /// Whether the picture header is inside.
    pub inside: bool,
    /// Its own items, in the order of the bits.
    pub fields: Fields,
    /// The index of its subpicture.
    pub subpic: u32,
    /// The address of the slice in the subpicture.
    pub address: u32,
    /// The reference picture lists that its items determine, both empty if it has none.
    pub lists: RefLists,
}

impl Drop for SliceHeader {
    fn drop(self) {
        let SliceHeader {
            inside: _,
            fields: _,
            subpic: _,
            address: _,
            lists: _,
        } = self;
    }
}
