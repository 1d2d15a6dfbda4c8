//! The fields of the structure that a unit contains.
ghost use Rattle.std.specs.Prelude.{◌≡◌};
ghost use Rattle.vx_pic.specs.Shown.{no_fields};

use std::alloc::Global;
use vx_bits::Fields;

/// A structure whose fields are shown.
#[derive(Clone, Copy, PartialEq, Eq)]
pub enum Structure {
    /// A video parameter set, as far as it is read.
    Vps,
    /// A sequence parameter set.
    Sps,
    /// A picture parameter set.
    Pps,
    /// An adaptation parameter set: its type and its id.
    Aps,
    /// A picture header that is a unit of its own.
    PictureHeader,
    /// A slice header, with a picture header that may be inside.
    SliceHeader,
}

/// The fields of a unit, up to the first that is refused.
#[derive(Drop)]
pub struct StructureFields {
    /// The structure; `None` for a unit with none of these structures, or of which nothing can be read.
    pub structure: Option<Structure>,
    /// The items of its fields, in the order of the bits.
    pub items: Fields,
    /// The number of bytes of the body of an adaptation parameter set.
    pub body: Option<usize>,
}

impl StructureFields {
    /// Returns the fields of no structure. Takes no memory.
    pub fn new(alloc: Global) -> StructureFields
        ensures { result ≡ no_fields }
    {
        StructureFields {
            structure: None,
            items: Fields::new(alloc),
            body: None,
        }
    }
}
