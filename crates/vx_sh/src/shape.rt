//! The shape of a rewritten slice header.
use vx_bits::Fields;

/// A description of the slice header that is sent for a frame of several sources, as far as it isn't copied from its
/// source.
#[derive(Clone, Copy)]
pub struct ShShape<'a> {
    /// The id of its subpicture.
    pub subpic_id: u32,
    /// The items of the adaptive loop filter.
    pub filter: &'a Fields,
    /// Whether it uses luma mapping with chroma scaling, if the picture has it.
    pub uses_lmcs: bool,
    /// Whether it uses scaling lists, if the picture has them.
    pub uses_scaling: bool,
    /// Its QP, as a difference.
    pub qp_delta: i32,
}
