//! Names in the tables of a picture header: numbers 960 to 989.

/// The number of extra bits of a picture header: NumExtraPhBits (clause 7.4.3.4).
pub const EXTRA_PH_BITS: u16 = 960;
/// The number of an extra bit.
pub const EXTRA_BIT: u16 = 961;
/// The number of a set of the luma filter.
pub const FILTER_SET: u16 = 962;
/// Whether other pictures may refer to the picture.
pub const MAY_BE_REF: u16 = 963;
/// The number of entries of list 0, if the collocated picture is in it.
pub const COLLOCATED_IN_0: u16 = 964;
/// Whether the collocated picture is in list 1.
pub const IS_IN_1: u16 = 965;
/// The number of entries of list 1, if the collocated picture is in it.
pub const COLLOCATED_IN_1: u16 = 966;
/// The number of entries of the list that contains the collocated picture.
pub const COLLOCATED_IN: u16 = 967;
/// Whether slice headers have the lists.
pub const LISTS_IN_SLICES: u16 = 968;
/// Whether slices are predicted with weights.
pub const ARE_WEIGHTED: u16 = 969;
/// Whether the header has prediction weights.
pub const HAS_WEIGHTS: u16 = 970;
/// The number of a byte of the extension.
pub const EXTENSION_BYTE: u16 = 971;

/// The numbers above, in their order.
pub const ALL: [u16; 12] = [
    EXTRA_PH_BITS,
    EXTRA_BIT,
    FILTER_SET,
    MAY_BE_REF,
    COLLOCATED_IN_0,
    IS_IN_1,
    COLLOCATED_IN_1,
    COLLOCATED_IN,
    LISTS_IN_SLICES,
    ARE_WEIGHTED,
    HAS_WEIGHTS,
    EXTENSION_BYTE,
];
