//! Names in the tables of a picture parameter set: numbers 920 to 959.

/// The number of a subpicture.
pub const SUBPIC: u16 = 920;
/// The number of a reference picture list.
pub const LIST: u16 = 921;
/// The number of an entry in the list of chroma QP offsets.
pub const OFFSET: u16 = 922;
/// Whether a picture may have several tiles and slices.
pub const PARTITIONED: u16 = 923;
/// Whether the place of the deblocking filter's parameters is coded.
pub const HAS_DBF_INFO: u16 = 924;
/// Whether slices have weights.
pub const IS_WEIGHTED: u16 = 925;
/// Whether the place of weights is coded.
pub const HAS_WP_INFO: u16 = 926;

/// The numbers above, in their order.
pub const ALL: [u16; 7] = [
    SUBPIC,
    LIST,
    OFFSET,
    PARTITIONED,
    HAS_DBF_INFO,
    IS_WEIGHTED,
    HAS_WP_INFO,
];
