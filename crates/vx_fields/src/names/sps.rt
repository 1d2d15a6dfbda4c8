//! Names in the tables of a sequence parameter set: numbers 880 to 919.

/// The CTU size: CtbSizeY.
pub const CTB_SIZE: u16 = 880;
/// The number of columns of CTUs of the largest picture.
pub const WIDTH_IN_CTBS: u16 = 881;
/// The number of its rows of CTUs.
pub const HEIGHT_IN_CTBS: u16 = 882;
/// Whether there are several columns.
pub const IS_WIDE: u16 = 883;
/// Whether there are several rows.
pub const IS_HIGH: u16 = 884;
/// The number of bits of a column.
pub const X_BITS: u16 = 885;
/// The number of bits of a row.
pub const Y_BITS: u16 = 886;
/// The number of subpictures that have a place: all, if there are several.
pub const NUM_PLACES: u16 = 887;
/// The number of a subpicture.
pub const SUBPIC: u16 = 888;
/// Whether a subpicture has the size of the first, and is on the grid of that size.
pub const LIKE_FIRST: u16 = 889;
/// The number of an extra bit.
pub const EXTRA_BIT: u16 = 890;
/// The number of chroma QP tables.
pub const NUM_QP_TABLES: u16 = 891;
/// The number of a chroma QP table.
pub const QP_TABLE: u16 = 892;
/// The number of a point of a chroma QP table.
pub const QP_POINT: u16 = 893;
/// The number of an interval of luma.
pub const INTERVAL: u16 = 894;
/// The number of a byte of usability information.
pub const VUI_BYTE: u16 = 895;

/// The numbers above, in their order.
pub const ALL: [u16; 16] = [
    CTB_SIZE,
    WIDTH_IN_CTBS,
    HEIGHT_IN_CTBS,
    IS_WIDE,
    IS_HIGH,
    X_BITS,
    Y_BITS,
    NUM_PLACES,
    SUBPIC,
    LIKE_FIRST,
    EXTRA_BIT,
    NUM_QP_TABLES,
    QP_TABLE,
    QP_POINT,
    INTERVAL,
    VUI_BYTE,
];
