//! Names in the tables of a slice header: numbers 990 to 1022.

/// The type of the NAL unit.
pub const NAL_TYPE: u16 = 990;
/// The number of subpictures of the picture.
pub const NUM_SUBPICS: u16 = 991;
/// The index of the slice's subpicture, or the index after the last one if none has its id.
pub const SUBPIC: u16 = 992;
/// The number of slices of that subpicture.
pub const NUM_SLICES: u16 = 993;
/// NumEntryPoints.
pub const NUM_ENTRY_POINTS: u16 = 994;
/// The number of extra bits of a slice header.
pub const EXTRA_SH_BITS: u16 = 995;
/// The default number of active entries of list 0, less 1.
pub const DEFAULT_ACTIVE_0: u16 = 996;
/// The default number of active entries of list 1, less 1.
pub const DEFAULT_ACTIVE_1: u16 = 997;
/// The number of an extra bit.
pub const EXTRA_SH_BIT: u16 = 998;
/// The number of a byte of the extension.
pub const EXTENSION_BYTE: u16 = 999;
/// The number of an entry point.
pub const ENTRY_POINT: u16 = 1000;
/// Whether the header has the adaptive loop filter.
pub const HAS_ALF: u16 = 1001;
/// Whether the slice is one of an IDR picture.
pub const IS_IDR: u16 = 1002;
/// Whether the header has reference picture lists.
pub const HAS_LISTS: u16 = 1003;
/// Whether the active entries of list 0 may be counted.
pub const MAY_COUNT_0: u16 = 1004;
/// Whether the active entries of list 1 may be counted.
pub const MAY_COUNT_1: u16 = 1005;
/// Whether the header names the picture from which motion is predicted.
pub const NAMES_COLLOCATED: u16 = 1006;
/// The number of active entries of the list that contains that picture.
pub const COLLOCATED_AMONG: u16 = 1007;
/// Whether the header has prediction weights.
pub const HAS_WEIGHTS: u16 = 1008;

/// The numbers above, in their order.
pub const ALL: [u16; 19] = [
    NAL_TYPE,
    NUM_SUBPICS,
    SUBPIC,
    NUM_SLICES,
    NUM_ENTRY_POINTS,
    EXTRA_SH_BITS,
    DEFAULT_ACTIVE_0,
    DEFAULT_ACTIVE_1,
    EXTRA_SH_BIT,
    EXTENSION_BYTE,
    ENTRY_POINT,
    HAS_ALF,
    IS_IDR,
    HAS_LISTS,
    MAY_COUNT_0,
    MAY_COUNT_1,
    NAMES_COLLOCATED,
    COLLOCATED_AMONG,
    HAS_WEIGHTS,
];
