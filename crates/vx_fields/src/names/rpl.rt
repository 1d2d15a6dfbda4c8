//! Names in the tables of reference picture lists and weights: numbers 840 to 879.

/// The number of structures that an SPS has for a list.
pub const NUM_STRUCTURES: u16 = 840;
/// The index of a structure among them; their number for one of a header.
pub const STRUCTURE: u16 = 841;
/// Whether the list of a header is list 0.
pub const IS_LIST_0: u16 = 842;
/// Whether a header codes what its list takes from the SPS.
pub const IS_SPELLED: u16 = 843;
/// Whether an SPS has several structures for a list.
pub const HAS_SEVERAL: u16 = 844;
/// Whether a header's list has an index into them.
pub const HAS_INDEX: u16 = 845;
/// Whether that index is past them.
pub const LEADS_PAST: u16 = 846;
/// Whether a structure is one of an SPS.
pub const IN_SPS: u16 = 847;
/// Whether a structure is one of a header.
pub const IN_HEADER: u16 = 848;
/// Whether slices may have weights.
pub const MAY_WEIGHT: u16 = 849;
/// The number of an entry, or of a weight.
pub const ENTRY: u16 = 850;
/// Whether the distance of an entry may be 0.
pub const MAY_BE_0: u16 = 851;
/// Whether the distance of an entry can't be 0, so that it has a sign.
pub const HAS_SIGN: u16 = 852;
/// Whether an entry is a long-term one.
pub const IS_LONG: u16 = 853;
/// The number of long-term entries so far.
pub const LONG_ENTRIES: u16 = 854;
/// The number of entries of list 0.
pub const ENTRIES_0: u16 = 855;
/// The number of entries of list 1.
pub const ENTRIES_1: u16 = 856;
/// NumRefIdxActive[ 0 ].
pub const ACTIVE_0: u16 = 857;
/// NumRefIdxActive[ 1 ].
pub const ACTIVE_1: u16 = 858;
/// The number of weights of a list.
pub const NUM_WEIGHTS: u16 = 859;
/// The greatest number of weights that a list may have.
pub const MOST_WEIGHTS: u16 = 860;
/// Whether the number of list 1's weights is coded.
pub const HAS_WEIGHTS_1: u16 = 861;
/// The luma flags of the weights so far, as the bits of a number.
pub const LUMA_FLAGS: u16 = 862;
/// Their chroma flags.
pub const CHROMA_FLAGS: u16 = 863;
/// The bit of a weight's flags.
pub const FLAG_BIT: u16 = 864;
/// Whether a weight's flag is set.
pub const IS_SET: u16 = 865;
/// The number of a chroma component.
pub const CHROMA: u16 = 866;

/// The numbers above, in their order.
pub const ALL: [u16; 27] = [
    NUM_STRUCTURES,
    STRUCTURE,
    IS_LIST_0,
    IS_SPELLED,
    HAS_SEVERAL,
    HAS_INDEX,
    LEADS_PAST,
    IN_SPS,
    IN_HEADER,
    MAY_WEIGHT,
    ENTRY,
    MAY_BE_0,
    HAS_SIGN,
    IS_LONG,
    LONG_ENTRIES,
    ENTRIES_0,
    ENTRIES_1,
    ACTIVE_0,
    ACTIVE_1,
    NUM_WEIGHTS,
    MOST_WEIGHTS,
    HAS_WEIGHTS_1,
    LUMA_FLAGS,
    CHROMA_FLAGS,
    FLAG_BIT,
    IS_SET,
    CHROMA,
];
