//! The numbers of all rules by which a stream, or a request for it, is refused.
//!
//! A number is the `code` of the [`Refusal`](crate::Refusal) of its kind. The program prints it after the
//! kind's letter: F for framing, L for limits, P for profiles, S for structure, E for extracting, M for
//! merging.

// Framing: H.266 Annex B and clauses 7.3.1 and 7.4.2.

/// F1: a byte outside of any unit is neither a zero nor the end of a start code.
pub const NOT_A_START_CODE: u8 = 1;
/// F2: a byte in a unit violates emulation prevention.
pub const BAD_EMULATION: u8 = 2;
/// F3: a unit's header can't be read.
pub const BAD_HEADER: u8 = 3;

// Limits.

/// L1: a NAL unit has more than 2^23 bytes.
pub const LONG_UNIT: u8 = 1;
/// L2: the header and the slices of a picture have more than 2^25 bytes.
pub const LONG_PICTURE: u8 = 2;
/// L3: a source, or a merged stream, has more than 2^40 bytes.
pub const LONG_SOURCE: u8 = 3;
/// L4: there are more than 64 sources, or regions of a view.
pub const TOO_MANY_SOURCES: u8 = 4;
/// L5: a picture has more than 1,000 slices.
pub const TOO_MANY_SLICES: u8 = 5;
/// L6: a picture is wider or higher than 16,384 luma samples.
pub const TOO_LARGE: u8 = 6;
/// L7: a reference picture list structure has more than 29 entries.
pub const TOO_MANY_ENTRIES: u8 = 7;
/// L8: an SPS has more than 64 reference picture list structures for one list.
pub const TOO_MANY_REF_PIC_LISTS: u8 = 8;
/// L9: a picture has more than 1,000 subpictures.
pub const TOO_MANY_SUBPICTURES: u8 = 9;
/// L10: the SEI messages gathered for a picture have more than 65,536 bytes.
pub const LONG_MESSAGES: u8 = 10;
/// L11: there are more than 256 files for the regions of a view.
pub const TOO_MANY_FILES: u8 = 11;

// Profiles: what the accepted streams may not have.

/// P1: a unit belongs to a layer above 0.
pub const SEVERAL_LAYERS: u8 = 1;
/// P2: an SPS refers to a VPS, so it may belong to one layer of several.
pub const VPS_REFERRED_TO: u8 = 2;
/// P3: an SPS has no profile, tier and level.
pub const NO_PROFILE_TIER_LEVEL: u8 = 3;
/// P4: the chroma format is neither 4:0:0 nor 4:2:0.
pub const CHROMA_FORMAT: u8 = 4;
/// P5: samples have more than 10 bits.
pub const BIT_DEPTH: u8 = 5;
/// P6: palette mode is enabled.
pub const PALETTE: u8 = 6;
/// P7: the resolution may change within a coded layer video sequence.
pub const RESOLUTION_CHANGE: u8 = 7;
/// P8: virtual boundaries are enabled.
pub const VIRTUAL_BOUNDARIES: u8 = 8;
/// P9: an SPS has extension data.
pub const SPS_EXTENSION: u8 = 9;
/// P10: NAL unit types may be mixed in a picture.
pub const MIXED_NAL_TYPES: u8 = 10;
/// P11: a PPS has an explicit scaling window.
pub const SCALING_WINDOW: u8 = 11;
/// P12: slices are runs of tiles in raster scan order.
pub const RASTER_SCAN_SLICES: u8 = 12;
/// P13: a PPS enables reference wraparound.
pub const REFERENCE_WRAPAROUND: u8 = 13;
/// P14: a PPS has extension data.
pub const PPS_EXTENSION: u8 = 14;
/// P15: an APS has an id above those of its type.
pub const APS_ID: u8 = 15;

// Structure: the order of sets, headers and slices.

/// S1: a set is missing that a unit refers to.
pub const SET_MISSING: u8 = 1;
/// S2: a slice comes before any picture has begun, or after all slices of the picture.
pub const SLICE_WITHOUT_HEADER: u8 = 2;
/// S3: a set comes between the slices of a picture.
pub const SET_INSIDE_PICTURE: u8 = 3;
/// S4: a picture lacks a slice when the next picture or the end comes, or a slice comes out of order.
pub const SLICE_MISSING: u8 = 4;
/// S5: a slice names a subpicture that the picture doesn't have.
pub const UNKNOWN_SUBPIC_ID: u8 = 5;
/// S6: the first picture, or the first after an end of sequence, is neither an IRAP nor a GDR picture.
pub const STARTS_ELSEWHERE: u8 = 6;
/// S7: the SPS changes within a coded layer video sequence.
pub const SPS_CHANGED: u8 = 7;
/// S8: a slice has another type than the first slice of its picture.
pub const TYPES_DIFFER: u8 = 8;
/// S9: a slice has another TemporalId than its picture.
pub const TEMPORAL_ID_DIFFERS: u8 = 9;
/// S10: the width or height in a PPS differs from its SPS's.
pub const SIZE_DIFFERS: u8 = 10;
/// S11: no byte follows a slice header.
pub const EMPTY_PAYLOAD: u8 = 11;
/// S12: tiles, slices and subpictures don't form a layout; the fault's number is the refusal's `id`.
pub const LAYOUT: u8 = 12;
/// S13: a picture order count doesn't fit in 32 bits.
pub const POC_RANGE: u8 = 13;
/// S14: the quantization parameter of a slice is outside its range.
pub const QP_RANGE: u8 = 14;
/// S15: the picture header is in a slice of a picture that has several slices.
pub const HEADER_INSIDE_OF_SEVERAL: u8 = 15;

// Extracting a subpicture.

/// E1: the source has no picture.
pub const NO_PICTURE: u8 = 1;
/// E2: a picture has no subpicture with this index.
pub const NO_SUCH_SUBPICTURE: u8 = 2;
/// E3: the subpicture isn't treated as a picture.
pub const NOT_TREATED_AS_PICTURE: u8 = 3;
/// E4: in-loop filters cross the subpicture's boundaries.
pub const FILTERED_ACROSS: u8 = 4;
/// E5: an IRAP or a GDR picture would be dropped with its sublayer.
pub const IRAP_DROPPED: u8 = 5;

// Merging the pictures of several sources.

/// M1: a source has several subpictures.
pub const SEVERAL_SUBPICTURES: u8 = 1;
/// M2: kept fields of the SPSs differ.
pub const SPS_TOOLS: u8 = 2;
/// M3: the regions aren't on the grid of CTUs, overlap, or leave a gap.
pub const GEOMETRY: u8 = 3;
/// M4: a region comes before another that is to its left or above it.
pub const REGION_ORDER: u8 = 4;
/// M5: the tile lines that run through a region aren't its own.
pub const TILE_LINES: u8 = 5;
/// M6: the types, the TemporalIds, or the ends of sequence before the pictures differ.
pub const PICTURE_KIND: u8 = 6;
/// M7: kept fields of the PPSs differ.
pub const PPS_TOOLS: u8 = 7;
/// M8: kept fields of the picture headers differ.
pub const PICTURE_HEADER: u8 = 8;
/// M9: the LMCS or scaling list data named by the headers differ.
pub const SHARED_SETS: u8 = 9;
/// M10: the reference picture lists differ.
pub const REFERENCE_LISTS: u8 = 10;
/// M11: slices differ in whether earlier pictures are output.
pub const OUTPUT_OF_PRIOR: u8 = 11;
/// M12: a picture needs more than 8 ALF sets.
pub const TOO_MANY_ALF: u8 = 12;
/// M13: sources differ in whether in-loop filters cross tiles, or slices.
pub const FILTER_FLAGS: u8 = 13;
/// M14: a source ends before another.
pub const LENGTH: u8 = 14;
/// M15: at a join of files, a picture doesn't start a coded layer video sequence at TemporalId 0.
pub const JOIN_START: u8 = 15;
/// M16: the collocated pictures of slices differ.
pub const COLLOCATED: u8 = 16;
