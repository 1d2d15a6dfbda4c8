//! Laws of rounds of segments. Each function does nothing and has its law as its contract.
ghost use Rattle.vx_segments.specs.Segments.{BarredAlike, SegmentsJoin, SegmentsSplit};
ghost use Rattle.vx_segments.specs.Whole.{AlikeAreWrittenAlike, MergesAreOne, SegmentIsBarredAlike, SegmentsAreOneMerge, StreamsBeginAnew};

use crate::laws_streams::rounds_are_read_alike;

/// If later rounds begin with IRAP or GDR pictures, then they are written after others as they are by themselves.
///
/// The bytes of all are then those of both, one after the other. The premise includes that these are no more than a stream may have.
pub fn segments_join()
    ensures { SegmentsJoin }
{}

/// If all rounds are written, then each part by itself is written as the same plans.
///
/// The later part begins with a round of IRAP or GDR pictures.
pub fn segments_split()
    ensures { SegmentsSplit }
{}

/// If a round is refused after a segment only, then it is refused after all rounds for the same rule.
///
/// Conversely, a round that is refused after all rounds is refused after the segment only for the same rule, or all rounds have too many
/// bytes (L3). The segment, with this round, begins with a round of IRAP or GDR pictures.
pub fn barred_alike()
    ensures { BarredAlike }
{}

/// If rounds are read alike, then they are written alike, unit by unit.
pub fn alike_are_written_alike()
    ensures { AlikeAreWrittenAlike }
{}

/// If a segment begins anew, then its merge follows the earlier one byte for byte in the merge of all.
///
/// A segment begins anew if its first round is of IRAP or GDR pictures. In its own merge its rounds are read by themselves, and in the
/// merge of all as the joined streams are read.
pub fn segments_are_one_merge()
    ensures { SegmentsAreOneMerge }
{}

/// If rounds are those of whole streams, then the first is of IRAP or GDR pictures.
///
/// No rule lets another picture come first.
pub fn streams_begin_anew()
    ensures { StreamsBeginAnew }
{}

/// If a segment begins anew, then the merge of the joined streams is the earlier segments' merge and then its own.
///
/// A segment begins anew if its first round is of IRAP or GDR pictures. The premise includes that both merges together are no more than a
/// stream may have. For more segments, apply it one by one: what comes before may itself be joined.
///
/// Not said:
///
/// - that the joined streams are accepted if no segment is refused. A CRA or GDR picture with another SPS than the picture before it is
///   refused, and so is a count of more than 32 bits. That no joined stream is refused if each segment begins with an IDR picture of
///   TemporalId 0 that is a reference picture isn't proved;
/// - what happens if a source is refused or ends before the others;
/// - what becomes of an end of sequence between segments;
/// - that these rounds (`MakeRounds`, `AreWrittenInTurn`) are those of `AreRoundsWritten` of `vx_run` or of `AreMerged` of `vx_again`.
pub fn merges_are_one()
    ensures { MergesAreOne }
{
    rounds_are_read_alike();
}

/// If the next round of a segment is refused by itself, then it is refused in the merge of all.
///
/// It is so after the same bytes.
pub fn segment_is_barred_alike()
    ensures { SegmentIsBarredAlike }
{}
