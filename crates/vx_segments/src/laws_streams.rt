//! Laws of segments of streams. Each function does nothing and has its law as its contract.
ghost use Rattle.vx_segments.specs.Streams.{BytesJoin, CutIsJoined, JoinedRests, RoundsAreReadAlike, SegmentIsReadAlike};

use vx_annexb::{annex_b_is_stream, stream_is_annex_b, stream_is_unique};
use vx_pic::pictures_are_finished;

/// If a segment is read after others, then its pictures are those of the segment by itself, each read alike.
///
/// Such pictures may differ in whether they start a coded layer video sequence, in their counts, and in sets that they don't name.
pub fn segment_is_read_alike()
    ensures { SegmentIsReadAlike }
{
    pictures_are_finished();
}

/// If segments and the next one end with whole pictures, then so do they joined: another segment may follow.
pub fn joined_rests()
    ensures { JoinedRests }
{}

/// If two byte streams end well, then so do they one after the other, with the units of both.
pub fn bytes_join()
    ensures { BytesJoin }
{
    stream_is_annex_b();
    annex_b_is_stream();
}

/// If a source is cut into segments, then the joined stream has the pictures of all, each read alike.
///
/// It is required, of the bytes, that
///
/// - no rule refuses the segments before, the segment by itself, or both joined,
/// - after the last picture of the segments before come no end of sequence and no messages,
/// - the segment has no end of sequence.
///
/// CRA and GDR pictures may begin a segment.
pub fn cut_is_joined()
    ensures { CutIsJoined }
{
    stream_is_unique();
    bytes_join();
    segment_is_read_alike();
}

/// If streams are joined, then their rounds are those of the segments before and the segment's, read alike.
pub fn rounds_are_read_alike()
    ensures { RoundsAreReadAlike }
{}
