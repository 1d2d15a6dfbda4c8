//! Laws of the byte stream. A law is a function that does nothing; its contract states it.
ghost use Rattle.vx_annexb.specs.Laws.{StreamIsUnique, StreamExists, StreamGoesOn, UnitsCanStand, StreamIsAnnexB, AnnexBIsStream, WrittenIsAnnexB, WrittenIsStream, EscapedIsUnique, EscapedExists, EscapedJoins, EscapedSplits, UnescapedJoins, EscapedIsShort, EscapedIsInverse, StrayEndsStream, SeenStays, LaterUnseen};

/// The bytes determine their units and the ending after them.
pub fn stream_is_unique()
    ensures { StreamIsUnique }
{}

/// Every list of bytes has units and an ending.
pub fn stream_exists()
    ensures { StreamExists }
{}

/// If no rule refuses bytes, then they are zeros, and then for each unit 00 00 01, the unit and zeros (H.266
/// B.2).
pub fn stream_is_annex_b()
    ensures { StreamIsAnnexB }
{}

/// If units can stand in a byte stream, then it has these units and no refusal (H.266 B.2). The byte stream is zeros, and
/// then for each unit 00 00 01, the unit and zeros.
pub fn annex_b_is_stream()
    ensures { AnnexBIsStream }
{}

/// If a unit comes before the first refusal, then it doesn't end in 00, contains no start code, and no rule
/// refuses it.
pub fn units_can_stand()
    ensures { UnitsCanStand }
{}

/// If units are written one after another, each after 00 00 00 01, then the bytes are the byte stream of these
/// units (H.266 B.2).
pub fn written_is_annex_b()
    ensures { WrittenIsAnnexB }
{}

/// If no rule refuses the written units and they don't end in 00, then what is written has these units and no
/// refusal.
pub fn written_is_stream()
    ensures { WrittenIsStream }
{}

/// If bytes go on, then the units whose end was seen remain, and so does a refusal.
pub fn stream_goes_on()
    ensures { StreamGoesOn }
{}

/// The escaped form of bytes is unique.
pub fn escaped_is_unique()
    ensures { EscapedIsUnique }
{}

/// If bytes don't end in 00, then they have an escaped form.
pub fn escaped_exists()
    ensures { EscapedExists }
{}

/// If bytes don't end in 00, then the escaped form of any others can be appended to theirs unchanged, as for a
/// payload.
pub fn escaped_joins()
    ensures { EscapedJoins }
{}

/// If the first bytes of an RBSP don't end in 00, then the place after them splits the escaped form into theirs
/// and that of the rest.
pub fn escaped_splits()
    ensures { EscapedSplits }
{}

/// If bytes that don't end in 00 are escaped, then any bytes after them are unescaped independently of them.
pub fn unescaped_joins()
    ensures { UnescapedJoins }
{}

/// Escaping adds at most one byte for every two.
pub fn escaped_is_short()
    ensures { EscapedIsShort }
{}

/// Unescaping and escaping undo each other.
pub fn escaped_is_inverse()
    ensures { EscapedIsInverse }
{}

/// If a byte is no start code, then the units before it are those of the bytes before it, and no rule refuses
/// these.
pub fn stray_ends_stream()
    ensures { StrayEndsStream }
{}

/// If bytes go on, then units whose end was seen keep their places and their bytes.
pub fn seen_stays()
    ensures { SeenStays }
{}

/// If no further unit's end is seen in the first bytes, then the next unit ends at most two bytes before they
/// do.
pub fn later_unseen()
    ensures { LaterUnseen }
{}
