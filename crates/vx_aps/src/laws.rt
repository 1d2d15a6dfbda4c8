//! Laws of adaptation parameter sets. A law is a function that does nothing; its contract states it.
ghost use Rattle.vx_aps.specs.laws.Answers.{OneAnswer, SpelledIsAps};

/// Bytes have at most one answer: they are one set, or dropped, or refused for one cause.
pub fn one_answer()
    ensures { OneAnswer }
{}

/// If a set is written, then the bytes are its RBSP, and are read as the set.
pub fn spelled_is_aps()
    ensures { SpelledIsAps }
{}
