//! Which sources have ended.

/// Which sources have ended.
#[derive(Clone, Copy, PartialEq, Eq)]
pub enum Lengths {
    /// None has ended.
    AllGo,
    /// All have ended.
    AllEnded,
    /// Some have ended and some haven't; this is the lowest that has.
    Differ(u16),
}
