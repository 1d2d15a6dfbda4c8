//! The statuses that exports return.
ghost use Rattle.std.specs.Prelude.{◌≡◌, OnSome, IfNone};
ghost use Rattle.vx_run.specs.Conclusion as conclusion;

use vx_run::Stop;

/// The call is done.
pub(crate) const DONE: u8 = 0;

/// A rule is broken.
pub(crate) const REFUSED: u8 = 1;

/// The arguments aren't understood, the handle is closed, or a number is out of its range.
pub(crate) const MISUSED: u8 = 2;

/// The room isn't enough.
pub(crate) const NO_ROOM: u8 = 3;

/// There is no memory.
pub(crate) const NO_MEMORY: u8 = 4;

/// Bytes are needed.
pub(crate) const WAITS: u8 = 5;

/// There are no more pictures.
pub(crate) const ENDED: u8 = 6;

/// Returns the program's status if it stops for this reason.
pub(crate) fn status_of(stop: Stop) -> u8
    ensures { result ≡ conclusion.status_of stop }
{
    match stop {
        Stop::NotUnderstood => MISUSED,
        Stop::Refused { .. } | Stop::Mismatched { .. } => REFUSED,
        Stop::ReadFault { .. } | Stop::WriteFault => NO_ROOM,
        Stop::NoMemory => NO_MEMORY,
    }
}

/// Returns the status of a copy: `NO_ROOM` if nothing was copied.
pub(crate) fn took(taken: Option<usize>) -> u8
    ensures done { OnSome taken (result ≡ DONE) }
    ensures short { IfNone taken (result ≡ NO_ROOM) }
{
    match taken {
        Some(_) => DONE,
        None => NO_ROOM,
    }
}
