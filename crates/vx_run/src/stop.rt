//! The reasons why a command stops before it is done.

ghost use Rattle.std.specs.Prelude.{◌≡◌};
ghost use Rattle.vx_run.specs.Conclusion.{where_told};
ghost use Rattle.vx_run.specs.declared.stop.Stop.TheVariants.{WriteFault as StoppedByWrite, NoMemory as StoppedByMemory};
ghost use Rattle.vx_run.specs.inner.Stopping.{stop_of_feed, stop_of_write};

use std::alloc::AllocError;
use vx_assemble::FeedFault;
use vx_bits::Refusal;
use vx_io::SinkFailed;
use vx_report::Where;
use vx_verify::Mismatch;
use vx_write::WriteError;

/// Where a rule was broken.
#[derive(Clone, Copy, PartialEq, Eq)]
pub enum Place {
    /// A NAL unit of a source, both counted from 0. At the end of a source, `unit` is its number of units.
    Unit { source: u16, unit: u64 },
    /// A picture, or a round of pictures, from 0.
    Picture(u64),
    /// The arguments.
    Words,
}

impl Place {
    /// Returns the place as [`vx_report::refusal_line`] takes it.
    pub fn told(self) -> Where
        ensures { result ≡ where_told self }
    {
        match self {
            Place::Unit { source, unit } => {
                Where {
                    source,
                    unit,
                    picture: 0,
                    written: false,
                }
            }
            Place::Picture(picture) => {
                Where {
                    source: 0,
                    unit: 0,
                    picture,
                    written: true,
                }
            }
            Place::Words => {
                Where {
                    source: 0,
                    unit: 0,
                    picture: 0,
                    written: false,
                }
            }
        }
    }
}

/// The reason why a command isn't done.
#[derive(Clone, Copy, PartialEq, Eq)]
pub enum Stop {
    /// The arguments are no command.
    NotUnderstood,
    /// A rule is broken.
    Refused { refusal: Refusal, place: Place },
    /// A finished stream isn't the merge of its sources.
    Mismatched { mismatch: Mismatch, picture: u64 },
    /// A read of this source failed.
    ReadFault { source: u16 },
    /// A write to the output failed.
    WriteFault,
    /// There is no memory.
    NoMemory,
}

impl Stop {
    /// Returns why a command stops if the feed of source `k` stops after `n` units.
    pub(crate) fn of_feed(fault: FeedFault, k: u16, n: u64) -> Stop
        ensures { result ≡ stop_of_feed fault k n }
    {
        match fault {
            FeedFault::Refused(refusal) => Stop::Refused {
                refusal,
                place: Place::Unit { source: k, unit: n },
            },
            FeedFault::SourceFailed => Stop::ReadFault { source: k },
            FeedFault::Memory | FeedFault::Stopped(_) => Stop::NoMemory,
        }
    }

    /// Returns why a command stops if picture, or round, `n` isn't written.
    pub fn of_write(error: WriteError, n: u64) -> Stop
        ensures { result ≡ stop_of_write error n }
    {
        match error {
            WriteError::Refused(refusal) => Stop::Refused {
                refusal,
                place: Place::Picture(n),
            },
            WriteError::SinkFailed => Stop::WriteFault,
            WriteError::Memory | WriteError::Stopped(_) => Stop::NoMemory,
        }
    }
}

impl From<AllocError> for Stop {
    ghost from_gives = { λ _ stop. stop ≡ StoppedByMemory };

    fn from(_error: AllocError) -> Stop {
        Stop::NoMemory
    }
}

impl From<SinkFailed> for Stop {
    ghost from_gives = { λ _ stop. stop ≡ StoppedByWrite };

    fn from(_error: SinkFailed) -> Stop {
        Stop::WriteFault
    }
}
