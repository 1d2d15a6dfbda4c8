//! Runs the program's commands over byte sources and sinks; everything except opening files.
//!
//! - [`run`] runs the command that the arguments ask for, writes a line on `err` if it isn't done, and returns the exit status.
//!   [`run_whole`] also writes what the output buffer, a [`GatherSink`], holds at the end.
//! - [`file_count`] and [`file_word`] return the files that the arguments name, so that the caller can open one source for each.
//! - [`Stop`] is the reason why a command ends early, and [`Place`] the place of a broken rule.
//! - Laws: [`status_is_exact`], [`status_2_is_exact`] and [`too_many_are_refused`] relate the status to the sources. [`merge_ends_once`],
//!   [`play_ends_once`] and [`verify_ends_once`] relate the ends that these commands can have.
//!
//! Definitions in `specs`: `Grammar` has the arguments that are understood, and `Run` what each command does.
#![tactic(auto)]

mod about;
mod conclude;
mod extract;
mod gather;
mod laws;
mod merge;
mod placings;
mod play;
mod program;
mod rounds;
mod show;
mod stop;
mod trial;
mod verify;
mod whole;
mod words;

pub use conclude::finish;
pub use extract::{Task, pictures_have_slices, some_picture};
pub use gather::GatherSink;
pub use laws::{
    merge_ends_once, play_ends_once, status_2_is_exact, status_is_exact, too_many_are_refused,
    verify_ends_once,
};
pub use merge::all_go_on;
pub use play::play_region;
pub use program::run;
pub use stop::{Place, Stop};
pub use whole::run_whole;
pub use words::{file_count, file_word};
