//! Schedules which file of each region is read, when the files of a region are played one after another.
//!
//! A [`Schedule`] knows only numbers of regions and files, nothing of what the files contain. Definitions in `specs`: `Scheduled`.
#![tactic(auto)]

mod schedule;

pub use schedule::Schedule;
