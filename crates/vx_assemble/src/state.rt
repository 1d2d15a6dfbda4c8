//! What is kept of the units that were taken.
ghost use Rattle.std.specs.Prelude.{◌≡◌, [], List, length};
ghost use Rattle.vx_assemble.specs.inner.Held.{IsHeld};
ghost use Rattle.vx_assemble.specs.inner.Order.{IsInOrder};

use crate::in_force::InForce;
use crate::shared::Shared;
use std::alloc::Global;
use vx_bits::{Bytes, Fields};
use vx_ph::PictureHeader;
use vx_pic::{ApsList, Kind, PrevTid0, SliceSlots};
use vx_pps::Pps;
use vx_sei::MessageList;
use vx_sps::Sps;

/// A picture header, with what is in force for it.
pub(crate) struct BegunPicture {
    /// ph_pic_parameter_set_id.
    pub pps_id: u8,
    /// The sets to which it refers.
    pub sets: Shared<InForce>,
    /// The header.
    pub header: PictureHeader,
    /// Its TemporalId.
    pub temporal_id: u8,
}

impl Drop for BegunPicture {
    fn drop(self) {
        let BegunPicture {
            pps_id: _,
            sets: _,
            header: _,
            temporal_id: _,
        } = self;
    }
}

/// A picture whose first slice was taken.
#[derive(Drop)]
pub(crate) struct GoingPicture {
    /// Its header.
    pub begun: BegunPicture,
    /// Its kind.
    pub kind: Kind,
}

/// How far a picture has been taken.
#[derive(Drop)]
pub(crate) enum Stage {
    /// No picture was begun.
    Nothing,
    /// Its header was taken.
    Headed(BegunPicture),
    /// Its header and its first slice were taken.
    Going(GoingPicture),
}

/// The picture that was begun last, with the slices taken so far.
pub(crate) struct CurrentPicture {
    /// How far it has been taken.
    pub stage: Stage,
    /// The bytes of its PH unit, and of its slices' units.
    pub bytes: Bytes,
    /// The place where the PH unit ends.
    pub header_end: usize,
    /// Its slices.
    pub slices: SliceSlots,
    /// The adaptation parameter sets that were stored at its first slice.
    pub bodies: ApsList,
    /// The messages that were gathered at its first slice.
    pub messages: MessageList,
}

impl Drop for CurrentPicture {
    fn drop(self) {
        let CurrentPicture {
            stage: _,
            bytes: _,
            header_end: _,
            slices: _,
            bodies: _,
            messages: _,
        } = self;
    }
}

/// The sets to which a PPS id refers, and what they make up.
#[derive(Drop)]
pub(crate) struct MadeSets {
    /// The id.
    pub id: u8,
    /// The sets.
    pub sets: Shared<InForce>,
}

/// What is kept of the units that were taken.
pub(crate) struct State {
    /// The stored SPSs, by their ids.
    pub sps: [Option<Shared<Sps>>; 16],
    /// The stored PPSs, by their ids.
    pub pps: [Option<Shared<Pps>>; 64],
    /// The sets of the latest picture header, if they are still stored.
    pub made: Option<MadeSets>,
    /// The stored adaptation parameter sets.
    pub aps: ApsList,
    /// The items of the last unit that has a result with items of its own.
    pub fields: Fields,
    /// The picture that was begun last.
    pub picture: CurrentPicture,
    /// The messages gathered since the last slice.
    pub gathered: MessageList,
    /// The number of bytes of these when coded.
    pub gathered_len: usize,
    /// The sets of the last whole picture.
    pub last: Option<Shared<InForce>>,
    /// Whether the SPS of the picture that was begun last is known to be that of the last whole one.
    pub unchanged: bool,
    /// What counts are computed from.
    pub previous: PrevTid0,
    /// Whether a sequence ended since the last slice.
    pub ended: bool,
}

impl Drop for State {
    fn drop(self) {
        let State {
            sps: _,
            pps: _,
            made: _,
            aps: _,
            fields: _,
            picture: _,
            gathered: _,
            gathered_len: _,
            last: _,
            unchanged: _,
            previous: _,
            ended: _,
        } = self;
    }
}

impl State {
    #[tactic(auto, using(crate::proofs::Bodies::no_bodies))]
    /// Returns what is kept of no units.
    pub(crate) fn new(alloc: Global) -> State
        ensures held { IsHeld result [] }
        ensures order { IsInOrder result }
        ensures bytes { length result.picture.bytes ≡ 0 }
    {
        State {
            sps: [
                None, None, None, None, None, None, None, None, None, None, None, None, None, None,
                None, None,
            ],
            pps: [
                None, None, None, None, None, None, None, None, None, None, None, None, None, None,
                None, None, None, None, None, None, None, None, None, None, None, None, None, None,
                None, None, None, None, None, None, None, None, None, None, None, None, None, None,
                None, None, None, None, None, None, None, None, None, None, None, None, None, None,
                None, None, None, None, None, None, None, None,
            ],
            made: None,
            aps: ApsList::new(),
            fields: Fields::new(alloc),
            picture: CurrentPicture {
                stage: Stage::Nothing,
                bytes: Bytes::new(alloc),
                header_end: 0,
                slices: SliceSlots::new(alloc),
                bodies: ApsList::new(),
                messages: MessageList::new(alloc),
            },
            gathered: MessageList::new(alloc),
            gathered_len: 0,
            last: None,
            unchanged: false,
            previous: PrevTid0::default(),
            ended: false,
        }
    }
}
