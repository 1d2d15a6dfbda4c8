//! The picture that was begun last, with the slices taken so far.
ghost use Rattle.std.specs.Prelude.{◌≡◌, OnOk, OnErr};
ghost use Rattle.vx_pic.specs.Readings.{Current, is_open, is_within_picture};
ghost use Rattle.vx_assemble.specs.inner.Changes as changes;
ghost use Rattle.vx_assemble.specs.inner.Held.{Keeps};
ghost use Rattle.vx_assemble.specs.inner.Order.{IsOrdered, IsComplete};
ghost use Rattle.vx_assemble.specs.inner.Lent.{parts_in};

use crate::state::{BegunPicture, CurrentPicture, GoingPicture, Stage};
use std::alloc::{AllocError, Global};
use std::mem::replace;
use vx_bits::Bytes;
use vx_pic::{ApsList, Kind, Picture, PictureParts, SliceSlot, SliceSlots};
use vx_sei::MessageList;

impl CurrentPicture {
    /// Returns whether all slices of a header's picture were taken.
    pub(crate) fn came_all(&self, begun: &BegunPicture) -> bool
        ensures { result ≡ changes.came_all begun.now self.now }
    {
        self.slices.len() == begun.sets.value().slices
    }

    /// Returns whether a picture is begun, and not all its slices were taken.
    pub(crate) fn is_open(&self) -> bool
        requires { IsOrdered self.now }
        ensures { (c : Current) → Keeps self.now c → result ≡ is_open c }
    {
        match &self.stage {
            Stage::Nothing => false,
            Stage::Headed(_) => true,
            Stage::Going(going) => !self.came_all(&going.begun),
        }
    }

    /// Returns whether some of its slices were taken, and not all.
    pub(crate) fn is_within(&self) -> bool
        requires { IsOrdered self.now }
        ensures { (c : Current) → Keeps self.now c → result ≡ is_within_picture c }
    {
        match &self.stage {
            Stage::Nothing | Stage::Headed(_) => false,
            Stage::Going(going) => !self.came_all(&going.begun),
        }
    }

    /// Begins it with a header that came in the PH unit with these bytes, or in none.
    pub(crate) fn start(&mut self, alloc: Global, begun: BegunPicture, bytes: Bytes)
        ensures { self.new ≡ changes.with_header begun bytes self.old }
    {
        self.header_end = bytes.len();
        drop(replace(&mut self.stage, Stage::Headed(begun)));
        drop(replace(&mut self.bytes, bytes));
        drop(replace(&mut self.slices, SliceSlots::new(alloc)));
    }

    /// Sets its kind, its adaptation parameter sets and its messages, after its header and before its first slice.
    pub(crate) fn open(&mut self, alloc: Global, kind: Kind, bodies: ApsList, messages: MessageList)
        ensures { self.new ≡ changes.with_kind kind bodies messages self.old }
    {
        let stage = match replace(&mut self.stage, Stage::Nothing) {
            Stage::Headed(begun) => Stage::Going(GoingPicture { begun, kind }),
            other => other,
        };
        drop(replace(&mut self.stage, stage));
        drop(replace(&mut self.slices, SliceSlots::new(alloc)));
        drop(replace(&mut self.bodies, bodies));
        drop(replace(&mut self.messages, messages));
    }

    /// Appends the bytes of a slice's unit.
    ///
    /// # Errors
    ///
    /// `AllocError` if memory runs out. Everything is then unchanged.
    pub(crate) fn append(&mut self, unit: &[u8]) -> Result<(), AllocError>
        ensures ok { OnOk result (self.new ≡ changes.with_bytes unit.now self.old) }
        ensures err { OnErr result (self.new ≡ self.old) }
    {
        self.bytes.extend_from_slice(unit)
    }

    /// Appends a slice whose bytes are there.
    ///
    /// # Errors
    ///
    /// `AllocError` if memory runs out. Everything is then unchanged.
    pub(crate) fn push(&mut self, slot: SliceSlot) -> Result<(), AllocError>
        ensures ok { OnOk result (self.new ≡ changes.with_slot slot self.old) }
        ensures err { OnErr result (self.new ≡ self.old) }
    {
        self.slices.push(slot)
    }

    /// Returns the picture, all of whose slices were taken.
    pub(crate) fn lend(&self) -> Picture<'_>
        requires order { IsOrdered self.now }
        requires complete { IsComplete self.now }
        ensures { result ≡ parts_in self.now }
    {
        let Stage::Going(going) = &self.stage else {
            unreachable!()
        };
        let sets = going.begun.sets.value();
        Picture::of(PictureParts {
            kind: going.kind,
            sps: sets.sps.value(),
            pps: sets.pps.value(),
            layout: &sets.layout,
            header: &going.begun.header,
            ids: &sets.ids,
            bytes: self.bytes.as_slice(),
            header_end: self.header_end,
            slices: &self.slices,
            bodies: &self.bodies,
            messages: &self.messages,
        })
    }
}
