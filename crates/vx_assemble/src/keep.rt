//! Changes of what is kept.
ghost use Rattle.std.specs.Prelude.{◌≡◌, None, option_copied};
ghost use Rattle.std.specs.List.{slice_index_or};
ghost use Rattle.vx_aps.specs.Aps.{IsValid};
ghost use Rattle.vx_assemble.specs.inner.Held.{aps_items};
ghost use Rattle.vx_assemble.specs.inner.Changes as changes;

use crate::sets::set_of;
use crate::shared::Shared;
use crate::state::State;
use std::sync::Arc;
use vx_aps::Aps;
use vx_bits::Fields;
use vx_pps::Pps;
use vx_sps::Sps;

impl State {
    /// Keeps the items of a unit that has no place in a table.
    pub(crate) fn keep_items(&mut self, items: Fields)
        ensures { self.new ≡ changes.with_items items self.old }
    {
        self.fields = items;
    }

    /// Keeps an APS with these items, in place of the one with its type and id.
    pub(crate) fn keep_aps(&mut self, aps: Arc<Aps>, items: Fields)
        requires valid { IsValid aps.value }
        requires items { items ≡ aps_items aps.value }
        ensures { self.new ≡ changes.with_aps aps.value self.old }
    {
        self.aps.put(aps);
        self.fields = items;
    }

    /// Keeps that a sequence ended.
    pub(crate) fn keep_end(&mut self)
        ensures { self.new ≡ changes.with_end self.old }
    {
        self.ended = true;
    }

    /// Returns the SPS with an id.
    pub(crate) fn sps_of(&self, id: u8) -> Option<&Shared<Sps>>
        ensures { option_copied result ≡ slice_index_or self.now.sps id None }
    {
        set_of(&self.sps, id)
    }

    /// Returns the PPS with an id.
    pub(crate) fn pps_of(&self, id: u8) -> Option<&Shared<Pps>>
        ensures { option_copied result ≡ slice_index_or self.now.pps id None }
    {
        set_of(&self.pps, id)
    }
}
