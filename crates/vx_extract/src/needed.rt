//! The adaptation parameter sets that a subpicture of a picture needs: those that its slices name.
ghost use Rattle.std.specs.Prelude.{◌≡◌, ℕ, ◌+◌, ◌<◌, ◌++◌, false, List, length, replicate, IfSome};
ghost use Rattle.std.specs.List.{slice_index_or};
ghost use Rattle.vx_bits.specs.Codes.{EndsInNoZero};
ghost use Rattle.vx_pic.specs.Sets.{named, named_filters};
ghost use Rattle.vx_extract.specs.inner.Needed.{slot_at, slot_count, NamesOf, needed_to, lent_set, marked, all_marked, own_names, header_filters, header_names};

use std::marker::Model;
use vx_aps::{ALF, LMCS, SCALING};
use vx_bits::Fields;
use vx_fields::alf::{alf_aps_id_chroma, alf_aps_id_luma, alf_cc_cb_aps_id, alf_cc_cr_aps_id};
use vx_fields::ph::{ph_lmcs_aps_id, ph_scaling_list_aps_id};
use vx_fields::pps::pps_alf_info_in_ph_flag;
use vx_pic::Picture;
use vx_pps::Pps;
use vx_table::natural;
use vx_write::NeededAps;

/// The most ids of a type: 0 to 7 (H.266 7.4.3.6).
const IDS: u8 = 8;

/// The number of places: those of sets of type 0 by their ids, then those of types 1 and 2.
pub(crate) const APS_SLOTS: u8 = 24;

/// Which adaptation parameter sets are named. *Model:* a flag for each place.
#[derive(Drop)]
pub(crate) struct NamedAps {
    flags: [bool; 24],
}

impl Model for NamedAps {
    ghost use Rattle.std.specs.Prelude.{◌≡◌, Bool, List, length};

    ghost Value = { List Bool };

    ghost view = { λ n. n.flags };

    ghost invariant = { λ n. length n.flags ≡ 24 };
}

impl NamedAps {
    ghost use Rattle.std.specs.Prelude.{◌≡◌, ◌<◌, ◌++◌, false, replicate};
    ghost use Rattle.std.specs.List.{slice_index_or};
    ghost use Rattle.vx_pic.specs.Sets.{named, named_filters};
    ghost use Rattle.vx_extract.specs.inner.Needed.{marked, all_marked, own_names, header_filters, header_names};

    /// Returns a list in which no set is named.
    fn none() -> NamedAps
        ensures { result ≡ replicate 24 false }
    {
        NamedAps { flags: [false; 24] }
    }

    /// Returns whether the set at a place is named.
    pub(crate) fn has(&self, place: u8) -> bool
        requires { place < 24 }
        ensures { result ≡ slice_index_or self.now place false }
    {
        self.flags[usize::from(place)]
    }

    /// Marks the set of a type and an id, if there is a place for it.
    #[tactic(auto, unfolding(crate::specs::inner::Needed::marked))]
    fn mark(&mut self, kind: u8, id: u32)
        ensures { self.new ≡ marked self.old (record { kind = kind; id = id }) }
    {
        if kind <= SCALING && id < u32::from(IDS) {
            self.flags[usize::from(IDS) * usize::from(kind) + id as usize] = true;
        }
    }

    /// Marks the sets of a type that a field names.
    #[tactic(auto, using(crate::proofs::Naming::none_marked, crate::proofs::Naming::mark_on, crate::proofs::Naming::mark_off))]
    fn mark_named(&mut self, kind: u8, field: u16, items: &Fields)
        ensures { self.new ≡ all_marked self.old (named kind field items.now) }
    {
        for i in 0..items.len() {
            let item = items.item(i);
            if item.field != field {
                continue;
            }
            self.mark(kind, natural(item.value));
        }
    }

    /// Marks the sets that filters name.
    #[tactic(auto, using(crate::proofs::Naming::four_marked))]
    fn mark_filters(&mut self, items: &Fields)
        ensures { self.new ≡ all_marked self.old (named_filters items.now) }
    {
        self.mark_named(ALF, alf_aps_id_luma, items);
        self.mark_named(ALF, alf_aps_id_chroma, items);
        self.mark_named(ALF, alf_cc_cb_aps_id, items);
        self.mark_named(ALF, alf_cc_cr_aps_id, items);
    }

    /// Marks what a slice header names itself: filters, unless the picture header has them.
    #[tactic(auto, using(crate::proofs::Naming::own_none, crate::proofs::Naming::own_filters))]
    fn mark_slice(&mut self, pps: &Pps, items: &Fields)
        ensures { self.new ≡ all_marked self.old (own_names pps.now items.now) }
    {
        if pps.scope().latest(pps_alf_info_in_ph_flag) == 0 {
            self.mark_filters(items);
        }
    }

    /// Marks the filters that a picture header names, if it has any.
    #[tactic(auto, using(crate::proofs::Naming::filters_none, crate::proofs::Naming::filters_there))]
    fn mark_header_filters(&mut self, pps: &Pps, items: &Fields)
        ensures { self.new ≡ all_marked self.old (header_filters pps.now items.now) }
    {
        if pps.scope().latest(pps_alf_info_in_ph_flag) != 0 {
            self.mark_filters(items);
        }
    }

    /// Marks what a picture header names: filters, and LMCS and scaling lists whether they are used or not.
    #[tactic(auto, using(crate::proofs::Naming::header_marked))]
    fn mark_header(&mut self, pps: &Pps, items: &Fields)
        ensures { self.new ≡ all_marked self.old (header_names pps.now items.now) }
    {
        self.mark_header_filters(pps, items);
        self.mark_named(LMCS, ph_lmcs_aps_id, items);
        self.mark_named(SCALING, ph_scaling_list_aps_id, items);
    }
}

/// Returns which sets the slices of a subpicture name. Takes no memory.
pub(crate) fn named_aps(picture: &Picture<'_>, target: u32) -> NamedAps
    ensures { NamesOf picture.now target result }
{
    let mut named = NamedAps::none();
    let mut found = false;
    for i in 0..picture.slice_count() {
        let slice = picture.slice(i);
        if slice.header.subpic != target {
            continue;
        }
        named.mark_slice(picture.pps(), &slice.header.fields);
        found = true;
    }
    if !found {
        return named;
    }
    named.mark_header(picture.pps(), &picture.header().fields);
    named
}

/// Returns the set at a place, if it is named.
#[tactic(auto, using(crate::proofs::Naming::needed_not, crate::proofs::Naming::needed_one, crate::proofs::Naming::needed_there))]
pub(crate) fn needed_at<'a>(
    picture: &Picture<'a>,
    named: &NamedAps,
    place: u8,
) -> Option<NeededAps<'a>>
    requires { place < 24 }
    ensures needed { (target : ℕ) → NamesOf picture.now target named.now → needed_to picture.now target (place + 1) ≡ needed_to picture.now target place ++ lent_set result }
    ensures kind { IfSome result (λ a. a.kind < 8) }
    ensures id { IfSome result (λ a. a.id < 32) }
    ensures some { IfSome result (λ a. 0 < length a.body.now) }
    ensures ends { IfSome result (λ a. EndsInNoZero a.body.now) }
{
    if !named.has(place) {
        return None;
    }
    let (kind, id) = (place / IDS, place % IDS);
    let body = picture.body(kind, id)?;
    Some(NeededAps { kind, id, body })
}
