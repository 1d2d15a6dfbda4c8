//! The walk over a slice header from its first bit on, for every coder.
ghost use Rattle.std.specs.Prelude.{◌≡◌, ◌≤◌, length};
ghost use Rattle.vx_table.specs.Forms.{form_of};
ghost use Rattle.vx_table.specs.Walks.{Walks, leaving};
ghost use Rattle.vx_sh.specs.declared.tables.TheConstants.{HEADER_INSIDE};
ghost use Rattle.vx_sh.specs.Whole as whole;
ghost use Rattle.vx_sh.specs.Whole.{located, points_at, points_of, subpic_form, behind_header, header_inside, apart_form};

use crate::context::Context;
use crate::tables::{header_inside_syntax, known_subpic_syntax, subpic_id_syntax};
use crate::walk::{EntryPoints, code_rest};
use vx_bits::IdList;
use vx_bits::rules::UNKNOWN_SUBPIC_ID;
use vx_fields::names::sh::*;
use vx_fields::sh::*;
use vx_fields::sps::*;
use vx_layout::Layout;
use vx_ph::code_header;
use vx_table::{Coder, Rows, Scope, rows};

/// Returns the number of slices of a subpicture, out of `subpics`.
fn slices_at(layout: &Layout, subpics: u32, subpic: u32) -> u32
    requires { subpics ≡ length layout.now.subpics }
    ensures { result ≡ whole.num_slices_in_subpic layout.now subpic }
{
    if subpic < subpics {
        layout.slice_count(subpic)
    } else {
        0
    }
}

/// The entry points of the slices of a subpicture.
#[derive(Drop)]
pub(crate) struct SubpicPoints<'a> {
    layout: &'a Layout,
    subpics: u32,
    subpic: u32,
    has_points: bool,
    sync: bool,
    ghost all: { subpics ≡ length layout.now.subpics },
}

impl<'a> EntryPoints for SubpicPoints<'a> {
    ghost use Rattle.vx_sh.specs.Whole.{points_at};

    ghost points = { λ p. points_at p.layout.now p.has_points p.sync p.subpic };

    #[tactic(auto, unfolding(crate::specs::Whole::points_at))]
    fn entry_points(&self, address: u32) -> u32 {
        if !self.has_points {
            return 0;
        }
        if slices_at(self.layout, self.subpics, self.subpic) <= address {
            return 0;
        }
        self.layout.entry_points(self.subpic, address, self.sync)
    }
}

/// Returns the place of an id among the ids of the subpictures, or the place after the last one if it is none of them.
pub(crate) fn index_of(id: u32, ids: &IdList) -> u32
    requires { length ids.now ≤ 1000 }
    ensures { result ≡ whole.index_of id ids.now }
{
    let mut index = 0;
    let mut left = ids.as_slice();
    while let Some((known, more)) = left.split_first() {
        if *known == id {
            return index;
        }
        index += 1;
        left = more;
    }
    index
}

/// Sets in the scope which subpicture has the id, and how many slices it has.
#[tactic(auto, unfolding(crate::specs::Whole::located))]
fn locate(n: &Context<'_>, scope: &mut Scope)
    ensures { scope.new ≡ located n.now.ids.now n.now.layout.now scope.old }
{
    let subpics = n.ids.len() as u32;
    let subpic = index_of(scope.latest(sh_subpic_id), n.ids);
    scope.set(NUM_SUBPICS, subpics);
    scope.set(SUBPIC, subpic);
    scope.set(NUM_SLICES, slices_at(n.layout, subpics, subpic));
}

/// Codes the id of the subpicture.
fn code_id<I, C: Coder<I>>(
    n: &Context<'_>,
    scope: &mut Scope,
    coder: &mut C,
    items: &mut I,
) -> Result<(), C::Fault>
    ensures { Walks C.step (whole.subpic_id_form n.now.ids.now n.now.layout.now scope.old) coder.old items.old (leaving scope.new result) coder.new items.new }
{
    let id = subpic_id_syntax!(rows);
    id.code(scope, coder, items)?;
    locate(n, scope);
    Ok(())
}

/// Codes the id of the subpicture, which is refused if no subpicture has it.
#[tactic(auto, unfolding(crate::specs::Whole::subpic_form), using(vx_table::proofs::Steps::then, vx_table::proofs::Steps::stop))]
fn code_subpic<I, C: Coder<I>>(
    n: &Context<'_>,
    scope: &mut Scope,
    coder: &mut C,
    items: &mut I,
) -> Result<(), C::Fault>
    ensures { Walks C.step (subpic_form n.now.ids.now n.now.layout.now scope.old) coder.old items.old (leaving scope.new result) coder.new items.new }
{
    code_id(n, scope, coder, items)?;
    let known = known_subpic_syntax!(rows);
    known.code(scope, coder, items)
}

/// Codes the fields after the id of the subpicture.
fn code_there<I, C: Coder<I>>(
    n: &Context<'_>,
    scope: &mut Scope,
    coder: &mut C,
    items: &mut I,
) -> Result<(), C::Fault>
    ensures { Walks C.step (whole.there n.now.table.now n.now.layout.now scope.old) coder.old items.old (leaving scope.new result) coder.new items.new }
{
    let points = SubpicPoints {
        layout: n.layout,
        subpics: n.ids.len() as u32,
        subpic: scope.latest(SUBPIC),
        has_points: scope.latest(sps_entry_point_offsets_present_flag) != 0,
        sync: scope.latest(sps_entropy_coding_sync_enabled_flag) != 0,
    };
    code_rest(n.table, &points, scope, coder, items)
}

/// Codes the fields after the picture header.
#[tactic(auto, unfolding(crate::specs::Whole::behind_header), using(vx_table::proofs::Steps::then, vx_table::proofs::Steps::stop))]
pub(crate) fn code_behind<I, C: Coder<I>>(
    n: &Context<'_>,
    scope: &mut Scope,
    coder: &mut C,
    items: &mut I,
) -> Result<(), C::Fault>
    ensures { Walks C.step (behind_header n.now.table.now n.now.ids.now n.now.layout.now scope.old) coder.old items.old (leaving scope.new result) coder.new items.new }
{
    code_subpic(n, scope, coder, items)?;
    code_there(n, scope, coder, items)
}

/// Codes whether the picture header is inside.
pub(crate) fn code_header_inside<I, C: Coder<I>>(
    scope: &mut Scope,
    coder: &mut C,
    items: &mut I,
) -> Result<(), C::Fault>
    ensures { Walks C.step (form_of HEADER_INSIDE scope.old) coder.old items.old (leaving scope.new result) coder.new items.new }
{
    let first = header_inside_syntax!(rows);
    first.code(scope, coder, items)
}

/// Codes a slice header whose picture header is a unit of its own.
#[tactic(auto, unfolding(crate::specs::Whole::apart_form), using(vx_table::proofs::Steps::then, vx_table::proofs::Steps::stop))]
pub(crate) fn code_apart<I, C: Coder<I>>(
    n: &Context<'_>,
    scope: &mut Scope,
    coder: &mut C,
    items: &mut I,
) -> Result<(), C::Fault>
    ensures { Walks C.step (apart_form n.now.table.now n.now.ids.now n.now.layout.now scope.old) coder.old items.old (leaving scope.new result) coder.new items.new }
{
    code_header_inside(scope, coder, items)?;
    code_behind(n, scope, coder, items)
}

/// Codes the picture header, if it is inside.
pub(crate) fn code_inside<I, C: Coder<I>>(
    n: &Context<'_>,
    scope: &Scope,
    coder: &mut C,
    items: &mut I,
) -> Result<(), C::Fault>
    ensures { Walks C.step (header_inside n.now.table.now n.now.sets.now scope.now) coder.old items.old (leaving scope.now result) coder.new items.new }
{
    if scope.latest(sh_picture_header_in_slice_header_flag) == 0 {
        return Ok(());
    }
    let mut sets = *n.sets;
    code_header(n.table, &mut sets, coder, items)?;
    Ok(())
}
