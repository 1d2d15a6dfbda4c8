//! The slice list of a picture parameter set, clause 7.3.2.5, for every coder.
ghost use Rattle.std.specs.Prelude.{◌≡◌, ◌==◌, ◌+ℤ◌, pos, ◌+◌, ◌-◌, ◌*◌, ◌^◌, ◌<◌, ◌≤◌, ◌∷◌, [], ◌++◌, ◌&&◌, length, replicate, IfOk, OnOk};
ghost use Rattle.vx_table.specs.Scope as numbers;
ghost use Rattle.vx_table.specs.Walks.{leaving};
ghost use Rattle.vx_layout.specs.Bounds.{repeated_sizes};
ghost use Rattle.vx_pps.specs.Groups.{strips};
ghost use Rattle.vx_pps.specs.Groups as words;
ghost use Rattle.vx_pps.specs.Slices as list;
ghost use Rattle.vx_pps.specs.Slices.{delta, height_in_tiles, list_from, none_listed, slices_from_tile, slices_in_tile, strip_height, strips_from, tile_after, turn, turns_from, width_in_tiles};
ghost use Rattle.vx_pps.specs.Tiles.{IsGrid, across, column, down, row};
ghost use Rattle.vx_pps.specs.inner.Walked.{Walked};

use crate::halt::Halt;
use crate::numbers::{below, code_below, code_number};
use crate::tiles::Tiles;
use std::alloc::{AllocError, Global};
use vx_fields::pps::{
    pps_exp_slice_height_in_ctus_minus1, pps_num_exp_slices_in_tile,
    pps_slice_height_in_tiles_minus1, pps_slice_width_in_tiles_minus1, pps_tile_idx_delta_val,
};
use vx_layout::{Rect, RectList};
use vx_table::{Cell, Coder, Coding, Fault, Limits, natural};

/// The state of a walk over a slice list.
#[derive(Drop)]
pub struct Listed {
    /// The slices so far.
    pub slices: RectList,
    /// The tile where the next slice begins.
    pub next: u32,
    /// The height of the slice before it in tiles, less 1.
    pub before: u32,
}

/// Codes the width in tiles, less 1, of a slice that begins at `tile`.
fn code_width<I, C: Coder<I>>(
    tiles: &Tiles,
    tile: u32,
    coder: &mut C,
    items: &mut I,
) -> Result<u32, Halt<C::Fault>>
    requires { IsGrid tiles.now }
    ensures walk { Walked C.step (width_in_tiles tiles.now tile) coder.old items.old result coder.new items.new }
    ensures fits { IfOk result (λ width. width < across tiles.now) }
{
    let (column, across) = (tiles.column(tile), tiles.across());
    if column + 1 == across {
        return Ok(0);
    }
    let field = pps_slice_width_in_tiles_minus1;
    code_below(field, across - column, coder, items)
}

/// Returns whether the height in tiles of a slice that begins at `tile` is coded.
fn spells_height(tiles: &Tiles, deltas: bool, tile: u32) -> bool
    requires { IsGrid tiles.now }
    ensures { result ≡ words.spells_height tiles.now deltas tile }
{
    deltas || tiles.column(tile) == 0
}

/// Codes the height in tiles, less 1, of a slice that begins at `tile`, after one of height `before`.
fn code_height<I, C: Coder<I>>(
    tiles: &Tiles,
    deltas: bool,
    tile: u32,
    before: u32,
    coder: &mut C,
    items: &mut I,
) -> Result<u32, Halt<C::Fault>>
    requires grid { IsGrid tiles.now }
    requires inside { tile < across tiles.now * down tiles.now }
    requires before { before < 512 }
    ensures walk { Walked C.step (height_in_tiles tiles.now deltas tile before) coder.old items.old result coder.new items.new }
    ensures low { IfOk result (λ height. height < 512) }
{
    let (row, down) = (tiles.row(tile), tiles.down());
    if row + 1 == down {
        return Ok(0);
    }
    if !spells_height(tiles, deltas, tile) {
        return Ok(before);
    }
    let field = pps_slice_height_in_tiles_minus1;
    code_below(field, down - row, coder, items)
}

/// Returns the heights in CTUs, less 1, that the next explicit slice of a tile may have.
fn height_limits(is_last: bool, left: u32, room: u32) -> Limits<u32>
    requires room { 1 ≤ room }
    requires left { left < 2 ^ 20 }
    ensures { result ≡ list.height_limits is_last left room }
{
    if is_last && left >= 1 {
        return Limits::Within {
            low: (left.div_ceil(room) - 1) as i32,
            high: left - 1,
            fault: Fault::OutOfRange,
        };
    }
    below(left)
}

/// Returns rows of a tile, from CTU row `y` on, as a slice.
fn strip(tile: Rect, y: u32, height: u32) -> Rect
    ensures { (result ∷ []) ≡ strips tile y (height ∷ []) }
{
    Rect {
        x: tile.x,
        y,
        w: tile.w,
        h: height,
    }
}

/// Codes the height of an explicit slice of a tile, from CTU row `y` on, after which `more` explicit ones come.
fn code_strip<I, C: Coder<I>>(
    tile: Rect,
    last: u32,
    more: u32,
    y: u32,
    slices: &RectList,
    coder: &mut C,
    items: &mut I,
) -> Result<u32, Halt<C::Fault>>
    requires last { last < 1000 }
    requires room { length slices.now + more ≤ last }
    requires low { tile.y + tile.h < 2 ^ 20 }
    ensures walk { Walked C.step (strip_height tile last more y slices.now) coder.old items.old result coder.new items.new }
    ensures height { IfOk result (λ height. (1 ≤ height) × (y + height ≤ tile.y + tile.h)) }
{
    let left = (tile.y + tile.h).saturating_sub(y);
    let room = last + 1 - slices.len() as u32;
    let field = pps_exp_slice_height_in_ctus_minus1;
    let height = code_number(field, height_limits(more == 0, left, room), coder, items)?;
    Ok(height + 1)
}

/// Appends `times` slices of a tile of one height, from CTU row `y` on.
fn push_whole(
    slices: &mut RectList,
    tile: Rect,
    y: u32,
    size: u32,
    times: u32,
) -> Result<(), AllocError>
    requires { y + times * size < 2 ^ 20 }
    ensures { OnOk result (slices.new ≡ slices.old ++ strips tile y (replicate times size)) }
{
    for turn in 0..times {
        slices.push(strip(tile, y + turn * size, size))?;
    }
    Ok(())
}

/// Appends the slices of a tile from CTU row `y` on: of this height while it fits, and a rest if there is one.
fn push_strips(slices: &mut RectList, tile: Rect, y: u32, size: u32) -> Result<(), AllocError>
    requires size { 1 ≤ size }
    requires low { tile.y + tile.h < 2 ^ 20 }
    requires inside { y ≤ tile.y + tile.h }
    ensures { OnOk result (slices.new ≡ slices.old ++ strips tile y (repeated_sizes size (tile.y + tile.h - y))) }
{
    let left = tile.y + tile.h - y;
    let (times, rest) = (left / size, left % size);
    push_whole(slices, tile, y, size, times)?;
    if rest != 0 {
        slices.push(strip(tile, y + times * size, rest))?;
    }
    Ok(())
}

/// Codes `explicit` explicit slices of a tile, and appends all slices of it.
fn code_strips<I, C: Coder<I>>(
    tile: Rect,
    last: u32,
    explicit: u32,
    slices: &mut RectList,
    coder: &mut C,
    items: &mut I,
) -> Result<(), Halt<C::Fault>>
    requires last { last < 1000 }
    requires some { 1 ≤ explicit }
    requires room { length slices.old + explicit ≤ last + 1 }
    requires low { tile.y + tile.h < 2 ^ 20 }
    ensures { Walked C.step (strips_from tile last explicit tile.y 0 slices.old) coder.old items.old (leaving slices.new result) coder.new items.new }
{
    let (mut y, mut size) = (tile.y, 0);
    for turn in 0..explicit {
        size = code_strip(tile, last, explicit - 1 - turn, y, slices, coder, items)?;
        let Ok(()) = slices.push(strip(tile, y, size)) else {
            return Err(Halt::Memory);
        };
        y += size;
    }
    match push_strips(slices, tile, y, size) {
        Ok(()) => Ok(()),
        Err(_) => Err(Halt::Memory),
    }
}

/// Codes the slices of a tile.
fn code_tile<I, C: Coder<I>>(
    tile: Rect,
    last: u32,
    slices: &mut RectList,
    coder: &mut C,
    items: &mut I,
) -> Result<(), Halt<C::Fault>>
    requires last { last < 1000 }
    requires room { length slices.old < last }
    requires low { tile.y + tile.h < 2 ^ 20 }
    ensures { Walked C.step (slices_in_tile tile last slices.old) coder.old items.old (leaving slices.new result) coder.new items.new }
{
    let room = last + 2 - slices.len() as u32;
    let explicit = code_below(pps_num_exp_slices_in_tile, room, coder, items)?;
    if explicit != 0 {
        return code_strips(tile, last, explicit, slices, coder, items);
    }
    match slices.push(tile) {
        Ok(()) => Ok(()),
        Err(_) => Err(Halt::Memory),
    }
}

/// Returns whether a slice of a width and a height in tiles, less 1, is one tile of several CTU rows.
fn may_be_cut(size: (u32, u32), rect: Rect) -> bool
    ensures { result ≡ list.may_be_cut size.0 size.1 rect }
{
    size.0 == 0 && size.1 == 0 && rect.h > 1
}

/// Codes what a slice adds that begins at `tile`, with a width and a height in tiles, less 1: itself, or the slices of the
/// tile.
fn code_slices<I, C: Coder<I>>(
    tiles: &Tiles,
    last: u32,
    tile: u32,
    size: (u32, u32),
    slices: &mut RectList,
    coder: &mut C,
    items: &mut I,
) -> Result<(), Halt<C::Fault>>
    requires grid { IsGrid tiles.now }
    requires inside { tile < across tiles.now * down tiles.now }
    requires last { last < 1000 }
    requires room { length slices.old < last }
    requires low { (size.0 < 512) × (size.1 < 512) }
    ensures { Walked C.step (slices_from_tile tiles.now last tile size.0 size.1 slices.old) coder.old items.old (leaving slices.new result) coder.new items.new }
{
    let rect = tiles.block(tile, size.0 + 1, size.1 + 1);
    if may_be_cut(size, rect) {
        return code_tile(rect, last, slices, coder, items);
    }
    match slices.push(rect) {
        Ok(()) => Ok(()),
        Err(_) => Err(Halt::Memory),
    }
}

/// Returns the cell of a step from a tile to another.
fn delta_cell(tiles: &Tiles, tile: u32) -> Cell<u32>
    requires grid { IsGrid tiles.now }
    requires inside { tile < across tiles.now * down tiles.now }
    ensures { result ≡ list.delta_cell tiles.now tile }
{
    Cell {
        field: pps_tile_idx_delta_val,
        kept: false,
        coding: Coding::SignedGolomb,
        limits: Limits::Within {
            low: -(tile as i32),
            high: tiles.count() - 1 - tile,
            fault: Fault::OutOfRange,
        },
    }
}

/// Returns the tile at a step from another.
fn tile_at(tile: u32, step: i64) -> u32
    ensures { result ≡ numbers.natural (pos tile +ℤ step) }
{
    natural(i64::from(tile).saturating_add(step))
}

/// Codes the step from a tile to the one where the next slice begins.
fn code_delta<I, C: Coder<I>>(
    tiles: &Tiles,
    tile: u32,
    coder: &mut C,
    items: &mut I,
) -> Result<u32, Halt<C::Fault>>
    requires grid { IsGrid tiles.now }
    requires inside { tile < across tiles.now * down tiles.now }
    ensures { Walked C.step (delta tiles.now tile) coder.old items.old result coder.new items.new }
{
    match coder.code(items, delta_cell(tiles, tile)) {
        Ok(step) => Ok(tile_at(tile, step)),
        Err(fault) => Err(Halt::Refused(fault)),
    }
}

/// Codes the tile where the next slice begins, after one with a width and a height in tiles, less 1.
fn code_next<I, C: Coder<I>>(
    tiles: &Tiles,
    spelled: bool,
    tile: u32,
    size: (u32, u32),
    coder: &mut C,
    items: &mut I,
) -> Result<u32, Halt<C::Fault>>
    requires grid { IsGrid tiles.now }
    requires inside { tile < across tiles.now * down tiles.now }
    requires low { (size.0 < 512) × (size.1 < 512) }
    ensures { Walked C.step (tile_after tiles.now spelled tile size.0 size.1) coder.old items.old result coder.new items.new }
{
    if spelled {
        return code_delta(tiles, tile, coder, items);
    }
    let (width, height) = size;
    Ok(tiles.tile_behind(tile, width + 1, height + 1))
}

/// Returns whether the step to the next slice is coded.
fn spells_delta(deltas: bool, slices: &RectList, last: u32) -> bool
    ensures { result ≡ list.spells_delta deltas slices.now last }
{
    deltas && slices.len() <= last as usize
}

/// Codes one turn of the list.
#[tactic(auto, using(crate::proofs::Walking::then, crate::proofs::Walking::stop))]
fn code_turn<I, C: Coder<I>>(
    tiles: &Tiles,
    last: u32,
    deltas: bool,
    listed: &mut Listed,
    coder: &mut C,
    items: &mut I,
) -> Result<(), Halt<C::Fault>>
    requires grid { IsGrid tiles.now }
    requires last { last < 1000 }
    requires room { length listed.old.slices < last }
    requires inside { listed.old.next < across tiles.now * down tiles.now }
    requires before { listed.old.before < 512 }
    ensures walk { Walked C.step (turn tiles.now last deltas listed.old) coder.old items.old (leaving listed.new result) coder.new items.new }
    ensures before { OnOk result (listed.new.before < 512) }
{
    let tile = listed.next;
    let width = code_width(tiles, tile, coder, items)?;
    let height = code_height(tiles, deltas, tile, listed.before, coder, items)?;
    let size = (width, height);
    code_slices(tiles, last, tile, size, &mut listed.slices, coder, items)?;
    let spelled = spells_delta(deltas, &listed.slices, last);
    listed.next = code_next(tiles, spelled, tile, size, coder, items)?;
    listed.before = height;
    Ok(())
}

/// Returns whether a slice before the last is left and begins at a tile of the picture.
fn goes_on(tiles: &Tiles, last: u32, listed: &Listed) -> bool
    requires { IsGrid tiles.now }
    ensures { result ≡ list.goes_on tiles.now last listed.now }
{
    listed.slices.len() < last as usize && listed.next < tiles.count()
}

/// Codes turns of the list while slices before the last are left.
fn code_turns<I, C: Coder<I>>(
    tiles: &Tiles,
    last: u32,
    deltas: bool,
    listed: &mut Listed,
    coder: &mut C,
    items: &mut I,
) -> Result<(), Halt<C::Fault>>
    requires grid { IsGrid tiles.now }
    requires last { last < 1000 }
    requires before { listed.old.before < 512 }
    ensures { Walked C.step (turns_from tiles.now last deltas last listed.old) coder.old items.old (leaving listed.new result) coder.new items.new }
{
    for turn in 0..last {
        if !goes_on(tiles, last, listed) {
            return Ok(());
        }
        code_turn(tiles, last, deltas, listed, coder, items)?;
    }
    Ok(())
}

/// Returns the slices with the last one, if the list doesn't extend past the tiles.
fn all_slices(tiles: &Tiles, last: u32, listed: Listed) -> Result<Option<RectList>, AllocError>
    requires { IsGrid tiles.now }
    ensures { IfOk result (λ slices. slices ≡ list.all_slices tiles.now last listed) }
{
    let Listed {
        mut slices,
        next,
        ..
    } = listed;
    if slices.len() > last as usize {
        return Ok(Some(slices));
    }
    if next >= tiles.count() {
        return Ok(None);
    }
    let wide = tiles.across() - tiles.column(next);
    let high = tiles.down() - tiles.row(next);
    slices.push(tiles.block(next, wide, high))?;
    Ok(Some(slices))
}

/// Codes the slice list of a picture of `last` + 1 slices, and returns the slices if it doesn't extend past the tiles.
pub(crate) fn code_list<I, C: Coder<I>>(
    alloc: Global,
    tiles: &Tiles,
    last: u32,
    deltas: bool,
    coder: &mut C,
    items: &mut I,
) -> Result<Option<RectList>, Halt<C::Fault>>
    requires grid { IsGrid tiles.now }
    requires last { last < 1000 }
    ensures { Walked C.step (list_from tiles.now last deltas) coder.old items.old result coder.new items.new }
{
    let mut listed = Listed {
        slices: RectList::new(alloc),
        next: 0,
        before: 0,
    };
    code_turns(tiles, last, deltas, &mut listed, coder, items)?;
    match all_slices(tiles, last, listed) {
        Ok(slices) => Ok(slices),
        Err(_) => Err(Halt::Memory),
    }
}
