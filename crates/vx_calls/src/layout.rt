//! Tiles, slices and subpictures of a picture.
ghost use Rattle.std.specs.Prelude.{◌≤◌, ◌<◌, ◌≡◌, length, IfOk};
ghost use Rattle.std.specs.Bool.{OnTrue};
ghost use Rattle.vx_layout.specs.Faults.{IsInLimits};
ghost use Rattle.vx_layout.specs.Layouts.{slices_in};

use crate::words::{mark, numbers_of, push_gap};
use anyhow::{Context, Result, bail};
use std::alloc::{AllocError, Global};
use vx_layout::{Bounds, Layout, LayoutError, Numbers, Rect, RectList, TileError, tile_bounds};

/// - `bounds SIZES/TOTAL` prints the bounds of tile columns or tile rows of these explicit sizes, and `has SIZES/TOTAL NUMBER ..` which
///   numbers are among them.
/// - `precedes RECT RECT` prints whether no CTU of the first rectangle has its left or upper neighbour in the second.
/// - `layout COLUMNS ROWS SLICES SUBPICTURES` prints the fault of numbers, or of each subpicture its slices, each with its entry points
///   without and with synchronization, and the subpicture as a picture of its own. COLUMNS and ROWS are SIZES/TOTAL, and SLICES and
///   SUBPICTURES are rectangles with `;` between them. `RECT*N*M` are M rectangles like this one in rows of N side by side.
pub(crate) fn answer(text: &mut String, alloc: Global, verb: &str, words: &[&str]) -> Result<()> {
    match (verb, words) {
        ("bounds", [sizes]) => tell_tiles(text, alloc, sizes),
        ("has", [sizes, numbers @ ..]) => tell_has(text, alloc, sizes, numbers),
        ("precedes", [one, other]) => tell_precedes(text, alloc, one, other),
        ("layout", [columns, rows, slices, subpics]) => {
            tell_picture(text, alloc, columns, rows, slices, subpics)
        }
        _ => bail!("no such call of layouts"),
    }
}

/// Returns what explicit sizes and a total, `SIZES/TOTAL`, give.
fn tiles(alloc: Global, word: &str) -> Result<Result<Bounds, TileError>> {
    let (sizes, total) = word.split_once('/').context("no total")?;
    tiles_within(alloc, sizes, total.parse::<u32>()?)
}

/// Returns what explicit sizes give within a total.
fn tiles_within(alloc: Global, sizes: &str, total: u32) -> Result<Result<Bounds, TileError>> {
    let sizes = numbers_of(alloc, sizes)?;
    if sizes.is_empty() || total < 1 {
        bail!("no sizes");
    }
    if !sizes.iter().all(|size| 1 <= *size) {
        bail!("a size of 0");
    }
    Ok(tile_bounds(alloc, &sizes, total))
}

/// Returns the bounds of explicit sizes and a total, `SIZES/TOTAL`.
fn bounds_of(alloc: Global, word: &str) -> Result<Bounds> {
    Ok(tiles(alloc, word)??)
}

/// Returns the bounds of explicit sizes within a total.
pub(crate) fn bounds_within(alloc: Global, sizes: &str, total: u32) -> Result<Bounds> {
    Ok(tiles_within(alloc, sizes, total)??)
}

/// Appends the bounds of sizes, or why there are none.
fn tell_tiles(text: &mut String, alloc: Global, sizes: &str) -> Result<()> {
    match tiles(alloc, sizes)? {
        Ok(bounds) => Ok(push_bounds(text, &bounds)?),
        Err(error) => Ok(write!(text, "{error:?}")?),
    }
}

/// Appends for numbers whether they are bounds of sizes.
fn tell_has(text: &mut String, alloc: Global, sizes: &str, numbers: &[&str]) -> Result<()> {
    let bounds = bounds_of(alloc, sizes)?;
    push_has(text, &bounds, numbers)
}

/// Appends for numbers whether they are bounds.
fn push_has(text: &mut String, bounds: &Bounds, numbers: &[&str]) -> Result<()> {
    for number in numbers {
        push_gap(text)?;
        write!(text, "{}", bounds.has(number.parse::<u32>()?))?;
    }
    Ok(())
}

/// Appends whether a rectangle precedes another.
fn tell_precedes(text: &mut String, alloc: Global, one: &str, other: &str) -> Result<()> {
    let (one, other) = (rect_of(alloc, one)?, rect_of(alloc, other)?);
    Ok(write!(text, "{}", one.precedes(&other))?)
}

/// Returns the rectangle of its four numbers.
pub(crate) fn rect_of(alloc: Global, word: &str) -> Result<Rect> {
    match numbers_of::<u32>(alloc, word)?.as_slice() {
        [x, y, w, h] => Ok(Rect {
            x: *x,
            y: *y,
            w: *w,
            h: *h,
        }),
        _ => bail!("no rectangle"),
    }
}

/// Appends the rectangles of words with `;` between them.
fn push_rects_of(rects: &mut RectList, alloc: Global, words: &str) -> Result<()> {
    for word in words.split(';') {
        push_rects_of_word(rects, alloc, word)?;
    }
    Ok(())
}

/// Appends the rectangles of one word.
fn push_rects_of_word(rects: &mut RectList, alloc: Global, word: &str) -> Result<()> {
    let (rect, counts) = word.split_once('*').unwrap_or((word, "1*1"));
    let (across, count) = counts.split_once('*').context("no count")?;
    let rect = rect_of(alloc, rect)?;
    Ok(repeat(rects, rect, across.parse::<u32>()?, count.parse::<u32>()?)?)
}

/// Appends rectangles like this one, from it on, this many side by side.
fn repeat(rects: &mut RectList, rect: Rect, across: u32, count: u32) -> Result<(), AllocError> {
    let across = across.max(1);
    for i in 0..count {
        rects.push(Rect {
            x: rect.x.saturating_add((i % across).saturating_mul(rect.w)),
            y: rect.y.saturating_add((i / across).saturating_mul(rect.h)),
            ..rect
        })?;
    }
    Ok(())
}

/// Returns whether numbers are within the limits of a picture.
fn is_in_limits(n: &Numbers) -> bool
    ensures { OnTrue result (IsInLimits n.now) }
{
    if n.columns.len() < 2 || n.rows.len() < 2 {
        return false;
    }
    if n.columns.last() > 512 || n.rows.last() > 512 {
        return false;
    }
    is_some_and_few(&n.slices) && is_some_and_few(&n.subpics)
}

/// Returns whether there are 1 to 1000.
fn is_some_and_few(rects: &RectList) -> bool
    ensures { OnTrue result ((1 ≤ length rects.now) × (length rects.now ≤ 1000)) }
{
    1 <= rects.len() && rects.len() <= 1000
}

/// Appends the picture of these tile columns and tile rows, slices and subpictures.
fn tell_picture(
    text: &mut String,
    alloc: Global,
    columns: &str,
    rows: &str,
    slices: &str,
    subpics: &str,
) -> Result<()> {
    let mut picture = empty_picture(alloc, bounds_of(alloc, columns)?, bounds_of(alloc, rows)?);
    push_both(&mut picture, alloc, slices, subpics)?;
    answer_layout(text, alloc, picture)
}

/// Returns a picture of these tile columns and tile rows without slices.
pub(crate) fn empty_picture(alloc: Global, columns: Bounds, rows: Bounds) -> Numbers {
    Numbers {
        columns,
        rows,
        slices: RectList::new(alloc),
        subpics: RectList::new(alloc),
    }
}

/// Appends slices and subpictures to a picture.
fn push_both(picture: &mut Numbers, alloc: Global, slices: &str, subpics: &str) -> Result<()> {
    push_rects_of(&mut picture.slices, alloc, slices)?;
    push_rects_of(&mut picture.subpics, alloc, subpics)
}

/// Appends the numbers of a picture.
fn answer_layout(text: &mut String, alloc: Global, numbers: Numbers) -> Result<()> {
    if !is_in_limits(&numbers) {
        bail!("outside the limits of a picture");
    }
    let count = numbers.subpics.len() as u32;
    tell_layout(text, alloc, &Layout::new(alloc, numbers), count)
}

/// Appends a layout, or why there is none.
fn tell_layout(
    text: &mut String,
    alloc: Global,
    layout: &Result<Layout, LayoutError>,
    count: u32,
) -> Result<()>
    requires { IfOk layout.now (λ layout. length layout.subpics ≡ count) }
{
    match layout {
        Ok(layout) => Ok(push_subpics(text, alloc, layout, count)?),
        Err(LayoutError::Fault(fault)) => Ok(write!(text, "fault {fault}")?),
        Err(LayoutError::Memory) => bail!("out of memory"),
    }
}

/// Appends the subpictures of a layout.
fn push_subpics(
    text: &mut String,
    alloc: Global,
    layout: &Layout,
    count: u32,
) -> Result<(), AllocError>
    requires { length layout.now.subpics ≡ count }
{
    for subpic in 0..count {
        push_subpic(text, alloc, layout, subpic)?;
    }
    Ok(())
}

/// Appends a subpicture: its slices, and itself as a picture of its own.
fn push_subpic(
    text: &mut String,
    alloc: Global,
    layout: &Layout,
    subpic: u32,
) -> Result<(), AllocError>
    requires { subpic < length layout.now.subpics }
{
    text.push_str(mark(subpic as usize, " | "))?;
    push_slices(text, layout, subpic)?;
    push_region(text, &layout.region(alloc, subpic)?)
}

/// Appends the slices of a subpicture.
fn push_slices(text: &mut String, layout: &Layout, subpic: u32) -> Result<(), AllocError>
    requires { subpic < length layout.now.subpics }
{
    for address in 0..layout.slice_count(subpic) {
        text.push_str(mark(address as usize, ";"))?;
        push_slice(text, layout, subpic, address)?;
    }
    Ok(())
}

/// Appends a slice: its rectangle, and its entry points without and with synchronization.
fn push_slice(
    text: &mut String,
    layout: &Layout,
    subpic: u32,
    address: u32,
) -> Result<(), AllocError>
    requires subpic { subpic < length layout.now.subpics }
    requires address { address < length (slices_in layout.now subpic) }
{
    push_rect(text, layout.slice_rect(subpic, address))?;
    let plain = layout.entry_points(subpic, address, false);
    let synced = layout.entry_points(subpic, address, true);
    write!(text, "/{plain}/{synced}")
}

/// Appends a picture.
fn push_region(text: &mut String, region: &Numbers) -> Result<(), AllocError> {
    text.push_str(" alone ")?;
    push_bounds(text, &region.columns)?;
    text.push_str(" ")?;
    push_bounds(text, &region.rows)?;
    text.push_str(" ")?;
    push_rects(text, &region.slices)?;
    text.push_str(" ")?;
    push_rects(text, &region.subpics)
}

/// Appends bounds.
pub(crate) fn push_bounds(text: &mut String, bounds: &Bounds) -> Result<(), AllocError> {
    for i in 0..bounds.len() {
        write!(text, "{}{}", mark(i, ","), bounds.item(i))?;
    }
    Ok(())
}

/// Appends a rectangle.
fn push_rect(text: &mut String, rect: Rect) -> Result<(), AllocError> {
    let Rect { x, y, w, h } = rect;
    write!(text, "{x},{y},{w},{h}")
}

/// Appends rectangles.
fn push_rects(text: &mut String, rects: &RectList) -> Result<(), AllocError> {
    for (i, rect) in rects.iter().enumerate() {
        text.push_str(mark(i, ";"))?;
        push_rect(text, *rect)?;
    }
    Ok(())
}
