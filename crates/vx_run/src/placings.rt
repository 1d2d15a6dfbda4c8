//! Arguments `X,Y=FILE`, which place files.

ghost use Rattle.std.specs.Prelude.{◌<◌, ◌↔◌, All, IsTrue, MatchOption, length};
ghost use Rattle.std.specs.List.{AllByRecursion};
ghost use Rattle.vx_run.specs.Grammar.{texts};
ghost use Rattle.vx_run.specs.inner.Placings.{IsPlacingWord, PlaceFiles, Spells, SpellsItsParts, placed};

use crate::words::number;
use std::alloc::{AllocError, Global};
use vx_merge::Corner;

/// A file of a merge, and the upper left corner of its region in luma samples.
#[derive(Clone, Copy)]
pub(crate) struct Placing<'a> {
    pub x: u32,
    pub y: u32,
    pub file: &'a str,
}

impl Placing<'_> {
    ghost use Rattle.std.specs.Prelude.{◌≡◌};
    ghost use Rattle.vx_run.specs.Merge.{corner_of};
    ghost use Rattle.vx_run.specs.inner.Placings.{placed};

    /// Returns the corner of the region.
    pub(crate) fn corner(&self) -> Corner
        ensures { result ≡ corner_of (placed self.now) }
    {
        Corner {
            x: self.x,
            y: self.y,
        }
    }
}

/// The highest coordinate of a corner that arguments may name.
const MOST_CORNER: u32 = 16_383;

/// Arguments that were parsed: there is at least one, and each is `X,Y=FILE`.
#[derive(Clone, Copy)]
pub(crate) struct Placings<'a> {
    words: &'a [String],
    ghost some: { 0 < length words.now },
    ghost each: { All SpellsItsParts (texts words.now) },
}

impl<'a> Placings<'a> {
    ghost use Rattle.std.specs.Prelude.{◌≡◌, ◌<◌, Some, IfOk, MatchOption, length, map, slice_get, option_copied};
    ghost use Rattle.vx_run.specs.Grammar.{texts};
    ghost use Rattle.vx_run.specs.Merge.{corners_of as corners_by};
    ghost use Rattle.vx_run.specs.inner.Placings.{PlaceFiles, placed, spelled};

    /// Takes these arguments if there are some and each is `X,Y=FILE`.
    pub(crate) fn of(words: &'a [String]) -> Option<Placings<'a>>
        ensures { MatchOption result (PlaceFiles (texts words.now) → ⊥) (λ p. p.words.now ≡ words.now) }
    {
        if !place_files(words) {
            return None;
        }
        Some(Placings { words })
    }

    /// Returns how many there are.
    pub(crate) fn len(&self) -> usize
        ensures { result ≡ length self.now.words.now }
    {
        self.words.len()
    }

    /// Returns number `k`, from 0.
    pub(crate) fn at(&self, k: usize) -> Placing<'a>
        requires { k < length self.now.words.now }
        ensures { slice_get (spelled self.now.words.now) k ≡ Some (placed result) }
    {
        placing_of(self.words[k].as_str()).unwrap()
    }

    /// Returns the file of number `k`, if there is one.
    pub(crate) fn file(&self, k: usize) -> Option<&'a str>
        ensures { option_copied result ≡ slice_get (map (λ p. p.file) (spelled self.now.words.now)) k }
    {
        if k >= self.len() {
            return None;
        }
        Some(self.at(k).file)
    }

    /// Returns the corner of each file's region, in order.
    pub(crate) fn corners(&self, alloc: Global) -> Result<Vec<Corner>, AllocError>
        ensures { IfOk result (λ corners. corners.items ≡ corners_by (spelled self.now.words.now)) }
    {
        let mut corners = Vec::new(alloc);
        for k in 0..self.len() {
            corners.push(self.at(k).corner())?;
        }
        Ok(corners)
    }
}

/// Returns whether there are arguments and each is `X,Y=FILE`.
fn place_files(words: &[String]) -> bool
    ensures { IsTrue result ↔ PlaceFiles (texts words.now) }
{
    if words.is_empty() {
        return false;
    }
    are_placings(words)
}

/// Returns whether each argument is `X,Y=FILE`.
fn are_placings(words: &[String]) -> bool
    ensures { IsTrue result ↔ AllByRecursion IsPlacingWord (texts words.now) }
{
    for word in words {
        if placing_of(word.as_str()).is_none() {
            return false;
        }
    }
    true
}

/// Parses an argument `X,Y=FILE`.
fn placing_of(word: &str) -> Option<Placing<'_>>
    ensures { MatchOption result (IsPlacingWord word.now → ⊥) (λ p. Spells word.now (placed p)) }
{
    let (corner, file) = word.split_once('=')?;
    let (x, y) = corner.split_once(',')?;
    let x = number(x, MOST_CORNER)?;
    let y = number(y, MOST_CORNER)?;
    if file.is_empty() {
        return None;
    }
    Some(Placing { x, y, file })
}
