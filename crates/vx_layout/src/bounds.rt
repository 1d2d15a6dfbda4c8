//! Bounds of tile columns or tile rows, and how they follow from explicit sizes.
ghost use Rattle.std.specs.Prelude.{◌≡◌, ℕ, ◌+◌, ◌-◌, ◌<◌, ◌≤◌, List, [], ◌∷◌, ◌++◌, length, sum, All, OnOk, OnErr, IfOk, IfErr, slice_get, slice_index, Some};
ghost use Rattle.vx_layout.specs.Bounds.{Rises, PassesFirstAt, bounds_of, last, repeated_sizes, sums_after};
ghost use Rattle.vx_layout.specs.TileErrors.{IfOverflow};

use std::alloc::{AllocError, Global};
use std::marker::Model;
use thiserror::Error;

/// A list of numbers that rises from 0: the bounds of tile columns or tile rows, in CTUs (H.266 6.5.1).
///
/// Each tile column or row lies between two neighbouring numbers, and the last number is the picture's width or height.
#[derive(Drop)]
pub struct Bounds {
    numbers: Vec<u32>,
}

impl Model for Bounds {
    ghost use Rattle.std.specs.Prelude.{ℕ, List};
    ghost use Rattle.vx_layout.specs.Bounds.{Rises};

    ghost Value = { List ℕ };

    ghost view = { λ b. b.numbers.items };

    ghost invariant = { λ b. Rises b.numbers.items };
}

impl Bounds {
    ghost use Rattle.std.specs.Prelude.{◌≡◌, ℕ, ◌+◌, ◌<◌, List, [], ◌∷◌, ◌++◌, Contains, length, OnOk, OnErr, slice_get, slice_index, Some, MatchOption};
    ghost use Rattle.std.specs.Bool.{OnTrue, OnFalse};
    ghost use Rattle.vx_layout.specs.Bounds.{Rises, last};

    /// Returns an empty list. Takes no memory.
    pub fn new(alloc: Global) -> Bounds
        ensures { result ≡ [] }
    {
        Bounds {
            numbers: Vec::new(alloc),
        }
    }

    /// Appends a bound. The first is 0, and each other is above the one before it.
    ///
    /// # Errors
    ///
    /// `AllocError` if memory runs out. The list is then unchanged.
    pub fn push(&mut self, entry: u32) -> Result<(), AllocError>
        requires { Rises (self.old ++ entry ∷ []) }
        ensures ok { OnOk result (self.new ≡ self.old ++ entry ∷ []) }
        ensures err { OnErr result (self.new ≡ self.old) }
    {
        self.numbers.push(entry)?;
        Ok(())
    }

    /// Returns the number of bounds.
    pub fn len(&self) -> usize
        ensures value { result ≡ length self.now }
        ensures rises { Rises self.now }
    {
        self.numbers.len()
    }

    /// Returns the bound at index `i`, from 0.
    pub fn item(&self, i: usize) -> u32
        requires { i < length self.now }
        ensures value { slice_get self.now i ≡ Some result }
        ensures index { result ≡ slice_index self.now i }
    {
        self.numbers[i]
    }

    /// Returns the last bound: the picture's width or height.
    pub fn last(&self) -> u32
        requires { 0 < length self.now }
        ensures value { result ≡ last self.now }
        ensures rises { Rises self.now }
    {
        self.numbers[self.numbers.len() - 1]
    }

    /// Returns whether a number is a bound. Takes time with the logarithm of the number of bounds.
    pub fn has(&self, number: u32) -> bool
        ensures found { OnTrue result (Contains self.now number) }
        ensures missing { OnFalse result (¬ Contains self.now number) }
        ensures rises { Rises self.now }
    {
        self.numbers.binary_search(&number).is_ok()
    }

    /// Returns the index of a number, or `None` if it is no bound. Takes time with the logarithm of the number of bounds.
    pub fn index_of(&self, number: u32) -> Option<usize>
        ensures index { MatchOption result (¬ Contains self.now number) (λ i. (i < length self.now) × (slice_index self.now i ≡ number)) }
        ensures rises { Rises self.now }
    {
        self.numbers.binary_search(&number).ok()
    }
}

/// The reason why explicit sizes give no bounds.
#[derive(Clone, Copy, Debug, PartialEq, Eq, Error)]
pub enum TileError {
    /// Memory ran out.
    #[error("out of memory")]
    Memory,
    /// The sum of the explicit sizes first exceeds the total at this index.
    #[error("the sizes pass the total")]
    Overflow(usize),
}

impl From<AllocError> for TileError {
    ghost use Rattle.std.specs.Prelude.{◌≡◌};
    ghost use Rattle.vx_layout.specs.declared.bounds.TileError.TheVariants.{Memory as OutOfMemory};

    ghost from_gives = { λ _ e. e ≡ OutOfMemory };

    fn from(_error: AllocError) -> TileError {
        TileError::Memory
    }
}

/// Returns the bounds of tile columns or rows of `total` CTUs, from their explicit sizes (H.266 6.5.1).
///
/// The last explicit size is repeated while it fits, and the rest is one more tile column or row.
///
/// # Errors
///
/// - `Overflow(i)` exactly if the sum of the explicit sizes first exceeds the total at index `i`.
/// - `Memory` if memory runs out.
pub fn tile_bounds(alloc: Global, explicit: &[u32], total: u32) -> Result<Bounds, TileError>
    requires some { 0 < length explicit.now }
    requires sizes { All (λ size. 1 ≤ size) explicit.now }
    requires total { 1 ≤ total }
    ensures bounds { IfOk result (λ b. b ≡ bounds_of explicit.now total) }
    ensures fits { OnOk result (sum explicit.now ≤ total) }
    ensures overflow { IfErr result (λ e. IfOverflow e (PassesFirstAt explicit.now total)) }
{
    let mut bounds = Bounds::new(alloc);
    bounds.push(0)?;
    let at = push_explicit(&mut bounds, explicit, total)?;
    let size = explicit[explicit.len() - 1];
    push_repeated(&mut bounds, at, size, total)?;
    Ok(bounds)
}

/// Appends the sums of the explicit sizes, and returns the last of them.
fn push_explicit(bounds: &mut Bounds, explicit: &[u32], total: u32) -> Result<u32, TileError>
    requires start { bounds.old ≡ 0 ∷ [] }
    requires sizes { All (λ size. 1 ≤ size) explicit.now }
    ensures sums { OnOk result (bounds.new ≡ 0 ∷ sums_after 0 explicit.now) }
    ensures at { IfOk result (λ at. (at ≡ sum explicit.now) × (at ≤ total) × (last bounds.new ≡ at)) }
    ensures rises { OnOk result (Rises bounds.new) }
    ensures overflow { IfErr result (λ e. IfOverflow e (PassesFirstAt explicit.now total)) }
{
    let mut at = 0;
    for (i, size) in explicit.iter().enumerate() {
        if *size > total - at {
            return Err(TileError::Overflow(i));
        }
        at += *size;
        bounds.push(at)?;
    }
    Ok(at)
}

/// Appends the sums of the sizes after the explicit ones, from `at` on.
fn push_repeated(bounds: &mut Bounds, mut at: u32, size: u32, total: u32) -> Result<(), AllocError>
    requires rises { Rises bounds.old }
    requires last { (0 < length bounds.old) × (last bounds.old ≡ at) }
    requires size { 1 ≤ size }
    requires total { at ≤ total }
    ensures { OnOk result (bounds.new ≡ bounds.old ++ sums_after at (repeated_sizes size (total - at))) }
{
    while size <= total - at {
        at += size;
        bounds.push(at)?;
    }
    if at < total {
        bounds.push(total)?;
    }
    Ok(())
}
