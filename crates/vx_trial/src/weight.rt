//! The weight of bytes.
ghost use Rattle.std.specs.Prelude.{◌≡◌, ◌++◌, List, ℕ, []};
ghost use Rattle.vx_trial.specs.Trial as words;
ghost use Rattle.vx_trial.specs.inner.Weighing.{Weighs};

/// The weight of bytes that come in pieces.
///
/// It is the sum of each byte times its place, counted from 1, modulo 2^32.
#[derive(Clone, Copy, PartialEq, Eq)]
pub(crate) struct Weight {
    /// The place of the next byte.
    place: u32,
    sum: u32,
}

impl Weight {
    ghost use Rattle.std.specs.Prelude.{◌≡◌, ◌++◌, List, ℕ, []};
    ghost use Rattle.vx_trial.specs.Trial as words;
    ghost use Rattle.vx_trial.specs.inner.Weighing.{Weighs};

    /// Returns the weight of no bytes.
    pub(crate) fn new() -> Weight
        ensures { Weighs [] result }
    {
        Weight { place: 1, sum: 0 }
    }

    /// Adds bytes after the earlier ones.
    pub(crate) fn add(&mut self, bytes: &[u8])
        ensures { (before : List ℕ) → Weighs before self.old → Weighs (before ++ bytes.now) self.new }
    {
        for byte in bytes {
            self.sum = self
                .sum
                .wrapping_add(self.place.wrapping_mul(u32::from(*byte)));
            self.place = self.place.wrapping_add(1);
        }
    }

    /// Returns the weight of all bytes.
    pub(crate) fn of_all(self) -> u32
        ensures { (bytes : List ℕ) → Weighs bytes self → result ≡ words.weight bytes }
    {
        self.sum
    }
}
