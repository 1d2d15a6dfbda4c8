//! Bytes drawn from a seed.
ghost use Rattle.std.specs.Prelude.{◌≡◌, ℕ, ◌+◌};
ghost use Rattle.vx_gen.specs.Draws.{byte_of, next, payload, state};

/// A generator of bytes.
#[derive(Drop)]
pub(crate) struct Draws {
    /// What the last byte was made from, or the seed.
    pub(crate) state: u32,
}

impl Draws {
    /// Makes a generator from a seed.
    pub(crate) fn new(seed: u32) -> Draws
        ensures { result.state ≡ seed }
    {
        Draws { state: seed }
    }

    /// Returns the next byte, which is never 0.
    #[tactic(auto, using(crate::proofs::Drawing::goes_on, crate::proofs::Drawing::gives))]
    fn byte(&mut self) -> u8
        ensures byte { result ≡ byte_of self.new.state }
        ensures goes_on { self.new.state ≡ next self.old.state }
    {
        self.state = self
            .state
            .wrapping_mul(1_664_525)
            .wrapping_add(1_013_904_223);
        let high = (self.state >> 16) % 256;
        1 + (high % 255) as u8
    }

    /// Returns the data of a slice: five drawn bytes, and 80, which ends the RBSP (H.266 7.3.2.14).
    pub(crate) fn payload(&mut self) -> [u8; 6]
        ensures bytes { (seed n : ℕ) → self.old.state ≡ state seed n → result ≡ payload seed n }
        ensures goes_on { (seed n : ℕ) → self.old.state ≡ state seed n → self.new.state ≡ state seed (n + 5) }
    {
        let first = self.byte();
        let second = self.byte();
        let third = self.byte();
        let fourth = self.byte();
        let fifth = self.byte();
        [first, second, third, fourth, fifth, 0x80]
    }
}
