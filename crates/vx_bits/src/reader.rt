//! Reading: codes are taken from the start of bytes.
ghost use Rattle.std.specs.Prelude.{◌≡◌, ◌≢◌, ◌↔◌, ◌⊎◌, ℕ, ◌+◌, ◌-◌, ◌*◌, ◌/◌, ◌%◌, ◌^◌, ◌<◌, ◌≤◌, Bool, true, List, [], ◌++◌, length, take, drop, min, Contains, MatchOption, IfOk, IfErr, OnOk, OnErr, IsErrOf};
ghost use Rattle.vx_bits.specs.Codes.{number, fixed, exp_golomb, signed_exp_golomb, code_number, bits_of, to_boundary, zeros_from, one_from, IsCodeNumber, BeginsWith, EndsWithinCode, BeginsTooLong};
ghost use Rattle.vx_bits.specs.Place.{Place, Takes, taken};
ghost use Rattle.vx_bits.specs.inner.Window.{bits_ahead, IsWindow};
ghost use Rattle.vx_bits.specs.inner.Zeros.{zeros_in_front};
ghost use Rattle.vx_bits.specs.Limits.{unit_limit};

use crate::refusal::BitCause;
use crate::window::{Window, filled};
use std::marker::Model;

/// A reader that takes bits from the start of bytes, the highest bit of each byte first.
///
/// No call takes memory, and a call that returns an error leaves the reader unchanged. *Model:* the number of
/// all its bits, and the bits left.
#[derive(Drop)]
pub struct BitReader<'a> {
    bytes: &'a [u8],
    window: Window,
}

impl<'a> Model for BitReader<'a> {
    ghost Value = { Place };

    ghost view = { λ r. record { total = 8 * length r.bytes.now; left = bits_ahead r.bytes.now r.window } };

    ghost invariant = { λ r. (length r.bytes.now ≤ unit_limit) × IsWindow r.bytes.now r.window };
}

impl<'a> BitReader<'a> {
    /// Returns a reader of all bits of `bytes`, which has at most 2^23 bytes.
    pub fn new(bytes: &'a [u8]) -> BitReader<'a>
        requires { length bytes.now ≤ unit_limit }
        ensures total { result.total ≡ 8 * length bytes.now }
        ensures left { result.left ≡ bits_of bytes.now }
    {
        BitReader {
            bytes,
            window: Window {
                word: 0,
                held: 0,
                next: 0,
            },
        }
    }

    /// Returns the number of bits taken.
    #[inline(always)]
    pub fn at(&self) -> u32
        ensures taken { result ≡ taken self.now }
        ensures within { result + length self.now.left ≡ self.now.total }
    {
        8 * self.window.next - self.window.held
    }

    /// Returns a second reader at the same place, which is then independent of this one.
    #[inline(always)]
    pub fn fork(&self) -> BitReader<'a>
        ensures { result ≡ self.now }
    {
        BitReader {
            bytes: self.bytes,
            window: self.window,
        }
    }

    /// Returns the number of bits left.
    #[inline(always)]
    fn left(&self) -> u32
        ensures { result ≡ length self.now.left }
    {
        8 * (self.bytes.len() as u32 - self.window.next) + self.window.held
    }

    /// Returns the number that the next `count` bits represent, without taking them.
    #[inline(always)]
    fn next_bits(&mut self, count: u32) -> u64
        requires count { count ≤ 32 }
        requires within { count ≤ length self.old.left }
        ensures value { result ≡ number (take count self.old.left) }
        ensures same { self.new ≡ self.old }
    {
        self.window = filled(self.bytes, self.window, count);
        self.window.word >> (self.window.held - count)
    }

    /// Takes the next `count` bits, and returns the number that they represent.
    #[inline(always)]
    fn read_bits(&mut self, count: u32) -> u64
        requires count { count ≤ 32 }
        requires within { count ≤ length self.old.left }
        ensures value { result ≡ number (take count self.old.left) }
        ensures left { self.new.left ≡ drop count self.old.left }
        ensures total { self.new.total ≡ self.old.total }
    {
        let Window { word, held, next } = filled(self.bytes, self.window, count);
        let held = held - count;
        self.window = Window {
            word: word % (1 << held),
            held,
            next,
        };
        word >> held
    }

    /// Takes u(n): the next `n` bits, at most 32 (H.266 7.2).
    ///
    /// # Errors
    ///
    /// `Short` if fewer than `n` bits are left.
    #[inline(always)]
    pub fn u(&mut self, n: u32) -> Result<u64, BitCause>
        requires { n ≤ 32 }
        ensures value { IfOk result (λ v. (v < 2 ^ n) × Takes (fixed n v) self.old self.new) }
        ensures short { IsErrOf result BitCause.Short ↔ (length self.old.left < n) }
        ensures cause { IfErr result (λ cause. cause ≡ BitCause.Short) }
        ensures unchanged { OnErr result (self.new ≡ self.old) }
    {
        if self.left() < n {
            return Err(BitCause::Short);
        }
        Ok(self.read_bits(n))
    }

    /// Returns the number of zeros that come next; it counts at most 32.
    #[inline(always)]
    fn zeros(&mut self) -> u32
        ensures value { result ≡ zeros_in_front (take 32 self.old.left) }
        ensures same { self.new ≡ self.old }
    {
        let window = self.left().min(32);
        self.next_bits(window).leading_zeros() - (64 - window)
    }

    /// Takes ue(v) (H.266 clause 9.2).
    ///
    /// # Errors
    ///
    /// - `Short` if the bits end within a code.
    /// - `LongCode` if 32 zeros come next.
    #[inline(always)]
    pub fn ue(&mut self) -> Result<u32, BitCause>
        ensures value { IfOk result (λ v. IsCodeNumber v × Takes (exp_golomb v) self.old self.new) }
        ensures short { IsErrOf result BitCause.Short ↔ EndsWithinCode self.old.left }
        ensures long { IsErrOf result BitCause.LongCode ↔ BeginsTooLong self.old.left }
        ensures cause { IfErr result
            (λ cause. (cause ≡ BitCause.Short) ⊎ (cause ≡ BitCause.LongCode)) }
        ensures unchanged { OnErr result (self.new ≡ self.old) }
    {
        let left = self.left();
        let zeros = self.zeros();
        if zeros == 32 {
            return Err(BitCause::LongCode);
        }
        if left < 2 * zeros + 1 {
            return Err(BitCause::Short);
        }
        self.read_bits(zeros);
        let code = self.read_bits(zeros + 1);
        Ok((code - 1) as u32)
    }

    /// Takes se(v) (H.266 clause 9.2).
    ///
    /// # Errors
    ///
    /// As [`BitReader::ue`].
    #[inline(always)]
    pub fn se(&mut self) -> Result<i32, BitCause>
        ensures value { IfOk result
            (λ v. IsCodeNumber (code_number v) × Takes (signed_exp_golomb v) self.old self.new) }
        ensures short { IsErrOf result BitCause.Short ↔ EndsWithinCode self.old.left }
        ensures long { IsErrOf result BitCause.LongCode ↔ BeginsTooLong self.old.left }
        ensures cause { IfErr result
            (λ cause. (cause ≡ BitCause.Short) ⊎ (cause ≡ BitCause.LongCode)) }
        ensures unchanged { OnErr result (self.new ≡ self.old) }
    {
        let code = self.ue()?;
        Ok(signed(code))
    }

    /// Returns the number of bits up to the next byte boundary.
    fn to_next_byte(&self) -> u32
        ensures value { result ≡ to_boundary (taken self.now) }
        ensures within { result ≤ length self.now.left }
        ensures few { result < 8 }
    {
        self.window.held % 8
    }

    /// Takes zeros up to the next byte boundary.
    ///
    /// # Errors
    ///
    /// `BadAlignment` if one of these bits is 1.
    pub fn align(&mut self) -> Result<(), BitCause>
        ensures value { OnOk result (Takes (zeros_from (taken self.old)) self.old self.new) }
        ensures bad { IsErrOf result BitCause.BadAlignment
            ↔ Contains (take (to_boundary (taken self.old)) self.old.left) true }
        ensures others { OnErr result (¬ BeginsWith self.old.left (zeros_from (taken self.old))) }
        ensures cause { IfErr result (λ cause. cause ≡ BitCause.BadAlignment) }
        ensures unchanged { OnErr result (self.new ≡ self.old) }
    {
        let count = self.to_next_byte();
        if self.next_bits(count) != 0 {
            return Err(BitCause::BadAlignment);
        }
        self.read_bits(count);
        Ok(())
    }

    /// Returns the length of a one and zeros up to the byte boundary.
    fn past_next_one(&self) -> u32
        ensures value { result ≡ length (one_from (taken self.now)) }
        ensures within { self.now.left ≢ [] → result ≤ length self.now.left }
        ensures few { (0 < result) × (result ≤ 8) }
    {
        (self.window.held + 7) % 8 + 1
    }

    /// Returns the length of a one and zeros up to the byte boundary, or `None` if other bits come next.
    fn stop_length(&mut self) -> Option<u32>
        requires { self.old.left ≢ [] }
        ensures value { let stop = one_from (taken self.old) in
            MatchOption result
            (¬ BeginsWith self.old.left stop)
            (λ n. (n ≡ length stop) × BeginsWith self.old.left stop) }
        ensures same { self.new ≡ self.old }
    {
        let count = self.past_next_one();
        if self.next_bits(count) == 1 << (count - 1) {
            Some(count)
        } else {
            None
        }
    }

    /// Takes a one, and zeros up to the byte boundary.
    ///
    /// # Errors
    ///
    /// - `Short` if no bit is left.
    /// - `BadAlignment` if other bits come next.
    pub fn align_after_one(&mut self) -> Result<(), BitCause>
        ensures value { OnOk result (Takes (one_from (taken self.old)) self.old self.new) }
        ensures short { IsErrOf result BitCause.Short ↔ (self.old.left ≡ []) }
        ensures bad { IsErrOf result BitCause.BadAlignment
            ↔ ((self.old.left ≢ []) × ¬ BeginsWith self.old.left (one_from (taken self.old))) }
        ensures cause { IfErr result
            (λ cause. (cause ≡ BitCause.Short) ⊎ (cause ≡ BitCause.BadAlignment)) }
        ensures unchanged { OnErr result (self.new ≡ self.old) }
    {
        if self.left() == 0 {
            return Err(BitCause::Short);
        }
        let Some(count) = self.stop_length() else {
            return Err(BitCause::BadAlignment);
        };
        self.read_bits(count);
        Ok(())
    }

    /// Takes a one, and zeros up to the byte boundary, at which the bytes end.
    ///
    /// # Errors
    ///
    /// - `Short` if no bit is left.
    /// - `BadTrailing` if other bits come next, or more bytes follow.
    pub fn trailing(&mut self) -> Result<(), BitCause>
        ensures value { OnOk result (Takes (one_from (taken self.old)) self.old self.new) }
        ensures last { OnOk result (self.new.left ≡ []) }
        ensures short { IsErrOf result BitCause.Short ↔ (self.old.left ≡ []) }
        ensures bad { IsErrOf result BitCause.BadTrailing
            ↔ ((self.old.left ≢ []) × (self.old.left ≢ one_from (taken self.old))) }
        ensures cause { IfErr result
            (λ cause. (cause ≡ BitCause.Short) ⊎ (cause ≡ BitCause.BadTrailing)) }
        ensures unchanged { OnErr result (self.new ≡ self.old) }
    {
        if self.left() == 0 {
            return Err(BitCause::Short);
        }
        let Some(count) = self.stop_length() else {
            return Err(BitCause::BadTrailing);
        };
        if self.left() != count {
            return Err(BitCause::BadTrailing);
        }
        self.read_bits(count);
        Ok(())
    }
}

/// Returns the value of se(v) whose codeNum is `code` (H.266 clause 9.2).
#[inline(always)]
fn signed(code: u32) -> i32
    requires { IsCodeNumber code }
    ensures { code_number result ≡ code }
{
    let half = (code / 2) as i32;
    if code % 2 == 1 { half + 1 } else { -half }
}
