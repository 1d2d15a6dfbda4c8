//! Writing: codes are appended to bits.
ghost use Rattle.std.specs.Prelude.{◌≡◌, ◌↔◌, ℕ, ◌+◌, ◌*◌, ◌/◌, ◌%◌, ◌^◌, ◌<◌, ◌≤◌, Bool, false, List, [], ◌++◌, length, replicate, IfOk, IsTrue, OnOk, OnErr, vec_len, vec_capacity};
ghost use Rattle.vx_bits.specs.Codes.{fixed, exp_golomb, signed_exp_golomb, code_number, bits_of, zeros_from, one_from, EndsInNoZero, IsCodeNumber};

use std::alloc::{AllocError, Global};
use std::marker::Model;

/// Appends the whole bytes of a word of `bits` bits, for which there is room, and returns the bits after them
/// as a number.
#[inline(always)]
fn append(bytes: &mut Vec<u8>, word: u64, bits: u32) -> u8
    requires bits { bits ≤ 64 }
    requires range { word < 2 ^ bits }
    requires room { vec_len bytes.old + bits / 8 ≤ vec_capacity bytes.old }
    ensures value { bits_of bytes.new.items ++ fixed (bits % 8) result
        ≡ bits_of bytes.old.items ++ fixed bits word }
    ensures range { result < 2 ^ (bits % 8) }
    ensures len { vec_len bytes.new ≡ vec_len bytes.old + bits / 8 }
    ensures capacity { vec_capacity bytes.old ≤ vec_capacity bytes.new }
{
    let mut rest = word;
    let mut left = bits;
    while left >= 8 {
        left -= 8;
        bytes.push((rest >> left) as u8).unwrap();
        rest %= 1 << left;
    }
    rest as u8
}

/// A writer that appends codes to bits.
///
/// After an error, the bits are unchanged, except after `close`, which consumes the writer. *Model:* the list
/// of its bits.
#[derive(Drop)]
pub struct BitWriter {
    bytes: Vec<u8>,
    begun: u8,
    used: u32,
}

impl Model for BitWriter {
    ghost Value = { List Bool };

    ghost view = { λ w. bits_of w.bytes.items ++ fixed w.used w.begun };

    ghost invariant = { λ w. (w.used < 8) × (w.begun < 2 ^ w.used) };
}

impl BitWriter {
    /// Returns a writer with no bits. Takes no memory yet.
    #[tactic(auto, using(crate::proofs::Bits::fixed_none))]
    pub fn new(alloc: Global) -> BitWriter
        ensures { result ≡ [] }
    {
        BitWriter {
            bytes: Vec::new(alloc),
            begun: 0,
            used: 0,
        }
    }

    /// Appends `zeros` zeros, and then the `n` bits of the value.
    #[inline(always)]
    fn put(&mut self, zeros: u32, n: u32, value: u64) -> Result<(), AllocError>
        requires zeros { zeros ≤ 32 }
        requires width { n ≤ 32 }
        requires range { value < 2 ^ n }
        ensures ok { OnOk result (self.new ≡ self.old ++ (replicate zeros false ++ fixed n value)) }
        ensures err { OnErr result (self.new ≡ self.old) }
    {
        self.bytes.reserve(8)?;
        let first = self.used + zeros;
        let begun = append(&mut self.bytes, u64::from(self.begun) << zeros, first);
        let last = first % 8 + n;
        self.begun = append(&mut self.bytes, (u64::from(begun) << n) + value, last);
        self.used = last % 8;
        Ok(())
    }

    /// Appends u(n): the `n` bits of `value`, at most 32 (H.266 7.2).
    ///
    /// # Errors
    ///
    /// `AllocError` if memory runs out.
    #[inline(always)]
    pub fn u(&mut self, n: u32, value: u64) -> Result<(), AllocError>
        requires width { n ≤ 32 }
        requires range { value < 2 ^ n }
        ensures ok { OnOk result (self.new ≡ self.old ++ fixed n value) }
        ensures err { OnErr result (self.new ≡ self.old) }
    {
        self.put(0, n, value)
    }

    /// Appends ue(v) for a value below 2^32 - 1 (H.266 clause 9.2).
    ///
    /// # Errors
    ///
    /// `AllocError` if memory runs out.
    #[inline(always)]
    pub fn ue(&mut self, value: u32) -> Result<(), AllocError>
        requires { IsCodeNumber value }
        ensures ok { OnOk result (self.new ≡ self.old ++ exp_golomb value) }
        ensures err { OnErr result (self.new ≡ self.old) }
    {
        let code = value + 1;
        let zeros = 31 - code.leading_zeros();
        self.put(zeros, zeros + 1, u64::from(code))
    }

    /// Appends se(v) for a value above -2^31 (H.266 clause 9.2).
    ///
    /// # Errors
    ///
    /// `AllocError` if memory runs out.
    #[inline(always)]
    pub fn se(&mut self, value: i32) -> Result<(), AllocError>
        requires { IsCodeNumber (code_number value) }
        ensures ok { OnOk result (self.new ≡ self.old ++ signed_exp_golomb value) }
        ensures err { OnErr result (self.new ≡ self.old) }
    {
        self.ue(unsigned(value))
    }

    /// Appends zeros up to the byte boundary.
    ///
    /// # Errors
    ///
    /// `AllocError` if memory runs out.
    pub fn align(&mut self) -> Result<(), AllocError>
        ensures ok { OnOk result (self.new ≡ self.old ++ zeros_from (length self.old)) }
        ensures err { OnErr result (self.new ≡ self.old) }
    {
        let zeros = (8 - self.used) % 8;
        self.put(zeros, 0, 0)
    }

    /// Appends a one, and zeros up to the byte boundary.
    ///
    /// # Errors
    ///
    /// `AllocError` if memory runs out.
    pub fn align_after_one(&mut self) -> Result<(), AllocError>
        ensures ok { OnOk result (self.new ≡ self.old ++ one_from (length self.old)) }
        ensures err { OnErr result (self.new ≡ self.old) }
    {
        let zeros = 7 - self.used;
        self.put(0, zeros + 1, 1 << zeros)
    }

    /// Appends a one, and zeros up to the byte boundary, and returns the bytes.
    ///
    /// # Errors
    ///
    /// `AllocError` if memory runs out. The bits are then lost.
    pub fn close(self) -> Result<Vec<u8>, AllocError>
        ensures bits { IfOk result (λ bytes. bits_of bytes.items ≡ self ++ one_from (length self)) }
        ensures end { IfOk result (λ bytes. EndsInNoZero bytes.items) }
    {
        let BitWriter {
            mut bytes,
            begun,
            used,
        } = self;
        let behind = 7 - used;
        bytes.push((begun * 2 + 1) << behind)?;
        Ok(bytes)
    }

    /// Returns whether the bits end at a byte boundary.
    pub fn is_aligned(&self) -> bool
        ensures { IsTrue result ↔ (length self.now % 8 ≡ 0) }
    {
        self.used == 0
    }

    /// Returns the bytes of bits that end at a byte boundary, as after rbsp_trailing_bits(). Takes no memory.
    pub fn into_bytes(self) -> Vec<u8>
        requires { length self % 8 ≡ 0 }
        ensures { bits_of result.items ≡ self }
    {
        let BitWriter {
            bytes,
            begun: _,
            used: _,
        } = self;
        bytes
    }
}

/// Returns the codeNum of se(value) (H.266 clause 9.2).
#[inline(always)]
fn unsigned(value: i32) -> u32
    requires { IsCodeNumber (code_number value) }
    ensures { result ≡ code_number value }
{
    if value > 0 {
        2 * (value as u32) - 1
    } else {
        2 * (-value) as u32
    }
}
