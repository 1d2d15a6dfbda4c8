//! Laws of the codes. A law is a function that does nothing; its contract states it.
ghost use Rattle.std.specs.Prelude.{ℕ, ◌^◌, ◌<◌};
ghost use Rattle.vx_bits.specs.Codes.{fixed, exp_golomb, signed_exp_golomb, IsCodeNumber, code_number};
ghost use Rattle.vx_bits.specs.laws.Codes.{TellsApart, IsBinary, IsParsed, IsMapped, BeginsInThreeWays, BeginsInOneWay};

/// Bits that begin with u(n) of a number determine that number, and no code of n bits is a proper prefix of another.
pub fn fixed_tells_apart()
    ensures { (n : ℕ) → TellsApart (λ v. v < 2 ^ n) (fixed n) }
{}

/// If a number is below 2^n, then u(n) is its binary representation in n bits.
pub fn fixed_is_binary()
    ensures { IsBinary }
{}

/// The codes of ue(v) are those that H.266 clause 9.2 parses, with the numbers that it gives them.
pub fn exp_golomb_is_parsed()
    ensures { IsParsed }
{}

/// Each codeNum of se(v) has the value of H.266 clause 9.2.2, and no value has another codeNum.
pub fn signed_exp_golomb_is_mapped()
    ensures { IsMapped }
{}

/// Bits that begin with ue(v) of a number determine that number, and no code is a proper prefix of another.
pub fn exp_golomb_tells_apart()
    ensures { TellsApart IsCodeNumber exp_golomb }
{}

/// Bits that begin with se(v) of a number determine that number, and no code is a proper prefix of another.
pub fn signed_exp_golomb_tells_apart()
    ensures { TellsApart (λ v. IsCodeNumber (code_number v)) signed_exp_golomb }
{}

/// All bits begin with a code of ue(v), end within one, or begin with 32 zeros. Only one of these holds.
pub fn bits_begin_in_one_way()
    ensures some { BeginsInThreeWays }
    ensures only { BeginsInOneWay }
{}
