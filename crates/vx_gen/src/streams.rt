//! Generated streams.
ghost use Rattle.std.specs.Prelude.{◌≡◌, ℕ, ◌+◌, ◌*◌, ◌<◌, ◌≤◌, ◌++◌, ◌∷◌, [], map, IfOk, OnOk};
ghost use Rattle.std.specs.List.{range_with_len};
ghost use Rattle.vx_annexb.specs.Laws.{written};
ghost use Rattle.vx_gen.specs.Draws.{state};
ghost use Rattle.vx_gen.specs.Units as units;
ghost use Rattle.vx_gen.specs.Streams as streams;

use crate::draws::Draws;
use crate::units::{PPS_END_SIZES, PPS_ENDS, PPS_FRONT, SPS, START_CODE, slice_front};
use std::alloc::{AllocError, Global};
use vx_bits::{ByteLists, Bytes};

/// Appends the units of the SPS and of source `k`'s PPS.
fn push_sets(stream: &mut Bytes, k: u32) -> Result<(), AllocError>
    requires { k < 16 }
    ensures { OnOk result (stream.new ≡ stream.old ++ written (units.sps ∷ units.pps k ∷ [])) }
{
    stream.extend_from_slice(&START_CODE)?;
    stream.extend_from_slice(&SPS)?;
    stream.extend_from_slice(&START_CODE)?;
    stream.extend_from_slice(&PPS_FRONT)?;
    let end = PPS_ENDS[k as usize];
    stream.extend_from_slice(&end[..PPS_END_SIZES[k as usize]])
}

/// Appends the slice of picture `p`.
fn push_picture(stream: &mut Bytes, draws: &mut Draws, p: u32) -> Result<(), AllocError>
    ensures bytes { (seed n : ℕ) → draws.old.state ≡ state seed n
        → OnOk result (stream.new ≡ stream.old ++ written (units.slice seed n p ∷ [])) }
    ensures draws { (seed n : ℕ) → draws.old.state ≡ state seed n → OnOk result (draws.new.state ≡ state seed (n + 5)) }
{
    stream.extend_from_slice(&START_CODE)?;
    stream.extend_from_slice(&slice_front(p))?;
    stream.extend_from_slice(&draws.payload())
}

/// Makes source `k`'s stream of `pictures` pictures.
fn stream(alloc: Global, draws: &mut Draws, k: u32, pictures: u32) -> Result<Bytes, AllocError>
    requires { k < 16 }
    ensures bytes { (seed n : ℕ) → draws.old.state ≡ state seed n
        → IfOk result (λ stream. stream ≡ written (streams.units seed n k pictures)) }
    ensures draws { (seed n : ℕ) → draws.old.state ≡ state seed n
        → IfOk result (λ _. draws.new.state ≡ state seed (n + 5 * pictures)) }
{
    let mut stream = Bytes::new(alloc);
    push_sets(&mut stream, k)?;
    for p in 0..pictures {
        push_picture(&mut stream, draws, p)?;
    }
    Ok(stream)
}

/// Makes the streams of `sources` sources, at most 16, with `pictures` pictures each, from a seed.
///
/// The bytes are defined in `specs`, `Streams`. *Errors:* [`AllocError`] if memory runs out.
pub fn generate(
    alloc: Global,
    seed: u32,
    sources: u32,
    pictures: u32,
) -> Result<ByteLists, AllocError>
    requires { sources ≤ 16 }
    ensures { IfOk result (λ made. made ≡ streams.generated seed sources pictures) }
{
    let mut draws = Draws::new(seed);
    let mut streams = ByteLists::new(alloc);
    for k in 0..sources {
        let stream = stream(alloc, &mut draws, k, pictures)?;
        streams.push(stream)?;
    }
    Ok(streams)
}
