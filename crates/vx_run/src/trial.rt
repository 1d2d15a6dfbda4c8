//! `trial`: streams generated from a number, merged, extracted again, and counted.

ghost use Rattle.std.specs.Prelude.{◌≡◌, IfOk};
ghost use Rattle.vx_run.specs.Change.{change};
ghost use Rattle.vx_run.specs.Grammar.{IsTrialInRange};
ghost use Rattle.vx_run.specs.Trial.{Trials, trial_text};

use crate::stop::Stop;
use std::alloc::{AllocError, Global};
use vx_io::{Sink, write_all};
use vx_trial::Tally;

/// Runs `trial`: merges `sources` streams of `pictures` pictures made from `seed`, extracts each region, and writes the counts.
pub(crate) fn trial<K: Sink>(
    alloc: Global,
    seed: u32,
    sources: u32,
    pictures: u32,
    out: &mut K,
) -> Result<(), Stop>
    requires { IsTrialInRange seed sources pictures }
    ensures trials { Trials seed sources pictures (change K.bytes_taken K.write_faults out.old out.new) result }
{
    let tally = vx_trial::trial(alloc, seed, sources, pictures)?;
    let line = trial_line(alloc, tally)?;
    write_all(out, &line)?;
    Ok(())
}

/// Makes the line `trial pictures 10 slices 40 bytes 680 weight 83935609`, with these numbers.
fn trial_line(alloc: Global, tally: Tally) -> Result<Vec<u8>, AllocError>
    ensures { IfOk result (λ line. line.items ≡ trial_text tally) }
{
    let Tally {
        pictures,
        slices,
        bytes,
        weight,
    } = tally;
    let line = format!(in alloc;
        "trial pictures {pictures} slices {slices} bytes {bytes} weight {weight}\n"
    )?;
    Ok(line.into_bytes())
}
