//! Streams generated from a number.

use anyhow::{Context, Result, bail};
use std::alloc::Global;
use vx_gen::generate;

/// The most streams that are made at once.
const MOST_STREAMS: u32 = 16;

/// Does `SEED SOURCES PICTURES NUMBER`: returns the bytes of this stream in hexadecimal.
pub(crate) fn generated(alloc: Global, words: &[&str]) -> Result<String> {
    let [seed, sources, pictures, number] = words else {
        bail!("a generated stream has four numbers");
    };
    let sources = sources.parse::<u32>()?;
    if sources > MOST_STREAMS {
        bail!("more than 16 streams");
    }
    let streams = generate(alloc, seed.parse()?, sources, pictures.parse()?)?;
    let stream = streams
        .as_slice()
        .get(number.parse::<usize>()?)
        .context("no such stream")?;
    Ok(hex::encode(alloc, stream.as_slice())?)
}
