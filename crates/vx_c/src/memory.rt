//! Arguments, streams and output in the caller's memory.
ghost use Rattle.std.specs.Prelude.{◌≡◌, ◌≢◌, ◌++◌, All, length, map, min, take, drop, IfOk, IfSome, IfNone};
ghost use Rattle.std.specs.List.{sum};
ghost use Rattle.std.specs.Str.{IsUtf8};
ghost use Rattle.vx_run.specs.Grammar.{texts};
ghost use Rattle.vx_c.specs.InMemory.{AreStreams};
ghost use Rattle.vx_c.specs.InMemory as caller;

use std::alloc::{AllocError, Global};
use vx_io::MemorySource;

/// Splits `text` at line feeds into arguments; `None` if one of them isn't valid UTF-8.
pub(crate) fn words_in(alloc: Global, text: &[u8]) -> Result<Option<Vec<String>>, AllocError>
    ensures words { IfOk result (λ all. IfSome all (λ words. texts words.items ≡ caller.words_in text.now)) }
    ensures none { IfOk result (λ all. IfNone all (¬ All IsUtf8 (caller.words_in text.now))) }
{
    let mut words = Vec::new(alloc);
    for word in text.split(|byte| *byte == b'\n') {
        let Ok(word) = str::from_utf8(word) else {
            return Ok(None);
        };
        words.push(String::from_str(alloc, word)?)?;
    }
    Ok(Some(words))
}

/// Splits `bytes` into streams of these lengths; `None` if the lengths don't add up to all of `bytes`.
pub(crate) fn sources_in(
    alloc: Global,
    bytes: &[u8],
    lengths: &[usize],
) -> Result<Option<Vec<MemorySource>>, AllocError>
    ensures streams { IfOk result (λ all. IfSome all (λ sources. AreStreams bytes.now lengths.now (map (λ source. source.left) sources.items))) }
    ensures none { IfOk result (λ all. IfNone all (sum lengths.now ≢ length bytes.now)) }
{
    let mut sources = Vec::new(alloc);
    let mut rest = bytes;
    for len in lengths {
        let Some((stream, behind)) = rest.split_at_checked(*len) else {
            return Ok(None);
        };
        let stream = Vec::from_slice(alloc, stream)?;
        sources.push(MemorySource::new(stream, Vec::new(alloc), Vec::new(alloc)))?;
        rest = behind;
    }
    if rest.is_empty() {
        Ok(Some(sources))
    } else {
        Ok(None)
    }
}

/// Copies a prefix of `bytes`, as much as fits, to the beginning of `into`, and returns its length.
pub(crate) fn put(bytes: &[u8], into: &mut [u8]) -> usize
    ensures count { result ≡ min (length bytes.now) (length into.old) }
    ensures put { into.new ≡ take result bytes.now ++ drop result into.old }
{
    let count = bytes.len().min(into.len());
    into[..count].copy_from_slice(&bytes[..count]);
    count
}
