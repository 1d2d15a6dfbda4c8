//! Bytes by their names.

ghost use Rattle.std.specs.Prelude.{◌≡◌, Some, IsSome, OnOk, IfOk};
ghost use Rattle.std.specs.Io.{StartsWith};
ghost use Rattle.std.specs.BTreeMap.{IsEmpty, get_by_text};

use anyhow::{Context, Result};
use std::alloc::{AllocError, Global};
use std::collections::BTreeMap;

/// Bytes by their names.
#[derive(Drop)]
pub(crate) struct Streams {
    named: BTreeMap<String, Vec<u8>>,
}

impl Streams {
    /// Makes a table without names.
    pub(crate) fn new(alloc: Global) -> Streams
        ensures { IsEmpty result.named }
    {
        Streams {
            named: BTreeMap::new(alloc),
        }
    }

    /// Gives bytes a name. What had this name before loses it.
    pub(crate) fn insert(
        &mut self,
        alloc: Global,
        name: &str,
        bytes: Vec<u8>,
    ) -> Result<(), AllocError>
        ensures { OnOk result (get_by_text self.new.named name.now ≡ Some bytes) }
    {
        self.named.insert(String::from_str(alloc, name)?, bytes)?;
        Ok(())
    }

    /// Gives a name to the bytes of these parts.
    pub(crate) fn spell(&mut self, alloc: Global, name: &str, parts: &[&str]) -> Result<()>
        ensures { OnOk result (IsSome (get_by_text self.new.named name.now)) }
    {
        let mut bytes = Vec::new(alloc);
        for part in parts {
            push_part(alloc, &mut bytes, part)?;
        }
        self.insert(alloc, name, bytes)?;
        Ok(())
    }

    /// Returns the bytes of this name.
    pub(crate) fn get(&self, name: &str) -> Result<&Vec<u8>>
        ensures { IfOk result (λ bytes. get_by_text self.now.named name.now ≡ Some bytes.now) }
    {
        self.named
            .get(name)
            .context(format_args!("no stream {name}"))
    }
}

/// Appends the bytes of a part: hexadecimal, such bytes repeated, or `-` for none.
fn push_part(alloc: Global, bytes: &mut Vec<u8>, part: &str) -> Result<()>
    ensures { OnOk result (StartsWith bytes.new.items bytes.old.items) }
{
    if part == "-" {
        return Ok(());
    }
    let (digits, times) = part.split_once('*').unwrap_or((part, "1"));
    let once = hex::decode(alloc, digits)?;
    for _ in 0..times.parse::<u32>()? {
        bytes.extend_from_slice(&once)?;
    }
    Ok(())
}
