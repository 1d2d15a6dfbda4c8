//! RBSPs of messages, and of adaptation parameter sets.

use crate::words::{bytes_of, push_bytes, push_gap, push_refusal};
use anyhow::{Context, Result, bail};
use std::alloc::{AllocError, Global};
use vx_aps::{read_aps, write_aps};
use vx_bits::{Bytes, ReadError};
use vx_sei::{Message, MessageList, read_sei, write_sei};

/// - `messages RBSP` prints the messages that are carried of an SEI RBSP, `TYPE=PAYLOAD` each or `-` for none, or `none` if it is no SEI
///   RBSP.
/// - `spell TYPE=PAYLOAD ..` prints the length of each message as it is spelled, and the RBSP of all of them.
/// - `set RBSP` prints the type and the id of an adaptation parameter set, and the RBSP that is written of it, or `dropped`, or why it is
///   refused.
pub(crate) fn answer(text: &mut String, alloc: Global, verb: &str, words: &[&str]) -> Result<()> {
    match (verb, words) {
        ("messages", [rbsp]) => Ok(tell_carried(text, alloc, &bytes_of(alloc, rbsp)?)?),
        ("spell", messages) => tell_spelled(text, alloc, &messages_of(alloc, messages)?),
        ("set", [rbsp]) => tell_set(text, alloc, &bytes_of(alloc, rbsp)?),
        _ => bail!("no such call of an RBSP"),
    }
}

/// Returns the messages of words `TYPE=PAYLOAD`.
pub(crate) fn messages_of(alloc: Global, words: &[&str]) -> Result<MessageList> {
    let mut messages = MessageList::new(alloc);
    for word in words {
        let (kind, payload) = word.split_once('=').context("no payload")?;
        let mut bytes = Bytes::new(alloc);
        bytes.extend_from_slice(&bytes_of(alloc, payload)?)?;
        let kind = kind.parse::<u32>()?;
        messages.push(Message { kind, bytes })?;
    }
    Ok(messages)
}

/// Appends the messages of an RBSP.
fn tell_carried(text: &mut String, alloc: Global, rbsp: &[u8]) -> Result<(), AllocError> {
    match read_sei(alloc, rbsp)? {
        Some(messages) => tell_messages(text, &messages),
        None => text.push_str("none"),
    }
}

/// Appends messages, or that there are none.
fn tell_messages(text: &mut String, messages: &MessageList) -> Result<(), AllocError> {
    if messages.len() == 0 {
        return text.push_str("-");
    }
    for message in messages.as_slice() {
        push_gap(text)?;
        write!(text, "{}=", message.kind)?;
        push_bytes(text, message.bytes.as_slice())?;
    }
    Ok(())
}

/// Appends messages that are written.
fn tell_spelled(text: &mut String, alloc: Global, messages: &MessageList) -> Result<()> {
    if messages.len() == 0 {
        bail!("no message");
    }
    for message in messages.as_slice() {
        write!(text, "{} ", message.spelled_len())?;
    }
    Ok(push_bytes(text, &write_sei(alloc, messages)?)?)
}

/// Appends an RBSP of an adaptation parameter set.
fn tell_set(text: &mut String, alloc: Global, rbsp: &[u8]) -> Result<()> {
    match tell_set_read(text, alloc, rbsp) {
        Ok(()) => Ok(()),
        Err(ReadError::Refused(refusal)) => Ok(push_refusal(text, refusal)?),
        Err(ReadError::Memory) => bail!("out of memory"),
    }
}

/// Appends a set that is read, and what is written of it.
fn tell_set_read(text: &mut String, alloc: Global, rbsp: &[u8]) -> Result<(), ReadError> {
    let Some(aps) = read_aps(alloc, rbsp)? else {
        text.push_str("dropped")?;
        return Ok(());
    };
    let written = write_aps(alloc, &aps)?;
    write!(text, "{} {} ", aps.kind, aps.id)?;
    push_bytes(text, &written)?;
    Ok(())
}
