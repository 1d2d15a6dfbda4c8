//! Writing of an SEI RBSP.
ghost use Rattle.std.specs.Prelude.{◌≡◌, ◌<◌, ◌++◌, length, IfOk, OnOk};
ghost use Rattle.vx_sei.specs.Sei.{ff_coded, sei_message, IsSei};

use crate::message::{Message, MessageList, TRAILING};
use std::alloc::{AllocError, Global};

/// Returns the SEI RBSP of messages, of which there must be at least one (H.266 7.3.2.9, 7.3.6).
///
/// # Errors
///
/// `AllocError` if memory runs out.
pub fn write_sei(alloc: Global, messages: &MessageList) -> Result<Vec<u8>, AllocError>
    requires { 0 < length messages.now }
    ensures { IfOk result (λ rbsp. IsSei rbsp.items messages.now) }
{
    let mut rbsp = Vec::new(alloc);
    for message in messages.as_slice() {
        append_message(&mut rbsp, message)?;
    }
    rbsp.push(TRAILING)?;
    Ok(rbsp)
}

/// Appends a message.
fn append_message(rbsp: &mut Vec<u8>, message: &Message) -> Result<(), AllocError>
    ensures { OnOk result (rbsp.new.items ≡ rbsp.old.items ++ sei_message message.now) }
{
    let payload = message.bytes.as_slice();
    append_number(rbsp, message.kind as usize)?;
    append_number(rbsp, payload.len())?;
    rbsp.extend_from_slice(payload)
}

/// Appends a number: bytes FF, each for 255, and a last byte below.
fn append_number(rbsp: &mut Vec<u8>, n: usize) -> Result<(), AllocError>
    ensures { OnOk result (rbsp.new.items ≡ rbsp.old.items ++ ff_coded n) }
{
    for _ in 0..n / 255 {
        rbsp.push(0xFF)?;
    }
    rbsp.push((n % 255) as u8)?;
    Ok(())
}
