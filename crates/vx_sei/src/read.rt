//! Reading of an SEI RBSP.
ghost use Rattle.std.specs.Prelude.{◌≡◌, ◌<◌, ◌↔◌, IsTrue, ℕ, true, false, List, [], ◌∷◌, ◌++◌, length, OnOk, IfOk, MatchOption};
ghost use Rattle.vx_sei.specs.declared.message.Message.{Message};
ghost use Rattle.vx_sei.specs.Sei.{ff_coded, sei_message, IsSei, is_carried, carried};
ghost use Rattle.vx_sei.specs.inner.Front.{BeginsWithMessage};

use crate::message::{
    ALTERNATIVE_TRANSFER_CHARACTERISTICS, CONTENT_LIGHT_LEVEL_INFO,
    MASTERING_DISPLAY_COLOUR_VOLUME, Message, MessageList, TRAILING,
};
use std::alloc::{AllocError, Global};
use vx_bits::Bytes;

/// Reads an SEI RBSP, and returns its messages of types 137, 144 and 147, in order.
///
/// Returns `None` exactly if the bytes are no SEI RBSP: messages and the byte 80 (H.266 7.3.2.9, 7.3.6). A message
/// whose type is above 2^32 - 1 is dropped like those of other types.
///
/// # Errors
///
/// `AllocError` if memory runs out.
pub fn read_sei(alloc: Global, rbsp: &[u8]) -> Result<Option<MessageList>, AllocError>
    ensures { IfOk result (λ answer. MatchOption answer
        ((messages : List Message) → ¬ IsSei rbsp.now messages)
        (λ given. (messages : List Message) × IsSei rbsp.now messages × (given ≡ carried messages))) }
{
    let mut messages = MessageList::new(alloc);
    let mut rest = rbsp;
    while let Some(front) = split_message(rest) {
        gather(alloc, &mut messages, front)?;
        rest = front.rest;
    }
    if !is_end(rbsp, rest) {
        return Ok(None);
    }
    Ok(Some(messages))
}

/// Returns whether the rest of an RBSP, of which messages were taken, is its last byte.
fn is_end(rbsp: &[u8], rest: &[u8]) -> bool
    ensures { IsTrue result ↔ ((length rest.now < length rbsp.now) × (rest.now ≡ 128 ∷ [])) }
{
    rest.len() < rbsp.len() && rest == [TRAILING].as_slice()
}

/// The message at the start of bytes, and the bytes after it.
#[derive(Clone, Copy)]
struct Front<'a> {
    /// payloadType, of any size
    kind: u128,
    payload: &'a [u8],
    rest: &'a [u8],
}

/// Takes the message at the start of bytes.
fn split_message(bytes: &[u8]) -> Option<Front>
    ensures { MatchOption result
        (¬ BeginsWithMessage bytes.now)
        (λ front. bytes.now ≡ sei_message (record { kind = front.kind; bytes = front.payload.now }) ++ front.rest.now) }
{
    let (kind, behind) = split_number(bytes)?;
    let (size, behind) = split_number(behind)?;
    if size > behind.len() as u128 {
        return None;
    }
    let (payload, rest) = behind.split_at(size as usize);
    Some(Front {
        kind,
        payload,
        rest,
    })
}

/// Takes the number at the start of bytes: bytes FF, each for 255, and a last byte below.
fn split_number(bytes: &[u8]) -> Option<(u128, &[u8])>
    ensures { MatchOption result
        ((n : ℕ) (rest : List ℕ) → bytes.now ≡ ff_coded n ++ rest → ⊥)
        (λ front. bytes.now ≡ ff_coded front.0 ++ front.1.now) }
{
    let run = bytes.iter().position(|byte| *byte != 0xFF)?;
    let number = 255 * run as u128 + bytes[run] as u128;
    Some((number, &bytes[run + 1..]))
}

/// Appends a message if its type is copied.
fn gather(alloc: Global, messages: &mut MessageList, front: Front) -> Result<(), AllocError>
    ensures { OnOk result (messages.new ≡ messages.old
        ++ carried (record { kind = front.entry.kind; bytes = front.entry.payload.now } ∷ [])) }
{
    let Some(kind) = carried_kind(front.kind) else {
        return Ok(());
    };
    let mut bytes = Bytes::new(alloc);
    bytes.extend_from_slice(front.payload)?;
    messages.push(Message { kind, bytes })
}

/// Returns the type, if it is one that is copied.
fn carried_kind(kind: u128) -> Option<u32>
    ensures { MatchOption result (is_carried kind ≡ false) (λ k. (is_carried kind ≡ true) × (k ≡ kind)) }
{
    [
        MASTERING_DISPLAY_COLOUR_VOLUME,
        CONTENT_LIGHT_LEVEL_INFO,
        ALTERNATIVE_TRANSFER_CHARACTERISTICS,
    ]
    .into_iter()
    .find(|carried| u128::from(*carried) == kind)
}
