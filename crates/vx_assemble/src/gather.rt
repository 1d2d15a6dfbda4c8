//! Messages that are gathered for the next picture.
ghost use Rattle.std.specs.Prelude.{◌≡◌, ◌+◌, ◌++◌, ◌<◌, ◌≤◌, IfOk, OnOk, MatchOption};
ghost use Rattle.vx_sei.specs.Sei.{spelled_length};
ghost use Rattle.vx_pic.specs.Rules.{message_limit};
ghost use Rattle.vx_assemble.specs.inner.Changes as changes;
ghost use Rattle.vx_assemble.specs.inner.Order.{IsInOrder};

use crate::state::State;
use std::alloc::{AllocError, Global};
use std::mem::replace;
use vx_bits::Bytes;
use vx_sei::{Message, MessageList};

/// The greatest number of bytes of the messages gathered for a picture.
const MESSAGE_LIMIT: usize = 65_536;

/// Returns the number of bytes of coded messages, and of `before` others; `None` if they exceed the limit.
#[tactic(auto, using(crate::proofs::Gathered::spelled_none, crate::proofs::Gathered::spelled_more, crate::proofs::Gathered::spelled_past, crate::proofs::Gathered::spelled_all), unfolding(vx_pic::specs::Rules::message_limit))]
fn spelled_behind(before: usize, messages: &MessageList) -> Option<usize>
    requires { before ≤ message_limit }
    ensures { MatchOption result (message_limit < before + spelled_length messages.now)
        (λ n. (n ≡ before + spelled_length messages.now) × (n ≤ message_limit)) }
{
    let mut total = before;
    for i in 0..messages.len() {
        let message = messages.item(i);
        let more = message.spelled_len();
        if more > MESSAGE_LIMIT - total {
            return None;
        }
        total += more;
    }
    Some(total)
}

/// Returns a copy of a message.
fn copied(alloc: Global, message: &Message) -> Result<Message, AllocError>
    ensures { IfOk result (λ copy. copy ≡ message.now) }
{
    let mut bytes = Bytes::new(alloc);
    bytes.extend_from_slice(message.bytes.as_slice())?;
    Ok(Message {
        kind: message.kind,
        bytes,
    })
}

/// Appends messages to others.
#[tactic(auto, using(crate::proofs::Gathered::appended_none, crate::proofs::Gathered::appended_more, crate::proofs::Gathered::appended_all))]
fn append_all(
    alloc: Global,
    into: &mut MessageList,
    messages: &MessageList,
) -> Result<(), AllocError>
    ensures { OnOk result (into.new ≡ into.old ++ messages.now) }
{
    for i in 0..messages.len() {
        let message = messages.item(i);
        let copy = copied(alloc, message)?;
        into.push(copy)?;
    }
    Ok(())
}

impl State {
    /// Gathers messages for the next picture unless they exceed the limit, and returns whether they don't.
    ///
    /// # Errors
    ///
    /// `AllocError` if memory runs out.
    pub(crate) fn gather(
        &mut self,
        alloc: Global,
        messages: &MessageList,
    ) -> Result<bool, AllocError>
        requires { IsInOrder self.old }
        ensures answer { IfOk result (λ kept. changes.Gathers kept messages.now self.old self.new) }
        ensures order { IsInOrder self.new }
    {
        let Some(total) = spelled_behind(self.gathered_len, messages) else {
            return Ok(false);
        };
        let mut all = replace(&mut self.gathered, MessageList::new(alloc));
        self.gathered_len = 0;
        append_all(alloc, &mut all, messages)?;
        self.gathered = all;
        self.gathered_len = total;
        Ok(true)
    }
}
