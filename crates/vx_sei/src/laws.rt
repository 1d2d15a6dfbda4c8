//! Laws of SEI RBSPs. A law is a function that does nothing; its contract states it.
ghost use Rattle.vx_sei.specs.laws.Messages.{SeiIsUnique, WrittenIsRead, SeiEndsIn80, CarriedIsShorter};

/// If bytes are the SEI RBSP of messages, then they are that of no other messages.
pub fn sei_is_unique()
    ensures { SeiIsUnique }
{}

/// If messages have types that are copied, then their RBSP is read as these messages.
pub fn written_is_read()
    ensures { WrittenIsRead }
{}

/// The last byte of an SEI RBSP is 80, so it never ends in 00 (H.266 7.4.2.1).
pub fn sei_ends_in_80()
    ensures { SeiEndsIn80 }
{}

/// If messages of an RBSP are copied, then their coded form has no more bytes than the RBSP.
pub fn carried_is_shorter()
    ensures { CarriedIsShorter }
{}
