//! Sending: a structure is rewritten and written in one walk, without a list of its items in between.

ghost use Rattle.std.specs.Prelude.{◌≡◌};
ghost use Rattle.vx_table.specs.Spelling.{IsCodable};
ghost use Rattle.vx_table.specs.Rewritten.{Sources, TakesNext, other_items};
ghost use Rattle.vx_table.specs.Sent.{BeginsWithOther};

use crate::rows::Cell;
use crate::walk::Coder;
use crate::writer::{SpellError, Unwritten, take_value, write_code};
use std::marker::{Model, PhantomData};
use vx_bits::BitWriter;

/// A set of fields that is known when a walk is compiled.
pub trait FieldSet {
    ghost use Rattle.std.specs.Prelude.{◌≡◌, List, ℕ};
    ghost use Rattle.vx_table.specs.Depends as sets;

    ghost names: { List ℕ };

    /// Returns whether the set contains `field`.
    fn has(field: u16) -> bool
        ensures { result ≡ sets.has names field };
}

/// The source of a structure that is sent. It has new items for the fields in a set, and all items of another value.
///
/// Sending writes the structure that a [`crate::Rewriter`] of the same items makes (law
/// [`sent_as_rewritten`](crate::sent_as_rewritten)). *Model:* that of a [`crate::Rewriter`] which has the source's items of
/// the other fields.
#[derive(Drop)]
pub struct Sender<'a, N: FieldSet> {
    set: PhantomData<N>,
    stated: Unwritten<'a>,
    source: Unwritten<'a>,
}

impl<'a, N: FieldSet> Model for Sender<'a, N> {
    ghost Value = { Sources };

    ghost view = { λ s. record { names = N.names; shown = s.stated; others = other_items N.names s.source } };
}

/// Skips the items of fields in the set that come next.
#[inline(always)]
fn pass_named<N: FieldSet>(items: &mut Unwritten<'_>)
    ensures others { other_items N.names items.new ≡ other_items N.names items.old }
    ensures next { BeginsWithOther N.names items.new }
{
    let mut behind = items.fork();
    while let Some(item) = behind.next() {
        if !N::has(item.field) {
            return;
        }
        *items = behind.fork();
    }
}

impl<'a, N: FieldSet> Sender<'a, N> {
    /// Returns a sender of the new items `stated`, for the fields in the set, and of `source`'s items of the others.
    pub fn new(stated: Unwritten<'a>, source: Unwritten<'a>) -> Sender<'a, N>
        ensures { result ≡ record { names = N.names; shown = stated.entry; others = other_items N.names source.entry } }
    {
        Sender {
            set: PhantomData,
            stated,
            source,
        }
    }

    /// Takes the item of the next field's value; a gap has the value 0 and no item.
    #[inline(always)]
    fn take(&mut self, cell: Cell<u32>) -> Option<i64>
        requires { IsCodable cell.coding }
        ensures { TakesNext cell self.old result self.new }
    {
        if N::has(cell.field) {
            return take_value(&mut self.stated, cell);
        }
        pass_named::<N>(&mut self.source);
        take_value(&mut self.source, cell)
    }
}

impl<'a, N: FieldSet> Coder<BitWriter> for Sender<'a, N> {
    ghost use Rattle.vx_table.specs.Sent.{SendsField};

    type Fault = SpellError;

    ghost step = { SendsField };

    #[inline(always)]
    fn code(&mut self, bits: &mut BitWriter, cell: Cell<u32>) -> Result<i64, SpellError> {
        let Some(value) = self.take(cell) else {
            return Err(SpellError::NoValue);
        };
        match write_code(bits, cell.coding, value) {
            Ok(()) => Ok(value),
            Err(_) => Err(SpellError::Memory),
        }
    }
}
