//! Sending: the slice header, made of fields of its source and new ones, is written in one walk.
ghost use Rattle.std.specs.Prelude.{◌≡◌, ◌≤◌, [], length, IfOk};
ghost use Rattle.vx_sh.specs.InForce.{in_force_at};
ghost use Rattle.vx_sh.specs.Reshaped.{GoesAt, IsSent, IsShape};
ghost use Rattle.vx_sh.specs.declared.numbers.SliceNumbers.{SliceNumbers};
ghost use Rattle.vx_sh.specs.declared.tables.TheConstants.{STARRED};
ghost use Rattle.vx_sh.specs.inner.Sending.{AreScopes, SendsApart};

use crate::context::Context;
use crate::front::code_apart;
use crate::header::SliceHeader;
use crate::numbers::{SliceNumbers, slice_scope};
use crate::reshape::stated_items;
use crate::shape::ShShape;
use crate::tables::STARRED;
use std::alloc::{AllocError, Global};
use std::marker::Model;
use vx_bits::{BitWriter, Fields};
use vx_ph::in_force;
use vx_table::{FieldSet, Scope, Sender, SpellError, Unwritten, only_memory};

/// The set of the fields with a star, whose items a sender is given.
struct Starred;

impl FieldSet for Starred {
    ghost names = { STARRED };

    #[inline(always)]
    fn has(field: u16) -> bool {
        STARRED.contains(&field)
    }
}

/// A writer of the slice headers of a picture whose units have one type, made once for all of them.
///
/// *Model:* what is in force at the slices.
#[derive(Drop)]
pub struct SliceSender<'a> {
    numbers: SliceNumbers<'a>,
    sets: Scope,
    slice: Scope,
}

impl<'a> Model for SliceSender<'a> {
    ghost Value = { SliceNumbers };

    ghost view = { λ s. s.numbers };

    ghost invariant = { λ s. AreScopes s.numbers s.sets s.slice };
}

impl<'a> SliceSender<'a> {
    /// Returns a sender for slices at which `numbers` are in force.
    pub fn new(numbers: SliceNumbers<'a>) -> SliceSender<'a>
        requires few { length numbers.ids.now ≤ 1000 }
        requires one_each { length numbers.ids.now ≡ length numbers.layout.now.subpics }
        ensures { result ≡ numbers.entry }
    {
        let (sps, pps) = (numbers.sps, numbers.pps);
        let sets = in_force(sps, pps);
        let slice = slice_scope(numbers.nal_type, sps, pps, numbers.header, &sets);
        SliceSender {
            numbers,
            sets,
            slice,
        }
    }

    /// Appends the slice header that has these items of the fields with a star, and its source's items of the others.
    ///
    /// # Errors
    ///
    /// - `NoValue` if there is none.
    /// - `Memory` if memory runs out.
    fn send_fields(
        &self,
        stated: &Fields,
        source: &Fields,
        bits: &mut BitWriter,
    ) -> Result<(), SpellError>
        requires { bits.old ≡ [] }
        ensures { SendsApart (in_force_at self.now) stated.now source.now result bits.new }
    {
        let n = Context {
            sets: &self.sets,
            table: self.numbers.sps.table(),
            layout: self.numbers.layout,
            ids: self.numbers.ids,
        };
        let mut scope = self.slice;
        let mut sender = Sender::<Starred>::new(
            Unwritten::new(stated, 0, stated.len()),
            Unwritten::new(source, 0, source.len()),
        );
        code_apart(&n, &mut scope, &mut sender, bits)
    }

    /// Writes `source`'s slice header, `slice_header()` (clause 7.3.7), for the merged picture, and returns its bytes.
    ///
    /// The fields that `shape` states are new: the id of the subpicture, the filter, the use of LMCS and scaling lists, and the
    /// QP. All others, the address and the reference lists are `source`'s. Requires that the sets and the picture header in force
    /// here have the kept fields under which `source` was read, and that its subpicture has the same slices. The source must also
    /// have been read in a unit of the same type with lists of the same lengths, and the PPS in force must have the filter and
    /// the QP in slice headers.
    ///
    /// # Errors
    ///
    /// `AllocError` if memory runs out.
    pub fn send(
        &self,
        alloc: Global,
        source: &SliceHeader,
        shape: &ShShape<'_>,
    ) -> Result<Vec<u8>, AllocError>
        requires shape { IsShape self.now shape.now }
        requires source { GoesAt source.now shape.now.subpic_id self.now }
        ensures { IfOk result (λ bytes. IsSent source.now shape.now self.now bytes.items) }
    {
        let stated = stated_items(alloc, &self.numbers, &self.slice, shape)?;
        let mut bits = BitWriter::new(alloc);
        match self.send_fields(&stated, &source.fields, &mut bits) {
            Ok(()) => Ok(bits.into_bytes()),
            Err(error) => Err(only_memory(error)),
        }
    }
}
