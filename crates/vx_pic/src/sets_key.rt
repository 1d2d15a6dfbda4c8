//! The identity of pictures with the same SPS and PPS.
ghost use Rattle.std.specs.Prelude.{◌≡◌, IfOk, option_copied};
ghost use Rattle.std.specs.Bool.{OnTrue};
ghost use Rattle.vx_pic.specs.inner.Keyed.{AreSameRbsp};

use crate::compare::same_items;
use std::alloc::{AllocError, Global};
use std::marker::Model;
use vx_bits::{Bytes, CopyList, Fields, is_rbsp};
use vx_pps::Pps;
use vx_sps::Sps;

/// Returns a copy of an RBSP, if there is one.
fn copied_rbsp(alloc: Global, rbsp: Option<&Bytes>) -> Result<Option<Bytes>, AllocError>
    ensures { IfOk result (λ copy. copy ≡ option_copied rbsp.entry) }
{
    let Some(rbsp) = rbsp else {
        return Ok(None);
    };
    let copy = CopyList::from_slice(alloc, rbsp.as_slice())?;
    Ok(Some(copy))
}

/// Returns whether both RBSPs are known, and the same.
fn is_same_rbsp(known: Option<&Bytes>, other: Option<&Bytes>) -> bool
    ensures { OnTrue result (AreSameRbsp (option_copied known.entry) (option_copied other.entry)) }
{
    match other {
        Some(other) => is_rbsp(known, other.as_slice()),
        None => false,
    }
}

/// Identifies an SPS and PPS pair, to find out cheaply whether two pictures have the same sets.
///
/// Compares the RBSPs if both are known, and otherwise the items. *Model:* the items.
pub struct SetsKey {
    sps: Fields,
    sps_rbsp: Option<Bytes>,
    pps: Fields,
    pps_rbsp: Option<Bytes>,
}

impl Drop for SetsKey {
    fn drop(self) {
        let SetsKey {
            sps: _,
            sps_rbsp: _,
            pps: _,
            pps_rbsp: _,
        } = self;
    }
}

impl Model for SetsKey {
    ghost use Rattle.std.specs.Prelude.{◌≡◌};
    ghost use Rattle.vx_table.specs.ReadFrom.{IsReadFrom};
    ghost use Rattle.vx_sps.specs.Structure.{sps_form};
    ghost use Rattle.vx_pps.specs.Pps.{pps_form};
    ghost use Rattle.vx_pic.specs.Keys.{SetItems};

    ghost Value = { SetItems };

    ghost view = { λ k. record { sps = k.sps; pps = k.pps } };

    ghost invariant = { λ k. IsReadFrom sps_form k.sps_rbsp k.sps × IsReadFrom pps_form k.pps_rbsp k.pps };
}

impl SetsKey {
    ghost use Rattle.std.specs.Prelude.{◌≡◌, ◌&&◌, IfOk};
    ghost use Rattle.vx_pic.specs.Sets as sets;

    /// Returns the key of these sets.
    ///
    /// # Errors
    ///
    /// `AllocError` if memory runs out.
    pub fn new(alloc: Global, sps: &Sps, pps: &Pps) -> Result<SetsKey, AllocError>
        ensures { IfOk result (λ key. key ≡ record { sps = sps.now; pps = pps.now }) }
    {
        Ok(SetsKey {
            sps: CopyList::from_slice(alloc, sps.fields().as_slice())?,
            sps_rbsp: copied_rbsp(alloc, sps.rbsp())?,
            pps: CopyList::from_slice(alloc, pps.fields().as_slice())?,
            pps_rbsp: copied_rbsp(alloc, pps.rbsp())?,
        })
    }

    /// Returns whether an SPS has the items of the key's.
    fn has_sps(&self, sps: &Sps) -> bool
        ensures { result ≡ sets.same_items self.now.sps sps.now }
    {
        if is_same_rbsp(self.sps_rbsp.as_ref(), sps.rbsp()) {
            return true;
        }
        same_items(self.sps.as_slice(), sps.fields().as_slice())
    }

    /// Returns whether a PPS has the items of the key's.
    fn has_pps(&self, pps: &Pps) -> bool
        ensures { result ≡ sets.same_items self.now.pps pps.now }
    {
        if is_same_rbsp(self.pps_rbsp.as_ref(), pps.rbsp()) {
            return true;
        }
        same_items(self.pps.as_slice(), pps.fields().as_slice())
    }

    /// Returns whether these sets have the items of the key's. Takes no memory.
    pub fn is_of(&self, sps: &Sps, pps: &Pps) -> bool
        ensures { result ≡ (sets.same_items self.now.sps sps.now && sets.same_items self.now.pps pps.now) }
    {
        self.has_sps(sps) && self.has_pps(pps)
    }
}
