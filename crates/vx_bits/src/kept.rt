//! The kept fields of a structure, in a type of their own, so that a list of all fields can't be passed for
//! them.
ghost use Rattle.std.specs.Prelude.{◌≡◌, ◌<◌, List, [], ◌∷◌, ◌++◌, length, Some, OnOk, OnErr, slice_get, slice_index_or};
ghost use Rattle.vx_bits.specs.declared.list.Item.{Item};

use crate::list::{CopyList, Item};
use std::alloc::{AllocError, Global};
use std::marker::Model;

/// A list of the kept fields of a structure, in the order of their bits. Kept fields stay when a structure is rewritten.
///
/// *Model:* the list of their items.
#[derive(Drop)]
pub struct Kept {
    items: CopyList<Item>,
}

impl Model for Kept {
    ghost Value = { List Item };

    ghost view = { λ kept. kept.items };
}

impl Kept {
    /// Returns an empty list. Takes no memory yet.
    pub fn new(alloc: Global) -> Kept
        ensures { result ≡ [] }
    {
        Kept {
            items: CopyList::new(alloc),
        }
    }

    /// Appends a field.
    ///
    /// # Errors
    ///
    /// `AllocError` if memory runs out. The fields are then unchanged.
    pub fn push(&mut self, item: Item) -> Result<(), AllocError>
        ensures ok { OnOk result (self.new ≡ self.old ++ item ∷ []) }
        ensures err { OnErr result (self.new ≡ self.old) }
    {
        self.items.push(item)
    }

    /// Returns the number of fields.
    pub fn len(&self) -> usize
        ensures { result ≡ length self.now }
    {
        self.items.len()
    }

    /// Returns the field at index `i`, from 0.
    pub fn item(&self, i: usize) -> Item
        requires { i < length self.now }
        ensures value { slice_get self.now i ≡ Some result }
        ensures index { result ≡ slice_index_or self.now i result }
    {
        self.items.item(i)
    }

    /// Returns the fields as a slice.
    pub fn as_slice(&self) -> &[Item]
        ensures { result.now ≡ self.now }
    {
        self.items.as_slice()
    }
}
