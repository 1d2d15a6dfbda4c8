//! Lists: one generic type for every list type of the project, and the list types that belong here.
//!
//! A list type elsewhere is one line, such as `pub type RectList = CopyList<Rect>;`, or a struct of its own
//! if it guards something, such as [`Kept`](crate::Kept).
ghost use Rattle.std.specs.Prelude.{◌≡◌, ◌<◌, List, [], ◌∷◌, ◌++◌, length, Some, IfOk, OnOk, OnErr, slice_get, slice_index_or};
ghost use Rattle.std.specs.Slice.Iter.{iter_rest};
ghost use Rattle.std.specs.Iterator.Adapters.{IterYieldsInOrder};
ghost use Rattle.vx_bits.specs.Fields.{first_value};

use std::alloc::{AllocError, Global};
use std::marker::{Model, PhantomData};
use std::slice::Iter;

/// A list whose entries are returned as `By` says: [`ByValue`] or [`ByReference`].
///
/// *Model:* the list of its entries.
#[derive(Drop)]
pub struct Entries<T, By> {
    entries: Vec<T>,
    by: PhantomData<By>,
}

/// Marks a list whose `item` returns a copy of the entry.
pub struct ByValue;

/// Marks a list whose `item` lends the entry.
pub struct ByReference;

/// A list that returns copies of its entries.
pub type CopyList<T> = Entries<T, ByValue>;

/// A list that lends its entries.
pub type LentList<T> = Entries<T, ByReference>;

impl<T, By> Model for Entries<T, By> {
    ghost Value = { List T };

    ghost view = { λ c. c.entries.items };
}

impl<T: Drop, By> Entries<T, By> {
    /// Returns an empty list. Takes no memory yet.
    pub fn new(alloc: Global) -> Entries<T, By>
        ensures { result ≡ [] }
    {
        Entries {
            entries: Vec::new(alloc),
            by: PhantomData,
        }
    }

    /// Returns an empty list with room for `capacity` entries.
    ///
    /// # Errors
    ///
    /// `AllocError` if memory runs out.
    pub fn with_capacity(alloc: Global, capacity: usize) -> Result<Entries<T, By>, AllocError>
        ensures { IfOk result (λ list. list ≡ []) }
    {
        let mut entries = Vec::new(alloc);
        entries.reserve(capacity)?;
        Ok(Entries {
            entries,
            by: PhantomData,
        })
    }

    /// Makes room if there is none left: for sixteen more entries, or for as many as the list has, whichever
    /// is more.
    #[inline(always)]
    fn make_room(&mut self) -> Result<(), AllocError>
        ensures { self.new ≡ self.old }
    {
        if self.entries.len() == self.entries.capacity() {
            self.entries.reserve(16)?;
        }
        Ok(())
    }

    /// Appends an entry.
    ///
    /// # Errors
    ///
    /// `AllocError` if memory runs out. The list is then unchanged.
    #[inline(always)]
    pub fn push(&mut self, entry: T) -> Result<(), AllocError>
        ensures ok { OnOk result (self.new ≡ self.old ++ entry ∷ []) }
        ensures err { OnErr result (self.new ≡ self.old) }
    {
        self.make_room()?;
        self.entries.push(entry)?;
        Ok(())
    }

    /// Returns the number of entries.
    #[inline(always)]
    pub fn len(&self) -> usize
        ensures { result ≡ length self.now }
    {
        self.entries.len()
    }

    /// Returns the entries as a slice.
    pub fn as_slice(&self) -> &[T]
        ensures { result.now ≡ self.now }
    {
        self.entries.as_slice()
    }

    /// Returns an iterator over the entries, in order.
    pub fn iter(&self) -> Iter<'_, T>
        ensures rest { iter_rest result ≡ self.now }
        ensures runs { IterYieldsInOrder T }
    {
        self.entries.iter()
    }
}

impl<T: Copy> CopyList<T> {
    /// Returns a list of the entries of a slice, in order.
    ///
    /// # Errors
    ///
    /// `AllocError` if memory runs out.
    pub fn from_slice(alloc: Global, entries: &[T]) -> Result<CopyList<T>, AllocError>
        ensures { IfOk result (λ list. list ≡ entries.now) }
    {
        let mut list = Entries::new(alloc);
        list.extend_from_slice(entries)?;
        Ok(list)
    }

    /// Returns the entry at index `i`, from 0.
    #[inline(always)]
    pub fn item(&self, i: usize) -> T
        requires { i < length self.now }
        ensures value { slice_get self.now i ≡ Some result }
        ensures index { result ≡ slice_index_or self.now i result }
    {
        self.entries[i]
    }

    /// Appends the entries of a slice, in order.
    ///
    /// # Errors
    ///
    /// `AllocError` if memory runs out. The list is then unchanged.
    pub fn extend_from_slice(&mut self, entries: &[T]) -> Result<(), AllocError>
        ensures ok { OnOk result (self.new ≡ self.old ++ entries.now) }
        ensures err { OnErr result (self.new ≡ self.old) }
    {
        self.entries.extend_from_slice(entries)
    }
}

impl<T: Drop> LentList<T> {
    /// Returns the entry at index `i`, from 0.
    #[inline(always)]
    pub fn item(&self, i: usize) -> &T
        requires { i < length self.now }
        ensures value { slice_get self.now i ≡ Some result.now }
        ensures index { result.now ≡ slice_index_or self.now i result.now }
    {
        &self.entries[i]
    }
}

/// One field of a syntax structure: its number and its value.
#[derive(Clone, Copy, PartialEq, Eq)]
pub struct Item {
    /// The number of the field.
    pub field: u16,
    /// The value that the bits code.
    pub value: i64,
}

/// The value of a syntax structure: its fields in the order of their bits.
pub type Fields = CopyList<Item>;

/// A list of bytes.
pub type Bytes = CopyList<u8>;

/// A list of byte strings.
pub type ByteLists = LentList<Bytes>;

/// A list of borrowed byte strings.
pub type BodyList<'a> = CopyList<&'a [u8]>;

/// A list of ids.
pub type IdList = CopyList<u32>;

impl CopyList<Item> {
    /// Returns the value of the first item of `field`, or `None` if no item has it.
    pub fn first(&self, field: u16) -> Option<i64>
        ensures { result ≡ first_value self.now field }
    {
        self.entries
            .iter()
            .find(|item| item.field == field)
            .map(|item| item.value)
    }
}
