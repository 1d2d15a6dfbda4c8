//! Entries of reference picture lists, and the list structures of an SPS.
ghost use Rattle.std.specs.Prelude.{◌≡◌, ◌<◌, ◌≤◌, List, [], ◌∷◌, ◌++◌, length, Some, OnOk, OnErr, slice_get};

use smallvec::SmallVec;
use std::alloc::{AllocError, Global};
use std::marker::Model;

/// An entry of a reference picture list, which identifies its picture (H.266 7.3.10 and 7.4.11).
#[derive(Clone, Copy, PartialEq, Eq)]
pub enum RefEntry {
    /// A short-term reference picture: AbsDeltaPocSt, and the sign.
    Short {
        /// The distance of its picture order count from that of the entry before it, or of the picture.
        abs: u32,
        /// strp_entry_sign_flag.
        sign: bool,
    },
    /// A long-term reference picture: the least significant bits of its picture order count, and the difference of the
    /// most significant ones if that is signalled.
    Long {
        /// rpls_poc_lsb_lt or poc_lsb_lt.
        lsb: u32,
        /// delta_poc_msb_cycle_lt, if it is present.
        msb: Option<u32>,
    },
}

impl RefEntry {
    ghost use Rattle.std.specs.Prelude.{◌≡◌};
    ghost use Rattle.vx_rpl.specs.Lists.{is_long};

    /// Returns whether it is a long-term reference picture.
    pub fn is_long(&self) -> bool
        ensures { result ≡ is_long self.now }
    {
        matches!(self, RefEntry::Long { .. })
    }
}

impl Default for RefEntry {
    fn default() -> RefEntry {
        RefEntry::Short {
            abs: 0,
            sign: false,
        }
    }
}

/// A reference picture list of at most 29 entries.
///
/// Up to four of them take no memory. *Model:* the list of its entries.
#[derive(Drop)]
pub struct RefList {
    entries: SmallVec<RefEntry, 4>,
}

impl Model for RefList {
    ghost use Rattle.std.specs.Prelude.{List, length, ◌≤◌};
    ghost use Rattle.vx_rpl.specs.declared.entry.RefEntry.{RefEntry};

    ghost Value = { List RefEntry };

    ghost view = { λ l. l.entries.items };

    ghost invariant = { λ l. length l.entries.items ≤ 29 };
}

impl RefList {
    ghost use Rattle.std.specs.Prelude.{◌≡◌, ◌<◌, ◌≤◌, List, [], ◌∷◌, ◌++◌, length, Some, OnOk, OnErr, slice_get};

    /// Returns an empty list. Takes no memory.
    pub fn new(alloc: Global) -> RefList
        ensures { result ≡ [] }
    {
        RefList {
            entries: SmallVec::new(alloc),
        }
    }

    /// Appends an entry. The list must have fewer than 29.
    ///
    /// # Errors
    ///
    /// `AllocError` if memory runs out. The list is then unchanged.
    pub fn push(&mut self, entry: RefEntry) -> Result<(), AllocError>
        requires { length self.old < 29 }
        ensures ok { OnOk result (self.new ≡ self.old ++ entry ∷ []) }
        ensures err { OnErr result (self.new ≡ self.old) }
    {
        self.entries.push(entry)?;
        Ok(())
    }

    /// Returns the number of entries, at most 29.
    pub fn len(&self) -> usize
        ensures value { result ≡ length self.now }
        ensures most { result ≤ 29 }
    {
        self.entries.len()
    }

    /// Returns the entry at index `i`, from 0.
    pub fn item(&self, i: usize) -> RefEntry
        requires { i < length self.now }
        ensures { slice_get self.now i ≡ Some result }
    {
        self.entries.as_slice()[i]
    }
}

/// The two reference picture lists of a header.
#[derive(Drop)]
pub struct RefLists {
    /// List 0.
    pub first: RefList,
    /// List 1.
    pub second: RefList,
}

/// A reference picture list structure of an SPS (H.266 7.3.10).
#[derive(Drop)]
pub struct Structure {
    /// Its entries.
    pub entries: RefList,
    /// ltrp_in_header_flag: the least significant bits of its long-term entries are in headers.
    pub in_header: bool,
}

/// The reference picture list structures of one list of an SPS, at most 64.
///
/// *Model:* the list of these structures.
#[derive(Drop)]
pub struct StructureList {
    structures: Vec<Structure>,
}

impl Model for StructureList {
    ghost use Rattle.std.specs.Prelude.{List, length, ◌≤◌};
    ghost use Rattle.vx_rpl.specs.declared.entry.Structure.{Structure};

    ghost Value = { List Structure };

    ghost view = { λ l. l.structures.items };

    ghost invariant = { λ l. length l.structures.items ≤ 64 };
}

impl StructureList {
    ghost use Rattle.std.specs.Prelude.{◌≡◌, ◌<◌, ◌≤◌, List, [], ◌∷◌, ◌++◌, length, OnOk, OnErr, slice_get, option_copied};

    /// Returns an empty list. Takes no memory.
    pub fn new(alloc: Global) -> StructureList
        ensures { result ≡ [] }
    {
        StructureList {
            structures: Vec::new(alloc),
        }
    }

    /// Appends a structure. The list must have fewer than 64.
    ///
    /// # Errors
    ///
    /// `AllocError` if memory runs out. The list is then unchanged.
    pub fn push(&mut self, structure: Structure) -> Result<(), AllocError>
        requires { length self.old < 64 }
        ensures ok { OnOk result (self.new ≡ self.old ++ structure ∷ []) }
        ensures err { OnErr result (self.new ≡ self.old) }
    {
        self.structures.push(structure)?;
        Ok(())
    }

    /// Returns the number of structures, at most 64.
    pub fn len(&self) -> usize
        ensures value { result ≡ length self.now }
        ensures most { result ≤ 64 }
    {
        self.structures.len()
    }

    /// Returns the structure at index `i`, from 0, or `None` if there is none.
    pub fn get(&self, i: usize) -> Option<&Structure>
        ensures { option_copied result ≡ slice_get self.now i }
    {
        self.structures.get(i)
    }
}

/// The reference picture list structures of an SPS, for list 0 and for list 1.
#[derive(Drop)]
pub struct RplTable {
    /// The structures of list 0.
    pub first: StructureList,
    /// The structures of list 1, which are list 0's if rpl1_same_as_rpl0_flag is 1.
    pub second: StructureList,
}
