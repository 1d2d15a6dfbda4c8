//! Reference picture lists of H.266: their structures, the lists of a header, and prediction weights.
//!
//! [`read_struct`] and [`write_struct`] code a list structure (7.3.10), [`read_lists`] and [`write_lists`]
//! the two lists of a header (7.3.9), and [`read_weights`] and [`write_weights`] the weights (7.3.8).
//! [`resolve_lists`] returns the [`RefLists`] to which the items of a header lead. [`StructureList`] holds
//! the structures of an SPS.
//!
//! `specs/Lists.antt`, `specs/HeaderLists.antt` and `specs/Resolved.antt` define structures, lists of a
//! header, and the lists that follow from them.
#![tactic(auto)]

mod entry;
mod laws;
mod lists;
mod numbers;
mod read;
mod resolved;
mod tables;
mod walk;
mod write;

pub use entry::{RefEntry, RefList, RefLists, RplTable, Structure, StructureList};
pub use laws::{
    entries_are_counted, fields_are_coded_once, lists_carry, lists_depend, lists_follow_items,
    lists_pass, structure_depends, structures_written_alike, tables_follow_items, weights_depend,
};
pub use lists::resolve_lists;
pub use numbers::{RplNumbers, WeightNumbers};
pub use read::{read_lists, read_struct, read_weights};
pub use tables::{
    BEFORE_LIST_0, BEHIND_LIST_0, BEHIND_LIST_1, CHOICE, LONG_TERM, REF_PIC_LIST_STRUCT, WEIGHTS,
    WEIGHTS_0, WEIGHTS_1,
};
pub use walk::{code_first, code_lists, code_second, code_weights};
pub use write::{write_lists, write_struct, write_weights};
