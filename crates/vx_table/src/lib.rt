//! Syntax tables of H.266 as data, and one walk over them that reads and writes.
//!
//! A table is a constant array of [`Row`]s, written by [`table!`] in the form of the standard's own tables.
//! [`code_table`] walks over it with any [`Coder`]. [`read_table`] walks with a bit reader and appends items,
//! [`write_table`] walks with a bit writer and takes items, and [`keep_table`] keeps only the items of kept
//! fields. [`Scope`] holds the numbers that conditions, widths and ranges use. [`Rewriter`] makes a new
//! structure from the items of some fields and those of the others; [`Sender`] writes that structure in the
//! same walk. [`rows!`] writes a table as a type ([`Rows`]), and [`code_section`] walks over it, for walks
//! that are made very often. [`depends_only_on`] and [`keeps_only`] test which numbers the fields of a table
//! depend on, and which fields it keeps.
//!
//! `specs/Spelling.antt` defines the bits of a table's values, `specs/Forms.antt` what its rows mean, and
//! `specs/Kept.antt` what is kept. docs/TABLES.md explains how to read a table and how to add one.
#![tactic(auto)]
#![allow(non_upper_case_globals)]

mod arithmetic;
pub mod by_type;
mod constants;
mod depends;
mod gather;
mod kept;
mod laws_again;
mod laws_depends;
mod laws_hidden;
mod laws_loaded;
mod laws_numbers;
mod laws_rewritten;
mod laws_rows;
mod laws_sizes;
mod laws_spelling;
mod macros;
mod parts;
mod passing;
mod ranges;
mod reader;
mod rewriter;
mod rows;
mod scope;
mod sender;
mod stars;
mod walk;
mod writer;

pub use arithmetic::{ceil_log2, natural, quotient};
pub use by_type::{Rows, code_section};
pub use depends::{depends_only_on, parts_depend_only_on};
pub use gather::{item, items_of, others_of, push_where};
pub use kept::{keep_parts, keep_table};
pub use laws_again::{answers_again, follows_again, reads_again, tables_show};
pub use laws_depends::{
    alike_together, cells_follow_items, cells_follow_kept, chains_carry, chains_depend,
    kept_tells_kept, scopes_follow_items, steps_carry, tables_carry,
};
pub use laws_hidden::{fields_hidden, hidden_have_no_items, hidden_parts};
pub use laws_loaded::{items_load, number_below, number_of_items};
pub use laws_numbers::ceil_log2_is_least;
pub use laws_rewritten::{
    items_take, makes_rewritten, parts_leave, parts_rewrite, rewrites_one_way, rewritten_is_read,
    rewritten_keeps, sections_together, sent_as_rewritten, what_goes_is_rewritten,
};
pub use laws_rows::first_row_first;
pub use laws_sizes::bits_at_most;
pub use laws_spelling::{
    ends_in_stop, every_answer, items_in_range, no_proper_prefix, one_answer, one_behind_another,
    one_reading, one_writing, read_back, spelled_both_ways, what_may_follow,
};
pub use parts::{Part, code_parts, read_parts, write_parts};
pub use passing::{pass_parts, pass_table};
pub use ranges::{fault_of, has_code, is_value};
pub use reader::{read_table, read_value, report, take_code, take_field};
pub use rewriter::{Rewriter, rewrite_parts, rewrite_table};
pub use rows::{Cell, Coding, Fault, Formula, Limits, Presence, Row, Term};
pub use scope::Scope;
pub use sender::{FieldSet, Sender};
pub use stars::{NameList, keeps_only, parts_keep_only, push_unstarred};
pub use walk::{Coder, code_table, coding_of, has_value};
pub use writer::{SpellError, Unwritten, only_memory, take_value, write_code, write_table};
