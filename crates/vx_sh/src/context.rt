//! The numbers under which a slice header is read and written.
ghost use Rattle.std.specs.Prelude.{◌≡◌, ◌≤◌, length};

use vx_bits::IdList;
use vx_layout::Layout;
use vx_rpl::RplTable;
use vx_table::Scope;

/// The input of a slice header besides its scope, which has the numbers of the sets and of the picture header in force.
#[derive(Clone, Copy)]
pub(crate) struct Context<'a> {
    /// The numbers of the SPS and the PPS, under which a picture header inside is read.
    pub sets: &'a Scope,
    /// The SPS's structures of reference picture lists.
    pub table: &'a RplTable,
    /// The layout of the picture.
    pub layout: &'a Layout,
    /// The ids of its subpictures.
    pub ids: &'a IdList,
    ghost few: { length ids.now ≤ 1000 },
    ghost one_each: { length ids.now ≡ length layout.now.subpics },
}
