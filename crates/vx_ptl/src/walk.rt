//! The walks over the structures, for every coder. A structure that contains one of these builds on its walk.

ghost use Rattle.vx_table.specs.Forms.{form_of};
ghost use Rattle.vx_table.specs.Walks.{Walks, leaving};

use crate::tables::{DPB, PTL, SUBLAYER_TIMING, TIMING};
use vx_table::{Coder, Scope, code_table};

/// Codes profile, tier and level (clause 7.3.3.1). The scope has the highest sublayer.
///
/// # Errors
///
/// The coder's error at the first field that it refuses.
pub fn code_ptl<I, C: Coder<I>>(
    scope: &mut Scope,
    coder: &mut C,
    items: &mut I,
) -> Result<(), C::Fault>
    ensures { Walks C.step (form_of PTL scope.old) coder.old items.old (leaving scope.new result) coder.new items.new }
{
    code_table(&PTL, scope, coder, items)
}

/// Codes DPB parameters (clause 7.3.4). The scope has the highest sublayer, and whether each sublayer has an entry.
///
/// # Errors
///
/// As [`code_ptl`].
pub fn code_dpb<I, C: Coder<I>>(
    scope: &mut Scope,
    coder: &mut C,
    items: &mut I,
) -> Result<(), C::Fault>
    ensures { Walks C.step (form_of DPB scope.old) coder.old items.old (leaving scope.new result) coder.new items.new }
{
    code_table(&DPB, scope, coder, items)
}

/// Codes general timing and HRD parameters (clause 7.3.5.1), which use nothing of the scope.
///
/// # Errors
///
/// As [`code_ptl`].
pub fn code_timing<I, C: Coder<I>>(
    scope: &mut Scope,
    coder: &mut C,
    items: &mut I,
) -> Result<(), C::Fault>
    ensures { Walks C.step (form_of TIMING scope.old) coder.old items.old (leaving scope.new result) coder.new items.new }
{
    code_table(&TIMING, scope, coder, items)
}

/// Codes sublayer timing and HRD parameters (clauses 7.3.5.2 and 7.3.5.3).
///
/// The scope has the highest sublayer, whether each sublayer has an entry, and the fields of general timing.
///
/// # Errors
///
/// As [`code_ptl`].
pub fn code_sublayer_timing<I, C: Coder<I>>(
    scope: &mut Scope,
    coder: &mut C,
    items: &mut I,
) -> Result<(), C::Fault>
    ensures { Walks C.step (form_of SUBLAYER_TIMING scope.old) coder.old items.old (leaving scope.new result) coder.new items.new }
{
    code_table(&SUBLAYER_TIMING, scope, coder, items)
}
