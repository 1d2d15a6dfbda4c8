//! Laws of rewritten sets. A law is a function that does nothing; its contract states it.
ghost use Rattle.vx_sps.specs.laws.Reread.{ReshapedSays, ReshapedSignals, ReshapedKeeps};

/// If a set is rewritten, then it has the width, height, rectangles, flags and ids of its shape. So has what is read of it
/// again, since that is the set ([`crate::written_is_read`]).
pub fn reshaped_says()
    ensures { ReshapedSays }
{}

/// If a set is rewritten, then it signals its shape's id, and the ids of its subpictures as the shape's plan says.
pub fn reshaped_signals()
    ensures { ReshapedSignals }
{}

/// If a set is rewritten, then it has the kept fields of its source.
pub fn reshaped_keeps()
    ensures { ReshapedKeeps }
{}
