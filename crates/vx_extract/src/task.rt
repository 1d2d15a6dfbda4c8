//! Writing the subpicture of one picture.
ghost use Rattle.std.specs.Prelude.{◌≡◌, ◌≤◌, List, None, IfSome};
ghost use Rattle.vx_pic.specs.Written.{Plan};
ghost use Rattle.vx_pic.specs.Resident.{history_of};
ghost use Rattle.vx_extract.specs.Extracting.{JudgesSo, WritesPicture};
ghost use Rattle.vx_extract.specs.inner.Rewritings.{IsRewriting};
ghost use Rattle.vx_write.specs.Slots.{AreLastOf};

use crate::output::write_picture;
use crate::rewritten::Rewritten;
use crate::rules::{is_kept, refusal_of};
use crate::send::make;
use std::alloc::Global;
use vx_io::Sink;
use vx_pic::Picture;
use vx_write::{Slots, WriteError};

/// What an extractor was asked for.
#[derive(Clone, Copy)]
pub(crate) struct Task {
    /// The index of the subpicture.
    pub(crate) target: u32,
    /// The level to write; `None` keeps the source's.
    pub(crate) level: Option<u8>,
    /// The highest TemporalId that is kept.
    pub(crate) tid: u8,
}

/// Writes the subpicture of a picture after those of others, if its sublayer is kept.
pub(crate) fn write<K: Sink>(
    alloc: Global,
    task: Task,
    slots: &mut Slots,
    kept: &mut Option<Rewritten>,
    picture: &Picture<'_>,
    out: &mut K,
) -> Result<(), WriteError>
    requires tid { task.tid ≤ 6 }
    requires kept { IfSome kept.old (IsRewriting task.target task.level) }
    ensures kept { IfSome kept.new (IsRewriting task.target task.level) }
    ensures verdict { JudgesSo picture.now (record { target = task.target; level = task.level; tid = task.tid; slots = slots.new; first = None }) result }
    ensures answer { (done : List Plan) → AreLastOf (history_of done) slots.old
        → WritesPicture picture.now done (record { target = task.target; level = task.level; tid = task.tid; slots = slots.new; first = None })
        (K.bytes_taken out.old) (K.bytes_taken out.new) (K.write_faults out.old) (K.write_faults out.new) result }
{
    if let Some(refusal) = refusal_of(picture, task.target, task.tid) {
        return Err(WriteError::Refused(refusal));
    }
    if !is_kept(picture, task.tid) {
        return Ok(());
    }
    let made = make(alloc, slots, kept, picture, task.target, task.level)?;
    write_picture(out, picture, task.target, &made)?;
    Ok(())
}
