//! An extractor: a subpicture of picture after picture becomes one stream.

use crate::rewritten::Rewritten;
use crate::rules::refusal_of;
use crate::task::{Task, write};
use std::alloc::Global;
use std::marker::Model;
use vx_io::Sink;
use vx_pic::Picture;
use vx_write::{Slots, WriteError, WriteFirst, first_of};

/// The highest TemporalId (H.266 7.4.2.2).
const ALL: u8 = 6;

/// Writes a subpicture of picture after picture, as a stream of its own.
///
/// After a refusal, lack of memory or a failed write every call returns [`WriteError::Stopped`] with it, and writes nothing.
pub struct Extractor {
    alloc: Global,
    task: Task,
    slots: Slots,
    kept: Option<Rewritten>,
    first: Option<WriteFirst>,
}

impl Drop for Extractor {
    fn drop(self) {
        let Extractor {
            alloc: _,
            task: _,
            slots: _,
            kept: _,
            first: _,
        } = self;
    }
}

impl Model for Extractor {
    ghost use Rattle.std.specs.Prelude.{◌≤◌, IfSome};
    ghost use Rattle.vx_extract.specs.inner.Rewritings.{IsRewriting};
    ghost use Rattle.vx_extract.specs.Extracting.{Extracting};

    ghost Value = { Extracting };

    ghost view = { λ e. record { target = e.task.target; level = e.task.level; tid = e.task.tid; slots = e.slots; first = e.first } };

    ghost invariant = { λ e. (e.task.tid ≤ 6) × IfSome e.kept (IsRewriting e.task.target e.task.level) };
}

impl Extractor {
    ghost use Rattle.std.specs.Prelude.{◌≡◌, ◌≤◌, List, [], Some, None, Err, IfErr, OnOk};
    ghost use Rattle.vx_pic.specs.Written.{Plan};
    ghost use Rattle.vx_write.specs.declared.fault.WriteFirst.{WriteFirst as First};
    ghost use Rattle.vx_write.specs.declared.fault.WriteError.TheVariants.{Stopped};
    ghost use Rattle.vx_write.specs.Faults as faults;
    ghost use Rattle.vx_extract.specs.Extracting.{Stands, WritesPicture, ChecksPicture, JudgesSo, SameTask};

    /// Makes an extractor of subpicture `target` that keeps all sublayers.
    ///
    /// `level` is the level to write; `None` keeps the source's.
    pub fn new(alloc: Global, target: u32, level: Option<u8>) -> Extractor
        ensures task { (result.target ≡ target) × (result.level ≡ level) × (result.tid ≡ 6) }
        ensures stands { Stands result [] }
    {
        Extractor::limited(alloc, target, level, ALL)
    }

    /// Makes an extractor of subpicture `target` that keeps pictures with a TemporalId of at most `tid`.
    ///
    /// `level` is the level to write; `None` keeps the source's.
    pub fn limited(alloc: Global, target: u32, level: Option<u8>, tid: u8) -> Extractor
        requires { tid ≤ 6 }
        ensures task { (result.target ≡ target) × (result.level ≡ level) × (result.tid ≡ tid) }
        ensures stands { Stands result [] }
    {
        Extractor {
            alloc,
            task: Task { target, level, tid },
            slots: Slots::new(alloc),
            kept: None,
            first: None,
        }
    }

    /// Writes the subpicture of a picture, after those of earlier pictures. Writes nothing if the picture's sublayer is left out.
    ///
    /// The units come in this order: an end of sequence where one stood, the needed sets that aren't resident, the messages, the picture
    /// header, and the slices of the subpicture. The picture header and the slices are copied byte for byte. What is written is specified
    /// only if the picture has a slice of the subpicture, as each picture of a stream has.
    ///
    /// *Errors:* `Refused`: the first rule that the picture breaks (E2 to E5). `Memory`. After either, nothing of the picture is written.
    /// `SinkFailed`: a proper prefix of it is written. After an error every call returns `Stopped` with it.
    pub fn picture<K: Sink>(&mut self, picture: &Picture<'_>, out: &mut K) -> Result<(), WriteError>
        ensures answer { (done : List Plan) → Stands self.old done
            → WritesPicture picture.now done self.new (K.bytes_taken out.old) (K.bytes_taken out.new) (K.write_faults out.old) (K.write_faults out.new) result }
        ensures verdict { self.old.first ≡ None → JudgesSo picture.now self.new result }
        ensures task { SameTask self.old self.new }
        ensures first { IfErr result (λ e. self.new.first ≡ Some (faults.first_of e)) }
        ensures stopped { (f : First) → self.old.first ≡ Some f → (result ≡ Err (Stopped f)) × (self.new ≡ self.old) × (out.new ≡ out.old) }
    {
        if let Some(first) = self.first {
            return Err(WriteError::Stopped(first));
        }
        let (alloc, task) = (self.alloc, self.task);
        match write(alloc, task, &mut self.slots, &mut self.kept, picture, out) {
            Ok(()) => Ok(()),
            Err(error) => {
                self.first = Some(first_of(error));
                Err(error)
            }
        }
    }

    /// Checks whether the subpicture of a picture can be extracted. Writes nothing and takes no memory.
    ///
    /// The result is that of [`Extractor::picture`] if memory suffices and no write fails. *Errors:* `Refused`: the first rule that the
    /// picture breaks (E2 to E5). After an error every call returns `Stopped` with it.
    pub fn check(&mut self, picture: &Picture<'_>) -> Result<(), WriteError>
        ensures answer { self.old.first ≡ None → ChecksPicture picture.now self.old result }
        ensures task { SameTask self.old self.new }
        ensures first { IfErr result (λ e. self.new.first ≡ Some (faults.first_of e)) }
        ensures stopped { (f : First) → self.old.first ≡ Some f → (result ≡ Err (Stopped f)) × (self.new ≡ self.old) }
        ensures stays { OnOk result (self.new ≡ self.old) }
    {
        if let Some(first) = self.first {
            return Err(WriteError::Stopped(first));
        }
        match refusal_of(picture, self.task.target, self.task.tid) {
            None => Ok(()),
            Some(refusal) => {
                self.first = Some(WriteFirst::Refused(refusal));
                Err(WriteError::Refused(refusal))
            }
        }
    }
}
