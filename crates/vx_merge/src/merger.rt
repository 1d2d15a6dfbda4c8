//! A merger: round after round of pictures becomes one stream.
ghost use Rattle.std.specs.Prelude.{◌≡◌, All, List, length, map, IfOk, OnOk};
ghost use Rattle.vx_pic.specs.Written.{Plan};
ghost use Rattle.vx_frame.specs.Corners.{AreCorners};
ghost use Rattle.vx_merge.specs.Joins as words;
ghost use Rattle.vx_merge.specs.Merging.{ChecksRound, Stands};
ghost use Rattle.vx_merge.specs.inner.Counting.{WritesAs, WritesWhere, pictures_where};
ghost use Rattle.vx_merge.specs.inner.Progress.{IsProgress, merging_of};

use crate::joins::join_refusal;
use crate::output::write_units;
use crate::progress::Progress;
use crate::round::round_units;
use std::alloc::{AllocError, Global};
use std::marker::Model;
use vx_frame::Corner;
use vx_io::Sink;
use vx_pic::{Lender, Picture, lent};
use vx_write::{Slots, WriteError, WriteFirst, first_of};

/// Merges round after round, or checks round after round. A round is one picture of each source.
///
/// A round that passes a check counts as written, so a merger either checks or writes. After a refusal, lack of memory or a failed write
/// every call returns [`WriteError::Stopped`] with it, and writes nothing.
pub struct Merger {
    alloc: Global,
    corners: Vec<Corner>,
    level: Option<u8>,
    progress: Progress,
    first: Option<WriteFirst>,
}

impl Drop for Merger {
    fn drop(self) {
        let Merger {
            alloc: _,
            corners: _,
            level: _,
            progress: _,
            first: _,
        } = self;
    }
}

impl Model for Merger {
    ghost use Rattle.std.specs.Prelude.{◌≡◌, None};
    ghost use Rattle.vx_frame.specs.Corners.{AreCorners};
    ghost use Rattle.vx_merge.specs.Merging.{Merging};
    ghost use Rattle.vx_merge.specs.inner.Progress.{IsProgress};

    ghost Value = { Merging };

    ghost view = { λ m. record { corners = m.corners.items; level = m.level; slots = m.progress.slots; bytes = m.progress.bytes; first = m.first } };

    ghost invariant = { λ m. AreCorners m.corners.items × (m.first ≡ None → IsProgress m.corners.items m.level m.progress) };
}

/// Returns the lent pictures, each after an end of sequence.
fn joined<L: Lender>(alloc: Global, lenders: &[L]) -> Result<Vec<Picture<'_>>, AllocError>
    requires { All L.holds lenders.now }
    ensures { IfOk result (λ round. round.items ≡ map words.after_end_of_sequence (map L.lent lenders.now)) }
{
    let mut round = Vec::new(alloc);
    for lender in lenders {
        round.push(lender.picture().after_end())?;
    }
    Ok(round)
}

/// Returns the lent pictures, as they are or each after an end of sequence.
fn pictures<L: Lender>(
    alloc: Global,
    lenders: &[L],
    joins: bool,
) -> Result<Vec<Picture<'_>>, AllocError>
    requires { All L.holds lenders.now }
    ensures { IfOk result (λ round. round.items ≡ pictures_where joins (map L.lent lenders.now)) }
{
    if joins {
        return joined(alloc, lenders);
    }
    lent(alloc, lenders)
}

/// Checks a round of pictures, and counts it as written.
fn check_round(
    alloc: Global,
    corners: &[Corner],
    level: Option<u8>,
    progress: &mut Progress,
    round: &[Picture<'_>],
) -> Result<(), WriteError>
    requires corners { AreCorners corners.now }
    requires same { length corners.now ≡ length round.now }
    requires progress { IsProgress corners.now level progress.old }
    ensures progress { OnOk result (IsProgress corners.now level progress.new) }
    ensures answer { (done : List Plan) → Stands (merging_of corners.now level progress.old) done
        → ChecksRound round.now done (merging_of corners.now level progress.new) result }
{
    match round_units(alloc, corners, level, progress, round) {
        Ok(_units) => Ok(()),
        Err(error) => Err(error),
    }
}

/// Checks a round of lenders, and counts it as written.
fn check_lent<L: Lender>(
    alloc: Global,
    corners: &[Corner],
    level: Option<u8>,
    progress: &mut Progress,
    lenders: &[L],
) -> Result<(), WriteError>
    requires corners { AreCorners corners.now }
    requires count { length lenders.now ≡ length corners.now }
    requires holds { All L.holds lenders.now }
    requires progress { IsProgress corners.now level progress.old }
    ensures progress { OnOk result (IsProgress corners.now level progress.new) }
    ensures answer { (done : List Plan) → Stands (merging_of corners.now level progress.old) done
        → ChecksRound (map L.lent lenders.now) done (merging_of corners.now level progress.new) result }
{
    let round = lent(alloc, lenders)?;
    check_round(alloc, corners, level, progress, &round)
}

/// Writes a round of pictures; `joins` says whether it comes after an end of sequence.
fn write_round<K: Sink>(
    alloc: Global,
    corners: &[Corner],
    level: Option<u8>,
    progress: &mut Progress,
    round: &[Picture<'_>],
    joins: bool,
    out: &mut K,
) -> Result<(), WriteError>
    requires corners { AreCorners corners.now }
    requires same { length corners.now ≡ length round.now }
    requires progress { IsProgress corners.now level progress.old }
    ensures progress { OnOk result (IsProgress corners.now level progress.new) }
    ensures answer { (done : List Plan) → Stands (merging_of corners.now level progress.old) done
        → WritesAs joins round.now done (merging_of corners.now level progress.new)
        (K.bytes_taken out.old) (K.bytes_taken out.new) (K.write_faults out.old) (K.write_faults out.new) result }
{
    if let Some(refusal) = join_refusal(joins, round) {
        return Err(WriteError::Refused(refusal));
    }
    let units = round_units(alloc, corners, level, progress, round)?;
    write_units(out, &units)?;
    Ok(())
}

/// Writes a round of lenders; `joins` says whether it comes after an end of sequence.
fn write_lent<L: Lender, K: Sink>(
    alloc: Global,
    corners: &[Corner],
    level: Option<u8>,
    progress: &mut Progress,
    lenders: &[L],
    joins: bool,
    out: &mut K,
) -> Result<(), WriteError>
    requires corners { AreCorners corners.now }
    requires count { length lenders.now ≡ length corners.now }
    requires holds { All L.holds lenders.now }
    requires progress { IsProgress corners.now level progress.old }
    ensures progress { OnOk result (IsProgress corners.now level progress.new) }
    ensures answer { (done : List Plan) → Stands (merging_of corners.now level progress.old) done
        → WritesWhere joins (map L.lent lenders.now) done (merging_of corners.now level progress.new)
        (K.bytes_taken out.old) (K.bytes_taken out.new) (K.write_faults out.old) (K.write_faults out.new) result }
{
    let round = pictures(alloc, lenders, joins)?;
    write_round(alloc, corners, level, progress, &round, joins, out)
}

impl Merger {
    ghost use Rattle.std.specs.Prelude.{◌≡◌, All, List, [], map, length, Some, Err, IfErr, IfOk};
    ghost use Rattle.vx_pic.specs.Written.{Plan};
    ghost use Rattle.vx_write.specs.Faults as faults;
    ghost use Rattle.vx_write.specs.declared.fault.WriteFirst.{WriteFirst as First};
    ghost use Rattle.vx_write.specs.declared.fault.WriteError.TheVariants.{Stopped};
    ghost use Rattle.vx_frame.specs.Corners.{AreCorners};
    ghost use Rattle.vx_merge.specs.Joins as words;
    ghost use Rattle.vx_merge.specs.Joins.{WritesJoined};
    ghost use Rattle.vx_merge.specs.Merging.{ChecksRound, SameTask, Stands, WritesOneRound};
    ghost use Rattle.vx_merge.specs.inner.Counting.{WritesWhere};

    /// Makes a merger of regions with these upper left corners, in luma samples.
    ///
    /// `level` is the level to write; `None` means the highest of the sources'. *Errors:* [`AllocError`] if memory runs out.
    pub fn new(alloc: Global, corners: &[Corner], level: Option<u8>) -> Result<Merger, AllocError>
        requires { AreCorners corners.now }
        ensures task { IfOk result (λ m. (m.corners ≡ corners.now) × (m.level ≡ level)) }
        ensures stands { IfOk result (λ m. Stands m []) }
    {
        let mut own = Vec::new(alloc);
        own.extend_from_slice(corners)?;
        Ok(Merger {
            alloc,
            corners: own,
            level,
            progress: Progress {
                frame: None,
                slots: Slots::new(alloc),
                bytes: 0,
            },
            first: None,
        })
    }

    /// Writes the merged picture of a round; `joins` says whether it comes after an end of sequence.
    fn write<L: Lender, K: Sink>(
        &mut self,
        lenders: &[L],
        joins: bool,
        out: &mut K,
    ) -> Result<(), WriteError>
        requires count { length lenders.now ≡ length self.old.corners }
        requires holds { All L.holds lenders.now }
        ensures answer { (done : List Plan) → Stands self.old done
            → WritesWhere joins (map L.lent lenders.now) done self.new (K.bytes_taken out.old) (K.bytes_taken out.new) (K.write_faults out.old) (K.write_faults out.new) result }
        ensures task { SameTask self.old self.new }
        ensures first { IfErr result (λ e. self.new.first ≡ Some (faults.first_of e)) }
        ensures stopped { (f : First) → self.old.first ≡ Some f → (result ≡ Err (Stopped f)) × (self.new ≡ self.old) × (out.new ≡ out.old) }
    {
        if let Some(first) = self.first {
            return Err(WriteError::Stopped(first));
        }
        let (alloc, level) = (self.alloc, self.level);
        let progress = &mut self.progress;
        match write_lent(alloc, &self.corners, level, progress, lenders, joins, out) {
            Ok(()) => Ok(()),
            Err(failure) => {
                self.first = Some(first_of(failure));
                Err(failure)
            }
        }
    }

    /// Checks whether a round can be merged and written after earlier rounds. Writes nothing.
    ///
    /// `lenders` has one lender for each corner, in order, and each holds its picture. A round that passes counts as written. *Errors:*
    /// `Refused`: the first rule that the round breaks, with the lowest source that breaks it, or the first limit that the merged picture
    /// would exceed. `Memory`. After an error every call returns `Stopped` with it.
    pub fn check<L: Lender>(&mut self, lenders: &[L]) -> Result<(), WriteError>
        requires count { length lenders.now ≡ length self.old.corners }
        requires holds { All L.holds lenders.now }
        ensures answer { (done : List Plan) → Stands self.old done → ChecksRound (map L.lent lenders.now) done self.new result }
        ensures task { SameTask self.old self.new }
        ensures first { IfErr result (λ e. self.new.first ≡ Some (faults.first_of e)) }
        ensures stopped { (f : First) → self.old.first ≡ Some f → (result ≡ Err (Stopped f)) × (self.new ≡ self.old) }
    {
        if let Some(first) = self.first {
            return Err(WriteError::Stopped(first));
        }
        let (alloc, level) = (self.alloc, self.level);
        let progress = &mut self.progress;
        match check_lent(alloc, &self.corners, level, progress, lenders) {
            Ok(()) => Ok(()),
            Err(error) => {
                self.first = Some(first_of(error));
                Err(error)
            }
        }
    }

    /// Writes the merged picture of a round, after those of earlier rounds.
    ///
    /// `lenders` has one lender for each corner, in order, and each holds its picture. The units come in this order: an end of sequence
    /// where one stood, the needed sets that aren't resident, source 0's messages, a picture header, and the slices of all sources.
    ///
    /// - The picture header is source 0's except for its PPS and its LMCS and scaling lists, which are on if a source has them. It has
    ///   neither filter nor QP.
    /// - A slice header is its source's except for the subpicture, the filter with the ids of the merged picture, the use of LMCS and
    ///   scaling lists, and the QP, which counts from source 0's. Its payload is copied byte for byte.
    ///
    /// *Errors:* `Refused`: the first rule that the round breaks, with the lowest source that breaks it, or the first limit that the
    /// merged picture would exceed. `Memory`. After either, nothing of the round is written. `SinkFailed`: a proper prefix of the picture
    /// is written. After an error every call returns `Stopped` with it.
    pub fn round<L: Lender, K: Sink>(
        &mut self,
        lenders: &[L],
        out: &mut K,
    ) -> Result<(), WriteError>
        requires count { length lenders.now ≡ length self.old.corners }
        requires holds { All L.holds lenders.now }
        ensures answer { (done : List Plan) → Stands self.old done
            → WritesOneRound (map L.lent lenders.now) done self.new (K.bytes_taken out.old) (K.bytes_taken out.new) (K.write_faults out.old) (K.write_faults out.new) result }
        ensures task { SameTask self.old self.new }
        ensures first { IfErr result (λ e. self.new.first ≡ Some (faults.first_of e)) }
        ensures stopped { (f : First) → self.old.first ≡ Some f → (result ≡ Err (Stopped f)) × (self.new ≡ self.old) × (out.new ≡ out.old) }
    {
        self.write(lenders, false, out)
    }

    /// Writes the merged picture of a round after an end of sequence, after those of earlier rounds.
    ///
    /// `lenders` is as in [`Merger::round`]. *Errors:* `Refused` with M15, tried before all other rules, for the lowest source whose
    /// picture can't come first: it must start a coded layer video sequence, have TemporalId 0, and be a reference picture. Otherwise as
    /// [`Merger::round`].
    pub fn joined_round<L: Lender, K: Sink>(
        &mut self,
        lenders: &[L],
        out: &mut K,
    ) -> Result<(), WriteError>
        requires count { length lenders.now ≡ length self.old.corners }
        requires holds { All L.holds lenders.now }
        ensures answer { (done : List Plan) → Stands self.old done
            → WritesJoined (map words.after_end_of_sequence (map L.lent lenders.now)) done self.new (K.bytes_taken out.old) (K.bytes_taken out.new) (K.write_faults out.old) (K.write_faults out.new) result }
        ensures task { SameTask self.old self.new }
        ensures first { IfErr result (λ e. self.new.first ≡ Some (faults.first_of e)) }
        ensures stopped { (f : First) → self.old.first ≡ Some f → (result ≡ Err (Stopped f)) × (self.new ≡ self.old) × (out.new ≡ out.old) }
    {
        self.write(lenders, true, out)
    }
}
