//! `show [--fields] [--inputs] FILE`: lines for the units, sets, pictures, decoding inputs and fields of a byte stream.

ghost use Rattle.std.specs.Prelude.{◌≡◌, ◌+◌, ◌<◌, ◌++◌, ◌∷◌, [], List, ℕ, length, Some, None, Ok, Err, IfOk, IfErr, MatchOption, OnOk, OnErr, OnSome};
ghost use Rattle.vx_annexb.specs.ByteStream.{UnitPlace};
ghost use Rattle.vx_annexb.specs.Held.{IsSought, is_all};
ghost use Rattle.vx_pic.specs.Readings.{Reading, pictures as pictures_in};
ghost use Rattle.vx_pic.specs.Rules.{Readers};
ghost use Rattle.vx_pic.specs.H266.{AreOfH266};
ghost use Rattle.vx_pic.specs.Told.{told_of};
ghost use Rattle.vx_pic.specs.declared.accepted.Accepted.TheVariants.{PictureDone};
ghost use Rattle.vx_report.specs.SetLine.{set_text};
ghost use Rattle.vx_report.specs.PictureLine.{picture_text};
ghost use Rattle.vx_assemble.specs.Held.{HasPicture};
ghost use Rattle.vx_assemble.specs.Feed.{HasFed, IsOpen, IsTold, IsToldBy, Gives, GivesSeen, Lowers, left_to_take};
ghost use Rattle.vx_assemble.specs.declared.feed.Taken.TheVariants.{End as Ended};
ghost use Rattle.vx_pic.specs.Shown.{no_fields};
ghost use Rattle.vx_report.specs.FieldsLine.{fields_text};
ghost use Rattle.vx_run.specs.Change.{change};
ghost use Rattle.vx_run.specs.Conclusion.{IsOfCommand};
ghost use Rattle.vx_run.specs.Show.{ShowsBy, teller, refused_field, set_lines, picture_lines, unit_lines};
ghost use Rattle.vx_assemble.specs.Feed.{seen_of};
ghost use Rattle.vx_run.specs.inner.Showing.{asked_inputs, seen_by, ReadsOn, GathersNext, Gathers, HasShown, ShowsLater};

use crate::stop::{Place, Stop};
use std::alloc::{AllocError, Global};
use vx_annexb::{NalHeader, ReadFault};
use vx_assemble::{Accepted, Feed, FeedFault, Taken};
use vx_bits::Refusal;
use vx_io::{Sink, Source, write_all};
use vx_pic::StructureFields;
use vx_report::{
    PictureNumbers, SetNumbers, fields_line, input_lines, picture_line, set_line, unit_line,
};

/// Runs `show`: writes lines for each NAL unit of `source`, in order.
///
/// There is a line for the unit, for the set that it is or the picture that it completes, with `inputs` for each slice of this picture,
/// and with `fields` for the fields that the unit spells. The lines of all complete units are written before the next read.
pub(crate) fn show<K: Sink>(
    alloc: Global,
    fields: bool,
    inputs: bool,
    source: &mut Box<dyn Source>,
    out: &mut K,
) -> Result<(), Stop>
    ensures shows { (R : Readers) (h : AreOfH266 R) → ShowsBy R (teller fields inputs R h) (change bytes_left read_faults source.old source.new)
        (change K.bytes_taken K.write_faults out.old out.new) result }
    ensures stop { IfErr result IsOfCommand }
{
    let mut feed = Feed::new(alloc)?;
    show_fed(alloc, fields, inputs, &mut feed, source, out)
}

/// Writes the lines through a feed that has read nothing.
fn show_fed<K: Sink>(
    alloc: Global,
    fields: bool,
    inputs: bool,
    feed: &mut Feed,
    source: &mut Box<dyn Source>,
    out: &mut K,
) -> Result<(), Stop>
    requires sought { IsOpen feed.old → IsSought feed.old.reader.splitter }
    requires none { (R : Readers) (h : AreOfH266 R) → HasShown R (teller fields inputs R h) (change bytes_left read_faults source.old source.old)
        (change K.bytes_taken K.write_faults out.old out.old) feed.old 0 }
    ensures shows { (R : Readers) (h : AreOfH266 R) → ShowsBy R (teller fields inputs R h) (change bytes_left read_faults source.old source.new)
        (change K.bytes_taken K.write_faults out.old out.new) result }
    ensures stop { IfErr result IsOfCommand }
{
    let mut lines = Vec::new(alloc);
    let mut pictures = 0;
    while feed.is_open() {
        read_on(feed, source)?;
        pictures = show_seen(alloc, feed, fields, inputs, pictures, &mut lines, out)?;
    }
    Ok(())
}

/// Reads the source once.
fn read_on(feed: &mut Feed, source: &mut Box<dyn Source>) -> Result<(), Stop>
    requires open { IsOpen feed.old }
    requires sought { IsSought feed.old.reader.splitter }
    ensures answer { (R : Readers) (g : List ℕ) (units : List UnitPlace) (before : List Reading) → HasFed R feed.old g units before
        → ReadsOn R g units before feed.new (change bytes_left read_faults source.old source.new) result }
    ensures grows { OnOk result (IsOpen feed.new → feed.old.reader.taken < feed.new.reader.taken) }
    ensures going { OnOk result (feed.new.first ≡ None) }
    ensures stop { IfErr result IsOfCommand }
{
    match feed.read(&mut **source) {
        Ok(()) => Ok(()),
        Err(ReadFault::Memory) => Err(Stop::NoMemory),
        Err(ReadFault::SourceFailed) => Err(Stop::ReadFault { source: 0 }),
    }
}

/// Writes the lines of the complete units among the bytes read so far, with one write.
///
/// `pictures` is the number of pictures before. Returns the number with those shown.
fn show_seen<K: Sink>(
    alloc: Global,
    feed: &mut Feed,
    fields: bool,
    inputs: bool,
    pictures: u64,
    lines: &mut Vec<u8>,
    out: &mut K,
) -> Result<u64, Stop>
    ensures answer { (R : Readers) (h : AreOfH266 R) (g : List ℕ) (units : List UnitPlace) (before : List Reading)
        → HasFed R feed.old g units before → pictures ≡ length (pictures_in before)
        → ShowsLater R (teller fields inputs R h) g units before feed.new (change K.bytes_taken K.write_faults out.old out.new) result }
    ensures taken { feed.new.reader.taken ≡ feed.old.reader.taken }
    ensures closed { feed.new.reader.closed ≡ feed.old.reader.closed }
    ensures all { is_all feed.new.reader.splitter ≡ is_all feed.old.reader.splitter }
    ensures sought { OnOk result (IsOpen feed.new → IsSought feed.new.reader.splitter) }
    ensures stop { IfErr result IsOfCommand }
{
    lines.clear();
    let ending = gather(alloc, feed, fields, inputs, pictures, lines);
    write_all(out, lines)?;
    ending
}

/// Appends the lines of the complete units among the bytes read so far to `lines`.
///
/// `pictures` is the number of pictures before. Returns the number with those of these units.
fn gather(
    alloc: Global,
    feed: &mut Feed,
    fields: bool,
    inputs: bool,
    pictures: u64,
    lines: &mut Vec<u8>,
) -> Result<u64, Stop>
    ensures answer { (R : Readers) (h : AreOfH266 R) (g : List ℕ) (units : List UnitPlace) (before : List Reading)
        → HasFed R feed.old g units before → pictures ≡ length (pictures_in before)
        → Gathers R (teller fields inputs R h) g units before feed.new lines.old.items lines.new.items result }
    ensures taken { feed.new.reader.taken ≡ feed.old.reader.taken }
    ensures closed { feed.new.reader.closed ≡ feed.old.reader.closed }
    ensures all { is_all feed.new.reader.splitter ≡ is_all feed.old.reader.splitter }
    ensures sought { OnOk result (IsOpen feed.new → IsSought feed.new.reader.splitter) }
    ensures stop { IfErr result IsOfCommand }
{
    let mut count = pictures;
    while let Some(next) = gather_next(
        alloc,
        feed,
        fields,
        inputs,
        count,
        &mut StructureFields::new(alloc),
        lines,
    )? {
        count = next;
    }
    Ok(count)
}

/// Appends the lines of the next unit, of the slices of the picture that it completes, and of the fields seen in it, to `lines`.
///
/// `pictures` is the number of pictures before. Returns the number with the one that the unit completes; `None` if there is no complete
/// unit.
fn gather_next(
    alloc: Global,
    feed: &mut Feed,
    fields: bool,
    inputs: bool,
    pictures: u64,
    seen: &mut StructureFields,
    lines: &mut Vec<u8>,
) -> Result<Option<u64>, Stop>
    requires { seen.old ≡ no_fields }
    ensures answer { (R : Readers) (h : AreOfH266 R) (g : List ℕ) (units : List UnitPlace) (before : List Reading)
        → HasFed R feed.old g units before → pictures ≡ length (pictures_in before)
        → GathersNext R (teller fields inputs R h) g units before feed.new lines.old.items lines.new.items result }
    ensures taken { feed.new.reader.taken ≡ feed.old.reader.taken }
    ensures closed { feed.new.reader.closed ≡ feed.old.reader.closed }
    ensures all { is_all feed.new.reader.splitter ≡ is_all feed.old.reader.splitter }
    ensures sought { result ≡ Ok None → IsOpen feed.new → IsSought feed.new.reader.splitter }
    ensures falls { IfOk result (λ n. OnSome n (left_to_take feed.new < left_to_take feed.old)) }
    ensures stop { IfErr result IsOfCommand }
{
    let unit = feed.unit();
    match take_next(feed, fields, seen) {
        Ok(
            Some(
                Taken::Nal {
                    header,
                    offset,
                    bytes,
                    what,
                },
            ),
        ) => {
            let mut made = lines_of(alloc, feed, header, offset, bytes, what, pictures)?;
            put_inputs(&mut made, alloc, feed, inputs, what, pictures)?;
            fields_line(&mut made, unit, seen, None)?;
            lines.extend_from_slice(&made)?;
            Ok(Some(count_with(what, pictures, feed.unit())))
        }
        Ok(Some(Taken::End)) => Ok(None),
        Ok(None) => Ok(None),
        Err(FeedFault::Refused(refusal)) => {
            tell_refused(alloc, unit, seen, refusal, lines)?;
            Err(Stop::Refused {
                refusal,
                place: Place::Unit { source: 0, unit },
            })
        }
        Err(_) => Err(Stop::NoMemory),
    }
}

/// Takes the next unit. With `fields`, `seen` receives the fields that it spells, up to the first that is refused.
fn take_next(
    feed: &mut Feed,
    fields: bool,
    seen: &mut StructureFields,
) -> Result<Option<Taken>, FeedFault>
    requires { seen.old ≡ no_fields }
    ensures answer { (R : Readers) → AreOfH266 R → (g : List ℕ) (units : List UnitPlace) (before : List Reading)
        → HasFed R feed.old g units before → Gives R g units before feed.new result }
    ensures seen { (R : Readers) (h : AreOfH266 R) (g : List ℕ) (units : List UnitPlace) (before : List Reading)
        → HasFed R feed.old g units before → GivesSeen (seen_by fields R h) no_fields R g units before feed.new result seen.new }
    ensures open { result ≡ Ok None → IsOpen feed.new }
    ensures sought { result ≡ Ok None → IsSought feed.new.reader.splitter }
    ensures taken { feed.new.reader.taken ≡ feed.old.reader.taken }
    ensures closed { feed.new.reader.closed ≡ feed.old.reader.closed }
    ensures all { is_all feed.new.reader.splitter ≡ is_all feed.old.reader.splitter }
    ensures lowers { IfOk result (λ given. Lowers given (left_to_take feed.old) (left_to_take feed.new)) }
    ensures ended { result ≡ Ok (Some Ended) → ¬ IsOpen feed.new }
    ensures told { IfOk result (IsToldBy feed.new.assembler) }
{
    if fields {
        return feed.next_with(seen);
    }
    feed.next()
}

/// Appends the line of the fields that a refused unit spells before the refusal.
fn tell_refused(
    alloc: Global,
    unit: u64,
    seen: &StructureFields,
    refusal: Refusal,
    lines: &mut Vec<u8>,
) -> Result<(), AllocError>
    ensures ok { OnOk result (lines.new.items ≡ lines.old.items ++ fields_text unit seen.now (refused_field refusal)) }
    ensures err { OnErr result (lines.new.items ≡ lines.old.items) }
{
    let mut made = Vec::new(alloc);
    fields_line(&mut made, unit, seen, field_of(refusal))?;
    lines.extend_from_slice(&made)?;
    Ok(())
}

/// Returns the field at which a rule of syntax is broken, and `None` for other rules.
fn field_of(refusal: Refusal) -> Option<u16>
    ensures { result ≡ refused_field refusal }
{
    match refusal {
        Refusal::Syntax { field, .. } => Some(field),
        _ => None,
    }
}

/// Makes the lines of the unit taken last. `pictures` is the number of pictures before.
fn lines_of(
    alloc: Global,
    feed: &Feed,
    header: NalHeader,
    offset: u64,
    bytes: u64,
    what: Accepted,
    pictures: u64,
) -> Result<Vec<u8>, AllocError>
    requires { what ≡ PictureDone → HasPicture feed.now.assembler }
    ensures { (R : Readers) → AreOfH266 R → (g : List ℕ) (units : List UnitPlace) (u : UnitPlace) (r : Reading) (before : List Reading)
        → HasFed R feed.now g units (r ∷ before) → IsTold g u r before header offset bytes what → pictures ≡ length (pictures_in before)
        → IfOk result (λ made. made.items ≡ unit_lines (seen_of g) u r before) }
{
    let mut lines = unit_line(alloc, header, offset, bytes)?;
    let told = told_line(alloc, feed, what, pictures)?;
    lines.extend_from_slice(&told)?;
    Ok(lines)
}

/// Makes the line of the set taken last, or of the completed picture; otherwise an empty one.
fn told_line(
    alloc: Global,
    feed: &Feed,
    what: Accepted,
    pictures: u64,
) -> Result<Vec<u8>, AllocError>
    requires { what ≡ PictureDone → HasPicture feed.now.assembler }
    ensures { (R : Readers) → AreOfH266 R → (g : List ℕ) (units : List UnitPlace) (r : Reading) (before : List Reading)
        → HasFed R feed.now g units (r ∷ before) → what ≡ told_of r before → pictures ≡ length (pictures_in before)
        → IfOk result (λ made. made.items ≡ set_lines r ++ picture_lines r before) }
{
    if let Accepted::PictureDone = what {
        return picture_line(alloc, picture_numbers(feed, pictures));
    }
    match set_numbers(feed, what) {
        Some(numbers) => set_line(alloc, numbers),
        None => Ok(Vec::new(alloc)),
    }
}

/// Appends the lines of the slices of the completed picture, if there is one and they are asked for. `pictures` is the number of pictures
/// before.
fn put_inputs(
    lines: &mut Vec<u8>,
    alloc: Global,
    feed: &Feed,
    inputs: bool,
    what: Accepted,
    pictures: u64,
) -> Result<(), AllocError>
    requires { what ≡ PictureDone → HasPicture feed.now.assembler }
    ensures { (R : Readers) → AreOfH266 R → (g : List ℕ) (units : List UnitPlace) (r : Reading) (before : List Reading)
        → HasFed R feed.now g units (r ∷ before) → what ≡ told_of r before → pictures ≡ length (pictures_in before)
        → OnOk result (lines.new.items ≡ lines.old.items ++ asked_inputs inputs r before) }
{
    if !inputs {
        return Ok(());
    }
    match what {
        Accepted::PictureDone => input_lines(lines, alloc, pictures, &feed.picture()),
        _ => Ok(()),
    }
}

/// Returns the numbers shown of the completed picture. `pictures` is the number of pictures before.
fn picture_numbers(feed: &Feed, pictures: u64) -> PictureNumbers
    requires { HasPicture feed.now.assembler }
    ensures { (R : Readers) → AreOfH266 R → (g : List ℕ) (units : List UnitPlace) (r : Reading) (before : List Reading)
        → HasFed R feed.now g units (r ∷ before) → PictureDone ≡ told_of r before → pictures ≡ length (pictures_in before)
        → picture_text result ≡ picture_lines r before }
{
    PictureNumbers::of(pictures, &feed.picture())
}

/// Returns the numbers shown of the set taken last.
fn set_numbers(feed: &Feed, what: Accepted) -> Option<SetNumbers>
    ensures { (R : Readers) → AreOfH266 R → (g : List ℕ) (units : List UnitPlace) (r : Reading) (before : List Reading)
        → HasFed R feed.now g units (r ∷ before) → what ≡ told_of r before
        → MatchOption result (set_lines r ≡ []) (λ numbers. set_lines r ≡ set_text numbers) }
{
    match what {
        Accepted::Vps => Some(SetNumbers::of_vps(feed.fields(what)?)),
        Accepted::Sps(id) => Some(SetNumbers::of_sps(feed.sps(id)?)),
        Accepted::Pps(id) => Some(SetNumbers::of_pps(feed.pps(id)?)),
        Accepted::Aps(kind, id) => Some(SetNumbers::Aps { kind, id }),
        Accepted::Nothing | Accepted::PictureDone => None,
    }
}

/// Returns the number of pictures after a unit, of which `pictures` came before. It is at most the number of units.
fn count_with(what: Accepted, pictures: u64, units: u64) -> u64
    ensures done { what ≡ PictureDone → pictures < units → result ≡ pictures + 1 }
    ensures other { (what ≡ PictureDone → ⊥) → result ≡ pictures }
{
    if let Accepted::PictureDone = what {
        return units.min(pictures.saturating_add(1));
    }
    pictures
}
