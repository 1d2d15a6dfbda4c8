//! The texts of `--help`, `--version` and `--explain`, and writing them.

ghost use Rattle.std.specs.Prelude.{◌≡◌, Ok, IsSomeAnd};
ghost use Rattle.vx_explain.specs.Explained.{explanation};
ghost use Rattle.vx_run.specs.About.{Writes, help_text, version_text};
ghost use Rattle.vx_run.specs.Change.{change};
ghost use Rattle.vx_run.specs.Grammar.{IsRuleOrField};

use crate::stop::Stop;
use vx_explain::{explanation, rules_and_fields_are_explained};
use vx_io::{Sink, write_all};

/// Returns the text of `--help`: the commands, the statuses, and the rules by letter and number.
#[tactic(auto, unfolding(crate::specs::About::help_text))]
pub(crate) fn help() -> &'static [u8]
    ensures { result.now ≡ help_text }
{
    b"goosequince: merges and extracts subpictures of VVC streams (H.266, Annex B)

  show [--fields] [--inputs] FILE
             lists the NAL units of a byte stream as lines of JSON: the length of
             each unit, the place of its first byte, its TemporalId and its type;
             then a line of the parameter set that it is, or of the picture that
             it completes; with --inputs also a line of each slice of the picture,
             with its decoding input; with --fields also each field of a set or
             header, by its name and in the order of the bits
  extract [--tid T] [--level N] INDEX FILE
             writes one subpicture, by its index from 0, of each picture as a
             byte stream of its own; with --tid only pictures with a TemporalId
             up to T, with --level N as general_level_idc
  check extract [--tid T] INDEX FILE
             says whether extract can do this, and for how many pictures
  merge [--level N] X,Y=FILE ..
             merges up to 64 byte streams into one, each as a subpicture with its
             upper left corner at luma sample X, Y; with --level N as
             general_level_idc, otherwise the highest of the files, which is
             mostly too low for all of them
  play [--level N] X,Y=FILE ..
             the same for up to 64 regions and 256 files: files with the same X,Y
             are played one after another in one region, with an end of sequence
             wherever a file begins after others
  check merge X,Y=FILE ..
             says whether merge can do this, and for how many pictures
  verify merge OUT X,Y=FILE ..
             says whether OUT, made by any tool and at any level, is the merge of
             these files, with equal decoding inputs in each picture, and for how
             many pictures
  trial SEED SOURCES PICTURES
             a self-test: makes 1 to 16 streams of 1 to 1000 pictures from a
             number, merges them side by side, extracts each region again, and
             prints the numbers of pictures, slices and bytes, and a sum over
             all bytes
  --help     prints this text
  --version  prints the name and the version of the program
  --explain WORD
             says what a rule such as M8 means and how to fix it, or what the
             field of a number such as 606 is

The exit status is 0 if all is done. Otherwise a line on standard error says
why:

  1  a rule is broken, or verify found a difference
  2  the arguments are not understood
  3  a read or a write failed
  4  out of memory

The letters of the rules:

  F  framing: F1 a byte outside a unit is neither zero nor start code, F2 a byte
     stands where emulation prevention rules it out, F3 a unit's header can't be
     read
  Y  syntax: a field of a set or header can't be read; the line has the field,
     the bit where it begins, and the reason
  P  not supported: P1 a layer above 0, P2 to P14 what a set turns on, P15 the
     id of an adaptation parameter set
  S  structure: S1 a set hasn't come, S2 to S15 a unit, or the end, doesn't fit
     the units before it
  L  limits: L1 a unit has more than 2^23 bytes, L2 a picture more than 2^25, L3
     a source more than 2^40, each also of what a merge would write; L4 more than
     64 sources or regions, L5 to L10 more than the levels of H.266, or this
     program, allow, L11 more than 256 files
  E  extraction: E1 there is no picture, E2 a picture has no such subpicture, E3
     the subpicture isn't treated as a picture, E4 in-loop filters cross its
     borders, E5 an IRAP or GDR picture has a TemporalId above T
  M  merging: M1 a source has several subpictures, M2, M7, M8 a field of its SPS,
     PPS or picture header differs, M3 to M5 regions or tiles don't fit, M6 its
     picture is of another kind, M9 to M13, M16 what its slices use differs or is
     too much, M14 it ended before another, M15 its picture can't follow an end
     of sequence, where a file begins after others
  C  comparing, with OUT as file 0: C1 the number of subpictures differs, C2 a
     subpicture stands elsewhere, C3 the number of slices differs, C4 a decoding
     input differs, in its part and field, C5 a file ended before another
"
}

/// Returns the text of `--version`: the program's name and version.
#[tactic(auto, unfolding(crate::specs::About::version_text))]
pub(crate) fn version() -> &'static [u8]
    ensures { result.now ≡ version_text }
{
    b"goosequince 0.2.0\n"
}

/// Writes the explanation of `word`, a rule or the number of a field.
pub(crate) fn explain<K: Sink>(word: &str, out: &mut K) -> Result<(), Stop>
    requires { IsRuleOrField word.now }
    ensures writes { IsSomeAnd (explanation word.now) (λ text. Writes text (change K.bytes_taken K.write_faults out.old out.new) result) }
{
    rules_and_fields_are_explained();
    write_text(explanation(word.as_bytes()).unwrap(), out)
}

/// Writes `text`, and nothing else.
pub(crate) fn write_text<K: Sink>(text: &[u8], out: &mut K) -> Result<(), Stop>
    ensures writes { Writes text.now (change K.bytes_taken K.write_faults out.old out.new) result }
{
    write_all(out, text)?;
    Ok(())
}
