//! Laws of the readers of H.266. A law is a function that does nothing; its contract states it.
ghost use Rattle.vx_pic.specs.H266Laws.{HaveOneAnswer, ThereAreReaders};
ghost use Rattle.vx_pic.specs.laws.AsRead.{ReadersAreAsProgramsRead};

use vx_aps::one_answer;

/// If bytes and sets have an answer, then they have no other one: readers of H.266 are determined.
pub fn readers_are_unique()
    ensures { HaveOneAnswer }
{
    one_answer();
}

/// Readers of H.266 exist: each list of bytes, with any two sets, has an answer.
pub fn readers_exist()
    ensures { ThereAreReaders }
{}

/// Readers are those of H.266 if and only if their answers are those that the contracts of readers allow, apart from lack of
/// memory.
pub fn readers_answer_as_programs()
    ensures { ReadersAreAsProgramsRead }
{}
