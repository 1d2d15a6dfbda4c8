//! Explains the rules that refusals name, and the fields that they name by number, for `--explain`.
//!
//! [`explanation`] finds the text of a word. `scripts/explanations.py` makes the texts. [`rules_and_fields_are_explained`] is the law
//! that each rule and each field has one. Definitions in `specs`: `Explained`.
#![tactic(auto)]

mod laws;
mod text;

ghost use Rattle.std.specs.Prelude.{◌≡◌};
ghost use Rattle.std.specs.Option.{option_copied};
ghost use Rattle.vx_explain.specs.Explained as words;

pub use laws::rules_and_fields_are_explained;
use text::TEXT;

/// Returns the word that a part begins with.
fn word_of(part: &[u8]) -> &[u8]
    ensures { result.now ≡ words.word_of part.now }
{
    let end = part
        .iter()
        .position(|byte| *byte == b' ')
        .unwrap_or(part.len());
    &part[..end]
}

/// Returns the explanation of a rule, as `M8`, or of the number of a field, as `606`.
///
/// It is lines of at most 78 characters that begin with the word. Returns `None` for any other word.
pub fn explanation(word: &[u8]) -> Option<&'static [u8]>
    ensures { option_copied result ≡ words.explanation word.now }
{
    TEXT.split(|byte| *byte == b'|')
        .find(|part| word_of(part) == word)
}
