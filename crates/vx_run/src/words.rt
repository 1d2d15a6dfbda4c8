//! The grammar of the program's arguments, without the program's name.

ghost use Rattle.std.specs.Prelude.{◌≡◌, ◌≤◌, ◌∷◌, ◌↔◌, [], ℕ, Bool, List, Option as OptionOf, true, false, decimal, codes, None, IfSome, IfNone, IsTrue, MatchOption, map, slice_get, option_copied};
ghost use Rattle.vx_run.specs.inner.Asked.{asked};
ghost use Rattle.vx_run.specs.Grammar.{Command as Asked, show, extract, check_extract, merge, play, check_merge, verify, trial, explain, Placing as PlacingAsked, IsRuleOrField, AskFor, IsUnderstood, NamesFiles, files_of, texts};
ghost use Rattle.vx_run.specs.inner.Placings.{NameLevelAndFiles, spelled};
ghost use Rattle.vx_run.specs.inner.Words.{BeginsNot, IsFlagFirst, IsNumberFirst, IsOptionFirst, is_plain};

use crate::placings::Placings;
use vx_explain::{explanation, rules_and_fields_are_explained};

/// A command, with the options and files that its arguments name.
#[derive(Clone, Copy)]
pub(crate) enum Command<'a> {
    /// `show [--fields] [--inputs] FILE`
    Show {
        fields: bool,
        inputs: bool,
        file: &'a str,
    },
    /// `extract [--tid T] [--level N] INDEX FILE`
    Extract {
        tid: Option<u8>,
        level: Option<u8>,
        index: u32,
        file: &'a str,
    },
    /// `check extract [--tid T] INDEX FILE`
    CheckExtract {
        tid: Option<u8>,
        index: u32,
        file: &'a str,
    },
    /// `merge [--level N] X,Y=FILE ..`
    Merge {
        level: Option<u8>,
        placings: Placings<'a>,
    },
    /// `play [--level N] X,Y=FILE ..`
    Play {
        level: Option<u8>,
        placings: Placings<'a>,
    },
    /// `check merge X,Y=FILE ..`
    CheckMerge {
        placings: Placings<'a>,
    },
    /// `verify merge OUT X,Y=FILE ..`
    Verify {
        finished: &'a str,
        placings: Placings<'a>,
    },
    /// `trial SEED SOURCES PICTURES`
    Trial {
        seed: u32,
        sources: u32,
        pictures: u32,
    },
    /// `--help`
    Help,
    /// `--version`
    Version,
    /// `--explain WORD`
    Explain {
        word: &'a str,
    },
}

/// The highest TemporalId, level and subpicture index that arguments may name.
const MOST_TID: u8 = 6;

const MOST_LEVEL: u8 = 255;

const MOST_INDEX: u32 = 999;

/// The most streams of a trial, and the most pictures of each.
const MOST_STREAMS: u32 = 16;

const MOST_PICTURES: u32 = 1000;

/// Parses the arguments; `None` if they are no command.
pub(crate) fn command_of(words: &[String]) -> Option<Command<'_>>
    ensures some { IfSome result (λ command. AskFor (texts words.now) (asked command)) }
    ensures none { IfNone result (¬ IsUnderstood (texts words.now)) }
{
    if let Some(command) = plain_of(words) {
        return Some(command);
    }
    if let Some(rest) = behind(words, "show") {
        return show_of(rest);
    }
    if let Some(rest) = behind(words, "--explain") {
        return explain_of(rest);
    }
    if let Some(rest) = behind(words, "extract") {
        return extract_of(rest);
    }
    if let Some(rest) = behind(words, "merge") {
        return merge_of(rest);
    }
    if let Some(rest) = behind(words, "play") {
        return play_of(rest);
    }
    if let Some(rest) = behind(words, "verify") {
        return verify_of(rest);
    }
    if let Some(rest) = behind(words, "trial") {
        return trial_of(rest);
    }
    check_of(behind(words, "check")?)
}

/// Parses a command of a single argument without a file.
fn plain_of(words: &[String]) -> Option<Command<'_>>
    ensures some { IfSome result (λ command. AskFor (texts words.now) (asked command)) }
    ensures none { IfNone result ((command : Asked) → is_plain command ≡ true → AskFor (texts words.now) command → ⊥) }
{
    match words {
        [word] if word.as_str() == "--help" => Some(Command::Help),
        [word] if word.as_str() == "--version" => Some(Command::Version),
        _ => None,
    }
}

/// Parses `[--fields] [--inputs] FILE`.
fn show_of(words: &[String]) -> Option<Command<'_>>
    ensures some { IfSome result (λ command. AskFor (codes "show" ∷ texts words.now) (asked command)) }
    ensures none { IfNone result ((fields inputs : Bool) (file : List ℕ) → AskFor (codes "show" ∷ texts words.now) (show fields inputs file) → ⊥) }
{
    let (fields, rest) = flag(words, "--fields");
    let (inputs, rest) = flag(rest, "--inputs");
    let file = file_alone(rest)?;
    Some(Command::Show {
        fields,
        inputs,
        file,
    })
}

/// Parses an option without a value, of this name, before further arguments. Returns the arguments after it.
fn flag<'a>(words: &'a [String], name: &str) -> (bool, &'a [String])
    ensures { IsFlagFirst name.now (texts words.now) result.0 (texts result.1.now) }
{
    let Some(rest) = behind(words, name) else {
        return (false, words);
    };
    if rest.is_empty() {
        return (false, words);
    }
    (true, rest)
}

/// Parses `WORD`: a rule, or the number of a field.
fn explain_of(words: &[String]) -> Option<Command<'_>>
    ensures some { IfSome result (λ command. AskFor (codes "--explain" ∷ texts words.now) (asked command)) }
    ensures none { IfNone result ((word : List ℕ) → AskFor (codes "--explain" ∷ texts words.now) (explain word) → ⊥) }
{
    match words {
        [word] if is_rule_or_field(word.as_str()) => {
            Some(Command::Explain {
                word: word.as_str(),
            })
        }
        _ => None,
    }
}

/// Returns whether `word` is a rule or the number of a field.
fn is_rule_or_field(word: &str) -> bool
    ensures { IsTrue result ↔ IsRuleOrField word.now }
{
    rules_and_fields_are_explained();
    explanation(word.as_bytes()).is_some()
}

/// Parses the arguments after `check`.
fn check_of(words: &[String]) -> Option<Command<'_>>
    ensures some { IfSome result (λ command. AskFor (codes "check" ∷ texts words.now) (asked command)) }
    ensures none { IfNone result ((command : Asked) → AskFor (codes "check" ∷ texts words.now) command → ⊥) }
{
    if let Some(rest) = behind(words, "extract") {
        return check_extract_of(rest);
    }
    check_merge_of(behind(words, "merge")?)
}

/// Parses `[--tid T] [--level N] INDEX FILE`.
fn extract_of(words: &[String]) -> Option<Command<'_>>
    ensures some { IfSome result (λ command. AskFor (codes "extract" ∷ texts words.now) (asked command)) }
    ensures none { IfNone result ((tid level : OptionOf ℕ) (index : ℕ) (file : List ℕ)
        → AskFor (codes "extract" ∷ texts words.now) (extract tid level index file) → ⊥) }
{
    let (tid, rest) = option(words, "--tid", MOST_TID)?;
    let (level, rest) = option(rest, "--level", MOST_LEVEL)?;
    let (index, rest) = number_first(rest, MOST_INDEX)?;
    let file = file_alone(rest)?;
    Some(Command::Extract {
        tid,
        level,
        index,
        file,
    })
}

/// Parses `[--tid T] INDEX FILE`.
fn check_extract_of(words: &[String]) -> Option<Command<'_>>
    ensures some { IfSome result (λ command. AskFor (codes "check" ∷ codes "extract" ∷ texts words.now) (asked command)) }
    ensures none { IfNone result ((tid : OptionOf ℕ) (index : ℕ) (file : List ℕ)
        → AskFor (codes "check" ∷ codes "extract" ∷ texts words.now) (check_extract tid index file) → ⊥) }
{
    let (tid, rest) = option(words, "--tid", MOST_TID)?;
    let (index, rest) = number_first(rest, MOST_INDEX)?;
    let file = file_alone(rest)?;
    Some(Command::CheckExtract { tid, index, file })
}

/// Parses `[--level N] X,Y=FILE ..`.
fn merge_of(words: &[String]) -> Option<Command<'_>>
    ensures some { IfSome result (λ command. AskFor (codes "merge" ∷ texts words.now) (asked command)) }
    ensures none { IfNone result ((level : OptionOf ℕ) (placings : List PlacingAsked)
        → AskFor (codes "merge" ∷ texts words.now) (merge level placings) → ⊥) }
{
    let (level, placings) = level_and_files(words)?;
    Some(Command::Merge { level, placings })
}

/// Parses `[--level N] X,Y=FILE ..`.
fn play_of(words: &[String]) -> Option<Command<'_>>
    ensures some { IfSome result (λ command. AskFor (codes "play" ∷ texts words.now) (asked command)) }
    ensures none { IfNone result ((level : OptionOf ℕ) (placings : List PlacingAsked)
        → AskFor (codes "play" ∷ texts words.now) (play level placings) → ⊥) }
{
    let (level, placings) = level_and_files(words)?;
    Some(Command::Play { level, placings })
}

/// Parses `[--level N] X,Y=FILE ..` into the level, if there is one, and the placings.
fn level_and_files(words: &[String]) -> Option<(Option<u8>, Placings<'_>)>
    ensures { MatchOption result
        ((level : OptionOf ℕ) (placings : List PlacingAsked) → NameLevelAndFiles (texts words.now) level placings → ⊥)
        (λ r. NameLevelAndFiles (texts words.now) r.0 (spelled r.1.words.now)) }
{
    let (level, rest) = option(words, "--level", MOST_LEVEL)?;
    let placings = Placings::of(rest)?;
    Some((level, placings))
}

/// Parses `X,Y=FILE ..`.
fn check_merge_of(words: &[String]) -> Option<Command<'_>>
    ensures some { IfSome result (λ command. AskFor (codes "check" ∷ codes "merge" ∷ texts words.now) (asked command)) }
    ensures none { IfNone result ((placings : List PlacingAsked)
        → AskFor (codes "check" ∷ codes "merge" ∷ texts words.now) (check_merge placings) → ⊥) }
{
    let placings = Placings::of(words)?;
    Some(Command::CheckMerge { placings })
}

/// Parses `merge OUT X,Y=FILE ..`.
fn verify_of(words: &[String]) -> Option<Command<'_>>
    ensures some { IfSome result (λ command. AskFor (codes "verify" ∷ texts words.now) (asked command)) }
    ensures none { IfNone result ((finished : List ℕ) (placings : List PlacingAsked)
        → AskFor (codes "verify" ∷ texts words.now) (verify finished placings) → ⊥) }
{
    let rest = behind(words, "merge")?;
    let (finished, rest) = file_first(rest)?;
    let placings = Placings::of(rest)?;
    Some(Command::Verify { finished, placings })
}

/// Parses `SEED SOURCES PICTURES`.
fn trial_of(words: &[String]) -> Option<Command<'_>>
    ensures some { IfSome result (λ command. AskFor (codes "trial" ∷ texts words.now) (asked command)) }
    ensures none { IfNone result ((seed sources pictures : ℕ) → AskFor (codes "trial" ∷ texts words.now) (trial seed sources pictures) → ⊥) }
{
    let [seed, sources, pictures] = words else {
        return None;
    };
    Some(Command::Trial {
        seed: number(seed.as_str(), u32::MAX)?,
        sources: counted(sources.as_str(), MOST_STREAMS)?,
        pictures: counted(pictures.as_str(), MOST_PICTURES)?,
    })
}

/// Parses a number from 1 to `most`.
fn counted(word: &str, most: u32) -> Option<u32>
    ensures { MatchOption result
        ((n : ℕ) → 1 ≤ n → n ≤ most → word.now ≡ decimal n → ⊥)
        (λ n. (word.now ≡ decimal n) × (1 ≤ n) × (n ≤ most)) }
{
    let n = number(word, most)?;
    if n == 0 {
        return None;
    }
    Some(n)
}

/// Returns the arguments after `name`, if that is the first.
fn behind<'a>(words: &'a [String], name: &str) -> Option<&'a [String]>
    ensures { MatchOption result (BeginsNot name.now (texts words.now)) (λ rest. texts words.now ≡ name.now ∷ texts rest.now) }
{
    if words.is_empty() {
        return None;
    }
    if words[0].as_str() != name {
        return None;
    }
    Some(&words[1..])
}

/// Parses an option `name N` if it comes first, and returns its number and the arguments after it.
///
/// `N` is at most `most`. Returns `None` if the option comes first without such a number.
fn option<'a>(words: &'a [String], name: &str, most: u8) -> Option<(Option<u8>, &'a [String])>
    ensures { MatchOption result
        ((n : OptionOf ℕ) (rest : List (List ℕ)) → IsOptionFirst name.now most (texts words.now) n rest → ⊥)
        (λ r. IsOptionFirst name.now most (texts words.now) r.0 (texts r.1.now)) }
{
    let Some(rest) = behind(words, name) else {
        return Some((None, words));
    };
    let (n, rest) = number_first(rest, u32::from(most))?;
    Some((Some(n as u8), rest))
}

/// Parses a first argument that is a number of at most `most`, and returns it and the arguments after it.
fn number_first(words: &[String], most: u32) -> Option<(u32, &[String])>
    ensures { MatchOption result
        ((n : ℕ) (rest : List (List ℕ)) → IsNumberFirst most (texts words.now) n rest → ⊥)
        (λ r. IsNumberFirst most (texts words.now) r.0 (texts r.1.now)) }
{
    if words.is_empty() {
        return None;
    }
    let n = number(words[0].as_str(), most)?;
    Some((n, &words[1..]))
}

/// Parses a number of at most `most`. A plus sign and leading zeros, which `parse` takes, are no part of a number here.
pub(crate) fn number(word: &str, most: u32) -> Option<u32>
    ensures { MatchOption result ((n : ℕ) → n ≤ most → word.now ≡ decimal n → ⊥) (λ n. (word.now ≡ decimal n) × (n ≤ most)) }
{
    let bytes = word.as_bytes();
    if bytes.len() > 1 && bytes[0] < b'1' {
        return None;
    }
    let Ok(n) = word.parse::<u32>() else {
        return None;
    };
    (n <= most).then_some(n)
}

/// Returns the first argument, a file, and the arguments after it.
fn file_first(words: &[String]) -> Option<(&str, &[String])>
    ensures { MatchOption result
        ((file : List ℕ) (rest : List (List ℕ)) → texts words.now ≡ file ∷ rest → file ≡ [])
        (λ r. (texts words.now ≡ r.0.now ∷ texts r.1.now) × (r.0.now ≡ [] → ⊥)) }
{
    if words.is_empty() {
        return None;
    }
    let file = words[0].as_str();
    if file.is_empty() {
        return None;
    }
    Some((file, &words[1..]))
}

/// Returns the file, if it is the only argument.
fn file_alone(words: &[String]) -> Option<&str>
    ensures { MatchOption result
        ((file : List ℕ) → texts words.now ≡ file ∷ [] → file ≡ [])
        (λ file. (texts words.now ≡ file.now ∷ []) × (file.now ≡ [] → ⊥)) }
{
    match words {
        [file] if !file.is_empty() => Some(file.as_str()),
        _ => None,
    }
}

/// Returns how many files the arguments name; 0 if they are no command.
pub fn file_count(words: &[String]) -> usize
    ensures { NamesFiles (texts words.now) result }
{
    match command_of(words) {
        Some(Command::Show { .. } | Command::Extract { .. } | Command::CheckExtract { .. }) => 1,
        Some(Command::Merge { placings, .. }) => placings.len(),
        Some(Command::Play { placings, .. }) => placings.len(),
        Some(Command::CheckMerge { placings }) => placings.len(),
        Some(Command::Verify { placings, .. }) => placings.len() + 1,
        Some(Command::Trial { .. } | Command::Help | Command::Version | Command::Explain { .. })
        | None => 0,
    }
}

/// Returns file `k` that the arguments name, from 0; `None` if there is no such file.
pub fn file_word(words: &[String], k: usize) -> Option<&str>
    ensures files { (command : Asked) → AskFor (texts words.now) command
        → option_copied result ≡ slice_get (files_of command) k }
    ensures none { ¬ IsUnderstood (texts words.now) → result ≡ None }
{
    match command_of(words)? {
        Command::Show { file, .. }
        | Command::Extract { file, .. }
        | Command::CheckExtract { file, .. } => file_alone_at(file, k),
        Command::Merge { placings, .. } => placings.file(k),
        Command::Play { placings, .. } => placings.file(k),
        Command::CheckMerge { placings } => placings.file(k),
        Command::Verify { finished, placings } => verified_file(finished, placings, k),
        Command::Trial { .. } | Command::Help | Command::Version | Command::Explain { .. } => None,
    }
}

/// Returns `file` for `k` = 0.
fn file_alone_at(file: &str, k: usize) -> Option<&str>
    ensures { option_copied result ≡ slice_get (file.now ∷ []) k }
{
    (k == 0).then_some(file)
}

/// Returns file `k` of `verify merge`: file 0 is the finished stream, then come the placed files.
fn verified_file<'a>(finished: &'a str, placings: Placings<'a>, k: usize) -> Option<&'a str>
    ensures { option_copied result ≡ slice_get (finished.now ∷ map (λ p. p.file) (spelled placings.entry.words.now)) k }
{
    if k == 0 {
        return Some(finished);
    }
    placings.file(k - 1)
}
