//! The rules on slices.
ghost use Rattle.std.specs.Prelude.{◌≡◌, ◌<◌, ◌≤◌, ◌∷◌, [], Some, cond, length, flat_map, slice_get, option_to_list};
ghost use Rattle.std.specs.Bool.{OnTrue, OnFalse};
ghost use Rattle.std.specs.List.{AllByRecursion};
ghost use Rattle.vx_fit.specs.Lowest.{IsLowestAnswer};
ghost use Rattle.vx_frame.specs.Collocated as words;
ghost use Rattle.vx_frame.specs.Rounds.{SomeUnlike, SomeUnlikeFirst};
ghost use Rattle.vx_frame.specs.Rules as rules;
ghost use Rattle.vx_frame.specs.inner.Found.{Finds, piece_at};

use crate::collocated::{Collocated, collocated_of, may_name, names_one};
use crate::sought::{Sought, lowest_with};
use crate::told::of_source;
use vx_bits::Refusal;
use vx_bits::rules::{COLLOCATED, OUTPUT_OF_PRIOR};
use vx_fields::sh::sh_no_output_of_prior_pics_flag;
use vx_pic::Picture;
use vx_sh::SliceHeader;

// ---- output of pictures before

/// Returns what a slice says of the output of prior pictures, if it does.
fn output_of(picture: &Picture<'_>, i: u32) -> Option<i64>
    requires { i < length picture.now.slices }
    ensures { slice_get (rules.outputs_of picture.now) i ≡ Some result }
{
    picture
        .slice(i)
        .header
        .fields
        .first(sh_no_output_of_prior_pics_flag)
}

/// Returns what the first slice of a picture says of it.
fn first_output(picture: &Picture<'_>) -> Option<i64>
    ensures { slice_get (rules.outputs_of picture.now) 0 ≡ Some result }
{
    // The call states that there is a slice.
    let _count = picture.slice_count();
    output_of(picture, 0)
}

/// Returns whether two slices say the same of it.
fn same_output(a: Option<i64>, b: Option<i64>) -> bool
    ensures same { OnTrue result (a ≡ b) }
    ensures other { OnFalse result (¬ (a ≡ b)) }
{
    match (a, b) {
        (None, None) => true,
        (Some(a), Some(b)) => a == b,
        _ => false,
    }
}

/// Returns whether a slice of a picture says something else of it.
fn has_other_output(picture: &Picture<'_>, first: Option<i64>) -> bool
    ensures unlike { OnTrue result (SomeUnlike (rules.outputs_of picture.now) (Some first)) }
    ensures alike { OnFalse result (AllByRecursion (λ x. Some first ≡ Some x) (rules.outputs_of picture.now)) }
{
    for i in 0..picture.slice_count() {
        if !same_output(output_of(picture, i), first) {
            return true;
        }
    }
    false
}

/// Returns the lowest source with a slice that says something else than the first slice of all.
fn lowest_other_output(round: &[Picture<'_>]) -> Option<u16>
    requires { (0 < length round.now) × (length round.now ≤ 64) }
    ensures { IsLowestAnswer (length round.now) (SomeUnlikeFirst rules.outputs_of round.now) result }
{
    let first = first_output(&round[0]);
    for k in 0..round.len() {
        if has_other_output(&round[k], first) {
            return Some(k as u16);
        }
    }
    None
}

/// Returns the refusal of slices that differ from the first in their output of prior pictures.
pub(crate) fn output_of_prior(round: &[Picture<'_>]) -> Option<Refusal>
    requires { (0 < length round.now) × (length round.now ≤ 64) }
    ensures { Finds (length round.now) (rules.output_of_prior round.now ∷ []) result }
{
    of_source(OUTPUT_OF_PRIOR, lowest_other_output(round))
}

// ---- collocated pictures

/// Returns the collocated picture that a slice header names, if it names one, in a picture whose slices may.
fn named_in<'a>(picture: &Picture<'a>, header: &'a SliceHeader) -> Option<Collocated>
    ensures { cond (words.names_one header.now) (words.collocated_of picture.now header.now ∷ []) [] ≡ option_to_list result }
{
    if names_one(header) {
        return Some(collocated_of(picture, header));
    }
    None
}

/// Returns the collocated picture that slice `i` of a picture names, if it names one.
fn named_at(picture: &Picture<'_>, may: bool, i: u32) -> Option<Collocated>
    requires i { i < length picture.now.slices }
    requires may { may ≡ words.may_name picture.now }
    ensures { piece_at (words.collocated_by picture.now) picture.now.slices i ≡ option_to_list result }
{
    let slice = picture.slice(i);
    if may {
        return named_in(picture, slice.header);
    }
    None
}

/// Returns the first collocated picture that a slice of a picture names.
fn first_named(picture: &Picture<'_>) -> Option<Collocated>
    ensures { result ≡ slice_get (words.collocated picture.now) 0 }
{
    let may = may_name(picture);
    for i in 0..picture.slice_count() {
        if let Some(found) = named_at(picture, may, i) {
            return Some(found);
        }
    }
    None
}

/// Returns the first collocated picture that a slice of any picture names.
fn first_of_all(round: &[Picture<'_>]) -> Option<Collocated>
    ensures { result ≡ slice_get (flat_map words.collocated round.now) 0 }
{
    for k in 0..round.len() {
        if let Some(found) = first_named(&round[k]) {
            return Some(found);
        }
    }
    None
}

/// Returns whether two collocated pictures are stated to be the same.
fn same_collocated(a: Collocated, b: Collocated) -> bool
    ensures same { OnTrue result (a ≡ b) }
    ensures other { OnFalse result (¬ (a ≡ b)) }
{
    a == b
}

/// Returns whether one is named and differs from `first`.
fn is_other(named: Option<Collocated>, first: Option<Collocated>) -> bool
    ensures unlike { OnTrue result (SomeUnlike (option_to_list named) first) }
    ensures alike { OnFalse result (AllByRecursion (λ x. first ≡ Some x) (option_to_list named)) }
{
    match (named, first) {
        (None, _) => false,
        (Some(_), None) => true,
        (Some(named), Some(first)) => !same_collocated(first, named),
    }
}

/// Returns whether a slice of a picture names another one than `first`.
pub(crate) fn names_other(picture: &Picture<'_>, first: Option<Collocated>) -> bool
    ensures unlike { OnTrue result (SomeUnlike (words.collocated picture.now) first) }
    ensures alike { OnFalse result (AllByRecursion (λ x. first ≡ Some x) (words.collocated picture.now)) }
{
    let may = may_name(picture);
    for i in 0..picture.slice_count() {
        if is_other(named_at(picture, may, i), first) {
            return true;
        }
    }
    false
}

/// Returns the lowest source with a slice that names another one than the first of all.
fn lowest_other_collocated(round: &[Picture<'_>]) -> Option<u16>
    requires { length round.now ≤ 64 }
    ensures { IsLowestAnswer (length round.now) (SomeUnlikeFirst words.collocated round.now) result }
{
    let first = first_of_all(round);
    lowest_with(round, Sought::OtherCollocated(first))
}

/// Returns the refusal of slices that name different collocated pictures.
pub(crate) fn collocated_pictures(round: &[Picture<'_>]) -> Option<Refusal>
    requires { length round.now ≤ 64 }
    ensures { Finds (length round.now) (rules.collocated_pictures round.now ∷ []) result }
{
    of_source(COLLOCATED, lowest_other_collocated(round))
}
