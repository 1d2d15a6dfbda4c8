//! Laws of what is written for one round. Each function does nothing and has its law as its contract.
ghost use Rattle.vx_again.specs.Frames.{SetsMakeTheFrame};
ghost use Rattle.vx_again.specs.Rounds.{MergedHasItsBodies, MergedIsAlike, MergedIsWhole, MergedKeepsInputs, MergedSendsItsSets, MergedSetsAreInForce, MergedUnitsAreRead};

use vx_annexb::unescaped_joins;
use vx_ph::{filter_names_once, same_kept_agree, unit_has_id, unit_is_read};
use vx_pic::{needed_is_body, needed_is_stored, readers_are_unique};
use vx_pps::{read_slices_are_listable, sets_tell_partitions};
use vx_sh::{first_bit_is_inside, reshaped_is_read_again, slice_has_filter, slice_scopes_agree};

/// If a round breaks no rule, then the sets rewritten for its frame make up that frame.
///
/// It has a subpicture for each source, whose id is its index, and which is treated as a picture and not filtered across (H.266 7.4.3.4,
/// 7.4.3.5).
pub fn sets_make_the_frame()
    ensures { SetsMakeTheFrame }
{
    sets_tell_partitions();
    read_slices_are_listable();
}

/// If a round is written, then readers of H.266 read its picture header and slices as the plan says.
pub fn merged_units_are_read()
    ensures { MergedUnitsAreRead }
{
    sets_tell_partitions();
    read_slices_are_listable();
    unit_is_read();
    unit_has_id();
    same_kept_agree();
    unescaped_joins();
    reshaped_is_read_again();
    slice_scopes_agree();
    first_bit_is_inside();
    readers_are_unique();
}

/// If a round is written, then its slices are all those of its frame, in order, and not too long.
pub fn merged_is_whole()
    ensures { MergedIsWhole }
{
    sets_tell_partitions();
    read_slices_are_listable();
}

/// If a round is written, then the needed sets that aren't resident are sent, and no others.
///
/// No two needed sets have the same type and id.
pub fn merged_sends_its_sets()
    ensures { MergedSendsItsSets }
{}

/// If a round is written, then its needed sets can be read again, and all named bodies are among them.
///
/// These are the adaptation parameter sets that the slices and the header name (H.266 7.4.3.6).
pub fn merged_has_its_bodies()
    ensures { MergedHasItsBodies }
{
    sets_tell_partitions();
    read_slices_are_listable();
    slice_has_filter();
    filter_names_once();
}

/// If a round is written, then each needed set is in force for its header.
///
/// Each adaptation parameter set among them is one of the picture that is read again.
pub fn merged_sets_are_in_force()
    ensures { MergedSetsAreInForce }
{
    merged_sends_its_sets();
    needed_is_stored();
    needed_is_body();
}

/// If a round is written, then its header agrees with each picture's in all that counts depend on.
pub fn merged_is_alike()
    ensures { MergedIsAlike }
{}

/// If a round is written, then its region k has source k's decoding inputs when read again.
///
/// All pictures of the round are of the written picture's kind.
pub fn merged_keeps_inputs()
    ensures { MergedKeepsInputs }
{
    sets_tell_partitions();
    read_slices_are_listable();
    same_kept_agree();
    unescaped_joins();
    reshaped_is_read_again();
    slice_scopes_agree();
    first_bit_is_inside();
    needed_is_body();
}
