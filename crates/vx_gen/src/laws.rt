//! Laws of generated streams. Each function does nothing and has its law as its contract.
ghost use Rattle.vx_gen.specs.Laws.{GeneratedAreRead, PlannedAreShown};
ghost use Rattle.vx_gen.specs.Merges.{GeneratedAreMerged};
ghost use Rattle.vx_gen.specs.Rounds.{CornersAreThere, GeneratedAreNotBarred, GeneratedBreakNoRule, PlannedAreSoMany, PlannedMakeRounds};

use vx_again::{merge_is_read_again, pictures_can_be_merged};
use vx_annexb::{escaped_is_short, unescaped_joins, units_can_stand};
use vx_frame::verdict_is_one;
use vx_pic::{readers_are_unique, written_has_pictures, written_reads_again};
use vx_sh::spelling_is_read;
use vx_sps::reshaped_signals;
use vx_write::{set_units_are_read, units_stand};

/// If readers of H.266 read a generated stream, then they read exactly the defined pictures, and it ends well.
pub fn generated_are_read()
    ensures { GeneratedAreRead }
{
    unescaped_joins();
    readers_are_unique();
    written_has_pictures();
    written_reads_again();
    spelling_is_read();
    set_units_are_read();
    units_stand();
}

/// States what callers see of the pictures of generated streams.
pub fn planned_are_shown()
    ensures { PlannedAreShown }
{}

/// If generated pictures are placed side by side, then they break no rule on merges.
pub fn generated_break_no_rule()
    ensures { GeneratedBreakNoRule }
{}

/// If streams are generated, then their corners can be those of a merge.
pub fn corners_are_there()
    ensures { CornersAreThere }
{}

/// If streams are generated, then their pictures make the rounds of a merge.
pub fn planned_make_rounds()
    ensures count { PlannedAreSoMany }
    ensures rounds { PlannedMakeRounds }
{}

/// If generated streams are merged, then no round breaks a rule or a limit.
pub fn generated_are_not_barred()
    ensures { GeneratedAreNotBarred }
{
    generated_break_no_rule();
    verdict_is_one();
    escaped_is_short();
    reshaped_signals();
    vx_sps::spelling_is_short();
    vx_pps::spelling_is_short();
    vx_ph::spelling_is_short();
    vx_sh::spelling_is_short();
}

/// If all rounds of generated streams are written, then the bytes are read again as their merge.
///
/// Each of its regions can be extracted.
pub fn generated_are_merged()
    ensures { GeneratedAreMerged }
{
    generated_are_read();
    units_can_stand();
    pictures_can_be_merged();
    merge_is_read_again();
}
