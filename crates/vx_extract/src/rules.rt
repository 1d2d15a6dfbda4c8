//! The rules by which a subpicture can't be extracted (E2 to E5).
ghost use Rattle.std.specs.Prelude.{◌≡◌};
ghost use Rattle.vx_extract.specs.Rules as rules;

use vx_bits::Refusal;
use vx_bits::rules::{FILTERED_ACROSS, IRAP_DROPPED, NO_SUCH_SUBPICTURE, NOT_TREATED_AS_PICTURE};
use vx_pic::{Picture, is_irap_or_gdr};

/// Returns whether a picture belongs to a sublayer that is kept.
pub(crate) fn is_kept(picture: &Picture<'_>, tid: u8) -> bool
    ensures { result ≡ rules.is_kept tid picture.now }
{
    picture.kind().temporal_id <= tid
}

/// Returns the first rule that a kept picture breaks.
fn rule_of_kept(picture: &Picture<'_>, target: u32) -> Option<u8>
    ensures { result ≡ rules.rule_of_kept target picture.now }
{
    let sps = picture.sps();
    if sps.subpics() <= target {
        return Some(NO_SUCH_SUBPICTURE);
    }
    if !sps.treated(target) {
        return Some(NOT_TREATED_AS_PICTURE);
    }
    if sps.filtered(target) {
        return Some(FILTERED_ACROSS);
    }
    None
}

/// Returns the rule that a picture breaks that is left out.
fn rule_of_dropped(picture: &Picture<'_>) -> Option<u8>
    ensures { result ≡ rules.rule_of_dropped picture.now }
{
    is_irap_or_gdr(picture.kind().nal_type).then_some(IRAP_DROPPED)
}

/// Returns the first rule that a picture breaks.
fn rule_of(picture: &Picture<'_>, target: u32, tid: u8) -> Option<u8>
    ensures { result ≡ rules.rule_of target tid picture.now }
{
    if is_kept(picture, tid) {
        return rule_of_kept(picture, target);
    }
    rule_of_dropped(picture)
}

/// Returns why subpicture `target` of a picture can't be extracted, if TemporalIds above `tid` are left out. Takes no memory.
pub(crate) fn refusal_of(picture: &Picture<'_>, target: u32, tid: u8) -> Option<Refusal>
    ensures { result ≡ rules.refusal_of target tid picture.now }
{
    let code = rule_of(picture, target, tid)?;
    Some(Refusal::Extract { code })
}
