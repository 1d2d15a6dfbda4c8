//! The scope of the sets in force.
ghost use Rattle.std.specs.Prelude.{◌≡◌};
ghost use Rattle.vx_ph.specs.InForce.{both_sets, in_force};

use vx_fields::names::ph::EXTRA_PH_BITS;
use vx_fields::pps::pps_pic_parameter_set_id;
use vx_pps::Pps;
use vx_sps::Sps;
use vx_table::Scope;

/// Returns the scope at which headers are read and written, from those of the SPS and the PPS.
///
/// `extra_ph_bits` is the number of extra bits of a picture header. Makes two copies, whatever the sets have.
#[tactic(auto, unfolding(crate::specs::InForce::both_sets))]
pub fn both_sets(sps: &Scope, pps: &Scope, extra_ph_bits: u32) -> Scope
    ensures { result ≡ both_sets sps.now pps.now extra_ph_bits }
{
    let mut scope = *sps;
    scope.take_over(pps, pps_pic_parameter_set_id);
    scope.set(EXTRA_PH_BITS, extra_ph_bits);
    scope
}

/// Returns the scope of the sets in force, at which headers are read and written.
#[tactic(auto, unfolding(crate::specs::InForce::in_force))]
pub fn in_force(sps: &Sps, pps: &Pps) -> Scope
    ensures { result ≡ in_force sps.now pps.now }
{
    both_sets(sps.scope(), pps.scope(), sps.extra_ph_bits())
}
