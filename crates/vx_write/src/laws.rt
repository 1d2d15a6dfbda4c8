//! Laws of written units. Each function does nothing and has its law as its contract.
ghost use Rattle.vx_write.specs.Again.{EndStands, SeiUnitsAreRead, SetUnitsAreRead, UnitsStand};

use vx_aps::spelled_is_aps;
use vx_pic::readers_are_unique;

/// If the unit of a set or of messages is written, then readers of H.266 read these.
pub fn set_units_are_read()
    ensures sets { SetUnitsAreRead }
    ensures messages { SeiUnitsAreRead }
{
    vx_sps::written_is_read();
    vx_pps::written_is_read();
    vx_sei::written_is_read();
    spelled_is_aps();
    readers_are_unique();
}

/// If a unit isn't too long, then it can stand in a byte stream; an end of sequence can too.
///
/// The clause is H.266 Annex B.
pub fn units_stand()
    ensures units { UnitsStand }
    ensures end { EndStands }
{}
