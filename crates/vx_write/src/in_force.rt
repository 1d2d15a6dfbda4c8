//! The sets in force for a picture, from which rewritten ones are made.
ghost use Rattle.std.specs.Prelude.{◌≡◌};
ghost use Rattle.vx_fields.specs.declared.ptl.TheConstants as ptl_fields;
ghost use Rattle.vx_table.specs.Loaded.{number};
ghost use Rattle.vx_write.specs.InForce.{AreInForce};

use vx_fields::ptl::general_level_idc;
use vx_pic::Picture;

/// States what is known of the sets of a picture. Does nothing.
pub fn sets_in_force(picture: &Picture<'_>)
    ensures { AreInForce picture.now }
{
    let _sps = picture.sps().fields();
    let _pps = picture.pps().fields();
    let _ids = picture.ids();
    let _first = picture.layout().slice_count(0);
}

/// Returns the number of a field in a picture's SPS.
pub fn in_sps(picture: &Picture<'_>, field: u16) -> u32
    ensures { result ≡ number picture.now.sps field }
{
    picture.sps().number(field)
}

/// Returns the number of a field in a picture's PPS.
pub fn in_pps(picture: &Picture<'_>, field: u16) -> u32
    ensures { result ≡ number picture.now.pps field }
{
    picture.pps().number(field)
}

/// Returns the level of a picture's SPS.
#[tactic(auto, using(crate::proofs::Ids::level_below))]
pub fn own_level(picture: &Picture<'_>) -> u8
    ensures { result ≡ number picture.now.sps ptl_fields.general_level_idc }
{
    let _set = picture.sps().fields();
    in_sps(picture, general_level_idc) as u8
}
