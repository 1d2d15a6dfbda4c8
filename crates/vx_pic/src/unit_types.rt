//! The types of NAL units that are used (H.266 7.4.2.2, Table 5), by their names there.
ghost use Rattle.std.specs.Prelude.{◌≡◌};
ghost use Rattle.vx_pic.specs.Units as units;

/// A slice of a trailing picture, and the first type of a slice; those up to [`RASL_NUT`] are slices too.
pub const TRAIL_NUT: u8 = 0;
/// A slice of a stepwise temporal sublayer access picture.
pub const STSA_NUT: u8 = 1;
/// A slice of a random access decodable leading picture.
pub const RADL_NUT: u8 = 2;
/// A slice of a random access skipped leading picture.
pub const RASL_NUT: u8 = 3;
/// A slice of an IDR picture that may have decodable leading pictures.
pub const IDR_W_RADL: u8 = 7;
/// A slice of an IDR picture that has no leading pictures.
pub const IDR_N_LP: u8 = 8;
/// A slice of a clean random access picture.
pub const CRA_NUT: u8 = 9;
/// A slice of a gradual decoding refresh picture.
pub const GDR_NUT: u8 = 10;
/// A video parameter set.
pub const VPS_NUT: u8 = 14;
/// A sequence parameter set.
pub const SPS_NUT: u8 = 15;
/// A picture parameter set.
pub const PPS_NUT: u8 = 16;
/// An adaptation parameter set before the slices that use it.
pub const PREFIX_APS_NUT: u8 = 17;
/// An adaptation parameter set that may come after slices.
pub const SUFFIX_APS_NUT: u8 = 18;
/// A picture header.
pub const PH_NUT: u8 = 19;
/// An end of sequence.
pub const EOS_NUT: u8 = 21;
/// An end of bitstream.
pub const EOB_NUT: u8 = 22;
/// Supplemental enhancement information before the slices of a picture.
pub const PREFIX_SEI_NUT: u8 = 23;

/// Returns whether it is the type of an IDR picture.
pub fn is_idr(nal_type: u8) -> bool
    ensures { result ≡ units.is_idr nal_type }
{
    nal_type == IDR_W_RADL || nal_type == IDR_N_LP
}

/// Returns whether it is the type of a CRA or GDR picture.
pub fn is_cra_or_gdr(nal_type: u8) -> bool
    ensures { result ≡ units.is_cra_or_gdr nal_type }
{
    nal_type == CRA_NUT || nal_type == GDR_NUT
}

/// Returns whether it is the type of an IRAP or GDR picture.
pub fn is_irap_or_gdr(nal_type: u8) -> bool
    ensures { result ≡ units.is_irap_or_gdr nal_type }
{
    is_idr(nal_type) || is_cra_or_gdr(nal_type)
}
