//! A NAL unit, as it is taken.
ghost use Rattle.std.specs.Prelude.{◌≡◌, ◌+◌, ◌≤◌, length, drop, IfOk};
ghost use Rattle.vx_bits.specs.Limits.{unit_limit};
ghost use Rattle.vx_annexb.specs.NalUnit.{header_of, nal_unit_type};
ghost use Rattle.vx_annexb.specs.ByteStream.{IsSound};
ghost use Rattle.vx_annexb.specs.Emulation.{unescaped};
ghost use Rattle.vx_pic.specs.Units as units;
ghost use Rattle.vx_pic.specs.Units.{rbsp_of, has_header_inside};
ghost use Rattle.vx_assemble.specs.inner.Classes.{class_seen, class_behind_sets};
ghost use Rattle.vx_assemble.specs.inner.Fronts.{IsFront};

use std::alloc::{AllocError, Global};
use vx_annexb::{NalHeader, read_header, unescape};
use vx_pic::{
    EOB_NUT, EOS_NUT, PH_NUT, PPS_NUT, PREFIX_APS_NUT, PREFIX_SEI_NUT, RASL_NUT, SPS_NUT,
    SUFFIX_APS_NUT, VPS_NUT, is_irap_or_gdr,
};

/// A NAL unit, as it is taken.
#[derive(Clone, Copy)]
pub(crate) struct NalUnit<'a> {
    /// Its bytes.
    pub bytes: &'a [u8],
    /// Its header.
    pub header: NalHeader,
    /// Its RBSP.
    pub rbsp: &'a [u8],
    ghost sound: { IsSound bytes.now },
    ghost heads: { header ≡ header_of bytes.now },
    ghost spells: { rbsp.now ≡ rbsp_of bytes.now },
    ghost short: { length rbsp.now ≤ unit_limit },
}

impl<'a> NalUnit<'a> {
    /// Returns the unit with this header, of which `plain` are the bytes without emulation prevention bytes.
    #[tactic(auto, unfolding(vx_pic::specs::Units::rbsp_of))]
    pub(crate) fn new(bytes: &'a [u8], header: NalHeader, plain: &'a [u8]) -> NalUnit<'a>
        requires sound { IsSound bytes.now }
        requires header { header ≡ header_of bytes.now }
        requires value { plain.now ≡ unescaped bytes.now }
        requires size { length plain.now ≤ length bytes.now }
        ensures { result.bytes.now ≡ bytes.now }
    {
        NalUnit {
            bytes,
            header,
            rbsp: behind_header(plain),
        }
    }

    /// Returns whether a slice has the picture header inside (H.266 7.3.7).
    #[tactic(auto, unfolding(vx_pic::specs::Units::has_header_inside))]
    fn has_header_inside(&self) -> bool
        ensures { result ≡ has_header_inside self.now.bytes.now }
    {
        match self.rbsp.first() {
            Some(byte) => *byte >= 128,
            None => false,
        }
    }

    /// Returns it as a slice's unit.
    pub(crate) fn as_slice(self) -> SliceUnit<'a>
        ensures { result.bytes.now ≡ self.entry.bytes.now }
    {
        SliceUnit {
            bytes: self.bytes,
            header: self.header,
            front: self,
        }
    }
}

/// Returns the header of a unit, as framing returns it.
pub(crate) fn nal_header(unit: &[u8]) -> NalHeader
    requires { IsSound unit.now }
    ensures { result ≡ header_of unit.now }
{
    read_header(unit).unwrap()
}

/// The greatest number of bytes of a slice's unit from which its headers are read, if they end there.
const FRONT: usize = 512;

/// Returns the first bytes of a unit, which are also a unit.
pub(crate) fn front_of(unit: &[u8]) -> &[u8]
    requires { IsSound unit.now }
    ensures front { IsFront result.now unit.now }
    ensures sound { IsSound result.now }
    ensures header { header_of result.now ≡ header_of unit.now }
{
    &unit[..unit.len().min(FRONT)]
}

/// Returns the bytes after the header.
pub(crate) fn behind_header(bytes: &[u8]) -> &[u8]
    ensures { result.now ≡ drop 2 bytes.now }
{
    if bytes.len() < 2 { &[] } else { &bytes[2..] }
}

/// A slice's NAL unit. Its payload isn't unescaped: the headers are read from the first bytes, if they end there.
#[derive(Clone, Copy)]
pub(crate) struct SliceUnit<'a> {
    /// Its bytes.
    pub bytes: &'a [u8],
    /// Its header.
    pub header: NalHeader,
    /// The unit of its first bytes.
    pub front: NalUnit<'a>,
    ghost sound: { IsSound bytes.now },
    ghost heads: { header ≡ header_of bytes.now },
    ghost begins: { IsFront front.bytes.now bytes.now },
}

impl<'a> SliceUnit<'a> {
    /// Returns the unit whose first bytes have the bytes `plain` without emulation prevention bytes.
    pub(crate) fn new(
        bytes: &'a [u8],
        header: NalHeader,
        front: &'a [u8],
        plain: &'a [u8],
    ) -> SliceUnit<'a>
        requires sound { IsSound bytes.now }
        requires header { header ≡ header_of bytes.now }
        requires front { IsFront front.now bytes.now }
        requires front_sound { IsSound front.now }
        requires front_header { header ≡ header_of front.now }
        requires value { plain.now ≡ unescaped front.now }
        requires size { length plain.now ≤ length front.now }
        ensures { result.bytes.now ≡ bytes.now }
    {
        let front = NalUnit::new(front, header, plain);
        SliceUnit {
            bytes,
            header,
            front,
        }
    }

    /// Returns the whole unit, of which `plain` are the bytes without emulation prevention bytes.
    pub(crate) fn whole(&self, plain: &'a [u8]) -> NalUnit<'a>
        requires value { plain.now ≡ unescaped self.now.bytes.now }
        requires size { length plain.now ≤ length self.now.bytes.now }
        ensures { result.bytes.now ≡ self.now.bytes.now }
    {
        NalUnit::new(self.bytes, self.header, plain)
    }

    /// Returns whether the picture header is inside (H.266 7.3.7).
    pub(crate) fn has_header_inside(&self) -> bool
        ensures { result ≡ has_header_inside self.now.bytes.now }
    {
        self.front.has_header_inside()
    }
}

/// The class of a NAL unit type.
#[derive(Clone, Copy, PartialEq, Eq)]
pub(crate) enum UnitClass {
    /// A type that is dropped.
    Other,
    /// A video parameter set.
    Vps,
    /// A sequence parameter set.
    Sps,
    /// A picture parameter set.
    Pps,
    /// An adaptation parameter set before slices.
    PrefixAps,
    /// An adaptation parameter set that may come after slices.
    SuffixAps,
    /// A picture header.
    Header,
    /// A slice.
    Slice,
    /// An end of sequence, or of the bitstream.
    End,
    /// Supplemental enhancement information before slices.
    Sei,
}

/// Returns the class of the types after those of sets and headers.
fn class_behind_sets(nal_type: u8) -> UnitClass
    ensures { class_seen result ≡ class_behind_sets nal_type }
{
    if nal_type <= RASL_NUT || is_irap_or_gdr(nal_type) {
        return UnitClass::Slice;
    }
    match nal_type {
        EOS_NUT | EOB_NUT => UnitClass::End,
        PREFIX_SEI_NUT => UnitClass::Sei,
        _ => UnitClass::Other,
    }
}

/// Returns the class of a type.
#[tactic(auto, unfolding(vx_pic::specs::Units::class_of))]
pub(crate) fn class_of(nal_type: u8) -> UnitClass
    ensures { class_seen result ≡ units.class_of nal_type }
{
    match nal_type {
        VPS_NUT => UnitClass::Vps,
        SPS_NUT => UnitClass::Sps,
        PPS_NUT => UnitClass::Pps,
        PREFIX_APS_NUT => UnitClass::PrefixAps,
        SUFFIX_APS_NUT => UnitClass::SuffixAps,
        PH_NUT => UnitClass::Header,
        _ => class_behind_sets(nal_type),
    }
}
