//! A stream, unit by unit.
ghost use Rattle.std.specs.Prelude.{◌≡◌, ◌≤◌, length};
ghost use Rattle.vx_bits.specs.Limits.{unit_limit};

use crate::fault::LineFault;
use crate::frame::{Frame, frame_of};
use crate::headers::answer_header;
use crate::line::LineBytes;
use crate::sets::{answer_aps, answer_vps, write_accepted, write_same_pps, write_same_sps};
use crate::slices::{answer_apart, answer_inside, behind_first};
use std::alloc::{AllocError, Global};
use std::collections::BTreeMap;
use vx_annexb::{emulation_fault, read_header, unescape};
use vx_bits::{BitReader, Fields};
use vx_fields::ph::ph_pic_parameter_set_id;
use vx_fields::pps::{pps_pic_parameter_set_id, pps_seq_parameter_set_id};
use vx_fields::sps::sps_seq_parameter_set_id;
use vx_ph::{PictureHeader, read_pps_id};
use vx_pic::{
    CRA_NUT, GDR_NUT, IDR_W_RADL, PH_NUT, PPS_NUT, PREFIX_APS_NUT, RASL_NUT, SPS_NUT,
    SUFFIX_APS_NUT, TRAIL_NUT, VPS_NUT,
};
use vx_pps::{Pps, read_pps};
use vx_sps::{Sps, read_sps};
use vx_table::natural;

/// A stream, as far as its units have come: its bytes, and what later ones are read under.
#[derive(Drop)]
pub(crate) struct Stream {
    bytes: Vec<u8>,
    sps: BTreeMap<u32, Sps>,
    pps: BTreeMap<u32, Pps>,
    header: Option<PictureHeader>,
}

/// Returns the number of a field, and 0 if it is absent.
pub(crate) fn number(fields: &Fields, field: u16) -> u32 {
    natural(fields.first(field).unwrap_or(0))
}

/// Appends an SPS of a stream, and what is written of it.
fn write_sps(text: &mut String, alloc: Global, sps: &Sps, rbsp: &[u8]) -> Result<(), AllocError> {
    write_accepted(text, sps.fields())?;
    write_same_sps(text, alloc, sps, rbsp)
}

/// Appends a PPS of a stream, and what is written of it.
fn write_pps(text: &mut String, alloc: Global, pps: &Pps, rbsp: &[u8]) -> Result<(), AllocError> {
    write_accepted(text, pps.fields())?;
    write_same_pps(text, alloc, pps, rbsp)
}

impl Stream {
    /// Returns a stream without units.
    pub(crate) fn new(alloc: Global) -> Stream {
        Stream {
            bytes: Vec::new(alloc),
            sps: BTreeMap::new(alloc),
            pps: BTreeMap::new(alloc),
            header: None,
        }
    }

    /// Returns its bytes: each unit after a start code.
    pub(crate) fn bytes(&self) -> &[u8]
        ensures { result.now ≡ self.now.bytes.items }
    {
        self.bytes.as_slice()
    }

    /// Appends the result for the next unit.
    ///
    /// *Errors:* a unit that is refused, or no NAL unit, or that refers to a set that hasn't come; lack of memory.
    pub(crate) fn answer_unit(
        &mut self,
        text: &mut String,
        alloc: Global,
        unit: &[u8],
    ) -> Result<(), LineFault>
        requires { length unit.now ≤ unit_limit }
    {
        self.bytes.extend_from_slice(&[0, 0, 1])?;
        self.bytes.extend_from_slice(unit)?;
        let header = read_header(unit).ok_or(LineFault::Unit)?;
        if header.reserved {
            return Ok(text.push_str("dropped")?);
        }
        if emulation_fault(unit).is_some() {
            return Err(LineFault::Unit);
        }
        let bytes = unescape(alloc, unit)?;
        let rbsp = bytes.as_slice().get(2..).unwrap_or(&[]);
        self.answer_rbsp(text, alloc, header.nal_type, rbsp)
    }

    /// Appends the result for the RBSP of a unit of a type.
    fn answer_rbsp(
        &mut self,
        text: &mut String,
        alloc: Global,
        nal_type: u8,
        rbsp: &[u8],
    ) -> Result<(), LineFault>
        requires { length rbsp.now ≤ unit_limit }
    {
        match nal_type {
            VPS_NUT | SPS_NUT | PPS_NUT | PREFIX_APS_NUT | SUFFIX_APS_NUT => {
                self.answer_set(text, alloc, nal_type, rbsp)
            }
            PH_NUT => self.answer_header(text, alloc, rbsp),
            TRAIL_NUT..=RASL_NUT | IDR_W_RADL..=GDR_NUT => {
                self.answer_slice(text, alloc, nal_type, rbsp)
            }
            _ => Ok(text.push_str("dropped")?),
        }
    }

    /// Appends the result for a parameter set.
    fn answer_set(
        &mut self,
        text: &mut String,
        alloc: Global,
        nal_type: u8,
        rbsp: &[u8],
    ) -> Result<(), LineFault>
        requires { length rbsp.now ≤ unit_limit }
    {
        text.push_str("set ")?;
        match nal_type {
            VPS_NUT => answer_vps(text, alloc, rbsp),
            SPS_NUT => self.answer_sps(text, alloc, rbsp),
            PPS_NUT => self.answer_pps(text, alloc, rbsp),
            _ => answer_aps(text, alloc, rbsp),
        }
    }

    /// Appends the result for an SPS, which is stored.
    fn answer_sps(&mut self, text: &mut String, alloc: Global, rbsp: &[u8]) -> Result<(), LineFault>
        requires { length rbsp.now ≤ unit_limit }
    {
        let sps = read_sps(alloc, rbsp)?;
        write_sps(text, alloc, &sps, rbsp)?;
        self.store_sps(sps)
    }

    /// Stores an SPS under its id.
    fn store_sps(&mut self, sps: Sps) -> Result<(), LineFault> {
        let id = number(sps.fields(), sps_seq_parameter_set_id);
        self.sps.insert(id, sps).map_err(AllocError::from)?;
        Ok(())
    }

    /// Appends the result for a PPS, which is stored.
    fn answer_pps(&mut self, text: &mut String, alloc: Global, rbsp: &[u8]) -> Result<(), LineFault>
        requires { length rbsp.now ≤ unit_limit }
    {
        let pps = read_pps(alloc, rbsp)?;
        write_pps(text, alloc, &pps, rbsp)?;
        self.store_pps(pps)
    }

    /// Stores a PPS under its id.
    fn store_pps(&mut self, pps: Pps) -> Result<(), LineFault> {
        let id = number(pps.fields(), pps_pic_parameter_set_id);
        self.pps.insert(id, pps).map_err(AllocError::from)?;
        Ok(())
    }

    /// Returns the PPS of an id, and the SPS that it refers to.
    pub(crate) fn sets(&self, pps_id: u32) -> Result<(&Sps, &Pps), LineFault> {
        let pps = self.pps.get(&pps_id).ok_or(LineFault::Missing)?;
        let sps_id = number(pps.fields(), pps_seq_parameter_set_id);
        let sps = self.sps.get(&sps_id).ok_or(LineFault::Missing)?;
        Ok((sps, pps))
    }

    /// Returns the picture header that came last.
    pub(crate) fn header(&self) -> Result<&PictureHeader, LineFault> {
        self.header.as_ref().ok_or(LineFault::Missing)
    }

    /// Returns what the PPS of an id and its SPS make up.
    pub(crate) fn frame(&self, alloc: Global, pps_id: u32) -> Result<Frame<'_>, LineFault> {
        let (sps, pps) = self.sets(pps_id)?;
        Ok(frame_of(alloc, sps, pps)?)
    }

    /// Appends the result for a picture header that is a unit, which is stored.
    fn answer_header(
        &mut self,
        text: &mut String,
        alloc: Global,
        rbsp: &[u8],
    ) -> Result<(), LineFault>
        requires { length rbsp.now ≤ unit_limit }
    {
        let id = read_pps_id(&mut BitReader::new(rbsp))?;
        let (sps, pps) = self.sets(u32::from(id))?;
        self.header = Some(answer_header(text, alloc, rbsp, sps, pps)?);
        Ok(())
    }

    /// Appends the result for a slice.
    fn answer_slice(
        &self,
        text: &mut String,
        alloc: Global,
        nal_type: u8,
        rbsp: &[u8],
    ) -> Result<(), LineFault>
        requires { length rbsp.now ≤ unit_limit }
    {
        if rbsp.first().is_some_and(|byte| *byte >= 128) {
            return self.answer_inside(text, alloc, nal_type, rbsp);
        }
        let header = self.header()?;
        let frame = self.frame(alloc, number(&header.fields, ph_pic_parameter_set_id))?;
        answer_apart(text, alloc, nal_type, rbsp, &frame, header)
    }

    /// Appends the result for a slice whose header has the picture header inside.
    fn answer_inside(
        &self,
        text: &mut String,
        alloc: Global,
        nal_type: u8,
        rbsp: &[u8],
    ) -> Result<(), LineFault>
        requires few { length rbsp.now ≤ unit_limit }
        requires some { 1 ≤ length rbsp.now }
    {
        let id = read_pps_id(&mut behind_first(rbsp))?;
        let frame = self.frame(alloc, u32::from(id))?;
        answer_inside(text, alloc, nal_type, rbsp, &frame)
    }
}
