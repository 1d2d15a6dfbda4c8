//! Units of parameter sets and of messages.
ghost use Rattle.std.specs.Prelude.{◌≡◌, ℕ, ◌<◌, length, option_map, IfOk};
ghost use Rattle.vx_bits.specs.Codes.{EndsInNoZero};
ghost use Rattle.vx_pic.specs.Written.{an_sps, a_pps, an_aps};
ghost use Rattle.vx_write.specs.Units.{IsUnitOf, IsSetUnit, IsSeiUnit};

use std::alloc::{AllocError, Global};
use vx_annexb::escape;
use vx_pic::{PPS_NUT, PREFIX_APS_NUT, PREFIX_SEI_NUT, SPS_NUT};
use vx_pps::{Pps, write_pps};
use vx_sei::{MessageList, write_sei};
use vx_sps::{Sps, write_sps};

/// Makes the unit of layer 0 with this type, TemporalId and RBSP (H.266 7.3.1).
///
/// *Errors:* [`AllocError`] if memory runs out.
pub fn plain_unit(
    alloc: Global,
    nal_type: u8,
    temporal_id: u8,
    rbsp: &[u8],
) -> Result<Vec<u8>, AllocError>
    requires nal_type { nal_type < 32 }
    requires temporal_id { temporal_id < 7 }
    requires ends { EndsInNoZero rbsp.now }
    ensures { IfOk result (λ unit. IsUnitOf nal_type temporal_id rbsp.now unit.items) }
{
    let mut bytes = Vec::new(alloc);
    bytes.push(0)?;
    bytes.push(8 * nal_type + temporal_id + 1)?;
    bytes.extend_from_slice(rbsp)?;
    escape(alloc, &bytes)
}

/// Makes the unit of an SPS, whose TemporalId is 0 (H.266 7.4.2.2).
///
/// *Errors:* [`AllocError`] if memory runs out.
pub fn sps_unit(alloc: Global, sps: &Sps) -> Result<Vec<u8>, AllocError>
    ensures { (tid : ℕ) → IfOk result (λ unit. IsSetUnit tid (an_sps sps.now) unit.items) }
{
    let rbsp = write_sps(alloc, sps)?;
    let unit = plain_unit(alloc, SPS_NUT, 0, &rbsp)?;
    Ok(unit)
}

/// Makes the unit of a PPS for a picture of this TemporalId.
///
/// *Errors:* [`AllocError`] if memory runs out.
pub fn pps_unit(alloc: Global, pps: &Pps, temporal_id: u8) -> Result<Vec<u8>, AllocError>
    requires { temporal_id < 7 }
    ensures { IfOk result (λ unit. IsSetUnit temporal_id (a_pps pps.now) unit.items) }
{
    let rbsp = write_pps(alloc, pps)?;
    let unit = plain_unit(alloc, PPS_NUT, temporal_id, &rbsp)?;
    Ok(unit)
}

/// Makes the unit of an adaptation parameter set for a picture of this TemporalId (H.266 7.3.2.6).
///
/// `kind` and `id` are its type and id; `body` are its bytes after these. *Errors:* [`AllocError`] if memory runs out.
pub fn aps_unit(
    alloc: Global,
    kind: u8,
    id: u8,
    body: &[u8],
    temporal_id: u8,
) -> Result<Vec<u8>, AllocError>
    requires kind { kind < 8 }
    requires id { id < 32 }
    requires some { 0 < length body.now }
    requires ends { EndsInNoZero body.now }
    requires temporal_id { temporal_id < 7 }
    ensures { IfOk result (λ unit. IsSetUnit temporal_id (an_aps (record { kind = kind; id = id; body = body.now })) unit.items) }
{
    let mut rbsp = Vec::new(alloc);
    rbsp.push(32 * kind + id)?;
    rbsp.extend_from_slice(body)?;
    plain_unit(alloc, PREFIX_APS_NUT, temporal_id, &rbsp)
}

/// Makes the SEI unit of messages for a picture of this TemporalId; `None` if there are no messages.
///
/// *Errors:* [`AllocError`] if memory runs out.
pub fn sei_unit(
    alloc: Global,
    messages: &MessageList,
    temporal_id: u8,
) -> Result<Option<Vec<u8>>, AllocError>
    requires { temporal_id < 7 }
    ensures { IfOk result (λ unit. IsSeiUnit temporal_id messages.now (option_map (λ u. record { unit = u.items; messages = messages.now }) unit)) }
{
    if messages.len() == 0 {
        return Ok(None);
    }
    let rbsp = write_sei(alloc, messages)?;
    let unit = plain_unit(alloc, PREFIX_SEI_NUT, temporal_id, &rbsp)?;
    Ok(Some(unit))
}
