//! The fields of an adaptation parameter set.
ghost use Rattle.std.specs.Prelude.{◌≡◌, IfOk};
ghost use Rattle.vx_aps.specs.Fields.{AreFields};
ghost use Rattle.vx_aps.specs.inner.Bodies.{body_seen, items_seen};

use crate::aps::SCALING;
use crate::read::ids;
use std::alloc::{AllocError, Global};
use vx_bits::{Fields, Item};
use vx_fields::aps::{aps_adaptation_parameter_set_id, aps_params_type};

/// The fields of an adaptation parameter set, up to the first that is refused.
#[derive(Drop)]
pub struct ApsFields {
    /// The items of its type and its id.
    pub items: Fields,
    /// The number of bytes of its body.
    pub body: Option<usize>,
}

/// Returns the number of bytes of a body, or `None` if it can't end a unit.
fn body_len(body: &[u8]) -> Option<usize>
    ensures { result ≡ body_seen body.now }
{
    if body.is_empty() {
        return None;
    }
    if body[body.len() - 1] == 0 {
        return None;
    }
    Some(body.len())
}

/// Returns the items of a type and an id.
fn items_of(alloc: Global, kind: u8, id: Option<u8>) -> Result<Fields, AllocError>
    ensures { IfOk result (λ items. items ≡ items_seen kind id) }
{
    let mut items = Fields::new(alloc);
    items.push(Item {
        field: aps_params_type,
        value: i64::from(kind),
    })?;
    if let Some(id) = id {
        items.push(Item {
            field: aps_adaptation_parameter_set_id,
            value: i64::from(id),
        })?;
    }
    Ok(items)
}

/// Reads the fields of an adaptation parameter set, `adaptation_parameter_set_rbsp()` (clause 7.3.2.6), for display.
///
/// It reads up to the first field that [`read_aps`](crate::read_aps) refuses, and also sets of a type that is dropped.
///
/// # Errors
///
/// `AllocError` if memory runs out.
pub fn read_aps_fields(alloc: Global, rbsp: &[u8]) -> Result<ApsFields, AllocError>
    ensures { IfOk result (AreFields rbsp.now) }
{
    let Some((first, behind)) = rbsp.split_first() else {
        return Ok(ApsFields {
            items: Fields::new(alloc),
            body: None,
        });
    };
    let kind = first / 32;
    let id = first % 32;
    if kind > SCALING {
        let items = items_of(alloc, kind, Some(id))?;
        return Ok(ApsFields {
            items,
            body: Some(behind.len()),
        });
    }
    if id >= ids(kind) {
        let items = items_of(alloc, kind, None)?;
        return Ok(ApsFields { items, body: None });
    }
    let items = items_of(alloc, kind, Some(id))?;
    Ok(ApsFields {
        items,
        body: body_len(behind),
    })
}
