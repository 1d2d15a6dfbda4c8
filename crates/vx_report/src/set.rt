//! The line of `show` for a parameter set.

ghost use Rattle.std.specs.Prelude.{◌≡◌, string_bytes, IfOk};
ghost use Rattle.serde_json.specs.View.{view};
ghost use Rattle.vx_report.specs.SetLine as line;
ghost use Rattle.vx_report.specs.SetLine.{set_json, set_text};

use serde_json::{Value, json};
use std::alloc::{AllocError, Global};
use vx_bits::Fields;
use vx_fields::pps::{
    pps_num_slices_in_pic_minus1, pps_pic_parameter_set_id, pps_seq_parameter_set_id,
    pps_single_slice_per_subpic_flag,
};
use vx_fields::sps::sps_seq_parameter_set_id;
use vx_fields::vps::{vps_max_layers_minus1, vps_max_sublayers_minus1, vps_video_parameter_set_id};
use vx_pps::Pps;
use vx_sps::Sps;
use vx_table::Scope;

/// The numbers that `show` prints of a parameter set.
#[derive(Clone, Copy, PartialEq, Eq)]
pub enum SetNumbers {
    /// A video parameter set: vps_video_parameter_set_id, and the maximum numbers of layers and sublayers that it states.
    Vps {
        id: u32,
        layers: u64,
        sublayers: u64,
    },
    /// A sequence parameter set: its id, maximum picture size, CTU size and number of subpictures.
    ///
    /// The id is sps_seq_parameter_set_id; sizes are in luma samples.
    Sps {
        id: u32,
        width: u32,
        height: u32,
        ctu: u32,
        subpictures: u32,
    },
    /// A picture parameter set: its id, its SPS's id, and its numbers of tile columns, tile rows and slices.
    ///
    /// The id is pps_pic_parameter_set_id. The number of slices is 0 if each subpicture is one.
    Pps {
        id: u32,
        sps: u32,
        columns: u64,
        rows: u64,
        slices: u64,
    },
    /// An adaptation parameter set: aps_params_type and aps_adaptation_parameter_set_id.
    Aps {
        kind: u8,
        id: u8,
    },
}

impl SetNumbers {
    ghost use Rattle.std.specs.Prelude.{◌≡◌};
    ghost use Rattle.vx_report.specs.SetLine as line;

    /// Returns the numbers of the video parameter set with these items.
    pub fn of_vps(fields: &Fields) -> SetNumbers
        ensures { result ≡ line.vps_numbers fields.now }
    {
        let mut scope = Scope::new();
        scope.load(fields);
        SetNumbers::Vps {
            id: scope.latest(vps_video_parameter_set_id),
            layers: u64::from(scope.latest(vps_max_layers_minus1)) + 1,
            sublayers: u64::from(scope.latest(vps_max_sublayers_minus1)) + 1,
        }
    }

    /// Returns the numbers of a sequence parameter set.
    #[tactic(auto, unfolding(vx_pic::specs::Sets::sps_id))]
    pub fn of_sps(sps: &Sps) -> SetNumbers
        ensures { result ≡ line.sps_numbers sps.now }
    {
        SetNumbers::Sps {
            id: sps.scope().latest(sps_seq_parameter_set_id),
            width: sps.width(),
            height: sps.height(),
            ctu: sps.ctb(),
            subpictures: sps.subpics(),
        }
    }

    /// Returns the numbers of a picture parameter set.
    #[tactic(auto, unfolding(vx_pic::specs::Sets::pps_id, vx_pic::specs::Sets::referred_sps))]
    pub fn of_pps(pps: &Pps) -> SetNumbers
        ensures { result ≡ line.pps_numbers pps.now }
    {
        SetNumbers::Pps {
            id: pps.scope().latest(pps_pic_parameter_set_id),
            sps: pps.scope().latest(pps_seq_parameter_set_id),
            columns: tile_columns(pps),
            rows: tile_rows(pps),
            slices: listed_slices(pps),
        }
    }
}

/// Returns NumTileColumns (H.266 6.5.1).
fn tile_columns(pps: &Pps) -> u64
    ensures { result ≡ line.tile_columns pps.now }
{
    if !pps.partitioned() {
        return 1;
    }
    (pps.columns().len() as u64).saturating_sub(1)
}

/// Returns NumTileRows (H.266 6.5.1).
fn tile_rows(pps: &Pps) -> u64
    ensures { result ≡ line.tile_rows pps.now }
{
    if !pps.partitioned() {
        return 1;
    }
    (pps.rows().len() as u64).saturating_sub(1)
}

/// Returns the number of slices of a picture, or 0 if each subpicture is one.
fn listed_slices(pps: &Pps) -> u64
    ensures { result ≡ line.listed_slice_count pps.now }
{
    let scope = pps.scope();
    if scope.latest(pps_single_slice_per_subpic_flag) != 0 {
        return 0;
    }
    u64::from(scope.latest(pps_num_slices_in_pic_minus1)) + 1
}

/// Makes the JSON line of a parameter set, by its type, with a line feed.
///
/// The lines: `{"layers":1,"sublayers":1,"vps":0}`, `{"ctu":64,"height":64,"sps":0,"subpictures":1,"width":64}`,
/// `{"columns":1,"pps":0,"rows":1,"slices":1,"sps":0}`, `{"aps":3,"kind":0}`. *Errors:* [`AllocError`] if memory runs out.
pub fn set_line(alloc: Global, numbers: SetNumbers) -> Result<Vec<u8>, AllocError>
    ensures { IfOk result (λ line. line.items ≡ set_text numbers) }
{
    let mut text = json_text(alloc, numbers)?;
    text.push('\n')?;
    Ok(text.into_bytes())
}

/// Makes the line without its line feed.
fn json_text(alloc: Global, numbers: SetNumbers) -> Result<String, AllocError>
    ensures { IfOk result (λ text. string_bytes text ≡ set_json numbers) }
{
    match numbers {
        SetNumbers::Vps {
            id,
            layers,
            sublayers,
        } => vps_json(alloc, id, layers, sublayers),
        SetNumbers::Sps {
            id,
            width,
            height,
            ctu,
            subpictures,
        } => sps_json(alloc, id, width, height, ctu, subpictures),
        SetNumbers::Pps {
            id,
            sps,
            columns,
            rows,
            slices,
        } => pps_json(alloc, id, sps, columns, rows, slices),
        SetNumbers::Aps { kind, id } => aps_json(alloc, kind, id),
    }
}

fn vps_json(alloc: Global, id: u32, layers: u64, sublayers: u64) -> Result<String, AllocError>
    ensures { IfOk result (λ text. string_bytes text ≡ line.vps_json id layers sublayers) }
{
    let value = vps_value(alloc, id, layers, sublayers)?;
    value.to_string(alloc)
}

fn vps_value(alloc: Global, id: u32, layers: u64, sublayers: u64) -> Result<Value, AllocError>
    ensures { IfOk result (λ value. view value ≡ line.vps_object id layers sublayers) }
{
    json!(in alloc; {
        "layers": layers,
        "sublayers": sublayers,
        "vps": id,
    })
}

fn sps_json(
    alloc: Global,
    id: u32,
    width: u32,
    height: u32,
    ctu: u32,
    subpictures: u32,
) -> Result<String, AllocError>
    ensures { IfOk result (λ text. string_bytes text ≡ line.sps_json id width height ctu subpictures) }
{
    let value = sps_value(alloc, id, width, height, ctu, subpictures)?;
    value.to_string(alloc)
}

fn sps_value(
    alloc: Global,
    id: u32,
    width: u32,
    height: u32,
    ctu: u32,
    subpictures: u32,
) -> Result<Value, AllocError>
    ensures { IfOk result (λ value. view value ≡ line.sps_object id width height ctu subpictures) }
{
    json!(in alloc; {
        "ctu": ctu,
        "height": height,
        "sps": id,
        "subpictures": subpictures,
        "width": width,
    })
}

fn pps_json(
    alloc: Global,
    id: u32,
    sps: u32,
    columns: u64,
    rows: u64,
    slices: u64,
) -> Result<String, AllocError>
    ensures { IfOk result (λ text. string_bytes text ≡ line.pps_json id sps columns rows slices) }
{
    let value = pps_value(alloc, id, sps, columns, rows, slices)?;
    value.to_string(alloc)
}

fn pps_value(
    alloc: Global,
    id: u32,
    sps: u32,
    columns: u64,
    rows: u64,
    slices: u64,
) -> Result<Value, AllocError>
    ensures { IfOk result (λ value. view value ≡ line.pps_object id sps columns rows slices) }
{
    json!(in alloc; {
        "columns": columns,
        "pps": id,
        "rows": rows,
        "slices": slices,
        "sps": sps,
    })
}

fn aps_json(alloc: Global, kind: u8, id: u8) -> Result<String, AllocError>
    ensures { IfOk result (λ text. string_bytes text ≡ line.aps_json kind id) }
{
    let value = aps_value(alloc, kind, id)?;
    value.to_string(alloc)
}

fn aps_value(alloc: Global, kind: u8, id: u8) -> Result<Value, AllocError>
    ensures { IfOk result (λ value. view value ≡ line.aps_object kind id) }
{
    json!(in alloc; {
        "aps": id,
        "kind": kind,
    })
}
