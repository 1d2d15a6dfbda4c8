//! The places of a subpicture's slices among those of its picture.
ghost use Rattle.std.specs.Prelude.{◌≤◌, vec_len, IfOk};
ghost use Rattle.vx_verify.specs.inner.Found.{ArePlaces};

use std::alloc::{AllocError, Global};
use vx_pic::Picture;

/// Returns the places of the slices of subpicture `k` of a picture, in order.
pub(crate) fn places(alloc: Global, picture: &Picture<'_>, k: u32) -> Result<Vec<u32>, AllocError>
    ensures places { IfOk result (λ places. ArePlaces picture.now k places.items) }
    ensures few { IfOk result (λ places. vec_len places ≤ 1000) }
{
    let mut places = Vec::new(alloc);
    for i in 0..picture.slice_count() {
        if picture.slice(i).header.subpic == k {
            places.push(i)?;
        }
    }
    Ok(places)
}
