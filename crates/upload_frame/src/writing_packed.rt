//! Writing the frame of an upload whose columns are kept packed.
ghost use Rattle.std.specs.Prelude.{◌≡◌, ◌≤◌, ◌<◌, ◌*◌, ◌++◌, List, All, length, IfOk, OnOk};
ghost use Rattle.std.specs.List.{flat_map};
ghost use Rattle.lg_model.specs.declared.limits.TheConstants.{MOST_SKETCHLET_BYTES, MOST_UPLOAD_COLUMNS};
ghost use Rattle.lg_model.specs.Columns.{Column};
ghost use Rattle.lg_model.specs.Matching.{Matched};
ghost use Rattle.sketchlet_wire.specs.Packing.{IsPacked};
ghost use Rattle.sketchlet_wire.specs.Uploads.{upload_of};
ghost use Rattle.upload_frame.specs.Frames.{frame_of};
ghost use Rattle.upload_frame.specs.Pooled.{items_at, bytes_at};

use crate::writing::upload_head;
use lg_base::Memory;
use sketchlet_wire::Packed;
use std::alloc::Global;

// The bytes that count of the item at a place.
fn spelled(pool: &[Packed], place: u32) -> &[u8]
    requires inside { place < length pool.now }
    requires short { All (λ p. p.len ≤ MOST_SKETCHLET_BYTES) pool.now }
    ensures value { result.now ≡ bytes_at pool.now place }
    ensures few { length result.now ≤ MOST_SKETCHLET_BYTES }
{
    pool[place as usize].spelled()
}

// How many bytes the items at these places have, which are at most 62 for each.
fn packed_len(pool: &[Packed], places: &[u32]) -> usize
    requires inside { All (λ k. k < length pool.now) places.now }
    requires short { All (λ p. p.len ≤ MOST_SKETCHLET_BYTES) pool.now }
    requires count { length places.now ≤ MOST_UPLOAD_COLUMNS }
    ensures len { result ≡ length (flat_map (bytes_at pool.now) places.now) }
    ensures few { result ≤ 62 * length places.now }
{
    let mut len = 0;
    for place in places {
        len += spelled(pool, *place).len();
    }
    len
}

// Writes the bytes of the items at these places after the others, for which there is room.
fn put_packed(out: &mut Vec<u8>, pool: &[Packed], places: &[u32]) -> Result<(), Memory>
    requires inside { All (λ k. k < length pool.now) places.now }
    requires short { All (λ p. p.len ≤ MOST_SKETCHLET_BYTES) pool.now }
    ensures { OnOk result (out.new.items ≡ out.old.items ++ flat_map (bytes_at pool.now) places.now) }
{
    for place in places {
        out.extend_from_slice(spelled(pool, *place))?;
    }
    Ok(())
}

/// The one spelling of the frame of an upload whose columns are kept packed: those at these places of a pool, 1 to 16, in
/// their order (docs/FORMATS.md, Frames). No column is read for it.
pub fn write_packed(
    alloc: Global,
    host: u16,
    seq: u32,
    pool: &[Packed],
    places: &[u32],
) -> Result<Vec<u8>, Memory>
    requires inside { All (λ k. k < length pool.now) places.now }
    requires short { All (λ p. p.len ≤ MOST_SKETCHLET_BYTES) pool.now }
    requires count { length places.now ≤ MOST_UPLOAD_COLUMNS }
    ensures { IfOk result (λ v. (cs : List Column) → Matched IsPacked (items_at pool.now places.now) cs
        → v.items ≡ frame_of (upload_of host seq cs)) }
{
    let len = packed_len(pool, places);
    let head = upload_head((len + 8) as u16, host, seq, places.len() as u8);
    let mut out = Vec::with_capacity(alloc, len + 10)?;
    out.extend_from_slice(&head)?;
    put_packed(&mut out, pool, places)?;
    Ok(out)
}
