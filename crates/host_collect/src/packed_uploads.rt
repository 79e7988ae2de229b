//! The uploads of a host, kept as the packed columns that came to it.
ghost use Rattle.std.specs.Prelude.{◌≡◌, ◌↔◌, ◌<◌, ◌≤◌, ◌^◌, List, All, IsTrue, length, map, slice_index_or, IfOk};
ghost use Rattle.std.specs.List.{list_any};
ghost use Rattle.lg_model.specs.declared.limits.TheConstants.{MOST_SKETCHLET_BYTES, MOST_UPLOAD_COLUMNS};
ghost use Rattle.lg_model.specs.Columns.{Column as ColumnOfModel};
ghost use Rattle.lg_model.specs.Matching.{Matched};
ghost use Rattle.sketchlet_wire.specs.Packing.{IsPacked};
ghost use Rattle.sketchlet_wire.specs.Uploads.{same_column_key};
ghost use Rattle.uploader_core.specs.Uploader.{AreOwn};
ghost use Rattle.upload_frame.specs.Pooled.{item_at, items_at};
ghost use Rattle.host_collect.specs.Cutting.{can_join, cut, numbered};
ghost use Rattle.host_collect.specs.PackedUploads.{AreEnds, column_in, columns_at, pieces, start_of, PackColumns};

use lg_base::Memory;
use lg_model::Key;
use lg_model::limits::{MOST_SKETCHLET_BYTES, MOST_UPLOAD_COLUMNS};
use sketchlet_wire::{Packed, take_key};
use std::alloc::Global;
use std::marker::Model;
use upload_frame::write_packed;
use uploader_core::Uploads;

/// The uploads of a host, cut from the packed columns that came to it, of which each distinct one is kept once: 4 bytes for
/// each that came, and 4 for each upload. Contracts see the list of the uploads.
#[derive(Debug, Drop)]
pub struct PackedUploads<'a> {
    host: u16,
    pool: &'a [Packed],
    // What came, as places in the pool.
    places: &'a [u32],
    // Where each upload ends among what came.
    ends: Vec<u32>,
}

impl<'a> Model for PackedUploads<'a> {
    ghost use Rattle.std.specs.Prelude.{List};
    ghost use Rattle.sketchlet_wire.specs.Uploads.{UploadData};
    ghost use Rattle.host_collect.specs.PackedUploads.{uploads_at, KeepUploads};

    ghost Value = { List UploadData };

    ghost view = { λ u. uploads_at u.host u.pool.now u.places.now u.ends.items };

    ghost invariant = { λ u. KeepUploads u.host u.pool.now u.places.now u.ends.items };
}

// The key of the column that is packed at a place.
fn key_at(pool: &[Packed], place: u32) -> Key
    requires inside { place < length pool.now }
    requires packed { (c : ColumnOfModel) × IsPacked (item_at pool.now place) c }
    ensures { (c : ColumnOfModel) → IsPacked (item_at pool.now place) c → result ≡ c.key }
{
    let bytes = pool[place as usize].spelled();
    match take_key(&bytes[6..], ()) {
        Ok((key, _)) => key,
        Err(()) => unreachable!(),
    }
}

// Whether both keys are one. The index comes first, since the columns of a host differ in it most often.
fn is_same_key(a: &Key, b: &Key) -> bool
    ensures { result ≡ same_column_key a.now b.now }
{
    a.index == b.index && a.epoch == b.epoch && a.switch == b.switch
}

// Whether a key stands in the list.
fn has_key(held: &[Key], key: &Key) -> bool
    ensures { result ≡ list_any (λ k. same_column_key k key.now) held.now }
{
    for k in held {
        if is_same_key(k, key) {
            return true;
        }
    }
    false
}

// Whether a column of that key can join the columns of these keys.
fn joins(held: &[Key], key: &Key) -> bool
    ensures { (cs : List ColumnOfModel) (c : ColumnOfModel) → held.now ≡ map (λ x. x.key) cs → key.now ≡ c.key
        → result ≡ can_join cs c }
{
    held.len() < MOST_UPLOAD_COLUMNS && !has_key(held, key)
}

// Where the uploads of what came end.
fn ends_of(alloc: Global, pool: &[Packed], places: &[u32]) -> Result<Vec<u32>, Memory>
    requires columns { PackColumns pool.now places.now }
    requires count { length places.now < 2 ^ 32 }
    ensures ends { IfOk result (λ ends. AreEnds 0 ends.items (length places.now)) }
    ensures cut { (host : _) → IfOk result (λ ends.
        numbered host (pieces 0 ends.items (columns_at pool.now places.now)) ≡ numbered host (cut (columns_at pool.now places.now))) }
{
    let mut ends = Vec::new(alloc);
    let mut held = Vec::with_capacity(alloc, MOST_UPLOAD_COLUMNS)?;
    let mut taken = 0u32;
    for place in places {
        let key = key_at(pool, *place);
        if !joins(&held, &key) {
            ends.push(taken)?;
            held.clear();
        }
        held.push(key)?;
        taken += 1;
    }
    if taken > 0 {
        ends.push(taken)?;
    }
    Ok(ends)
}

// Where the upload at a position begins and ends among what came.
fn range_of(ends: &[u32], at: usize) -> (usize, usize)
    requires { at < length ends.now }
    ensures from { result.0 ≡ start_of 0 ends.now at }
    ensures to { result.1 ≡ slice_index_or ends.now at 0 }
{
    let from = if at == 0 { 0 } else { ends[at - 1] as usize };
    (from, ends[at] as usize)
}

// Whether a column is packed at a place, whatever place it is.
fn packs_at(pool: &[Packed], place: u32) -> bool
    requires { All (λ p. p.len ≤ MOST_SKETCHLET_BYTES) pool.now }
    ensures { IsTrue result ↔ (place < length pool.now) × IsPacked (item_at pool.now place) (column_in (item_at pool.now place)) }
{
    let Some(item) = pool.get(place as usize) else {
        return false;
    };
    match item.column() {
        Ok((_, used)) => used == usize::from(item.len),
        Err(_) => false,
    }
}

impl<'a> PackedUploads<'a> {
    /// The uploads of what came to the host of that name: columns of a pool, by their places in it, in order of arrival,
    /// fewer than 2^32. Each upload is the longest front of the rest that has at most 16 columns and no key twice
    /// (docs/DEFINITIONS.md, Uploads). `Memory` where there is none for their ends.
    pub fn new(
        alloc: Global,
        host: u16,
        pool: &'a [Packed],
        places: &'a [u32],
    ) -> Result<PackedUploads<'a>, Memory>
        requires columns { PackColumns pool.now places.now }
        requires count { length places.now < 2 ^ 32 }
        ensures value { IfOk result (λ us. (cs : List ColumnOfModel) → Matched IsPacked (items_at pool.now places.now) cs
            → us ≡ numbered host (cut cs)) }
        ensures own { IfOk result (AreOwn host) }
        ensures few { IfOk result (λ us. length us ≤ length places.now) }
    {
        let ends = ends_of(alloc, pool, places)?;
        Ok(PackedUploads {
            host,
            pool,
            places,
            ends,
        })
    }
}

impl<'a> Uploads for PackedUploads<'a> {
    ghost listed = { λ u. u };

    fn count(&self) -> usize {
        self.ends.len()
    }

    // Written from the packed columns as they are.
    fn frame(&self, alloc: Global, at: usize) -> Result<Vec<u8>, Memory> {
        let (from, to) = range_of(&self.ends, at);
        write_packed(
            alloc,
            self.host,
            at as u32,
            self.pool,
            &self.places[from..to],
        )
    }
}

/// Whether all items of a pool are of at most 62 bytes, and these are places of packed columns in it, as
/// [`PackedUploads::new`] needs them. Takes no memory.
pub fn pack_columns(pool: &[Packed], places: &[u32]) -> bool
    ensures { IsTrue result ↔ PackColumns pool.now places.now }
{
    for item in pool {
        if item.len as usize > MOST_SKETCHLET_BYTES {
            return false;
        }
    }
    for place in places {
        if !packs_at(pool, *place) {
            return false;
        }
    }
    true
}
