//! Reading a body.
ghost use Rattle.std.specs.Prelude.{◌≡◌, ◌≤◌, ◌++◌, ℕ, List, length, slice_index, nat_lt, IfOk, MatchOption, None, Some, if◌then◌else◌};
ghost use Rattle.std.specs.List.{flat_map, AllByRecursion, IsDistinct};
ghost use Rattle.lg_model.specs.Columns as model;
ghost use Rattle.lg_model.specs.declared.limits.TheConstants.{MOST_UPLOAD_COLUMNS};
ghost use Rattle.sketchlet_wire.specs.Spelling.{IsDims, shown};
ghost use Rattle.byte_fields.specs.Reading.{Gives};
ghost use Rattle.book_file.specs.Reading.{column_at};
ghost use Rattle.sketchlet_wire.specs.Uploads.{IsFull, UploadData, same_column_key};
ghost use Rattle.column_book.specs.Kept.{keys_of};
ghost use Rattle.book_file.specs.File.{IsColumnOf, IsRecord, body, body_len, column_bytes};
ghost use Rattle.book_file.specs.Walk.{HasCount};

use lg_base::Memory;
use lg_model::{Bucket, Dims, Key};
use sketchlet_wire::{Column, Upload, WireFault, take_cells, take_key};
use std::alloc::Global;

// The column of these parts, if its index is below the width.
fn column_in(dims: Dims, key: Key, cells: [Bucket; 8]) -> Option<Column>
    requires { IsDims dims }
    ensures { result ≡ (if nat_lt key.index dims.width then Some (shown key dims cells) else None) }
{
    Column::new(key, dims, cells)
}

// The column at the front, and the bytes after it. The fault is none that a file tells.
#[tactic(auto, unfolding(crate::specs::Reading::column_at))]
fn column_of(dims: Dims, bytes: &[u8]) -> Result<(Column, &[u8]), WireFault>
    requires { IsDims dims }
    ensures { Gives (λ x. (x.0, x.1.now)) result (column_at dims bytes.now) }
{
    let (key, rest) = take_key(bytes, WireFault::Short)?;
    let (cells, rest) = take_cells(dims.rows, rest, WireFault::Short)?;
    match column_in(dims, key, cells) {
        Some(column) => Ok((column, rest)),
        None => Err(WireFault::BadIndex { index: key.index }),
    }
}

// That many columns at the front. None exactly where no such columns stand there.
fn columns_of(
    alloc: Global,
    dims: Dims,
    count: u8,
    bytes: &[u8],
) -> Result<Option<Vec<Column>>, Memory>
    requires { IsDims dims }
    ensures { IfOk result (λ found. MatchOption found
        ((cs : List model.Column) (rest : List ℕ) → length cs ≡ count → AllByRecursion (IsColumnOf dims) cs
        → bytes.now ≡ flat_map column_bytes cs ++ rest → ⊥)
        (λ v. (length v.items ≡ count) × AllByRecursion (IsColumnOf dims) v.items
        × ((rest : List ℕ) × (bytes.now ≡ flat_map column_bytes v.items ++ rest)))) }
{
    let mut columns = Vec::with_capacity(alloc, usize::from(count))?;
    let mut left = bytes;
    for _ in 0..count {
        let Ok(found) = column_of(dims, left) else {
            return Ok(None);
        };
        columns.push(found.0)?;
        left = found.1;
    }
    Ok(Some(columns))
}

/// The record whose body this is, with a count of 1 to 16 and as many bytes as it says. None exactly where it is the
/// body of no record of that size whose keys are apart.
pub(crate) fn record_of(alloc: Global, dims: Dims, bytes: &[u8]) -> Result<Option<Upload>, Memory>
    requires dims { IsDims dims }
    requires count { HasCount bytes.now }
    requires size { length bytes.now ≡ body_len dims.rows (slice_index bytes.now 6) }
    ensures { IfOk result (λ found. MatchOption found
        ((r : UploadData) → IsRecord dims r → IsDistinct same_column_key (keys_of r.columns)
        → bytes.now ≡ body r → ⊥)
        (λ u. IsFull u × IsRecord dims u × (bytes.now ≡ body u))) }
{
    let host = u16::from_be_bytes([bytes[0], bytes[1]]);
    let seq = u32::from_be_bytes([bytes[2], bytes[3], bytes[4], bytes[5]]);
    let Some(columns) = columns_of(alloc, dims, bytes[6], &bytes[7..])? else {
        return Ok(None);
    };
    match Upload::new(host, seq, columns) {
        Ok(upload) => {
            upload.columns();
            Ok(Some(upload))
        }
        Err(_) => Ok(None),
    }
}
