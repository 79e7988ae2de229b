//! Writing a record.
ghost use Rattle.std.specs.Prelude.{◌≡◌, ◌++◌, ◌∷◌, ◌≤◌, ℕ, List, Bool, [], filter, length, map, IfOk, OnOk};
ghost use Rattle.std.specs.List.{flat_map};
ghost use Rattle.std.specs.Int.{w16, w32, to_be_bytes};
ghost use Rattle.lg_model.specs.Columns as model;
ghost use Rattle.sketchlet_wire.specs.Uploads.{IsFull, upload_of};
ghost use Rattle.column_book.specs.Applying.{mask_of};
ghost use Rattle.book_file.specs.File.{body, column_bytes};

use byte_fields::{put_u8, put_u16, put_u32};
use lg_base::Memory;
use sketchlet_wire::{Column, Upload, put_cells, put_key};
use std::alloc::Global;

// Appends the bytes of a column.
fn put_column(out: &mut Vec<u8>, column: &Column) -> Result<(), Memory>
    ensures { OnOk result (out.new.items ≡ out.old.items ++ column_bytes column.now) }
{
    let mut key = [0; 8];
    put_key(&mut key, column.key());
    out.extend_from_slice(&key)?;
    let mut cells = [0; 48];
    let len = put_cells(&mut cells, column);
    out.extend_from_slice(&cells[..len])?;
    Ok(())
}

// The 7 bytes before the columns.
fn lead_of(host: u16, seq: u32, count: u8) -> [u8; 7]
    ensures { result ≡ to_be_bytes w16 host ++ (to_be_bytes w32 seq ++ count ∷ []) }
{
    let mut out = [0; 7];
    put_u16(&mut out, host);
    put_u32(&mut out[2..], seq);
    put_u8(&mut out[6..], count);
    out
}

// How many of at most 16 columns have their bit set.
fn count_of(mask: u16, columns: &[Column]) -> u8
    requires { length columns.now ≤ 16 }
    ensures { (p : model.Column → Bool) → mask ≡ mask_of (map p columns.now) →
        result ≡ length (filter p columns.now) }
{
    let mut left = mask;
    let mut count = 0;
    for _ in columns {
        count += (left % 2) as u8;
        left /= 2;
    }
    count
}

// Appends the columns whose bit is set.
fn put_columns(out: &mut Vec<u8>, mask: u16, columns: &[Column]) -> Result<(), Memory>
    ensures { OnOk result ((p : model.Column → Bool) → mask ≡ mask_of (map p columns.now) →
        out.new.items ≡ out.old.items ++ flat_map column_bytes (filter p columns.now)) }
{
    let mut left = mask;
    for column in columns {
        if left % 2 == 1 {
            put_column(out, column)?;
        }
        left /= 2;
    }
    Ok(())
}

/// The body of the record of those columns of an upload whose bit is set, bit k for column k, and a closed gate after
/// it: what stands after the open gate of the record (docs/FORMATS.md, The book file).
pub fn body_of(alloc: Global, upload: &Upload, mask: u16) -> Result<Vec<u8>, Memory>
    ensures bytes { IfOk result (λ v. (p : model.Column → Bool) → mask ≡ mask_of (map p upload.now.columns) →
        v.items ≡ body (upload_of upload.now.host upload.now.seq (filter p upload.now.columns)) ++ 0 ∷ []) }
    ensures full { IfOk result (λ v. IsFull upload.now) }
{
    let columns = upload.columns();
    let count = count_of(mask, columns);
    let mut out = Vec::with_capacity(alloc, 904)?;
    out.extend_from_slice(&lead_of(upload.host(), upload.seq(), count))?;
    put_columns(&mut out, mask, columns)?;
    out.push(0)?;
    Ok(out)
}
