//! What is done to all rows of a sketch, row 0 first.
ghost use Rattle.std.specs.Prelude.{◌≡◌, ◌<◌, ◌≤◌, ◌-◌, ℕ, [], length, map, take, drop, replicate, slice_index, slice_index_or, IfOk, EachIndex};
ghost use Rattle.lg_model.specs.Placing.{IsShape};
ghost use Rattle.lg_model.specs.Sketch.{raise, column_at, zero_bucket, zero_table};
ghost use Rattle.sumax_sketch.specs.SketchState.{with_column};
ghost use Rattle.sumax_sketch.specs.Touched.{AreZeroedAt};

use crate::row::{Row, ZERO};
use row_hash::{Places, Shape};
use std::alloc::{AllocError, Global};
use sumax_row::Bucket;

/// Rows of zeros of a shape. An error where there is no memory.
pub fn zero_rows(alloc: Global, shape: &Shape) -> Result<Vec<Row>, AllocError>
    ensures zeros { IfOk result (λ rows. rows.items ≡ zero_table shape.now) }
    ensures range { IsShape shape.now.rows shape.now.width }
{
    let mut rows = Vec::new(alloc);
    for _count in 0..shape.rows() {
        rows.push(Row::new(alloc, shape.width())?)?;
    }
    Ok(rows)
}

/// Counts a packet in its flow's bucket of each row. The least old sum is handed on from row to row.
pub fn raise_rows(rows: &mut [Row], places: &Places, size: u32, delay: u32)
    requires rows { length places.now ≡ length rows.old }
    requires inside { EachIndex places.now (λ i. slice_index places.now i < length (slice_index_or rows.old i [])) }
    requires few { length places.now < 256 }
    ensures { rows.new ≡ raise (slice_index places.now) size delay rows.old }
{
    let mut running = u32::MAX;
    for i in 0..rows.len() {
        let place = places.row(i as u8);
        let row = &mut rows[i];
        running = row.raise(place, size, delay, running);
    }
}

/// The buckets at an index, with zeros past the rows.
pub fn column(rows: &[Row], index: u16) -> [Bucket; 8]
    requires few { length rows.now ≤ 8 }
    requires inside { EachIndex rows.now (λ i. index < length (slice_index_or rows.now i [])) }
    ensures rows { take (length rows.now) result ≡ column_at rows.now index }
    ensures rest { drop (length rows.now) result ≡ replicate (8 - length rows.now) zero_bucket }
{
    let mut column = [ZERO; 8];
    for i in 0..rows.len() {
        let row = &rows[i];
        column[i] = row.bucket(index);
    }
    column
}

/// Puts other buckets at an index. Those past the rows are not looked at.
pub fn set_column(rows: &mut [Row], index: u16, buckets: &[Bucket; 8])
    requires few { length rows.old ≤ 8 }
    requires inside { EachIndex rows.old (λ i. index < length (slice_index_or rows.old i [])) }
    ensures { rows.new ≡ with_column index buckets.now rows.old }
{
    for i in 0..rows.len() {
        let row = &mut rows[i];
        row.set(index, buckets[i]);
    }
}

/// Makes all buckets zeros.
pub fn clear_rows(rows: &mut [Row])
    ensures { rows.new ≡ map (λ row. replicate (length row) zero_bucket) rows.old }
{
    for i in 0..rows.len() {
        let row = &mut rows[i];
        row.clear();
    }
}

/// Makes the bucket of each row at its place a zero.
pub fn clear_places(rows: &mut [Row], at: &[u16; 8])
    requires few { length rows.old ≤ 8 }
    ensures { AreZeroedAt at.now rows.old rows.new }
{
    for i in 0..rows.len() {
        let row = &mut rows[i];
        row.zero(at[i]);
    }
}
