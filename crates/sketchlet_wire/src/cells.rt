//! The bytes of the cells of a column: 6 for each row.
ghost use Rattle.std.specs.Prelude.{◌≡◌, ◌≤◌, ◌*◌, ◌++◌, length, drop, IfOk};
ghost use Rattle.byte_fields.specs.Reading.{Gives};
ghost use Rattle.lg_model.specs.declared.limits.TheConstants.{MOST_ROWS};
ghost use Rattle.sketchlet_wire.specs.Spelling.{bucket_bytes, cells_bytes, cells_in, cells_len, zeros};
ghost use Rattle.sketchlet_wire.specs.Reading.{bucket_from, buckets_from, cells_at};

use crate::column::Column;
use byte_fields::{put_u16, put_u32};
use lg_model::Bucket;

// The 6 bytes of a bucket.
#[tactic(auto, unfolding(crate::specs::Spelling::bucket_bytes))]
fn put_bucket(out: &mut [u8], bucket: Bucket)
    requires { 6 ≤ length out.old }
    ensures { out.new ≡ bucket_bytes bucket ++ drop 6 out.old }
{
    put_u32(out, bucket.bytes);
    put_u16(&mut out[4..], bucket.delay);
}

/// Writes the cells of a column at the front of the bytes, of which there are as many, and gives their number, 6 for
/// each row: the bucket of each row, row 0 first, with its sum in 4 and its maximum in 2. The others stay
/// (docs/FORMATS.md, Sketchlet).
pub fn put_cells(out: &mut [u8], column: &Column) -> usize
    requires { cells_len column.now.dims.rows ≤ length out.old }
    ensures len { result ≡ cells_len column.now.dims.rows }
    ensures bytes { out.new ≡ cells_bytes column.now.cells ++ drop result out.old }
{
    let rows = column.dims().rows;
    for i in 0..rows {
        put_bucket(&mut out[6 * usize::from(i)..], column.bucket(i));
    }
    6 * usize::from(rows)
}

fn bucket_of(bytes: &[u8]) -> Bucket
    requires { 6 ≤ length bytes.now }
    ensures { result ≡ bucket_from bytes.now }
{
    Bucket {
        bytes: u32::from_be_bytes([bytes[0], bytes[1], bytes[2], bytes[3]]),
        delay: u16::from_be_bytes([bytes[4], bytes[5]]),
    }
}

// Reads buckets from the first bytes, one for each of the list. As a call of its own it works in memory; as a part of its
// caller it kept eight buckets in registers, and took a fifth longer.
#[inline(never)]
fn fill(kept: &mut [Bucket], bytes: &[u8])
    requires { 6 * length kept.old ≤ length bytes.now }
    ensures { kept.new ≡ buckets_from (length kept.old) bytes.now }
{
    for i in 0..kept.len() {
        kept[i] = bucket_of(&bytes[6 * i..]);
    }
}

/// The buckets of that many rows, at most 8, in the first bytes, 6 for each row, with zeros after them.
pub(crate) fn kept_of(rows: u8, bytes: &[u8]) -> [Bucket; 8]
    requires few { rows ≤ MOST_ROWS }
    requires there { 6 * rows ≤ length bytes.now }
    ensures { result ≡ buckets_from rows bytes.now ++ drop rows zeros }
{
    let mut kept = [Bucket { bytes: 0, delay: 0 }; 8];
    fill(&mut kept[..rows as usize], bytes);
    kept
}

/// The buckets of that many rows, at most 8, in the first bytes, 6 for each row, with zeros past the rows, and the bytes
/// after them. `missing` comes exactly where there are fewer bytes. Takes no memory.
#[inline]
#[tactic(auto, unfolding(crate::specs::Reading::cells_at))]
pub fn take_cells<E: Copy>(rows: u8, bytes: &[u8], missing: E) -> Result<([Bucket; 8], &[u8]), E>
    requires { rows ≤ MOST_ROWS }
    ensures gives { Gives (λ x. (cells_in rows x.0, x.1.now)) result (cells_at missing rows bytes.now) }
    ensures zeros { IfOk result (λ x. drop rows x.0 ≡ drop rows zeros) }
{
    let len = 6 * usize::from(rows);
    if bytes.len() < len {
        return Err(missing);
    }
    Ok((kept_of(rows, bytes), &bytes[len..]))
}
