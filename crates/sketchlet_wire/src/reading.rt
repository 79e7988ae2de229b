//! Reading a column, field by field from left to right.
ghost use Rattle.std.specs.Prelude.{ℕ, ◌≡◌, ◌<◌, ◌≤◌, ◌*◌, List, length, IfOk, Ok, ◌++◌, drop, take};
ghost use Rattle.byte_fields.specs.Reading.{Gives};
ghost use Rattle.lg_model.specs.declared.limits.TheConstants.{MOST_ROWS, MOST_WIDTH};
ghost use Rattle.lg_model.specs.Columns.{Column as ColumnOfModel};
ghost use Rattle.sketchlet_wire.specs.Spelling.{IsColumn, spelling, spelling_len, IsDims};
ghost use Rattle.sketchlet_wire.specs.Reading.{mark_at, rows_at, width_at, marks_at, dims_at};
ghost use Rattle.sketchlet_wire.specs.Reading.{admitted_key_at, column_reading};

use crate::cells::kept_of;
use crate::column::Column;
use crate::fault::WireFault;
use crate::key::take_key;
use byte_fields::{take_u8, take_u16};
use lg_model::limits::{MOST_ROWS, MOST_WIDTH};
use lg_model::{Dims, Key};

// A reader takes a field off the front of the bytes, and gives it with the bytes after it.

#[tactic(auto, unfolding(crate::specs::Reading::mark_at))]
fn mark_of(place: u8, mark: u8, bytes: &[u8]) -> Result<&[u8], WireFault>
    ensures { Gives (λ x. x.now) result (mark_at place mark bytes.now) }
{
    let (b, rest) = take_u8(bytes, WireFault::Short)?;
    if b != mark {
        return Err(WireFault::NotSketchlet { at: place });
    }
    Ok(rest)
}

#[tactic(auto, unfolding(crate::specs::Reading::rows_at))]
fn rows_of(bytes: &[u8]) -> Result<(u8, &[u8]), WireFault>
    ensures gives { Gives (λ x. (x.0, x.1.now)) result (rows_at bytes.now) }
    ensures range { IfOk result (λ x. (1 ≤ x.0) × (x.0 ≤ MOST_ROWS)) }
{
    let (rows, rest) = take_u8(bytes, WireFault::Short)?;
    if rows < 1 || rows > MOST_ROWS {
        return Err(WireFault::BadRows { rows });
    }
    Ok((rows, rest))
}

#[tactic(auto, unfolding(crate::specs::Reading::width_at))]
fn width_of(bytes: &[u8]) -> Result<(u16, &[u8]), WireFault>
    ensures gives { Gives (λ x. (x.0, x.1.now)) result (width_at bytes.now) }
    ensures range { IfOk result (λ x. (1 ≤ x.0) × (x.0 ≤ MOST_WIDTH)) }
{
    let (width, rest) = take_u16(bytes, WireFault::Short)?;
    if width < 1 || width > MOST_WIDTH {
        return Err(WireFault::BadWidth { width });
    }
    Ok((width, rest))
}

#[tactic(auto, unfolding(crate::specs::Reading::marks_at))]
fn marks_of(bytes: &[u8]) -> Result<&[u8], WireFault>
    ensures { Gives (λ x. x.now) result (marks_at bytes.now) }
{
    let rest = mark_of(0, 0x4C, bytes)?;
    let rest = mark_of(1, 0x47, rest)?;
    mark_of(2, 1, rest)
}

#[tactic(auto, unfolding(crate::specs::Reading::dims_at))]
fn dims_of(bytes: &[u8]) -> Result<(Dims, &[u8]), WireFault>
    ensures gives { Gives (λ x. (x.0, x.1.now)) result (dims_at bytes.now) }
    ensures range { IfOk result (λ x. IsDims x.0) }
{
    let (rows, rest) = rows_of(bytes)?;
    let (width, rest) = width_of(rest)?;
    Ok((Dims { rows, width }, rest))
}

#[tactic(auto, unfolding(crate::specs::Reading::admitted_key_at))]
fn admitted_key_of(width: u16, bytes: &[u8]) -> Result<(Key, &[u8]), WireFault>
    ensures gives { Gives (λ x. (x.0, x.1.now)) result (admitted_key_at width bytes.now) }
    ensures range { IfOk result (λ x. x.0.index < width) }
{
    let (key, rest) = take_key(bytes, WireFault::Short)?;
    if key.index >= width {
        return Err(WireFault::BadIndex { index: key.index });
    }
    Ok((key, rest))
}

// The buckets go from where they are read into the answer: each function between would copy them.
#[tactic(auto, unfolding(crate::specs::Reading::sketchlet_at, crate::specs::Reading::cells_at))]
fn read(bytes: &[u8]) -> Result<(Column, usize), WireFault>
    ensures { result ≡ column_reading bytes.now }
{
    let rest = marks_of(bytes)?;
    let (dims, rest) = dims_of(rest)?;
    let (key, rest) = admitted_key_of(dims.width, rest)?;
    let len = 6 * usize::from(dims.rows);
    if rest.len() < len {
        return Err(WireFault::Short);
    }
    let buckets = kept_of(dims.rows, rest);
    Ok((Column::kept(key, dims, buckets), 14 + len))
}

/// The column at the front of the bytes, whatever follows it, and the length of its spelling, `14 + 6 * rows`. Takes no
/// memory.
///
/// The fault is that of the first field, from left to right, that isn't wholly there (`Short`) or holds a value that isn't
/// admitted: `NotSketchlet` for the two letters and the version, `BadRows`, `BadWidth`, `BadIndex`. Switch, epoch and
/// buckets may be any numbers (docs/FORMATS.md, Sketchlet).
pub fn decode(bytes: &[u8]) -> Result<(Column, usize), WireFault>
    // What is read is spelled so.
    ensures found { IfOk result (λ x. IsColumn x.0 × (bytes.now ≡ spelling x.0 ++ drop x.1 bytes.now) × (x.1 ≡ spelling_len x.0.dims.rows)) }
    // What is spelled so is read, whatever follows.
    ensures only { (c : ColumnOfModel) (rest : List ℕ) → IsColumn c → bytes.now ≡ spelling c ++ rest → result ≡ Ok (c, spelling_len c.dims.rows) }
    // A spelling and nothing else is read to its end.
    ensures whole { (c : ColumnOfModel) → IsColumn c → bytes.now ≡ spelling c → result ≡ Ok (c, length bytes.now) }
    ensures inside { IfOk result (λ x. x.1 ≤ length bytes.now) }
    // Which fault it is.
    ensures exact { result ≡ column_reading bytes.now }
{
    read(bytes)
}
