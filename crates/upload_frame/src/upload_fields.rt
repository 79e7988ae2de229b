//! Reading the fields of an upload.
ghost use Rattle.std.specs.Prelude.{◌≡◌, ◌≤◌, length, [], IfOk, drop};
ghost use Rattle.byte_fields.specs.Reading.{Gives};
ghost use Rattle.lg_model.specs.declared.limits.TheConstants.{MOST_UPLOAD_COLUMNS};
ghost use Rattle.sketchlet_wire.specs.Uploads.{IsUpload};
ghost use Rattle.sketchlet_wire.specs.Reading.{column_reading};
ghost use Rattle.upload_frame.specs.declared.frame.Frame.TheVariants as frame;
ghost use Rattle.upload_frame.specs.Machine.{GivesNext};
ghost use Rattle.upload_frame.specs.Frames.{columns_at, next_column, upload_at, upload_head, upload_head_at};

use crate::fault::{FrameFault, NextFault};
use byte_fields::{take_u8, take_u16, take_u32};
use lg_model::limits::MOST_UPLOAD_COLUMNS;
use sketchlet_wire::{Column, Upload, decode, holds};
use std::alloc::Global;

// The bytes after the first n.
fn past(bytes: &[u8], n: usize) -> &[u8]
    requires { n ≤ length bytes.now }
    ensures { result.now ≡ drop n bytes.now }
{
    &bytes[n..]
}

// The column at the front, if no earlier one has its key.
fn next_of(columns: &[Column], nth: u8, bytes: &[u8]) -> Result<(Column, usize), FrameFault>
    requires { length columns.now ≡ nth }
    ensures gives { result ≡ next_column columns.now (column_reading bytes.now) }
    ensures inside { IfOk result (λ x. x.1 ≤ length bytes.now) }
{
    match decode(bytes) {
        Err(fault) => Err(FrameFault::Wire { nth, fault }),
        Ok((column, used)) => {
            if holds(columns, &column.key()) {
                return Err(FrameFault::Twice { nth });
            }
            Ok((column, used))
        }
    }
}

fn columns_of(alloc: Global, len: u16, count: u8, body: &[u8]) -> Result<Vec<Column>, NextFault>
    requires some { 1 ≤ count }
    requires few { count ≤ MOST_UPLOAD_COLUMNS }
    ensures gives { GivesNext (λ v. v.items) result (columns_at len count [] body.now) }
    ensures apart { IfOk result (λ v. IsUpload v.items) }
{
    let mut columns = Vec::with_capacity(alloc, usize::from(count))?;
    let mut rest = body;
    for nth in 0..count {
        let (column, used) = next_of(&columns, nth, rest)?;
        rest = past(rest, used);
        columns.push(column)?;
    }
    if !rest.is_empty() {
        return Err(NextFault::Frame(FrameFault::Length { length: len }));
    }
    Ok(columns)
}

// The host, the number and the count of columns, and the bytes after them.
#[tactic(auto, unfolding(crate::specs::Frames::upload_head_at))]
fn head_of(len: u16, body: &[u8]) -> Result<(u16, u32, u8, &[u8]), FrameFault>
    ensures gives { Gives (λ x. (upload_head x.0 x.1 x.2, x.3.now)) result (upload_head_at len body.now) }
    ensures range { IfOk result (λ x. (1 ≤ x.2) × (x.2 ≤ MOST_UPLOAD_COLUMNS)) }
{
    let missing = FrameFault::Length { length: len };
    let (host, rest) = take_u16(body, missing)?;
    let (seq, rest) = take_u32(rest, missing)?;
    let (count, rest) = take_u8(rest, missing)?;
    if count < 1 || usize::from(count) > MOST_UPLOAD_COLUMNS {
        return Err(FrameFault::Count { count });
    }
    Ok((host, seq, count, rest))
}

/// The upload of the fields of a whole frame with that length field.
#[tactic(auto, unfolding(crate::specs::Frames::upload_at))]
pub(crate) fn upload_of(alloc: Global, len: u16, body: &[u8]) -> Result<Upload, NextFault>
    ensures { GivesNext (λ u. frame.Upload u) result (upload_at len body.now) }
{
    let (host, seq, count, rest) = head_of(len, body)?;
    let columns = columns_of(alloc, len, count, rest)?;
    Ok(Upload::of(host, seq, columns))
}
