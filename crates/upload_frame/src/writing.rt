//! Writing frames.
ghost use Rattle.std.specs.Prelude.{◌≡◌, ◌≤◌, ◌<◌, ◌*◌, ◌+◌, ◌++◌, ◌∷◌, [], length, IfOk};
ghost use Rattle.std.specs.List.{flat_map};
ghost use Rattle.std.specs.Int.{w16, w32, to_be_bytes};
ghost use Rattle.sketchlet_wire.specs.Spelling.{spelling};
ghost use Rattle.sketchlet_wire.specs.ShapeFields.{shape_bytes};
ghost use Rattle.sketchlet_wire.specs.Uploads.{IsFull};
ghost use Rattle.upload_frame.specs.Front.{framed};
ghost use Rattle.upload_frame.specs.Frames.{frame_bytes, frame_of};

use crate::frame::Frame;
use byte_fields::{put_u8, put_u16, put_u32};
use lg_base::Memory;
use lg_model::Shape;
use sketchlet_wire::{Column, Upload, put_column, put_shape};
use std::alloc::Global;

// How many bytes the sketchlets of these columns have, which are at most 62 for each.
fn columns_len(columns: &[Column]) -> usize
    requires { length columns.now ≤ 16 }
    ensures len { result ≡ length (flat_map spelling columns.now) }
    ensures few { result ≤ 62 * length columns.now }
{
    let mut len = 0;
    for column in columns {
        len += 14 + 6 * usize::from(column.dims().rows);
    }
    len
}

// Writes the sketchlets of these columns, one after the other, which have that many bytes.
fn put_columns(out: &mut [u8], columns: &[Column])
    requires { length out.old ≡ length (flat_map spelling columns.now) }
    ensures { out.new ≡ flat_map spelling columns.now }
{
    let mut at = 0;
    for column in columns {
        at += put_column(&mut out[at..], column);
    }
}

// The ten bytes before the columns of an upload: length, kind, host, number and count.
pub(crate) fn upload_head(len: u16, host: u16, seq: u32, count: u8) -> [u8; 10]
    ensures { result ≡ to_be_bytes w16 len ++ 2 ∷ (to_be_bytes w16 host ++ (to_be_bytes w32 seq ++ count ∷ [])) }
{
    let mut out = [0; 10];
    put_u16(&mut out, len);
    put_u8(&mut out[2..], 2);
    put_u16(&mut out[3..], host);
    put_u32(&mut out[5..], seq);
    put_u8(&mut out[9..], count);
    out
}

/// The one spelling of the frame of an upload, which is lent.
#[tactic(auto, unfolding(crate::specs::Front::framed))]
pub fn write_upload(alloc: Global, upload: &Upload) -> Result<Vec<u8>, Memory>
    ensures { IfOk result (λ v. (v.items ≡ frame_of upload.now) × IsFull upload.now) }
{
    let columns = upload.columns();
    let len = columns_len(columns);
    let head = upload_head(
        (len + 8) as u16,
        upload.host(),
        upload.seq(),
        columns.len() as u8,
    );
    let mut out = Vec::with_capacity(alloc, len + 10)?;
    out.extend_from_slice(&head)?;
    out.resize(len + 10, 0)?;
    put_columns(&mut out[10..], columns);
    Ok(out)
}

// The bytes of a hello.
#[tactic(auto, unfolding(crate::specs::Front::framed, sketchlet_wire::specs::ShapeFields::shape_bytes, sketchlet_wire::specs::Spelling::dims_bytes))]
fn hello(host: u16, shape: &Shape) -> [u8; 17]
    ensures { result ≡ framed 1 (to_be_bytes w16 host ++ shape_bytes shape.now) }
{
    let mut out = [0; 17];
    put_u16(&mut out, 15);
    put_u8(&mut out[2..], 1);
    put_u16(&mut out[3..], host);
    put_shape(&mut out[5..], shape);
    out
}

// The bytes of a bye.
#[tactic(auto, unfolding(crate::specs::Front::framed))]
fn bye(host: u16) -> [u8; 5]
    ensures { result ≡ framed 3 (to_be_bytes w16 host) }
{
    let mut out = [0; 5];
    put_u16(&mut out, 3);
    put_u8(&mut out[2..], 3);
    put_u16(&mut out[3..], host);
    out
}

/// The one spelling of a frame (docs/FORMATS.md, Frames).
pub fn write_frame(alloc: Global, frame: &Frame) -> Result<Vec<u8>, Memory>
    ensures { IfOk result (λ v. v.items ≡ frame_bytes frame.now) }
{
    let mut out = Vec::new(alloc);
    match frame {
        Frame::Hello { host, shape } => out.extend_from_slice(&hello(*host, shape))?,
        Frame::Upload(upload) => return write_upload(alloc, upload),
        Frame::Bye { host } => out.extend_from_slice(&bye(*host))?,
    }
    Ok(out)
}
