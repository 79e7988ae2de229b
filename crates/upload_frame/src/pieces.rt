//! The frames of a stream that comes in pieces.
ghost use Rattle.std.specs.Prelude.{◌≡◌, ◌<◌, ◌^◌, ℕ, List, length, IfOk};
ghost use Rattle.std.specs.List.{flat_map};
ghost use Rattle.upload_frame.specs.Frames.{frames};
ghost use Rattle.upload_frame.specs.Machine.{Streams, Follows, IsDry};

use crate::fault::{FrameFault, NextFault};
use crate::frame::Frame;
use crate::reader::Reader;
use lg_base::Memory;
use std::alloc::Global;

// Takes all frames that are there.
fn drain(reader: &mut Reader, out: &mut Vec<Frame>) -> Result<Option<FrameFault>, Memory>
    ensures { (stream : List ℕ) → Follows frames stream out.old.items reader.old →
        IfOk result (λ end. Follows frames stream out.new.items reader.new × (reader.new.fault ≡ end)
        × IsDry frames reader.new.rest reader.new.fault) }
{
    loop {
        match reader.next() {
            Ok(None) => return Ok(None),
            Ok(Some(frame)) => out.push(frame)?,
            Err(NextFault::Frame(fault)) => return Ok(Some(fault)),
            Err(NextFault::Memory) => return Err(Memory),
        }
    }
}

/// The frames of the stream that comes in these pieces, fewer than 2^63 bytes in all, and the fault that ended it, if one
/// did. They do not depend on how the stream is cut.
pub fn frames_of(
    alloc: Global,
    pieces: &[Vec<u8>],
) -> Result<(Vec<Frame>, Option<FrameFault>), Memory>
    requires { length (flat_map (λ piece. piece.items) pieces.now) < 2 ^ 63 }
    ensures { IfOk result (λ x. Streams frames (flat_map (λ piece. piece.items) pieces.now) x.0.items x.1) }
{
    let mut reader = Reader::new(alloc);
    let mut given = Vec::new(alloc);
    let mut end = None;
    for piece in pieces {
        reader.feed(piece)?;
        end = drain(&mut reader, &mut given)?;
    }
    Ok((given, end))
}
