//! The frame at the front of a stream.
ghost use Rattle.std.specs.Prelude.{◌≡◌, ◌≤◌, length, IfOk, IfSome};
ghost use Rattle.byte_fields.specs.Reading.{Gives};
ghost use Rattle.upload_frame.specs.Front.{front_at};
ghost use Rattle.upload_frame.specs.Machine.{GivesNext};
ghost use Rattle.upload_frame.specs.Frames.{bye_at, frame_fields_at, frames, hello_at};

use crate::fault::{FrameFault, NextFault};
use crate::frame::Frame;
use crate::head::{Side, head_of};
use crate::upload_fields::upload_of;
use byte_fields::take_u16;
use sketchlet_wire::take_shape;
use std::alloc::Global;

#[tactic(auto, unfolding(crate::specs::Frames::hello_at))]
fn hello_of(len: u16, body: &[u8]) -> Result<Frame, FrameFault>
    ensures { Gives (λ x. x) result (hello_at len body.now) }
{
    let missing = FrameFault::Length { length: len };
    let (host, rest) = take_u16(body, missing)?;
    match take_shape(rest, missing, FrameFault::BadShape) {
        Ok((shape, _)) => Ok(Frame::Hello { host, shape }),
        Err(fault) => Err(fault),
    }
}

#[tactic(auto, unfolding(crate::specs::Frames::bye_at))]
fn bye_of(len: u16, body: &[u8]) -> Result<Frame, FrameFault>
    ensures { Gives (λ x. x) result (bye_at len body.now) }
{
    let (host, _) = take_u16(body, FrameFault::Length { length: len })?;
    Ok(Frame::Bye { host })
}

// The frame of the fields of a whole one.
#[tactic(auto, unfolding(crate::specs::Frames::frame_fields_at))]
fn fields_of(alloc: Global, len: u16, kind: u8, body: &[u8]) -> Result<Frame, NextFault>
    ensures { GivesNext (λ x. x) result (frame_fields_at len kind body.now) }
{
    if kind == 1 {
        return match hello_of(len, body) {
            Ok(frame) => Ok(frame),
            Err(fault) => Err(NextFault::Frame(fault)),
        };
    }
    if kind == 2 {
        return match upload_of(alloc, len, body) {
            Ok(upload) => Ok(Frame::Upload(upload)),
            Err(fault) => Err(fault),
        };
    }
    match bye_of(len, body) {
        Ok(frame) => Ok(frame),
        Err(fault) => Err(NextFault::Frame(fault)),
    }
}

/// The frame at the front, and its length on the stream, if it is whole.
pub(crate) fn frame_at(alloc: Global, bytes: &[u8]) -> Result<Option<(Frame, usize)>, NextFault>
    ensures gives { GivesNext (λ x. x) result (front_at frames bytes.now) }
    ensures inside { IfOk result (λ o. IfSome o (λ x. x.1 ≤ length bytes.now)) }
{
    match head_of(Side::Host, bytes) {
        Err(fault) => Err(NextFault::Frame(fault)),
        Ok(None) => Ok(None),
        Ok(Some((kind, len))) => {
            let end = usize::from(len) + 2;
            match fields_of(alloc, len, kind, &bytes[3..end]) {
                Ok(frame) => Ok(Some((frame, end))),
                Err(fault) => Err(fault),
            }
        }
    }
}
