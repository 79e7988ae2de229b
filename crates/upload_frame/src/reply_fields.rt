//! The reply at the front of a stream.
ghost use Rattle.std.specs.Prelude.{◌≡◌, ◌≤◌, length, IfOk, IfSome};
ghost use Rattle.byte_fields.specs.Reading.{Gives};
ghost use Rattle.upload_frame.specs.Front.{front_at};
ghost use Rattle.upload_frame.specs.Machine.{GivesNext};
ghost use Rattle.upload_frame.specs.Replies.{acknowledged_at, goodbye_at, refused_at, replies, reply_fields_at, welcome_at, why_of};

use crate::fault::{FrameFault, NextFault};
use crate::head::{Side, head_of};
use crate::reply::{RefusedWhy, Reply};
use byte_fields::{take_u8, take_u16, take_u32};
use lg_model::Key;
use sketchlet_wire::take_key;

// The key of a refusal that has none.
const NO_KEY: Key = Key {
    switch: 0,
    epoch: 0,
    index: 0,
};

// The reason of that code and key.
#[tactic(auto, unfolding(crate::specs::Replies::why_of))]
fn reason_of(code: u8, key: Key) -> Result<RefusedWhy, FrameFault>
    ensures { result ≡ why_of code key }
{
    if code < 1 || code > 4 {
        return Err(FrameFault::Code { code });
    }
    if code == 1 {
        return Ok(RefusedWhy::Conflict(key));
    }
    if key != NO_KEY {
        return Err(FrameFault::KeyNotZero);
    }
    Ok(match code {
        2 => RefusedWhy::Full,
        3 => RefusedWhy::Shape,
        _ => RefusedWhy::Closed,
    })
}

#[tactic(auto, unfolding(crate::specs::Replies::welcome_at))]
fn welcome_of(len: u16, body: &[u8]) -> Result<Reply, FrameFault>
    ensures { result ≡ welcome_at len body.now }
{
    let (host, _) = take_u16(body, FrameFault::Length { length: len })?;
    Ok(Reply::Welcome { host })
}

#[tactic(auto, unfolding(crate::specs::Replies::acknowledged_at))]
fn acknowledged_of(len: u16, body: &[u8]) -> Result<Reply, FrameFault>
    ensures { result ≡ acknowledged_at len body.now }
{
    let missing = FrameFault::Length { length: len };
    let (host, rest) = take_u16(body, missing)?;
    let (seq, rest) = take_u32(rest, missing)?;
    let (code, _) = take_u8(rest, missing)?;
    if code > 1 {
        return Err(FrameFault::Code { code });
    }
    Ok(Reply::Acknowledged {
        host,
        seq,
        known: code == 1,
    })
}

#[tactic(auto, unfolding(crate::specs::Replies::refused_at))]
fn refused_of(len: u16, body: &[u8]) -> Result<Reply, FrameFault>
    ensures { result ≡ refused_at len body.now }
{
    let missing = FrameFault::Length { length: len };
    let (host, rest) = take_u16(body, missing)?;
    let (seq, rest) = take_u32(rest, missing)?;
    let (code, rest) = take_u8(rest, missing)?;
    let (key, _) = take_key(rest, missing)?;
    let why = reason_of(code, key)?;
    Ok(Reply::Refused { host, seq, why })
}

#[tactic(auto, unfolding(crate::specs::Replies::goodbye_at))]
fn goodbye_of(len: u16, body: &[u8]) -> Result<Reply, FrameFault>
    ensures { result ≡ goodbye_at len body.now }
{
    let (host, _) = take_u16(body, FrameFault::Length { length: len })?;
    Ok(Reply::Goodbye { host })
}

// The reply of the fields of a whole one.
#[tactic(auto, unfolding(crate::specs::Replies::reply_fields_at))]
fn fields_of(len: u16, kind: u8, body: &[u8]) -> Result<Reply, FrameFault>
    ensures { result ≡ reply_fields_at len kind body.now }
{
    match kind {
        0x81 => welcome_of(len, body),
        0x82 => acknowledged_of(len, body),
        0x83 => refused_of(len, body),
        _ => goodbye_of(len, body),
    }
}

/// The reply at the front, and its length on the stream, if it is whole. Takes no memory.
pub(crate) fn reply_at(bytes: &[u8]) -> Result<Option<(Reply, usize)>, NextFault>
    ensures gives { GivesNext (λ x. x) result (front_at replies bytes.now) }
    ensures inside { IfOk result (λ o. IfSome o (λ x. x.1 ≤ length bytes.now)) }
{
    match head_of(Side::Analyser, bytes) {
        Err(fault) => Err(NextFault::Frame(fault)),
        Ok(None) => Ok(None),
        Ok(Some((kind, len))) => {
            let end = usize::from(len) + 2;
            match fields_of(len, kind, &bytes[3..end]) {
                Ok(reply) => Ok(Some((reply, end))),
                Err(fault) => Err(NextFault::Frame(fault)),
            }
        }
    }
}
