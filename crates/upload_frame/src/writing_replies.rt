//! Writing replies.
ghost use Rattle.std.specs.Prelude.{◌≡◌, ◌++◌, ◌∷◌, [], IfOk};
ghost use Rattle.std.specs.Int.{w16, w32, to_be_bytes};
ghost use Rattle.sketchlet_wire.specs.Spelling.{column_key_bytes};
ghost use Rattle.upload_frame.specs.Front.{framed};
ghost use Rattle.upload_frame.specs.Replies.{known_code, reply_bytes, why_code, why_key};

use crate::reply::{RefusedWhy, Reply};
use byte_fields::{put_u8, put_u16, put_u32};
use lg_base::Memory;
use lg_model::Key;
use sketchlet_wire::put_key;
use std::alloc::Global;

// The bytes of a reply that has a host alone.
#[tactic(auto, unfolding(crate::specs::Front::framed))]
fn short(kind: u8, host: u16) -> [u8; 5]
    ensures { result ≡ framed kind (to_be_bytes w16 host) }
{
    let mut out = [0; 5];
    put_u16(&mut out, 3);
    put_u8(&mut out[2..], kind);
    put_u16(&mut out[3..], host);
    out
}

// The bytes of an acknowledgement.
#[tactic(auto, unfolding(crate::specs::Front::framed))]
fn acknowledged(host: u16, seq: u32, known: bool) -> [u8; 10]
    ensures { result ≡ framed 0x82 (to_be_bytes w16 host ++ (to_be_bytes w32 seq ++ known_code known ∷ [])) }
{
    let mut out = [0; 10];
    put_u16(&mut out, 8);
    put_u8(&mut out[2..], 0x82);
    put_u16(&mut out[3..], host);
    put_u32(&mut out[5..], seq);
    put_u8(&mut out[9..], if known { 1 } else { 0 });
    out
}

// The code of a reason, and its key, which is zeros where there is none.
fn told(why: RefusedWhy) -> (u8, Key)
    ensures code { result.0 ≡ why_code why }
    ensures key { result.1 ≡ why_key why }
{
    let none = Key {
        switch: 0,
        epoch: 0,
        index: 0,
    };
    match why {
        RefusedWhy::Conflict(key) => (1, key),
        RefusedWhy::Full => (2, none),
        RefusedWhy::Shape => (3, none),
        RefusedWhy::Closed => (4, none),
    }
}

// The bytes of a refusal.
#[tactic(auto, unfolding(crate::specs::Front::framed, sketchlet_wire::specs::Spelling::column_key_bytes))]
fn refused(host: u16, seq: u32, code: u8, key: Key) -> [u8; 18]
    ensures { result ≡ framed 0x83 (to_be_bytes w16 host ++ (to_be_bytes w32 seq ++ code ∷ column_key_bytes key)) }
{
    let mut out = [0; 18];
    put_u16(&mut out, 16);
    put_u8(&mut out[2..], 0x83);
    put_u16(&mut out[3..], host);
    put_u32(&mut out[5..], seq);
    put_u8(&mut out[9..], code);
    put_key(&mut out[10..], key);
    out
}

/// The one spelling of a reply (docs/FORMATS.md, Frames).
pub fn write_reply(alloc: Global, reply: &Reply) -> Result<Vec<u8>, Memory>
    ensures { IfOk result (λ v. v.items ≡ reply_bytes reply.now) }
{
    let mut out = Vec::new(alloc);
    match *reply {
        Reply::Welcome { host } => out.extend_from_slice(&short(0x81, host))?,
        Reply::Acknowledged { host, seq, known } => {
            out.extend_from_slice(&acknowledged(host, seq, known))?
        }
        Reply::Refused { host, seq, why } => {
            let (code, key) = told(why);
            out.extend_from_slice(&refused(host, seq, code, key))?
        }
        Reply::Goodbye { host } => out.extend_from_slice(&short(0x84, host))?,
    }
    Ok(out)
}
