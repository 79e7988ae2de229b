//! The bytes of a stream that are not yet frames, for both readers.
ghost use Rattle.std.specs.Prelude.{◌≡◌, ◌<◌, ◌≤◌, ◌+◌, ◌-◌, ◌^◌, length, IfOk, IfSome, OnErr, OnOk, None, [], drop};
ghost use Rattle.upload_frame.specs.Machine.{reader_of, fed, Settled};

use crate::fault::{FrameFault, NextFault};
use std::alloc::{AllocError, Global};
use std::marker::Model;

/// The bytes that are not yet frames, how many bytes were, and the fault that ended the stream.
#[derive(Debug, Drop)]
pub(crate) struct Stream {
    // The bytes fed, but for those that were let go.
    bytes: Vec<u8>,
    // Where the rest begins in them.
    at: usize,
    taken: u64,
    fault: Option<FrameFault>,
}

impl Model for Stream {
    ghost use Rattle.std.specs.Prelude.{drop, length, ◌≤◌, ◌<◌, ◌+◌, ◌^◌};
    ghost use Rattle.upload_frame.specs.Machine.{ReaderData, reader_of};

    ghost Value = { ReaderData };

    ghost view = { λ r. reader_of (drop r.at r.bytes.items) r.taken r.fault };

    ghost invariant = { λ r. (r.at ≤ length r.bytes.items) × (r.taken + length (drop r.at r.bytes.items) < 2 ^ 63) };
}

// Lets the first bytes go.
fn shed(bytes: &mut Vec<u8>, at: usize)
    requires { at ≤ length bytes.old.items }
    ensures { bytes.new.items ≡ drop at bytes.old.items }
{
    let left = bytes.len() - at;
    bytes.copy_within(at.., 0);
    bytes.truncate(left);
}

impl Stream {
    pub(crate) fn new(alloc: Global) -> Stream
        ensures { result ≡ reader_of [] 0 None }
    {
        Stream {
            bytes: Vec::new(alloc),
            at: 0,
            taken: 0,
            fault: None,
        }
    }

    // Appends a piece. After a fault nothing is kept of it.
    pub(crate) fn feed(&mut self, piece: &[u8]) -> Result<(), AllocError>
        requires { self.old.taken + length self.old.rest + length piece.now < 2 ^ 63 }
        ensures ok { OnOk result (self.new ≡ fed self.old piece.now) }
        ensures err { OnErr result (self.new ≡ self.old) }
    {
        if self.fault.is_some() {
            return Ok(());
        }
        if self.at > 0 {
            shed(&mut self.bytes, self.at);
            self.at = 0;
        }
        self.bytes.extend_from_slice(piece)
    }

    pub(crate) fn fault(&self) -> Option<FrameFault>
        ensures { result ≡ self.now.fault }
    {
        self.fault
    }

    pub(crate) fn taken(&self) -> u64
        ensures { result ≡ self.now.taken }
    {
        self.taken
    }

    // How many bytes can still be fed.
    pub(crate) fn left(&self) -> u64
        ensures { result + self.now.taken + length self.now.rest ≡ 2 ^ 63 - 1 }
    {
        (1 << 63) - 1 - self.taken - self.rest().len() as u64
    }

    pub(crate) fn rest(&self) -> &[u8]
        ensures { result.now ≡ self.now.rest }
    {
        &self.bytes[self.at..]
    }

    // Takes what is at the front: a frame of that many bytes, or a fault, after which no byte is kept.
    pub(crate) fn settle<T: Drop>(
        &mut self,
        front: Result<Option<(T, usize)>, NextFault>,
    ) -> Result<Option<T>, NextFault>
        requires inside { IfOk front (λ o. IfSome o (λ x. x.1 ≤ length self.old.rest)) }
        ensures { Settled self.old front result self.new }
    {
        match front {
            Ok(None) => Ok(None),
            Ok(Some((frame, len))) => {
                self.at += len;
                self.taken += len as u64;
                Ok(Some(frame))
            }
            Err(NextFault::Frame(fault)) => {
                self.fault = Some(fault);
                self.at = self.bytes.len();
                Err(NextFault::Frame(fault))
            }
            Err(NextFault::Memory) => Err(NextFault::Memory),
        }
    }
}
