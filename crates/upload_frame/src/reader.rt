//! Readers of frames and of replies.
ghost use Rattle.std.specs.Prelude.{◌≡◌, ◌<◌, ◌+◌, ◌-◌, ◌^◌, length, IfOk, OnErr, OnOk, None, []};
ghost use Rattle.sketchlet_wire.specs.Uploads.{IsFull, UploadData};
ghost use Rattle.upload_frame.specs.Frames.{frame_of, frames};
ghost use Rattle.upload_frame.specs.Machine.{reader_of, fed, Stepped};
ghost use Rattle.upload_frame.specs.Replies.{replies};

use crate::fault::NextFault;
use crate::frame::Frame;
use crate::frame_fields::frame_at;
use crate::reply::Reply;
use crate::reply_fields::reply_at;
use crate::stream::Stream;
use lg_base::Memory;
use sketchlet_wire::Upload;
use std::alloc::Global;
use std::marker::Model;

/// Takes frames off a stream that comes in pieces.
#[derive(Debug, Drop)]
pub struct Reader {
    alloc: Global,
    stream: Stream,
}

impl Model for Reader {
    ghost use Rattle.upload_frame.specs.Machine.{ReaderData};

    ghost Value = { ReaderData };

    ghost view = { λ r. r.stream };

    ghost invariant = { λ r. Unit {0} };
}

impl Reader {
    /// A reader at the start of a stream. Takes no memory.
    pub fn new(alloc: Global) -> Reader
        ensures { result ≡ reader_of [] 0 None }
    {
        Reader {
            alloc,
            stream: Stream::new(alloc),
        }
    }

    /// Appends the next piece of the stream, of which fewer than 2^63 bytes are fed in all. After a fault of `next` it keeps
    /// nothing. At `Memory` nothing has changed.
    pub fn feed(&mut self, piece: &[u8]) -> Result<(), Memory>
        requires { self.old.taken + length self.old.rest + length piece.now < 2 ^ 63 }
        ensures ok { OnOk result (self.new ≡ fed self.old piece.now) }
        ensures err { OnErr result (self.new ≡ self.old) }
    {
        match self.stream.feed(piece) {
            Ok(()) => Ok(()),
            Err(_) => Err(Memory),
        }
    }

    /// Takes the frame at the front of the rest. None comes exactly where the rest is unfinished (docs/FORMATS.md, Frames).
    /// `Frame` has the first check that fails; after it each `next` answers the same. At `Memory` nothing has changed.
    pub fn next(&mut self) -> Result<Option<Frame>, NextFault>
        ensures { Stepped frames self.old result self.new }
    {
        if let Some(fault) = self.stream.fault() {
            return Err(NextFault::Frame(fault));
        }
        let front = frame_at(self.alloc, self.stream.rest());
        self.stream.settle(front)
    }

    /// How many bytes the reader can still be fed: 2^63 - 1 but for those of the frames taken and of the rest.
    pub fn left(&self) -> u64
        ensures { result + self.now.taken + length self.now.rest ≡ 2 ^ 63 - 1 }
    {
        self.stream.left()
    }

    /// How many bytes the frames have that were taken.
    pub fn frame_bytes(&self) -> u64
        ensures { result ≡ self.now.taken }
    {
        self.stream.taken()
    }
}

/// Takes replies off a stream that comes in pieces.
#[derive(Debug, Drop)]
pub struct ReplyReader {
    stream: Stream,
}

impl Model for ReplyReader {
    ghost use Rattle.upload_frame.specs.Machine.{ReaderData};

    ghost Value = { ReaderData };

    ghost view = { λ r. r.stream };

    ghost invariant = { λ r. Unit {0} };
}

impl ReplyReader {
    /// A reader at the start of a stream. Takes no memory.
    pub fn new(alloc: Global) -> ReplyReader
        ensures { result ≡ reader_of [] 0 None }
    {
        ReplyReader {
            stream: Stream::new(alloc),
        }
    }

    /// Appends the next piece of the stream, of which fewer than 2^63 bytes are fed in all. After a fault of `next` it keeps
    /// nothing. At `Memory` nothing has changed.
    pub fn feed(&mut self, piece: &[u8]) -> Result<(), Memory>
        requires { self.old.taken + length self.old.rest + length piece.now < 2 ^ 63 }
        ensures ok { OnOk result (self.new ≡ fed self.old piece.now) }
        ensures err { OnErr result (self.new ≡ self.old) }
    {
        match self.stream.feed(piece) {
            Ok(()) => Ok(()),
            Err(_) => Err(Memory),
        }
    }

    /// Takes the reply at the front of the rest. None comes exactly where the rest is unfinished (docs/FORMATS.md, Frames).
    /// `Frame` has the first check that fails; after it each `next` answers the same. It takes no memory.
    pub fn next(&mut self) -> Result<Option<Reply>, NextFault>
        ensures { Stepped replies self.old result self.new }
    {
        if let Some(fault) = self.stream.fault() {
            return Err(NextFault::Frame(fault));
        }
        let front = reply_at(self.stream.rest());
        self.stream.settle(front)
    }

    /// How many bytes the reader can still be fed: 2^63 - 1 but for those of the replies taken and of the rest.
    pub fn left(&self) -> u64
        ensures { result + self.now.taken + length self.now.rest ≡ 2 ^ 63 - 1 }
    {
        self.stream.left()
    }

    /// How many bytes the replies have that were taken.
    pub fn frame_bytes(&self) -> u64
        ensures { result ≡ self.now.taken }
    {
        self.stream.taken()
    }
}

/// The upload of a whole frame of one.
pub fn read_upload(alloc: Global, bytes: &[u8]) -> Result<Upload, Memory>
    requires { (u : UploadData) × IsFull u × (bytes.now ≡ frame_of u) }
    ensures { IfOk result (λ r. (u : UploadData) → IsFull u → bytes.now ≡ frame_of u → r ≡ u) }
{
    match frame_at(alloc, bytes) {
        Ok(Some((Frame::Upload(upload), _))) => Ok(upload),
        Ok(Some((Frame::Hello { .. }, _))) => unreachable!(),
        Ok(Some((Frame::Bye { .. }, _))) => unreachable!(),
        Ok(None) => unreachable!(),
        Err(NextFault::Frame(_)) => unreachable!(),
        Err(NextFault::Memory) => Err(Memory),
    }
}
