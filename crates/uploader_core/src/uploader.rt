//! The uploads of a host on their way to the analyser.
ghost use Rattle.std.specs.Prelude.{◌≡◌, ◌↔◌, ◌<◌, Some, None, IsTrue, length, replicate, slice_get, vec_len, IfOk, IfSome, MatchOption, MatchResult};
ghost use Rattle.sketchlet_wire.specs.Uploads.{UploadData, IsFull};
ghost use Rattle.upload_frame.specs.Frames.{frame_of};
ghost use Rattle.uploader_core.specs.declared.state.SeqState.TheVariants.{Idle};
ghost use Rattle.uploader_core.specs.States.{state_at, next_of, sent, ticked, is_acknowledged};
ghost use Rattle.uploader_core.specs.Uploader.{UploaderState, AreOwn, IsUploader, NoneAcked, replied, refusal_in, is_done};

use crate::refused::Refused;
use crate::states::States;
use crate::uploads::Uploads;
use lg_base::Memory;
use sketchlet_wire::Upload;
use std::alloc::Global;
use std::marker::Model;
use upload_frame::Reply;

/// The uploads of a host, and how far each is: idle, outstanding, acknowledged or refused. At the start all are idle. At
/// most 8 are outstanding. `U` is how the uploads are kept. Only [`Uploader::new`], [`Uploader::over`] and
/// [`Uploader::frame`] take memory.
#[derive(Debug, Drop)]
pub struct Uploader<U: Uploads = Vec<Upload>> {
    host: u16,
    uploads: U,
    states: States,
}

impl<U: Uploads> Model for Uploader<U> {
    ghost use Rattle.uploader_core.specs.Uploader.{UploaderState, IsUploader};

    ghost Value = { UploaderState };

    ghost view = { λ u. record { host = u.host; uploads = U.listed u.uploads; states = u.states } };

    ghost invariant = { λ u. IsUploader (record { host = u.host; uploads = U.listed u.uploads; states = u.states }) };
}

impl Uploader<Vec<Upload>> {
    /// The uploads of a host, all idle: fewer than 2^32, each of this host and with its position as its number. [`are_own`]
    /// tests that. At `Memory` the uploads are dropped.
    pub fn new(alloc: Global, host: u16, uploads: Vec<Upload>) -> Result<Uploader, Memory>
        requires { AreOwn host uploads.items }
        ensures value { IfOk result (λ u.
            u ≡ record { host = host; uploads = uploads.items; states = replicate (vec_len uploads) Idle }) }
        ensures none { IfOk result NoneAcked }
    {
        Uploader::over(alloc, host, uploads)
    }

    /// The upload of a number, which is below the number of uploads: it is of this host, and has that number.
    pub fn upload(&self, seq: u32) -> &Upload
        requires { seq < length self.now.uploads }
        ensures value { slice_get self.now.uploads seq ≡ Some result.now }
        ensures own { (result.now.host ≡ self.now.host) × (result.now.seq ≡ seq) }
    {
        &self.uploads[seq as usize]
    }
}

impl<U: Uploads> Uploader<U> {
    /// As [`Uploader::new`], of uploads that are kept in some way: fewer than 2^32, each of this host and with its position
    /// as its number. At `Memory` the uploads are dropped.
    pub fn over(alloc: Global, host: u16, uploads: U) -> Result<Uploader<U>, Memory>
        requires { AreOwn host (U.listed uploads) }
        ensures value { IfOk result (λ u. u ≡ record {
          host = host;
          uploads = U.listed uploads;
          states = replicate (length (U.listed uploads)) Idle;
        }) }
        ensures none { IfOk result NoneAcked }
    {
        let states = States::new(alloc, uploads.count())?;
        Ok(Uploader {
            host,
            uploads,
            states,
        })
    }

    /// How many uploads there are, below 2^32. Each has a state.
    pub fn len(&self) -> u32
        ensures len { result ≡ length self.now.uploads }
        ensures uploader { IsUploader self.now }
    {
        self.uploads.count() as u32
    }

    /// The host's name.
    pub fn host(&self) -> u16
        ensures { result ≡ self.now.host }
    {
        self.host
    }

    /// The frame of the upload of a number, which is below the number of uploads (docs/FORMATS.md, Frames). The upload is of
    /// this host, and has that number. `Memory` where there is none for the frame.
    pub fn frame(&self, alloc: Global, seq: u32) -> Result<Vec<u8>, Memory>
        requires { seq < length self.now.uploads }
        ensures frame { IfOk result (λ bytes.
            (u : UploadData) → slice_get self.now.uploads seq ≡ Some u → bytes.items ≡ frame_of u) }
        ensures own { (u : UploadData) → slice_get self.now.uploads seq ≡ Some u →
            (u.host ≡ self.now.host) × (u.seq ≡ seq) × IsFull u }
    {
        self.uploads.frame(alloc, seq as usize)
    }

    /// Makes the least idle upload outstanding. Its number. None exactly where 8 are outstanding or none is idle; nothing
    /// changes then.
    pub fn next(&mut self) -> Option<u32>
        ensures which { result ≡ next_of self.old.states }
        ensures states { MatchOption result
            (self.new ≡ self.old)
            (λ seq. self.new ≡ record self.old { states = sent self.old.states seq }) }
        ensures within { IfSome result (λ seq. seq < length self.old.uploads) }
    {
        match self.states.next() {
            Some(seq) => Some(seq as u32),
            None => None,
        }
    }

    /// Gives up waiting for replies: makes every outstanding upload idle.
    pub fn tick(&mut self)
        ensures { self.new ≡ record self.old { states = ticked self.old.states } }
    {
        self.states.tick();
    }

    /// Takes a reply. An acknowledgement of this host and of an upload that is there makes the upload acknowledged, unless
    /// it was refused. A refusal of this host and of an upload that is there and isn't acknowledged makes it refused, and
    /// is the one case of `Err`. Any other reply changes nothing.
    pub fn on_reply(&mut self, reply: &Reply) -> Result<(), Refused>
        ensures states { self.new ≡ replied self.old reply.now }
        ensures err { MatchResult result
            (λ _. refusal_in self.old reply.now ≡ None)
            (λ r. refusal_in self.old reply.now ≡ Some r) }
    {
        match reply {
            Reply::Acknowledged { host, seq, .. } => {
                if *host == self.host && (*seq as usize) < self.states.len() {
                    self.states.acknowledge(*seq as usize);
                }
                Ok(())
            }
            Reply::Refused { host, seq, why } => {
                if *host == self.host
                    && (*seq as usize) < self.states.len()
                    && self.states.refuse(*seq as usize)
                {
                    return Err(Refused {
                        seq: *seq,
                        why: *why,
                    });
                }
                Ok(())
            }
            Reply::Welcome { .. } | Reply::Goodbye { .. } => Ok(()),
        }
    }

    /// Whether the upload of a number, which is below the number of uploads, is acknowledged.
    pub fn acked(&self, seq: u32) -> bool
        requires { seq < length self.now.uploads }
        ensures { result ≡ is_acknowledged (state_at self.now.states seq) }
    {
        self.states.get(seq as usize).is_acknowledged()
    }

    /// Whether all uploads are acknowledged.
    pub fn done(&self) -> bool
        ensures { result ≡ is_done self.now }
    {
        self.states.all_acknowledged()
    }
}

/// Whether these are the uploads of a host by their numbers, as [`Uploader::new`] needs them. Takes no memory.
pub fn are_own(host: u16, uploads: &[Upload]) -> bool
    ensures { IsTrue result ↔ AreOwn host uploads.now }
{
    if uploads.len() > u32::MAX as usize {
        return false;
    }
    for (seq, upload) in uploads.iter().enumerate() {
        if upload.host() != host || upload.seq() as usize != seq {
            return false;
        }
    }
    true
}
