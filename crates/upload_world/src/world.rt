//! The world itself.
ghost use Rattle.std.specs.Prelude.{◌≡◌, ℕ, ◌<◌, ◌-◌, ◌^◌, ◌++◌, true, length, slice_get, Some, IfOk, Ok, [], List};
ghost use Rattle.std.specs.List.{AllByRecursion};
ghost use Rattle.sketchlet_wire.specs.Uploads.{UploadData};
ghost use Rattle.uploader_core.specs.Uploader.{IsUploader, NoneAcked};
ghost use Rattle.column_book.specs.declared.entry.Entry.{Entry};
ghost use Rattle.column_book.specs.Entries.{content};
ghost use Rattle.upload_world.specs.declared.event.Event.TheVariants.{Send, Tick, Deliver, Back, CrashIn};
ghost use Rattle.upload_world.specs.World.{Steps};
ghost use Rattle.upload_world.specs.Law.{AreKept, HostsDiffer, KeysDiffer, is_acked, upload_in};
ghost use Rattle.upload_world.specs.Kept.{world_of};

use crate::event::Event;
use crate::steps::{crash_in, deliver, hand_back, send, tick};
use column_book::Book;
use lg_base::Memory;
use sketchlet_wire::Upload;
use std::alloc::Global;
use std::marker::Model;
use upload_frame::Reply;
use uploader_core::Uploader;

/// Uploaders, every frame and every reply that was ever sent, and the book. Any frame or reply may come again, late or
/// never. Contracts see these parts; of the book they see its shape, its room and its entries.
#[derive(Drop)]
pub struct World {
    alloc: Global,
    uploaders: Vec<Uploader>,
    frames: Vec<Upload>,
    replies: Vec<Reply>,
    book: Book,
}

impl Model for World {
    ghost use Rattle.upload_world.specs.World.{WorldState};
    ghost use Rattle.upload_world.specs.Kept.{world_of, IsWorld};

    ghost Value = { WorldState };

    ghost view = { λ w. world_of w.uploaders.items w.frames.items w.replies.items w.book };

    ghost invariant = { λ w. IsWorld (world_of w.uploaders.items w.frames.items w.replies.items w.book) };
}

impl World {
    /// The world of these uploaders, whose hosts differ and of which none has an upload acknowledged, and this book.
    /// Nothing was sent.
    pub fn new(alloc: Global, uploaders: Vec<Uploader>, book: Book) -> Result<World, Memory>
        requires hosts { HostsDiffer uploaders.items }
        requires none { AllByRecursion NoneAcked uploaders.items }
        ensures { IfOk result (λ w. w ≡ world_of uploaders.items [] [] book) }
    {
        uploaders_are_whole(&uploaders);
        book.count();
        Ok(World {
            alloc,
            uploaders,
            frames: Vec::new(alloc),
            replies: Vec::new(alloc),
            book,
        })
    }

    /// How many frames were ever sent.
    pub fn frames(&self) -> u32
        ensures { result ≡ length self.now.frames }
    {
        self.frames.len() as u32
    }

    /// How many replies were ever sent.
    pub fn replies(&self) -> u32
        ensures { result ≡ length self.now.replies }
    {
        self.replies.len() as u32
    }

    /// The reply of a number, of all replies ever sent, from 0. None exactly where it isn't there.
    pub fn reply(&self, reply: u32) -> Option<Reply>
        ensures { result ≡ slice_get self.now.replies reply }
    {
        self.replies.get(reply as usize).copied()
    }

    /// Lets an event happen. The answer is false, and nothing changes, exactly where the event names an uploader, a
    /// frame or a reply that isn't there, or lets an uploader send that has nothing to send. At `Memory` all is as
    /// before. Frames and replies are fewer than 2^32 - 1 before it (docs/DEFINITIONS.md, World).
    pub fn step(&mut self, event: &Event) -> Result<bool, Memory>
        requires frames { length self.old.frames < 2 ^ 32 - 1 }
        requires replies { length self.old.replies < 2 ^ 32 - 1 }
        ensures step { Steps self.old event.now result self.new }
        ensures grows { (more : List Entry) × (self.new.entries ≡ self.old.entries ++ more) }
        ensures stays { (at seq : ℕ) → is_acked self.old at seq ≡ true → is_acked self.new at seq ≡ true }
    {
        match event {
            Event::Send { at } => self.send(*at),
            Event::Tick { at } => Ok(self.tick(*at)),
            Event::Deliver { frame } => self.deliver(*frame),
            Event::Back { reply } => Ok(self.back(*reply)),
            Event::Crash => Ok(true),
            Event::CrashIn { frame, kept } => self.crash_in(*frame, *kept),
        }
    }

    fn send(&mut self, at: u16) -> Result<bool, Memory>
        requires { length self.old.frames < 2 ^ 32 - 1 }
        ensures { Steps self.old (Send at) result self.new }
    {
        send(
            self.alloc,
            &mut self.uploaders,
            &mut self.frames,
            at as usize,
        )
    }

    fn tick(&mut self, at: u16) -> bool
        ensures { Steps {E = ℕ} self.old (Tick at) (Ok result) self.new }
    {
        tick(&mut self.uploaders, at as usize)
    }

    fn deliver(&mut self, frame: u32) -> Result<bool, Memory>
        requires { length self.old.replies < 2 ^ 32 - 1 }
        ensures { Steps self.old (Deliver frame) result self.new }
    {
        deliver(
            &mut self.book,
            &self.frames,
            &mut self.replies,
            frame as usize,
        )
    }

    fn back(&mut self, reply: u32) -> bool
        ensures { Steps {E = ℕ} self.old (Back reply) (Ok result) self.new }
    {
        hand_back(&mut self.uploaders, &self.replies, reply as usize)
    }

    fn crash_in(&mut self, frame: u32, kept: bool) -> Result<bool, Memory>
        ensures { Steps self.old (CrashIn frame kept) result self.new }
    {
        crash_in(&mut self.book, &self.frames, frame as usize, kept)
    }

    /// Whether an upload is acknowledged: by the position of its uploader and its number, false where it isn't there.
    /// If it is, the book has all its columns, with equal buckets.
    pub fn acked(&self, at: u16, seq: u32) -> bool
        ensures value { result ≡ is_acked self.now at seq }
        ensures kept { result ≡ true → (u : UploadData) → upload_in self.now at seq ≡ Some u →
            AreKept (content self.now.entries) u.columns }
    {
        match self.uploaders.get(at as usize) {
            Some(uploader) => seq < uploader.len() && uploader.acked(seq),
            None => false,
        }
    }

    /// The book. No key stands in it twice.
    pub fn book(&self) -> &Book
        ensures shape { result.now.shape ≡ self.now.shape }
        ensures room { result.now.room ≡ self.now.room }
        ensures entries { result.now.entries ≡ self.now.entries }
        ensures once { KeysDiffer self.now.entries }
    {
        &self.book
    }
}

// Each uploader is one. Nothing is done here; the clause is what counts.
fn uploaders_are_whole(uploaders: &[Uploader])
    ensures { AllByRecursion IsUploader uploaders.now }
{
    for uploader in uploaders {
        uploader.len();
    }
}
