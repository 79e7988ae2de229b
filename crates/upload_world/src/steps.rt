//! What each event does to the parts of a world.
ghost use Rattle.std.specs.Prelude.{◌≡◌, ◌≤◌, ℕ, map, List, Ok, Err, Some, vec_len, vec_capacity, IfOk, OnErr, OnOk, MatchResult};
ghost use Rattle.lg_model.specs.declared.limits.TheConstants.{MOST_UPLOAD_COLUMNS};
ghost use Rattle.sketchlet_wire.specs.Uploads.{UploadData};
ghost use Rattle.upload_frame.specs.declared.reply.Reply.{Reply as ReplyData};
ghost use Rattle.uploader_core.specs.Uploader.{UploaderState, replied};
ghost use Rattle.column_book.specs.Entries.{BookState, records};
ghost use Rattle.column_book.specs.Applying.{decide, after};
ghost use Rattle.book_journal.specs.declared.applied.ApplyFault.TheVariants.{Memory as NoMemory};
ghost use Rattle.shared_book.specs.Replying.{reply_to, reply_for};
ghost use Rattle.upload_world.specs.declared.event.Event.TheVariants.{Send, Tick, Deliver, Back, CrashIn};
ghost use Rattle.upload_world.specs.World.{Steps};
ghost use Rattle.upload_world.specs.Kept.{world_of};

use book_journal::{Applied, ApplyFault};
use column_book::Book;
use lg_base::Memory;
use lg_model::limits::MOST_UPLOAD_COLUMNS;
use shared_book::reply_of;
use sketchlet_wire::{Column, Upload};
use std::alloc::Global;
use upload_frame::Reply;
use uploader_core::Uploader;

// A copy of an upload, whose columns go into a list that has room for them.
fn copy_into(mut columns: Vec<Column>, upload: &Upload) -> Upload
    requires none { vec_len columns ≡ 0 }
    requires room { MOST_UPLOAD_COLUMNS ≤ vec_capacity columns }
    ensures { result ≡ upload.now }
{
    let from = upload.columns();
    for column in from {
        columns.push_reserved(*column);
    }
    match Upload::new(upload.host(), upload.seq(), columns) {
        Ok(copy) => copy,
        Err(_) => unreachable!(),
    }
}

// Lets the uploader at a position send its next upload. All memory is taken before.
pub(crate) fn send(
    alloc: Global,
    uploaders: &mut Vec<Uploader>,
    frames: &mut Vec<Upload>,
    at: usize,
) -> Result<bool, Memory>
    ensures { (replies : List ReplyData) (book : BookState) → Steps
        (world_of uploaders.old.items frames.old.items replies book) (Send at)
        result (world_of uploaders.new.items frames.new.items replies book) }
{
    if at >= uploaders.len() {
        return Ok(false);
    }
    let columns = Vec::with_capacity(alloc, MOST_UPLOAD_COLUMNS)?;
    frames.reserve(1)?;
    match uploaders[at].next() {
        None => Ok(false),
        Some(seq) => {
            let frame = copy_into(columns, uploaders[at].upload(seq));
            frames.push_reserved(frame);
            Ok(true)
        }
    }
}

// Lets the uploader at a position give up waiting.
pub(crate) fn tick(uploaders: &mut Vec<Uploader>, at: usize) -> bool
    ensures { (frames : List UploadData) (replies : List ReplyData) (book : BookState) → Steps {E = ℕ}
        (world_of uploaders.old.items frames replies book) (Tick at)
        (Ok result) (world_of uploaders.new.items frames replies book) }
{
    if at >= uploaders.len() {
        return false;
    }
    uploaders[at].tick();
    true
}

// The reply to an upload, from what came of it.
fn reply(upload: &Upload, applied: Result<Applied, ApplyFault>) -> Result<Reply, Memory>
    ensures { MatchResult result
        (λ r. reply_for upload.now applied ≡ Some r)
        (λ _. applied ≡ Err NoMemory) }
{
    match reply_of(upload, &applied) {
        Some(reply) => Ok(reply),
        None => Err(Memory),
    }
}

// Applies an upload to the book, with the pass 0. The reply. At `Memory` the entries are as before.
fn apply(book: &mut Book, upload: &Upload) -> Result<Reply, Memory>
    ensures kept { (book.new.shape ≡ book.old.shape) × (book.new.room ≡ book.old.room) }
    ensures reply { IfOk result (λ r.
        r ≡ reply_to upload.now (decide book.old.shape book.old.room (records book.old.entries) upload.now)) }
    ensures entries { OnOk result
        (book.new.entries ≡ after book.old.shape book.old.room book.old.entries 0 upload.now) }
    ensures err { OnErr result (book.new.entries ≡ book.old.entries) }
{
    match book.check(upload) {
        Err(fault) => reply(upload, Err(ApplyFault::from(fault))),
        Ok(0) => reply(upload, Ok(Applied::Known)),
        Ok(_) => {
            book.reserve(upload)?;
            let at = book.add(0, upload);
            reply(upload, Ok(Applied::Stored(at)))
        }
    }
}

// A frame comes to the book, and the reply goes out.
pub(crate) fn deliver(
    book: &mut Book,
    frames: &[Upload],
    replies: &mut Vec<Reply>,
    frame: usize,
) -> Result<bool, Memory>
    ensures { (uploaders : List UploaderState) → Steps
        (world_of uploaders frames.now replies.old.items book.old) (Deliver frame)
        result (world_of uploaders frames.now replies.new.items book.new) }
{
    let Some(upload) = frames.get(frame) else {
        return Ok(false);
    };
    replies.reserve(1)?;
    let reply = apply(book, upload)?;
    replies.push_reserved(reply);
    Ok(true)
}

// A frame comes, and the analyser crashes before it replies.
pub(crate) fn crash_in(
    book: &mut Book,
    frames: &[Upload],
    frame: usize,
    kept: bool,
) -> Result<bool, Memory>
    ensures { (uploaders : List UploaderState) (replies : List ReplyData) → Steps
        (world_of uploaders frames.now replies book.old) (CrashIn frame kept)
        result (world_of uploaders frames.now replies book.new) }
{
    let Some(upload) = frames.get(frame) else {
        return Ok(false);
    };
    if kept {
        apply(book, upload)?;
    }
    Ok(true)
}

// A reply comes back. Each uploader is shown it, and the one of its host heeds it.
pub(crate) fn hand_back(uploaders: &mut Vec<Uploader>, replies: &[Reply], reply: usize) -> bool
    ensures { (frames : List UploadData) (book : BookState) → Steps {E = ℕ}
        (world_of uploaders.old.items frames replies.now book) (Back reply)
        (Ok result) (world_of uploaders.new.items frames replies.now book) }
{
    let Some(reply) = replies.get(reply) else {
        return false;
    };
    show(uploaders, reply);
    true
}

fn show(uploaders: &mut [Uploader], reply: &Reply)
    ensures { uploaders.new ≡ map (λ u. replied u reply.now) uploaders.old }
{
    for uploader in uploaders.iter_mut() {
        let _ = uploader.on_reply(reply);
    }
}
