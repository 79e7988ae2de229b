//! A session over a source and a sink.
ghost use Rattle.std.specs.Prelude.{◌≡◌, ◌+◌, ◌≤◌, ◌<◌, IfErr, OnOk, OnErr, IfOk, ◌⊎◌};
ghost use Rattle.std.specs.Io.KnownBytes.{Appends};
ghost use Rattle.lg_base.specs.Causes.{Rose, AppendsFront};
ghost use Rattle.upload_frame.specs.Replies.{reply_bytes};
ghost use Rattle.lock_rule.specs.Views.{most_calls};
ghost use Rattle.analyser_session.specs.declared.fault.SessionFault.TheVariants.{ReadFault, WriteFault, Memory};
ghost use Rattle.analyser_session.specs.Answered.{is_bye};
ghost use Rattle.analyser_session.specs.Hearing.{EndsAsTold};
ghost use Rattle.analyser_session.specs.Sessions.{Session};

use crate::fault::SessionFault;
use crate::limits::MOST_SESSION_FRAMES;
use crate::next::next_frame;
use crate::served::Served;
use lg_base::{Sink, Source, put_all};
use lg_disk::Disk;
use shared_book::{Pass, SharedBook, answer};
use std::alloc::Global;
use std::sync::Wait;
use upload_frame::{Frame, Reader, Reply, write_reply};

fn is_bye(frame: &Frame) -> bool
    ensures { result ≡ is_bye frame.now }
{
    matches!(frame, Frame::Bye { .. })
}

// Writes a reply.
fn send<K: Sink>(alloc: Global, sink: &mut K, reply: &Reply) -> Result<(), SessionFault>
    ensures ok { OnOk result (Appends (K.written sink.old) (K.written sink.new) (reply_bytes reply.now)) }
    ensures err { OnErr result (AppendsFront (K.written sink.old) (K.written sink.new) (reply_bytes reply.now)) }
    ensures memory { IfErr result (λ e. e ≡ Memory → K.written sink.new ≡ K.written sink.old) }
    ensures fault { IfErr result (λ e.
        (e ≡ Memory) ⊎ ((e ≡ WriteFault) × Rose (K.faults sink.old) (K.faults sink.new))) }
    ensures never_falls { K.faults sink.old ≤ K.faults sink.new }
{
    let Ok(bytes) = write_reply(alloc, reply) else {
        return Err(SessionFault::Memory);
    };
    match put_all(sink, &bytes) {
        Ok(()) => Ok(()),
        Err(_) => Err(SessionFault::WriteFault),
    }
}

// Takes frames off the source, and answers each, up to a bye, a fault or the last frame of a session.
fn answer_frames<D: Disk, R: Wait, S: Source, K: Sink>(
    alloc: Global,
    rt: &R,
    book: &SharedBook<D>,
    pass: &mut Pass,
    source: &mut S,
    sink: &mut K,
) -> Result<Served, SessionFault>
    requires book { pass.old.book ≡ book.now.id }
    requires left { pass.old.view.begun + MOST_SESSION_FRAMES ≤ most_calls }
    ensures book { pass.new.book ≡ pass.old.book }
    ensures session { Session book.now.first.shape book.now.first.room pass.old.view pass.new.view
        (S.left source.old) (S.left source.new) (K.written sink.old) (K.written sink.new) result }
    ensures read_fault { IfErr result (λ e. e ≡ ReadFault → Rose (S.faults source.old) (S.faults source.new)) }
    ensures write_fault { IfErr result (λ e. e ≡ WriteFault → Rose (K.faults sink.old) (K.faults sink.new)) }
    ensures never_falls { (S.faults source.old ≤ S.faults source.new) × (K.faults sink.old ≤ K.faults sink.new) }
{
    let mut reader = Reader::new(alloc);
    let mut taken = 0;
    for nth in 0..MOST_SESSION_FRAMES {
        let frame = next_frame(source, &mut reader, &mut taken)?;
        let Ok(reply) = answer(rt, book, pass, &frame) else {
            return Err(SessionFault::Memory);
        };
        send(alloc, sink, &reply)?;
        if is_bye(&frame) {
            return Ok(Served { frames: nth + 1 });
        }
    }
    Err(SessionFault::TooMany)
}

/// Serves one session: takes frames off the source, answers each over the pass (docs/DEFINITIONS.md, Shared book), and writes
/// its reply before the next one is answered. It reads in pieces of at most 4,096 bytes, and only where no frame is there.
/// The pass has 1,000,000 calls left.
///
/// `Ok` comes only after a bye was answered, and counts the frames with it; what comes after the bye has no meaning. The
/// faults, and what stands after each, are those of [`SessionFault`]: `ReadFault` and `WriteFault` come only where that
/// end's count of faults rose, or stands at its last value. Where neither comes the answer is the one that the input comes
/// to, or `Memory`.
///
/// The replies are tied to the list that the pass has seen at the exit (docs/DEFINITIONS.md, Sessions). Until the pass
/// has the broken mark, an upload is answered as the book decides on a beginning of that list; along the session these
/// beginnings never get shorter, and each holds what was stored before. From the upload on that marks the pass, uploads
/// are refused as closed. Each entry that the session adds, and the one that its mark carries, is what an upload among
/// the frames answered becomes.
pub fn serve_session<D: Disk, R: Wait, S: Source, K: Sink>(
    alloc: Global,
    rt: &R,
    book: &SharedBook<D>,
    pass: &mut Pass,
    source: &mut S,
    sink: &mut K,
) -> Result<Served, SessionFault>
    requires book { pass.old.book ≡ book.now.id }
    requires left { pass.old.view.begun + MOST_SESSION_FRAMES ≤ most_calls }
    ensures book { pass.new.book ≡ pass.old.book }
    ensures session { Session book.now.first.shape book.now.first.room pass.old.view pass.new.view
        (S.left source.old) (S.left source.new) (K.written sink.old) (K.written sink.new) result }
    ensures read_fault { IfErr result (λ e. e ≡ ReadFault → Rose (S.faults source.old) (S.faults source.new)) }
    ensures write_fault { IfErr result (λ e. e ≡ WriteFault → Rose (K.faults sink.old) (K.faults sink.new)) }
    ensures never_falls { (S.faults source.old ≤ S.faults source.new) × (K.faults sink.old ≤ K.faults sink.new) }
    // Where neither source nor sink fails, it ends as its input comes to, unless memory runs out.
    ensures complete { (Rose (S.faults source.old) (S.faults source.new) → ⊥) →
        (Rose (K.faults sink.old) (K.faults sink.new) → ⊥) → EndsAsTold (S.left source.old) result }
{
    answer_frames(alloc, rt, book, pass, source, sink)
}
