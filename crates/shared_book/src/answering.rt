//! Frames answered over a pass.
ghost use Rattle.std.specs.Prelude.{◌≡◌, ◌<◌};
ghost use Rattle.lock_rule.specs.Views.{most_calls};
ghost use Rattle.shared_book.specs.Answering.{IsAnswer};
ghost use Rattle.shared_book.specs.Passes.{Keeps};

use crate::book::SharedBook;
use crate::pass::Pass;
use crate::reply::reply_of;
use lg_base::Memory;
use lg_disk::Disk;
use std::sync::Wait;
use upload_frame::{Frame, RefusedWhy, Reply};

/// Answers a frame (docs/DEFINITIONS.md, Replies). An upload is applied with the pass, and the answer is the reply to what
/// came of it. A hello of the book's shape is welcomed, one of another shape is refused with seq 0, and a bye is
/// answered by a goodbye. Where an upload finds no memory, there is no reply: it is neither taken nor refused.
pub fn answer<D: Disk, R: Wait>(
    rt: &R,
    book: &SharedBook<D>,
    pass: &mut Pass,
    frame: &Frame,
) -> Result<Reply, Memory>
    requires book { pass.old.book ≡ book.now.id }
    requires left { pass.old.view.begun < most_calls }
    ensures book { pass.new.book ≡ pass.old.book }
    ensures keeps { Keeps pass.old.view pass.new.view }
    ensures answers { IsAnswer book.now.first.shape book.now.first.room frame.now pass.old.view pass.new.view result }
{
    match frame {
        Frame::Hello { host, shape } => {
            if *shape == book.shape() {
                Ok(Reply::Welcome { host: *host })
            } else {
                Ok(Reply::Refused {
                    host: *host,
                    seq: 0,
                    why: RefusedWhy::Shape,
                })
            }
        }
        Frame::Upload(upload) => {
            let applied = book.apply(rt, pass, upload);
            reply_of(upload, &applied).ok_or(Memory)
        }
        Frame::Bye { host } => Ok(Reply::Goodbye { host: *host }),
    }
}
