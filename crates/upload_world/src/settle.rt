//! The turn: what is due is applied in one turn, and each reply may be handed on.
ghost use Rattle.std.specs.Prelude.{◌≡◌, ◌+◌, ◌≤◌, OnOk, cond, length};
ghost use Rattle.link_deliveries.specs.Deliveries.{acknowledge};
ghost use Rattle.lock_rule.specs.Views.{most_calls};
ghost use Rattle.upload_world.specs.Pumping.{IsDue, IsNothing, IsSteady, IsSame, Outcome, dues, outcome_of, answered};

use crate::deliver::Due;
use crate::fault::WorkFault;
use book_journal::{Applied, ApplyFault};
use lg_disk::Disk;
use shared_book::{Pass, SharedBook, reply_of};
use sketchlet_wire::Upload;
use std::alloc::Global;
use std::sync::Wait;
use uploader_core::{Uploader, Uploads};

// Hands the reply to an application on, where there is one and it is heard.
fn hand_on<U: Uploads>(
    uploader: &mut Uploader<U>,
    upload: &Upload,
    answer: &Result<Applied, ApplyFault>,
    heard: bool,
)
    ensures { uploader.new ≡ record uploader.old {
      states = cond heard (answered uploader.old.host uploader.old.states upload.now answer.now) uploader.old.states;
    } }
{
    if heard && let Some(reply) = reply_of(upload, answer) {
        let _refused = uploader.on_reply(&reply);
    }
}

// What a worker makes of an answer to the upload of that number.
fn outcome(seq: u32, answer: Result<Applied, ApplyFault>) -> Result<(), WorkFault>
    ensures { result ≡ outcome_of seq answer }
{
    match answer {
        Ok(_) => Ok(()),
        Err(ApplyFault::Memory) => Err(WorkFault::Memory),
        Err(fault) => Err(WorkFault::Refused { seq, fault }),
    }
}

/// Applies what is due in one turn, in order, until the book refuses an upload, and hands the replies on, where they are
/// heard. Nothing is due then. Where nothing is, no turn is taken.
pub(crate) fn settle<D: Disk, U: Uploads, R: Wait>(
    alloc: Global,
    rt: &R,
    book: &SharedBook<D>,
    pass: &mut Pass,
    uploader: &mut Uploader<U>,
    due: &mut Due,
) -> Result<(), WorkFault>
    requires book { pass.old.book ≡ book.now.id }
    requires left { pass.old.view.begun + length (dues due.old) ≤ most_calls }
    requires due { IsDue uploader.old.host uploader.old.uploads due.old }
    requires steady { IsSteady uploader.old }
    ensures book { pass.new.book ≡ pass.old.book }
    ensures same { IsSame uploader.old uploader.new }
    ensures steady { OnOk result (IsSteady uploader.new) }
    ensures states { OnOk result (uploader.new.states ≡ acknowledge uploader.old.states (dues due.old)) }
    ensures none { OnOk result (IsNothing due.new) }
    ensures outcome { Outcome book.now.first.shape book.now.first.room uploader.old.uploads (dues due.old)
        pass.old.view pass.new.view uploader.old.states uploader.new.states result }
{
    if due.is_empty() {
        return Ok(());
    }
    let answers = book.apply_each(alloc, rt, pass, &due.uploads)?;
    'answers: for (at, answer) in answers.iter().enumerate() {
        let coming = due.order[at];
        hand_on(uploader, &due.uploads[at], answer, coming.heard);
        outcome(coming.seq, *answer)?;
    }
    due.clear();
    Ok(())
}
