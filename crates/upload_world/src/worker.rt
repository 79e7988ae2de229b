//! All rounds of a worker.
ghost use Rattle.std.specs.Prelude.{◌≡◌, ◌+◌, ◌*◌, ◌≤◌, OnOk, length, true};
ghost use Rattle.link_deliveries.specs.Waiting.{refusals, unacknowledged, all_acknowledged};
ghost use Rattle.link_deliveries.specs.Deliveries.{brought_in_all, deliveries};
ghost use Rattle.lock_rule.specs.Views.{most_calls};
ghost use Rattle.upload_world.specs.Pumping.{IsSteady, IsSame, Outcome};
ghost use Rattle.upload_world.specs.Pumps.{Pumps};

use crate::fault::WorkFault;
use crate::round::round;
use lg_base::Gate;
use lg_disk::Disk;
use lg_model::Letter;
use shared_book::{Pass, SharedBook};
use std::alloc::Global;
use std::sync::Wait;
use uploader_core::{Uploader, Uploads};

// Rounds until all uploads are acknowledged.
fn all_rounds<D: Disk, U: Uploads, G: Gate, R: Wait>(
    alloc: Global,
    rt: &R,
    book: &SharedBook<D>,
    pass: &mut Pass,
    uploader: &mut Uploader<U>,
    letters: &[Letter],
    gate: &G,
) -> Result<(), WorkFault>
    requires book { pass.old.book ≡ book.now.id }
    requires left { pass.old.view.begun + 2 * length letters.now + unacknowledged uploader.old.states ≤ most_calls }
    requires steady { IsSteady uploader.old }
    ensures book { pass.new.book ≡ pass.old.book }
    ensures same { IsSame uploader.old uploader.new }
    ensures done { OnOk result (all_acknowledged uploader.new.states ≡ true) }
    ensures outcome { Outcome book.now.first.shape book.now.first.room uploader.old.uploads
        (brought_in_all uploader.old.states letters.now)
        pass.old.view pass.new.view uploader.old.states uploader.new.states result }
{
    let mut at = 0;
    'rounds: while !uploader.done() {
        at = round(alloc, rt, book, pass, uploader, letters, at, gate)?;
        uploader.tick();
    }
    Ok(())
}

/// Sends an uploader's uploads over a link that does what the letters say, and applies what comes to the book with the
/// pass, in rounds, until all are acknowledged (docs/DEFINITIONS.md, Deliveries; docs/FORMATS.md, Letters of a link). The
/// deliveries are those of [`link_deliveries`], in that order, one call each.
///
/// Each send takes its upload's frame from the uploads, however they are kept, and hands the bytes to the gate once, before
/// anything comes of it; each delivery reads the upload back from these bytes, and then waits for the turn. What a window
/// brings is applied in one turn, once no more may be sent before it. The calls that are left have to be at least twice the
/// number of uploads and letters, and no upload may be refused.
///
/// `Refused` comes exactly at the first delivery that the book refuses for another cause than memory: the earlier ones
/// stand in the list that the pass has seen, and no more is sent. `Memory` comes where there was none for a frame, an
/// upload, a turn's answers or the book; the deliveries that were applied before that stand. At every end an acknowledged
/// upload has all its columns in that list. It may wait forever where the call of another pass does not return.
pub fn pump<D: Disk + Send, U: Uploads, G: Gate, R: Wait>(
    alloc: Global,
    rt: &R,
    book: &SharedBook<D>,
    pass: &mut Pass,
    uploader: &mut Uploader<U>,
    letters: &[Letter],
    gate: &G,
) -> Result<(), WorkFault>
    requires book { pass.old.book ≡ book.now.id }
    requires left { pass.old.view.begun + 2 * (length uploader.old.uploads + length letters.now) ≤ most_calls }
    requires none_refused { refusals uploader.old.states ≡ 0 }
    ensures book { pass.new.book ≡ pass.old.book }
    ensures uploads { IsSame uploader.old uploader.new }
    ensures pumps { Pumps book.now.first.shape book.now.first.room uploader.old.uploads
        (deliveries uploader.old.states letters.now) letters.now
        pass.old.view pass.new.view uploader.old.states uploader.new.states result }
{
    let _count = uploader.len();
    all_rounds(alloc, rt, book, pass, uploader, letters, gate)
}
