//! One round: sends as long as the window is open, takes the turn when it is shut, and then what is held comes.
ghost use Rattle.std.specs.Prelude.{◌≡◌, ◌+◌, ◌*◌, ◌<◌, ◌≤◌, OnOk, IfOk, All, length, drop};
ghost use Rattle.link_deliveries.specs.Waiting.{unacknowledged};
ghost use Rattle.link_deliveries.specs.Deliveries.{letter_of, round};
ghost use Rattle.lock_rule.specs.Views.{most_calls};
ghost use Rattle.upload_world.specs.Pumping.{IsSent, IsDue, IsSteady, IsSame, Outcome, SendsNext, RoundEnds};

use crate::deliver::{Due, Sent};
use crate::fault::WorkFault;
use crate::send::{release, send};
use crate::settle::settle;
use lg_base::{Gate, Memory};
use lg_disk::Disk;
use lg_model::Letter;
use shared_book::{Pass, SharedBook};
use std::alloc::Global;
use std::sync::Wait;
use uploader_core::{Uploader, Uploads};

// The letter at a place. Past the last one each upload is delivered.
fn letter_at(letters: &[Letter], at: usize) -> Letter
    ensures { result ≡ letter_of (drop at letters.now) }
{
    match letters.get(at) {
        Some(letter) => *letter,
        None => Letter::Deliver,
    }
}

// The place of the next letter.
fn place_after(letters: &[Letter], at: usize) -> usize
    ensures { drop result letters.now ≡ drop 1 (drop at letters.now) }
{
    if at < letters.len() { at + 1 } else { at }
}

// The frame of an upload, which the gate was handed.
fn hand<U: Uploads, G: Gate>(
    alloc: Global,
    uploader: &Uploader<U>,
    seq: u32,
    gate: &G,
) -> Result<Sent, Memory>
    requires { seq < length uploader.now.uploads }
    ensures { IfOk result (λ s. (s.seq ≡ seq) × IsSent uploader.now.host uploader.now.uploads s) }
{
    let frame = uploader.frame(alloc, seq)?;
    gate.pass(uploader.host(), seq, frame.as_slice());
    Ok(Sent { seq, frame })
}

// Sends the next upload, with this letter: what it brings is due. False where none is to be sent.
fn send_next<U: Uploads, G: Gate>(
    alloc: Global,
    uploader: &mut Uploader<U>,
    due: &mut Due,
    held: &mut Vec<Sent>,
    letter: Letter,
    gate: &G,
) -> Result<bool, Memory>
    requires held { All (IsSent uploader.old.host uploader.old.uploads) held.old.items }
    requires due { IsDue uploader.old.host uploader.old.uploads due.old }
    requires steady { IsSteady uploader.old }
    ensures same { IsSame uploader.old uploader.new }
    ensures steady { IsSteady uploader.new }
    ensures sends { SendsNext uploader.old.host uploader.old.uploads letter
        uploader.old.states uploader.new.states held.old.items held.new.items due.old due.new result }
{
    let Some(seq) = uploader.next() else {
        return Ok(false);
    };
    let sent = hand(alloc, uploader, seq, gate)?;
    send(alloc, due, held, sent, letter)?;
    Ok(true)
}

/// One round, from the letter at that place. What a window brings is applied in one turn, once no more may be sent before
/// it; what is held comes last. It answers the place of the letter that is next.
pub(crate) fn round<D: Disk, U: Uploads, G: Gate, R: Wait>(
    alloc: Global,
    rt: &R,
    book: &SharedBook<D>,
    pass: &mut Pass,
    uploader: &mut Uploader<U>,
    letters: &[Letter],
    from: usize,
    gate: &G,
) -> Result<usize, WorkFault>
    requires book { pass.old.book ≡ book.now.id }
    requires left { pass.old.view.begun + 2 * length (drop from letters.now) + unacknowledged uploader.old.states
        ≤ most_calls }
    requires steady { IsSteady uploader.old }
    ensures book { pass.new.book ≡ pass.old.book }
    ensures same { IsSame uploader.old uploader.new }
    ensures steady { OnOk result (IsSteady uploader.new) }
    ensures left { IfOk result (λ at. pass.new.view.begun + 2 * length (drop at letters.now)
        + unacknowledged uploader.new.states ≤ most_calls) }
    ensures ends { RoundEnds letters.now from uploader.old.states uploader.new.states result }
    ensures outcome { Outcome book.now.first.shape book.now.first.room uploader.old.uploads
        (round uploader.old.states (drop from letters.now))
        pass.old.view pass.new.view uploader.old.states uploader.new.states result }
{
    let mut due = Due::new(alloc);
    let mut held = Vec::new(alloc);
    let mut at = from;
    'sends: loop {
        let letter = letter_at(letters, at);
        if send_next(alloc, uploader, &mut due, &mut held, letter, gate)? {
            at = place_after(letters, at);
        } else if due.is_empty() {
            break;
        } else {
            settle(alloc, rt, book, pass, uploader, &mut due)?;
        }
    }
    release(alloc, &mut due, &held)?;
    settle(alloc, rt, book, pass, uploader, &mut due)?;
    Ok(at)
}
