//! What a pass does in its turn: an upload, or several one after the other.
ghost use Rattle.std.specs.Prelude.{◌≡◌, ◌<◌, ◌≤◌, ◌+◌, ℕ, true, [], ◌∷◌, length, None, Some, vec_len, vec_capacity};
ghost use Rattle.book_journal.specs.Applying.{Answers};
ghost use Rattle.book_journal.specs.Runs.{JournalState};
ghost use Rattle.lock_rule.specs.declared.view.Doing.TheVariants.{Idle, Has};
ghost use Rattle.lock_rule.specs.Views.{most_calls};
ghost use Rattle.shared_book.specs.Going.{GoesOn};
ghost use Rattle.shared_book.specs.Passes.{Keeps, Serves, ServesEach, Together};
ghost use Rattle.shared_book.specs.Steps.{IsAt, IsSameSeat, after_turn, resting};

use crate::bells::Bells;
use crate::turns::{Place, Top, begin, draw_ticket, pass_on, take, tell};
use book_journal::{Applied, ApplyFault, Journal};
use lg_disk::Disk;
use sketchlet_wire::Upload;
use std::marker::Brand;
use std::sync::Wait;

// Applies an upload in the turn that the pass has.
fn apply_here<D: Disk>(
    top: &Top<D>,
    seat: &mut Place<D>,
    journal: Journal<D>,
    number: u32,
    upload: &Upload,
) -> (Journal<D>, Result<Applied, ApplyFault>)
    requires table { IsAt seat.old top.now.table_id }
    requires live { seat.old.me.0.live ≡ true }
    requires turn { (t : ℕ) × (seat.old.me.0.doing ≡ Has t journal.entries journal.fault) }
    requires number { number ≡ seat.old.me.0.number }
    requires hand { seat.old.me.1 ≡ (0, None) ∷ [] }
    requires goes { GoesOn D.honest D.seen D.images D.moment D.since D.faults top.now.key.value journal }
    ensures same { IsSameSeat seat.old seat.new }
    ensures hand { seat.new.me.1 ≡ (0, None) ∷ [] }
    ensures turn { (t : ℕ) × (seat.new.me.0.doing ≡ Has t result.0.entries result.0.fault) }
    ensures goes { GoesOn D.honest D.seen D.images D.moment D.since D.faults top.now.key.value result.0 }
    ensures answers { Answers seat.old.me.0.number upload.now journal result.0 result.1 }
    ensures rests { resting seat.new.me.0 result.0.entries seat.new.me.0.mark
        ≡ after_turn upload.now seat.old.me.0 result.1 }
{
    let mut journal = journal;
    let answer = journal.apply(number, upload);
    (tell(top, seat, journal, &answer, upload), answer)
}

/// A whole apply of a pass.
pub(crate) fn serve<D: Disk, R: Wait>(
    rt: &R,
    top: &Top<D>,
    bells: &Bells,
    seat: &mut Place<D>,
    number: u32,
    upload: &Upload,
) -> Result<Applied, ApplyFault>
    requires table { IsAt seat.old top.now.table_id }
    requires live { seat.old.me.0.live ≡ true }
    requires idle { seat.old.me.0.doing ≡ Idle }
    requires left { seat.old.me.0.begun < most_calls }
    requires number { number ≡ seat.old.me.0.number }
    requires hand { seat.old.me.1 ≡ [] }
    ensures same { IsSameSeat seat.old seat.new }
    ensures hand { seat.new.me.1 ≡ [] }
    ensures keeps { Keeps seat.old.me.0 seat.new.me.0 }
    ensures serves { Serves top.now.key.value.shape top.now.key.value.room upload.now
        seat.old.me.0 seat.new.me.0 result }
{
    let ticket = draw_ticket(top, seat);
    let Some(journal) = take::<D, Brand, R>(rt, top, bells, seat, ticket, true) else {
        unreachable!()
    };
    let (journal, answer) = apply_here(top, seat, journal, number, upload);
    pass_on(top, bells, seat, journal);
    answer
}

/// The applies of a pass in one turn, until one is refused. The answers go onto the list, which has room for them.
pub(crate) fn serve_each<D: Disk, R: Wait>(
    rt: &R,
    top: &Top<D>,
    bells: &Bells,
    seat: &mut Place<D>,
    number: u32,
    uploads: &[Upload],
    answers: &mut Vec<Result<Applied, ApplyFault>>,
)
    requires table { IsAt seat.old top.now.table_id }
    requires live { seat.old.me.0.live ≡ true }
    requires idle { seat.old.me.0.doing ≡ Idle }
    requires left { seat.old.me.0.begun + length uploads.now ≤ most_calls }
    requires some { 1 ≤ length uploads.now }
    requires number { number ≡ seat.old.me.0.number }
    requires hand { seat.old.me.1 ≡ [] }
    requires none { answers.old.items ≡ [] }
    requires room { length uploads.now ≤ vec_capacity answers.old }
    ensures same { IsSameSeat seat.old seat.new }
    ensures hand { seat.new.me.1 ≡ [] }
    ensures serves { ServesEach top.now.key.value.shape top.now.key.value.room uploads.now
        seat.old.me.0 seat.new.me.0 answers.new.items }
    ensures together { Together seat.old.me.0 seat.new.me.0 }
{
    let ticket = draw_ticket(top, seat);
    let Some(journal) = take::<D, Brand, R>(rt, top, bells, seat, ticket, false) else {
        unreachable!()
    };
    let (journal, answer) = apply_here(top, seat, journal, number, &uploads[0]);
    let mut journal = journal;
    let mut answer = answer;
    let mut at = 1;
    answers.push_reserved(answer);
    'calls: while at < uploads.len() && answer.is_ok() {
        begin(top, seat);
        let (next, told) = apply_here(top, seat, journal, number, &uploads[at]);
        journal = next;
        answer = told;
        at += 1;
        answers.push_reserved(answer);
    }
    pass_on(top, bells, seat, journal);
}
