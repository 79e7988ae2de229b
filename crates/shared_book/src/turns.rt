//! The steps at the lock, each over a seat (docs/DEFINITIONS.md, The lock's words and steps). The words of the table are
//! the tickets drawn, the ticket that is serving, the number of records, and 1 where the journal is broken. Its one slot
//! has the journal, or nothing while that is out.
ghost use Rattle.std.specs.Prelude.{◌≡◌, ◌≢◌, ◌⊎◌, ◌<◌, ◌≤◌, ◌^◌, ◌+◌, ◌++◌, true, [], ◌∷◌, length, None, Option, Some, List, ℕ};
ghost use Rattle.column_book.specs.declared.entry.Entry.{Entry};
ghost use Rattle.book_journal.specs.Applying.{Answers};
ghost use Rattle.book_journal.specs.Runs.{JournalState};
ghost use Rattle.lock_rule.specs.declared.view.Doing.TheVariants.{Idle, Drew, Has};
ghost use Rattle.lock_rule.specs.Plays.{drew, looked, began, committed, broke, passed, gained, mark_after};
ghost use Rattle.lock_rule.specs.Views.{most_calls, with_joined, parted, given, spent};
ghost use Rattle.shared_book.specs.Going.{GoesOn, GoesFrom};
ghost use Rattle.shared_book.specs.Passes.{Joins};
ghost use Rattle.shared_book.specs.Steps.{IsAt, IsSameSeat, StoredFew, Taken, after_turn, found_by, resting};

use crate::bells::Bells;
use atomic_table::{Join, Play, Seat, Shared, Split, TableRule};
use book_journal::{Applied, ApplyFault, Journal};
use lg_disk::Disk;
use lock_rule::View;
use sketchlet_wire::Upload;
use std::marker::{Brand, PhantomData};
use std::snapshot::Snapshot;
use std::sync::Wait;
use std::thread;

// A pass whose turn is near and has not come after that many looks goes to sleep.
const LOOKS: u32 = 8;

/// The rule of the table.
pub struct Turns;

impl<D: Disk> TableRule<Option<Journal<D>>, View, Snapshot<Journal<D>>> for Turns {
    ghost use Rattle.lock_rule.specs.declared.view.Doing.TheVariants.{Drew};
    ghost use Rattle.lock_rule.specs.Rules.{Locked};
    ghost use Rattle.lock_rule.specs.Views.{new_pass};
    ghost use Rattle.shared_book.specs.Going.{GoesOn};

    ghost holds = { λ key. Locked (λ j. j.entries) (λ j. j.fault)
        (GoesOn D.honest D.seen D.images D.moment D.since D.faults key.value) key.value.entries };

    ghost first = { λ key. new_pass 1 (Drew 0) key.value.entries 1 };
}

pub(crate) type Top<D> = Shared<Option<Journal<D>>, View, Snapshot<Journal<D>>, Turns>;

pub(crate) type Place<D> = Seat<Option<Journal<D>>, View>;

/// The journal that was shared. The proof of a call picks it.
pub trait Origin<J> {
    ghost use Rattle.std.specs.Prelude.{Option};

    ghost start: { Option J };
}

impl<J> Origin<J> for Brand {
    ghost use Rattle.std.specs.Prelude.{None};

    ghost start = { None };
}

struct Draw;

impl<D: Disk> Play<Option<Journal<D>>, View> for Draw {
    ghost then = { drew (λ j. j.entries) (λ j. j.fault) (λ _. Unit {0}) };
}

struct Look<O> {
    origin: PhantomData<O>,
}

impl<D: Disk, O: Origin<Journal<D>>> Play<Option<Journal<D>>, View> for Look<O> {
    ghost then = { looked (λ j. j.entries) (λ j. j.fault)
        (GoesFrom D.honest D.seen D.images D.moment D.since D.faults O.start) };
}

struct Again;

impl<D: Disk> Play<Option<Journal<D>>, View> for Again {
    ghost then = { began (λ j. j.entries) (λ j. j.fault) (λ _. Unit {0}) };
}

struct Commit;

impl<D: Disk> Play<Option<Journal<D>>, View> for Commit {
    ghost then = { committed (λ j. j.entries) (λ j. j.fault) (λ _. Unit {0}) };
}

struct Break;

impl<D: Disk> Play<Option<Journal<D>>, View> for Break {
    ghost then = { broke (λ j. j.entries) (λ j. j.fault) (λ _. Unit {0}) };
}

struct PassOn;

impl<D: Disk> Play<Option<Journal<D>>, View> for PassOn {
    ghost then = { passed (λ j. j.entries) (λ j. j.fault) (λ _. Unit {0}) };
}

struct Gain;

impl<D: Disk> Play<Option<Journal<D>>, View> for Gain {
    ghost then = { gained (λ j. j.entries) (λ j. j.fault) (λ _. Unit {0}) };
}

pub(crate) struct Part;

impl Split<View> for Part {
    ghost left = { parted };

    ghost right = { given };
}

struct Enlist;

impl Join<View> for Enlist {
    ghost both = { with_joined };

    ghost spent = { spent };
}

/// Draws a ticket.
pub(crate) fn draw_ticket<D: Disk>(top: &Top<D>, seat: &mut Place<D>) -> u64
    requires table { IsAt seat.old top.now.table_id }
    requires live { seat.old.me.0.live ≡ true }
    requires idle { seat.old.me.0.doing ≡ Idle }
    requires left { seat.old.me.0.begun < most_calls }
    ensures same { IsSameSeat seat.old seat.new }
    ensures later { 0 < result }
    ensures drew { seat.new.me ≡ (record seat.old.me.0 { doing = Drew result; begun = seat.old.me.0.begun + 1 }, seat.old.me.1) }
{
    top.fetch_add::<Draw>(seat, 0, 1)
}

// Lets other threads run before the next look, where a turn that is soon over is waited for and the own one is near; else,
// and after some looks, it sleeps until the bell of the ticket rings.
fn wait<D: Disk, R: Wait>(
    rt: &R,
    top: &Top<D>,
    bells: &Bells,
    ticket: u64,
    serving: u64,
    looks: u32,
    soon: bool,
)
    requires words { top.now.table_id.words ≡ 4 }
{
    if soon && looks < LOOKS && Bells::is_near(ticket, serving) {
        thread::yield_now();
        return;
    }
    let mark = bells.lie_down(ticket, soon);
    if top.peek(1) == serving {
        bells.sleep(rt, ticket, mark);
    }
}

/// Looks until the ticket is serving, and takes the journal out of the slot. Turns are thought to be over soon, or not.
pub(crate) fn take<D: Disk, O: Origin<Journal<D>>, R: Wait>(
    rt: &R,
    top: &Top<D>,
    bells: &Bells,
    seat: &mut Place<D>,
    ticket: u64,
    soon: bool,
) -> Option<Journal<D>>
    requires table { IsAt seat.old top.now.table_id }
    requires live { seat.old.me.0.live ≡ true }
    requires drew { seat.old.me.0.doing ≡ Drew ticket }
    requires hand { seat.old.me.1 ≡ [] }
    requires origin { O.start ≡ Some top.now.key.value }
    ensures same { IsSameSeat seat.old seat.new }
    ensures taken { Taken (GoesOn D.honest D.seen D.images D.moment D.since D.faults top.now.key.value)
        ticket seat.old.me seat.new.me result }
{
    let mut looks = 0u32;
    for _ in rt.forever() {
        let serving = top.load::<Look<O>>(seat, 1);
        if serving == ticket {
            return top.exchange(seat, 0, None);
        }
        wait(rt, top, bells, ticket, serving, looks, soon);
        looks = looks.saturating_add(1);
    }
    unreachable!()
}

/// The first look of all, which finds its turn and no journal.
pub(crate) fn take_first<D: Disk, O: Origin<Journal<D>>>(top: &Top<D>, seat: &mut Place<D>)
    requires table { IsAt seat.old top.now.table_id }
    requires live { seat.old.me.0.live ≡ true }
    requires drew { seat.old.me.0.doing ≡ Drew 0 }
    requires hand { seat.old.me.1 ≡ [] }
    requires origin { O.start ≡ Some top.now.key.value }
    ensures same { IsSameSeat seat.old seat.new }
    ensures took { seat.new.me ≡ (record seat.old.me.0 { doing = Has 0 seat.old.me.0.seen None }, (0, None) ∷ []) }
{
    top.load::<Look<O>>(seat, 1);
}

// Moves the journal into the slot that the seat holds.
fn give_back<D: Disk>(top: &Top<D>, seat: &mut Place<D>, journal: Journal<D>)
    requires table { IsAt seat.old top.now.table_id }
    requires hand { seat.old.me.1 ≡ (0, None) ∷ [] }
    ensures same { IsSameSeat seat.old seat.new }
    ensures held { seat.new.me ≡ (seat.old.me.0, (0, Some journal) ∷ []) }
{
    match top.exchange(seat, 0, Some(journal)) {
        None => {}
        Some(_) => unreachable!(),
    }
}

// Takes the journal out of the slot that the seat holds.
fn take_out<D: Disk>(top: &Top<D>, seat: &mut Place<D>) -> Journal<D>
    requires table { IsAt seat.old top.now.table_id }
    requires held { (j : JournalState D) × (seat.old.me.1 ≡ (0, Some j) ∷ []) }
    ensures same { IsSameSeat seat.old seat.new }
    ensures out { seat.old.me.1 ≡ (0, Some result) ∷ [] }
    ensures hand { seat.new.me ≡ (seat.old.me.0, (0, None) ∷ []) }
{
    match top.exchange(seat, 0, None) {
        Some(journal) => journal,
        None => unreachable!(),
    }
}

// Commits the entry that was stored.
fn commit_entry<D: Disk>(top: &Top<D>, seat: &mut Place<D>, journal: Journal<D>) -> Journal<D>
    requires table { IsAt seat.old top.now.table_id }
    requires live { seat.old.me.0.live ≡ true }
    requires stored { (t : ℕ) × (l : List Entry) × (e : Entry) × (seat.old.me.0.doing ≡ Has t l None)
        × (journal.entries ≡ l ++ e ∷ []) × (e.pass ≡ seat.old.me.0.number) × (length l < 2 ^ 32) }
    requires hand { seat.old.me.1 ≡ (0, None) ∷ [] }
    ensures same { IsSameSeat seat.old seat.new }
    ensures back { result ≡ journal }
    ensures hand { seat.new.me.1 ≡ (0, None) ∷ [] }
    ensures turn { (t : ℕ) × (seat.new.me.0.doing ≡ Has t journal.entries None) }
    ensures rests { resting seat.new.me.0 journal.entries seat.new.me.0.mark
        ≡ resting seat.old.me.0 journal.entries seat.old.me.0.mark }
{
    give_back(top, seat, journal);
    top.fetch_add::<Commit>(seat, 2, 1);
    take_out(top, seat)
}

// Marks the pass, which broke the journal or found it broken.
fn mark_pass<D: Disk>(top: &Top<D>, seat: &mut Place<D>, journal: Journal<D>) -> Journal<D>
    requires table { IsAt seat.old top.now.table_id }
    requires live { seat.old.me.0.live ≡ true }
    requires broken { (t : ℕ) × (f : Option Entry) × (e : Entry) × (seat.old.me.0.doing ≡ Has t journal.entries f)
        × (journal.fault ≡ Some e) × ((f ≡ None) ⊎ (f ≡ Some e)) }
    requires hand { seat.old.me.1 ≡ (0, None) ∷ [] }
    ensures same { IsSameSeat seat.old seat.new }
    ensures back { result ≡ journal }
    ensures hand { seat.new.me.1 ≡ (0, None) ∷ [] }
    ensures turn { (t : ℕ) × (seat.new.me.0.doing ≡ Has t journal.entries journal.fault) }
    ensures rests { resting seat.new.me.0 journal.entries seat.new.me.0.mark
        ≡ resting seat.old.me.0 journal.entries
        (mark_after (found_by seat.old.me.0.doing) journal.fault seat.old.me.0.mark) }
{
    give_back(top, seat, journal);
    top.swap::<Break>(seat, 3, 1);
    take_out(top, seat)
}

/// Tells the lock what came of an upload that was applied in the turn: a stored entry is committed, and a pass whose
/// journal is broken is marked.
pub(crate) fn tell<D: Disk>(
    top: &Top<D>,
    seat: &mut Place<D>,
    journal: Journal<D>,
    answer: &Result<Applied, ApplyFault>,
    upload: &Upload,
) -> Journal<D>
    requires table { IsAt seat.old top.now.table_id }
    requires live { seat.old.me.0.live ≡ true }
    requires turn { (t : ℕ) × (old : JournalState D) × (seat.old.me.0.doing ≡ Has t old.entries old.fault)
        × Answers seat.old.me.0.number upload.now old journal answer.now }
    requires few { StoredFew answer.now }
    requires hand { seat.old.me.1 ≡ (0, None) ∷ [] }
    ensures same { IsSameSeat seat.old seat.new }
    ensures back { result ≡ journal }
    ensures hand { seat.new.me.1 ≡ (0, None) ∷ [] }
    ensures turn { (t : ℕ) × (seat.new.me.0.doing ≡ Has t journal.entries journal.fault) }
    ensures rests { resting seat.new.me.0 journal.entries seat.new.me.0.mark
        ≡ after_turn upload.now seat.old.me.0 answer.now }
{
    match answer {
        Ok(Applied::Stored(_)) => commit_entry(top, seat, journal),
        Ok(Applied::Known) => journal,
        Err(fault) => match fault {
            ApplyFault::DiskFault => mark_pass(top, seat, journal),
            ApplyFault::Broken { .. } => mark_pass(top, seat, journal),
            _ => journal,
        },
    }
}

/// Begins one more call in the turn.
pub(crate) fn begin<D: Disk>(top: &Top<D>, seat: &mut Place<D>)
    requires table { IsAt seat.old top.now.table_id }
    requires live { seat.old.me.0.live ≡ true }
    requires left { seat.old.me.0.begun < most_calls }
    ensures same { IsSameSeat seat.old seat.new }
    ensures began { seat.new.me ≡ (record seat.old.me.0 { begun = seat.old.me.0.begun + 1 }, seat.old.me.1) }
{
    top.load::<Again>(seat, 1);
}

/// Gives the journal back and passes the turn on.
pub(crate) fn pass_on<D: Disk>(
    top: &Top<D>,
    bells: &Bells,
    seat: &mut Place<D>,
    journal: Journal<D>,
)
    requires table { IsAt seat.old top.now.table_id }
    requires live { seat.old.me.0.live ≡ true }
    requires turn { (t : ℕ) × (seat.old.me.0.doing ≡ Has t journal.entries journal.fault) }
    requires hand { seat.old.me.1 ≡ (0, None) ∷ [] }
    requires goes { GoesOn D.honest D.seen D.images D.moment D.since D.faults top.now.key.value journal }
    ensures same { IsSameSeat seat.old seat.new }
    ensures passed { seat.new.me ≡ (resting seat.old.me.0 journal.entries seat.old.me.0.mark, []) }
{
    give_back(top, seat, journal);
    let served = top.fetch_add::<PassOn>(seat, 1, 1);
    bells.ring_for(served.wrapping_add(1));
}

/// Joins a pass into the first one.
pub(crate) fn take_in<D: Disk>(top: &Top<D>, seat: &mut Place<D>, other: Place<D>)
    requires table { IsAt seat.old top.now.table_id }
    requires other_table { other.table_id ≡ top.now.table_id }
    requires live { (seat.old.me.0.live ≡ true) × (other.me.0.live ≡ true) }
    requires idle { (seat.old.me.0.doing ≡ Idle) × (other.me.0.doing ≡ Idle) }
    requires numbers { (seat.old.me.0.number ≡ 1) × (other.me.0.number ≢ 1) }
    requires hands { (seat.old.me.1 ≡ []) × (other.me.1 ≡ []) }
    ensures same { IsSameSeat seat.old seat.new }
    ensures hand { seat.new.me.1 ≡ [] }
    ensures joins { Joins seat.old.me.0 other.me.0 seat.new.me.0 }
    ensures few { length seat.new.me.0.joined ≤ 64 }
{
    top.join_seat::<Enlist>(seat, other);
    top.load::<Gain>(seat, 0);
}
