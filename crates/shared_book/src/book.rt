//! One book, shared by many passes.
ghost use Rattle.std.specs.Prelude.{◌≡◌, ◌≢◌, ◌+◌, ◌<◌, ◌≤◌, length, None, Some, IfOk, IfErr, OnErr};
ghost use Rattle.lock_rule.specs.Closing.{Closes};
ghost use Rattle.lock_rule.specs.declared.view.Doing.TheVariants.{Idle};
ghost use Rattle.lock_rule.specs.Views.{most_calls, given, new_pass, parted};
ghost use Rattle.shared_book.specs.Going.{GoesOn};
ghost use Rattle.shared_book.specs.Passes.{Joins, Keeps, Serves, ServesEach, Together};

use crate::bells::Bells;
use crate::pass::Pass;
use crate::serving::{serve, serve_each};
use crate::turns::{Part, Place, Turns, pass_on, take_first, take_in};
use atomic_table::{Badge, Table};
use book_journal::{Applied, ApplyFault, Journal};
use lg_base::Memory;
use lg_disk::Disk;
use lg_model::Shape;
use lock_rule::View;
use sketchlet_wire::Upload;
use std::alloc::Global;
use std::marker::{Brand, Model};
use std::mem;
use std::snapshot::Snapshot;
use std::sync::Wait;

/// A journal that passes apply uploads to, each in its turn. Contracts see it as which book it is, and as the journal
/// that was shared. It has to be closed.
pub struct SharedBook<D: Disk> {
    table: Table<Option<Journal<D>>, View, Snapshot<Journal<D>>, Turns, Global>,
    bells: Bells,
    shape: Shape,
}

impl<D: Disk> Model for SharedBook<D> {
    ghost use Rattle.std.specs.Prelude.{◌≡◌};
    ghost use Rattle.shared_book.specs.Passes.{SharedState};

    ghost Value = { SharedState D };

    ghost view = { λ b. record { id = b.table.shared.table_id; first = b.table.shared.key.value } };

    ghost invariant = { λ b. (b.table.shared.table_id.words ≡ 4) × (b.table.shared.table_id.slots ≡ 1)
        × (b.shape ≡ b.table.shared.key.value.shape) };
}

/// Shares a journal that isn't broken, and gives the first pass, number 1, which has seen the journal's entries and has
/// 4,294,967,295 calls left. Where no memory is found the journal comes back as it was.
pub fn share<D: Disk>(
    alloc: Global,
    journal: Journal<D>,
) -> Result<(SharedBook<D>, Pass), (Memory, Journal<D>)>
    requires whole { journal.fault ≡ None }
    ensures shared { IfOk result (λ r. r.0.first ≡ journal) }
    ensures book { IfOk result (λ r. r.1.book ≡ r.0.id) }
    ensures pass { IfOk result (λ r. r.1.view ≡ new_pass 1 Idle journal.entries 1) }
    ensures back { IfErr result (λ e. e.1 ≡ journal) }
{
    let about = Snapshot::of(&journal);
    let shape = journal.book().shape();
    let records = journal.book().records();
    journal.is_broken();
    let Ok((table, mut seat)) = Table::vacant(alloc, &[1, 0, records as u64, 0], 1, &about) else {
        return Err((Memory, journal));
    };
    let bells = Bells::new();
    take_first::<D, Brand>(&table.shared, &mut seat);
    pass_on(&table.shared, &bells, &mut seat, journal);
    let pass = Pass {
        badge: seat.into_badge(),
        number: 1,
        made: 1,
        joined: 0,
        left: u32::MAX,
    };
    let book = SharedBook {
        table,
        bells,
        shape,
    };
    Ok((book, pass))
}

impl<D: Disk> SharedBook<D> {
    /// The shape of the sketches whose columns are kept.
    pub fn shape(&self) -> Shape
        ensures { result ≡ self.now.first.shape }
    {
        self.shape
    }

    /// Gives one pass more, by the first one, of which there may be 65. It has the next number, has seen what the first
    /// one has, has no broken mark, and has begun no call. Takes no memory.
    pub fn split(&self, pass: &mut Pass) -> Pass
        requires book { pass.old.book ≡ self.now.id }
        requires first { pass.old.view.number ≡ 1 }
        requires few { pass.old.view.made < 65 }
        ensures book { pass.new.book ≡ pass.old.book }
        ensures parted { pass.new.view ≡ parted pass.old.view }
        ensures given_book { result.book ≡ self.now.id }
        ensures given { result.view ≡ given pass.old.view }
    {
        let mut seat: Place<D> = mem::replace(&mut pass.badge, Badge::blank()).into_seat();
        let other = self.table.shared.split_seat::<Part>(&mut seat);
        pass.badge = seat.into_badge();
        pass.made += 1;
        Pass {
            badge: other.into_badge(),
            number: pass.made,
            made: 0,
            joined: 0,
            left: u32::MAX,
        }
    }

    /// Applies an upload: draws a ticket, waits for its turn, applies the upload to the journal, and passes the turn on
    /// (docs/DEFINITIONS.md, The lock's words and steps). It takes one of the calls that are left. The answers are those
    /// of [`Journal::apply`] for the entries behind the lock, which begin with what the pass has seen; of those that
    /// came since, none has its number. The pass has then seen them all, at `Stored` with its own.
    ///
    /// `DiskFault` and `Broken` set the pass's mark, `DiskFault` with the entry that may be on the disk. A marked pass is
    /// answered `Broken`. After `Memory` nothing was added by this call. It may wait forever where another pass's call
    /// does not return.
    pub fn apply<R: Wait>(
        &self,
        rt: &R,
        pass: &mut Pass,
        upload: &Upload,
    ) -> Result<Applied, ApplyFault>
        requires book { pass.old.book ≡ self.now.id }
        requires left { pass.old.view.begun < most_calls }
        ensures book { pass.new.book ≡ pass.old.book }
        ensures keeps { Keeps pass.old.view pass.new.view }
        ensures serves { Serves self.now.first.shape self.now.first.room upload.now pass.old.view pass.new.view result }
    {
        let mut seat: Place<D> = mem::replace(&mut pass.badge, Badge::blank()).into_seat();
        let top = &self.table.shared;
        let answer = serve(rt, top, &self.bells, &mut seat, pass.number, upload);
        pass.badge = seat.into_badge();
        pass.left -= 1;
        answer
    }

    /// Applies uploads one after the other in one turn, until one is refused, and answers each as [`apply`] does. The
    /// turn is passed on once, after the last of them. It takes one of the calls that are left for each upload that was
    /// applied. Where no memory is found for the answers, nothing is applied.
    ///
    /// [`apply`]: SharedBook::apply
    pub fn apply_each<R: Wait>(
        &self,
        alloc: Global,
        rt: &R,
        pass: &mut Pass,
        uploads: &[Upload],
    ) -> Result<Vec<Result<Applied, ApplyFault>>, Memory>
        requires book { pass.old.book ≡ self.now.id }
        requires left { pass.old.view.begun + length uploads.now ≤ most_calls }
        ensures book { pass.new.book ≡ pass.old.book }
        ensures serves { IfOk result (λ answers. ServesEach self.now.first.shape self.now.first.room uploads.now
            pass.old.view pass.new.view answers.items) }
        ensures together { Together pass.old.view pass.new.view }
        ensures keeps { (pass.new.view.number ≡ pass.old.view.number) × (pass.new.view.made ≡ pass.old.view.made)
            × (pass.new.view.joined ≡ pass.old.view.joined) }
        ensures none { OnErr result (pass.new.view ≡ pass.old.view) }
    {
        let mut answers = Vec::with_capacity(alloc, uploads.len())?;
        if uploads.is_empty() {
            return Ok(answers);
        }
        let mut seat: Place<D> = mem::replace(&mut pass.badge, Badge::blank()).into_seat();
        let top = &self.table.shared;
        serve_each(
            rt,
            top,
            &self.bells,
            &mut seat,
            pass.number,
            uploads,
            &mut answers,
        );
        pass.badge = seat.into_badge();
        pass.left -= answers.len() as u32;
        Ok(answers)
    }

    /// Joins another pass into the first one, which then has seen what either has.
    pub fn join(&self, pass: &mut Pass, other: Pass)
        requires book { pass.old.book ≡ self.now.id }
        requires other_book { other.book ≡ self.now.id }
        requires first { pass.old.view.number ≡ 1 }
        requires second { other.view.number ≢ 1 }
        ensures book { pass.new.book ≡ pass.old.book }
        ensures joins { Joins pass.old.view other.view pass.new.view }
    {
        let mut seat: Place<D> = mem::replace(&mut pass.badge, Badge::blank()).into_seat();
        let Pass { badge, .. } = other;
        take_in(&self.table.shared, &mut seat, badge.into_seat());
        pass.badge = seat.into_badge();
        pass.joined += 1;
    }

    /// Gives the journal back, by the first pass, once all others were joined into it. All calls then stand in one
    /// history: its entries begin with the list of each pass, those of each number past the opening list are what that
    /// pass stored, and it is broken exactly where some pass is marked. On an honest disk it is a run from the journal
    /// that was shared.
    pub fn close(self, pass: Pass) -> Journal<D>
        requires book { pass.book ≡ self.id }
        requires first { pass.view.number ≡ 1 }
        requires all { length pass.view.joined + 1 ≡ pass.view.made }
        ensures closes { Closes self.first.entries pass.view result.entries result.fault }
        ensures goes_on { GoesOn D.honest D.seen D.images D.moment D.since D.faults self.first result }
    {
        let SharedBook {
            table,
            bells: _,
            shape: _,
        } = self;
        let Pass { badge, .. } = pass;
        let seat: Place<D> = badge.into_seat();
        let mut closed = table.close_with(seat);
        let slot = closed.take(0);
        closed.free();
        match slot {
            Some(journal) => journal,
            None => unreachable!(),
        }
    }
}
