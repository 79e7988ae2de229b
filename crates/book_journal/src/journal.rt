//! A book on a disk.
ghost use Rattle.std.specs.Prelude.{◌≡◌, ◌≤◌, ℕ, List, None, Some, IfOk, IfErr, Err, false};
ghost use Rattle.std.specs.Option.{is_some};
ghost use Rattle.lg_base.specs.Causes.{Rose};
ghost use Rattle.sketchlet_wire.specs.Uploads.{UploadData};
ghost use Rattle.column_book.specs.Entries.{records};
ghost use Rattle.book_file.specs.declared.found.OpenFault.TheVariants as open_faults;
ghost use Rattle.book_file.specs.File.{IsBlank, StandsFor};
ghost use Rattle.book_file.specs.Found.{book_of, count_of};
ghost use Rattle.book_journal.specs.declared.applied.ApplyFault.TheVariants as apply_faults;
ghost use Rattle.book_journal.specs.Applying.{Applies};
ghost use Rattle.book_journal.specs.Crashes.{IsSynced, OnlyReads};
ghost use Rattle.book_journal.specs.Looking.{Reads};
ghost use Rattle.book_journal.specs.Opening.{IsNew, IsOutside, IsRefused, OpenLeaves, disk_of};
ghost use Rattle.book_journal.specs.Runs.{HasBook, IsRun, IsSettled, start_of};

use crate::applied::{Applied, ApplyFault};
use crate::attempt::Attempt;
use crate::opening::prepare;
use crate::synced::append;
use book_file::{OpenFault, body_of};
use column_book::{Book, ROOM};
use lg_disk::Disk;
use lg_model::Shape;
use sketchlet_wire::Upload;
use std::alloc::Global;
use std::marker::Model;
use std::snapshot::Snapshot;

/// A book whose records stand in the file of a disk. Contracts see it as its shape, its room, its entries, the entry
/// that may be on the disk where a call of it failed, and the disk.
#[derive(Drop)]
pub struct Journal<D: Disk> {
    alloc: Global,
    disk: D,
    book: Book,
    // The offset of the gate after the records.
    end: u64,
    // What was being stored when a call of the disk failed.
    fault: Option<Attempt>,
}

impl<D: Disk> Model for Journal<D> {
    ghost use Rattle.book_journal.specs.Runs.{IsSound, JournalState};
    ghost use Rattle.book_journal.specs.Kept.{state_of};

    ghost Value = { JournalState D };

    ghost view = { λ j. state_of j.disk j.book j.fault };

    ghost invariant = { λ j. IsSound D.honest D.seen D.images j.end (state_of j.disk j.book j.fault) };
}

impl<D: Disk> Journal<D> {
    /// Opens the file of a disk, for sketches of a shape and at most `room` columns, which is 1 to `ROOM`
    /// (docs/FORMATS.md, The book file). The file is made durable first, so that what is read stays. A blank one is
    /// made the empty journal. The entries that are read have pass 0.
    ///
    /// A refused file is told by its first fault, `NotAJournal`, `WrongShape`, `Damaged` or `Full`, and was only read.
    /// `DiskFault` comes only where the disk's count of faults rose, or stands at its last value. Whatever the answer,
    /// a file that isn't blank is as before, and a blank one still stands for the empty list; so it is after a crash.
    /// A journal on an honest disk is a run from where it stands.
    pub fn open(
        alloc: Global,
        disk: D,
        shape: &Shape,
        room: u32,
    ) -> Result<Journal<D>, (OpenFault, D)>
        requires some { 1 ≤ room }
        requires few { room ≤ ROOM }
        ensures book { IfOk result (λ j. IsNew shape.now room j) }
        ensures stands { D.honest disk → IfOk result (λ j. StandsFor shape.now (records j.entries) (D.seen disk)) }
        ensures leaves { D.honest disk →
            OpenLeaves D.honest D.seen D.images D.moment D.since shape.now disk (disk_of result) }
        ensures untouched { D.honest disk → (IsBlank (D.seen disk) → ⊥) →
            OnlyReads D.honest D.seen D.images D.moment D.since disk (disk_of result) }
        ensures refused { IfErr result (λ e.
            Reads (D.honest disk) (D.seen disk) (λ file. IsRefused shape.now room file e.0)) }
        // A file that stands for a list which there is room for has no fault of its own.
        ensures complete { D.honest disk → (rs : List UploadData) → StandsFor shape.now rs (D.seen disk) →
            count_of rs ≤ room → IfErr result (λ e. IsOutside e.0) }
        ensures runs { IfOk result (λ j. D.honest j.disk →
            IsRun D.honest D.seen D.images D.moment D.since (start_of D.seen D.moment j) j) }
        ensures was { D.honest (disk_of result) → D.honest disk }
        ensures never_falls { D.faults disk ≤ D.faults (disk_of result) }
        ensures cause { IfErr result (λ e. e.0 ≡ open_faults.DiskFault → Rose (D.faults disk) (D.faults e.1)) }
    {
        let mut disk = disk;
        match prepare(alloc, &mut disk, shape, room) {
            Ok((book, end)) => Ok(Journal {
                alloc,
                disk,
                book,
                end,
                fault: None,
            }),
            Err(fault) => Err((fault, disk)),
        }
    }

    /// Applies an upload (docs/DEFINITIONS.md, Apply): what is new of it is stored as one record. All memory is taken
    /// first; then four calls of the disk append the record, so that no crash can tear it.
    ///
    /// `Stored` says its position, from 0: every crash from then on leaves it. At `Known` all its columns are there.
    /// The faults are looked for in this order. `Broken` comes exactly where an earlier call answered `DiskFault`; then
    /// `WrongShape`, `Conflict` and `Full`, as the book finds them; then `Memory`. At all of these, journal and disk
    /// are as before. `DiskFault` comes only where the disk's count of faults rose, or stands at its last value: then the
    /// book is as before, the disk may or may not have the record, and the journal is broken for good.
    pub fn apply(&mut self, pass: u32, upload: &Upload) -> Result<Applied, ApplyFault>
        ensures applies { Applies D.honest D.seen D.images D.moment D.since pass upload.now self.old self.new result }
        ensures still { D.honest self.old.disk → D.honest self.new.disk }
        ensures was { D.honest self.new.disk → D.honest self.old.disk }
        ensures never_falls { D.faults self.old.disk ≤ D.faults self.new.disk }
        ensures cause { result ≡ Err apply_faults.DiskFault → Rose (D.faults self.old.disk) (D.faults self.new.disk) }
    {
        if self.fault.is_some() {
            return Err(ApplyFault::Broken {
                records: self.book.records(),
            });
        }
        let mask = self.book.check(upload)?;
        if mask == 0 {
            return Ok(Applied::Known);
        }
        let bytes = body_of(self.alloc, upload, mask)?;
        self.book.reserve(upload)?;
        self.fault = Some(Attempt {
            pass,
            upload: Snapshot::of(upload),
        });
        append(&mut self.disk, self.end, &bytes)?;
        self.end += bytes.len() as u64;
        let position = self.book.add(pass, upload);
        self.fault = None;
        Ok(Applied::Stored(position))
    }

    /// The book of the records.
    pub fn book(&self) -> &Book
        ensures { HasBook self.now result.now }
    {
        &self.book
    }

    /// Whether a call of [`Journal::apply`] met a fault of the disk. If none did, an honest disk is synced, its file
    /// stands for the entries, and the journal is a run from where it stands.
    pub fn is_broken(&self) -> bool
        ensures value { result ≡ is_some self.now.fault }
        ensures settled { D.honest self.now.disk → result ≡ false → IsSettled D.honest D.seen D.images self.now }
        ensures runs { D.honest self.now.disk → result ≡ false →
            IsRun D.honest D.seen D.images D.moment D.since (start_of D.seen D.moment self.now) self.now }
    {
        self.fault.is_some()
    }

    /// The book and the disk.
    pub fn close(self) -> (Book, D)
        ensures book { HasBook self result.0 }
        ensures disk { result.1 ≡ self.disk }
    {
        (self.book, self.disk)
    }
}
