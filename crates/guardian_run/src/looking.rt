//! The book of the disk's file, for the commands that look at it.
ghost use Rattle.std.specs.Prelude.{◌≡◌, ◌≤◌, Some, IfOk, IfErr, IfSome};
ghost use Rattle.std.specs.Option.{option_map};
ghost use Rattle.column_book.specs.Entries.{records};
ghost use Rattle.book_file.specs.Found.{Suits};
ghost use Rattle.book_journal.specs.Crashes.{OnlyReads};
ghost use Rattle.guardian_run.specs.Changes.{disk_change};
ghost use Rattle.guardian_run.specs.Outcomes.{HasRecords};
ghost use Rattle.guardian_run.specs.Looking.{IsHeld, IsBookOf, IsFileRefusal};

use crate::refusal::Refusal;
use book_journal::look;
use column_book::{Book, ROOM};
use lg_disk::Disk;
use row_hash::Shape;
use std::alloc::Global;

/// The book of the disk's file, or none where the file is blank. Where a shape is asked for, the file has to have it.
///
/// `NotAJournal`, `WrongShape`, `Damaged` and `Full` exactly where the file has that fault first, `DiskFault` only where
/// the disk's count of faults rose in this call or stands at its last value, `Memory` where no memory was found. The disk
/// is only read.
pub(crate) fn book_on<D: Disk>(
    alloc: Global,
    disk: &mut D,
    asked: Option<&Shape>,
) -> Result<Option<Book>, Refusal>
    ensures found { IfOk result (λ b. IsHeld (disk_change D.honest D.seen D.faults disk.old disk.new) (IsBookOf b)) }
    ensures suits { IfOk result (λ b. IfSome b (λ b. Suits (option_map (λ s. s.now) asked.entry) b.shape)) }
    ensures refused { IfErr result (λ refusal. IsHeld (disk_change D.honest D.seen D.faults disk.old disk.new)
        (IsFileRefusal (option_map (λ s. s.now) asked.entry) (disk_change D.honest D.seen D.faults disk.old disk.new) refusal)) }
    ensures reads { OnlyReads D.honest D.seen D.images D.moment D.since disk.old disk.new }
    ensures never_falls { D.faults disk.old ≤ D.faults disk.new }
{
    match look(alloc, disk, asked) {
        Ok(book) => Ok(book),
        Err(fault) => Err(Refusal::from(fault)),
    }
}

/// The book of the disk's file under a shape: the empty one where the file is blank. The refusals are those of
/// [`book_on`]. The disk is only read.
pub(crate) fn book_under<D: Disk>(
    alloc: Global,
    disk: &mut D,
    shape: &Shape,
) -> Result<Book, Refusal>
    ensures shape { IfOk result (λ b. b.shape ≡ shape.now) }
    ensures found { IfOk result (λ b. IsHeld (disk_change D.honest D.seen D.faults disk.old disk.new)
        (λ file. HasRecords file shape.now (records b.entries))) }
    ensures refused { IfErr result (λ refusal. IsHeld (disk_change D.honest D.seen D.faults disk.old disk.new)
        (IsFileRefusal (Some shape.now) (disk_change D.honest D.seen D.faults disk.old disk.new) refusal)) }
    ensures reads { OnlyReads D.honest D.seen D.images D.moment D.since disk.old disk.new }
    ensures never_falls { D.faults disk.old ≤ D.faults disk.new }
{
    match book_on(alloc, disk, Some(shape))? {
        Some(book) => Ok(book),
        None => Ok(Book::new(alloc, shape, ROOM)?),
    }
}
