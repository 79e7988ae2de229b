//! Opening the file of a disk.
ghost use Rattle.std.specs.Prelude.{◌≡◌, ◌≤◌, ℕ, List, [], length, None, Some, IfOk, IfErr, OnOk, Err};
ghost use Rattle.lg_base.specs.Causes.{HasCause};
ghost use Rattle.column_book.specs.Entries.{records};
ghost use Rattle.book_file.specs.declared.found.OpenFault.TheVariants as faults;
ghost use Rattle.book_file.specs.File.{IsBlank, StandsFor};
ghost use Rattle.book_file.specs.Found.{Finds};
ghost use Rattle.book_journal.specs.Crashes.{IsSynced, Leaves, OnlyReads};
ghost use Rattle.book_journal.specs.Looking.{FaultRose, Reads};
ghost use Rattle.book_journal.specs.Opening.{IsOpened, IsOutside, IsRead, IsRefused, OpenLeaves};

use crate::creating::create;
use crate::looking::read_file;
use book_file::{Found, OpenFault};
use column_book::{Book, ROOM};
use lg_disk::Disk;
use lg_model::Shape;
use std::alloc::Global;

// Makes the file durable, and reads it.
fn read_synced<D: Disk>(
    alloc: Global,
    disk: &mut D,
    shape: &Shape,
    room: u32,
) -> Result<Found, OpenFault>
    requires some { 1 ≤ room }
    requires few { room ≤ ROOM }
    ensures reads { OnlyReads D.honest D.seen D.images D.moment D.since disk.old disk.new }
    ensures finds { (result ≡ Err faults.DiskFault → ⊥) →
        Reads (D.honest disk.old) (D.seen disk.old) (λ file. Finds (Some shape.now) room file result) }
    ensures synced { D.honest disk.old → OnOk result (IsSynced D.honest D.seen D.images disk.new) }
    ensures cause { FaultRose (D.faults disk.old) (D.faults disk.new) result }
{
    if disk.sync().is_err() {
        return Err(OpenFault::DiskFault);
    }
    read_file(alloc, disk, Some(shape), room)
}

// An empty book, and the empty journal in place of a blank file. All memory is taken first.
fn begin<D: Disk>(
    alloc: Global,
    disk: &mut D,
    shape: &Shape,
    room: u32,
) -> Result<(Book, u64), OpenFault>
    requires some { 1 ≤ room }
    requires few { room ≤ ROOM }
    ensures still { D.honest disk.old → D.honest disk.new }
    ensures was { D.honest disk.new → D.honest disk.old }
    ensures crash { IsSynced D.honest D.seen D.images disk.old → IsBlank (D.seen disk.old) →
        Leaves D.moment D.since (StandsFor shape.now []) disk.old disk.new }
    ensures opened { IsSynced D.honest D.seen D.images disk.old → IsBlank (D.seen disk.old) →
        IfOk result (λ x. IsOpened D.honest D.seen D.images shape.now (records x.0.entries) disk.old disk.new) }
    ensures read { IfOk result (λ x. IsRead shape.now room x.0 x.1) }
    ensures only { IfErr result IsOutside }
    ensures cause { FaultRose (D.faults disk.old) (D.faults disk.new) result }
{
    let Ok(book) = Book::new(alloc, shape, room) else {
        return Err(OpenFault::Memory);
    };
    if create(disk, shape).is_err() {
        return Err(OpenFault::DiskFault);
    }
    Ok((book, 17))
}

// The book of the file, and the offset of the gate after its records.
pub(crate) fn prepare<D: Disk>(
    alloc: Global,
    disk: &mut D,
    shape: &Shape,
    room: u32,
) -> Result<(Book, u64), OpenFault>
    requires some { 1 ≤ room }
    requires few { room ≤ ROOM }
    ensures was { D.honest disk.new → D.honest disk.old }
    ensures leaves { D.honest disk.old →
        OpenLeaves D.honest D.seen D.images D.moment D.since shape.now disk.old disk.new }
    ensures untouched { D.honest disk.old → (IsBlank (D.seen disk.old) → ⊥) →
        OnlyReads D.honest D.seen D.images D.moment D.since disk.old disk.new }
    ensures opened { D.honest disk.old →
        IfOk result (λ x. IsOpened D.honest D.seen D.images shape.now (records x.0.entries) disk.old disk.new) }
    ensures read { IfOk result (λ x. IsRead shape.now room x.0 x.1) }
    ensures refused { IfErr result (λ fault.
        Reads (D.honest disk.old) (D.seen disk.old) (λ file. IsRefused shape.now room file fault)) }
    ensures cause { FaultRose (D.faults disk.old) (D.faults disk.new) result }
{
    match read_synced(alloc, disk, shape, room) {
        Ok(Found::Book { book, end }) => Ok((book, end)),
        Ok(Found::Blank) => begin(alloc, disk, shape, room),
        Err(fault) => Err(fault),
    }
}
