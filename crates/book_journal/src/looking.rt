//! Reading the file of a disk, in pieces.
ghost use Rattle.std.specs.Prelude.{◌≡◌, ◌⊎◌, ◌+◌, ◌≤◌, length, take, drop, IfErr, OnOk, Err, true};
ghost use Rattle.std.specs.Option.{option_map};
ghost use Rattle.book_file.specs.declared.found.OpenFault.TheVariants as faults;
ghost use Rattle.book_file.specs.Found.{Finds};
ghost use Rattle.book_file.specs.Walk.{is_ended};
ghost use Rattle.book_journal.specs.Crashes.{OnlyReads};
ghost use Rattle.book_journal.specs.Looking.{FaultRose, IsFed, Looks, Reads};

use book_file::{Found, OpenFault, Walk};
use column_book::{Book, ROOM};
use lg_disk::Disk;
use lg_model::Shape;
use std::alloc::Global;

// The most bytes that are read at once.
const PIECE: usize = 4096;

// Fills the buffer with the bytes from there on. What the disk lacks is taken as 00.
fn read_piece<D: Disk>(disk: &mut D, at: u64, buf: &mut [u8]) -> Result<(), OpenFault>
    ensures reads { OnlyReads D.honest D.seen D.images D.moment D.since disk.old disk.new }
    ensures bytes { D.honest disk.old → at + length buf.old ≤ length (D.seen disk.old) →
        OnOk result (buf.new ≡ take (length buf.old) (drop at (D.seen disk.old))) }
    ensures only { IfErr result (λ fault. fault ≡ faults.DiskFault) }
    ensures cause { FaultRose (D.faults disk.old) (D.faults disk.new) result }
{
    let Ok(got) = disk.read_at(at, buf) else {
        return Err(OpenFault::DiskFault);
    };
    if got < buf.len() {
        buf[got..].fill(0);
        return Ok(());
    }
    Ok(())
}

// Feeds the file to a walk from the first byte on, piece after piece, until the walk has ended or the file has.
fn feed_all<D: Disk>(disk: &mut D, walk: &mut Walk, len: u64) -> Result<(), OpenFault>
    requires start { walk.old.fed ≡ 0 }
    requires len { walk.old.len ≡ len }
    requires size { D.honest disk.old → len ≡ length (D.seen disk.old) }
    ensures reads { OnlyReads D.honest D.seen D.images D.moment D.since disk.old disk.new }
    ensures fed { OnOk result (IsFed (D.honest disk.old) (D.seen disk.old) walk.old walk.new) }
    ensures all { OnOk result ((walk.new.fed ≡ walk.new.len) ⊎ (is_ended walk.new.stage ≡ true)) }
    ensures only { IfErr result (λ fault. (fault ≡ faults.DiskFault) ⊎ (fault ≡ faults.Memory)) }
    ensures cause { FaultRose (D.faults disk.old) (D.faults disk.new) result }
{
    let mut buf = [0; PIECE];
    let mut at = 0;
    while at < len && !walk.ended() {
        let count = (len - at).min(PIECE as u64) as usize;
        let piece = &mut buf[..count];
        read_piece(disk, at, piece)?;
        if walk.feed(piece).is_err() {
            return Err(OpenFault::Memory);
        }
        at += count as u64;
    }
    Ok(())
}

// What is found in the file of a disk, which is only read.
pub(crate) fn read_file<D: Disk>(
    alloc: Global,
    disk: &mut D,
    asked: Option<&Shape>,
    room: u32,
) -> Result<Found, OpenFault>
    requires some { 1 ≤ room }
    requires few { room ≤ ROOM }
    ensures reads { OnlyReads D.honest D.seen D.images D.moment D.since disk.old disk.new }
    ensures finds { (result ≡ Err faults.DiskFault → ⊥) → Reads (D.honest disk.old) (D.seen disk.old)
        (λ file. Finds (option_map (λ s. s.now) asked.entry) room file result) }
    ensures cause { FaultRose (D.faults disk.old) (D.faults disk.new) result }
{
    let Ok(len) = disk.len() else {
        return Err(OpenFault::DiskFault);
    };
    let Ok(mut walk) = Walk::new(alloc, asked, room, len) else {
        return Err(OpenFault::Memory);
    };
    if let Err(fault) = feed_all(disk, &mut walk, len) {
        return Err(fault);
    }
    walk.finish()
}

/// The book of a file, which is only read, in pieces of at most 4,096 bytes (docs/FORMATS.md, The book file). It has
/// room for `ROOM` columns, and entries of pass 0. None exactly where the file is blank. Where a shape is asked for,
/// the file has to have it.
///
/// `NotAJournal`, `WrongShape`, `Damaged` and `Full` are the first fault of the file. `DiskFault` comes only where the
/// disk's count of faults rose, or stands at its last value. Of a disk that isn't honest, bytes that it does not give
/// are taken as 00.
pub fn look<D: Disk>(
    alloc: Global,
    disk: &mut D,
    asked: Option<&Shape>,
) -> Result<Option<Book>, OpenFault>
    ensures looks { Looks (option_map (λ s. s.now) asked.entry) (D.honest disk.old) (D.seen disk.old) result }
    ensures reads { OnlyReads D.honest D.seen D.images D.moment D.since disk.old disk.new }
    ensures cause { FaultRose (D.faults disk.old) (D.faults disk.new) result }
{
    match read_file(alloc, disk, asked, ROOM) {
        Ok(Found::Blank) => Ok(None),
        Ok(Found::Book { book, end: _ }) => Ok(Some(book)),
        Err(fault) => Err(fault),
    }
}
