//! The command `rebuild`: the sketch of a switch and an epoch.
ghost use Rattle.std.specs.Prelude.{◌≡◌, Ok, Err, IfOk, IfErr};
ghost use Rattle.lg_model.specs.Answer.{look_in};
ghost use Rattle.column_book.specs.Entries.{content, known_of};
ghost use Rattle.flow_query.specs.Rebuilt.{IsRebuilt};
ghost use Rattle.book_journal.specs.Crashes.{OnlyReads};
ghost use Rattle.guardian_run.specs.Changes.{disk_change};
ghost use Rattle.guardian_run.specs.Outputs.{sketch_of};
ghost use Rattle.guardian_run.specs.Outcomes.{Rebuilds};
ghost use Rattle.guardian_run.specs.Giving.{GivesOfFile};
ghost use Rattle.guardian_run.specs.Looking.{IsUnbuiltOf};

use crate::looking::book_on;
use crate::refusal::Refusal;
use column_book::Book;
use flow_query::RebuildFault;
use lg_base::Memory;
use lg_disk::Disk;
use lg_model::Dims;
use report_text::{put_rebuilt_line, put_row_line};
use std::alloc::Global;
use sumax_sketch::Sketch;

// The sketch of a switch and an epoch in a book.
fn rebuilt(alloc: Global, book: &Book, switch: u16, epoch: u32) -> Result<Sketch, Refusal>
    ensures all { IfOk result (λ _. known_of switch epoch book.now.entries ≡ book.now.shape.width) }
    ensures sketch { IfOk result (IsRebuilt (look_in (content book.now.entries)) book.now.shape switch epoch) }
    ensures refused { IfErr result (IsUnbuiltOf switch epoch book.now) }
{
    match flow_query::rebuild(alloc, book, switch, epoch) {
        Ok(sketch) => Ok(sketch),
        Err(RebuildFault::Missing { known }) => Err(Refusal::Missing {
            switch,
            epoch,
            known,
            width: book.shape().width(),
        }),
        Err(RebuildFault::Memory) => Err(Refusal::Memory),
    }
}

// The lines of a sketch.
fn sketch_lines(alloc: Global, switch: u16, epoch: u32, sketch: &Sketch) -> Result<Vec<u8>, Memory>
    ensures { IfOk result (λ text. text.items ≡ sketch_of switch epoch sketch.now) }
{
    let mut text = Vec::new(alloc);
    let shape = sketch.shape();
    let dims = Dims {
        rows: shape.rows(),
        width: shape.width(),
    };
    put_rebuilt_line(&mut text, switch, epoch, dims)?;
    for row in 0..shape.rows() {
        put_row_line(&mut text, sketch, row)?;
    }
    Ok(text)
}

/// Gives the lines of the sketch of a switch and an epoch, rebuilt of the columns of the book of the disk's file. The disk
/// is only read.
///
/// `Blank` exactly where the file is blank, and `Missing` exactly where it holds fewer columns of the sketch than the width;
/// `NotAJournal`, `Damaged` and `Full` exactly where the file has that fault first; `DiskFault` only where the disk's count
/// of faults rose in this call or stands at its last value, `Memory` where no memory was found.
pub fn rebuild<D: Disk>(
    alloc: Global,
    disk: &mut D,
    switch: u16,
    epoch: u32,
) -> Result<Vec<u8>, Refusal>
    ensures output { IfOk result (λ text. GivesOfFile (Rebuilds switch epoch)
        (disk_change D.honest D.seen D.faults disk.old disk.new) (Ok text.items)) }
    ensures refused { IfErr result (λ refusal. GivesOfFile (Rebuilds switch epoch)
        (disk_change D.honest D.seen D.faults disk.old disk.new) (Err refusal)) }
    ensures reads { OnlyReads D.honest D.seen D.images D.moment D.since disk.old disk.new }
{
    let Some(book) = book_on(alloc, disk, None)? else {
        return Err(Refusal::Blank);
    };
    let sketch = rebuilt(alloc, &book, switch, epoch)?;
    let text = sketch_lines(alloc, switch, epoch, &sketch)?;
    Ok(text)
}
