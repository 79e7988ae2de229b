//! The command `list`: all columns of the book.
ghost use Rattle.std.specs.Prelude.{◌≡◌, Ok, Err, IfOk, IfErr};
ghost use Rattle.lg_model.specs.Columns.{dims_of};
ghost use Rattle.column_book.specs.Entries.{content};
ghost use Rattle.report_text.specs.Report.{columns_line};
ghost use Rattle.book_journal.specs.Crashes.{OnlyReads};
ghost use Rattle.guardian_run.specs.Changes.{disk_change};
ghost use Rattle.guardian_run.specs.Outputs.{list_of};
ghost use Rattle.guardian_run.specs.Outcomes.{Lists};
ghost use Rattle.guardian_run.specs.Giving.{GivesOfFile};

use crate::looking::book_on;
use crate::refusal::Refusal;
use column_book::Book;
use lg_base::Memory;
use lg_disk::Disk;
use report_text::{put_column_line, put_columns_line};
use std::alloc::Global;

// The lines of the columns of a book, in the order of their keys, and how many they are.
fn list_lines(alloc: Global, book: &Book) -> Result<Vec<u8>, Memory>
    ensures { IfOk result (λ text. text.items ≡ list_of (dims_of book.now.shape) (content book.now.entries)) }
{
    let mut text = Vec::new(alloc);
    let mut last = None;
    for _ in 0..book.count() {
        let Some(key) = book.next_key(last.as_ref()) else {
            unreachable!()
        };
        let Some(column) = book.find(&key) else {
            unreachable!()
        };
        put_column_line(&mut text, &column)?;
        last = Some(key);
    }
    put_columns_line(&mut text, book.count() as usize)?;
    Ok(text)
}

// The lines of no columns.
fn no_lines(alloc: Global) -> Result<Vec<u8>, Memory>
    ensures { IfOk result (λ text. text.items ≡ columns_line 0) }
{
    let mut text = Vec::new(alloc);
    put_columns_line(&mut text, 0)?;
    Ok(text)
}

/// Gives the lines of all columns of the book of the disk's file, in the order of their keys. The disk is only read.
///
/// `NotAJournal`, `Damaged` and `Full` exactly where the file has that fault first, `DiskFault` only where the disk's count
/// of faults rose in this call or stands at its last value, `Memory` where no memory was found.
pub fn list<D: Disk>(alloc: Global, disk: &mut D) -> Result<Vec<u8>, Refusal>
    ensures output { IfOk result (λ text. GivesOfFile Lists (disk_change D.honest D.seen D.faults disk.old disk.new) (Ok text.items)) }
    ensures refused { IfErr result (λ refusal. GivesOfFile Lists (disk_change D.honest D.seen D.faults disk.old disk.new) (Err refusal)) }
    ensures reads { OnlyReads D.honest D.seen D.images D.moment D.since disk.old disk.new }
{
    let Some(book) = book_on(alloc, disk, None)? else {
        let text = no_lines(alloc)?;
        return Ok(text);
    };
    let text = list_lines(alloc, &book)?;
    Ok(text)
}
