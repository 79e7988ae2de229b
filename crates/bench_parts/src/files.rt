//! The parts of the book's file.

use crate::books::upload;
use crate::columns::{COLUMNS, Order, mixed};
use book_journal::{Applied, Journal, look};
use column_book::{Book, ROOM, Shape};
use lg_disk::FileDisk;
use lg_model::Hash;
use report_text::put_column_line;
use std::alloc::Global;
use std::os::unix::fs::FileExt;
use std::rt::Files;

// The journal of the file of that name.
fn open<'a, F: Files>(
    files: &'a F,
    alloc: Global,
    name: &'a str,
) -> Option<Journal<FileDisk<'a, F>>>
where
    F::File: FileExt,
{
    let shape = Shape::new(8, 4096, Hash::Ports)?;
    let Ok(journal) = Journal::open(alloc, FileDisk::at(files, name), &shape, ROOM) else {
        return None;
    };
    Some(journal)
}

// Takes in how many columns and records there are.
fn counted(sum: u64, book: &Book) -> u64 {
    mixed(
        mixed(sum, u64::from(book.count())),
        u64::from(book.records()),
    )
}

/// Opens the file as a journal, `times` times.
pub(crate) fn opened<F: Files>(files: &F, alloc: Global, name: &str, times: u32) -> Option<u64>
where
    F::File: FileExt,
{
    let mut sum = 0;
    for _ in 0..times {
        let journal = open(files, alloc, name)?;
        sum = counted(sum, journal.book());
    }
    Some(sum)
}

/// Looks at the file, `times` times.
pub(crate) fn looked<F: Files>(files: &F, alloc: Global, name: &str, times: u32) -> Option<u64>
where
    F::File: FileExt,
{
    let mut sum = 0;
    for _ in 0..times {
        let mut disk = FileDisk::at(files, name);
        let book = look(alloc, &mut disk, None).ok()??;
        sum = counted(sum, &book);
    }
    Some(sum)
}

// The lines of all columns, in the order of their keys.
fn lines(alloc: Global, book: &Book) -> Option<Vec<u8>> {
    let mut text = Vec::new(alloc);
    let mut last = None;
    for _ in 0..=COLUMNS {
        last = book.next_key(last.as_ref());
        let Some(key) = last else {
            return Some(text);
        };
        put_column_line(&mut text, &book.find(&key)?).ok()?;
    }
    None
}

// Takes in each byte of the lines.
fn first_lines(alloc: Global, book: &Book) -> Option<u64> {
    let mut sum = 0;
    for byte in &lines(alloc, book)? {
        sum = mixed(sum, u64::from(*byte));
    }
    Some(sum)
}

/// Makes the lines of all columns of the file, once to take in their bytes, and then `times` times.
pub(crate) fn lined<F: Files>(files: &F, alloc: Global, name: &str, times: u32) -> Option<u64>
where
    F::File: FileExt,
{
    let journal = open(files, alloc, name)?;
    let mut sum = first_lines(alloc, journal.book())?;
    for _ in 0..times {
        sum = mixed(sum, lines(alloc, journal.book())?.len() as u64);
    }
    Some(sum)
}

/// Opens the file and makes the lines of all its columns, once to take in their bytes, and then `times` times.
pub(crate) fn listed<F: Files>(files: &F, alloc: Global, name: &str, times: u32) -> Option<u64>
where
    F::File: FileExt,
{
    let mut sum = first_lines(alloc, open(files, alloc, name)?.book())?;
    for _ in 0..times {
        let journal = open(files, alloc, name)?;
        sum = mixed(sum, lines(alloc, journal.book())?.len() as u64);
    }
    Some(sum)
}

/// Applies `count` uploads of 16 new columns to the journal of the file.
pub(crate) fn journaled<F: Files>(files: &F, alloc: Global, name: &str, count: u32) -> Option<u64>
where
    F::File: FileExt,
{
    let mut journal = open(files, alloc, name)?;
    for seq in 0..count {
        let Ok(Applied::Stored(_)) = journal.apply(0, &upload(alloc, Order::Near, seq)?) else {
            return None;
        };
    }
    Some(counted(0, journal.book()))
}
