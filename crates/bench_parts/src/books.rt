//! The parts of the book.

use crate::columns::{COLUMNS, Order, column, key, mixed, scattered};
use column_book::{Book, ROOM, Shape, Upload};
use lg_model::Hash;
use std::alloc::Global;

/// The upload of the 16 columns that come there.
pub(crate) fn upload(alloc: Global, order: Order, seq: u32) -> Option<Upload> {
    let mut columns = Vec::with_capacity(alloc, 16).ok()?;
    for n in 0..16 {
        let at = seq.wrapping_mul(16).wrapping_add(n);
        columns.push(column(order.nth(at))?).ok()?;
    }
    Upload::new(1, seq, columns).ok()
}

// The uploads of that many columns.
fn uploads(alloc: Global, order: Order, count: u32) -> Option<Vec<Upload>> {
    let mut all = Vec::new(alloc);
    for seq in 0..count / 16 {
        all.push(upload(alloc, order, seq)?).ok()?;
    }
    Some(all)
}

// Checks, reserves and adds an upload of which a column is new.
fn take(book: &mut Book, upload: &Upload, sum: u64) -> Option<u64> {
    let mask = book.check(upload).ok()?;
    if mask == 0 {
        return None;
    }
    let Ok(()) = book.reserve(upload) else {
        return None;
    };
    let at = book.add(0, upload);
    Some(mixed(mixed(sum, u64::from(mask)), u64::from(at)))
}

// The book that took these uploads, and what it came to.
fn filled(alloc: Global, uploads: &[Upload]) -> Option<(Book, u64)> {
    let shape = Shape::new(8, 4096, Hash::Ports)?;
    let mut book = Book::new(alloc, &shape, ROOM).ok()?;
    let mut sum = 0;
    for upload in uploads {
        sum = take(&mut book, upload, sum)?;
    }
    Some((book, sum))
}

/// Fills a book, `times` times.
pub(crate) fn taken(alloc: Global, order: Order, count: u32, times: u32) -> Option<u64> {
    let uploads = uploads(alloc, order, count)?;
    let mut sum = 0;
    for _ in 0..times {
        let (book, one) = filled(alloc, &uploads)?;
        sum = mixed(sum, one.wrapping_add(u64::from(book.count())));
    }
    Some(sum)
}

// Asks for all columns in a mixed order.
fn ask_all(book: &Book, sum: u64) -> u64 {
    let mut sum = sum;
    for n in 0..COLUMNS {
        if let Some(column) = book.find(&key(scattered(scattered(n)))) {
            let [first, _, _, _, _, _, _, last] = column.filled();
            sum = mixed(
                sum,
                u64::from(first.bytes).wrapping_add(u64::from(last.delay)),
            );
        }
    }
    sum
}

/// Asks a book for all columns, `times` times.
pub(crate) fn asked(alloc: Global, order: Order, count: u32, times: u32) -> Option<u64> {
    let (book, _) = filled(alloc, &uploads(alloc, order, count)?)?;
    let mut sum = 0;
    for _ in 0..times {
        sum = ask_all(&book, sum);
    }
    Some(sum)
}

// Goes from the least key to the greatest.
fn walk_all(book: &Book, sum: u64) -> u64 {
    let mut sum = sum;
    let mut last = None;
    for _ in 0..=COLUMNS {
        last = book.next_key(last.as_ref());
        let Some(key) = last else {
            return sum;
        };
        sum = mixed(sum, u64::from(key.epoch).wrapping_add(u64::from(key.index)));
    }
    sum
}

/// Walks a book, `times` times.
pub(crate) fn walked(alloc: Global, order: Order, count: u32, times: u32) -> Option<u64> {
    let (book, _) = filled(alloc, &uploads(alloc, order, count)?)?;
    let mut sum = 0;
    for _ in 0..times {
        sum = walk_all(&book, sum);
    }
    Some(sum)
}
