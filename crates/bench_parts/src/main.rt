//! A program for measurements alone: parts of the product's work, over and over (docs/PERFORMANCE.md, The parts).
//!
//! | Words | What is done |
//! |---|---|
//! | `frames N` | N sketchlets are cut into uploads, which are written as frames and read back |
//! | `book ORDER N TIMES` | a book takes N columns in uploads of 16, TIMES times |
//! | `find ORDER N TIMES` | a book of N columns is asked for all 262,144 keys in a mixed order, TIMES times |
//! | `walk ORDER N TIMES` | a book of N columns is walked from key to key, TIMES times |
//! | `read FILE TIMES` | a file is read in pieces of 4,096 bytes, TIMES times |
//! | `append FILE N` | N records of 31 bytes are appended to a file, each with two writes and two syncs |
//! | `open FILE TIMES` | a book file is opened as a journal, TIMES times |
//! | `look FILE TIMES` | a book file is looked at, TIMES times |
//! | `lines FILE TIMES` | the lines of all columns of a book file are made, TIMES times |
//! | `list FILE TIMES` | a book file is opened as a journal and listed, TIMES times |
//! | `journal FILE N` | a journal takes N uploads of 16 new columns |
//! | `alone N` | a journal over a disk in memory takes N uploads of 16 new columns |
//! | `shared N PASSES` | the same through a shared book, N / PASSES uploads in each of 1 to 64 threads |
//! | `turns N PASSES` | the same, 8 uploads a turn |
//!
//! The order is `near`, uploads of neighbouring columns, or `scattered`. A book file is of sketches of eight rows of 4,096
//! buckets, with places by the ports. It writes one number, which tells that the work was done, and ends with 1 where it
//! was not. No crate of the product stands on this one.
#![tactic(auto)]

mod books;
mod columns;
mod disks;
mod files;
mod frames;
mod locks;

use crate::books::{asked, taken, walked};
use crate::columns::Order;
use crate::disks::{appended, scanned};
use crate::files::{journaled, lined, listed, looked, opened};
use crate::frames::sent;
use crate::locks::{applied, shared};
use lg_disk::FileDisk;
use std::alloc::Global;
use std::os::unix::fs::FileExt;
use std::process::ExitCode;
use std::rt::{Env, Files};
use std::sync::Wait;
use std::thread::Threads;
use std::{env, io};

// How many uploads a worker of a run applies in one turn.
const TURN: u32 = 8;

// The words after the program's name.
fn words<R: Env + AllocGlobal>(rt: &R) -> io::Result<Vec<String>> {
    let mut words = Vec::new(rt.alloc());
    for word in env::args(rt)?.skip(1) {
        words.push(word)?;
    }
    Ok(words)
}

fn number(word: &str) -> Option<u32> {
    word.parse::<u32>().ok()
}

// What a part of the book comes to.
fn of_book(alloc: Global, part: &str, order: &str, count: &str, times: &str) -> Option<u64> {
    let order = Order::named(order)?;
    let count = number(count)?;
    let times = number(times)?;
    if part == "book" {
        taken(alloc, order, count, times)
    } else if part == "find" {
        asked(alloc, order, count, times)
    } else if part == "walk" {
        walked(alloc, order, count, times)
    } else {
        None
    }
}

// What a part of the disk comes to.
fn of_disk<F: Files>(files: &F, part: &str, name: &str, count: &str) -> Option<u64>
where
    F::File: FileExt,
{
    let count = number(count)?;
    let mut disk = FileDisk::at(files, name);
    if part == "read" {
        scanned(&mut disk, count)
    } else if part == "append" {
        appended(&mut disk, count)
    } else {
        None
    }
}

// What a part of the book's file comes to.
fn of_file<F: Files>(files: &F, alloc: Global, part: &str, name: &str, count: &str) -> Option<u64>
where
    F::File: FileExt,
{
    let count = number(count)?;
    if part == "open" {
        opened(files, alloc, name, count)
    } else if part == "look" {
        looked(files, alloc, name, count)
    } else if part == "lines" {
        lined(files, alloc, name, count)
    } else if part == "list" {
        listed(files, alloc, name, count)
    } else if part == "journal" {
        journaled(files, alloc, name, count)
    } else {
        None
    }
}

// What a part that needs no more than a count comes to.
fn of_count(alloc: Global, part: &str, count: &str) -> Option<u64> {
    let count = number(count)?;
    if part == "frames" {
        sent(alloc, count)
    } else if part == "alone" {
        applied(alloc, count)
    } else {
        None
    }
}

// What the part of these words comes to.
fn done<R: Files + Threads + Wait + Sync>(rt: &R, alloc: Global, words: &[String]) -> Option<u64>
where
    R::File: FileExt,
{
    match words {
        [part, count] => of_count(alloc, part, count),
        [part, name, count] => {
            if part.as_str() == "read" || part.as_str() == "append" {
                of_disk(rt, part, name, count)
            } else if part.as_str() == "shared" {
                shared(rt, alloc, number(name)?, number(count)?, 0)
            } else if part.as_str() == "turns" {
                shared(rt, alloc, number(name)?, number(count)?, TURN)
            } else {
                of_file(rt, alloc, part, name, count)
            }
        }
        [part, order, count, times] => of_book(alloc, part, order, count, times),
        _ => None,
    }
}

fn main(rt: HostRuntime) -> ExitCode {
    let Ok(words) = words(&rt) else {
        return ExitCode::FAILURE;
    };
    let Some(sum) = done(&rt, rt.alloc(), &words) else {
        return ExitCode::FAILURE;
    };
    match println!(rt; "{sum}") {
        Ok(()) => ExitCode::SUCCESS,
        Err(_) => ExitCode::FAILURE,
    }
}
