//! All workers of a run.
ghost use Rattle.std.specs.Prelude.{◌≡◌, ◌≤◌, [], length, All, None, IfOk};
ghost use Rattle.std.specs.Vec.{vec_capacity};
ghost use Rattle.lock_rule.specs.declared.view.Doing.TheVariants.{Idle};
ghost use Rattle.lock_rule.specs.Views.{new_pass};
ghost use Rattle.shared_book.specs.Going.{GoesOn};
ghost use Rattle.host_workers.specs.Working.{HasCallsFor, HaveWorked, HasSeats};

use crate::joining::join_all;
use crate::sender::{Job, Sender};
use crate::splitting::split_all;
use crate::working::work_all;
use book_journal::Journal;
use lg_base::{Gate, Memory};
use lg_disk::Disk;
use shared_book::{Pass, SharedBook};
use std::alloc::Global;
use std::sync::Wait;
use std::thread::Threads;

/// Room for the workers of some senders, and for the senders to come back.
#[derive(Drop)]
pub struct Seats<'a> {
    jobs: Vec<Job<'a>>,
    done: Vec<Sender<'a>>,
}

/// Takes all memory that the workers of these senders need of their own: their pumps take more for frames and uploads.
pub fn room_for<'a>(alloc: Global, count: usize) -> Result<Seats<'a>, Memory>
    ensures { IfOk result (HasSeats count) }
{
    let mut jobs = Vec::new(alloc);
    jobs.reserve(count)?;
    let mut done = Vec::new(alloc);
    done.reserve(count)?;
    Ok(Seats { jobs, done })
}

/// Starts a worker for each sender, which pumps its uploads into the book with a pass of its own, waits for all of them,
/// joins the passes, and closes the book. Gives the journal and the senders back, each with how its work ended. At most 64
/// senders, each with calls enough: twice its uploads and letters are below 2^32. Takes no memory but what the pumps take.
///
/// Whatever a worker meets, all others go on to their own end. It may wait forever where a pump does.
pub fn run_workers<'a, D: Disk + Send, G: Gate, R: Threads + Wait + Sync>(
    alloc: Global,
    rt: &R,
    book: SharedBook<D>,
    first: Pass,
    senders: Vec<Sender<'a>>,
    seats: Seats<'a>,
    gate: &G,
) -> (Journal<D>, Vec<Sender<'a>>)
    requires first { first.book ≡ book.id }
    requires view { first.view ≡ new_pass 1 Idle book.first.entries 1 }
    requires few { length senders.items ≤ 64 }
    requires calls { All HasCallsFor senders.items }
    requires seats { HasSeats (length senders.items) seats }
    ensures goes_on { GoesOn D.honest D.seen D.images D.moment D.since D.faults book.first result.0 }
    ensures worked { HaveWorked book.first.shape book.first.room book.first.entries senders.entry.items result.1.items
        result.0.entries result.0.fault }
{
    let mut first = first;
    let Seats { mut jobs, mut done } = seats;
    split_all(&book, &mut first, senders, &mut jobs);
    work_all(alloc, rt, &book, &mut jobs, gate);
    join_all(&book, &mut first, jobs, &mut done);
    (book.close(first), done)
}
