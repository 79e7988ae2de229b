//! The workers.
ghost use Rattle.std.specs.Prelude.{◌≡◌, ◌<◌, ℕ, length, All, slice_index_or};
ghost use Rattle.host_workers.specs.Working.{IsReady, Works};

use crate::sender::Job;
use lg_base::Gate;
use lg_disk::Disk;
use shared_book::SharedBook;
use std::alloc::Global;
use std::sync::Wait;
use std::thread;
use std::thread::Threads;
use upload_world::pump;

// The work of one host: it pumps the sender's uploads, and keeps how that ended.
fn work<D: Disk + Send, G: Gate, R: Wait>(
    alloc: Global,
    rt: &R,
    book: &SharedBook<D>,
    job: &mut Job<'_>,
    gate: &G,
)
    requires ready { IsReady book.now.id job.old }
    ensures works { Works book.now.first.shape book.now.first.room job.old job.new }
{
    let sender = &mut job.sender;
    sender.result = pump(
        alloc,
        rt,
        book,
        &mut job.pass,
        &mut sender.uploader,
        sender.letters,
        gate,
    );
    sender.uploader.len();
}

/// The work of all hosts at once, a worker for each.
pub(crate) fn work_all<D: Disk + Send, G: Gate, R: Threads + Wait + Sync>(
    alloc: Global,
    rt: &R,
    book: &SharedBook<D>,
    jobs: &mut Vec<Job<'_>>,
    gate: &G,
)
    requires ready { All (IsReady book.now.id) jobs.old.items }
    ensures length { length jobs.new.items ≡ length jobs.old.items }
    ensures works { (i : ℕ) (d : _) → i < length jobs.old.items →
        Works book.now.first.shape book.now.first.room (slice_index_or jobs.old.items i d) (slice_index_or jobs.new.items i d) }
{
    let workers = jobs.len();
    if workers == 0 {
        return;
    }
    thread::for_each_mut(
        rt,
        jobs,
        workers,
        &|_: usize, job: &mut Job<'_>|
            requires { IsReady book.now.id job.now }
            ensures { Works book.entry.now.first.shape book.entry.now.first.room job.entry.now job.exit.now }
        { work(alloc, rt, book, job, gate) },
    );
}
