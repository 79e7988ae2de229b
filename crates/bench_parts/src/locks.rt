//! The parts of the lock of a shared book.
ghost use Rattle.std.specs.Prelude.{◌≡◌, ◌≢◌, ◌+◌, ◌<◌, ◌≤◌, All, None, IfSome, length, vec_len};

use crate::books::upload;
use crate::columns::Order;
use book_journal::{Applied, Journal};
use column_book::{ROOM, Shape};
use lg_disk::{Disk, MemoryDisk};
use lg_model::Hash;
use shared_book::{Pass, SharedBook, share};
use sketchlet_wire::Upload;
use std::alloc::{AllocFailed, Global};
use std::sync::Wait;
use std::thread::{self, Threads};

// A pass, the first of the uploads that it applies, how many they are, and how many of them it applies in one turn.
#[derive(Drop)]
struct Job {
    pass: Pass,
    from: u32,
    count: u32,
    turn: u32,
}

// An empty journal over a disk in memory.
fn empty(alloc: Global) -> Option<Journal<MemoryDisk>>
    ensures { IfSome result (λ j. j.fault ≡ None) }
{
    let shape = Shape::new(8, 4096, Hash::Ports)?;
    let disk = MemoryDisk::new(alloc, Vec::new(alloc)).ok()?;
    let Ok(journal) = Journal::open(alloc, disk, &shape, ROOM) else {
        return None;
    };
    Some(journal)
}

/// Applies `count` uploads of 16 new columns to a journal over a disk in memory, and answers how many columns it has then.
pub(crate) fn applied(alloc: Global, count: u32) -> Option<u64> {
    let mut journal = empty(alloc)?;
    for seq in 0..count {
        let Ok(Applied::Stored(_)) = journal.apply(0, &upload(alloc, Order::Near, seq)?) else {
            return None;
        };
    }
    Some(u64::from(journal.book().count()))
}

// Applies an upload with the pass of a job. Where it isn't stored, the count of columns tells.
fn apply_one<D: Disk, R: Wait>(rt: &R, alloc: Global, book: &SharedBook<D>, job: &mut Job, seq: u32)
    requires book { job.old.pass.book ≡ book.now.id }
    ensures book { job.new.pass.book ≡ book.now.id }
    ensures number { job.new.pass.view.number ≡ job.old.pass.view.number }
{
    if job.pass.left() == 0 {
        return;
    }
    let Some(upload) = upload(alloc, Order::Near, seq) else {
        return;
    };
    let _ = book.apply(rt, &mut job.pass, &upload);
}

// As many uploads, from that one on.
fn some_uploads(alloc: Global, from: u32, count: u32) -> Option<Vec<Upload>> {
    let mut uploads = Vec::new(alloc);
    for n in 0..count {
        let upload = upload(alloc, Order::Near, from.wrapping_add(n))?;
        uploads.push(upload).ok()?;
    }
    Some(uploads)
}

// Applies uploads with the pass of a job in one turn.
fn apply_turn<D: Disk, R: Wait>(
    rt: &R,
    alloc: Global,
    book: &SharedBook<D>,
    job: &mut Job,
    seq: u32,
)
    requires book { job.old.pass.book ≡ book.now.id }
    ensures book { job.new.pass.book ≡ book.now.id }
    ensures number { job.new.pass.view.number ≡ job.old.pass.view.number }
{
    let Some(uploads) = some_uploads(alloc, seq, job.turn) else {
        return;
    };
    if (job.pass.left() as usize) < uploads.len() {
        return;
    }
    let _ = book.apply_each(alloc, rt, &mut job.pass, &uploads);
}

fn work<D: Disk, R: Wait>(rt: &R, alloc: Global, book: &SharedBook<D>, job: &mut Job)
    requires book { job.old.pass.book ≡ book.now.id }
    ensures book { job.new.pass.book ≡ book.now.id }
    ensures number { job.new.pass.view.number ≡ job.old.pass.view.number }
{
    if job.turn == 0 {
        for n in 0..job.count {
            apply_one(rt, alloc, book, job, job.from.wrapping_add(n));
        }
        return;
    }
    for n in 0..job.count / job.turn {
        let seq = n.wrapping_mul(job.turn).wrapping_add(job.from);
        apply_turn(rt, alloc, book, job, seq);
    }
}

fn work_all<D: Disk + Send, R: Threads + Wait + Sync>(
    rt: &R,
    alloc: Global,
    book: &SharedBook<D>,
    jobs: &mut [Job],
)
    requires { All (λ j. (j.pass.book ≡ book.now.id) × (j.pass.view.number ≢ 1)) jobs.old }
    ensures same { length jobs.new ≡ length jobs.old }
    ensures jobs { All (λ j. (j.pass.book ≡ book.now.id) × (j.pass.view.number ≢ 1)) jobs.new }
{
    thread::for_each_mut(
        rt,
        jobs,
        64,
        &|_: usize, job: &mut Job|
            requires { (job.now.pass.book ≡ book.now.id) × (job.now.pass.view.number ≢ 1) }
            ensures { (job.exit.now.pass.book ≡ book.entry.now.id) × (job.exit.now.pass.view.number ≢ 1) }
        { work(rt, alloc, book, job) },
    );
}

fn split_one<D: Disk>(
    book: &SharedBook<D>,
    first: &mut Pass,
    jobs: &mut Vec<Job>,
    from: u32,
    count: u32,
    turn: u32,
)
    requires book { first.old.book ≡ book.now.id }
    requires first { (first.old.view.number ≡ 1) × (1 ≤ first.old.view.made) × (first.old.view.made < 65) }
    requires made { length first.old.view.joined + vec_len jobs.old + 1 ≡ first.old.view.made }
    requires jobs { All (λ j. (j.pass.book ≡ book.now.id) × (j.pass.view.number ≢ 1)) jobs.old.items }
    ensures book { first.new.book ≡ book.now.id }
    ensures first { (first.new.view.number ≡ 1) × (first.new.view.made ≡ first.old.view.made + 1) }
    ensures made { length first.new.view.joined + vec_len jobs.new + 1 ≡ first.new.view.made }
    ensures jobs { All (λ j. (j.pass.book ≡ book.now.id) × (j.pass.view.number ≢ 1)) jobs.new.items }
{
    let pass = book.split(first);
    if let Err(failed) = jobs.push(Job {
        pass,
        from,
        count,
        turn,
    }) {
        let AllocFailed { value } = failed;
        book.join(first, value.pass);
    }
}

// A job for each pass, with as many uploads as the others.
fn split_all<D: Disk>(
    book: &SharedBook<D>,
    first: &mut Pass,
    jobs: &mut Vec<Job>,
    passes: u32,
    each: u32,
    turn: u32,
)
    requires few { passes ≤ 64 }
    requires book { first.old.book ≡ book.now.id }
    requires first { (first.old.view.number ≡ 1) × (first.old.view.made ≡ 1) }
    requires made { length first.old.view.joined + vec_len jobs.old + 1 ≡ first.old.view.made }
    requires jobs { All (λ j. (j.pass.book ≡ book.now.id) × (j.pass.view.number ≢ 1)) jobs.old.items }
    ensures book { first.new.book ≡ book.now.id }
    ensures first { first.new.view.number ≡ 1 }
    ensures made { length first.new.view.joined + vec_len jobs.new + 1 ≡ first.new.view.made }
    ensures jobs { All (λ j. (j.pass.book ≡ book.now.id) × (j.pass.view.number ≢ 1)) jobs.new.items }
{
    for i in 0..passes {
        split_one(book, first, jobs, i.wrapping_mul(each), each, turn);
    }
}

fn join_all<D: Disk>(book: &SharedBook<D>, first: &mut Pass, jobs: &mut Vec<Job>)
    requires book { first.old.book ≡ book.now.id }
    requires first { first.old.view.number ≡ 1 }
    requires made { length first.old.view.joined + vec_len jobs.old + 1 ≡ first.old.view.made }
    requires jobs { All (λ j. (j.pass.book ≡ book.now.id) × (j.pass.view.number ≢ 1)) jobs.old.items }
    ensures book { first.new.book ≡ book.now.id }
    ensures first { first.new.view.number ≡ 1 }
    ensures made { length first.new.view.joined + 1 ≡ first.new.view.made }
{
    while let Some(job) = jobs.pop() {
        let Job { pass, .. } = job;
        book.join(first, pass);
    }
}

/// Does the same through a shared book, with `passes` passes, 1 to 64, each of which applies its share in a thread of its
/// own: `turn` uploads a turn by `apply_each`, or, for 0, each by `apply`. The count has to be a multiple of what all
/// passes apply in a turn.
pub(crate) fn shared<R: Threads + Wait + Sync>(
    rt: &R,
    alloc: Global,
    count: u32,
    passes: u32,
    turn: u32,
) -> Option<u64> {
    if passes == 0 || passes > 64 || count % passes != 0 {
        return None;
    }
    let mut jobs = Vec::with_capacity(alloc, 64).ok()?;
    let Ok((book, mut first)) = share(alloc, empty(alloc)?) else {
        return None;
    };
    split_all(&book, &mut first, &mut jobs, passes, count / passes, turn);
    work_all(rt, alloc, &book, jobs.as_mut_slice());
    join_all(&book, &mut first, &mut jobs);
    let (kept, _disk) = book.close(first).close();
    Some(u64::from(kept.count()))
}
