// Passes that apply uploads in threads.
ghost use Rattle.std.specs.Prelude.{◌≡◌, ◌≢◌, ◌+◌, ◌<◌, ◌≤◌, All, length, vec_len};

use crate::{Pass, SharedBook, share};
use book_journal::{Applied, Journal};
use column_book::{Book, ROOM};
use lg_disk::{Disk, MemoryDisk};
use lg_model::{Bucket, Dims, Hash, Key, Shape};
use sketchlet_wire::{Column, Upload};
use std::alloc::{AllocFailed, Global};
use std::sync::Wait;
use std::test::Fail;
use std::thread::{self, Threads};

// A pass with which a host's uploads are applied, how many they are, and how many were stored.
#[derive(Drop)]
struct Job {
    pass: Pass,
    host: u16,
    count: u32,
    stored: u32,
}

// The upload of this number of a host: one column of its own.
fn upload(alloc: Global, host: u16, seq: u32) -> Option<Upload> {
    let key = Key {
        switch: host,
        epoch: seq,
        index: 0,
    };
    let bucket = Bucket {
        bytes: 1500,
        delay: 20,
    };
    let column = Column::new(key, Dims { rows: 2, width: 1 }, [bucket; 8])?;
    Upload::new(host, seq, [column].to_vec(alloc).ok()?).ok()
}

fn apply_one<D: Disk, R: Wait>(rt: &R, alloc: Global, book: &SharedBook<D>, job: &mut Job, seq: u32)
    requires book { job.old.pass.book ≡ book.now.id }
    ensures book { job.new.pass.book ≡ book.now.id }
    ensures number { job.new.pass.view.number ≡ job.old.pass.view.number }
{
    if job.pass.left() == 0 {
        return;
    }
    let Some(upload) = upload(alloc, job.host, seq) else {
        return;
    };
    if let Ok(Applied::Stored(_)) = book.apply(rt, &mut job.pass, &upload) {
        job.stored = job.stored.saturating_add(1);
    }
}

fn work<D: Disk, R: Wait>(rt: &R, alloc: Global, book: &SharedBook<D>, job: &mut Job)
    requires book { job.old.pass.book ≡ book.now.id }
    ensures book { job.new.pass.book ≡ book.now.id }
    ensures number { job.new.pass.view.number ≡ job.old.pass.view.number }
{
    for seq in 0..job.count {
        apply_one(rt, alloc, book, job, seq);
    }
}

fn work_all<D: Disk + Send, R: Threads + Wait + Sync>(
    rt: &R,
    alloc: Global,
    book: &SharedBook<D>,
    jobs: &mut [Job],
)
    requires { All (λ j. (j.pass.book ≡ book.now.id) × (j.pass.view.number ≢ 1)) jobs.old }
    ensures same { length jobs.new ≡ length jobs.old }
    ensures jobs { All (λ j. (j.pass.book ≡ book.now.id) × (j.pass.view.number ≢ 1)) jobs.new }
{
    thread::for_each_mut(
        rt,
        jobs,
        64,
        &|_: usize, job: &mut Job|
            requires { (job.now.pass.book ≡ book.now.id) × (job.now.pass.view.number ≢ 1) }
            ensures { (job.exit.now.pass.book ≡ book.entry.now.id) × (job.exit.now.pass.view.number ≢ 1) }
        { work(rt, alloc, book, job) },
    );
}

fn split_one<D: Disk>(
    book: &SharedBook<D>,
    first: &mut Pass,
    jobs: &mut Vec<Job>,
    host: u16,
    count: u32,
)
    requires book { first.old.book ≡ book.now.id }
    requires first { (first.old.view.number ≡ 1) × (1 ≤ first.old.view.made) × (first.old.view.made < 65) }
    requires made { length first.old.view.joined + vec_len jobs.old + 1 ≡ first.old.view.made }
    requires jobs { All (λ j. (j.pass.book ≡ book.now.id) × (j.pass.view.number ≢ 1)) jobs.old.items }
    ensures book { first.new.book ≡ book.now.id }
    ensures first { (first.new.view.number ≡ 1) × (first.new.view.made ≡ first.old.view.made + 1) }
    ensures made { length first.new.view.joined + vec_len jobs.new + 1 ≡ first.new.view.made }
    ensures jobs { All (λ j. (j.pass.book ≡ book.now.id) × (j.pass.view.number ≢ 1)) jobs.new.items }
{
    let pass = book.split(first);
    let job = Job {
        pass,
        host,
        count,
        stored: 0,
    };
    if let Err(failed) = jobs.push(job) {
        let AllocFailed { value } = failed;
        book.join(first, value.pass);
    }
}

fn split_all<D: Disk>(
    book: &SharedBook<D>,
    first: &mut Pass,
    jobs: &mut Vec<Job>,
    passes: u16,
    count: u32,
)
    requires few { passes ≤ 64 }
    requires book { first.old.book ≡ book.now.id }
    requires first { (first.old.view.number ≡ 1) × (first.old.view.made ≡ 1) }
    requires made { length first.old.view.joined + vec_len jobs.old + 1 ≡ first.old.view.made }
    requires jobs { All (λ j. (j.pass.book ≡ book.now.id) × (j.pass.view.number ≢ 1)) jobs.old.items }
    ensures book { first.new.book ≡ book.now.id }
    ensures first { first.new.view.number ≡ 1 }
    ensures made { length first.new.view.joined + vec_len jobs.new + 1 ≡ first.new.view.made }
    ensures jobs { All (λ j. (j.pass.book ≡ book.now.id) × (j.pass.view.number ≢ 1)) jobs.new.items }
{
    for i in 0..passes {
        split_one(book, first, jobs, i + 2, count);
    }
}

// How many uploads were stored.
fn join_all<D: Disk>(book: &SharedBook<D>, first: &mut Pass, jobs: &mut Vec<Job>) -> u32
    requires book { first.old.book ≡ book.now.id }
    requires first { first.old.view.number ≡ 1 }
    requires made { length first.old.view.joined + vec_len jobs.old + 1 ≡ first.old.view.made }
    requires jobs { All (λ j. (j.pass.book ≡ book.now.id) × (j.pass.view.number ≢ 1)) jobs.old.items }
    ensures book { first.new.book ≡ book.now.id }
    ensures first { first.new.view.number ≡ 1 }
    ensures made { length first.new.view.joined + 1 ≡ first.new.view.made }
{
    let mut stored = 0u32;
    while let Some(job) = jobs.pop() {
        let Job {
            pass,
            stored: more,
            ..
        } = job;
        book.join(first, pass);
        stored = stored.saturating_add(more);
    }
    stored
}

// Opens an empty book, lets so many passes apply that many uploads each, every pass in a thread of its own, and closes the
// book. How many uploads were stored, and the book.
fn run<R: Threads + Wait + Sync>(
    rt: &R,
    alloc: Global,
    passes: u16,
    count: u32,
) -> Result<(u32, Book), Fail>
    requires few { passes ≤ 64 }
{
    let shape = Shape::new(2, 1, Hash::Ports).ok_or("no shape")?;
    let disk = MemoryDisk::new(alloc, Vec::new(alloc))?;
    let mut jobs = Vec::with_capacity(alloc, 64)?;
    let Ok(journal) = Journal::open(alloc, disk, &shape, ROOM) else {
        return Err("not opened".into());
    };
    let Ok((book, mut first)) = share(alloc, journal) else {
        return Err("not shared".into());
    };
    split_all(&book, &mut first, &mut jobs, passes, count);
    work_all(rt, alloc, &book, jobs.as_mut_slice());
    let stored = join_all(&book, &mut first, &mut jobs);
    let (kept, _disk) = book.close(first).close();
    Ok((stored, kept))
}

// Whether the entries are all of these passes, as many of each, each pass's with rising seqs.
fn are_even(book: &Book, passes: u16, count: u32) -> bool {
    let mut next = [0u32; 66];
    for i in 0..book.records() {
        let head = book.head(i);
        if head.pass < 66 {
            let at = head.pass as usize;
            if head.seq != next[at] || u32::from(head.host) != head.pass || head.count != 1 {
                return false;
            }
            next[at] = next[at].saturating_add(1);
        } else {
            return false;
        }
    }
    for pass in 0..66u16 {
        let want = if 2 <= pass && pass < passes.saturating_add(2) {
            count
        } else {
            0
        };
        if next[pass as usize] != want {
            return false;
        }
    }
    true
}

#[test]
fn passes_in_threads_store_each_upload_once(rt: HostRuntime) -> Result<(), Fail> {
    let rows: [(u16, u32); 3] = [(2, 500), (64, 50), (1, 10)];
    for (passes, count) in rows {
        if passes <= 64 {
            let (stored, book) = run(&rt, rt.alloc(), passes, count)?;
            assert_eq!(rt; stored, u32::from(passes) * count);
            assert_eq!(rt; book.records(), u32::from(passes) * count);
            assert!(rt; are_even(&book, passes, count));
        }
    }
    Ok(())
}
