// One worker for each host, over one book.
ghost use Rattle.std.specs.Prelude.{◌≡◌, ◌≢◌, ◌+◌, ◌<◌, ◌≤◌, All, length, vec_len};
ghost use Rattle.link_deliveries.specs.Waiting.{refusals};

use super::pumping::{after, digits, journal, uploader, uploads};
use crate::{Book, Uploader, WorkFault, pump};
use lg_base::OpenGate;
use lg_disk::Disk;
use lg_model::Letter;
use shared_book::{Pass, SharedBook, share};
use std::alloc::{AllocFailed, Global};
use std::sync::Wait;
use std::test::Fail;
use std::thread::{self, Threads};

// A host's work: its pass, its uploads, and what came of the pump.
#[derive(Drop)]
struct Job {
    pass: Pass,
    uploader: Uploader,
    result: Option<Result<(), WorkFault>>,
}

const LETTERS: [Letter; 4] = [Letter::Lose, Letter::LoseReply, Letter::Twice, Letter::Hold];

fn work<D: Disk + Send, R: Wait>(rt: &R, alloc: Global, book: &SharedBook<D>, job: &mut Job)
    requires book { job.old.pass.book ≡ book.now.id }
    requires none { refusals job.old.uploader.states ≡ 0 }
    ensures book { job.new.pass.book ≡ book.now.id }
    ensures number { job.new.pass.view.number ≡ job.old.pass.view.number }
{
    if job.uploader.len() > 1000 || job.pass.left() < 10_000 {
        return;
    }
    job.result = Some(pump(
        alloc,
        rt,
        book,
        &mut job.pass,
        &mut job.uploader,
        &LETTERS,
        &OpenGate,
    ));
}

fn work_all<D: Disk + Send, R: Threads + Wait + Sync>(
    rt: &R,
    alloc: Global,
    book: &SharedBook<D>,
    jobs: &mut [Job],
)
    requires { All (λ j. (j.pass.book ≡ book.now.id) × (j.pass.view.number ≢ 1) × (refusals j.uploader.states ≡ 0))
        jobs.old }
    ensures same { length jobs.new ≡ length jobs.old }
    ensures jobs { All (λ j. (j.pass.book ≡ book.now.id) × (j.pass.view.number ≢ 1)) jobs.new }
{
    thread::for_each_mut(
        rt,
        jobs,
        2,
        &|_: usize, job: &mut Job|
            requires { (job.now.pass.book ≡ book.now.id) × (job.now.pass.view.number ≢ 1) × (refusals job.now.uploader.states ≡ 0) }
            ensures { (job.exit.now.pass.book ≡ book.entry.now.id) × (job.exit.now.pass.view.number ≢ 1) }
        { work(rt, alloc, book, job) },
    );
}

fn work_in<D: Disk + Send, R: Threads + Wait + Sync>(
    rt: &R,
    alloc: Global,
    book: &SharedBook<D>,
    jobs: &mut Vec<Job>,
)
    requires { All (λ j. (j.pass.book ≡ book.now.id) × (j.pass.view.number ≢ 1) × (refusals j.uploader.states ≡ 0))
        jobs.old.items }
    ensures same { vec_len jobs.new ≡ vec_len jobs.old }
    ensures jobs { All (λ j. (j.pass.book ≡ book.now.id) × (j.pass.view.number ≢ 1)) jobs.new.items }
{
    work_all(rt, alloc, book, jobs.as_mut_slice());
}

fn split_one<D: Disk>(
    book: &SharedBook<D>,
    first: &mut Pass,
    jobs: &mut Vec<Job>,
    uploader: Uploader,
)
    requires book { first.old.book ≡ book.now.id }
    requires first { (first.old.view.number ≡ 1) × (1 ≤ first.old.view.made) × (first.old.view.made < 65) }
    requires made { length first.old.view.joined + vec_len jobs.old + 1 ≡ first.old.view.made }
    requires none { refusals uploader.states ≡ 0 }
    requires jobs { All (λ j. (j.pass.book ≡ book.now.id) × (j.pass.view.number ≢ 1) × (refusals j.uploader.states ≡ 0))
        jobs.old.items }
    ensures book { first.new.book ≡ book.now.id }
    ensures first { (first.new.view.number ≡ 1) × (first.new.view.made ≡ first.old.view.made + 1) }
    ensures made { length first.new.view.joined + vec_len jobs.new + 1 ≡ first.new.view.made }
    ensures jobs { All (λ j. (j.pass.book ≡ book.now.id) × (j.pass.view.number ≢ 1) × (refusals j.uploader.states ≡ 0))
        jobs.new.items }
{
    let pass = book.split(first);
    let job = Job {
        pass,
        uploader,
        result: None,
    };
    if let Err(failed) = jobs.push(job) {
        let AllocFailed { value } = failed;
        book.join(first, value.pass);
    }
}

// How many workers had all their uploads acknowledged, after six calls.
fn join_all<D: Disk>(book: &SharedBook<D>, first: &mut Pass, jobs: &mut Vec<Job>) -> u32
    requires book { first.old.book ≡ book.now.id }
    requires first { first.old.view.number ≡ 1 }
    requires made { length first.old.view.joined + vec_len jobs.old + 1 ≡ first.old.view.made }
    requires jobs { All (λ j. (j.pass.book ≡ book.now.id) × (j.pass.view.number ≢ 1)) jobs.old.items }
    ensures book { first.new.book ≡ book.now.id }
    ensures first { first.new.view.number ≡ 1 }
    ensures made { length first.new.view.joined + 1 ≡ first.new.view.made }
{
    let mut done = 0u32;
    while let Some(job) = jobs.pop() {
        let Job {
            pass,
            uploader,
            result,
        } = job;
        if result == Some(Ok(())) && uploader.done() && u32::MAX - pass.left() == 6 {
            done = done.saturating_add(1);
        }
        book.join(first, pass);
    }
    done
}

// Two workers, with a pass each. How many came to their end, and the book.
fn run<R: Threads + Wait + Sync>(
    rt: &R,
    alloc: Global,
    one: Uploader,
    two: Uploader,
) -> Result<(u32, Book), Fail>
    requires one { refusals one.states ≡ 0 }
    requires two { refusals two.states ≡ 0 }
{
    let mut jobs = Vec::with_capacity(alloc, 2)?;
    let Ok((book, mut first)) = share(alloc, journal(alloc, None)?) else {
        return Err("not shared".into());
    };
    split_one(&book, &mut first, &mut jobs, one);
    split_one(&book, &mut first, &mut jobs, two);
    work_in(rt, alloc, &book, &mut jobs);
    let done = join_all(&book, &mut first, &mut jobs);
    let (kept, _disk) = book.close(first).close();
    Ok((done, kept))
}

// The uploads of a host's entries, in order. Each entry is of the pass after its host's name.
fn stored_of(book: &Book, host: u16) -> Option<u64> {
    let mut number = 0;
    for at in 0..book.records() {
        let head = book.head(at);
        if head.pass != u32::from(head.host) + 1 {
            return None;
        }
        if head.host == host {
            number = after(number, head.seq);
        }
    }
    Some(number)
}

#[test]
fn each_host_has_a_worker(rt: HostRuntime) -> Result<(), Fail> {
    let alloc = rt.alloc();
    let one = uploads(alloc, 1, &[(0, 5), (1, 5), (2, 5), (3, 5)])?;
    let two = uploads(alloc, 2, &[(4, 5), (5, 5), (6, 5), (7, 5)])?;
    let (done, book) = run(
        &rt,
        alloc,
        uploader(alloc, 1, one)?,
        uploader(alloc, 2, two)?,
    )?;
    assert_eq!(rt; (done, book.records()), (2, 8));
    for host in 1..=2 {
        assert_eq!(rt; stored_of(&book, host), Some(digits("1230")));
    }
    Ok(())
}
