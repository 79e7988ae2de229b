// Workers of two hosts, and of none, in threads.
ghost use Rattle.std.specs.Prelude.{◌≤◌, ◌+◌, length, All, IfOk};
ghost use Rattle.host_workers.specs.Working.{HasCallsFor};

use crate::{Sender, room_for, run_workers};
use book_journal::Journal;
use column_book::ROOM;
use host_collect::{PackedUploads, pack_columns};
use lg_base::OpenGate;
use lg_disk::MemoryDisk;
use lg_model::{Bucket, Dims, Hash, Key, Letter, Shape};
use shared_book::share;
use sketchlet_wire::{Column, Packed};
use std::alloc::Global;
use std::sync::Wait;
use std::test::Fail;
use std::thread::Threads;
use upload_world::Uploader;

// Three columns of a host, each of an epoch of its own, packed.
fn pool(alloc: Global, host: u16) -> Result<Vec<Packed>, Fail> {
    let mut pool = Vec::new(alloc);
    for epoch in 0..3u32 {
        let key = Key {
            switch: host,
            epoch,
            index: 0,
        };
        let bucket = Bucket {
            bytes: 1500,
            delay: 20,
        };
        let column = Column::new(key, Dims { rows: 2, width: 1 }, [bucket; 8]).ok_or("no column")?;
        pool.push(Packed::of(&column))?;
    }
    Ok(pool)
}

// What a host sends: what came to it, at these places of a pool, over a link with these letters.
fn sender<'a>(
    alloc: Global,
    host: u16,
    pool: &'a [Packed],
    places: &'a [u32],
    letters: &'a [Letter],
) -> Result<Sender<'a>, Fail>
    requires few { length letters.now ≤ 8 }
    ensures { IfOk result HasCallsFor }
{
    if places.len() > 48 || !pack_columns(pool, places) {
        return Err("no packed columns".into());
    }
    let uploads = PackedUploads::new(alloc, host, pool, places)?;
    let uploader = Uploader::over(alloc, host, uploads)?;
    Ok(Sender {
        uploader,
        letters,
        result: Ok(()),
    })
}

fn add<'a>(
    alloc: Global,
    senders: &mut Vec<Sender<'a>>,
    host: u16,
    pool: &'a [Packed],
    places: &'a [u32],
    letters: &'a [Letter],
) -> Result<(), Fail>
    requires few { length letters.now ≤ 8 }
    requires calls { All HasCallsFor senders.old.items }
    ensures calls { All HasCallsFor senders.new.items }
    ensures many { length senders.new.items ≤ length senders.old.items + 1 }
{
    let sender = sender(alloc, host, pool, places, letters)?;
    senders.push(sender)?;
    Ok(())
}

// How many entries an empty book has after these senders' workers, and how many of them brought all their uploads.
fn run<R: Threads + Wait + Sync>(
    rt: &R,
    alloc: Global,
    senders: Vec<Sender<'_>>,
) -> Result<(u32, u32), Fail>
    requires few { length senders.items ≤ 64 }
    requires calls { All HasCallsFor senders.items }
{
    let shape = Shape::new(2, 1, Hash::Ports).ok_or("no shape")?;
    let disk = MemoryDisk::new(alloc, Vec::new(alloc))?;
    let seats = room_for(alloc, senders.len())?;
    let Ok(journal) = Journal::open(alloc, disk, &shape, ROOM) else {
        return Err("not opened".into());
    };
    let Ok((book, first)) = share(alloc, journal) else {
        return Err("not shared".into());
    };
    let (journal, senders) = run_workers(alloc, rt, book, first, senders, seats, &OpenGate);
    let (kept, _disk) = journal.close();
    let mut done = 0u32;
    for sender in &senders {
        if sender.result.is_ok() && sender.uploader.done() {
            done = done.saturating_add(1);
        }
    }
    Ok((kept.records(), done))
}

#[test]
fn workers_bring_all_uploads(rt: HostRuntime) -> Result<(), Fail> {
    let alloc = rt.alloc();
    let letters = [Letter::Lose, Letter::LoseReply, Letter::Twice, Letter::Hold];
    // Each column comes twice, so that a host has three uploads.
    let places = [0, 0, 1, 1, 2];
    let first = pool(alloc, 1)?;
    let second = pool(alloc, 2)?;
    let mut senders = Vec::new(alloc);
    add(alloc, &mut senders, 1, &first, &places, &letters)?;
    add(alloc, &mut senders, 2, &second, &places, &letters)?;
    assert_eq!(rt; run(&rt, alloc, senders)?, (4, 2));
    assert_eq!(rt; run(&rt, alloc, Vec::new(alloc))?, (0, 0));
    Ok(())
}
