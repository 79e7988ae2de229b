ghost use Rattle.std.specs.Prelude.{◌≡◌, IfOk, None};

use crate::{Served, SessionFault, inputs_come_to_one_end, serve_session};
use book_journal::Journal;
use column_book::ROOM;
use lg_base::{MemorySink, MemorySource};
use lg_disk::{Disk, MemoryDisk};
use lg_model::{Hash, Shape};
use shared_book::share;
use std::alloc::Global;
use std::sync::Wait;
use std::test::Fail;
use upload_frame::FrameFault;

// Hellos of host 1 for the shapes `2 1 ports` and `2 2 ports`, and its bye.
const HELLO: &[u8] = b"\x00\x0f\x01\x00\x01\x02\x00\x01\x00\x00\x00\x00\x00\x00\x00\x00\x00";

const OTHER_HELLO: &[u8] = b"\x00\x0f\x01\x00\x01\x02\x00\x02\x00\x00\x00\x00\x00\x00\x00\x00\x00";

const BYE: &[u8] = b"\x00\x03\x03\x00\x01";

// Its uploads 0 to 4, of a column each: of switch 1 and epoch 0; the same key with other counters; of epoch 1; of a sketch of
// another width; and the first one again.
const FIRST: &[u8] = b"\x00\x22\x02\x00\x01\x00\x00\x00\x00\x01\
    LG\x01\x02\x00\x01\x00\x01\x00\x00\x00\x00\x00\x00\x00\x00\x05\xdc\x00\x14\x00\x00\x05\xdc\x00\x14";

const CONFLICT: &[u8] = b"\x00\x22\x02\x00\x01\x00\x00\x00\x01\x01\
    LG\x01\x02\x00\x01\x00\x01\x00\x00\x00\x00\x00\x00\x00\x00\x02\xbc\x00\x14\x00\x00\x02\xbc\x00\x14";

const SECOND: &[u8] = b"\x00\x22\x02\x00\x01\x00\x00\x00\x02\x01\
    LG\x01\x02\x00\x01\x00\x01\x00\x00\x00\x01\x00\x00\x00\x00\x02\xbc\x00\x14\x00\x00\x02\xbc\x00\x14";

const MISFIT: &[u8] = b"\x00\x22\x02\x00\x01\x00\x00\x00\x03\x01\
    LG\x01\x02\x00\x02\x00\x01\x00\x00\x00\x02\x00\x00\x00\x00\x02\xbc\x00\x14\x00\x00\x02\xbc\x00\x14";

const AGAIN: &[u8] = b"\x00\x22\x02\x00\x01\x00\x00\x00\x04\x01\
    LG\x01\x02\x00\x01\x00\x01\x00\x00\x00\x00\x00\x00\x00\x00\x05\xdc\x00\x14\x00\x00\x05\xdc\x00\x14";

// The replies to them.
const WELCOME: &[u8] = b"\x00\x03\x81\x00\x01";

const OTHER_SHAPE: &[u8] =
    b"\x00\x10\x83\x00\x01\x00\x00\x00\x00\x03\x00\x00\x00\x00\x00\x00\x00\x00";

const GOODBYE: &[u8] = b"\x00\x03\x84\x00\x01";

const STORED: &[u8] = b"\x00\x08\x82\x00\x01\x00\x00\x00\x00\x00";

const CONFLICTS: &[u8] =
    b"\x00\x10\x83\x00\x01\x00\x00\x00\x01\x01\x00\x01\x00\x00\x00\x00\x00\x00";

const STORED_SECOND: &[u8] = b"\x00\x08\x82\x00\x01\x00\x00\x00\x02\x00";

const MISFITS: &[u8] = b"\x00\x10\x83\x00\x01\x00\x00\x00\x03\x03\x00\x00\x00\x00\x00\x00\x00\x00";

const KNOWN: &[u8] = b"\x00\x08\x82\x00\x01\x00\x00\x00\x04\x01";

const CLOSED: &[u8] = b"\x00\x10\x83\x00\x01\x00\x00\x00\x00\x04\x00\x00\x00\x00\x00\x00\x00\x00";

const CLOSED_SECOND: &[u8] =
    b"\x00\x10\x83\x00\x01\x00\x00\x00\x02\x04\x00\x00\x00\x00\x00\x00\x00\x00";

// What a session is over: the most bytes of a call, the call of the source and the call of the sink that fails, and the
// calls after which the disk stops.
#[derive(Clone, Copy)]
struct Around {
    piece: usize,
    failing_read: Option<u32>,
    failing_write: Option<u32>,
    disk_stops: Option<u32>,
}

const QUIET: Around = Around {
    piece: 4096,
    failing_read: None,
    failing_write: None,
    disk_stops: None,
};

fn listed(alloc: Global, call: Option<u32>) -> Result<Vec<u32>, Fail> {
    let mut calls = Vec::new(alloc);
    if let Some(call) = call {
        calls.push(call)?;
    }
    Ok(calls)
}

fn joined(alloc: Global, parts: &[&[u8]]) -> Result<Vec<u8>, Fail> {
    let mut bytes = Vec::new(alloc);
    for part in parts {
        bytes.extend_from_slice(part)?;
    }
    Ok(bytes)
}

// An empty journal of the shape `2 1 ports`.
fn journal(alloc: Global, stop: Option<u32>) -> Result<Journal<MemoryDisk>, Fail>
    ensures { IfOk result (λ journal. journal.fault ≡ None) }
{
    let shape = Shape::new(2, 1, Hash::Ports).ok_or("no shape")?;
    let mut disk = MemoryDisk::new(alloc, Vec::new(alloc))?;
    if let Some(calls) = stop {
        disk.stop_after(calls);
    }
    let Ok(journal) = Journal::open(alloc, disk, &shape, ROOM) else {
        return Err("not opened".into());
    };
    Ok(journal)
}

// What a session over these frames answers and writes.
fn serve<R: Wait>(
    rt: &R,
    alloc: Global,
    around: &Around,
    frames: &[&[u8]],
) -> Result<(Result<Served, SessionFault>, Vec<u8>), Fail> {
    if around.piece == 0 {
        return Err("no pieces".into());
    }
    let bytes = joined(alloc, frames)?;
    let mut source = MemorySource::new(bytes, around.piece, listed(alloc, around.failing_read)?);
    let mut sink = MemorySink::new(alloc, around.piece, listed(alloc, around.failing_write)?);
    let Ok((book, mut first)) = share(alloc, journal(alloc, around.disk_stops)?) else {
        return Err("not shared".into());
    };
    let answer = serve_session(alloc, rt, &book, &mut first, &mut source, &mut sink);
    book.close(first);
    Ok((answer, sink.bytes().to_vec(alloc)?))
}

// The frames, the answer and the replies.
type Row<'a> = (&'a [&'a [u8]], Result<Served, SessionFault>, &'a [&'a [u8]]);

fn check<R: Wait>(rt: &R, alloc: Global, around: &Around, rows: &[Row]) -> Result<(), Fail> {
    for (frames, answer, replies) in rows {
        let (was, written) = serve(rt, alloc, around, frames)?;
        if was != *answer || written != joined(alloc, replies)? {
            return Err("another answer, or other replies".into());
        }
    }
    Ok(())
}

#[test]
fn each_frame_has_its_reply(rt: HostRuntime) -> Result<(), Fail> {
    let rows: [Row; 5] = [
        (
            &[HELLO, FIRST, BYE],
            Ok(Served { frames: 3 }),
            &[WELCOME, STORED, GOODBYE],
        ),
        (
            &[HELLO, FIRST],
            Err(SessionFault::Early { at: 53 }),
            &[WELCOME, STORED],
        ),
        (&[BYE, HELLO], Ok(Served { frames: 1 }), &[GOODBYE]),
        (
            &[OTHER_HELLO, HELLO, BYE],
            Ok(Served { frames: 3 }),
            &[OTHER_SHAPE, WELCOME, GOODBYE],
        ),
        (
            &[FIRST, CONFLICT, SECOND, MISFIT, AGAIN, BYE],
            Ok(Served { frames: 6 }),
            &[STORED, CONFLICTS, STORED_SECOND, MISFITS, KNOWN, GOODBYE],
        ),
    ];
    for piece in [1, 7, 4096] {
        check(&rt, rt.alloc(), &Around { piece, ..QUIET }, &rows)?;
    }
    inputs_come_to_one_end();
    Ok(())
}

// A frame that fails its checks.
const fn frame(at: u64, fault: FrameFault) -> Result<Served, SessionFault> {
    Err(SessionFault::Frame { at, fault })
}

#[test]
fn nonsense_is_told(rt: HostRuntime) -> Result<(), Fail> {
    let column = &FIRST[10..];
    let count = FrameFault::Count { count: 17 };
    let rows: [Row; 8] = [
        (&[], Err(SessionFault::Early { at: 0 }), &[]),
        (&[&[0]], Err(SessionFault::Early { at: 1 }), &[]),
        (
            &[HELLO, &[0, 0]],
            frame(17, FrameFault::Length { length: 0 }),
            &[WELCOME],
        ),
        (
            &[HELLO, &[0, 3, 7]],
            frame(17, FrameFault::Kind { kind: 7 }),
            &[WELCOME],
        ),
        (
            &[HELLO, &[0, 4, 3]],
            frame(17, FrameFault::Length { length: 4 }),
            &[WELCOME],
        ),
        (
            &[FIRST, &FIRST[..9], &[17], column, BYE],
            frame(36, count),
            &[STORED],
        ),
        (
            &[&[0, 0x3c], &FIRST[2..9], &[2], column, column, BYE],
            frame(0, FrameFault::Twice { nth: 1 }),
            &[],
        ),
        (
            &[HELLO, FIRST, &BYE[..4]],
            Err(SessionFault::Early { at: 57 }),
            &[WELCOME, STORED],
        ),
    ];
    for piece in [1, 4096] {
        check(&rt, rt.alloc(), &Around { piece, ..QUIET }, &rows)?;
    }
    Ok(())
}

#[test]
fn the_outside_fails(rt: HostRuntime) -> Result<(), Fail> {
    let alloc = rt.alloc();
    let read = Around {
        piece: 17,
        failing_read: Some(1),
        ..QUIET
    };
    check(
        &rt,
        alloc,
        &read,
        &[(
            &[HELLO, FIRST, BYE],
            Err(SessionFault::ReadFault),
            &[WELCOME],
        )],
    )?;
    let write = Around {
        piece: 4,
        failing_write: Some(3),
        ..QUIET
    };
    check(
        &rt,
        alloc,
        &write,
        &[(
            &[HELLO, FIRST, BYE],
            Err(SessionFault::WriteFault),
            &[WELCOME, &STORED[..4]],
        )],
    )?;
    // An empty file is opened by ten calls.
    let disk = Around {
        disk_stops: Some(10),
        ..QUIET
    };
    check(
        &rt,
        alloc,
        &disk,
        &[(
            &[HELLO, FIRST, SECOND, BYE],
            Ok(Served { frames: 4 }),
            &[WELCOME, CLOSED, CLOSED_SECOND, GOODBYE],
        )],
    )
}

// So many times these bytes.
fn repeated(alloc: Global, bytes: &[u8], times: u32) -> Result<Vec<u8>, Fail> {
    let mut all = Vec::new(alloc);
    for _ in 0..times {
        all.extend_from_slice(bytes)?;
    }
    Ok(all)
}

// A host that never says bye is answered 1,000,000 times.
#[test]
fn a_host_that_never_ends(rt: HostRuntime) -> Result<(), Fail> {
    let alloc = rt.alloc();
    let hellos = repeated(alloc, HELLO, 1_000_000)?;
    let welcomes = repeated(alloc, WELCOME, 1_000_000)?;
    let rows: [Row; 1] = [(&[&hellos], Err(SessionFault::TooMany), &[&welcomes])];
    check(&rt, alloc, &QUIET, &rows)
}
