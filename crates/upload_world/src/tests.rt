ghost use Rattle.std.specs.Prelude.{◌≡◌, ◌≢◌, ◌∷◌, [], IfOk};
ghost use Rattle.std.specs.List.{AllByRecursion};
ghost use Rattle.uploader_core.specs.Uploader.{NoneAcked};
ghost use Rattle.upload_world.specs.Law.{HostsDiffer};

use crate::{Book, Event, Uploader, World, acknowledged_is_kept};
use column_book::Head;
use lg_model::{Bucket, Dims, Hash, Key, Shape};
use sketchlet_wire::{Column, Upload};
use std::alloc::Global;
use std::test::Fail;
use upload_frame::Reply;
use uploader_core::are_own;

mod keeping;
mod pumping;
mod workers;

const WIDTH: u16 = 8;

fn column(epoch: u32, index: u16, bytes: u32) -> Option<Column> {
    let key = Key {
        switch: 1,
        epoch,
        index,
    };
    let dims = Dims {
        rows: 2,
        width: WIDTH,
    };
    Column::new(key, dims, [Bucket { bytes, delay: 20 }; 8])
}

fn book(alloc: Global, room: u32) -> Result<Book, Fail> {
    let shape = Shape::new(2, WIDTH, Hash::Ports).ok_or("no shape")?;
    if room < 1 || room > 1000 {
        return Err("no room".into());
    }
    Ok(Book::new(alloc, &shape, room)?)
}

fn uploader(alloc: Global, host: u16, uploads: Vec<Upload>) -> Result<Uploader, Fail>
    ensures { IfOk result NoneAcked }
{
    if !are_own(host, &uploads) {
        return Err("no uploads of that host".into());
    }
    Ok(Uploader::new(alloc, host, uploads)?)
}

// ---- the worked rows

// A world of one uploader, of host 1, whose uploads are all of one column.
fn one_column(alloc: Global, count: u32) -> Result<World, Fail> {
    let mut uploads = Vec::new(alloc);
    for seq in 0..count {
        let columns = [column(0, 0, 1500).ok_or("no column")?].to_vec(alloc)?;
        uploads.push(Upload::new(1, seq, columns).ok().ok_or("no upload")?)?;
    }
    let mut uploaders = Vec::new(alloc);
    uploaders.push(uploader(alloc, 1, uploads)?)?;
    Ok(World::new(alloc, uploaders, book(alloc, 100)?)?)
}

// An event, its answer, and how many frames, replies and entries there are after it.
type Row = (Event, bool, (u32, u32, u32));

// Lets an event happen, where there is room.
fn step(world: &mut World, event: Event) -> Result<bool, Fail> {
    if world.frames() > 100_000 || world.replies() > 100_000 {
        return Err("too many".into());
    }
    Ok(world.step(&event)?)
}

fn follow(world: &mut World, rows: &[Row]) -> Result<(), Fail> {
    for (event, answer, counts) in rows {
        let was = step(world, *event)?;
        let are = (world.frames(), world.replies(), world.book().records());
        if was != *answer || are != *counts {
            return Err("another answer".into());
        }
    }
    Ok(())
}

const SEND: Event = Event::Send { at: 0 };

const TICK: Event = Event::Tick { at: 0 };

const fn deliver(frame: u32) -> Event {
    Event::Deliver { frame }
}

const fn back(reply: u32) -> Event {
    Event::Back { reply }
}

const fn crash_in(frame: u32, kept: bool) -> Event {
    Event::CrashIn { frame, kept }
}

// The one entry of a book: of the upload of that number.
const fn entry_of(seq: u32) -> Head {
    Head {
        pass: 0,
        host: 1,
        seq,
        count: 1,
    }
}

const fn acknowledged(seq: u32, known: bool) -> Option<Reply> {
    Some(Reply::Acknowledged {
        host: 1,
        seq,
        known,
    })
}

#[test]
fn loses_repeats_and_holds(rt: HostRuntime) -> Result<(), Fail> {
    let mut world = one_column(rt.alloc(), 4)?;
    let rows = [
        (SEND, true, (1, 0, 0)),
        (SEND, true, (2, 0, 0)),
        (SEND, true, (3, 0, 0)),
        (SEND, true, (4, 0, 0)),
        (deliver(1), true, (4, 1, 1)),
        (deliver(2), true, (4, 2, 1)),
        (back(1), true, (4, 2, 1)),
        (deliver(2), true, (4, 3, 1)),
        (back(2), true, (4, 3, 1)),
        (deliver(3), true, (4, 4, 1)),
        (back(3), true, (4, 4, 1)),
        (TICK, true, (4, 4, 1)),
        (SEND, true, (5, 4, 1)),
        (deliver(4), true, (5, 5, 1)),
        (back(4), true, (5, 5, 1)),
        (SEND, true, (6, 5, 1)),
        (deliver(5), true, (6, 6, 1)),
        (back(5), true, (6, 6, 1)),
        (SEND, false, (6, 6, 1)),
        (back(6), false, (6, 6, 1)),
        (deliver(6), false, (6, 6, 1)),
        (crash_in(6, true), false, (6, 6, 1)),
        (Event::Send { at: 1 }, false, (6, 6, 1)),
        (Event::Tick { at: 1 }, false, (6, 6, 1)),
    ];
    follow(&mut world, &rows)?;
    for seq in 0..4 {
        assert_eq!(rt; world.acked(0, seq), true);
    }
    assert_eq!(rt; (world.acked(0, 4), world.acked(1, 0)), (false, false));
    if world.book().records() != 1 {
        return Err("not one entry".into());
    }
    assert_eq!(rt; world.book().head(0), entry_of(1));
    let replies = [
        (1, false),
        (2, true),
        (2, true),
        (3, true),
        (0, true),
        (1, true),
    ];
    for (at, (seq, known)) in replies.iter().enumerate() {
        assert_eq!(rt; world.reply(at as u32), acknowledged(*seq, *known));
    }
    acknowledged_is_kept();
    Ok(())
}

#[test]
fn known_after_a_crash(rt: HostRuntime) -> Result<(), Fail> {
    let mut world = one_column(rt.alloc(), 1)?;
    let rows = [
        (SEND, true, (1, 0, 0)),
        (crash_in(0, false), true, (1, 0, 0)),
        (crash_in(0, true), true, (1, 0, 1)),
        (Event::Crash, true, (1, 0, 1)),
        (deliver(0), true, (1, 1, 1)),
        (back(0), true, (1, 1, 1)),
    ];
    follow(&mut world, &rows)?;
    assert_eq!(rt; world.acked(0, 0), true);
    assert_eq!(rt;
        (world.reply(0), world.reply(1)),
        (acknowledged(0, true), None)
    );
    if world.book().records() != 1 {
        return Err("not one entry".into());
    }
    assert_eq!(rt; world.book().head(0), entry_of(0));
    Ok(())
}

// ---- a long random list of events

const COUNT: u32 = 12;

// The columns of an upload: one of its own, and one of an epoch, which two uploads of each host share. Host 3 has other
// counters in every fourth.
fn columns_of(host: u16, seq: u32) -> (Option<Column>, Option<Column>) {
    let bytes = if host == 3 && seq % 4 == 3 { 7 } else { 5 };
    (column(seq, host % WIDTH, 1000), column(seq / 2, 0, bytes))
}

fn uploads(alloc: Global, host: u16) -> Result<Vec<Upload>, Fail> {
    let mut all = Vec::new(alloc);
    for seq in 0..COUNT {
        let (own, shared) = columns_of(host, seq);
        let columns = [own.ok_or("no column")?, shared.ok_or("no column")?].to_vec(alloc)?;
        all.push(Upload::new(host, seq, columns).ok().ok_or("no upload")?)?;
    }
    Ok(all)
}

fn three(
    alloc: Global,
    first: Uploader,
    second: Uploader,
    third: Uploader,
) -> Result<Vec<Uploader>, Fail>
    requires one { first.host ≢ second.host }
    requires two { first.host ≢ third.host }
    requires three { second.host ≢ third.host }
    requires none { AllByRecursion NoneAcked (first ∷ second ∷ third ∷ []) }
    ensures hosts { IfOk result (λ v. HostsDiffer v.items) }
    ensures none { IfOk result (λ v. AllByRecursion NoneAcked v.items) }
{
    let mut uploaders = Vec::new(alloc);
    uploaders.push(first)?;
    uploaders.push(second)?;
    uploaders.push(third)?;
    Ok(uploaders)
}

fn three_hosts(alloc: Global) -> Result<World, Fail> {
    let first = uploader(alloc, 1, uploads(alloc, 1)?)?;
    let second = uploader(alloc, 2, uploads(alloc, 2)?)?;
    let third = uploader(alloc, 3, uploads(alloc, 3)?)?;
    let (a, b, c) = (first.host(), second.host(), third.host());
    if a == b || a == c || b == c {
        return Err("a host twice".into());
    }
    let uploaders = three(alloc, first, second, third)?;
    Ok(World::new(alloc, uploaders, book(alloc, 34)?)?)
}

fn random(state: &mut u32) -> u32 {
    *state = state.wrapping_mul(1_664_525).wrapping_add(1_013_904_223);
    *state >> 16
}

// An event that names one uploader, frame or reply too many now and then.
fn draw(world: &World, state: &mut u32) -> Event {
    let at = (random(state) % 4) as u16;
    let frame = random(state) % world.frames().saturating_add(1);
    let reply = random(state) % world.replies().saturating_add(1);
    match random(state) % 16 {
        0..5 => Event::Send { at },
        5 => Event::Tick { at },
        6..10 => Event::Deliver { frame },
        10..14 => Event::Back { reply },
        14 => Event::Crash,
        _ => Event::CrashIn {
            frame,
            kept: random(state) % 2 == 0,
        },
    }
}

// What the answer has to be. A send may also find nothing to send.
fn is_answer(event: &Event, frames: u32, replies: u32, sent: bool, answer: bool) -> bool {
    match event {
        Event::Send { at } => answer == sent && (!answer || *at < 3),
        Event::Tick { at } => answer == (*at < 3),
        Event::Deliver { frame } | Event::CrashIn { frame, .. } => answer == (*frame < frames),
        Event::Back { reply } => answer == (*reply < replies),
        Event::Crash => answer,
    }
}

// What was seen: which uploads are acknowledged, the fronts of the entries, and their columns.
#[derive(Drop)]
struct Seen {
    acked: Vec<bool>,
    heads: Vec<Head>,
    columns: Vec<Column>,
}

// Takes the entries that are new. None has a key that was there.
fn take_new(seen: &mut Seen, book: &Book) -> Result<(), Fail> {
    for at in 0..book.records() {
        let head = book.head(at);
        if let Some(old) = seen.heads.get(at as usize) {
            if *old != head {
                return Err("an entry changed".into());
            }
            continue;
        }
        for k in 0..head.count {
            let column = book.column_at(at, k);
            if sketchlet_wire::holds(&seen.columns, &column.key()) {
                return Err("a key twice".into());
            }
            seen.columns.push(column)?;
        }
        seen.heads.push(head)?;
    }
    if seen.heads.len() != book.records() as usize {
        return Err("fewer entries".into());
    }
    Ok(())
}

fn are_found(book: &Book, columns: (Option<Column>, Option<Column>)) -> bool {
    match columns {
        (Some(own), Some(shared)) => {
            book.find(&own.key()) == Some(own) && book.find(&shared.key()) == Some(shared)
        }
        _ => false,
    }
}

// Takes what is acknowledged. It stays so, and its columns are in the book.
fn take_acked(seen: &mut Seen, world: &World) -> Result<(), Fail> {
    let mut n = 0;
    for at in 0..3u16 {
        for seq in 0..COUNT {
            if n >= seen.acked.len() {
                return Err("fewer uploads".into());
            }
            let acked = world.acked(at, seq);
            if seen.acked[n] && !acked {
                return Err("no longer acknowledged".into());
            }
            seen.acked[n] = acked;
            n += 1;
            if acked && !are_found(world.book(), columns_of(at + 1, seq)) {
                return Err("acknowledged, and not in the book".into());
            }
        }
    }
    Ok(())
}

#[test]
fn ten_thousand_events(rt: HostRuntime) -> Result<(), Fail> {
    let alloc = rt.alloc();
    let mut world = three_hosts(alloc)?;
    let mut seen = Seen {
        acked: vec![in alloc; false; 36]?,
        heads: Vec::new(alloc),
        columns: Vec::new(alloc),
    };
    let mut state = 1;
    for _ in 0..10_000 {
        let event = draw(&world, &mut state);
        let (frames, replies) = (world.frames(), world.replies());
        let answer = step(&mut world, event)?;
        let sent = world.frames() > frames;
        if !is_answer(&event, frames, replies, sent, answer) {
            return Err("another answer".into());
        }
        take_new(&mut seen, world.book())?;
        take_acked(&mut seen, &world)?;
    }
    let mut count = 0u32;
    for acked in &seen.acked {
        if *acked {
            count = count.wrapping_add(1);
        }
    }
    // Some were refused, for a conflict or because the book was full, and most were not.
    assert_eq!(rt; count > 15 && count < 36, true, "{count} acknowledged");
    Ok(())
}
