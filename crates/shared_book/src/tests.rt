ghost use Rattle.std.specs.Prelude.{◌≡◌, None};

use crate::{
    Pass, SharedBook, answer, applies_are_told, replies_follow_decisions, reply_of, share,
};
use book_journal::{Applied, ApplyFault, Journal};
use column_book::{Head, ROOM};
use lg_disk::{Disk, MemoryDisk};
use lg_model::{Bucket, Dims, Hash, Key, Shape};
use sketchlet_wire::{Column, Upload};
use std::alloc::Global;
use std::sync::Wait;
use std::test::Fail;
use upload_frame::{Frame, RefusedWhy, Reply};

mod workers;

const KEY: Key = Key {
    switch: 1,
    epoch: 0,
    index: 0,
};

const DIMS: Dims = Dims { rows: 2, width: 1 };

fn column(bytes: u32) -> Option<Column> {
    Column::new(KEY, DIMS, [Bucket { bytes, delay: 20 }; 8])
}

const fn acknowledged(known: bool) -> Option<Reply> {
    Some(Reply::Acknowledged {
        host: 3,
        seq: 5,
        known,
    })
}

const fn refused(why: RefusedWhy) -> Option<Reply> {
    Some(Reply::Refused {
        host: 3,
        seq: 5,
        why,
    })
}

#[test]
fn each_answer_has_its_reply(rt: HostRuntime) -> Result<(), Fail> {
    let kept = column(1500).ok_or("no column")?;
    let came = column(700).ok_or("no column")?;
    let upload = Upload::new(3, 5, [came].to_vec(rt.alloc())?)
        .ok()
        .ok_or("no upload")?;
    let rows = [
        (Ok(Applied::Stored(0)), acknowledged(false)),
        (Ok(Applied::Stored(9)), acknowledged(false)),
        (Ok(Applied::Known), acknowledged(true)),
        (
            Err(ApplyFault::Broken { records: 4 }),
            refused(RefusedWhy::Closed),
        ),
        (
            Err(ApplyFault::WrongShape {
                kept: DIMS,
                came: Dims { rows: 2, width: 2 },
            }),
            refused(RefusedWhy::Shape),
        ),
        (
            Err(ApplyFault::Conflict {
                key: KEY,
                kept,
                came,
            }),
            refused(RefusedWhy::Conflict(KEY)),
        ),
        (
            Err(ApplyFault::Full { held: 1, more: 1 }),
            refused(RefusedWhy::Full),
        ),
        (Err(ApplyFault::Memory), None),
        (Err(ApplyFault::DiskFault), refused(RefusedWhy::Closed)),
    ];
    for (applied, reply) in rows {
        assert_eq!(rt; reply_of(&upload, &applied), reply);
    }
    replies_follow_decisions();
    applies_are_told();
    Ok(())
}

fn shape() -> Result<Shape, Fail> {
    Ok(Shape::new(2, 1, Hash::Ports).ok_or("no shape")?)
}

// The upload 0 of host 1, of one column.
fn first_upload(alloc: Global) -> Result<Upload, Fail> {
    let column = column(1500).ok_or("no column")?;
    Ok(
        Upload::new(1, 0, [column].to_vec(alloc)?)
            .ok()
            .ok_or("no upload")?,
    )
}

// What a second pass and then the first one got for one upload, how many calls the second has left, how many passes were
// made and joined, the head of the one entry, and whether the journal is broken.
type Told = (
    Result<Applied, ApplyFault>,
    Result<Applied, ApplyFault>,
    u32,
    (u32, u32),
    Option<Head>,
    bool,
);

// One upload by a second pass, then by the first.
fn apply_twice<R: Wait>(
    rt: &R,
    journal: Journal<MemoryDisk>,
    alloc: Global,
    upload: &Upload,
) -> Result<Told, Fail>
    requires whole { journal.fault ≡ None }
{
    let Ok((book, mut first)) = share(alloc, journal) else {
        return Err("not shared".into());
    };
    let mut second = book.split(&mut first);
    let stored = book.apply(rt, &mut second, upload);
    let known = book.apply(rt, &mut first, upload);
    let left = second.left();
    book.join(&mut first, second);
    let counts = (first.made(), first.joined());
    let journal = book.close(first);
    let head = if journal.book().records() == 1 {
        Some(journal.book().head(0))
    } else {
        None
    };
    Ok((stored, known, left, counts, head, journal.is_broken()))
}

#[test]
fn one_pass_stores_and_the_other_knows(rt: HostRuntime) -> Result<(), Fail> {
    let alloc = rt.alloc();
    let stored = Head {
        pass: 2,
        host: 1,
        seq: 0,
        count: 1,
    };
    // An empty file is opened by a sync, the length, and eight calls that make it an empty book.
    let rows = [
        (
            None,
            (
                Ok(Applied::Stored(0)),
                Ok(Applied::Known),
                4_294_967_294,
                (2, 1),
                Some(stored),
                false,
            ),
        ),
        (
            Some(10),
            (
                Err(ApplyFault::DiskFault),
                Err(ApplyFault::Broken { records: 0 }),
                4_294_967_294,
                (2, 1),
                None,
                true,
            ),
        ),
    ];
    for (stop, want) in rows {
        let mut disk = MemoryDisk::new(alloc, Vec::new(alloc))?;
        if let Some(k) = stop {
            disk.stop_after(k);
        }
        let Ok(journal) = Journal::open(alloc, disk, &shape()?, ROOM) else {
            return Err("not opened".into());
        };
        let told = apply_twice(&rt, journal, alloc, &first_upload(alloc)?)?;
        assert_eq!(rt; told, want);
    }
    Ok(())
}

// The answer to a frame, where the pass has a call left and there is one.
fn answer_one<R: Wait>(
    rt: &R,
    book: &SharedBook<MemoryDisk>,
    pass: &mut Pass,
    frame: &Frame,
) -> Option<Reply>
    requires book { pass.old.book ≡ book.now.id }
    ensures book { pass.new.book ≡ pass.old.book }
    ensures number { pass.new.view.number ≡ pass.old.view.number }
    ensures made { pass.new.view.made ≡ pass.old.view.made }
    ensures joined { pass.new.view.joined ≡ pass.old.view.joined }
{
    if pass.left() == 0 {
        return None;
    }
    answer(rt, book, pass, frame).ok()
}

// The answers to five frames, over one pass.
fn answer_all<R: Wait>(
    rt: &R,
    journal: Journal<MemoryDisk>,
    alloc: Global,
    frames: &[Frame; 5],
) -> Result<[Option<Reply>; 5], Fail>
    requires whole { journal.fault ≡ None }
{
    let Ok((book, mut first)) = share(alloc, journal) else {
        return Err("not shared".into());
    };
    let replies = [
        answer_one(rt, &book, &mut first, &frames[0]),
        answer_one(rt, &book, &mut first, &frames[1]),
        answer_one(rt, &book, &mut first, &frames[2]),
        answer_one(rt, &book, &mut first, &frames[3]),
        answer_one(rt, &book, &mut first, &frames[4]),
    ];
    book.close(first);
    Ok(replies)
}

#[test]
fn frames_are_answered(rt: HostRuntime) -> Result<(), Fail> {
    let alloc = rt.alloc();
    let disk = MemoryDisk::new(alloc, Vec::new(alloc))?;
    let Ok(journal) = Journal::open(alloc, disk, &shape()?, ROOM) else {
        return Err("not opened".into());
    };
    let other = Shape::new(2, 1, Hash::Seed(7)).ok_or("no shape")?;
    let frames = [
        Frame::Hello {
            host: 1,
            shape: shape()?,
        },
        Frame::Hello {
            host: 2,
            shape: other,
        },
        Frame::Upload(first_upload(alloc)?),
        Frame::Upload(first_upload(alloc)?),
        Frame::Bye { host: 1 },
    ];
    let replies = answer_all(&rt, journal, alloc, &frames)?;
    let want = [
        Some(Reply::Welcome { host: 1 }),
        Some(Reply::Refused {
            host: 2,
            seq: 0,
            why: RefusedWhy::Shape,
        }),
        Some(Reply::Acknowledged {
            host: 1,
            seq: 0,
            known: false,
        }),
        Some(Reply::Acknowledged {
            host: 1,
            seq: 0,
            known: true,
        }),
        Some(Reply::Goodbye { host: 1 }),
    ];
    assert_eq!(rt; replies, want);
    Ok(())
}

// What four uploads come to in one turn, how many calls are left then, and how many records there are.
fn apply_turn<R: Wait>(
    rt: &R,
    journal: Journal<MemoryDisk>,
    alloc: Global,
    uploads: &[Upload; 4],
) -> Result<(Vec<Result<Applied, ApplyFault>>, u32, u32), Fail>
    requires whole { journal.fault ≡ None }
{
    let Ok((book, mut first)) = share(alloc, journal) else {
        return Err("not shared".into());
    };
    let answers = book.apply_each(alloc, rt, &mut first, uploads);
    let left = first.left();
    let journal = book.close(first);
    Ok((answers?, left, journal.book().records()))
}

#[test]
fn a_turn_ends_at_the_first_refusal(rt: HostRuntime) -> Result<(), Fail> {
    let alloc = rt.alloc();
    let disk = MemoryDisk::new(alloc, Vec::new(alloc))?;
    let Ok(journal) = Journal::open(alloc, disk, &shape()?, ROOM) else {
        return Err("not opened".into());
    };
    let kept = column(1500).ok_or("no column")?;
    let came = column(700).ok_or("no column")?;
    let other = Upload::new(1, 1, [came].to_vec(alloc)?)
        .ok()
        .ok_or("no upload")?;
    let uploads = [
        first_upload(alloc)?,
        first_upload(alloc)?,
        other,
        first_upload(alloc)?,
    ];
    let (answers, left, records) = apply_turn(&rt, journal, alloc, &uploads)?;
    let want = [
        Ok(Applied::Stored(0)),
        Ok(Applied::Known),
        Err(ApplyFault::Conflict {
            key: KEY,
            kept,
            came,
        }),
    ];
    assert_eq!(rt; answers.as_slice(), want.as_slice());
    assert_eq!(rt; (left, records), (4_294_967_292, 1));
    Ok(())
}
