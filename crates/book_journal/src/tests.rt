use crate::{Applied, ApplyFault, Journal, OpenFault, look};
use column_book::{Book, Column, Key, ROOM, Shape, Upload};
use lg_disk::{Choice, Disk, MemoryDisk};
use lg_model::{Bucket, Dims, Hash};
use std::alloc::Global;
use std::test::Fail;

// The book file of one upload of host 1, seq 0: 2 rows of width 1, places by ports, and a column of switch 1, epoch 0,
// with 1,500 bytes and 20 microseconds in both rows.
const FILE: [u8; 46] = [
    0x01, 0x4C, 0x47, 0x42, 0x31, 2, 0, 1, 0, 0, 0, 0, 0, 0, 0, 0, 0, 1, 0, 1, 0, 0, 0, 0, 1, 0, 1,
    0, 0, 0, 0, 0, 0, 0, 0, 5, 0xDC, 0, 20, 0, 0, 5, 0xDC, 0, 20, 0,
];

// The same with a second record, of the column of epoch 1.
fn two_records() -> [u8; 74] {
    let mut file = [0; 74];
    file[..46].copy_from_slice(&FILE);
    file[45..73].copy_from_slice(&FILE[17..45]);
    file[51] = 1;
    file[58] = 1;
    file
}

fn shape() -> Result<Shape, Fail> {
    Ok(Shape::new(2, 1, Hash::Ports).ok_or("no shape")?)
}

// The upload of this number: the column of that epoch.
fn upload(alloc: Global, seq: u32) -> Result<Upload, Fail> {
    let key = Key {
        switch: 1,
        epoch: seq,
        index: 0,
    };
    let bucket = Bucket {
        bytes: 1500,
        delay: 20,
    };
    let column = Column::new(key, Dims { rows: 2, width: 1 }, [bucket; 8]).ok_or("no column")?;
    match Upload::new(1, seq, [column].to_vec(alloc)?) {
        Ok(upload) => Ok(upload),
        Err(_) => Err("no upload".into()),
    }
}

fn disk(alloc: Global, file: &[u8]) -> Result<MemoryDisk, Fail> {
    Ok(MemoryDisk::new(alloc, file.to_vec(alloc)?)?)
}

// How many records are found in a file.
fn records_in(alloc: Global, file: Vec<u8>) -> Result<u32, Fail> {
    let mut disk = MemoryDisk::new(alloc, file)?;
    match look(alloc, &mut disk, Some(&shape()?)) {
        Ok(Some(book)) => Ok(book.records()),
        Ok(None) => Ok(0),
        Err(_) => Err("a fault".into()),
    }
}

// The pass that stored the first record.
fn first_pass(book: &Book) -> Option<u32> {
    if book.records() > 0 {
        Some(book.head(0).pass)
    } else {
        None
    }
}

#[test]
fn an_upload_is_stored_and_known(rt: HostRuntime) -> Result<(), Fail> {
    let alloc = rt.alloc();
    let one = upload(alloc, 0)?;
    let Ok(mut journal) = Journal::open(alloc, disk(alloc, &[])?, &shape()?, ROOM) else {
        return Err("not opened".into());
    };
    assert_eq!(rt; journal.apply(3, &one), Ok(Applied::Stored(0)));
    assert_eq!(rt; journal.apply(4, &one), Ok(Applied::Known));
    assert!(rt; !journal.is_broken());
    assert_eq!(rt; first_pass(journal.book()), Some(3));
    let (book, mut disk) = journal.close();
    assert_eq!(rt; book.count(), 1);
    assert_eq!(rt; disk.bytes(), FILE.as_slice());
    let Ok(Some(seen)) = look(alloc, &mut disk, None) else {
        return Err("not seen".into());
    };
    assert_eq!(rt; seen.count(), 1);
    assert_eq!(rt; first_pass(&seen), Some(0));
    Ok(())
}

#[test]
fn a_file_of_two_records(rt: HostRuntime) -> Result<(), Fail> {
    let alloc = rt.alloc();
    // Bytes after the closing gate mean nothing, and stay where no record is written over them.
    let mut file = [0xAB; 120];
    file[..74].copy_from_slice(&two_records());
    let Ok(mut journal) = Journal::open(alloc, disk(alloc, &file)?, &shape()?, 3) else {
        return Err("not opened".into());
    };
    assert_eq!(rt; journal.book().records(), 2);
    assert_eq!(rt; journal.apply(0, &upload(alloc, 1)?), Ok(Applied::Known));
    assert_eq!(rt;
        journal.apply(0, &upload(alloc, 2)?),
        Ok(Applied::Stored(2))
    );
    assert_eq!(rt;
        journal.apply(0, &upload(alloc, 3)?),
        Err(ApplyFault::Full { held: 3, more: 1 })
    );
    let mut want = file;
    want[73] = 1;
    want[74..101].copy_from_slice(&FILE[18..45]);
    want[79] = 2;
    want[86] = 2;
    want[101] = 0;
    assert_eq!(rt; journal.close().1.bytes(), want.as_slice());
    Ok(())
}

#[test]
fn refused_files_are_only_read(rt: HostRuntime) -> Result<(), Fail> {
    let alloc = rt.alloc();
    let two = two_records();
    let mut cut_off = [0; 45];
    cut_off.copy_from_slice(&FILE[..45]);
    let mut twice = two;
    twice[58] = 0;
    let mut foreign = [0; 19];
    foreign[1] = 0x4C;
    let other = Shape::new(2, 1, Hash::Seed(7)).ok_or("no shape")?;
    let wrong = OpenFault::WrongShape {
        kept: shape()?,
        asked: other,
    };
    let rows: [(&[u8], &Shape, u32, OpenFault); 5] = [
        (&foreign, &shape()?, 2, OpenFault::NotAJournal),
        (&two, &other, 2, wrong),
        (&cut_off, &shape()?, 2, OpenFault::Damaged { at: 45 }),
        (&twice, &shape()?, 2, OpenFault::Damaged { at: 45 }),
        (&two, &shape()?, 1, OpenFault::Full { held: 1, more: 1 }),
    ];
    for (file, asked, room, want) in rows {
        match Journal::open(alloc, disk(alloc, file)?, asked, room) {
            Ok(_) => return Err("opened".into()),
            Err((fault, disk)) => {
                assert_eq!(rt; fault, want);
                assert_eq!(rt; disk.bytes(), file);
            }
        }
    }
    Ok(())
}

// Opens a blank disk that stops at call k, and applies three uploads. How many are stored, and the disk.
fn run_until(alloc: Global, k: u32) -> Result<(u32, MemoryDisk), Fail> {
    let mut blank = disk(alloc, &[])?;
    blank.stop_after(k);
    let mut journal = match Journal::open(alloc, blank, &shape()?, ROOM) {
        Ok(journal) => journal,
        Err((_, disk)) => return Ok((0, disk)),
    };
    for seq in 0..3 {
        match journal.apply(0, &upload(alloc, seq)?) {
            Ok(_) => {}
            Err(ApplyFault::DiskFault) => break,
            Err(_) => return Err("another fault".into()),
        }
    }
    let stored = journal.book().records();
    if stored < 3 {
        assert_broken(&mut journal, stored, &upload(alloc, 3)?)?;
    }
    Ok((stored, journal.close().1))
}

fn assert_broken<D: Disk>(
    journal: &mut Journal<D>,
    records: u32,
    next: &Upload,
) -> Result<(), Fail> {
    if !journal.is_broken() {
        return Err("not broken".into());
    }
    match journal.apply(0, next) {
        Err(ApplyFault::Broken { records: told }) if told == records => Ok(()),
        _ => Err("not Broken".into()),
    }
}

// A sync, the length, eight calls of creation, and three times four.
#[test]
fn stopped_at_each_call(rt: HostRuntime) -> Result<(), Fail> {
    let alloc = rt.alloc();
    let choices = [
        Choice::AsRead,
        Choice::AsSynced,
        Choice::FillLong(0),
        Choice::FillLong(1),
        Choice::FillLong(76),
        Choice::FillLong(255),
        Choice::FillShort(0),
        Choice::FillShort(1),
        Choice::FillShort(76),
        Choice::FillShort(255),
    ];
    for k in 0..=22 {
        let (stored, disk) = run_until(alloc, k)?;
        let want = if k < 10 { 0 } else { (k - 10) / 4 };
        assert_eq!(rt; stored, want);
        for choice in &choices {
            let found = records_in(alloc, disk.image(choice)?)?;
            assert!(rt; found == stored || stored < 3 && k > 10 && found == stored + 1);
        }
    }
    Ok(())
}
