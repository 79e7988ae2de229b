//! Files that are fed in pieces.
ghost use Rattle.std.specs.Prelude.{◌≤◌};
ghost use Rattle.column_book.specs.declared.book.TheConstants.{ROOM};

use crate::{Found, OpenFault, Walk, body_of, empty_file, worked_files};
use column_book::ROOM;
use lg_base::Memory;
use lg_model::{Bucket, Dims, Hash, Key, Shape};
use sketchlet_wire::{Column, Upload};
use std::test::Fail;

// A file with one record: 2 rows of width 1, one column of switch 1, epoch 0.
const FILE: [u8; 46] = [
    0x01, 0x4C, 0x47, 0x42, 0x31, 2, 0, 1, 0, 0, 0, 0, 0, 0, 0, 0, 0, 1, 0, 1, 0, 0, 0, 0, 1, 0, 1,
    0, 0, 0, 0, 0, 0, 0, 0, 5, 0xDC, 0, 0x14, 0, 0, 5, 0xDC, 0, 0x14, 0,
];

// What is found, with the counts of a book in place of the book.
#[derive(Clone, Copy, Debug, PartialEq, Eq)]
enum Told {
    Blank,
    Book {
        records: u32,
        columns: u32,
        end: u64,
    },
    Fault(OpenFault),
}

const DAMAGED: Told = Told::Fault(OpenFault::Damaged { at: 17 });

const FOREIGN: Told = Told::Fault(OpenFault::NotAJournal);

const UNENDED: Told = Told::Fault(OpenFault::Damaged { at: 45 });

const FULL: Told = Told::Fault(OpenFault::Full { held: 1, more: 1 });

const EMPTY: Told = Told::Book {
    records: 0,
    columns: 0,
    end: 17,
};

const BOTH: Told = Told::Book {
    records: 2,
    columns: 2,
    end: 73,
};

const WHOLE: Told = Told::Book {
    records: 1,
    columns: 1,
    end: 45,
};

// What is found in a file that is fed in pieces of this size, and the most bytes that were kept on the way.
fn found_in(
    rt: HostRuntime,
    file: &[u8],
    piece: usize,
    asked: Option<&Shape>,
    room: u32,
) -> Result<(Told, u32), Memory>
    requires some { 1 ≤ room }
    requires few { room ≤ ROOM }
{
    let mut walk = Walk::new(rt.alloc(), asked, room, file.len() as u64)?;
    let mut left = file;
    let mut most = 0;
    while !left.is_empty() {
        let n = piece.max(1).min(left.len());
        walk.feed(&left[..n])?;
        most = most.max(walk.held());
        left = &left[n..];
    }
    let found = match walk.finish() {
        Ok(Found::Blank) => Told::Blank,
        Ok(Found::Book { book, end }) => Told::Book {
            records: book.records(),
            columns: book.count(),
            end,
        },
        Err(fault) => Told::Fault(fault),
    };
    Ok((found, most))
}

#[test]
fn the_worked_file_in_pieces(rt: HostRuntime) -> Result<(), Fail> {
    for piece in [1, 2, 7, 17, 26, 27, 46] {
        let (found, most) = found_in(rt, &FILE, piece, None, ROOM)?;
        assert_eq!(rt; found, WHOLE, "pieces of {piece}");
        assert!(rt; most <= 26, "{most} kept");
        let (cut, _) = found_in(rt, &FILE[..17], piece, None, ROOM)?;
        assert_eq!(rt; cut, DAMAGED, "pieces of {piece}");
    }
    worked_files();
    Ok(())
}

#[test]
fn the_first_bytes_of_a_file(rt: HostRuntime) -> Result<(), Fail> {
    for n in 0..46 {
        let want = match n {
            0 | 1 => Told::Blank,
            45 => UNENDED,
            _ if n < 17 => FOREIGN,
            _ => DAMAGED,
        };
        for piece in [1, 26, 46] {
            let (found, _) = found_in(rt, &FILE[..n], piece, None, 1)?;
            assert_eq!(rt; found, want, "{n} bytes in pieces of {piece}");
        }
    }
    Ok(())
}

#[test]
fn one_byte_changed(rt: HostRuntime) -> Result<(), Fail> {
    for (at, byte, want) in [
        // The gate of the file and the letters.
        (0, 0, FOREIGN),
        (0, 2, FOREIGN),
        (1, 0x4D, FOREIGN),
        (4, 0x32, FOREIGN),
        // 0 and 9 rows, widths of 4,097 and 0, a kind of hash of 2, a seed of 1 with the kind 0.
        (5, 0, FOREIGN),
        (5, 9, FOREIGN),
        (6, 0x10, FOREIGN),
        (7, 0, FOREIGN),
        (8, 2, FOREIGN),
        (16, 1, FOREIGN),
        // The gate of the record is closed.
        (17, 0, EMPTY),
        (17, 255, EMPTY),
        // A count of 0, of 17, and of one more than there are columns; an index equal to the width.
        (24, 0, DAMAGED),
        (24, 17, DAMAGED),
        (24, 2, DAMAGED),
        (32, 1, DAMAGED),
        // The closing gate.
        (45, 255, WHOLE),
        (45, 1, UNENDED),
    ] {
        let mut file = FILE;
        if let Some(place) = file.get_mut(at) {
            *place = byte;
        }
        for piece in [1, 46] {
            let (found, _) = found_in(rt, &file, piece, None, 1)?;
            assert_eq!(rt; found, want, "byte {at} is {byte}");
        }
    }
    Ok(())
}

// The worked header, a record after an open gate, one of another switch, and one that has a key twice.
const HEAD: [u8; 17] = [
    0x01, 0x4C, 0x47, 0x42, 0x31, 2, 0, 1, 0, 0, 0, 0, 0, 0, 0, 0, 0,
];

const ONE: [u8; 28] = [
    1, 0, 1, 0, 0, 0, 0, 1, 0, 1, 0, 0, 0, 0, 0, 0, 0, 0, 5, 0xDC, 0, 0x14, 0, 0, 5, 0xDC, 0, 0x14,
];

const OTHER: [u8; 28] = [
    1, 0, 1, 0, 0, 0, 1, 1, 0, 2, 0, 0, 0, 0, 0, 0, 0, 0, 5, 0xDC, 0, 0x14, 0, 0, 5, 0xDC, 0, 0x14,
];

const TWICE: [u8; 48] = [
    1, 0, 1, 0, 0, 0, 0, 2, 0, 1, 0, 0, 0, 0, 0, 0, 0, 0, 5, 0xDC, 0, 0x14, 0, 0, 5, 0xDC, 0, 0x14,
    0, 1, 0, 0, 0, 0, 0, 0, 0, 0, 5, 0xDC, 0, 0x14, 0, 0, 5, 0xDC, 0, 0x14,
];

// Records of the first one's column: with other buckets, and before a column of another switch.
const DIFFERS: [u8; 28] = [
    1, 0, 1, 0, 0, 0, 1, 1, 0, 1, 0, 0, 0, 0, 0, 0, 0, 0, 5, 0xDC, 0, 0x14, 0, 0, 5, 0xDC, 0, 0x15,
];

const PARTLY: [u8; 48] = [
    1, 0, 1, 0, 0, 0, 1, 2, 0, 1, 0, 0, 0, 0, 0, 0, 0, 0, 5, 0xDC, 0, 0x14, 0, 0, 5, 0xDC, 0, 0x14,
    0, 2, 0, 0, 0, 0, 0, 0, 0, 0, 5, 0xDC, 0, 0x14, 0, 0, 5, 0xDC, 0, 0x14,
];

#[test]
fn files_of_parts(rt: HostRuntime) -> Result<(), Fail> {
    let worked = Shape::new(2, 1, Hash::Ports).ok_or("no shape")?;
    let seeded = Shape::new(2, 1, Hash::Seed(7)).ok_or("no shape")?;
    let wrong = Told::Fault(OpenFault::WrongShape {
        kept: worked,
        asked: seeded,
    });
    let head: &[u8] = &HEAD;
    let one: &[u8] = &ONE;
    let other: &[u8] = &OTHER;
    let twice: &[u8] = &TWICE;
    let differs: &[u8] = &DIFFERS;
    let partly: &[u8] = &PARTLY;
    let foreign: &[u8] = &[1, 0x4D];
    let zeros: &[u8] = &[0; 19];
    let shut = &zeros[..1];
    let none = &zeros[..0];
    for (parts, asked, room, want) in [
        ([head, one, other, shut], Some(&worked), 2, BOTH),
        ([head, one, other, shut], None, 1, FULL),
        ([head, one, one, shut], None, 2, UNENDED),
        // A key that is known is told before the room.
        ([head, one, one, shut], None, 1, UNENDED),
        ([head, one, differs, shut], None, 2, UNENDED),
        ([head, one, partly, shut], None, 3, UNENDED),
        ([head, one, partly, shut], None, 1, UNENDED),
        ([head, twice, shut, none], None, 2, DAMAGED),
        // Bytes after the closing gate mean nothing.
        ([head, one, shut, other], None, 1, WHOLE),
        ([head, one, shut, none], Some(&seeded), 1, wrong),
        ([foreign, head, one, none], Some(&seeded), 1, FOREIGN),
        ([none, none, none, none], Some(&seeded), 1, Told::Blank),
        ([&head[..1], none, none, none], None, 1, Told::Blank),
        ([&zeros[..18], none, none, none], None, 1, Told::Blank),
        ([zeros, none, none, none], None, 1, FOREIGN),
    ] {
        let mut file = Vec::new(rt.alloc());
        for part in parts {
            file.extend_from_slice(part)?;
        }
        for piece in [1, 16, 128] {
            let (found, _) = found_in(rt, &file, piece, asked, room)?;
            assert_eq!(rt; found, want, "{file:?} in pieces of {piece}");
        }
    }
    Ok(())
}

// An upload of host 1 with this many columns of the switches from 1 on, at index 0.
fn upload(rt: HostRuntime, dims: Dims, count: u16) -> Result<Upload, Fail> {
    let bucket = Bucket {
        bytes: 1500,
        delay: 20,
    };
    let mut columns = Vec::new(rt.alloc());
    for switch in 1..=count {
        let key = Key {
            switch,
            epoch: 0,
            index: 0,
        };
        columns.push(Column::new(key, dims, [bucket; 8]).ok_or("no column")?)?;
    }
    match Upload::new(1, 0, columns) {
        Ok(upload) => Ok(upload),
        Err(_) => Err(Fail::from("no upload")),
    }
}

#[test]
fn writes_files(rt: HostRuntime) -> Result<(), Fail> {
    let worked = Shape::new(2, 1, Hash::Ports).ok_or("no shape")?;
    let head = empty_file(&worked);
    assert_eq!(rt; &head[..17], HEAD.as_slice());
    assert_eq!(rt; head[17], 0);
    let dims = Dims { rows: 2, width: 1 };
    let one = upload(rt, dims, 1)?;
    assert_eq!(rt; body_of(rt.alloc(), &one, 1)?.as_slice(), &FILE[18..]);
    // Of two columns the first, the second, and both.
    let two = upload(rt, dims, 2)?;
    assert_eq!(rt; body_of(rt.alloc(), &two, 1)?.as_slice(), &FILE[18..]);
    let second = body_of(rt.alloc(), &two, 2)?;
    assert_eq!(rt; second.get(7..27), OTHER.get(8..28));
    assert_eq!(rt; body_of(rt.alloc(), &two, 3)?.len(), 48);
    Ok(())
}

const LONGEST: Told = Told::Book {
    records: 1,
    columns: 16,
    end: 921,
};

const OVERFULL: Told = Told::Fault(OpenFault::Full { held: 0, more: 16 });

#[test]
fn the_longest_body(rt: HostRuntime) -> Result<(), Fail> {
    let dims = Dims { rows: 8, width: 1 };
    let longest = upload(rt, dims, 16)?;
    let shape = Shape::new(8, 1, Hash::Seed(7)).ok_or("no shape")?;
    let mut file = Vec::new(rt.alloc());
    file.extend_from_slice(&empty_file(&shape)[..17])?;
    file.push(1)?;
    file.extend_from_slice(&body_of(rt.alloc(), &longest, 65_535)?)?;
    for (piece, room, want, kept) in [
        (1, 16, LONGEST, 902),
        (1_000, 16, LONGEST, 0),
        (1, 15, OVERFULL, 902),
    ] {
        let (found, most) = found_in(rt, &file, piece, Some(&shape), room)?;
        assert_eq!(rt; found, want);
        assert_eq!(rt; most, kept);
    }
    Ok(())
}
