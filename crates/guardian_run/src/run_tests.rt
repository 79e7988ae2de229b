//! Runs over a book's file, through the top call.

use crate::read_tests::{FOUR_FILE, ONE_FILE, ONE_REST};
use crate::tests::{FOUR, ONE, joined};
use crate::{Status, guardian};
use lg_base::{MemorySink, MemorySource, OpenGate};
use lg_disk::{Choice, MemoryDisk};
use std::alloc::Global;
use std::sync::Wait;
use std::test::Fail;
use std::thread::Threads;

// The file of a book with no record, for ONE's network.
const EMPTY_FILE: &[u8] = b"\x01LGB1\x02\x00\x01\x00\x00\x00\x00\x00\x00\x00\x00\x00\x00";

// ONE's column of epoch 0 and then that of epoch 1, each in a record of its own.
const TWO_EPOCHS: &[u8] = b"\x01LGB1\x02\x00\x01\x00\x00\x00\x00\x00\x00\x00\x00\x00\x01\
    \x00\x01\x00\x00\x00\x00\x01\x00\x01\x00\x00\x00\x00\x00\x00\x00\x00\x05\xdc\x00\x14\x00\x00\x05\xdc\x00\x14\x01\
    \x00\x01\x00\x00\x00\x00\x01\x00\x01\x00\x00\x00\x01\x00\x00\x00\x00\x02\xbc\x00\x09\x00\x00\x02\xbc\x00\x09\x00";

// FOUR's columns 0 and 1, brought first by the uploads 0 and 2.
const LATE_FILE: &[u8] = b"\x01LGB1\x02\x00\x02\x00\x00\x00\x00\x00\x00\x00\x00\x00\x01\
    \x00\x01\x00\x00\x00\x00\x01\x00\x01\x00\x00\x00\x00\x00\x00\x00\x00\x00\x96\x00\x1e\x00\x00\x00\x32\x00\x1e\x01\
    \x00\x01\x00\x00\x00\x02\x01\x00\x01\x00\x00\x00\x00\x00\x01\x00\x00\x00\x00\x00\x00\x00\x00\x00\x64\x00\x0a\x00";

// FOUR's column 1 with another sum in row 1; and the same with column 0 in a second record.
const OTHER_FILE: &[u8] = b"\x01LGB1\x02\x00\x02\x00\x00\x00\x00\x00\x00\x00\x00\x00\x01\
    \x00\x07\x00\x00\x00\x00\x01\x00\x01\x00\x00\x00\x00\x00\x01\x00\x00\x00\x00\x00\x00\x00\x00\x00\x65\x00\x0a\x00";

const OTHER_AND_LATE: &[u8] = b"\x01LGB1\x02\x00\x02\x00\x00\x00\x00\x00\x00\x00\x00\x00\x01\
    \x00\x07\x00\x00\x00\x00\x01\x00\x01\x00\x00\x00\x00\x00\x01\x00\x00\x00\x00\x00\x00\x00\x00\x00\x65\x00\x0a\x01\
    \x00\x01\x00\x00\x00\x00\x01\x00\x01\x00\x00\x00\x00\x00\x00\x00\x00\x00\x96\x00\x1e\x00\x00\x00\x32\x00\x1e\x00";

// Column 0 comes three times before column 1, in three uploads.
const LATE_REST: &str =
    "packet 1 100 10\npacket 2 50 30\nend 1\npacket 1 10 1 twice\npacket 1 10 1 late\n\
    packet 1 10 1 late\nrelease\nask 1 1 0\nask 2 1 0\nask 3 1 0\ndone\n";

// Two hosts, each with a column of its own.
const HOSTS: &str = "guardian 1\nshape 2 2 ports\npick turns\nhost 1\nhost 2\nswitch 1\n\
    flow 1 10.0.0.1 10.0.0.2 6 2 1 host 1 path 1\nflow 2 10.0.0.1 10.0.0.2 6 2 2 host 2 path 1\n\
    packet 1 100 10\nend 1\npacket 1 10 1\npacket 2 10 1\nask 1 1 0\ndone\n";

// The status and the output of a command over a disk, and the disk.
fn told<R: Threads + Wait + Sync>(
    rt: &R,
    alloc: Global,
    word: &str,
    text: Vec<u8>,
    disk: MemoryDisk,
) -> Result<(Status, Vec<u8>, MemoryDisk), Fail> {
    let words = [String::from_str(alloc, word)?];
    let mut source = MemorySource::new(text, 4096, Vec::new(alloc));
    let mut sink = MemorySink::new(alloc, 4096, Vec::new(alloc));
    let (status, disk) = guardian(alloc, rt, &words, &mut source, &mut sink, disk, &OpenGate);
    Ok((status, sink.bytes().to_vec(alloc)?, disk))
}

#[test]
fn runs_over_a_file(rt: HostRuntime) -> Result<(), Fail> {
    let alloc = rt.alloc();
    let known = "flow 1 switch 1 epoch 0 rows 2 of 2 bytes 1500 delay 20\ncolumns 1\n";
    let unknown = "flow 1 switch 1 epoch 0 rows 0 of 2 bytes unknown delay unknown\ncolumns 0\n";
    let late = "flow 1 switch 1 epoch 0 rows 2 of 2 bytes 100 delay 10\n\
        flow 2 switch 1 epoch 0 rows 2 of 2 bytes 50 delay 30\n\
        flow 3 switch 1 epoch 0 rows 2 of 2 bytes 0 delay 0\ncolumns 2\n";
    let nothing = "packet 1 1500 20\nend 1\nask 1 1 0\ndone\n";
    let dearer = "packet 1 1600 20\nend 1\npacket 1 100 5\nask 1 1 0\ndone\n";
    let differs =
        "guardian: conflict at switch 1 epoch 0 column 0 kept 1500 20 1500 20 came 1600 20 1600 20\n";
    let foreign =
        "end 1\npacket 1 700 9 lost 1\nend 1\npacket 1 100 5\nask 1 1 0\nask 1 1 1\ndone\n";
    let both = "flow 1 switch 1 epoch 0 rows 2 of 2 bytes 1500 delay 20\n\
        flow 1 switch 1 epoch 1 rows 2 of 2 bytes 700 delay 9\ncolumns 2\n";
    let third = "acked 1 0\nacked 1 1\n\
        guardian: conflict at switch 1 epoch 0 column 1 kept 0 0 101 10 came 0 0 100 10\n";
    let other = "guardian: shape 2 2 ports in the book, 2 1 ports asked\n";
    let damaged = "guardian: damaged at 45\n";
    let no_journal = "guardian: not a journal\n";
    let nineteen: &[u8] = &[0; 19];
    let cut_off = &ONE_FILE[..45];
    for (head, rest, before, status, output, after) in [
        (ONE, ONE_REST, b"".as_slice(), Status::Ok, known, ONE_FILE),
        (ONE, nothing, b"", Status::Ok, unknown, EMPTY_FILE),
        (ONE, ONE_REST, ONE_FILE, Status::Ok, known, ONE_FILE),
        (ONE, dearer, ONE_FILE, Status::Conflict, differs, ONE_FILE),
        (ONE, foreign, ONE_FILE, Status::Ok, both, TWO_EPOCHS),
        (FOUR, LATE_REST, b"", Status::Ok, late, LATE_FILE),
        (FOUR, LATE_REST, LATE_FILE, Status::Ok, late, LATE_FILE),
        (
            FOUR,
            LATE_REST,
            OTHER_FILE,
            Status::Conflict,
            third,
            OTHER_AND_LATE,
        ),
        (
            ONE,
            ONE_REST,
            FOUR_FILE,
            Status::WrongShape,
            other,
            FOUR_FILE,
        ),
        (ONE, ONE_REST, cut_off, Status::Damaged, damaged, cut_off),
        (
            ONE,
            ONE_REST,
            nineteen,
            Status::NotAJournal,
            no_journal,
            nineteen,
        ),
    ] {
        let disk = MemoryDisk::new(alloc, before.to_vec(alloc)?)?;
        let (found, written, disk) = told(&rt, alloc, "run", joined(alloc, head, rest)?, disk)?;
        assert_eq!(rt; found, status, "{rest}");
        assert_eq!(rt; written.as_slice(), output.as_bytes());
        assert_eq!(rt; disk.bytes(), after);
    }
    Ok(())
}

// The lists of a book of no column, of host 1's, of host 2's, and of both.
const LISTS: [(usize, &str); 4] = [
    (0, "columns 0\n"),
    (1, "column 1 0 0 100 10 0 0\ncolumns 1\n"),
    (1, "column 1 0 1 0 0 100 10\ncolumns 1\n"),
    (
        2,
        "column 1 0 0 100 10 0 0\ncolumn 1 0 1 0 0 100 10\ncolumns 2\n",
    ),
];

// How many columns the list of a file shows.
fn listed<R: Threads + Wait + Sync>(rt: &R, alloc: Global, file: Vec<u8>) -> Result<usize, Fail> {
    let disk = MemoryDisk::new(alloc, file)?;
    let (status, written, _) = told(rt, alloc, "list", Vec::new(alloc), disk)?;
    if status != Status::Ok {
        return Err("no list".into());
    }
    for (count, list) in LISTS {
        if written.as_slice() == list.as_bytes() {
            return Ok(count);
        }
    }
    Err("another list".into())
}

// A sync and the length, the calls of creation, and four for each host's upload: each one fails in turn, with all after it.
// Whichever host's upload comes first.
#[test]
fn stopped_at_each_call(rt: HostRuntime) -> Result<(), Fail> {
    let alloc = rt.alloc();
    let none = "guardian: disk fault\n";
    let first = "acked 1 0\nguardian: disk fault\n";
    let second = "acked 2 0\nguardian: disk fault\n";
    let answer = "flow 1 switch 1 epoch 0 rows 2 of 2 bytes 100 delay 10\ncolumns 2\n";
    for k in 0..=18 {
        let mut disk = MemoryDisk::new(alloc, Vec::new(alloc))?;
        disk.stop_after(k);
        let (status, written, disk) = told(&rt, alloc, "run", joined(alloc, HOSTS, "")?, disk)?;
        let (want, either, or, kept) = if k < 14 {
            (Status::DiskFault, none, none, 0)
        } else if k < 18 {
            (Status::DiskFault, first, second, 1)
        } else {
            (Status::Ok, answer, answer, 2)
        };
        assert_eq!(rt; status, want);
        assert!(rt; written.as_slice() == either.as_bytes() || written.as_slice() == or.as_bytes());
        for choice in [
            Choice::AsRead,
            Choice::AsSynced,
            Choice::FillLong(1),
            Choice::FillShort(1),
            Choice::FillLong(255),
        ] {
            let found = listed(&rt, alloc, disk.image(&choice)?)?;
            assert!(rt; found == kept || found == kept + 1);
        }
    }
    Ok(())
}

// FOUR's column 0 in four uploads, over a link that loses the first, drops the reply to the second, repeats the third and
// holds the fourth: the second one's record is stored, and all are acknowledged.
#[test]
fn a_link_that_loses_and_repeats(rt: HostRuntime) -> Result<(), Fail> {
    let alloc = rt.alloc();
    let text = "guardian 1\nshape 2 1 ports\npick turns\nhost 1\nswitch 1\n\
        flow 1 10.0.0.1 10.0.0.2 6 2 1 host 1 path 1\nlink 1 xarh\npacket 1 1500 20\nend 1\n\
        packet 1 100 5\npacket 1 100 5\npacket 1 100 5\npacket 1 100 5\nask 1 1 0\ndone\n";
    let report = "flow 1 switch 1 epoch 0 rows 2 of 2 bytes 1500 delay 20\ncolumns 1\n";
    // The record of the upload of number 1.
    let mut file = ONE_FILE.to_vec(alloc)?;
    file[23] = 1;
    let disk = MemoryDisk::new(alloc, Vec::new(alloc))?;
    let (status, written, disk) = told(&rt, alloc, "run", text.as_bytes().to_vec(alloc)?, disk)?;
    assert_eq!(rt;
        (status, written.as_slice()),
        (Status::Ok, report.as_bytes())
    );
    assert_eq!(rt; disk.bytes(), file.as_slice());
    Ok(())
}

// A line for each of 64 hosts, with the host's name, 10 to 73, in the place of each #.
fn put_lines(text: &mut Vec<u8>, line: &[u8]) -> Result<(), Fail> {
    for name in 10..74_u8 {
        for byte in line {
            if *byte == b'#' {
                text.push(b'0' + name / 10)?;
                text.push(b'0' + name % 10)?;
            } else {
                text.push(*byte)?;
            }
        }
    }
    Ok(())
}

// A scenario of 64 hosts, each with a flow of its own and a link that loses, repeats and holds; packets of all flows carry
// the one column.
fn many_hosts(alloc: Global) -> Result<Vec<u8>, Fail> {
    let mut text = b"guardian 1\nshape 2 1 ports\npick turns\n".to_vec(alloc)?;
    put_lines(&mut text, b"host #\n")?;
    text.extend_from_slice(b"switch 1\n")?;
    put_lines(&mut text, b"flow # 10.0.0.1 10.0.0.2 6 2 1 host # path 1\n")?;
    put_lines(&mut text, b"link # raxh\n")?;
    text.extend_from_slice(b"packet 10 1500 20\nend 1\n")?;
    put_lines(&mut text, b"packet # 100 5\npacket # 100 5\n")?;
    text.extend_from_slice(b"ask 10 1 0\ndone\n")?;
    Ok(text)
}

// One record comes of it, whichever host's is first.
#[test]
fn all_hosts_at_once(rt: HostRuntime) -> Result<(), Fail> {
    let alloc = rt.alloc();
    let report = "flow 10 switch 1 epoch 0 rows 2 of 2 bytes 1500 delay 20\ncolumns 1\n";
    let disk = MemoryDisk::new(alloc, Vec::new(alloc))?;
    let (status, written, disk) = told(&rt, alloc, "run", many_hosts(alloc)?, disk)?;
    assert_eq!(rt;
        (status, written.as_slice()),
        (Status::Ok, report.as_bytes())
    );
    assert_eq!(rt; disk.bytes().len(), ONE_FILE.len());
    Ok(())
}

// The same two hosts with a dearer first packet.
const DEARER_HOSTS: &str = "guardian 1\nshape 2 2 ports\npick turns\nhost 1\nhost 2\nswitch 1\n\
    flow 1 10.0.0.1 10.0.0.2 6 2 1 host 1 path 1\nflow 2 10.0.0.1 10.0.0.2 6 2 2 host 2 path 1\n\
    packet 1 200 10\nend 1\npacket 1 10 1\npacket 2 10 1\nask 1 1 0\ndone\n";

// Each host brings a column that is in conflict with the book: whichever comes first, the first host's is told.
#[test]
fn a_conflict_of_two_hosts(rt: HostRuntime) -> Result<(), Fail> {
    let alloc = rt.alloc();
    let differs =
        "guardian: conflict at switch 1 epoch 0 column 0 kept 200 10 0 0 came 100 10 0 0\n";
    let disk = MemoryDisk::new(alloc, Vec::new(alloc))?;
    let (status, _, disk) = told(&rt, alloc, "run", joined(alloc, DEARER_HOSTS, "")?, disk)?;
    assert_eq!(rt; status, Status::Ok);
    let book = disk.bytes().to_vec(alloc)?;
    for _ in 0..8 {
        let disk = MemoryDisk::new(alloc, book.as_slice().to_vec(alloc)?)?;
        let (status, written, disk) = told(&rt, alloc, "run", joined(alloc, HOSTS, "")?, disk)?;
        assert_eq!(rt;
            (status, written.as_slice()),
            (Status::Conflict, differs.as_bytes())
        );
        assert_eq!(rt; disk.bytes(), book.as_slice());
    }
    Ok(())
}
