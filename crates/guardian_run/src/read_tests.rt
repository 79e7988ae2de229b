//! Books that are read, through the call that only reads.

use crate::tests::{FOUR, ONE, joined};
use crate::{Status, guardian_read};
use lg_base::{MemorySink, MemorySource};
use lg_disk::MemoryDisk;
use std::alloc::Global;
use std::test::Fail;

// The file of ONE's network after `packet 1 1500 20`, `end 1`, `packet 1 100 5`: one record of one column.
pub(crate) const ONE_FILE: &[u8] = b"\x01LGB1\x02\x00\x01\x00\x00\x00\x00\x00\x00\x00\x00\x00\x01\
    \x00\x01\x00\x00\x00\x00\x01\x00\x01\x00\x00\x00\x00\x00\x00\x00\x00\x05\xdc\x00\x14\x00\x00\x05\xdc\x00\x14\x00";

// The same in a sketch of two columns: column 0 of FOUR's network, and both columns of a later run.
pub(crate) const FOUR_FILE: &[u8] = b"\x01LGB1\x02\x00\x02\x00\x00\x00\x00\x00\x00\x00\x00\x00\x01\
    \x00\x01\x00\x00\x00\x00\x01\x00\x01\x00\x00\x00\x00\x00\x00\x00\x00\x00\x96\x00\x1e\x00\x00\x00\x32\x00\x1e\x00";

pub(crate) const BOTH_FILE: &[u8] = b"\x01LGB1\x02\x00\x02\x00\x00\x00\x00\x00\x00\x00\x00\x00\x01\
    \x00\x01\x00\x00\x00\x00\x02\x00\x01\x00\x00\x00\x00\x00\x01\x00\x00\x00\x05\x00\x01\x00\x00\x00\x64\x00\x0a\
    \x00\x01\x00\x00\x00\x00\x00\x00\x00\x00\x00\x96\x00\x1e\x00\x00\x00\x32\x00\x1e\x00";

pub(crate) const ONE_REST: &str = "packet 1 1500 20\nend 1\npacket 1 100 5\nask 1 1 0\ndone\n";

pub(crate) const FOUR_REST: &str = "ask 1 1 0\nask 2 1 0\nask 3 1 0\ndone\n";

// The status and the output of words, cut at each space, over this book's file, where these calls of the disk fail.
fn asked_of(
    alloc: Global,
    line: &str,
    text: Vec<u8>,
    book: &[u8],
    calls: &[u32],
) -> Result<(Status, Vec<u8>), Fail> {
    let mut words = Vec::new(alloc);
    for word in line.split(' ') {
        words.push(String::from_str(alloc, word)?)?;
    }
    let mut source = MemorySource::new(text, 4096, Vec::new(alloc));
    let mut sink = MemorySink::new(alloc, 4096, Vec::new(alloc));
    let mut disk = MemoryDisk::new(alloc, book.to_vec(alloc)?)?;
    disk.fail(calls.to_vec(alloc)?);
    let status = guardian_read(alloc, &words, &mut source, &mut sink, &mut disk);
    if disk.bytes() == book {
        Ok((status, sink.bytes().to_vec(alloc)?))
    } else {
        Err("the book was changed".into())
    }
}

#[test]
fn books_that_are_read(rt: HostRuntime) -> Result<(), Fail> {
    let alloc = rt.alloc();
    let unknown = "flow 1 switch 1 epoch 0 rows 0 of 2 bytes unknown delay unknown\ncolumns 0\n";
    let known = "flow 1 switch 1 epoch 0 rows 2 of 2 bytes 1500 delay 20\ncolumns 1\n";
    let some = "flow 1 switch 1 epoch 0 rows 1 of 2 bytes 150 delay 30\n\
        flow 2 switch 1 epoch 0 rows 2 of 2 bytes 50 delay 30\n\
        flow 3 switch 1 epoch 0 rows 0 of 2 bytes unknown delay unknown\ncolumns 1\n";
    let all = "flow 1 switch 1 epoch 0 rows 2 of 2 bytes 100 delay 10\n\
        flow 2 switch 1 epoch 0 rows 2 of 2 bytes 50 delay 30\n\
        flow 3 switch 1 epoch 0 rows 2 of 2 bytes 5 delay 1\ncolumns 2\n";
    let other = "guardian: shape 2 2 ports in the book, 2 1 ports asked\n";
    let one = "column 1 0 0 1500 20 1500 20\ncolumns 1\n";
    // In the order of keys, whatever the order in the file.
    let two = "column 1 0 0 150 30 50 30\ncolumn 1 0 1 5 1 100 10\ncolumns 2\n";
    let built = "rebuilt switch 1 epoch 0 rows 2 width 2\nrow 0 150 30 5 1\nrow 1 50 30 100 10\n";
    let half = "guardian: rebuild: switch 1 epoch 0 has 1 of 2 columns\n";
    let none = "guardian: rebuild: switch 1 epoch 1 has 0 of 2 columns\n";
    let blank = "guardian: rebuild: the book is blank\n";
    for (line, head, rest, book, status, want) in [
        ("ask", ONE, ONE_REST, b"".as_slice(), Status::Ok, unknown),
        ("ask", ONE, ONE_REST, ONE_FILE, Status::Ok, known),
        ("ask", FOUR, FOUR_REST, FOUR_FILE, Status::Ok, some),
        ("ask", FOUR, FOUR_REST, BOTH_FILE, Status::Ok, all),
        ("ask", ONE, ONE_REST, FOUR_FILE, Status::WrongShape, other),
        ("list", "", "", b"\x01", Status::Ok, "columns 0\n"),
        ("list", "", "", ONE_FILE, Status::Ok, one),
        ("list", "", "", BOTH_FILE, Status::Ok, two),
        ("rebuild 1 0", "", "", BOTH_FILE, Status::Ok, built),
        ("rebuild 1 0", "", "", FOUR_FILE, Status::Missing, half),
        ("rebuild 1 1", "", "", BOTH_FILE, Status::Missing, none),
        ("rebuild 1 0", "", "", b"", Status::Missing, blank),
    ] {
        let (found, written) = asked_of(alloc, line, joined(alloc, head, rest)?, book, &[])?;
        assert_eq!(rt;
            (found, written.as_slice()),
            (status, want.as_bytes()),
            "{line}"
        );
    }
    Ok(())
}

#[test]
fn books_that_cannot_be_read(rt: HostRuntime) -> Result<(), Fail> {
    let alloc = rt.alloc();
    let nineteen = [0; 19];
    let foreign = "guardian: not a journal\n";
    let no_gate = "guardian: damaged at 17\n";
    let no_body = "guardian: damaged at 45\n";
    for (line, book, status, want) in [
        ("list", nineteen.as_slice(), Status::NotAJournal, foreign),
        ("rebuild 1 0", &nineteen, Status::NotAJournal, foreign),
        ("ask", &nineteen, Status::NotAJournal, foreign),
        ("list", &ONE_FILE[..17], Status::Damaged, no_gate),
        ("rebuild 1 0", &ONE_FILE[..17], Status::Damaged, no_gate),
        ("ask", &ONE_FILE[..17], Status::Damaged, no_gate),
        ("list", &ONE_FILE[..45], Status::Damaged, no_body),
        ("run", b"", Status::BadWords, ""),
    ] {
        let (found, written) = asked_of(alloc, line, joined(alloc, ONE, ONE_REST)?, book, &[])?;
        assert_eq!(rt; found, status, "{line}");
        if status != Status::BadWords {
            assert_eq!(rt; written.as_slice(), want.as_bytes(), "{line}");
        }
    }
    // The text comes before the file, and the disk's first calls are its length and a read.
    let text = joined(alloc, ONE, "end\n")?;
    let (found, _) = asked_of(alloc, "ask", text, &nineteen, &[])?;
    assert_eq!(rt; found, Status::BadScenario);
    for line in ["ask", "list", "rebuild 1 0"] {
        for call in [0, 1] {
            let text = joined(alloc, ONE, ONE_REST)?;
            let (found, written) = asked_of(alloc, line, text, ONE_FILE, &[call])?;
            assert_eq!(rt;
                (found, written.as_slice()),
                (Status::DiskFault, b"guardian: disk fault\n".as_slice())
            );
        }
    }
    Ok(())
}
