//! Demonstrations and generated texts, through the top call.

use crate::{Status, guardian, guardian_read};
use lg_base::{MemorySink, MemorySource, OpenGate};
use lg_disk::MemoryDisk;
use std::alloc::Global;
use std::sync::Wait;
use std::test::Fail;
use std::thread::Threads;

// The status and the output of words that are cut at each space, over a disk, and the disk. The input is not read.
fn told<R: Threads + Wait + Sync>(
    rt: &R,
    alloc: Global,
    line: &str,
    disk: MemoryDisk,
) -> Result<(Status, Vec<u8>, MemoryDisk), Fail> {
    let mut words = Vec::new(alloc);
    for word in line.split(' ') {
        words.push(String::from_str(alloc, word)?)?;
    }
    let mut source = MemorySource::new(b"no scenario".to_vec(alloc)?, 4096, Vec::new(alloc));
    let mut sink = MemorySink::new(alloc, 4096, Vec::new(alloc));
    let (status, disk) = guardian(alloc, rt, &words, &mut source, &mut sink, disk, &OpenGate);
    Ok((status, sink.bytes().to_vec(alloc)?, disk))
}

// Each twice, on a blank disk of its own: the same summary and the same list.
#[test]
fn demonstrations(rt: HostRuntime) -> Result<(), Fail> {
    let alloc = rt.alloc();
    for (line, summary) in [
        (
            "demo 1",
            "demo 1\npackets 416\narrived 256\ncolumns 64\nasks 8 unknown 0\n",
        ),
        (
            "demo 2",
            "demo 2\npackets 576\narrived 256\ncolumns 64\nasks 8 unknown 0\n",
        ),
        (
            "demo 10",
            "demo 10\npackets 1856\narrived 256\ncolumns 64\nasks 8 unknown 0\n",
        ),
        (
            "demo 100",
            "demo 100\npackets 16256\narrived 14656\ncolumns 640\nasks 8 unknown 0\n",
        ),
    ] {
        let (status, first, disk) = told(
            &rt,
            alloc,
            line,
            MemoryDisk::new(alloc, Vec::new(alloc))?,
        )?;
        assert_eq!(rt;
            (status, first.as_slice()),
            (Status::Ok, summary.as_bytes())
        );
        let (status, again, other) = told(
            &rt,
            alloc,
            line,
            MemoryDisk::new(alloc, Vec::new(alloc))?,
        )?;
        assert_eq!(rt; (status, again.as_slice()), (Status::Ok, first.as_slice()));
        let (_, list, _) = told(&rt, alloc, "list", disk)?;
        let (_, other, _) = told(&rt, alloc, "list", other)?;
        assert_eq!(rt; list.as_slice(), other.as_slice());
    }
    Ok(())
}

// The same number of rounds adds nothing, and another one is another shape.
#[test]
fn demonstrations_over_a_book(rt: HostRuntime) -> Result<(), Fail> {
    let alloc = rt.alloc();
    let other = "guardian: shape 4 16 seed 1 in the book, 4 16 seed 2 asked\n";
    let (_, first, disk) = told(
        &rt,
        alloc,
        "demo 1",
        MemoryDisk::new(alloc, Vec::new(alloc))?,
    )?;
    let (_, list, disk) = told(&rt, alloc, "list", disk)?;
    let (status, again, disk) = told(&rt, alloc, "demo 1", disk)?;
    assert_eq!(rt; (status, again.as_slice()), (Status::Ok, first.as_slice()));
    let (status, written, disk) = told(&rt, alloc, "demo 2", disk)?;
    assert_eq!(rt;
        (status, written.as_slice()),
        (Status::WrongShape, other.as_bytes())
    );
    let (_, same, _) = told(&rt, alloc, "list", disk)?;
    assert_eq!(rt; same.as_slice(), list.as_slice());
    Ok(())
}

// Of the words that only read, `make` is one, and `demo` is none.
#[test]
fn generated_texts(rt: HostRuntime) -> Result<(), Fail> {
    let alloc = rt.alloc();
    let disk = MemoryDisk::new(alloc, Vec::new(alloc))?;
    let (status, text, mut disk) = told(&rt, alloc, "make 1", disk)?;
    assert_eq!(rt; (status, text.len()), (Status::Ok, 1108));
    for (word, want) in [("make", Status::Ok), ("demo", Status::BadWords)] {
        let words = [
            String::from_str(alloc, word)?,
            String::from_str(alloc, "1")?,
        ];
        let mut source = MemorySource::new(Vec::new(alloc), 7, Vec::new(alloc));
        let mut sink = MemorySink::new(alloc, 7, Vec::new(alloc));
        let status = guardian_read(alloc, &words, &mut source, &mut sink, &mut disk);
        assert_eq!(rt; status, want);
    }
    Ok(())
}
