//! Tables over the top call: each call that fails in turn, each length of a book's file, each byte that is refused.

use guardian_run::{Status, guardian};
use lg_base::{MemorySink, MemorySource, OpenGate};
use lg_disk::MemoryDisk;
use std::alloc::Global;
use std::sync::Wait;
use std::test::Fail;
use std::thread::Threads;

// The first scenario, and what `run` writes for it.
const FIRST: &str = "guardian 1\nshape 2 1 ports\npick turns\nhost 1\nswitch 1\n\
    flow 1 10.0.0.1 10.0.0.2 6 2 1 host 1 path 1\npacket 1 1500 20\nend 1\npacket 1 100 5\nask 1 1 0\ndone\n";

const REPORT: &str = "flow 1 switch 1 epoch 0 rows 2 of 2 bytes 1500 delay 20\ncolumns 1\n";

// Two hosts, each with a column of its own, and what `run` writes for them.
pub(crate) const HOSTS: &str = "guardian 1\nshape 2 2 ports\npick turns\nhost 1\nhost 2\nswitch 1\n\
    flow 1 10.0.0.1 10.0.0.2 6 2 1 host 1 path 1\nflow 2 10.0.0.1 10.0.0.2 6 2 2 host 2 path 1\n\
    packet 1 100 10\nend 1\npacket 1 10 1\npacket 2 10 1\nask 1 1 0\ndone\n";

pub(crate) const HOSTS_REPORT: &str =
    "flow 1 switch 1 epoch 0 rows 2 of 2 bytes 100 delay 10\ncolumns 2\n";

// The file that the first scenario leaves: one record of one column.
const ONE: &[u8] = b"\x01LGB1\x02\x00\x01\x00\x00\x00\x00\x00\x00\x00\x00\x00\x01\
    \x00\x01\x00\x00\x00\x00\x01\x00\x01\x00\x00\x00\x00\x00\x00\x00\x00\x05\xdc\x00\x14\x00\x00\x05\xdc\x00\x14\x00";

// Two records, with the columns 0 and 1 of one sketch.
const TWO: &[u8] = b"\x01LGB1\x02\x00\x02\x00\x00\x00\x00\x00\x00\x00\x00\x00\x01\
    \x00\x01\x00\x00\x00\x00\x01\x00\x01\x00\x00\x00\x00\x00\x00\x00\x00\x00\x96\x00\x1e\x00\x00\x00\x32\x00\x1e\x01\
    \x00\x01\x00\x00\x00\x02\x01\x00\x01\x00\x00\x00\x00\x00\x01\x00\x00\x00\x00\x00\x00\x00\x00\x00\x64\x00\x0a\x00";

// The lines of files that cannot be read.
const FOREIGN: &str = "guardian: not a journal\n";

const DAMAGED_AT_17: &str = "guardian: damaged at 17\n";

const DAMAGED_AT_45: &str = "guardian: damaged at 45\n";

const DAMAGED_AT_73: &str = "guardian: damaged at 73\n";

// The status of a command over these, and the disk.
fn ended<R: Threads + Wait + Sync>(
    rt: &R,
    alloc: Global,
    word: &str,
    source: &mut MemorySource,
    sink: &mut MemorySink,
    disk: MemoryDisk,
) -> Result<(Status, MemoryDisk), Fail> {
    let words = [String::from_str(alloc, word)?];
    Ok(guardian(alloc, rt, &words, source, sink, disk, &OpenGate))
}

// The same for an input in pieces of 1 byte where this call of the source fails, and the output in such pieces where this
// one of the sink does. The book is blank.
fn told<R: Threads + Wait + Sync>(
    rt: &R,
    alloc: Global,
    text: &str,
    reads: &[u32],
    writes: &[u32],
) -> Result<(Status, Vec<u8>), Fail> {
    let text = text.as_bytes().to_vec(alloc)?;
    let mut source = MemorySource::new(text, 1, reads.to_vec(alloc)?);
    let mut sink = MemorySink::new(alloc, 1, writes.to_vec(alloc)?);
    let disk = MemoryDisk::new(alloc, Vec::new(alloc))?;
    let (status, _) = ended(rt, alloc, "run", &mut source, &mut sink, disk)?;
    Ok((status, sink.bytes().to_vec(alloc)?))
}

// The status and the output of a run of two hosts, and the disk.
fn run_hosts<R: Threads + Wait + Sync>(
    rt: &R,
    alloc: Global,
    disk: MemoryDisk,
) -> Result<(Status, Vec<u8>, MemoryDisk), Fail> {
    let text = HOSTS.as_bytes().to_vec(alloc)?;
    let mut source = MemorySource::new(text, 4096, Vec::new(alloc));
    let mut sink = MemorySink::new(alloc, 4096, Vec::new(alloc));
    let (status, disk) = ended(rt, alloc, "run", &mut source, &mut sink, disk)?;
    Ok((status, sink.bytes().to_vec(alloc)?, disk))
}

// The status and the output of `list` over this file, which stays as it is.
fn listed<R: Threads + Wait + Sync>(
    rt: &R,
    alloc: Global,
    file: &[u8],
) -> Result<(Status, Vec<u8>), Fail> {
    let mut source = MemorySource::new(Vec::new(alloc), 4096, Vec::new(alloc));
    let mut sink = MemorySink::new(alloc, 4096, Vec::new(alloc));
    let disk = MemoryDisk::new(alloc, file.to_vec(alloc)?)?;
    let (status, disk) = ended(rt, alloc, "list", &mut source, &mut sink, disk)?;
    if disk.bytes() != file {
        return Err("the book was changed".into());
    }
    Ok((status, sink.bytes().to_vec(alloc)?))
}

// One call of the disk fails, and all others don't: the second run over the same disk finds a book that it can go on with.
#[test]
fn each_call_of_the_disk_fails(rt: HostRuntime) -> Result<(), Fail> {
    let alloc = rt.alloc();
    for k in 0..18 {
        let mut disk = MemoryDisk::new(alloc, Vec::new(alloc))?;
        disk.fail([k].to_vec(alloc)?);
        let (status, _, disk) = run_hosts(&rt, alloc, disk)?;
        assert_eq!(rt; status, Status::DiskFault, "call {k}");
        let (status, written, _) = run_hosts(&rt, alloc, disk)?;
        assert_eq!(rt; status, Status::Ok, "after a fault of call {k}");
        assert_eq!(rt; written.as_slice(), HOSTS_REPORT.as_bytes());
    }
    let mut disk = MemoryDisk::new(alloc, Vec::new(alloc))?;
    disk.fail([18].to_vec(alloc)?);
    let (status, written, _) = run_hosts(&rt, alloc, disk)?;
    assert_eq!(rt; status, Status::Ok);
    assert_eq!(rt; written.as_slice(), HOSTS_REPORT.as_bytes());
    Ok(())
}

// One call of the source fails, or one of the sink, at each byte.
#[test]
fn each_call_of_a_stream_fails(rt: HostRuntime) -> Result<(), Fail> {
    let alloc = rt.alloc();
    for k in 0..FIRST.len() as u32 {
        let (status, written) = told(&rt, alloc, FIRST, &[k], &[])?;
        assert_eq!(rt; status, Status::ReadFault, "read {k}");
        assert_eq!(rt; written.as_slice(), b"guardian: read fault\n".as_slice());
    }
    let after = 2 * FIRST.len() as u32;
    let (status, written) = told(&rt, alloc, FIRST, &[after], &[])?;
    assert_eq!(rt; status, Status::Ok);
    assert_eq!(rt; written.as_slice(), REPORT.as_bytes());
    for k in 0..REPORT.len() {
        let (status, written) = told(&rt, alloc, FIRST, &[], &[k as u32])?;
        assert_eq!(rt; status, Status::WriteFault, "write {k}");
        assert_eq!(rt; written.as_slice(), &REPORT.as_bytes()[..k]);
    }
    let (status, written) = told(&rt, alloc, "", &[], &[0])?;
    assert_eq!(rt; status, Status::BadScenario);
    assert_eq!(rt; written.len(), 0);
    Ok(())
}

// The first bytes of a file of two records, however many they are.
#[test]
fn each_length_of_a_file(rt: HostRuntime) -> Result<(), Fail> {
    let alloc = rt.alloc();
    let both = "column 1 0 0 150 30 50 30\ncolumn 1 0 1 0 0 100 10\ncolumns 2\n";
    let mut next = 0;
    for (last, status, output) in [
        (1, Status::Ok, "columns 0\n"),
        (16, Status::NotAJournal, FOREIGN),
        (44, Status::Damaged, DAMAGED_AT_17),
        (72, Status::Damaged, DAMAGED_AT_45),
        (73, Status::Damaged, DAMAGED_AT_73),
        (74, Status::Ok, both),
    ] {
        for n in next..=last {
            let file = TWO.get(..n).ok_or("too short")?;
            let (found, written) = listed(&rt, alloc, file)?;
            assert_eq!(rt; found, status, "the first {n} bytes");
            assert_eq!(rt; written.as_slice(), output.as_bytes());
        }
        next = last + 1;
    }
    assert_eq!(rt; next, TWO.len() + 1);
    Ok(())
}

// One byte is another one.
#[test]
fn changed_bytes_of_a_file(rt: HostRuntime) -> Result<(), Fail> {
    let alloc = rt.alloc();
    for (file, at, byte, status, output) in [
        // A width of 0, a hash that is none, and a parameter of a hash that has none.
        (ONE, 7, 0, Status::NotAJournal, FOREIGN),
        (ONE, 8, 2, Status::NotAJournal, FOREIGN),
        (ONE, 16, 1, Status::NotAJournal, FOREIGN),
        // A gate that is closed, as each but 01 is.
        (ONE, 17, 2, Status::Ok, "columns 0\n"),
        // Counts of 0, 2 and 17 columns, and an index that is not below the width.
        (ONE, 24, 0, Status::Damaged, DAMAGED_AT_17),
        (ONE, 24, 2, Status::Damaged, DAMAGED_AT_17),
        (ONE, 24, 17, Status::Damaged, DAMAGED_AT_17),
        (ONE, 32, 1, Status::Damaged, DAMAGED_AT_17),
        // Two columns of one key.
        (TWO, 60, 0, Status::Damaged, DAMAGED_AT_45),
    ] {
        let mut changed = file.to_vec(alloc)?;
        let place = changed.get_mut(at).ok_or("too short")?;
        *place = byte;
        let (found, written) = listed(&rt, alloc, &changed)?;
        assert_eq!(rt; found, status, "{byte} at {at}");
        assert_eq!(rt; written.as_slice(), output.as_bytes());
    }
    Ok(())
}
