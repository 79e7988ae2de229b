//! What the gate of a run sees.

use crate::read_tests::ONE_REST;
use crate::tests::{ONE, joined};
use crate::{Status, guardian};
use lg_base::{Gate, MemorySink, MemorySource};
use lg_disk::MemoryDisk;
use std::alloc::Global;
use std::sync::Wait;
use std::sync::atomic::{AtomicU64, Ordering};
use std::test::Fail;
use std::thread::Threads;

// The upload of ONE's column (docs/FORMATS.md, Frames).
const ONE_FRAME: &[u8] = b"\x00\x22\x02\x00\x01\x00\x00\x00\x00\x01\
    \x4c\x47\x01\x02\x00\x01\x00\x01\x00\x00\x00\x00\x00\x00\x00\x00\x05\xdc\x00\x14\x00\x00\x05\xdc\x00\x14";

// The status and the output of a run over a blank book, with that gate.
fn run_at<R: Threads + Wait + Sync, G: Gate>(
    rt: &R,
    alloc: Global,
    text: Vec<u8>,
    gate: &G,
) -> Result<(Status, Vec<u8>), Fail> {
    let words = [String::from_str(alloc, "run")?];
    let mut source = MemorySource::new(text, 4096, Vec::new(alloc));
    let mut sink = MemorySink::new(alloc, 4096, Vec::new(alloc));
    let disk = MemoryDisk::new(alloc, Vec::new(alloc))?;
    let (status, _) = guardian(alloc, rt, &words, &mut source, &mut sink, disk, gate);
    Ok((status, sink.bytes().to_vec(alloc)?))
}

// A gate that counts the frames that are ONE_FRAME of host 1's upload 0, and the others.
#[derive(Drop)]
struct Comparing {
    equal: AtomicU64,
    others: AtomicU64,
}

impl Gate for Comparing {
    fn pass(&self, host: u16, seq: u32, frame: &[u8]) {
        if host == 1 && seq == 0 && frame == ONE_FRAME {
            self.equal.fetch_add(1, Ordering::SeqCst);
        } else {
            self.others.fetch_add(1, Ordering::SeqCst);
        }
    }
}

// One upload becomes one frame, of these bytes.
#[test]
fn one_frame(rt: HostRuntime) -> Result<(), Fail> {
    let alloc = rt.alloc();
    let text = joined(alloc, ONE, ONE_REST)?;
    let gate = Comparing {
        equal: AtomicU64::new(0),
        others: AtomicU64::new(0),
    };
    let (status, _) = run_at(&rt, alloc, text, &gate)?;
    assert_eq!(rt; status, Status::Ok);
    assert_eq!(rt; gate.equal.load(Ordering::SeqCst), 1);
    assert_eq!(rt; gate.others.load(Ordering::SeqCst), 0);
    Ok(())
}
