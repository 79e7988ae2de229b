//! Workers that meet at the gate of a run.

use crate::fault_tests::{HOSTS, HOSTS_REPORT};
use guardian_run::{Status, guardian};
use lg_base::{Gate, MemorySink, MemorySource};
use lg_disk::MemoryDisk;
use std::alloc::Global;
use std::sync::Wait;
use std::sync::atomic::{AtomicU64, Ordering};
use std::test::Fail;
use std::thread::Threads;

// A gate where each frame waits until as many as that have come.
#[derive(Drop)]
struct Meeting<'a, R: Wait> {
    rt: &'a R,
    came: AtomicU64,
    wanted: u64,
}

impl<R: Wait + Sync> Gate for Meeting<'_, R> {
    fn pass(&self, _host: u16, _seq: u32, _frame: &[u8]) {
        self.came.fetch_add(1, Ordering::SeqCst);
        for _ in self.rt.forever() {
            if self.came.load(Ordering::SeqCst) >= self.wanted {
                break;
            }
        }
    }
}

// The status of a run of two hosts, whether it wrote their report, and how many frames came to the gate.
fn met<R: Threads + Wait + Sync>(
    rt: &R,
    words: &[String],
    source: &mut MemorySource,
    sink: &mut MemorySink,
    disk: MemoryDisk,
    alloc: Global,
) -> (Status, bool, u64) {
    let gate = Meeting {
        rt,
        came: AtomicU64::new(0),
        wanted: 2,
    };
    let (status, _) = guardian(alloc, rt, words, source, sink, disk, &gate);
    let is_report = sink.bytes() == HOSTS_REPORT.as_bytes();
    (status, is_report, gate.came.load(Ordering::SeqCst))
}

// The workers of two hosts meet: neither goes on before the other has come with its frame.
#[test]
fn two_workers_meet(rt: HostRuntime) -> Result<(), Fail> {
    let alloc = rt.alloc();
    let words = [String::from_str(alloc, "run")?];
    let mut source = MemorySource::new(HOSTS.as_bytes().to_vec(alloc)?, 4096, Vec::new(alloc));
    let mut sink = MemorySink::new(alloc, 4096, Vec::new(alloc));
    let disk = MemoryDisk::new(alloc, Vec::new(alloc))?;
    let told = met(&rt, &words, &mut source, &mut sink, disk, alloc);
    assert_eq!(rt; told, (Status::Ok, true, 2));
    Ok(())
}
