//! The command `run`: a scenario's network is run, what comes to the hosts is added to the book of the disk's file, and the
//! report is on that book.
ghost use Rattle.std.specs.Prelude.{◌≡◌};
ghost use Rattle.scenario_parts.specs.Whole.{IsWhole};
ghost use Rattle.guardian_run.specs.Changes.{change};
ghost use Rattle.guardian_run.specs.Running.{RunsFrom, RunEnds};

use crate::ending::{end, end_run};
use crate::refusal::Refusal;
use crate::status::Status;
use crate::telling::tell;
use book_journal::Journal;
use book_laws::{files_stand_for_one_list, lists_are_true};
use column_book::ROOM;
use lg_base::{Gate, Sink, Source};
use lg_disk::Disk;
use scenario_text::{Scenario, read};
use std::alloc::Global;
use std::sync::Wait;
use std::thread::Threads;

// Runs a scenario over the book of a disk, which is handed back, and writes what there is to tell.
fn run_over<K: Sink, D: Disk + Send, G: Gate, R: Threads + Wait + Sync>(
    alloc: Global,
    rt: &R,
    scenario: &Scenario,
    sink: &mut K,
    disk: D,
    gate: &G,
) -> (Status, D)
    ensures ends { RunsFrom D.honest D.seen D.images D.moment D.since D.faults scenario.now
        (change K.written K.faults sink.old sink.new) disk result.1 result.0 }
    ensures whole { IsWhole scenario.now }
{
    lists_are_true();
    files_stand_for_one_list();
    let journal = match Journal::open(alloc, disk, &scenario.shape(), ROOM) {
        Ok(journal) => journal,
        Err((fault, disk)) => return (end(alloc, Err(Refusal::from(fault)), sink), disk),
    };
    // At most as many columns as there is room for.
    journal.book().count();
    let (told, journal) = tell(alloc, rt, scenario, journal, gate);
    let (_, disk) = journal.close();
    (end_run(told, sink), disk)
}

/// Reads a scenario from the source, opens the book of the disk's file with its shape, runs its network, sends what came to
/// each host over the host's link, by a worker for each host, and writes the report on the book into the sink. The disk is
/// handed back at every end.
///
/// `BadScenario` where the input is no scenario text; then the faults of the file in their order; then `DiskFault` where the
/// disk failed, else `Conflict` or `Full` by the refused upload of the first host of which one was refused, each after the
/// lines of the uploads that were acknowledged. `ReadFault`, `WriteFault` and `DiskFault` come only where that count of
/// faults rose in this call or stands at its last value, `NoMemory` where no memory was found. What was booked before a
/// refusal stays (docs/DEFINITIONS.md, Runs over a book).
pub fn run<S: Source, K: Sink, D: Disk + Send, G: Gate, R: Threads + Wait + Sync>(
    alloc: Global,
    rt: &R,
    source: &mut S,
    sink: &mut K,
    disk: D,
    gate: &G,
) -> (Status, D)
    ensures { RunEnds D.honest D.seen D.images D.moment D.since D.faults (change S.left S.faults source.old source.new)
        (change K.written K.faults sink.old sink.new) disk result.1 result.0 }
{
    match read(alloc, source) {
        Ok(scenario) => run_over(alloc, rt, &scenario, sink, disk, gate),
        Err(fault) => (end(alloc, Err(Refusal::from(fault)), sink), disk),
    }
}
