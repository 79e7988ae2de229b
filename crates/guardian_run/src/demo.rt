//! The command `demo`: a generated scenario is run over the book of the disk's file, and its summary is written.
ghost use Rattle.std.specs.Prelude.{◌≡◌, ◌≤◌, None, length, count_by, IfOk, IfErr};
ghost use Rattle.lg_base.specs.Causes.{Rose};
ghost use Rattle.lg_model.specs.Scenario.{packet_count};
ghost use Rattle.lg_model.specs.Carrying.{picked};
ghost use Rattle.lg_model.specs.Arriving.{brought_to_all};
ghost use Rattle.guardian_run.specs.Arrived.{HavePooled};
ghost use Rattle.scenario_parts.specs.Whole.{IsWhole};
ghost use Rattle.scenario_make.specs.Generator.{generated};
ghost use Rattle.column_book.specs.declared.book.TheConstants.{ROOM};
ghost use Rattle.column_book.specs.Entries.{content, records};
ghost use Rattle.book_laws.specs.Keeping.{HasKeysOnce};
ghost use Rattle.book_journal.specs.Runs.{IsRun, start_of};
ghost use Rattle.report_text.specs.Faults.{no_memory_line};
ghost use Rattle.shared_book.specs.Going.{GoesOn};
ghost use Rattle.guardian_run.specs.declared.status.Status.TheVariants.{NoMemory};
ghost use Rattle.guardian_run.specs.Changes.{Change, change, IsUntouched};
ghost use Rattle.guardian_run.specs.Telling.{HasRun};
ghost use Rattle.guardian_run.specs.Showing.{is_unknown, summary, ShowsTold, ShowsFrom, DemoEnds};

use crate::ending::{end, end_run};
use crate::refusal::Refusal;
use crate::status::Status;
use crate::telling::{Told, tell_arrived};
use book_journal::Journal;
use book_laws::{files_stand_for_one_list, lists_are_true};
use column_book::{Book, ROOM};
use flow_query::answer;
use lg_base::{Gate, Memory, Sink};
use lg_disk::Disk;
use path_sim::{PooledArrivals, run_pooled};
use report_text::{Summary, put_summary};
use scenario_make::{generated_are_scenarios, make};
use scenario_text::Scenario;
use std::alloc::Global;
use std::sync::Wait;
use std::thread::Threads;

// How many sketchlets came to the hosts.
fn arrived(scenario: &Scenario, arrivals: &PooledArrivals) -> usize
    requires { HavePooled scenario.now arrivals.now }
    ensures { result ≡ length (brought_to_all scenario.now (picked scenario.now)) }
{
    let mut count = 0;
    let hosts = scenario.hosts();
    for at in 0..hosts.len() {
        count += arrivals.arrived(at as u16).len();
    }
    count
}

// How many asks of a scenario a book has no known row for.
fn unknown(scenario: &Scenario, book: &Book) -> usize
    requires { book.now.shape ≡ scenario.now.shape }
    ensures { result ≡ count_by (is_unknown (content book.now.entries) scenario.now) scenario.now.asks }
{
    let flows = scenario.flows();
    let mut count = 0;
    for ask in scenario.asks() {
        let flow = &flows[ask.flow_at as usize];
        if answer(book, ask.switch, ask.epoch, &flow.key).rows_known == 0 {
            count += 1;
        }
    }
    count
}

// The lines of the summary. Memory where there is none for them.
fn summary_text(
    alloc: Global,
    rounds: u32,
    scenario: &Scenario,
    arrivals: &PooledArrivals,
    book: &Book,
) -> Result<Vec<u8>, Memory>
    requires few { rounds ≤ 1000 }
    requires generated { scenario.now ≡ generated rounds }
    requires arrived { HavePooled scenario.now arrivals.now }
    requires shape { book.now.shape ≡ scenario.now.shape }
    ensures { IfOk result (λ text. text.items ≡ summary rounds (content book.now.entries) scenario.now) }
{
    generated_are_scenarios();
    let mut text = Vec::new(alloc);
    let summary = Summary {
        rounds,
        packets: 160 * rounds + 256,
        arrived: arrived(scenario, arrivals),
        columns: book.count(),
        asks: scenario.asks().len(),
        unknown: unknown(scenario, book),
    };
    put_summary(&mut text, &summary)?;
    Ok(text)
}

// Runs the network of a generated scenario, sends what came to its hosts to a journal that was just opened with the
// scenario's shape, and gives what is told, with the summary for the report, and the journal as it was closed. Memory where
// there is none for it.
fn show<D: Disk + Send, G: Gate, R: Threads + Wait + Sync>(
    alloc: Global,
    rt: &R,
    rounds: u32,
    scenario: &Scenario,
    journal: Journal<D>,
    gate: &G,
) -> (Result<Told, Memory>, Journal<D>)
    requires few { rounds ≤ 1000 }
    requires generated { scenario.now ≡ generated rounds }
    requires fits { IsWhole scenario.now }
    requires shape { journal.shape ≡ scenario.now.shape }
    requires room { journal.room ≡ ROOM }
    requires whole { journal.fault ≡ None }
    requires once { HasKeysOnce (records journal.entries) }
    requires runs { D.honest journal.disk →
        IsRun D.honest D.seen D.images D.moment D.since (start_of D.seen D.moment journal) journal }
    ensures told { IfOk result.0 (ShowsTold (Rose (D.faults journal.disk) (D.faults result.1.disk)) rounds scenario.now
        journal result.1) }
    ensures starved { IfErr result.0 (λ _. HasRun (Rose (D.faults journal.disk) (D.faults result.1.disk)) scenario.now
        journal result.1 NoMemory no_memory_line) }
    ensures goes_on { GoesOn D.honest D.seen D.images D.moment D.since D.faults journal result.1 }
{
    let arrivals = match run_pooled(alloc, scenario) {
        Ok(arrivals) => arrivals,
        Err(_) => return (Err(Memory), journal),
    };
    let (told, journal) = tell_arrived(alloc, rt, scenario, &arrivals, journal, gate);
    match told {
        Ok(Told::Report(_)) => match summary_text(
            alloc,
            rounds,
            scenario,
            &arrivals,
            journal.book(),
        ) {
            Ok(text) => (Ok(Told::Report(text)), journal),
            Err(_) => (Err(Memory), journal),
        },
        Ok(Told::Conflict(text)) => (Ok(Told::Conflict(text)), journal),
        Ok(Told::Full(text)) => (Ok(Told::Full(text)), journal),
        Ok(Told::DiskFault(text)) => (Ok(Told::DiskFault(text)), journal),
        Err(_) => (Err(Memory), journal),
    }
}

// Runs a generated scenario over the book of a disk, which is handed back, and writes what there is to tell.
fn show_over<K: Sink, D: Disk + Send, G: Gate, R: Threads + Wait + Sync>(
    alloc: Global,
    rt: &R,
    rounds: u32,
    scenario: &Scenario,
    sink: &mut K,
    disk: D,
    gate: &G,
) -> (Status, D)
    requires few { rounds ≤ 1000 }
    requires generated { scenario.now ≡ generated rounds }
    ensures ends { ShowsFrom D.honest D.seen D.images D.moment D.since D.faults rounds scenario.now
        (change K.written K.faults sink.old sink.new) disk result.1 result.0 }
    ensures whole { IsWhole scenario.now }
{
    lists_are_true();
    files_stand_for_one_list();
    let journal = match Journal::open(alloc, disk, &scenario.shape(), ROOM) {
        Ok(journal) => journal,
        Err((fault, disk)) => return (end(alloc, Err(Refusal::from(fault)), sink), disk),
    };
    // At most as many columns as there is room for.
    journal.book().count();
    let (told, journal) = show(alloc, rt, rounds, scenario, journal, gate);
    let (_, disk) = journal.close();
    (end_run(told, sink), disk)
}

/// Runs the generated scenario of 1 to 1,000 rounds over the book of the disk's file, as `run` does a scenario that is read,
/// and writes its summary into the sink. The disk is handed back at every end.
///
/// The answers are those of `run`, but for those of reading a scenario. What was booked before a refusal stays.
pub fn demo<K: Sink, D: Disk + Send, G: Gate, R: Threads + Wait + Sync>(
    alloc: Global,
    rt: &R,
    rounds: u32,
    sink: &mut K,
    disk: D,
    gate: &G,
) -> (Status, D)
    requires some { 1 ≤ rounds }
    requires few { rounds ≤ 1000 }
    ensures { (source : Change) → IsUntouched source → DemoEnds D.honest D.seen D.images D.moment D.since D.faults rounds source
        (change K.written K.faults sink.old sink.new) disk result.1 result.0 }
{
    match make(alloc, rounds) {
        Ok(scenario) => show_over(alloc, rt, rounds, &scenario, sink, disk, gate),
        Err(_) => (end(alloc, Err(Refusal::Memory), sink), disk),
    }
}
