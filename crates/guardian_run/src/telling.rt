//! What a run tells: the report on the journal's book, or which uploads were acknowledged before one was refused.
ghost use Rattle.std.specs.Prelude.{◌≡◌, ◌++◌, ◌<◌, length, All, None, IfOk, IfErr, MatchResult};
ghost use Rattle.std.specs.List.{flat_map};
ghost use Rattle.lg_base.specs.Causes.{Rose};
ghost use Rattle.lg_model.specs.Carrying.{picked};
ghost use Rattle.guardian_run.specs.Arrived.{HavePooled};
ghost use Rattle.scenario_parts.specs.Whole.{IsWhole};
ghost use Rattle.column_book.specs.declared.book.TheConstants.{ROOM};
ghost use Rattle.column_book.specs.Entries.{records};
ghost use Rattle.book_laws.specs.Keeping.{HasKeysOnce};
ghost use Rattle.book_journal.specs.Runs.{IsRun, start_of};
ghost use Rattle.report_text.specs.Faults.{no_memory_line};
ghost use Rattle.shared_book.specs.Going.{GoesOn};
ghost use Rattle.guardian_run.specs.declared.status.Status.TheVariants.{NoMemory};
ghost use Rattle.guardian_run.specs.Sending.{line_of, lines_of, lines_with, IsFine, IsFirstMet, AllCanBeMet};
ghost use Rattle.guardian_run.specs.Telling.{status_told, text_told, CanBeTold, Concludes, TellsStop, HasRun};

use crate::reporting::report;
use crate::storing::store_all;
use book_journal::{ApplyFault, Journal};
use host_collect::PackedUploads;
use host_workers::Sender;
use lg_base::{Gate, Memory};
use lg_disk::Disk;
use path_sim::{PooledArrivals, run_pooled};
use report_text::{disk_fault_line, put_acked_line, put_conflict_line, put_full_line, put_text};
use scenario_text::Scenario;
use std::alloc::Global;
use std::sync::Wait;
use std::thread::Threads;
use upload_world::{Uploader, WorkFault};

/// What a run tells of its uploads: its bytes, by how they ended.
#[derive(Debug, Drop)]
pub(crate) enum Told {
    /// All were acknowledged: the report.
    Report(Vec<u8>),
    /// The book has a column of one's key with other counters.
    Conflict(Vec<u8>),
    /// The book has no room for one.
    Full(Vec<u8>),
    /// The disk failed.
    DiskFault(Vec<u8>),
}

// The line of an upload, where it is acknowledged.
fn put_if_acked(
    text: &mut Vec<u8>,
    uploader: &Uploader<PackedUploads<'_>>,
    seq: u32,
) -> Result<(), Memory>
    requires { seq < length uploader.now.uploads }
    ensures { IfOk result (λ _. text.new.items ≡ text.old.items ++ line_of uploader.now seq) }
{
    if !uploader.acked(seq) {
        return Ok(());
    }
    put_acked_line(text, uploader.host(), seq)
}

// The lines of the acknowledged uploads of a host.
fn put_acked(text: &mut Vec<u8>, uploader: &Uploader<PackedUploads<'_>>) -> Result<(), Memory>
    ensures { IfOk result (λ _. text.new.items ≡ text.old.items ++ lines_with uploader.now) }
{
    for seq in 0..uploader.len() {
        put_if_acked(text, uploader, seq)?;
    }
    Ok(())
}

// Those of all hosts.
fn acked_text(alloc: Global, senders: &[Sender<'_>]) -> Result<Vec<u8>, Memory>
    ensures { IfOk result (λ text. text.items ≡ flat_map lines_of senders.now) }
{
    let mut text = Vec::new(alloc);
    for sender in senders {
        put_acked(&mut text, &sender.uploader)?;
    }
    Ok(text)
}

// What is told where an upload was refused: the lines of those that were acknowledged, and the line of the fault. Memory
// where there is none for them.
fn stopped(alloc: Global, senders: &[Sender<'_>], fault: ApplyFault) -> Result<Told, Memory>
    requires told { CanBeTold fault }
    ensures { IfOk result (TellsStop (flat_map lines_of senders.now) fault) }
{
    let mut text = acked_text(alloc, senders)?;
    match fault {
        ApplyFault::Conflict { key, kept, came } => {
            put_conflict_line(&mut text, &key, &kept, &came)?;
            Ok(Told::Conflict(text))
        }
        ApplyFault::Full { held, more } => {
            put_full_line(&mut text, held, more)?;
            Ok(Told::Full(text))
        }
        ApplyFault::DiskFault => {
            put_text(&mut text, disk_fault_line())?;
            Ok(Told::DiskFault(text))
        }
        ApplyFault::Memory => Err(Memory),
        ApplyFault::WrongShape { .. } => unreachable!(),
        ApplyFault::Broken { .. } => unreachable!(),
    }
}

// How the work of all hosts ended: well, or with the first fault in the order of the hosts.
fn first_fault(senders: &[Sender<'_>]) -> Result<(), WorkFault>
    ensures { MatchResult result (λ _. All IsFine senders.now) (λ fault. IsFirstMet fault senders.now) }
{
    for done in senders {
        if let Err(fault) = done.result {
            return Err(fault);
        }
    }
    Ok(())
}

// What is told once the book is closed: that the disk failed, where it did; else the first fault in the order of the hosts;
// else the report. Memory where a worker met want of it, or there is none for what is told.
fn conclude<D: Disk>(
    alloc: Global,
    scenario: &Scenario,
    journal: &Journal<D>,
    senders: &[Sender<'_>],
) -> Result<Told, Memory>
    requires shape { journal.now.shape ≡ scenario.now.shape }
    requires met { AllCanBeMet journal.now.fault senders.now }
    ensures { IfOk result (Concludes scenario.now journal.now senders.now) }
{
    if journal.is_broken() {
        return stopped(alloc, senders, ApplyFault::DiskFault);
    }
    match first_fault(senders) {
        Ok(()) => {
            let text = report(alloc, scenario, journal.book())?;
            Ok(Told::Report(text))
        }
        Err(WorkFault::Refused { seq: _, fault }) => stopped(alloc, senders, fault),
        Err(WorkFault::Memory) => Err(Memory),
    }
}

/// Sends what came to the hosts of a scenario to a journal that was just opened with the scenario's shape, and gives what is
/// told, with the journal as it was closed. Memory where there is none for the uploads or the lines: then nothing is told,
/// and the uploads that were stored stay.
pub(crate) fn tell_arrived<D: Disk + Send, G: Gate, R: Threads + Wait + Sync>(
    alloc: Global,
    rt: &R,
    scenario: &Scenario,
    arrivals: &PooledArrivals,
    journal: Journal<D>,
    gate: &G,
) -> (Result<Told, Memory>, Journal<D>)
    requires arrived { HavePooled scenario.now arrivals.now }
    requires fits { IsWhole scenario.now }
    requires shape { journal.shape ≡ scenario.now.shape }
    requires room { journal.room ≡ ROOM }
    requires whole { journal.fault ≡ None }
    requires once { HasKeysOnce (records journal.entries) }
    requires runs { D.honest journal.disk →
        IsRun D.honest D.seen D.images D.moment D.since (start_of D.seen D.moment journal) journal }
    ensures told { IfOk result.0 (λ told. HasRun (Rose (D.faults journal.disk) (D.faults result.1.disk)) scenario.now
        journal result.1 (status_told told) (text_told told)) }
    ensures starved { IfErr result.0 (λ _. HasRun (Rose (D.faults journal.disk) (D.faults result.1.disk)) scenario.now
        journal result.1 NoMemory no_memory_line) }
    ensures goes_on { GoesOn D.honest D.seen D.images D.moment D.since D.faults journal result.1 }
{
    match store_all(alloc, rt, scenario, arrivals, journal, gate) {
        Ok((journal, senders)) => {
            let told = conclude(alloc, scenario, &journal, &senders);
            (told, journal)
        }
        Err(journal) => (Err(Memory), journal),
    }
}

/// Runs the network of a scenario, and then does as [`tell_arrived`]. Memory also where there is none for the network.
pub(crate) fn tell<D: Disk + Send, G: Gate, R: Threads + Wait + Sync>(
    alloc: Global,
    rt: &R,
    scenario: &Scenario,
    journal: Journal<D>,
    gate: &G,
) -> (Result<Told, Memory>, Journal<D>)
    requires fits { IsWhole scenario.now }
    requires shape { journal.shape ≡ scenario.now.shape }
    requires room { journal.room ≡ ROOM }
    requires whole { journal.fault ≡ None }
    requires once { HasKeysOnce (records journal.entries) }
    requires runs { D.honest journal.disk →
        IsRun D.honest D.seen D.images D.moment D.since (start_of D.seen D.moment journal) journal }
    ensures told { IfOk result.0 (λ told. HasRun (Rose (D.faults journal.disk) (D.faults result.1.disk)) scenario.now
        journal result.1 (status_told told) (text_told told)) }
    ensures starved { IfErr result.0 (λ _. HasRun (Rose (D.faults journal.disk) (D.faults result.1.disk)) scenario.now
        journal result.1 NoMemory no_memory_line) }
    ensures goes_on { GoesOn D.honest D.seen D.images D.moment D.since D.faults journal result.1 }
{
    match run_pooled(alloc, scenario) {
        Ok(arrivals) => tell_arrived(alloc, rt, scenario, &arrivals, journal, gate),
        Err(_) => (Err(Memory), journal),
    }
}
