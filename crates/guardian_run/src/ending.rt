//! The end of a call: what a command gave becomes bytes and a status (docs/FORMATS.md, Fault lines and exit statuses).
ghost use Rattle.std.specs.Prelude.{◌≡◌, ◌≤◌, IfOk, IfErr};
ghost use Rattle.guardian_run.specs.Changes.{change, WritesSome};
ghost use Rattle.report_text.specs.Faults.{no_memory_line as no_memory};
ghost use Rattle.guardian_run.specs.declared.status.Status.TheVariants.{NoMemory};
ghost use Rattle.guardian_run.specs.Ending.{EndsWith, EndsWithLine, EndsRefused};
ghost use Rattle.guardian_run.specs.Telling.{EndsTold};

use crate::refusal::Refusal;
use crate::status::Status;
use crate::telling::Told;
use lg_base::{Memory, Sink, put_all};
use report_text::{
    blank_line, damaged_line, disk_fault_line, full_line, missing_line, no_memory_line,
    not_a_journal_line, read_fault_line, scenario_line, shape_line, usage_line,
};
use std::alloc::Global;

// Writes an output: `Ok`, or `WriteFault` where the sink fails.
fn put_output<K: Sink>(sink: &mut K, text: &[u8]) -> Status
    ensures { EndsWith text.now (change K.written K.faults sink.old sink.new) result }
{
    match put_all(sink, text) {
        Ok(()) => Status::Ok,
        Err(_) => Status::WriteFault,
    }
}

// Writes a fault line and answers its status, which stays where the sink fails.
fn put_fault<K: Sink>(sink: &mut K, line: &[u8], status: Status) -> Status
    ensures status { result ≡ status }
    ensures line { WritesSome (change K.written K.faults sink.old sink.new) line.now }
    ensures never_falls { K.faults sink.old ≤ K.faults sink.new }
{
    let _ = put_all(sink, line);
    status
}

// Writes a fault line that takes memory and answers its status, or the line and status of memory that ran out where there was
// none for it.
fn put_made<K: Sink>(sink: &mut K, line: Result<Vec<u8>, Memory>, status: Status) -> Status
    ensures made { IfOk line (λ text. (result ≡ status) × WritesSome (change K.written K.faults sink.old sink.new) text.items) }
    ensures starved { IfErr line (λ _. (result ≡ NoMemory) × WritesSome (change K.written K.faults sink.old sink.new) no_memory) }
    ensures never_falls { K.faults sink.old ≤ K.faults sink.new }
{
    match line {
        Ok(text) => put_fault(sink, &text, status),
        Err(_) => put_fault(sink, no_memory_line(), Status::NoMemory),
    }
}

// Writes the line of a refusal, or of memory that ran out for that line.
fn put_refusal<K: Sink>(alloc: Global, refusal: Refusal, sink: &mut K) -> Status
    ensures { EndsRefused refusal (change K.written K.faults sink.old sink.new) result }
{
    match refusal {
        Refusal::BadWords => put_fault(sink, usage_line(), Status::BadWords),
        Refusal::BadScenario { line, why } => {
            put_made(sink, scenario_line(alloc, line, why), Status::BadScenario)
        }
        Refusal::ReadFault => put_fault(sink, read_fault_line(), Status::ReadFault),
        Refusal::DiskFault => put_fault(sink, disk_fault_line(), Status::DiskFault),
        Refusal::NotAJournal => put_fault(sink, not_a_journal_line(), Status::NotAJournal),
        Refusal::WrongShape { kept, asked } => {
            put_made(sink, shape_line(alloc, &kept, &asked), Status::WrongShape)
        }
        Refusal::Damaged { at } => put_made(sink, damaged_line(alloc, at), Status::Damaged),
        Refusal::Full { held, more } => {
            put_made(sink, full_line(alloc, held, more), Status::Full)
        }
        Refusal::Missing {
            switch,
            epoch,
            known,
            width,
        } => put_made(
            sink,
            missing_line(alloc, switch, epoch, known, width),
            Status::Missing,
        ),
        Refusal::Blank => put_fault(sink, blank_line(), Status::Missing),
        Refusal::Memory => put_fault(sink, no_memory_line(), Status::NoMemory),
    }
}

/// Writes what a command gave, and answers the status: all of its output, or the line of why it has none. Memory is
/// taken for the lines alone that have a number in them; where there is none, the end is that of memory that ran out.
pub fn end<K: Sink>(alloc: Global, given: Result<Vec<u8>, Refusal>, sink: &mut K) -> Status
    ensures output { IfOk given (λ text. EndsWith text.items (change K.written K.faults sink.old sink.new) result) }
    ensures refused { IfErr given (λ refusal. EndsRefused refusal (change K.written K.faults sink.old sink.new) result) }
{
    match given {
        Ok(text) => put_output(sink, &text),
        Err(refusal) => put_refusal(alloc, refusal, sink),
    }
}

/// Writes what a run tells, and answers the status: that of what is told, or `WriteFault` where the sink does not take the
/// report. Where memory ran out, the line of that is written alone.
pub(crate) fn end_run<K: Sink>(told: Result<Told, Memory>, sink: &mut K) -> Status
    ensures told { IfOk told (λ t. EndsTold t (change K.written K.faults sink.old sink.new) result) }
    ensures starved { IfErr told (λ _. EndsWithLine NoMemory no_memory (change K.written K.faults sink.old sink.new) result) }
{
    match told {
        Ok(Told::Report(text)) => put_output(sink, &text),
        Ok(Told::Conflict(text)) => put_fault(sink, &text, Status::Conflict),
        Ok(Told::Full(text)) => put_fault(sink, &text, Status::Full),
        Ok(Told::DiskFault(text)) => put_fault(sink, &text, Status::DiskFault),
        Err(_) => put_fault(sink, no_memory_line(), Status::NoMemory),
    }
}
