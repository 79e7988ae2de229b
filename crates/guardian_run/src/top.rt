//! The top calls.
ghost use Rattle.std.specs.Prelude.{◌≡◌, ℕ, Some, false};
ghost use Rattle.guardian_words.specs.declared.commands.Command.TheVariants.{Run, Demo};
ghost use Rattle.guardian_words.specs.Words.{asked};
ghost use Rattle.book_journal.specs.Crashes.{OnlyReads};
ghost use Rattle.guardian_run.specs.Changes.{change, disk_change};
ghost use Rattle.guardian_run.specs.Outcomes.{reading_command, may_write, LawOfOutcomes};
ghost use Rattle.guardian_run.specs.Ends.{Ends};
ghost use Rattle.guardian_run.specs.Running.{RunEnds};
ghost use Rattle.guardian_run.specs.Showing.{DemoEnds};

use crate::ask::ask;
use crate::capture::capture;
use crate::demo::demo;
use crate::ending::end;
use crate::list::list;
use crate::make::make;
use crate::rebuild::rebuild;
use crate::refusal::Refusal;
use crate::run::run;
use crate::status::Status;
use guardian_words::{Command, command};
use lg_base::{Gate, Sink, Source};
use lg_disk::Disk;
use std::alloc::Global;
use std::sync::Wait;
use std::thread::Threads;

/// The law of outcomes: what the words, the input and the book's file come to is one output, or one refusal
/// (docs/DEFINITIONS.md, Ends).
pub fn outcomes_are_one()
    ensures { LawOfOutcomes }
{}

/// Does what the words say, if it is a command that never writes to the disk: `ask`, `list`, `rebuild`, `capture` and `make`.
///
/// `BadWords` exactly where the words are none of these. The other answers are those of [`guardian`]. At each end a read of
/// the disk gives what it gave before, and a crash leaves what it might have left.
pub fn guardian_read<S: Source, K: Sink, D: Disk>(
    alloc: Global,
    words: &[String],
    source: &mut S,
    sink: &mut K,
    disk: &mut D,
) -> Status
    ensures ends { Ends (reading_command (asked words.now)) (change S.left S.faults source.old source.new)
        (change K.written K.faults sink.old sink.new) (disk_change D.honest D.seen D.faults disk.old disk.new) result }
    ensures reads { OnlyReads D.honest D.seen D.images D.moment D.since disk.old disk.new }
{
    match command(words) {
        Some(Command::Ask) => end(alloc, ask(alloc, source, disk), sink),
        Some(Command::List) => end(alloc, list(alloc, disk), sink),
        Some(Command::Rebuild { switch, epoch }) => {
            end(alloc, rebuild(alloc, disk, switch, epoch), sink)
        }
        Some(Command::Capture) => end(alloc, capture(alloc, source), sink),
        Some(Command::Make(rounds)) => end(alloc, make(alloc, rounds), sink),
        Some(Command::Run) => end(alloc, Err(Refusal::BadWords), sink),
        Some(Command::Demo(_)) => end(alloc, Err(Refusal::BadWords), sink),
        None => end(alloc, Err(Refusal::BadWords), sink),
    }
}

/// Does what the words say: `run` reads a scenario from the source, runs its network, adds what came to the hosts to the book
/// of the disk's file, and writes the report on that book into the sink; `ask` reads a scenario and writes the report on the
/// book as it is, `list` all its columns, and `rebuild` a sketch of them; `capture` writes the sketchlets that came to the
/// hosts. `make` writes the text of a generated scenario, and `demo` runs one as `run` does and writes a summary. The disk is
/// handed back at every end. How a call ends is the record `RunEnds` for `run`, `DemoEnds` for `demo`, and `Ends` for every
/// other command (docs/DEFINITIONS.md, Ends).
///
/// At `Ok` the output was written, at `WriteFault` a front of it; at `Conflict`, `Full` and `DiskFault` of a run a line for each
/// acknowledged upload and the fault line, at every other status the fault line alone, or a front of that where the sink
/// failed. What is written of a network is true: of the scenario's own run, and of a book that agrees with the scenario.
///
/// `BadWords` exactly where the words are no command; nothing is read then. `BadScenario` where a scenario is read and the input
/// is no scenario text; then `NotAJournal`, `WrongShape`, `Damaged` and `Full` where the book's file has that fault first;
/// `Missing` where a sketch is to be rebuilt and fewer columns than its width are in the book, or the book is blank. `run` and
/// `demo` end with `Conflict` where a column that came to a host has other counters than the book's column of its key, and with `Full`
/// where both together have more keys than a book has room for. `ReadFault`, `WriteFault` and `DiskFault` come only where the
/// source's, the sink's or the disk's count of faults rose in this call or stands at its last value, `NoMemory` where no memory
/// was found.
///
/// All commands but `run` and `demo` only read the disk. What a run leaves is legal at every moment, a crash included; each acknowledged
/// upload is in every file that a crash may leave now; and where all that is brought was there, the file stays as it was.
pub fn guardian<S: Source, K: Sink, D: Disk + Send, G: Gate, R: Threads + Wait + Sync>(
    alloc: Global,
    rt: &R,
    words: &[String],
    source: &mut S,
    sink: &mut K,
    mut disk: D,
    gate: &G,
) -> (Status, D)
    ensures runs { asked words.now ≡ Some Run → RunEnds D.honest D.seen D.images D.moment D.since D.faults
        (change S.left S.faults source.old source.new) (change K.written K.faults sink.old sink.new) disk result.1 result.0 }
    ensures shows { (rounds : ℕ) → asked words.now ≡ Some (Demo rounds) → DemoEnds D.honest D.seen D.images D.moment D.since D.faults
        rounds (change S.left S.faults source.old source.new) (change K.written K.faults sink.old sink.new) disk result.1 result.0 }
    ensures ends { may_write (asked words.now) ≡ false → Ends (asked words.now) (change S.left S.faults source.old source.new)
        (change K.written K.faults sink.old sink.new) (disk_change D.honest D.seen D.faults disk result.1) result.0 }
    ensures reads { may_write (asked words.now) ≡ false → OnlyReads D.honest D.seen D.images D.moment D.since disk result.1 }
{
    match command(words) {
        Some(Command::Run) => run(alloc, rt, source, sink, disk, gate),
        Some(Command::Demo(rounds)) => demo(alloc, rt, rounds, sink, disk, gate),
        _ => {
            let status = guardian_read(alloc, words, source, sink, &mut disk);
            (status, disk)
        }
    }
}
