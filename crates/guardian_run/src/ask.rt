//! The command `ask`: the report on the book as it is.
ghost use Rattle.std.specs.Prelude.{Ok, Err, Some, IfOk, IfErr};
ghost use Rattle.guardian_words.specs.declared.commands.Command.TheVariants.{Ask};
ghost use Rattle.book_journal.specs.Crashes.{OnlyReads};
ghost use Rattle.guardian_run.specs.Changes.{change, disk_change};
ghost use Rattle.guardian_run.specs.Giving.{Gives};

use crate::looking::book_under;
use crate::refusal::Refusal;
use crate::reporting::report;
use lg_base::Source;
use lg_disk::Disk;
use run_laws::books_are_true;
use scenario_text::read;
use std::alloc::Global;

/// Reads a scenario from the source and gives the report on the book of the disk's file under the scenario's shape. No
/// network is run, and the disk is only read.
///
/// `BadScenario` where the input is no scenario text; then `NotAJournal`, `WrongShape`, `Damaged` and `Full` where the file
/// has that fault first; `ReadFault` and `DiskFault` only where that count of faults rose in this call or stands at its
/// last value, `Memory` where no memory was found.
pub fn ask<S: Source, D: Disk>(
    alloc: Global,
    source: &mut S,
    disk: &mut D,
) -> Result<Vec<u8>, Refusal>
    ensures output { IfOk result (λ text. Gives (Some Ask) (change S.left S.faults source.old source.new)
        (disk_change D.honest D.seen D.faults disk.old disk.new) (Ok text.items)) }
    ensures refused { IfErr result (λ refusal. Gives (Some Ask) (change S.left S.faults source.old source.new)
        (disk_change D.honest D.seen D.faults disk.old disk.new) (Err refusal)) }
    ensures reads { OnlyReads D.honest D.seen D.images D.moment D.since disk.old disk.new }
{
    books_are_true();
    let scenario = read(alloc, source)?;
    let book = book_under(alloc, disk, &scenario.shape())?;
    let text = report(alloc, &scenario, &book)?;
    Ok(text)
}
