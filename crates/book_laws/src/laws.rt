//! Laws over the definitions alone, on functions with empty bodies.
ghost use Rattle.book_laws.specs.Laws.{LawOfLegalLists, LawOfRefusals, LawOfTrueLists, LawOfStanding, LawOfFilesLeft};
ghost use Rattle.book_laws.specs.Laws.{LawOfWorkers};
ghost use Rattle.book_laws.specs.Rows.{WorkedBooks};

use lg_disk::Disk;

/// The law of legal lists: each list from the one that was found up to a legal one is legal. What was found stays,
/// what was added is brought, and no key comes twice. With all that is brought the content is the join of both; and
/// where all of that was found, nothing is added (docs/DEFINITIONS.md, Runs over a book).
pub fn legal_lists_grow()
    ensures { LawOfLegalLists }
{}

/// The law of refusals: where an upload of a run is refused after a legal list, a brought column differs from one that
/// was found, or the keys of both are more than a book has room for. The size of a column is never the cause.
pub fn refusals_have_causes()
    ensures { LawOfRefusals }
{}

/// The law of true lists: each column that a run adds is the one its switch froze. A list that agrees with the scenario
/// does so after the run, and each answer of the report on it is true.
pub fn lists_are_true()
    ensures { LawOfTrueLists }
{}

/// A file of a book stands for at most one list under a shape, and for one in which no key stands twice.
pub fn files_stand_for_one_list()
    ensures { LawOfStanding }
{}

/// What a run leaves on a disk, said of each file that a crash may leave. Its list is legal; of any two lists, one
/// begins with the other; and none has more than one record beyond a list that a crash now leaves.
pub fn files_left_are_legal<D: Disk>(old: &D, new: &D)
    ensures { LawOfFilesLeft (D.images old.now) (D.images new.now) (D.since new.now (D.moment old.now)) }
{
    let _ = old;
    let _ = new;
}

/// The law of workers: each host has a worker, whose pass pumps the host's uploads over its link into one book. However
/// the workers ran, the list that they leave is legal, and so it is with the record that may be on the disk where the
/// journal broke. All columns of an acknowledged upload are kept. Where every worker ended well, all that is brought is
/// there; where the book refused an upload, the cause is that of the law of refusals, or the journal is broken
/// (docs/DEFINITIONS.md, Runs over a book).
pub fn workers_leave_legal_lists()
    ensures { LawOfWorkers }
{}

/// Worked runs: their uploads, the lists that they leave, two lists that no run of them leaves, and a clash.
pub fn worked_books()
    ensures { WorkedBooks }
{}
