//! The passes of the workers, back into the first one.
ghost use Rattle.std.specs.Prelude.{◌≡◌, ◌≢◌, ◌≤◌, [], length, map, All};
ghost use Rattle.std.specs.Vec.{vec_capacity};
ghost use Rattle.host_workers.specs.Working.{JoinsAll};

use crate::sender::{Job, Sender};
use lg_disk::Disk;
use shared_book::{Pass, SharedBook};

/// Joins the passes of all jobs into the first pass, in their order, and gives the senders back. Takes no memory: there is
/// room for the senders.
pub(crate) fn join_all<'a, D: Disk>(
    book: &SharedBook<D>,
    first: &mut Pass,
    jobs: Vec<Job<'a>>,
    senders: &mut Vec<Sender<'a>>,
)
    requires book { first.old.book ≡ book.now.id }
    requires one { first.old.view.number ≡ 1 }
    requires others { All (λ j. (j.pass.book ≡ book.now.id) × (j.pass.view.number ≢ 1)) jobs.items }
    requires none { senders.old.items ≡ [] }
    requires room { length jobs.items ≤ vec_capacity senders.old }
    ensures book { first.new.book ≡ first.old.book }
    ensures joins { JoinsAll first.old.view (map (λ j. j.pass.view) jobs.entry.items) first.new.view }
    ensures senders { senders.new.items ≡ map (λ j. j.sender) jobs.entry.items }
{
    for job in jobs {
        let Job { pass, sender } = job;
        book.join(first, pass);
        senders.push_reserved(sender);
    }
}
