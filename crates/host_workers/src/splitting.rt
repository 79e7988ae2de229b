//! The passes of the workers.
ghost use Rattle.std.specs.Prelude.{◌≡◌, ◌≤◌, ◌+◌, [], length};
ghost use Rattle.std.specs.Vec.{vec_capacity};
ghost use Rattle.host_workers.specs.Working.{jobs_of};

use crate::sender::{Job, Sender};
use lg_disk::Disk;
use shared_book::{Pass, SharedBook};

/// Gives each sender a pass, numbered from 2 in their order. Takes no memory: there is room for the jobs.
pub(crate) fn split_all<'a, D: Disk>(
    book: &SharedBook<D>,
    first: &mut Pass,
    senders: Vec<Sender<'a>>,
    jobs: &mut Vec<Job<'a>>,
)
    requires book { first.old.book ≡ book.now.id }
    requires one { first.old.view.number ≡ 1 }
    requires made { first.old.view.made ≡ 1 }
    requires few { length senders.items ≤ 64 }
    requires none { jobs.old.items ≡ [] }
    requires room { length senders.items ≤ vec_capacity jobs.old }
    ensures first { first.new ≡ record first.old { view = record first.old.view { made = length senders.entry.items + 1 } } }
    ensures jobs { jobs.new.items ≡ jobs_of book.now.id first.old.view.seen 2 senders.entry.items }
{
    for sender in senders {
        let pass = book.split(first);
        jobs.push_reserved(Job { pass, sender });
    }
}
