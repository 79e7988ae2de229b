//! The uploads of a run: what came to the hosts is cut, and a worker for each host sends it over the host's link into the
//! book (docs/DEFINITIONS.md, Runs over a book).
ghost use Rattle.std.specs.Prelude.{◌≡◌, ◌<◌, ◌*◌, ◌≤◌, length, None, All, IfOk, IfErr};
ghost use Rattle.scenario_parts.specs.Whole.{IsWhole};
ghost use Rattle.column_book.specs.declared.book.TheConstants.{ROOM};
ghost use Rattle.column_book.specs.Entries.{records};
ghost use Rattle.book_laws.specs.Keeping.{HasKeysOnce};
ghost use Rattle.shared_book.specs.Going.{GoesOn};
ghost use Rattle.host_workers.specs.Working.{HasCallsFor, HasSeats};
ghost use Rattle.guardian_run.specs.Arrived.{HavePooled};
ghost use Rattle.guardian_run.specs.Sending.{uploader_at, AreSenders, HaveSent};

use book_journal::Journal;
use book_laws::workers_leave_legal_lists;
use host_collect::PackedUploads;
use host_workers::{Seats, Sender, room_for, run_workers};
use lg_base::{Gate, Memory};
use lg_disk::Disk;
use path_sim::PooledArrivals;
use scenario_text::Scenario;
use shared_book::share;
use std::alloc::Global;
use std::sync::Wait;
use std::thread::Threads;
use upload_world::Uploader;

// The uploads of what came to the host at a position. Memory where there is none for them.
fn uploader<'a>(
    alloc: Global,
    scenario: &Scenario,
    arrivals: &'a PooledArrivals,
    at: usize,
) -> Result<Uploader<PackedUploads<'a>>, Memory>
    requires arrived { HavePooled scenario.now arrivals.now }
    requires fits { IsWhole scenario.now }
    requires declared { at < length scenario.now.hosts }
    ensures { IfOk result (λ u. u ≡ uploader_at scenario.now at) }
{
    let host = &scenario.hosts()[at];
    let arrived = arrivals.arrived(at as u16);
    let uploads = PackedUploads::new(alloc, host.name, arrivals.kept(), arrived)?;
    Uploader::over(alloc, host.name, uploads)
}

// What the hosts send, in the order of declaration.
fn senders<'a>(
    alloc: Global,
    scenario: &'a Scenario,
    arrivals: &'a PooledArrivals,
) -> Result<Vec<Sender<'a>>, Memory>
    requires arrived { HavePooled scenario.now arrivals.now }
    requires fits { IsWhole scenario.now }
    ensures { IfOk result (λ ss. AreSenders scenario.now (length scenario.now.hosts) ss.items) }
{
    let hosts = scenario.hosts();
    let mut senders = Vec::new(alloc);
    for at in 0..hosts.len() {
        let uploader = uploader(alloc, scenario, arrivals, at)?;
        let letters = hosts[at].letters.items();
        senders.push(Sender {
            uploader,
            letters,
            result: Ok(()),
        })?;
    }
    Ok(senders)
}

// Takes what the workers of the hosts of a scenario need, with what came to the hosts.
fn prepare<'a>(
    alloc: Global,
    scenario: &'a Scenario,
    arrivals: &'a PooledArrivals,
) -> Result<(Vec<Sender<'a>>, Seats<'a>), Memory>
    requires arrived { HavePooled scenario.now arrivals.now }
    requires fits { IsWhole scenario.now }
    ensures senders { IfOk result (λ r. AreSenders scenario.now (length scenario.now.hosts) r.0.items) }
    ensures calls { IfOk result (λ r. All HasCallsFor r.0.items) }
    ensures few { IfOk result (λ r. length r.0.items ≤ 64) }
    ensures seats { IfOk result (λ r. HasSeats (length r.0.items) r.1) }
{
    let senders = senders(alloc, scenario, arrivals)?;
    let seats = room_for(alloc, senders.len())?;
    Ok((senders, seats))
}

/// Sends what came to the hosts of a scenario, with a worker for each host, to a journal that was just opened with the
/// scenario's shape and as much room as a book may have. Gives the closed journal and the senders back, each with how its
/// work ended; or the journal as it was, where no memory was found before the first upload.
pub(crate) fn store_all<'a, D: Disk + Send, G: Gate, R: Threads + Wait + Sync>(
    alloc: Global,
    rt: &R,
    scenario: &'a Scenario,
    arrivals: &'a PooledArrivals,
    journal: Journal<D>,
    gate: &G,
) -> Result<(Journal<D>, Vec<Sender<'a>>), Journal<D>>
    requires arrived { HavePooled scenario.now arrivals.now }
    requires fits { IsWhole scenario.now }
    requires shape { journal.shape ≡ scenario.now.shape }
    requires room { journal.room ≡ ROOM }
    requires whole { journal.fault ≡ None }
    requires once { HasKeysOnce (records journal.entries) }
    ensures sent { IfOk result (λ r. HaveSent scenario.now journal.entries r.0.entries r.0.fault r.1.items) }
    ensures goes_on { IfOk result (λ r. GoesOn D.honest D.seen D.images D.moment D.since D.faults journal r.0) }
    ensures back { IfErr result (λ j. j ≡ journal) }
{
    workers_leave_legal_lists();
    let Ok((senders, seats)) = prepare(alloc, scenario, arrivals) else {
        return Err(journal);
    };
    let (book, first) = match share(alloc, journal) {
        Ok(shared) => shared,
        Err((_, journal)) => return Err(journal),
    };
    Ok(run_workers(alloc, rt, book, first, senders, seats, gate))
}
