//! Changes of a file that are made durable, and what a crash in the middle of them leaves.
ghost use Rattle.std.specs.Prelude.{◌≡◌, ◌+◌, ◌<◌, ◌≤◌, ◌^◌, ◌++◌, ◌∷◌, length, take, drop, OnOk};
ghost use Rattle.lg_base.specs.Causes.{HasCause};
ghost use Rattle.lg_disk.specs.Disk.{Holds, Shorter, Torn};
ghost use Rattle.book_journal.specs.Crashes.{Appending, IsSynced, Leaves};

use lg_base::Failed;
use lg_disk::Disk;

// Writes bytes, and syncs.
pub(crate) fn write_synced<D: Disk>(disk: &mut D, at: u64, bytes: &[u8]) -> Result<(), Failed>
    requires { at + length bytes.now ≤ 2 ^ 40 }
    ensures still { D.honest disk.old → D.honest disk.new }
    ensures was { D.honest disk.new → D.honest disk.old }
    ensures crash { IsSynced D.honest D.seen D.images disk.old →
        Leaves D.moment D.since (Torn at (length bytes.now) (D.seen disk.old)) disk.old disk.new }
    ensures synced { IsSynced D.honest D.seen D.images disk.old →
        OnOk result (IsSynced D.honest D.seen D.images disk.new) }
    ensures written { IsSynced D.honest D.seen D.images disk.old → at ≤ length (D.seen disk.old) →
        OnOk result (Holds (D.seen disk.old) at bytes.now (D.seen disk.new)) }
    ensures cause { HasCause (D.faults disk.old) (D.faults disk.new) result }
{
    disk.write_at(at, bytes)?;
    disk.sync()
}

// Cuts the file, and syncs.
pub(crate) fn cut_synced<D: Disk>(disk: &mut D, len: u64) -> Result<(), Failed>
    ensures still { D.honest disk.old → D.honest disk.new }
    ensures was { D.honest disk.new → D.honest disk.old }
    ensures crash { IsSynced D.honest D.seen D.images disk.old →
        Leaves D.moment D.since (Shorter len (D.seen disk.old)) disk.old disk.new }
    ensures synced { IsSynced D.honest D.seen D.images disk.old →
        OnOk result (IsSynced D.honest D.seen D.images disk.new) }
    ensures cut { IsSynced D.honest D.seen D.images disk.old →
        OnOk result (D.seen disk.new ≡ take len (D.seen disk.old)) }
    ensures cause { HasCause (D.faults disk.old) (D.faults disk.new) result }
{
    disk.cut(len)?;
    disk.sync()
}

// Writes bytes after a closed gate and syncs, and then opens the gate and syncs.
pub(crate) fn append<D: Disk>(disk: &mut D, gate: u64, bytes: &[u8]) -> Result<(), Failed>
    requires { gate + 1 + length bytes.now ≤ 2 ^ 40 }
    ensures still { D.honest disk.old → D.honest disk.new }
    ensures was { D.honest disk.new → D.honest disk.old }
    ensures crash { IsSynced D.honest D.seen D.images disk.old → gate < length (D.seen disk.old) →
        Leaves D.moment D.since (Appending (D.seen disk.old) gate bytes.now) disk.old disk.new }
    ensures synced { IsSynced D.honest D.seen D.images disk.old →
        OnOk result (IsSynced D.honest D.seen D.images disk.new) }
    ensures written { IsSynced D.honest D.seen D.images disk.old → gate < length (D.seen disk.old) →
        OnOk result (D.seen disk.new
        ≡ take gate (D.seen disk.old) ++ 1 ∷ bytes.now ++ drop (gate + 1 + length bytes.now) (D.seen disk.old)) }
    ensures cause { HasCause (D.faults disk.old) (D.faults disk.new) result }
{
    write_synced(disk, gate + 1, bytes)?;
    write_synced(disk, gate, &[1])
}
