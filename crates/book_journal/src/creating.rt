//! Making a blank file the empty journal.
ghost use Rattle.std.specs.Prelude.{◌≡◌, [], OnOk};
ghost use Rattle.sketchlet_wire.specs.ShapeFields.{FitsShape};
ghost use Rattle.lg_base.specs.Causes.{HasCause};
ghost use Rattle.book_file.specs.File.{IsBlank, Spells, StandsFor};
ghost use Rattle.book_journal.specs.Crashes.{IsSynced, Leaves};

use crate::synced::{append, cut_synced, write_synced};
use book_file::empty_file;
use lg_base::Failed;
use lg_disk::Disk;
use lg_model::Shape;

// Makes a blank file the empty journal of a shape, in eight calls of the disk. The file is cut to nothing and gets a
// closed gate; then the rest is written after that gate, and it is opened. A crash at any moment leaves a blank file or
// the empty journal.
pub(crate) fn create<D: Disk>(disk: &mut D, shape: &Shape) -> Result<(), Failed>
    ensures still { D.honest disk.old → D.honest disk.new }
    ensures was { D.honest disk.new → D.honest disk.old }
    ensures crash { IsSynced D.honest D.seen D.images disk.old → IsBlank (D.seen disk.old) →
        Leaves D.moment D.since (StandsFor shape.now []) disk.old disk.new }
    ensures synced { IsSynced D.honest D.seen D.images disk.old →
        OnOk result (IsSynced D.honest D.seen D.images disk.new) }
    ensures written { IsSynced D.honest D.seen D.images disk.old → OnOk result (Spells shape.now [] (D.seen disk.new)) }
    ensures fits { FitsShape shape.now }
    ensures cause { HasCause (D.faults disk.old) (D.faults disk.new) result }
{
    let file = empty_file(shape);
    cut_synced(disk, 0)?;
    write_synced(disk, 0, &[0])?;
    append(disk, 0, &file[1..])
}
