//! Worked examples of uploads, of what they do to a book, of its file and a disk, of links and of the world.
ghost use Rattle.worked_examples.specs.Applying.{WorkedApplying};
ghost use Rattle.worked_examples.specs.Disks.{WorkedDisks};
ghost use Rattle.worked_examples.specs.Files.{WorkedBookFiles};
ghost use Rattle.worked_examples.specs.Links.{WorkedLinks};
ghost use Rattle.worked_examples.specs.Uploads.{WorkedUploads};
ghost use Rattle.worked_examples.specs.Worlds.{WorkedWorlds};

/// The bytes of columns and shapes, and what comes to the hosts cut into uploads.
pub fn worked_uploads()
    ensures { WorkedUploads }
{}

/// What an upload does to the entries of a book.
pub fn worked_applying()
    ensures { WorkedApplying }
{}

/// The bytes of a book's file, and what is no blank file and no record.
pub fn worked_book_files()
    ensures { WorkedBookFiles }
{}

/// What a read of a disk gives after some calls, and what a crash may leave then.
pub fn worked_disks()
    ensures { WorkedDisks }
{}

/// The states of a host's uploads, the replies to them, and what a link brings.
pub fn worked_links()
    ensures { WorkedLinks }
{}

/// Events of the world, one after the other, and counts of faults.
pub fn worked_worlds()
    ensures { WorkedWorlds }
{}
