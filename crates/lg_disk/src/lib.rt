//! A file as a journal sees it: what a read gives, and what a crash may leave.
//!
//! | Item | What it is |
//! |---|---|
//! | [`Disk`] | what holds a file: reads, writes, cuts and syncs, and a count of faults |
//! | [`MemoryDisk`], [`Choice`] | a disk in memory that fails where it is told to, and gives its crash images |
//! | [`FileDisk`] | a disk over a real file |
//!
//! Between two syncs that succeed, a crash may leave any bytes in each range that was written and past the length at the
//! last sync, and any length from the least to the greatest that the file had since. All other bytes stay. After a sync
//! that succeeds a crash leaves what a read gives. docs/DEFINITIONS.md, "Disk", has the whole of it.
#![tactic(auto)]

mod bytes;
mod call;
mod choice;
mod disk;
mod file_disk;
mod memory_disk;
mod replay;

pub use choice::Choice;
pub use disk::Disk;
pub use file_disk::FileDisk;
pub use memory_disk::MemoryDisk;
