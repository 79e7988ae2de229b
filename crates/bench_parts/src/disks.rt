//! The parts of the disk.

use crate::columns::mixed;
use lg_disk::Disk;

// How many bytes a read asks for.
const PIECE: usize = 4096;

// Reads the file piece after piece, and takes in the ends of each.
fn scan<D: Disk>(disk: &mut D, sum: u64) -> Option<u64> {
    let mut sum = sum;
    let mut at = 0u64;
    let mut piece = [0; PIECE];
    for _ in 0..u64::MAX {
        let count = disk.read_at(at, &mut piece).ok()?;
        if count == 0 {
            return Some(sum);
        }
        sum = mixed(sum, count as u64);
        sum = mixed(sum, u64::from(piece[0]));
        sum = mixed(sum, u64::from(piece[count - 1]));
        at = at.wrapping_add(PIECE as u64);
    }
    None
}

/// Reads the file, `times` times.
pub(crate) fn scanned<D: Disk>(disk: &mut D, times: u32) -> Option<u64> {
    let mut sum = 0;
    for _ in 0..times {
        sum = scan(disk, sum)?;
    }
    Some(sum)
}

// Appends a record of 30 bytes, and, once it is durable, a byte that says so.
fn append<D: Disk>(disk: &mut D, at: u64, n: u32) -> Option<u64> {
    if at > 1_000_000_000_000 {
        return None;
    }
    let mut record = [76; 30];
    record[..4].copy_from_slice(&n.to_be_bytes());
    disk.write_at(at, &record).ok()?;
    disk.sync().ok()?;
    disk.write_at(at + 30, &[1]).ok()?;
    disk.sync().ok()?;
    Some(at + 31)
}

/// Appends `count` records, and answers the length of the file.
pub(crate) fn appended<D: Disk>(disk: &mut D, count: u32) -> Option<u64> {
    let mut at = disk.len().ok()?;
    for n in 0..count {
        at = append(disk, at, n)?;
    }
    Some(at)
}
