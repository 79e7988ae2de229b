//! What a packet does to one row (docs/DEFINITIONS.md, Raise). A row is updated by the least of the flow's old sums in
//! it and in the rows before it, so that the rows of a sketch can stand in a pipeline.
ghost use Rattle.std.specs.Prelude.{◌≡◌, ◌<◌, length, min, slice_set};
ghost use Rattle.lg_model.specs.Sketch.{bucket_in, raised};

use lg_model::Bucket;

/// Counts a packet of `size` bytes that waited `delay` microseconds in the bucket at `place` of a row, and answers the
/// least of `running` and the bucket's old sum, which is the next row's `running`. The first row is given
/// `u32::MAX`. The place is below the row's length.
///
/// The new sum is the greater of the old one and of the answer plus the size; the new maximum is the greater of the
/// old one and of the delay. Sums stand still at `u32::MAX`, maxima at `u16::MAX`. No other bucket changes.
pub fn step(row: &mut [Bucket], place: u16, size: u32, delay: u32, running: u32) -> u32
    requires { place < length row.old }
    ensures least { result ≡ min running (bucket_in row.old place).bytes }
    ensures row { row.new ≡ slice_set row.old place (raised (bucket_in row.old place) result size delay) }
{
    let bucket = row[place as usize];
    let least = running.min(bucket.bytes);
    let bytes = least.saturating_add(size);
    let delay = u16::try_from(delay).unwrap_or(u16::MAX);
    row[place as usize] = Bucket {
        bytes: bucket.bytes.max(bytes),
        delay: bucket.delay.max(delay),
    };
    least
}
