//! Buckets, and what names a column of them.

/// The counters of one row at one index: a sum of bytes, and a maximum of delays in microseconds.
/// Both stand still at their type's last value.
#[derive(Clone, Copy, Debug, PartialEq, Eq)]
pub struct Bucket {
    /// The sum, in bytes.
    pub bytes: u32,
    /// The maximum, in microseconds.
    pub delay: u16,
}

/// What names a column: a switch, an epoch of it, counted from 0, and an index below the width.
/// Keys are ordered by switch, then by epoch, then by index.
#[derive(Clone, Copy, Debug, PartialEq, Eq, PartialOrd, Ord)]
pub struct Key {
    /// The switch's name.
    pub switch: u16,
    /// The epoch of the switch.
    pub epoch: u32,
    /// The index in each row.
    pub index: u16,
}

/// The size of the sketch that a column is of: 1 to 8 rows of 1 to 4,096 buckets.
#[derive(Clone, Copy, Debug, PartialEq, Eq)]
pub struct Dims {
    /// The number of rows.
    pub rows: u8,
    /// The number of buckets of a row.
    pub width: u16,
}
