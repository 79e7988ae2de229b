//! Which image of a disk is meant.

/// One of the files that a crash now may leave.
#[derive(Clone, Copy, Debug, PartialEq, Eq)]
pub enum Choice {
    /// What a read gives.
    AsRead,
    /// What a read gave at the last sync that succeeded.
    AsSynced,
    /// The greatest length that the file had since that sync, with this byte at each place where a crash may leave any.
    FillLong(u8),
    /// The least length that it had since, with this byte at each place where a crash may leave any.
    FillShort(u8),
}
