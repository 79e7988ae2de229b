//! Where a column is kept.

/// Where the column of an index of a switch is kept that was taken last.
#[derive(Clone, Copy, Debug)]
pub struct Slot {
    /// How many epochs the switch had ended when it was taken, or 0 where none was.
    pub ended: u32,
    /// Its position among the kept ones.
    pub place: u32,
}
