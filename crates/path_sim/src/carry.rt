//! Packets that carry columns (docs/DEFINITIONS.md, Allowed carrying).

/// From that hop on a packet carries the column of that index of the sketch that the switch froze last.
#[derive(Clone, Copy, Debug, PartialEq, Eq)]
pub struct Carry {
    /// The number of the packet, from 0.
    pub packet: u32,
    /// The hop, from 1.
    pub hop: u8,
    /// The position of the switch.
    pub switch_at: u16,
    /// The name of the switch.
    pub switch: u16,
    /// The epoch of the sketch.
    pub epoch: u32,
    /// The index of the column, below the width.
    pub index: u16,
}
