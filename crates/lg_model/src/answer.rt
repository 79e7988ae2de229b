//! What is told of a flow (docs/DEFINITIONS.md, Answer).

/// What is told of a counter.
#[derive(Clone, Copy, Debug, PartialEq, Eq)]
pub enum Value {
    /// No row of the flow is known.
    Unknown,
    /// The true value is at most this, in bytes or in microseconds.
    AtMost(u32),
    /// The least known counter stands at its last value, so the true value may be any.
    Saturated,
}

/// What is told of a flow at a switch in an epoch.
#[derive(Clone, Copy, Debug, PartialEq, Eq)]
pub struct Answer {
    /// How many rows are known, 0 to 8.
    pub rows_known: u8,
    /// The bytes of the flow.
    pub bytes: Value,
    /// The greatest delay of a packet of the flow, in microseconds.
    pub delay: Value,
}
