//! The limits of a session (docs/DEFINITIONS.md, Sessions).

/// The most frames that a session answers.
pub const MOST_SESSION_FRAMES: u32 = 1_000_000;

/// The most bytes that a session reads at once.
pub const MOST_PIECE_BYTES: usize = 4_096;
