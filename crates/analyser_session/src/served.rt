//! A session that came to its end.

/// A session that was ended by a bye.
#[derive(Clone, Copy, Debug, PartialEq, Eq)]
pub struct Served {
    /// How many frames were answered, the bye with them: 1 to 1,000,000.
    pub frames: u32,
}
