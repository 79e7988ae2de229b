//! The limits of sketches, scenarios, uploads and sessions (docs/FORMATS.md, Limits). Code and definitions cite them
//! by these names.

/// The most rows of a sketch.
pub const MOST_ROWS: u8 = 8;

/// The most buckets of a row.
pub const MOST_WIDTH: u16 = 4_096;

/// The last value of a counter of bytes.
pub const LAST_BYTES: u32 = 4_294_967_295;

/// The last value of a counter of delay, in microseconds.
pub const LAST_DELAY: u16 = 65_535;

/// The most bytes of a scenario text.
pub const MOST_TEXT_BYTES: usize = 16_777_216;

/// The most hosts of a scenario.
pub const MOST_HOSTS: usize = 64;

/// The most switches of a scenario.
pub const MOST_SWITCHES: usize = 64;

/// The most flows of a scenario.
pub const MOST_FLOWS: usize = 4_096;

/// The most switches on the path of a flow.
pub const MOST_HOPS: usize = 16;

/// The most packets that a scenario sends.
pub const MOST_PACKETS: u32 = 1_000_000;

/// The most epochs that a switch ends.
pub const MOST_ENDS: u32 = 65_535;

/// The most asks of a scenario.
pub const MOST_ASKS: usize = 10_000;

/// The most letters of a host's link.
pub const MOST_LETTERS: usize = 4_096;

/// The most bytes of a sketchlet, which is one of [`MOST_ROWS`] rows.
pub const MOST_SKETCHLET_BYTES: usize = 62;

/// The most columns of an upload.
pub const MOST_UPLOAD_COLUMNS: usize = 16;

/// The most bytes of a frame.
pub const MOST_FRAME_BYTES: usize = 1_000;

/// The most uploads that a host has sent and that are not yet answered.
pub const MOST_OUTSTANDING: usize = 8;

/// The most passes to one book: one for each host, and the analyser's own.
pub const MOST_PASSES: usize = 65;
