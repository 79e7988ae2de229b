//! What stands at the front of an entry.

/// The front of an entry: who stored it, which upload it is of, and how many columns it has.
#[derive(Clone, Copy, Debug, PartialEq, Eq)]
pub struct Head {
    /// The number of the pass that stored it.
    pub pass: u32,
    /// The host's name.
    pub host: u16,
    /// The number of the upload at its host.
    pub seq: u32,
    /// The number of columns, 1 to 16.
    pub count: u8,
}

/// An entry as the book keeps it: its front, and where its keys begin in the list of all keys.
#[derive(Clone, Copy, Debug, PartialEq, Eq)]
pub(crate) struct Row {
    pub(crate) head: Head,
    pub(crate) first: u32,
}
