//! What the calls of a disk in memory changed.
ghost use Rattle.std.specs.Prelude.{◌≡◌};

use std::marker::Model;

/// The bytes of a write. Contracts see their list.
#[derive(Drop)]
pub struct Put {
    bytes: Vec<u8>,
}

impl Model for Put {
    ghost use Rattle.std.specs.Prelude.{List, ℕ};

    ghost Value = { List ℕ };

    ghost view = { λ put. put.bytes.items };
}

impl Put {
    /// These bytes. Takes no memory.
    pub fn new(bytes: Vec<u8>) -> Put
        ensures { result ≡ bytes.items }
    {
        Put { bytes }
    }

    /// The bytes, in order.
    pub fn bytes(&self) -> &[u8]
        ensures { result.now ≡ self.now }
    {
        &self.bytes
    }
}

/// What one call changed, whether it failed or not.
#[derive(Drop)]
pub enum Call {
    /// A call that changes nothing: of `len` or `read_at`, or one that failed.
    Nothing,
    /// These bytes were put there: all of a write, or the part of one that failed.
    Write { at: u64, bytes: Put },
    /// The length became the smaller of itself and this.
    Cut { len: u64 },
    /// All became durable.
    Sync,
}
