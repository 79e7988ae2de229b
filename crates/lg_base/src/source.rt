//! Where bytes come from.
ghost use Rattle.std.specs.Prelude.{◌≡◌, ℕ, List, Option};
ghost use Rattle.std.specs.Io.{ReadsAtMost};
ghost use Rattle.std.specs.Io.KnownBytes.{ReadConsumes};
ghost use Rattle.lg_base.specs.Causes.{HasCause};

use crate::faults::Failed;

/// A source of bytes that counts its faults.
pub trait Source {
    /// The bytes not yet taken, where the source tells them.
    ghost left: { Self → Option (List ℕ) };

    /// How often the source has failed, up to 2^64 - 1.
    ghost faults: { Self → ℕ };

    /// Takes bytes off the front into the front of the buffer, at most as many as the buffer has, and answers how
    /// many they are. `Ok(0)` for a buffer that isn't empty is the end: no bytes are left.
    ///
    /// `Failed` comes only where the count of faults rose in this call, or stands at 2^64 - 1. No byte that is told
    /// was taken then, and the bytes of the buffer mean nothing.
    fn take(&mut self, buf: &mut [u8]) -> Result<usize, Failed>
        ensures bound { ReadsAtMost result buf.new }
        ensures bytes { ReadConsumes (left self.old) (left self.new) result buf.new }
        ensures cause { HasCause (faults self.old) (faults self.new) result };

    /// How often the source has failed. The count never falls, and stands still at 2^64 - 1.
    fn fault_count(&self) -> u64
        ensures { result ≡ faults self.now };
}
