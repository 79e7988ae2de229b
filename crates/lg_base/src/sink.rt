//! Where bytes go to.
ghost use Rattle.std.specs.Prelude.{◌≡◌, ◌<◌, ℕ, List, Option, length, IfOk};
ghost use Rattle.std.specs.Io.{WritesAtMost};
ghost use Rattle.std.specs.Io.KnownBytes.{WriteAppends};
ghost use Rattle.lg_base.specs.Causes.{HasCause};

use crate::faults::Failed;

/// A sink of bytes that counts its faults.
pub trait Sink {
    /// The bytes put so far, where the sink tells them.
    ghost written: { Self → Option (List ℕ) };

    /// How often the sink has failed, up to 2^64 - 1.
    ghost faults: { Self → ℕ };

    /// Appends a front of the bytes, and answers how many they are: at least one where there is one, so that a
    /// caller who puts the rest again comes to an end.
    ///
    /// `Failed` comes only where the count of faults rose in this call, or stands at 2^64 - 1. No byte that is told
    /// was appended then.
    fn put(&mut self, bytes: &[u8]) -> Result<usize, Failed>
        ensures bound { WritesAtMost result bytes.now }
        ensures progress { 0 < length bytes.now → IfOk result (λ n. 0 < n) }
        ensures bytes { WriteAppends (written self.old) (written self.new) result bytes.now }
        ensures cause { HasCause (faults self.old) (faults self.new) result };

    /// How often the sink has failed. The count never falls, and stands still at 2^64 - 1.
    fn fault_count(&self) -> u64
        ensures { result ≡ faults self.now };
}
