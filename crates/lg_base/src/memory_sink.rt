//! A sink in memory, which fails where it is told to.
ghost use Rattle.std.specs.Prelude.{Some, ◌≡◌, ◌<◌, ◌≤◌, ◌⊎◌, min, length, IsErr, IfOk, [], OnErr, OnOk};
ghost use Rattle.std.specs.Io.{WritesAtMost};
ghost use Rattle.std.specs.Io.KnownBytes.{WriteAppends};
ghost use Rattle.lg_base.specs.Causes.{HasCause, one_more};
ghost use Rattle.lg_base.specs.Failing.{IsToFail, after_call};

use crate::failing::Failing;
use crate::fault_count::Faults;
use crate::faults::Failed;
use crate::sink::Sink;
use std::alloc::Global;
use std::marker::Model;

/// A sink in memory. It tells its bytes, and fails exactly the calls that are listed and those that find no memory.
#[derive(Drop)]
pub struct MemorySink {
    bytes: Vec<u8>,
    piece: usize,
    failing: Failing,
    starved: Faults,
    faults: Faults,
}

impl Model for MemorySink {
    ghost use Rattle.std.specs.Prelude.{◌<◌};
    ghost use Rattle.lg_base.specs.Fakes.{SinkState};

    ghost Value = { SinkState };

    ghost view = { λ s. record {
      written = s.bytes.items;
      piece = s.piece;
      failing = s.failing;
      starved = s.starved;
      faults = s.faults;
    } };

    ghost invariant = { λ s. 0 < s.piece };
}

impl MemorySink {
    /// Takes at most `piece` bytes a call, and fails the calls of `put` whose numbers, from 0, are listed. The piece is
    /// at least 1. Takes no memory yet; `put` takes what it needs of the allocator.
    pub fn new(alloc: Global, piece: usize, failing: Vec<u32>) -> MemorySink
        requires { 0 < piece }
        ensures written { result.written ≡ [] }
        ensures piece { result.piece ≡ piece }
        ensures failing { result.failing ≡ record { listed = failing.items; calls = 0 } }
        ensures no_fault { (result.starved ≡ 0) × (result.faults ≡ 0) }
    {
        MemorySink {
            bytes: Vec::new(alloc),
            piece,
            failing: Failing::new(failing),
            starved: Faults::none(),
            faults: Faults::none(),
        }
    }

    /// All bytes that were put, in order.
    pub fn bytes(&self) -> &[u8]
        ensures { result.now ≡ self.now.written }
    {
        &self.bytes
    }

    /// How many calls of `put` found no memory, up to 2^64 - 1. Each of them counts as a fault too.
    pub fn starved(&self) -> u64
        ensures { result ≡ self.now.starved }
    {
        self.starved.count()
    }
}

impl Sink for MemorySink {
    ghost written = { λ s. Some s.written };

    ghost faults = { λ s. s.faults };

    /// Appends as many bytes as the piece allows. Fails exactly the listed calls and those that raise `starved`; each
    /// is counted and appends nothing, and the next call goes on.
    fn put(&mut self, bytes: &[u8]) -> Result<usize, Failed>
        ensures bound { WritesAtMost result bytes.now }
        ensures progress { 0 < length bytes.now → IfOk result (λ n. 0 < n) }
        ensures bytes { WriteAppends (Some self.old.written) (Some self.new.written) result bytes.now }
        ensures cause { HasCause self.old.faults self.new.faults result }
        ensures listed { IsToFail self.old.failing → IsErr result × (self.new.starved ≡ self.old.starved) }
        ensures failed { IsErr result → IsToFail self.old.failing ⊎ (self.new.starved ≡ one_more self.old.starved) }
        ensures fed { OnOk result (self.new.starved ≡ self.old.starved) }
        ensures count { IfOk result (λ n. n ≡ min (length bytes.now) self.old.piece) }
        ensures counted { self.new.failing ≡ after_call self.old.failing }
        ensures no_fault { OnOk result (self.new.faults ≡ self.old.faults) }
        ensures fault { OnErr result (self.new.faults ≡ one_more self.old.faults) }
        ensures kept { self.new.piece ≡ self.old.piece }
    {
        if self.failing.fails_next() {
            self.faults.raise();
            return Err(Failed);
        }
        let count = bytes.len().min(self.piece);
        match self.bytes.extend_from_slice(&bytes[..count]) {
            Ok(()) => Ok(count),
            Err(_) => {
                self.starved.raise();
                self.faults.raise();
                Err(Failed)
            }
        }
    }

    fn fault_count(&self) -> u64 {
        self.faults.count()
    }
}

#[cfg(test)]
mod tests {
    use super::*;
    use std::test::Fail;

    #[test]
    fn fails_the_listed_calls(rt: HostRuntime) -> Result<(), Fail> {
        let failing = [0u32, 2].to_vec(rt.alloc())?;
        let mut sink = MemorySink::new(rt.alloc(), 4, failing);
        for (bytes, want, faults) in [
            (b"abcdef", Err(Failed), 1),
            (b"ghijkl", Ok(4), 1),
            (b"mnopqr", Err(Failed), 2),
            (b"stuvwx", Ok(4), 2),
        ] {
            assert_eq!(rt; sink.put(bytes), want);
            assert_eq!(rt; sink.fault_count(), faults);
        }
        assert_eq!(rt; sink.put(&[]), Ok(0));
        assert_eq!(rt; sink.bytes(), b"ghijstuv".as_slice());
        assert_eq!(rt; sink.starved(), 0);
        Ok(())
    }
}
