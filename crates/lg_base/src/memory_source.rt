//! A source in memory, which fails where it is told to.
ghost use Rattle.std.specs.Prelude.{Some, ◌≡◌, ◌<◌, ◌≤◌, ◌↔◌, min, take, length, IsErr, IfOk, OnErr, OnOk};
ghost use Rattle.std.specs.Io.{ReadsAtMost};
ghost use Rattle.std.specs.Io.KnownBytes.{ReadConsumes};
ghost use Rattle.lg_base.specs.Causes.{HasCause, one_more};
ghost use Rattle.lg_base.specs.Failing.{IsToFail, after_call};

use crate::failing::Failing;
use crate::fault_count::Faults;
use crate::faults::Failed;
use crate::source::Source;
use std::marker::Model;

/// A source in memory. It tells its bytes, and fails exactly the calls that are listed.
#[derive(Drop)]
pub struct MemorySource {
    bytes: Vec<u8>,
    // How many of the bytes were taken.
    at: usize,
    piece: usize,
    failing: Failing,
    faults: Faults,
}

impl Model for MemorySource {
    ghost use Rattle.std.specs.Prelude.{◌<◌, ◌≤◌, drop, vec_len};
    ghost use Rattle.lg_base.specs.Fakes.{SourceState};

    ghost Value = { SourceState };

    ghost view = { λ s. record {
      left = drop s.at s.bytes.items;
      piece = s.piece;
      failing = s.failing;
      faults = s.faults;
    } };

    ghost invariant = { λ s. (s.at ≤ vec_len s.bytes) × (0 < s.piece) };
}

// Copies a front of at most that many bytes to the front of the buffer.
fn copy_front(from: &[u8], piece: usize, buf: &mut [u8]) -> usize
    ensures count { result ≡ min (min piece (length from.now)) (length buf.old) }
    ensures bytes { take result buf.new ≡ take result from.now }
{
    let count = piece.min(from.len()).min(buf.len());
    buf[..count].copy_from_slice(&from[..count]);
    count
}

impl MemorySource {
    /// Gives these bytes, at most `piece` of them a call, and fails the calls of `take` whose numbers, from 0, are
    /// listed. The piece is at least 1. Takes no memory.
    pub fn new(bytes: Vec<u8>, piece: usize, failing: Vec<u32>) -> MemorySource
        requires { 0 < piece }
        ensures left { result.left ≡ bytes.items }
        ensures piece { result.piece ≡ piece }
        ensures failing { result.failing ≡ record { listed = failing.items; calls = 0 } }
        ensures no_fault { result.faults ≡ 0 }
    {
        MemorySource {
            bytes,
            at: 0,
            piece,
            failing: Failing::new(failing),
            faults: Faults::none(),
        }
    }
}

impl Source for MemorySource {
    ghost left = { λ s. Some s.left };

    ghost faults = { λ s. s.faults };

    /// Gives the next bytes, as many as the piece, the buffer and the rest allow. Fails exactly the listed calls; each
    /// is counted, and the next call goes on where the last one that didn't fail stopped.
    fn take(&mut self, buf: &mut [u8]) -> Result<usize, Failed>
        ensures bound { ReadsAtMost result buf.new }
        ensures bytes { ReadConsumes (Some self.old.left) (Some self.new.left) result buf.new }
        ensures cause { HasCause self.old.faults self.new.faults result }
        ensures listed { IsErr result ↔ IsToFail self.old.failing }
        ensures count { IfOk result (λ n. n ≡ min (min self.old.piece (length self.old.left)) (length buf.old)) }
        ensures counted { self.new.failing ≡ after_call self.old.failing }
        ensures no_fault { OnOk result (self.new.faults ≡ self.old.faults) }
        ensures fault { OnErr result (self.new.faults ≡ one_more self.old.faults) }
        ensures kept { self.new.piece ≡ self.old.piece }
    {
        if self.failing.fails_next() {
            self.faults.raise();
            return Err(Failed);
        }
        let count = copy_front(&self.bytes[self.at..], self.piece, buf);
        self.at += count;
        Ok(count)
    }

    fn fault_count(&self) -> u64 {
        self.faults.count()
    }
}

#[cfg(test)]
mod tests {
    use super::*;
    use std::test::Fail;

    #[test]
    fn gives_all_bytes_and_then_none(rt: HostRuntime) -> Result<(), Fail> {
        let text = b"packet 1 1500 20\n";
        for piece in [1, 7, 4096] {
            let bytes = text.to_vec(rt.alloc())?;
            let mut source = MemorySource::new(bytes, piece, Vec::new(rt.alloc()));
            let mut got = Vec::new(rt.alloc());
            for _ in 0..text.len() {
                let mut buf = [0; 10];
                let count = source.take(&mut buf)?;
                got.extend_from_slice(&buf[..count])?;
            }
            assert_eq!(rt; got.as_slice(), text.as_slice(), "pieces of {piece}");
            assert_eq!(rt; source.take(&mut [0; 10]), Ok(0));
            assert_eq!(rt; source.fault_count(), 0);
        }
        Ok(())
    }

    #[test]
    fn fails_the_listed_calls(rt: HostRuntime) -> Result<(), Fail> {
        let failing = [1u32, 3].to_vec(rt.alloc())?;
        let mut source = MemorySource::new(b"abcdef".to_vec(rt.alloc())?, 2, failing);
        let mut buf = [0; 4];
        for (want, faults) in [
            (Ok(2), 0),
            (Err(Failed), 1),
            (Ok(2), 1),
            (Err(Failed), 2),
            (Ok(2), 2),
            (Ok(0), 2),
        ] {
            assert_eq!(rt; source.take(&mut buf), want);
            assert_eq!(rt; source.fault_count(), faults);
        }
        assert_eq!(rt; &buf[..2], b"ef".as_slice());
        Ok(())
    }
}
