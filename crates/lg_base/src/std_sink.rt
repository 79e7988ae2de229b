//! A writer of std as a sink.
ghost use Rattle.std.specs.Prelude.{◌≡◌, ◌<◌, length, IfOk, OnErr, OnOk};
ghost use Rattle.std.specs.Io.{WritesAtMost};
ghost use Rattle.std.specs.Io.KnownBytes.{WriteAppends};
ghost use Rattle.lg_base.specs.Causes.{HasCause, one_more};

use crate::fault_count::Faults;
use crate::faults::Failed;
use crate::sink::Sink;
use std::io::{ErrorKind, Write};
use std::marker::Model;

// How often an interrupted write is made again.
const REPEATS: u32 = 100;

/// A sink over a writer. It tells the bytes that the writer tells: standard output tells none, and that it hands on the
/// bytes that it is given is a premise of the user, and not proved.
#[derive(Drop)]
pub struct StdSink<O: Write> {
    output: O,
    faults: Faults,
}

impl<O: Write> Model for StdSink<O> {
    ghost use Rattle.lg_base.specs.Fakes.{StreamState};

    ghost Value = { StreamState O };

    ghost view = { λ s. record { stream = s.output; faults = s.faults } };
}

impl<O: Write> StdSink<O> {
    /// The sink over this writer, with no fault yet. Takes no memory.
    pub fn new(output: O) -> StdSink<O>
        ensures { result ≡ record { stream = output; faults = 0 } }
    {
        StdSink {
            output,
            faults: Faults::none(),
        }
    }
}

// Writes, and again where the write was interrupted, at most that many times. A write of no byte has failed.
fn write_again<O: Write>(output: &mut O, bytes: &[u8]) -> Result<usize, Failed>
    ensures bound { WritesAtMost result bytes.now }
    ensures progress { 0 < length bytes.now → IfOk result (λ n. 0 < n) }
    ensures bytes { WriteAppends (O.contents output.old) (O.contents output.new) result bytes.now }
{
    for _ in 0..=REPEATS {
        match output.write(bytes) {
            Ok(0) => return Err(Failed),
            Ok(count) => return Ok(count),
            Err(error) => {
                if error.kind() != ErrorKind::Interrupted {
                    return Err(Failed);
                }
            }
        }
    }
    Err(Failed)
}

impl<O: Write> Sink for StdSink<O> {
    ghost written = { λ s. O.contents s.stream };

    ghost faults = { λ s. s.faults };

    /// Writes once, and again where the write was interrupted, at most 100 times. Each other error, one interruption
    /// more and a write of 0 bytes is a fault, which is counted.
    fn put(&mut self, bytes: &[u8]) -> Result<usize, Failed>
        ensures bound { WritesAtMost result bytes.now }
        ensures progress { 0 < length bytes.now → IfOk result (λ n. 0 < n) }
        ensures bytes { WriteAppends (O.contents self.old.stream) (O.contents self.new.stream) result bytes.now }
        ensures cause { HasCause self.old.faults self.new.faults result }
        ensures no_fault { OnOk result (self.new.faults ≡ self.old.faults) }
        ensures fault { OnErr result (self.new.faults ≡ one_more self.old.faults) }
    {
        let outcome = write_again(&mut self.output, bytes);
        if outcome.is_err() {
            self.faults.raise();
        }
        outcome
    }

    fn fault_count(&self) -> u64 {
        self.faults.count()
    }
}

#[cfg(test)]
mod tests {
    use super::*;
    use std::io;
    use std::test::Fail;

    // Is interrupted so often, and then takes at most that many bytes a call.
    #[derive(Drop)]
    struct Halting {
        interruptions: u32,
        piece: usize,
    }

    impl Write for Halting {
        fn write(&mut self, bytes: &[u8]) -> io::Result<usize> {
            if self.interruptions > 0 {
                self.interruptions -= 1;
                return Err(io::Error::from(ErrorKind::Interrupted));
            }
            Ok(bytes.len().min(self.piece))
        }

        fn flush(&mut self) -> io::Result<()> {
            Ok(())
        }
    }

    #[test]
    fn writes_the_bytes(rt: HostRuntime) {
        let mut sink = StdSink::new(Vec::new(rt.alloc()));
        assert_eq!(rt; sink.put(b"bytes "), Ok(6));
        assert_eq!(rt; sink.put(b"1500"), Ok(4));
        assert_eq!(rt; sink.output.as_slice(), b"bytes 1500".as_slice());
        assert_eq!(rt; sink.fault_count(), 0);
    }

    #[test]
    fn repeats_an_interrupted_write(rt: HostRuntime) {
        for (interruptions, piece, want, faults) in [
            (0, 3, Ok(3), 0),
            (100, 3, Ok(3), 0),
            (101, 3, Err(Failed), 1),
            (0, 0, Err(Failed), 1),
        ] {
            let mut sink = StdSink::new(Halting {
                interruptions,
                piece,
            });
            assert_eq!(rt;
                sink.put(b"1500"),
                want,
                "{interruptions} times, {piece} bytes"
            );
            assert_eq!(rt; sink.fault_count(), faults);
        }
    }
}
