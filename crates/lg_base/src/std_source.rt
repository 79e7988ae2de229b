//! A reader of std as a source.
ghost use Rattle.std.specs.Prelude.{◌≡◌, OnErr, OnOk};
ghost use Rattle.std.specs.Io.{ReadsAtMost};
ghost use Rattle.std.specs.Io.KnownBytes.{ReadConsumes};
ghost use Rattle.lg_base.specs.Causes.{HasCause, one_more};

use crate::fault_count::Faults;
use crate::faults::Failed;
use crate::source::Source;
use std::io::{ErrorKind, Read};
use std::marker::Model;

// How often an interrupted read is made again.
const REPEATS: u32 = 100;

/// A source over a reader. It tells the bytes that the reader tells: standard input tells none, and that it gives the
/// bytes that were sent to it is a premise of the user, and not proved.
#[derive(Drop)]
pub struct StdSource<I: Read> {
    input: I,
    faults: Faults,
}

impl<I: Read> Model for StdSource<I> {
    ghost use Rattle.lg_base.specs.Fakes.{StreamState};

    ghost Value = { StreamState I };

    ghost view = { λ s. record { stream = s.input; faults = s.faults } };
}

impl<I: Read> StdSource<I> {
    /// The source over this reader, with no fault yet. Takes no memory.
    pub fn new(input: I) -> StdSource<I>
        ensures { result ≡ record { stream = input; faults = 0 } }
    {
        StdSource {
            input,
            faults: Faults::none(),
        }
    }
}

// Reads, and again where the read was interrupted, at most that many times.
fn read_again<I: Read>(input: &mut I, buf: &mut [u8]) -> Result<usize, Failed>
    ensures bound { ReadsAtMost result buf.new }
    ensures bytes { ReadConsumes (I.remaining input.old) (I.remaining input.new) result buf.new }
{
    for _ in 0..=REPEATS {
        match input.read(buf) {
            Ok(count) => return Ok(count),
            Err(error) => {
                if error.kind() != ErrorKind::Interrupted {
                    return Err(Failed);
                }
            }
        }
    }
    Err(Failed)
}

impl<I: Read> Source for StdSource<I> {
    ghost left = { λ s. I.remaining s.stream };

    ghost faults = { λ s. s.faults };

    /// Reads once, and again where the read was interrupted, at most 100 times. Each other error and one interruption
    /// more is a fault, which is counted.
    fn take(&mut self, buf: &mut [u8]) -> Result<usize, Failed>
        ensures bound { ReadsAtMost result buf.new }
        ensures bytes { ReadConsumes (I.remaining self.old.stream) (I.remaining self.new.stream) result buf.new }
        ensures cause { HasCause self.old.faults self.new.faults result }
        ensures no_fault { OnOk result (self.new.faults ≡ self.old.faults) }
        ensures fault { OnErr result (self.new.faults ≡ one_more self.old.faults) }
    {
        let outcome = read_again(&mut self.input, buf);
        if outcome.is_err() {
            self.faults.raise();
        }
        outcome
    }

    fn fault_count(&self) -> u64 {
        self.faults.count()
    }
}

#[cfg(test)]
mod tests {
    use super::*;
    use std::io;
    use std::test::Fail;

    // Is interrupted so often, and then gives one byte a call.
    #[derive(Drop)]
    struct Halting {
        interruptions: u32,
    }

    impl Read for Halting {
        fn read(&mut self, buf: &mut [u8]) -> io::Result<usize> {
            if self.interruptions > 0 {
                self.interruptions -= 1;
                return Err(io::Error::from(ErrorKind::Interrupted));
            }
            Ok(buf.len().min(1))
        }
    }

    #[test]
    fn reads_to_the_end(rt: HostRuntime) -> Result<(), Fail> {
        let mut source = StdSource::new(b"sketch 2 1 ports".as_slice());
        let mut buf = [0; 10];
        assert_eq!(rt; source.take(&mut buf), Ok(10));
        assert_eq!(rt; buf, *b"sketch 2 1");
        assert_eq!(rt; source.take(&mut buf), Ok(6));
        assert_eq!(rt; &buf[..6], b" ports".as_slice());
        assert_eq!(rt; source.take(&mut buf), Ok(0));
        assert_eq!(rt; source.fault_count(), 0);
        Ok(())
    }

    #[test]
    fn repeats_an_interrupted_read(rt: HostRuntime) {
        for (interruptions, want, faults) in [
            (0, Ok(1), 0),
            (100, Ok(1), 0),
            (101, Err(Failed), 1),
        ] {
            let mut source = StdSource::new(Halting { interruptions });
            assert_eq!(rt; source.take(&mut [0; 4]), want, "{interruptions} times");
            assert_eq!(rt; source.fault_count(), faults);
            assert_eq!(rt; source.take(&mut [0; 4]), Ok(1));
        }
    }
}
