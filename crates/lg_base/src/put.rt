//! All bytes into a sink.
ghost use Rattle.std.specs.Prelude.{OnOk, OnErr};
ghost use Rattle.std.specs.Io.KnownBytes.{Appends};
ghost use Rattle.lg_base.specs.Causes.{HasCause, AppendsFront};

use crate::faults::WriteFault;
use crate::sink::Sink;

/// Puts all bytes, by as many calls as the sink needs. Takes no memory.
///
/// `WriteFault` comes only where a call of the sink failed, so that its count of faults rose or stands at 2^64 - 1. A
/// front of the bytes was appended then, and the rest was not.
pub fn put_all<K: Sink>(sink: &mut K, bytes: &[u8]) -> Result<(), WriteFault>
    ensures ok { OnOk result (Appends (K.written sink.old) (K.written sink.new) bytes.now) }
    ensures err { OnErr result (AppendsFront (K.written sink.old) (K.written sink.new) bytes.now) }
    ensures cause { HasCause (K.faults sink.old) (K.faults sink.new) result }
{
    let mut at = 0;
    while at < bytes.len() {
        match sink.put(&bytes[at..]) {
            Ok(count) => at += count,
            Err(_) => return Err(WriteFault),
        }
    }
    Ok(())
}

#[cfg(test)]
mod tests {
    use super::*;
    use crate::memory_sink::MemorySink;
    use std::test::Fail;

    #[test]
    fn puts_all_or_a_front(rt: HostRuntime) -> Result<(), Fail> {
        let mut whole = MemorySink::new(rt.alloc(), 4, Vec::new(rt.alloc()));
        assert_eq!(rt; put_all(&mut whole, b"bytes 1500"), Ok(()));
        assert_eq!(rt; whole.bytes(), b"bytes 1500".as_slice());

        let failing = [2u32].to_vec(rt.alloc())?;
        let mut front = MemorySink::new(rt.alloc(), 4, failing);
        assert_eq!(rt; put_all(&mut front, b"bytes 1500"), Err(WriteFault));
        assert_eq!(rt; front.bytes(), b"bytes 15".as_slice());
        assert_eq!(rt; front.fault_count(), 1);
        Ok(())
    }
}
