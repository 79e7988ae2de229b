//! The next frame of a source.
ghost use Rattle.std.specs.Prelude.{◌≡◌, ℕ, ◌+◌, ◌<◌, ◌≤◌, ◌^◌, List, take, length, IfOk, IfErr, OnErr};
ghost use Rattle.std.specs.Io.KnownBytes.{Consumes, IsAtEnd, Keeps};
ghost use Rattle.lg_base.specs.Causes.{Rose};
ghost use Rattle.analyser_session.specs.declared.fault.SessionFault.TheVariants.{ReadFault};
ghost use Rattle.analyser_session.specs.Reads.{IsOpen, Next};

use crate::fault::SessionFault;
use crate::limits::MOST_PIECE_BYTES;
use lg_base::Source;
use upload_frame::{Frame, NextFault, Reader};

// The next bytes, at the front of the buffer.
fn next_piece<S: Source>(
    source: &mut S,
    buf: &mut [u8; MOST_PIECE_BYTES],
) -> Result<usize, SessionFault>
    ensures count { IfOk result (λ n. n ≤ 4096) }
    ensures long { length buf.new ≡ 4096 }
    ensures bytes { IfOk result (λ n. Consumes (S.left source.old) (S.left source.new) (take n buf.new)
        × (n ≡ 0 → IsAtEnd (S.left source.new))) }
    ensures kept { OnErr result (Keeps (S.left source.old) (S.left source.new)) }
    ensures fault { IfErr result (λ e. (e ≡ ReadFault) × Rose (S.faults source.old) (S.faults source.new)) }
    ensures never_falls { S.faults source.old ≤ S.faults source.new }
{
    match source.take(&mut buf[..]) {
        Ok(n) => Ok(n),
        Err(_) => Err(SessionFault::ReadFault),
    }
}

// The next frame. It reads in pieces of at most 4,096 bytes, and only where no frame is there yet.
pub(crate) fn next_frame<S: Source>(
    source: &mut S,
    reader: &mut Reader,
    taken: &mut u64,
) -> Result<Frame, SessionFault>
    requires open { IsOpen reader.old }
    requires count { taken.old < 2 ^ 63 }
    ensures next { Next (S.left source.old) (S.left source.new) reader.old reader.new taken.old taken.new result }
    ensures fault { IfErr result (λ e. e ≡ ReadFault → Rose (S.faults source.old) (S.faults source.new)) }
    ensures never_falls { S.faults source.old ≤ S.faults source.new }
{
    let mut buf = [0; MOST_PIECE_BYTES];
    loop {
        match reader.next() {
            Ok(Some(frame)) => return Ok(frame),
            Ok(None) => {}
            Err(NextFault::Frame(fault)) => {
                return Err(SessionFault::Frame {
                    at: reader.frame_bytes(),
                    fault,
                });
            }
            Err(NextFault::Memory) => return Err(SessionFault::Memory),
        }
        let count = next_piece(source, &mut buf)?;
        if count == 0 {
            return Err(SessionFault::Early { at: *taken });
        }
        *taken += count as u64;
        match reader.feed(&buf[..count]) {
            Ok(()) => {}
            Err(_) => return Err(SessionFault::Memory),
        }
    }
}
