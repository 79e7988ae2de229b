//! Bytes in memory, read and changed in place.
ghost use Rattle.std.specs.Prelude.{◌≡◌, ◌-◌, ◌≤◌, min, length, take, drop, vec_len, OnErr, OnOk};
ghost use Rattle.lg_disk.specs.Disk.{Holds};
ghost use Rattle.lg_disk.specs.Model.{start, step};

use crate::call::Call;
use lg_base::Memory;

// Copies the bytes from that place on, as many as there are and as the buffer holds, and answers how many they are.
pub(crate) fn copy_from(bytes: &[u8], at: u64, buf: &mut [u8]) -> usize
    ensures count { result ≡ min (length buf.old) (length bytes.now - at) }
    ensures bytes { take result buf.new ≡ take result (drop at bytes.now) }
{
    if at >= bytes.len() as u64 {
        return 0;
    }
    let at = at as usize;
    let count = buf.len().min(bytes.len() - at);
    buf[..count].copy_from_slice(&bytes[at..at + count]);
    count
}

// Puts bytes in from that place on. Where memory runs out nothing has changed.
pub(crate) fn put_at(bytes: &mut Vec<u8>, at: usize, put: &[u8]) -> Result<(), Memory>
    requires { at ≤ vec_len bytes.old }
    ensures ok { OnOk result (Holds bytes.old.items at put.now bytes.new.items) }
    ensures err { OnErr result (bytes.new.items ≡ bytes.old.items) }
{
    let inside = put.len().min(bytes.len() - at);
    bytes.extend_from_slice(&put[inside..])?;
    bytes[at..at + inside].copy_from_slice(&put[..inside]);
    Ok(())
}

// Carries out what a call changes. Where memory runs out nothing has changed.
pub(crate) fn change(bytes: &mut Vec<u8>, call: &Call) -> Result<(), Memory>
    ensures ok { OnOk result (bytes.new.items ≡ (step (start bytes.old.items) call.now).seen) }
    ensures err { OnErr result (bytes.new.items ≡ bytes.old.items) }
{
    match call {
        Call::Nothing | Call::Sync => Ok(()),
        Call::Write { at, bytes: put } => {
            if *at > bytes.len() as u64 {
                return Ok(());
            }
            put_at(bytes, *at as usize, put.bytes())
        }
        Call::Cut { len } => {
            bytes.truncate(*len as usize);
            Ok(())
        }
    }
}
