//! The reply to an upload.
ghost use Rattle.std.specs.Prelude.{◌≡◌, ◌↔◌, None, Err};
ghost use Rattle.book_journal.specs.declared.applied.ApplyFault.TheVariants.{Memory as NoMemory};
ghost use Rattle.shared_book.specs.Replying.{reply_for, why_for};

use book_journal::{Applied, ApplyFault};
use sketchlet_wire::Upload;
use upload_frame::{RefusedWhy, Reply};

// Why an upload with this fault is refused. None where no memory was found.
fn why_of(fault: &ApplyFault) -> Option<RefusedWhy>
    ensures { result ≡ why_for fault.now }
{
    match fault {
        ApplyFault::WrongShape { .. } => Some(RefusedWhy::Shape),
        ApplyFault::Conflict { key, .. } => Some(RefusedWhy::Conflict(*key)),
        ApplyFault::Full { .. } => Some(RefusedWhy::Full),
        ApplyFault::DiskFault | ApplyFault::Broken { .. } => Some(RefusedWhy::Closed),
        ApplyFault::Memory => None,
    }
}

/// The reply to an upload, from what a journal answered to it: an acknowledgement where it was taken, with `known` where
/// all its columns were there already; a refusal where it wasn't, closed where the disk failed, then or earlier. None
/// exactly where no memory was found: the upload is then neither taken nor refused (docs/DEFINITIONS.md, Replies).
/// Takes no memory.
pub fn reply_of(upload: &Upload, applied: &Result<Applied, ApplyFault>) -> Option<Reply>
    ensures value { result ≡ reply_for upload.now applied.now }
    ensures none { (result ≡ None) ↔ (applied.now ≡ Err NoMemory) }
{
    let host = upload.host();
    let seq = upload.seq();
    match applied {
        Ok(applied) => Some(Reply::Acknowledged {
            host,
            seq,
            known: matches!(applied, Applied::Known),
        }),
        Err(fault) => {
            let why = why_of(fault)?;
            Some(Reply::Refused { host, seq, why })
        }
    }
}
