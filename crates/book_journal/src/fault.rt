//! Faults of the outside, told as faults of a journal.
ghost use Rattle.std.specs.Prelude.{◌≡◌};

use crate::applied::ApplyFault;
use lg_base::{Failed, Memory};

impl From<Failed> for ApplyFault {
    ghost use Rattle.book_journal.specs.declared.applied.ApplyFault.TheVariants as faults;

    ghost from_gives = { λ _ fault. fault ≡ faults.DiskFault };

    fn from(_: Failed) -> Self {
        ApplyFault::DiskFault
    }
}

impl From<Memory> for ApplyFault {
    ghost use Rattle.book_journal.specs.declared.applied.ApplyFault.TheVariants as faults;

    ghost from_gives = { λ _ fault. fault ≡ faults.Memory };

    fn from(_: Memory) -> Self {
        ApplyFault::Memory
    }
}
