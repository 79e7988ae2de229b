//! Why a pump stops before all uploads are acknowledged.

use book_journal::ApplyFault;
use lg_base::Memory;

/// Why a pump stops before all uploads are acknowledged.
#[derive(Clone, Copy, Debug, PartialEq, Eq)]
pub enum WorkFault {
    /// The book refused an upload, for another cause than memory.
    Refused {
        /// The number of the upload.
        seq: u32,
        /// Why it was refused.
        fault: ApplyFault,
    },
    /// No memory was found.
    Memory,
}

impl From<Memory> for WorkFault {
    ghost use Rattle.std.specs.Prelude.{◌≡◌};
    ghost use Rattle.upload_world.specs.declared.fault.WorkFault.TheVariants.{Memory};

    ghost from_gives = { λ _ e. e ≡ Memory };

    fn from(_: Memory) -> Self {
        WorkFault::Memory
    }
}
