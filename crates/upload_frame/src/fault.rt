//! Why bytes are no frame.
ghost use Rattle.std.specs.Prelude.{◌≡◌};
ghost use Rattle.upload_frame.specs.declared.fault.NextFault.TheVariants.{Memory, Frame};

use sketchlet_wire::WireFault;
use std::alloc::{AllocError, AllocFailed};

/// The first check that fails, in the order of docs/FORMATS.md, Frames.
#[derive(Clone, Copy, Debug, PartialEq, Eq)]
pub enum FrameFault {
    /// The length is 0, above 1000 or none of the kind's, or bytes follow the last sketchlet of an upload.
    Length {
        /// The length field.
        length: u16,
    },
    /// The kind is not admitted.
    Kind {
        /// What stands there.
        kind: u8,
    },
    /// A hello has the bytes of no shape.
    BadShape,
    /// The columns of an upload are not 1 to 16.
    Count {
        /// What stands there.
        count: u8,
    },
    /// A column of an upload is no sketchlet.
    Wire {
        /// Which column, from 0.
        nth: u8,
        /// Its first fault.
        fault: WireFault,
    },
    /// A column of an upload has the key of an earlier one.
    Twice {
        /// Which column, from 0.
        nth: u8,
    },
    /// The code of an acknowledgement is above 1, or that of a refusal is not 1 to 4.
    Code {
        /// What stands there.
        code: u8,
    },
    /// The key of a refusal is not zeros, and its code is not 1.
    KeyNotZero,
}

/// Why a reader gives no frame.
#[derive(Clone, Copy, Debug, PartialEq, Eq)]
pub enum NextFault {
    /// The front of the rest fails a check. The reader answers the same from then on.
    Frame(FrameFault),
    /// The program runs out of memory. The reader is as before.
    Memory,
}

impl From<AllocError> for NextFault {
    ghost from_gives = { λ _ e. e ≡ Memory };

    fn from(_: AllocError) -> NextFault {
        NextFault::Memory
    }
}

impl<T: Drop> From<AllocFailed<T>> for NextFault {
    ghost from_gives = { λ _ e. e ≡ Memory };

    fn from(_: AllocFailed<T>) -> NextFault {
        NextFault::Memory
    }
}

impl From<FrameFault> for NextFault {
    ghost from_gives = { λ f e. e ≡ Frame f };

    fn from(fault: FrameFault) -> NextFault {
        NextFault::Frame(fault)
    }
}
