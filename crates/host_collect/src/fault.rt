//! Why a sketchlet is not taken.
ghost use Rattle.std.specs.Prelude.{◌≡◌};
ghost use Rattle.host_collect.specs.declared.fault.CollectFault.TheVariants.{Memory};

use sketchlet_wire::WireFault;
use std::alloc::{AllocError, AllocFailed};

/// Why a sketchlet is not taken. The items taken so far are counted from 0.
#[derive(Clone, Copy, Debug, PartialEq, Eq)]
pub enum CollectFault {
    /// The bytes do not begin with a sketchlet.
    Bad {
        /// The number of the item.
        nth: u32,
        /// The first fault from left to right.
        fault: WireFault,
    },
    /// Bytes follow the sketchlet.
    Longer {
        /// The number of the item.
        nth: u32,
    },
    /// The program runs out of memory.
    Memory,
}

impl From<AllocError> for CollectFault {
    ghost from_gives = { λ _ fault. fault ≡ Memory };

    fn from(_: AllocError) -> CollectFault {
        CollectFault::Memory
    }
}

impl<T: Drop> From<AllocFailed<T>> for CollectFault {
    ghost from_gives = { λ _ fault. fault ≡ Memory };

    fn from(_: AllocFailed<T>) -> CollectFault {
        CollectFault::Memory
    }
}
