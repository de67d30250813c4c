ghost use Rattle.std.specs.Prelude.{◌≡◌};

use linker_base::NoMemory;
use std::alloc::AllocError;

/// A call on a source or a sink failed: its count of faults rose.
#[derive(Clone, Copy, Debug, PartialEq, Eq)]
pub struct Failed;

/// Why a fetch gave no text.
#[derive(Clone, Copy, Debug, PartialEq, Eq)]
pub enum ShelfFault {
    /// The shelf failed: its count of faults rose. A missing file is such a fault.
    Failed,
    /// The text is longer than the caller takes.
    TooLong,
    /// Want of memory.
    NoMemory,
}

impl From<AllocError> for ShelfFault {
    ghost use Rattle.outside_core.specs.declared.faults.ShelfFault.{ShelfFault};

    ghost from_gives = { λ _ fault. fault ≡ ShelfFault.NoMemory };

    fn from(_: AllocError) -> Self {
        ShelfFault::NoMemory
    }
}

impl From<NoMemory> for ShelfFault {
    ghost use Rattle.outside_core.specs.declared.faults.ShelfFault.{ShelfFault};

    ghost from_gives = { λ _ fault. fault ≡ ShelfFault.NoMemory };

    fn from(_: NoMemory) -> Self {
        ShelfFault::NoMemory
    }
}
