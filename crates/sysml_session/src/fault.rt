ghost use Rattle.std.specs.Prelude.{◌≡◌};

use linker_base::NoMemory;
use thiserror::Error;

/// Why a session ended without `end`.
#[derive(Clone, Copy, Debug, PartialEq, Eq, Error)]
pub enum ServeFault {
    /// The input failed.
    #[error("read fault")]
    ReadFault,
    /// The output failed.
    #[error("write fault")]
    WriteFault,
    /// The script is refused at this byte of the input, or the input ended there before `end`.
    #[error("script fault at {at}")]
    Script { at: u64 },
    /// The script would pass this number: the bytes of a line, of a text, of the input or of all present
    /// texts, or the names of the book.
    #[error("limit {number}")]
    Limit { number: u64 },
    /// Want of memory.
    #[error("no memory")]
    NoMemory,
}

impl From<NoMemory> for ServeFault {
    ghost use Rattle.sysml_session.specs.declared.fault.ServeFault.{ServeFault};

    ghost from_gives = { λ _ fault. fault ≡ ServeFault.NoMemory };

    fn from(_: NoMemory) -> Self {
        ServeFault::NoMemory
    }
}
