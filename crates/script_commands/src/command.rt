ghost use Rattle.std.specs.Prelude.{◌≡◌};

use element_store::{FileName, Text};
use std::alloc::AllocError;

/// A command of a script, with its form checked: its name is that of a file of either language, its text is
/// within the limit of a file, its words hold no LF.
#[derive(Drop)]
pub enum Command {
    /// Put a text under a name.
    Put { name: FileName, text: Text },
    /// Drop the text under a name.
    Drop { name: FileName },
    /// List the links of a file.
    Links { name: FileName },
    /// List what is wrong with all files.
    Check,
    /// Find the qualified name that these words are, if they are one.
    Find { words: Text },
    /// List the implied specialisations of all files.
    Implied,
    /// Print a file in its canonical form.
    Print { name: FileName },
    /// End the session.
    End,
}

/// Why no command was read: the rows of the table of stops that rest on bytes alone, in its order, and what
/// may come at any place.
#[derive(Clone, Copy, Debug, PartialEq, Eq)]
pub enum ReadStop {
    /// The next 2,049 bytes hold no LF.
    LongLine,
    /// The next line is that of no command.
    NoForm,
    /// The next line is a put's, whose text is longer than a file may be. No byte of the text was taken for it.
    LongText,
    /// The byte after a put's text isn't LF. It is the first byte that is pending.
    NoLineFeed,
    /// A byte came beyond the limit of an input, 2^32 bytes.
    LongInput,
    /// The input ended before a whole command.
    CutShort,
    /// The input failed before a whole command.
    ReadFault,
    /// Want of memory.
    NoMemory,
}

impl From<AllocError> for ReadStop {
    ghost use Rattle.script_commands.specs.declared.command.ReadStop.{ReadStop};

    ghost from_gives = { λ _ stop. stop ≡ ReadStop.NoMemory };

    fn from(_: AllocError) -> Self {
        ReadStop::NoMemory
    }
}
