ghost use Rattle.std.specs.Prelude.{◌≡◌, [], false, IfOk};
ghost use Rattle.book_model.specs.Files.{LibraryTexts};

use demand_core::{Ledger, Steps};
use linker_base::NoMemory;
use std::alloc::Global;
use sysml_session::Answering;

/// A project that a run opens over its library.
pub trait Opening: Answering {
    /// The texts of the library.
    ghost library: { LibraryTexts };

    /// A project without files of its own.
    fn open<L: Ledger>(alloc: Global, steps: &mut Steps<L>) -> Result<Self, NoMemory>
        ensures { IfOk result (λ project. Self.holding project
            ≡ record { library = library; book = []; broken = false }) };
}
