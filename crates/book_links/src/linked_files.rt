//! The files over which a book was linked, for contracts alone. It takes no memory, and its calls do
//! nothing when they run.
ghost use Rattle.std.specs.Prelude.{◌≡◌, List, []};
ghost use Rattle.std.specs.Borrow.{ftrue};
ghost use Rattle.element_store.specs.declared.models.StoredFile.{StoredFile};

use element_store::Models;
use std::marker::Model;

/// The files over which a book was linked.
#[derive(Drop)]
pub struct LinkedFiles {
    pub ghost files: { List StoredFile },
}

impl Model for LinkedFiles {
    ghost also_owns = { λ _. ftrue };
}

impl LinkedFiles {
    /// No files.
    #[inline(always)]
    pub fn none() -> LinkedFiles
        ensures { result.files ≡ [] }
    {
        LinkedFiles {}
    }

    /// These files.
    #[inline(always)]
    pub fn of(_models: &Models) -> LinkedFiles
        ensures { result.files ≡ _models.now }
    {
        LinkedFiles {}
    }
}
