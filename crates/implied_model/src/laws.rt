//! Laws of implied specialisations. Each is a function with nothing to run: what it ensures holds of the
//! definitions alone.
ghost use Rattle.std.specs.Prelude.{◌≡◌, ℕ, List};
ghost use Rattle.element_store.specs.Condition.{IsOwnedOnce};
ghost use Rattle.element_store.specs.Model.{Data};
ghost use Rattle.element_store.specs.Readings.{Owns};
ghost use Rattle.element_store.specs.Stored.{AreFiles};
ghost use Rattle.element_store.specs.declared.models.StoredFile.{StoredFile};
ghost use Rattle.element_store.specs.declared.numbers.FileNo.{FileNo};
ghost use Rattle.implied_model.specs.Implied.{AreInRank, owner_of, project_order};

/// A law: the project files taken by rank are those files in byte order of their names.
pub fn ranks_are_the_order()
    ensures { (files : List StoredFile) (order : List FileNo) → AreFiles files
        → AreInRank files order → order ≡ project_order files }
{}

/// A law: the member that owns an element is the one that is found for it.
pub fn owners_are_found()
    ensures { (d : Data) (e m : ℕ) → IsOwnedOnce d → Owns d e m → m ≡ owner_of d e }
{}
