ghost use Rattle.std.specs.Prelude.{◌≡◌, ◌<◌, ◌++◌, Some, slice_get, length, IfOk, OnOk};
ghost use Rattle.element_store.specs.declared.records.Reference.{Reference};
ghost use Rattle.link_model.specs.Readers.{only_if};
ghost use Rattle.link_walk.specs.Wanted.{is_wanted, references_in};

use element_store::{ElementNo, FileModel, RefNo, Role};
use link_model::LinkKey;
use linker_base::{Listing, NoMemory};
use std::alloc::Global;

/// Which references of an element are wanted.
#[derive(Clone, Copy, Debug, PartialEq, Eq)]
pub enum Wanted {
    /// Those that lead to its generals.
    Specialisations,
    /// Those of its redefinitions.
    Redefinitions,
}

impl Wanted {
    /// Whether a reference of that role is among them.
    pub fn has(self, role: Role) -> bool
        ensures { result ≡ is_wanted self role }
    {
        match (self, role) {
            (_, Role::Redefinition) => true,
            (Wanted::Specialisations, Role::Subclass | Role::Typing) => true,
            (Wanted::Specialisations, Role::Subsetting | Role::ReferenceSubsetting) => true,
            _ => false,
        }
    }
}

/// Adds a reference, if it is wanted.
fn add_reference(
    model: &FileModel,
    reference: RefNo,
    wanted: Wanted,
    keys: &mut Listing<LinkKey>,
) -> Result<(), NoMemory>
    requires { reference.index < length model.now.references }
    ensures { OnOk result ((r : Reference) → slice_get model.now.references reference.index ≡ Some r
        → keys.new ≡ keys.old ++ only_if (is_wanted wanted r.role) (record { 0 = reference })) }
{
    let wants = wanted.has(model.reference(reference.index).role);
    if wants {
        keys.push(LinkKey(reference))?;
    }
    Ok(())
}

/// The references of an element that are wanted, in order.
pub fn references_of(
    alloc: Global,
    model: &FileModel,
    e: ElementNo,
    wanted: Wanted,
) -> Result<Listing<LinkKey>, NoMemory>
    requires { e.index < length model.now.elements }
    ensures keys { IfOk result (λ keys. keys ≡ references_in (is_wanted wanted) model.now e) }
{
    let mut keys = Listing::new(alloc);
    let (first, after) = model.references_of(e.index);
    for index in first..after {
        let reference = RefNo {
            file: e.file,
            index,
        };
        add_reference(model, reference, wanted, &mut keys)?;
    }
    Ok(keys)
}
