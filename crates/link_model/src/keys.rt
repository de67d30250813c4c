ghost use Rattle.std.proofs.Common.{refl};
ghost use Rattle.link_model.specs.Keys.{key_exact, fact_exact};

use demand_core::{Copied, Same};
use element_store::{ElementNo, FileNo, MemberNo, Name, RefNo};
use linker_base::NoMemory;
use std::alloc::Global;

/// A reference, as the key of a table of links.
#[derive(Clone, Copy, Debug, PartialEq, Eq, Hash)]
pub struct LinkKey(pub RefNo);

/// What a lookup looks at beside other references.
#[derive(PartialEq, Eq, Hash, Drop)]
pub enum LinkFact {
    /// A file: its name, and its model, if its text is present.
    File(FileNo),
    /// The public members of the roots of all present project files that bear the name.
    RootName(Name),
}

/// A member and the element to which it leads: an owned member to its element, an alias to what its
/// reference is linked to.
#[derive(Clone, Copy, Debug, PartialEq, Eq)]
pub struct Hit {
    pub member: MemberNo,
    pub element: ElementNo,
}

impl Same for LinkKey {
    ghost exact = { key_exact };
}

impl Same for LinkFact {
    ghost exact = { fact_exact _ (λ a b. refl) (λ x y. refl) (λ a y. refl) (λ x b. refl) };
}

impl Copied for LinkFact {
    fn copied(&self, alloc: Global) -> Result<Self, NoMemory> {
        match self {
            LinkFact::File(file) => Ok(LinkFact::File(*file)),
            LinkFact::RootName(name) => {
                let bytes = Vec::from_slice(alloc, name.bytes())?;
                Ok(LinkFact::RootName(Name::of(bytes)))
            }
        }
    }
}
