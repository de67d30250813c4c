ghost use Rattle.std.specs.Prelude.{◌≡◌, ◌∷◌, ◌++◌, [], OnOk, OnErr};

use crate::numbers::ElementNo;
use crate::texts::Name;
use linker_base::{Listing, NoMemory};
use smallvec::SmallVec;
use std::alloc::Global;
use std::marker::Model;

/// Elements, in order.
pub type Elements = Listing<ElementNo>;

/// A member or an import in the body of a namespace, by its number in the file.
#[derive(Clone, Copy, Debug, PartialEq, Eq)]
pub enum Item {
    Member(u32),
    Import(u32),
}

/// The items of a namespace, in text order.
pub type Items = Listing<Item>;

/// The segments of a name, in order. Most names have one, which stands in the value itself.
#[derive(Drop)]
pub struct Segments {
    names: SmallVec<Name, 1>,
}

impl Model for Segments {
    ghost use Rattle.std.specs.Prelude.{List, ℕ};

    ghost Value = { List (List ℕ) };

    ghost view = { λ s. s.names.items };
}

impl Segments {
    /// No segments, which takes no memory.
    pub fn new(alloc: Global) -> Segments
        ensures { result ≡ [] }
    {
        Segments {
            names: SmallVec::new(alloc),
        }
    }

    /// Appends one segment. After `NoMemory` the list is as it was.
    pub fn push(&mut self, item: Name) -> Result<(), NoMemory>
        ensures ok { OnOk result (self.new ≡ self.old ++ item ∷ []) }
        ensures err { OnErr result (self.new ≡ self.old) }
    {
        match self.names.push(item) {
            Ok(()) => Ok(()),
            Err(_) => Err(NoMemory),
        }
    }

    /// Lends the segments, in order.
    pub fn as_slice(&self) -> &[Name]
        ensures { result.now ≡ self.now }
    {
        self.names.as_slice()
    }
}
