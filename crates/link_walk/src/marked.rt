ghost use Rattle.std.specs.Prelude.{◌≡◌, [], OnOk, OnErr};
ghost use Rattle.link_walk.specs.Marks.{marked};

use indexmap::IndexSet;
use linker_base::NoMemory;
use std::alloc::Global;
use std::hash::Hash;
use std::marker::Model;

/// Values in the order in which they were marked, each once. Contracts see the list of them.
#[derive(Drop)]
pub struct Marked<T: Eq + Hash> {
    values: IndexSet<T>,
}

impl<T: Eq + Hash> Model for Marked<T> {
    ghost use Rattle.std.specs.Prelude.{List};

    ghost Value = { List T };

    ghost view = { λ m. m.values.keys };
}

impl<T: Eq + Hash + Drop> Marked<T> {
    /// No marks, which takes no memory.
    pub fn new(alloc: Global) -> Self
        ensures { result ≡ [] }
    {
        Marked {
            values: IndexSet::new(alloc),
        }
    }

    /// Lends the values, in order.
    pub fn as_slice(&self) -> &[T]
        ensures { result.now ≡ self.now }
    {
        self.values.as_slice()
    }

    /// Marks a value, where it isn't marked. After `NoMemory` the marks are as they were.
    pub fn mark(&mut self, value: T) -> Result<(), NoMemory>
        ensures ok { OnOk result (self.new ≡ marked T.eq self.old value) }
        ensures err { OnErr result (self.new ≡ self.old) }
    {
        self.values.insert(value)?;
        Ok(())
    }
}
