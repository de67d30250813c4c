ghost use Rattle.std.specs.Prelude.{◌≡◌, ◌∷◌, ◌++◌, [], List, OnOk, OnErr};

use crate::no_memory::NoMemory;
use std::alloc::Global;
use std::marker::Model;

/// A list that grows at its end. Contracts see the list of its items, in order.
///
/// The public lists, as those of elements or of tokens, are types over this one.
#[derive(Drop)]
pub struct Listing<T> {
    items: Vec<T>,
}

impl<T> Model for Listing<T> {
    ghost use Rattle.std.specs.Prelude.{List};

    ghost Value = { List T };

    ghost view = { λ l. l.items.items };
}

impl<T> Listing<T> {
    /// An empty list, which takes no memory.
    pub fn new(alloc: Global) -> Self
        ensures { result ≡ [] }
    {
        Listing {
            items: Vec::new(alloc),
        }
    }

    /// Lends the items, in order.
    pub fn as_slice(&self) -> &[T]
        ensures { result.now ≡ self.now }
    {
        &self.items
    }
}

impl<T: Drop> Listing<T> {
    /// Appends one item. After `NoMemory` the list is as it was.
    pub fn push(&mut self, item: T) -> Result<(), NoMemory>
        ensures ok { OnOk result (self.new ≡ self.old ++ item ∷ []) }
        ensures err { OnErr result (self.new ≡ self.old) }
    {
        self.items.push(item)?;
        Ok(())
    }
}

#[cfg(test)]
mod tests {
    use super::Listing;
    use std::alloc::Global;

    #[test]
    fn items_come_back_in_order(rt: HostRuntime) {
        let mut list = Listing::new(rt.alloc());
        assert!(rt; list.as_slice().is_empty());
        assert!(rt; list.push(3u8).is_ok());
        assert!(rt; list.push(1u8).is_ok());
        assert!(rt; list.as_slice() == [3, 1].as_slice());
    }
}
