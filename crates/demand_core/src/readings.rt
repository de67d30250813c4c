ghost use Rattle.std.specs.Prelude.{◌≡◌, ◌↔◌, IsTrue, List, [], None, Some, IfOk, OnOk, OnErr};
ghost use Rattle.std.specs.List.{list_any};
ghost use Rattle.std.specs.Map.{update};
ghost use Rattle.linker_base.specs.Members.{IsMember};
ghost use Rattle.demand_core.specs.Readers.{IsListed};
ghost use Rattle.demand_core.specs.Tables.{entry_of, Sets};

use crate::keys::Keys;
use crate::readers::Readers;
use crate::same::{Copied, Same};
use crate::table::Table;
use linker_base::{Listing, NoMemory};
use std::alloc::Global;
use std::marker::Model;

/// What keys looked at. Contracts see each key's list. Besides, whoever looked at a thing is found
/// by the thing.
#[derive(Drop)]
pub(crate) struct Readings<K: Same, T: Same> {
    lists: Table<K, Listing<T>>,
    readers: Readers<K, T>,
}

impl<K: Same, T: Same> Model for Readings<K, T> {
    ghost use Rattle.std.specs.Prelude.{List};

    ghost Value = { List (K × List T) };

    ghost view = { λ r. r.lists };

    ghost use Rattle.demand_core.specs.Readers.{AreRecorded};

    ghost invariant = { λ r. AreRecorded K.eq T.eq r.lists r.readers };
}

impl<K: Same + Copy, T: Same + Copied> Readings<K, T> {
    /// No lists. It takes no memory.
    pub(crate) fn new(alloc: Global) -> Self
        ensures { result ≡ [] }
    {
        Readings {
            lists: Table::new(alloc),
            readers: Readers::new(alloc),
        }
    }

    /// Sets the list of one key, and leaves every other. After `NoMemory` the lists are as they
    /// were.
    pub(crate) fn put(&mut self, key: K, list: Listing<T>) -> Result<(), NoMemory>
        ensures ok { OnOk result (Sets K.eq self.old self.new key list) }
        ensures err { OnErr result (self.new ≡ self.old) }
    {
        self.readers.note_all(key, list.as_slice())?;
        self.lists.put(key, list)?;
        Ok(())
    }

    /// Takes the list of a key out, if there is one, and leaves every other.
    pub(crate) fn remove(&mut self, key: K)
        ensures { (q : K)
            → entry_of K.eq self.new q ≡ update K.eq (entry_of K.eq self.old) key None q }
    {
        match self.lists.take(key) {
            Some(list) => self.readers.remove_all(key, list.as_slice()),
            None => {}
        }
    }

    /// Whether the thing is on the list of the key.
    pub(crate) fn has(&self, key: K, thing: &T) -> bool
        ensures { IsTrue result ↔ IsListed K.eq self.now key thing.now }
    {
        match self.lists.get(key) {
            Some(list) => is_among(thing, list.as_slice()),
            None => false,
        }
    }

    /// The keys on whose lists the thing is, maybe among others.
    pub(crate) fn readers(&self, thing: &T) -> Result<Keys<K>, NoMemory>
        ensures { IfOk result
            (λ keys. (k : K) → IsListed K.eq self.now k thing.now → IsMember keys k) }
    {
        self.readers.of(thing)
    }
}

/// Whether the thing is one of these.
fn is_among<T: Same>(thing: &T, things: &[T]) -> bool
    ensures { result ≡ list_any (T.eq thing.now) things.now }
{
    for other in things {
        if thing == other {
            return true;
        }
    }
    false
}
