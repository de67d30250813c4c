ghost use Rattle.std.specs.Prelude.{◌≡◌, ◌↔◌, ◌||◌, ◌&&◌, [], true, false, not, IsTrue, None};
ghost use Rattle.std.specs.Prelude.{IfOk, OnOk, OnErr};
ghost use Rattle.std.specs.Map.{update};
ghost use Rattle.linker_base.specs.Members.{IsMember};
ghost use Rattle.demand_core.specs.Readers.{is_reader};
ghost use Rattle.demand_core.specs.Tables.{entry_of};

use crate::keys::Keys;
use crate::same::{Copied, Same};
use crate::table::Table;
use linker_base::NoMemory;
use std::alloc::Global;
use std::collections::HashMap;
use std::marker::Model;

/// For each thing that was looked at, the keys that looked at it. Contracts see the readers by
/// their things, and read them by `is_reader`.
#[derive(Drop)]
pub(crate) struct Readers<K: Same, T: Same> {
    alloc: Global,
    // A table of readers for each thing, so that one of many readers is taken out without a search.
    entries: HashMap<T, Table<K, ()>>,
}

impl<K: Same, T: Same> Model for Readers<K, T> {
    ghost use Rattle.std.specs.Prelude.{List};

    ghost Value = { List (T × List (K × Unit {0})) };

    ghost view = { λ r. r.entries.entries };
}

impl<K: Same + Copy, T: Same + Copied> Readers<K, T> {
    /// No readers. It takes no memory.
    pub(crate) fn new(alloc: Global) -> Self
        ensures { result ≡ [] }
    {
        Readers {
            alloc,
            entries: HashMap::new(alloc),
        }
    }

    /// Notes that a key looked at a thing. After `NoMemory` the readers are as they were.
    fn note(&mut self, thing: &T, key: K) -> Result<(), NoMemory>
        ensures ok { OnOk result ((t : T) (k : K) → is_reader K.eq T.eq self.new t k
            ≡ (T.eq thing.now t && K.eq key k || is_reader K.eq T.eq self.old t k)) }
        ensures err { OnErr result ((t : T) (k : K)
            → is_reader K.eq T.eq self.new t k ≡ is_reader K.eq T.eq self.old t k) }
    {
        match self.entries.get_mut(thing) {
            Some(readers) => readers.put(key, ()),
            None => {
                let mut readers = Table::new(self.alloc);
                readers.put(key, ())?;
                self.entries.insert(thing.copied(self.alloc)?, readers)?;
                Ok(())
            }
        }
    }

    /// Notes that a key looked at these things. After `NoMemory` some of them may be noted.
    pub(crate) fn note_all(&mut self, key: K, things: &[T]) -> Result<(), NoMemory>
        ensures noted { OnOk result
            ((t : T) → IsMember things.now t → is_reader K.eq T.eq self.new t key ≡ true) }
        ensures kept { (t : T) (k : K) → is_reader K.eq T.eq self.old t k ≡ true
            → is_reader K.eq T.eq self.new t k ≡ true }
    {
        for thing in things {
            self.note(thing, key)?;
        }
        Ok(())
    }

    /// Takes a key out of the readers of a thing. Answers whether the thing has none left, though
    /// it had some.
    fn take(&mut self, thing: &T, key: K) -> bool
        ensures taken { (t : T) (k : K) → is_reader K.eq T.eq self.new t k
            ≡ (not (T.eq thing.now t && K.eq key k) && is_reader K.eq T.eq self.old t k) }
        ensures none { result ≡ true → (k : K) → is_reader K.eq T.eq self.new thing.now k ≡ false }
    {
        match self.entries.get_mut(thing) {
            Some(readers) => return take_out(readers, key),
            None => return false,
        }
    }

    /// Lets go what is kept of a thing.
    fn let_go(&mut self, thing: &T)
        ensures { (t : T)
            → entry_of T.eq self.new t ≡ update T.eq (entry_of T.eq self.old) thing.now None t }
    {
        let _gone = self.entries.remove(thing);
    }

    /// Takes a key out of the readers of a thing.
    fn remove(&mut self, thing: &T, key: K)
        ensures { (t : T) (k : K) → is_reader K.eq T.eq self.new t k
            ≡ (not (T.eq thing.now t && K.eq key k) && is_reader K.eq T.eq self.old t k) }
    {
        if self.take(thing, key) {
            self.let_go(thing);
        }
    }

    /// Takes a key out of the readers of these things.
    pub(crate) fn remove_all(&mut self, key: K, things: &[T])
        ensures gone { (t : T) → IsMember things.now t
            → is_reader K.eq T.eq self.new t key ≡ false }
        ensures others { (t : T) (k : K) → K.eq key k ≡ false
            → is_reader K.eq T.eq self.new t k ≡ is_reader K.eq T.eq self.old t k }
    {
        for thing in things {
            self.remove(thing, key);
        }
    }

    /// The keys that looked at a thing, maybe among others.
    pub(crate) fn of(&self, thing: &T) -> Result<Keys<K>, NoMemory>
        ensures { IfOk result (λ keys. (k : K) → is_reader K.eq T.eq self.now thing.now k ≡ true
            → IsMember keys k) }
    {
        match self.entries.get(thing) {
            Some(readers) => readers.keys(self.alloc),
            None => Ok(Keys::new(self.alloc)),
        }
    }
}

/// Takes a key out of a table of readers. Answers whether none is left.
fn take_out<K: Same + Copy>(readers: &mut Table<K, ()>, key: K) -> bool
    ensures rest { (q : K)
        → entry_of K.eq readers.new q ≡ update K.eq (entry_of K.eq readers.old) key None q }
    ensures none { IsTrue result ↔ (readers.new ≡ []) }
{
    readers.remove(key);
    readers.is_empty()
}
