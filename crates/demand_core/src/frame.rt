ghost use Rattle.std.specs.Prelude.{◌≡◌, [], IfSome, IfNone, None};
ghost use Rattle.linker_base.specs.Members.{IsMember};
ghost use Rattle.demand_core.specs.Settling.{AllDecided};
ghost use Rattle.demand_core.specs.Tables.{entry_of};

use crate::keys::Keys;
use crate::same::Same;
use crate::table::Table;
use std::alloc::Global;
use std::marker::Model;

/// A key that is being decided, and what it waits on.
#[derive(Drop)]
pub(crate) struct Frame<K> {
    pub(crate) key: K,
    pub(crate) waits: Waits<K>,
}

/// An open key, and its place among those on which another waits.
#[derive(Clone, Copy)]
pub(crate) struct OpenWait<K> {
    pub(crate) place: usize,
    pub(crate) key: K,
}

/// The keys on which a key waits. Contracts see the list of them.
///
/// Where the last open one was found is kept, so that a long list isn't looked through anew for
/// each of its keys.
#[derive(Drop)]
pub(crate) struct Waits<K> {
    keys: Keys<K>,
    next: usize,
}

impl<K> Model for Waits<K> {
    ghost use Rattle.std.specs.Prelude.{List};

    ghost Value = { List K };

    ghost view = { λ w. w.keys };
}

impl<K> Frame<K> {
    /// A key that waits on these.
    pub(crate) fn new(key: K, keys: Keys<K>) -> Self
        ensures { result ≡ record { key = key; waits = keys } }
    {
        Frame {
            key,
            waits: Waits { keys, next: 0 },
        }
    }

    /// A key that wasn't asked yet.
    pub(crate) fn begun(alloc: Global, key: K) -> Self
        ensures { result ≡ record { key = key; waits = [] } }
    {
        Frame::new(key, Keys::new(alloc))
    }

    /// The same, whose next open wait is looked for from this place on.
    pub(crate) fn onward(self, place: usize) -> Self
        ensures { result ≡ self }
    {
        Frame {
            key: self.key,
            waits: self.waits.onward(place),
        }
    }
}

impl<K> Waits<K> {
    /// The same, of which the next open one is looked for from this place on.
    fn onward(self, place: usize) -> Self
        ensures { result ≡ self }
    {
        Waits {
            keys: self.keys,
            next: place,
        }
    }
}

impl<K: Same + Copy> Waits<K> {
    /// One of the keys that is open, if there is any.
    pub(crate) fn first_open<V: Drop>(&self, table: &Table<K, V>) -> Option<OpenWait<K>>
        ensures found { IfSome result
            (λ wait. IsMember self.now wait.key × (entry_of K.eq table.now wait.key ≡ None)) }
        ensures none { IfNone result (AllDecided (entry_of K.eq table.now) self.now) }
    {
        let keys = self.keys.as_slice();
        match open_from(keys, self.next, table) {
            Some(wait) => Some(wait),
            None => open_from(keys, 0, table),
        }
    }
}

/// The first of the keys from this place on that is open.
fn open_from<K: Same + Copy, V: Drop>(
    keys: &[K],
    from: usize,
    table: &Table<K, V>,
) -> Option<OpenWait<K>>
    ensures found { IfSome result
        (λ wait. IsMember keys.now wait.key × (entry_of K.eq table.now wait.key ≡ None)) }
    ensures none { from ≡ 0 → IfNone result (AllDecided (entry_of K.eq table.now) keys.now) }
{
    for place in from..keys.len() {
        let key = keys[place];
        match table.get(key) {
            None => return Some(OpenWait { place, key }),
            Some(_) => {}
        }
    }
    None
}
