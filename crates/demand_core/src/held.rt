ghost use Rattle.std.specs.Prelude.{◌≡◌, [], false, OnOk};
ghost use Rattle.linker_base.specs.Counts.{counted_once};
ghost use Rattle.demand_core.specs.Forgotten.{Drops};
ghost use Rattle.demand_core.specs.Settled.{IsSameAt, Keeps};
ghost use Rattle.demand_core.specs.Tables.{entry_of, Sets};

use crate::looks::{Fact, Looks};
use crate::readings::Readings;
use crate::same::{Copied, Same};
use crate::table::Table;
use linker_base::NoMemory;
use std::alloc::Global;
use std::marker::Model;

/// What an engine holds. After `NoMemory` parts of one key may be missing here: the engine drops
/// them.
#[derive(Drop)]
pub(crate) struct Held<K: Same, V, F: Same> {
    pub(crate) table: Table<K, V>,
    pub(crate) cyclic: Table<K, K>,
    pub(crate) looks: Readings<K, Fact<K, F>>,
    stamps: Table<K, u64>,
    asked: u64,
}

impl<K: Same, V, F: Same> Model for Held<K, V, F> {
    ghost use Rattle.demand_core.specs.EngineState.{EngineState};

    ghost Value = { EngineState K V F };

    ghost view = { λ h. record {
      table = h.table;
      cyclic = h.cyclic;
      looks = h.looks;
      stamps = h.stamps;
      asked = h.asked;
    } };
}

impl<K: Same + Copy, V: Drop, F: Same + Copied> Held<K, V, F> {
    /// Nothing. It takes no memory.
    pub(crate) fn new(alloc: Global) -> Self
        ensures { result ≡ record { table = []; cyclic = []; looks = []; stamps = []; asked = 0 } }
    {
        Held {
            table: Table::new(alloc),
            cyclic: Table::new(alloc),
            looks: Readings::new(alloc),
            stamps: Table::new(alloc),
            asked: 0,
        }
    }

    /// Counts one asking.
    pub(crate) fn count(&mut self)
        ensures { self.new ≡ record self.old { asked = counted_once self.old.asked } }
    {
        self.asked = self.asked.saturating_add(1);
    }

    /// Keeps the answer of a key, with what it looked at.
    pub(crate) fn decide(&mut self, key: K, value: V, looks: Looks<K, F>) -> Result<(), NoMemory>
        ensures table { OnOk result (Sets K.eq self.old.table self.new.table key value) }
        ensures kept { OnOk result (Keeps K.eq self.old self.new key looks) }
        ensures others { (q : K) → K.eq key q ≡ false → IsSameAt K.eq self.old self.new q }
        ensures rest { (self.new.cyclic ≡ self.old.cyclic) × (self.new.asked ≡ self.old.asked) }
    {
        self.keep(key, looks)?;
        self.table.put(key, value)?;
        Ok(())
    }

    /// Keeps the first key on which a cyclic key waits, with what it looked at.
    pub(crate) fn keep_cyclic(&mut self, key: K, on: K, looks: Looks<K, F>) -> Result<(), NoMemory>
        ensures cyclic { OnOk result (Sets K.eq self.old.cyclic self.new.cyclic key on) }
        ensures kept { OnOk result (Keeps K.eq self.old self.new key looks) }
        ensures others { (q : K) → K.eq key q ≡ false → IsSameAt K.eq self.old self.new q }
        ensures rest { (self.new.table ≡ self.old.table) × (self.new.asked ≡ self.old.asked) }
    {
        self.keep(key, looks)?;
        self.cyclic.put(key, on)?;
        Ok(())
    }

    /// Keeps what a key looked at, and the number of askings so far as its stamp.
    fn keep(&mut self, key: K, looks: Looks<K, F>) -> Result<(), NoMemory>
        ensures kept { OnOk result (Keeps K.eq self.old self.new key looks) }
        ensures others { (q : K) → K.eq key q ≡ false → IsSameAt K.eq self.old self.new q }
        ensures rest { (self.new.table ≡ self.old.table) × (self.new.cyclic ≡ self.old.cyclic)
            × (self.new.asked ≡ self.old.asked) }
    {
        self.looks.put(key, looks.into_facts())?;
        self.stamps.put(key, self.asked)?;
        Ok(())
    }

    /// Drops all that is held of a key.
    pub(crate) fn drop_key(&mut self, key: K)
        ensures { Drops K.eq self.old self.new key }
    {
        self.table.remove(key);
        self.cyclic.remove(key);
        self.looks.remove(key);
        self.stamps.remove(key);
    }
}
