ghost use Rattle.std.specs.Prelude.{IfOk};
ghost use Rattle.linker_base.specs.Members.{IsMember};
ghost use Rattle.link_model.specs.Outside.{library_of};
ghost use Rattle.link_walk.specs.Calls.{AreLinks, reading};
ghost use Rattle.value_model.specs.Valuing.{AreValueKeys, IsKey, IsReachable, NamesFeatures};
ghost use Rattle.value_rules.specs.Values.{HasList, HasValue};

use demand_core::{Ledger, Steps};
use element_store::Models;
use link_model::{LinkTable, View};
use linker_base::NoMemory;
use std::alloc::Global;
use value_meanings::LinkMeanings;
use value_model::{ValueAnswer, ValueKey};
use value_rules::ValueKeys;

/// The keys that can be read on the way to the value of a key, and the key itself, each once: with each
/// key all those on which its asking waits in some table. `NoMemory` is want of memory alone.
pub fn reachable(
    alloc: Global,
    models: &Models,
    table: &LinkTable,
    key: ValueKey,
) -> Result<ValueKeys, NoMemory>
    requires links { AreLinks models.now table.now }
    requires key { IsKey (reading models.now table.now) key }
    ensures member { IfOk result (λ keys. IsMember keys key) }
    ensures reachable { IfOk result
        (IsReachable (reading models.now table.now) (library_of models.now)) }
    ensures closed { IfOk result
        (AreValueKeys (reading models.now table.now) (library_of models.now)) }
{
    let view = View { models, table };
    let meanings = LinkMeanings::new(view);
    value_rules::reachable(alloc, &meanings, &view, key)
}

/// What a key is worth: its value, or why there is none. It is the same by every list of keys that holds
/// the key and is closed under waits, and there is such a list. What it names are features: `Unbound`
/// and `Several` the feature meant or named, `Circular` the one of the key on which it waits in the end.
/// Each key is asked a bounded number of times. `NoMemory` is want of memory alone.
pub fn value_of<L: Ledger>(
    alloc: Global,
    models: &Models,
    table: &LinkTable,
    key: ValueKey,
    steps: &mut Steps<L>,
) -> Result<ValueAnswer, NoMemory>
    requires links { AreLinks models.now table.now }
    requires key { IsKey (reading models.now table.now) key }
    ensures value { IfOk result
        (HasValue (reading models.now table.now) (library_of models.now) key) }
    ensures list { IfOk result
        (λ _. HasList (reading models.now table.now) (library_of models.now) key) }
    ensures names { IfOk result (NamesFeatures (reading models.now table.now)) }
{
    let view = View { models, table };
    let meanings = LinkMeanings::new(view);
    value_rules::value_of(alloc, &meanings, &view, key, steps)
}
