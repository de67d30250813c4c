ghost use Rattle.std.specs.Prelude.{◌≡◌, IfOk};
ghost use Rattle.link_walk.specs.Calls.{read_by};
ghost use Rattle.value_model.specs.Valuing.{IsKey, NamesFeatures};
ghost use Rattle.value_rules.specs.Values.{HasList, HasValue};

use crate::reach::reachable;
use crate::rules::{ValueRules, value_over};
use demand_core::{Ledger, Steps};
use link_model::View;
use linker_base::NoMemory;
use std::alloc::Global;
use value_asking::Meanings;
use value_model::{ValueAnswer, ValueKey};

/// What a key is worth over the links, of which no more come: the same by every list of keys that
/// holds it and is closed under waits. `NoMemory` is want of memory alone.
pub fn value_of<M: Meanings, L: Ledger>(
    alloc: Global,
    meanings: &M,
    view: &View,
    key: ValueKey,
    steps: &mut Steps<L>,
) -> Result<ValueAnswer, NoMemory>
    requires links { M.links meanings.now ≡ read_by view.now }
    requires key { IsKey (M.links meanings.now) key }
    ensures value { IfOk result (HasValue (M.links meanings.now) (M.library meanings.now) key) }
    ensures list { IfOk result
        (λ _. HasList (M.links meanings.now) (M.library meanings.now) key) }
    ensures names { IfOk result (NamesFeatures (M.links meanings.now)) }
{
    let keys = reachable(alloc, meanings, view, key)?;
    let rules = ValueRules {
        meanings,
        view: *view,
        keys: &keys,
    };
    value_over(alloc, &rules, key, steps)
}
