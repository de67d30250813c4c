ghost use Rattle.std.specs.Prelude.{◌≡◌, IfOk};
ghost use Rattle.linker_base.specs.Members.{IsMember};
ghost use Rattle.element_store.specs.Stored.{AreFiles};
ghost use Rattle.link_walk.specs.Calls.{read_by};
ghost use Rattle.value_model.specs.Laws.{NeverBefore};
ghost use Rattle.value_model.specs.Valuing.{AreValueKeys, NamesFeatures, value_by, value_meaning};
ghost use Rattle.value_model.proofs.ValueLaws.{value_lawful, ordered_values};

use crate::keys::ValueKeys;
use demand_core::{Answer, Engine, Ledger, Looks, Rules, Step, Steps, Table};
use link_model::View;
use linker_base::NoMemory;
use std::alloc::Global;
use value_asking::{Meanings, ask};
use value_model::{NoFact, ValueAnswer, ValueFault, ValueKey};
use value_operators::copy_answer;

/// The rules of values over a list of keys: each key once, and with each key all those on which it
/// waits in some table.
#[derive(Clone, Copy)]
pub struct ValueRules<'a, M> {
    /// Which feature is meant in a target.
    pub meanings: &'a M,
    /// The models and the links, of which no more come.
    pub view: View<'a>,
    /// The keys.
    pub keys: &'a ValueKeys,
}

impl<'a, M: Meanings> Rules<ValueKey, ValueAnswer, NoFact> for ValueRules<'a, M> {
    ghost meaning = { λ r. value_meaning (M.links r.meanings.now) (M.library r.meanings.now)
        r.keys.now };

    ghost before = { λ r. NeverBefore };

    ghost valid = { λ r. (M.links r.meanings.now ≡ read_by r.view)
        × AreValueKeys (M.links r.meanings.now) (M.library r.meanings.now) r.keys.now };

    fn ask<L: Ledger>(
        &self,
        alloc: Global,
        table: &Table<ValueKey, ValueAnswer>,
        key: ValueKey,
        looks: &mut Looks<ValueKey, NoFact>,
        steps: &mut Steps<L>,
    ) -> Result<Step<ValueKey, ValueAnswer>, NoMemory> {
        steps.tick();
        ask(alloc, self.meanings, &self.view, table, key, looks)
    }

    ghost lawful = { λ r valid. value_lawful (M.links r.meanings.now) (M.library r.meanings.now)
        r.keys.now valid.1 };

    ghost ordered = { λ r valid. ordered_values (M.links r.meanings.now)
        (M.library r.meanings.now) r.keys.now };
}

/// What a key is worth by the rules over a list of keys that holds it: its value, or why there is
/// none. A key that hangs on itself is circular, with the feature of the key on which it waits in
/// the end. Keys are asked on demand: each at most twice, and once more for each key at which it looks.
/// `NoMemory` is want of memory alone.
pub fn value_over<M: Meanings, L: Ledger>(
    alloc: Global,
    rules: &ValueRules<M>,
    key: ValueKey,
    steps: &mut Steps<L>,
) -> Result<ValueAnswer, NoMemory>
    requires links { M.links rules.now.meanings.now ≡ read_by rules.now.view }
    requires keys { AreValueKeys (M.links rules.now.meanings.now)
        (M.library rules.now.meanings.now) rules.now.keys.now }
    requires member { IsMember rules.now.keys.now key }
    ensures value { IfOk result (λ answer. answer
        ≡ value_by (value_meaning (M.links rules.now.meanings.now)
        (M.library rules.now.meanings.now) rules.now.keys.now) key) }
    ensures names { IfOk result (NamesFeatures (M.links rules.now.meanings.now)) }
{
    let mut engine = Engine::new(alloc);
    engine.settle(rules, rules.keys.as_slice(), steps)?;
    match engine.answer(key) {
        Answer::Decided(answer) => copy_answer(alloc, answer),
        Answer::Cyclic(on) => Ok(ValueAnswer::Refused(ValueFault::Circular(on.feature))),
        Answer::Open => unreachable!(),
    }
}
