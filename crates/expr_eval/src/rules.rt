ghost use Rattle.link_model.specs.Outside.{library_of};
ghost use Rattle.link_walk.specs.Calls.{AreLinks, reading};
ghost use Rattle.value_model.specs.Laws.{NeverBefore};
ghost use Rattle.value_model.specs.Valuing.{AreValueKeys, value_meaning};
ghost use Rattle.value_model.proofs.ValueLaws.{value_lawful, ordered_values};

use demand_core::{Ledger, Looks, Rules, Step, Steps, Table};
use element_store::Models;
use link_model::{LinkTable, View};
use linker_base::NoMemory;
use std::alloc::Global;
use value_meanings::LinkMeanings;
use value_model::{NoFact, ValueAnswer, ValueKey};
use value_rules::ValueKeys;

/// The rules of values over a list of keys: each key once, and with each key all those on which it waits
/// in some table.
#[derive(Clone, Copy)]
pub struct ValueRules<'a> {
    /// The models of the files.
    pub models: &'a Models,
    /// The links, of which no more come.
    pub table: &'a LinkTable,
    /// The keys.
    pub keys: &'a ValueKeys,
}

impl<'a> Rules<ValueKey, ValueAnswer, NoFact> for ValueRules<'a> {
    ghost meaning = { λ r. value_meaning (reading r.models.now r.table.now)
        (library_of r.models.now) r.keys.now };

    ghost before = { λ r. NeverBefore };

    ghost valid = { λ r. AreLinks r.models.now r.table.now
        × AreValueKeys (reading r.models.now r.table.now) (library_of r.models.now) r.keys.now };

    fn ask<L: Ledger>(
        &self,
        alloc: Global,
        table: &Table<ValueKey, ValueAnswer>,
        key: ValueKey,
        looks: &mut Looks<ValueKey, NoFact>,
        steps: &mut Steps<L>,
    ) -> Result<Step<ValueKey, ValueAnswer>, NoMemory> {
        let view = View {
            models: self.models,
            table: self.table,
        };
        let meanings = LinkMeanings::new(view);
        let rules = value_rules::ValueRules {
            meanings: &meanings,
            view,
            keys: self.keys,
        };
        rules.ask(alloc, table, key, looks, steps)
    }

    ghost lawful = { λ r valid. value_lawful (reading r.models.now r.table.now)
        (library_of r.models.now) r.keys.now valid.1 };

    ghost ordered = { λ r valid. ordered_values (reading r.models.now r.table.now)
        (library_of r.models.now) r.keys.now };
}
