ghost use Rattle.std.specs.Prelude.{◌≡◌, ◌<◌, length, IfOk};
ghost use Rattle.demand_core.specs.Tables.{entry_of};
ghost use Rattle.link_model.specs.Keys.{same_key};
ghost use Rattle.link_model.specs.Linking as linking;
ghost use Rattle.link_walk.specs.Calls.{AreLinks};
ghost use Rattle.link_waits.specs.Ranks.{AreRanksOf};
ghost use Rattle.link_waits.specs.Waits.{HaveFiles};
ghost use Rattle.name_resolution.specs.Ready.{IsReady, Ends};

use crate::rules::LinkRules;
use element_store::{Models, Outcome, Segments};
use link_asking::find as ask_for;
use link_model::{LinkTable, View};
use link_tiers::Lookups;
use link_waits::{Ranks, in_order};
use link_walk::Notes;
use linker_base::NoMemory;
use std::alloc::Global;

/// A qualified name that is asked for from outside, by its segments (KerML 8.2.3.5).
#[derive(Drop)]
pub struct QualifiedName {
    pub path: Segments,
}

/// The outcome of a finding: where it waits it is cyclic, on the least reference on which it waits.
fn ended(
    alloc: Global,
    models: &Models,
    ranks: &Ranks,
    outcome: Option<Outcome>,
    notes: &Notes,
) -> Result<Outcome, NoMemory>
    requires ranks { AreRanksOf models.now ranks.now }
    requires files { HaveFiles (length models.now) notes.now.waits }
    ensures { IfOk result (Ends models.now outcome notes.now.waits) }
{
    if let Some(outcome) = outcome {
        return Ok(outcome);
    }
    let keys = in_order(alloc, models, ranks, notes.waits())?;
    match keys.as_slice().first() {
        None => Ok(Outcome::Absent { segment: 1 }),
        Some(key) => Ok(Outcome::Cyclic { on: key.0 }),
    }
}

/// Finds what a qualified name means from outside, as from a project file: its first segment in the
/// tier of the project and then in that of the library, each later one among the visible members of
/// the element before. Where the rules of links wait, the outcome is cyclic, on the least reference
/// on which they wait.
pub fn find<T: Lookups>(
    alloc: Global,
    rules: &LinkRules<T>,
    table: &LinkTable,
    name: &QualifiedName,
) -> Result<Outcome, NoMemory>
    requires ready { IsReady rules.now.models.now rules.now.roots.now rules.now.ranks.now }
    requires links { AreLinks rules.now.models.now table.now }
    requires some { 0 < length name.now.path }
    requires few { length name.now.path < 4294967296 }
    ensures { IfOk result (λ outcome. outcome ≡ linking.find rules.now.models.now
        (entry_of same_key table.now) name.now.path) }
{
    let view = View {
        models: rules.models,
        table,
    };
    let mut notes = Notes::new(alloc);
    let outcome = ask_for(
        alloc,
        rules.lookups,
        &view,
        rules.roots,
        rules.ranks,
        name.path.as_slice(),
        &mut notes,
    )?;
    let found = ended(alloc, rules.models, rules.ranks, outcome, &notes)?;
    Ok(found)
}
