ghost use Rattle.std.specs.Prelude.{◌≡◌, length, Some, IfOk};
ghost use Rattle.linker_base.specs.Members.{IsMember};
ghost use Rattle.element_store.specs.BaseRules.{StandsIn};
ghost use Rattle.link_model.specs.Linking.{ComesBefore, link_meaning};
ghost use Rattle.link_waits.specs.Ranks.{AreRanksOf};
ghost use Rattle.link_waits.specs.Waits.{HaveFiles};
ghost use Rattle.root_names.specs.Roots.{AreRootsOf};
ghost use Rattle.name_resolution.specs.Ready.{IsReady, Gives};

use demand_core::{Keys, Ledger, Looks, Rules, Step, Steps, Table};
use element_store::{Models, Outcome};
use link_asking::ask;
use link_model::{LinkFact, LinkKey, View};
use link_tiers::Lookups;
use link_waits::{Ranks, in_order};
use link_walk::Notes;
use linker_base::NoMemory;
use root_names::RootNames;
use std::alloc::Global;

/// The rules of links over the models of a project, with the names of their roots, the ranks of their
/// files, and the lookups in one namespace.
#[derive(Drop)]
pub struct LinkRules<'a, T> {
    pub models: &'a Models,
    pub roots: &'a RootNames,
    pub ranks: &'a Ranks,
    pub lookups: &'a T,
}

/// The step of an asking: its outcome, or what it waits on, each once, in the order of references.
fn step_of(
    alloc: Global,
    models: &Models,
    ranks: &Ranks,
    outcome: Option<Outcome>,
    notes: &Notes,
) -> Result<Step<LinkKey, Outcome>, NoMemory>
    requires ranks { AreRanksOf models.now ranks.now }
    requires files { HaveFiles (length models.now) notes.now.waits }
    ensures { IfOk result (Gives models.now outcome notes.now.waits) }
{
    match outcome {
        Some(outcome) => Ok(Step::Done(outcome)),
        None => {
            let keys = in_order(alloc, models, ranks, notes.waits())?;
            Ok(Step::Waits(keys))
        }
    }
}

impl<'a, T: Lookups> Rules<LinkKey, Outcome, LinkFact> for LinkRules<'a, T> {
    ghost use Rattle.link_model.specs.Linking.{ComesBefore, link_meaning};
    ghost use Rattle.name_resolution.specs.Ready.{IsReady};
    ghost use Rattle.link_model.proofs.LinkLaws.{link_lawful};
    ghost use Rattle.link_model.proofs.OrderLemmas.{ordered_links};

    ghost meaning = { λ r. link_meaning r.models.now };

    ghost before = { λ r. ComesBefore r.models.now };

    ghost valid = { λ r. IsReady r.models.now r.roots.now r.ranks.now };

    fn ask<L: Ledger>(
        &self,
        alloc: Global,
        table: &Table<LinkKey, Outcome>,
        key: LinkKey,
        looks: &mut Looks<LinkKey, LinkFact>,
        steps: &mut Steps<L>,
    ) -> Result<Step<LinkKey, Outcome>, NoMemory> {
        steps.tick();
        let view = View {
            models: self.models,
            table,
        };
        let mut notes = Notes::new(alloc);
        let outcome = ask(
            alloc,
            self.lookups,
            &view,
            self.roots,
            self.ranks,
            key.0,
            &mut notes,
        )?;
        notes.tell(looks)?;
        let step = step_of(alloc, self.models, self.ranks, outcome, &notes)?;
        Ok(step)
    }

    ghost lawful = { λ r valid. link_lawful r.models.now valid.files };

    ghost ordered = { λ r valid. ordered_links r.models.now valid.files };
}
