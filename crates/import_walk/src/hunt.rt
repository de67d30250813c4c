ghost use Rattle.std.specs.Prelude.{◌≡◌, ◌++◌, [], ◌∷◌, OnOk};
ghost use Rattle.import_walk.specs.Deferred.{task_of, with_task};
ghost use Rattle.link_walk.proofs.GainLaws.{plus};

use element_store::ElementNo;
use link_model::Hit;
use link_walk::{Gains, Hits, Notes};
use linker_base::{Listing, NoMemory};
use std::alloc::Global;
use std::marker::Model;

/// A namespace whose visible members are still to be looked up, and what is excluded there.
#[derive(Drop)]
pub(crate) struct Task {
    pub(crate) excluded: Listing<ElementNo>,
    pub(crate) recursive: bool,
    pub(crate) all: bool,
    pub(crate) namespace: ElementNo,
}

/// What a lookup of visible members has so far, and the tasks that are left.
#[derive(Drop)]
pub(crate) struct Hunt {
    pub(crate) tasks: Vec<Task>,
    pub(crate) found: Hits,
    pub(crate) notes: Notes,
}

impl Model for Hunt {
    ghost use Rattle.link_model.specs.declared.keys.LinkKey.{LinkKey};
    ghost use Rattle.link_model.specs.declared.keys.LinkFact.{LinkFact};
    ghost use Rattle.link_model.specs.declared.keys.Hit.{Hit};
    ghost use Rattle.import_walk.specs.declared.hunt.Task.{Task};
    ghost use Rattle.demand_core.specs.Search.{Trail};

    ghost Value = { Trail LinkKey LinkFact Task Hit };

    ghost view = { λ h. record {
      nodes = h.tasks.items;
      found = h.found;
      waits = h.notes.waits;
      looks = h.notes.looks;
    } };
}

impl Hunt {
    /// Nothing yet. It takes no memory.
    pub(crate) fn new(alloc: Global) -> Self
        ensures { result ≡ record { nodes = []; found = []; waits = []; looks = [] } }
    {
        Hunt {
            tasks: Vec::new(alloc),
            found: Hits::new(alloc),
            notes: Notes::new(alloc),
        }
    }

    /// Adds what an asking of its own found, waits on and looked at.
    pub(crate) fn add(&mut self, gains: &Gains<Hit>) -> Result<(), NoMemory>
        ensures { OnOk result (
            self.new ≡ plus self.old gains.now.found gains.now.waits gains.now.looks) }
    {
        append_hits(&mut self.found, gains.found.as_slice())?;
        self.notes.append(&gains.notes)
    }

    /// Adds a task.
    pub(crate) fn defer(
        &mut self,
        alloc: Global,
        excluded: &[ElementNo],
        recursive: bool,
        all: bool,
        namespace: ElementNo,
    ) -> Result<(), NoMemory>
        ensures { OnOk result (
            self.new ≡ with_task self.old (task_of excluded.now recursive all namespace)) }
    {
        let mut copy = Listing::new(alloc);
        append_elements(&mut copy, excluded)?;
        self.tasks.push(Task {
            excluded: copy,
            recursive,
            all,
            namespace,
        })?;
        Ok(())
    }
}

fn append_hits(hits: &mut Hits, more: &[Hit]) -> Result<(), NoMemory>
    ensures { OnOk result (hits.new ≡ hits.old ++ more.now) }
{
    for hit in more {
        hits.push(*hit)?;
    }
    Ok(())
}

/// Appends elements to a list of them.
pub(crate) fn append_elements(
    elements: &mut Listing<ElementNo>,
    more: &[ElementNo],
) -> Result<(), NoMemory>
    ensures { OnOk result (elements.new ≡ elements.old ++ more.now) }
{
    for element in more {
        elements.push(*element)?;
    }
    Ok(())
}
