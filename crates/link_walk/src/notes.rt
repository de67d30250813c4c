ghost use Rattle.std.specs.Prelude.{◌≡◌, ◌++◌, [], ◌∷◌, not, OnOk};
ghost use Rattle.demand_core.specs.declared.looks.Fact.TheVariants.{Key, Outer};
ghost use Rattle.link_model.specs.declared.keys.LinkFact.TheVariants.{File, RootName};
ghost use Rattle.link_model.specs.Keys.{same_key};
ghost use Rattle.link_model.specs.Readers.{is_nil};
ghost use Rattle.link_walk.specs.Marks.{marked, marked_all, same_fact};
ghost use Rattle.link_walk.specs.Noted.{noted};

use crate::marked::Marked;
use demand_core::{Copied, Fact};
use element_store::{FileNo, Name};
use link_model::{LinkFact, LinkKey, LinkLooks};
use linker_base::NoMemory;
use std::alloc::Global;
use std::marker::Model;

/// What an asking waits on, and at what it looked, each noted once.
#[derive(Drop)]
pub struct Notes {
    alloc: Global,
    waits: Marked<LinkKey>,
    looks: Marked<Fact<LinkKey, LinkFact>>,
}

impl Model for Notes {
    ghost use Rattle.link_walk.specs.Noted.{Noted};

    ghost Value = { Noted };

    ghost view = { λ n. record { waits = n.waits; looks = n.looks } };
}

impl Notes {
    /// Nothing yet. It takes no memory.
    pub fn new(alloc: Global) -> Self
        ensures { result ≡ record { waits = []; looks = [] } }
    {
        Notes {
            alloc,
            waits: Marked::new(alloc),
            looks: Marked::new(alloc),
        }
    }

    /// Notes a look at a file.
    pub fn look_at(&mut self, file: FileNo) -> Result<(), NoMemory>
        ensures { OnOk result (self.new ≡ noted [] (Outer (File file) ∷ []) self.old) }
    {
        self.looks.mark(Fact::Outer(LinkFact::File(file)))
    }

    /// Notes a look at the public root members that bear a name.
    pub fn look_for(&mut self, name: Name) -> Result<(), NoMemory>
        ensures { OnOk result (self.new ≡ noted [] (Outer (RootName name) ∷ []) self.old) }
    {
        self.looks.mark(Fact::Outer(LinkFact::RootName(name)))
    }

    /// Notes a look at the outcome of a reference.
    pub fn look_up(&mut self, reference: LinkKey) -> Result<(), NoMemory>
        ensures { OnOk result (self.new ≡ noted [] (Key reference ∷ []) self.old) }
    {
        self.looks.mark(Fact::Key(reference))
    }

    /// Notes a wait on a reference.
    pub fn wait_on(&mut self, reference: LinkKey) -> Result<(), NoMemory>
        ensures { OnOk result (self.new ≡ noted (reference ∷ []) [] self.old) }
    {
        self.waits.mark(reference)
    }

    /// Lends what is waited on.
    pub fn waits(&self) -> &[LinkKey]
        ensures { result.now ≡ self.now.waits }
    {
        self.waits.as_slice()
    }

    /// Whether anything is waited on.
    pub fn is_waiting(&self) -> bool
        ensures { result ≡ not (is_nil self.now.waits) }
    {
        !self.waits.as_slice().is_empty()
    }

    /// Notes what others note.
    pub fn append(&mut self, other: &Notes) -> Result<(), NoMemory>
        ensures { OnOk result (self.new ≡ noted other.now.waits other.now.looks self.old) }
    {
        mark_keys(&mut self.waits, other.waits.as_slice())?;
        mark_facts(self.alloc, &mut self.looks, other.looks.as_slice())?;
        Ok(())
    }

    /// Adds the looks to a list of looks.
    pub fn tell(&self, looks: &mut LinkLooks) -> Result<(), NoMemory>
        ensures { OnOk result (looks.new ≡ looks.old ++ self.now.looks) }
    {
        for fact in self.looks.as_slice() {
            looks.add(fact.copied(self.alloc)?)?;
        }
        Ok(())
    }
}

fn mark_keys(marks: &mut Marked<LinkKey>, more: &[LinkKey]) -> Result<(), NoMemory>
    ensures { OnOk result (marks.new ≡ marked_all same_key marks.old more.now) }
{
    for key in more {
        marks.mark(*key)?;
    }
    Ok(())
}

/// Marks a second fact, equal to this one.
fn mark_fact(
    alloc: Global,
    marks: &mut Marked<Fact<LinkKey, LinkFact>>,
    fact: &Fact<LinkKey, LinkFact>,
) -> Result<(), NoMemory>
    ensures { OnOk result (marks.new ≡ marked same_fact marks.old fact.now) }
{
    match fact {
        Fact::Key(key) => marks.mark(Fact::Key(*key)),
        Fact::Outer(LinkFact::File(file)) => marks.mark(Fact::Outer(LinkFact::File(*file))),
        Fact::Outer(LinkFact::RootName(name)) => {
            let bytes = Vec::from_slice(alloc, name.bytes())?;
            marks.mark(Fact::Outer(LinkFact::RootName(Name::of(bytes))))
        }
    }
}

fn mark_facts(
    alloc: Global,
    marks: &mut Marked<Fact<LinkKey, LinkFact>>,
    more: &[Fact<LinkKey, LinkFact>],
) -> Result<(), NoMemory>
    ensures { OnOk result (marks.new ≡ marked_all same_fact marks.old more.now) }
{
    for fact in more {
        mark_fact(alloc, marks, fact)?;
    }
    Ok(())
}
