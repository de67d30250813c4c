ghost use Rattle.std.specs.Prelude.{◌≡◌, [], ◌∷◌, ◌++◌, OnOk, IfOk};
ghost use Rattle.link_model.specs.Keys.{is_in, same_element};
ghost use Rattle.link_walk.specs.Marks.{marked, marked_all};
ghost use Rattle.link_walk.specs.Noted.{each_once};

use crate::gains::Gains;
use crate::marked::Marked;
use crate::notes::Notes;
use element_store::{ElementNo, Elements};
use linker_base::{Listing, NoMemory};
use std::alloc::Global;
use std::marker::Model;

/// What a search has so far. Contracts see the lists of the marked nodes, of what was found, of what
/// is waited on and of what was looked at.
#[derive(Drop)]
pub struct Trail<B> {
    pub nodes: Marked<ElementNo>,
    pub found: Listing<B>,
    pub notes: Notes,
}

impl<B> Model for Trail<B> {
    ghost use Rattle.link_walk.specs.Noted.{LinkTrail, trail_of};

    ghost Value = { LinkTrail B };

    ghost view = { λ t. trail_of t.nodes t.found t.notes };
}

impl<B> Trail<B> {
    /// A search that has nothing yet. It takes no memory.
    pub fn new(alloc: Global) -> Self
        ensures { result ≡ record { nodes = []; found = []; waits = []; looks = [] } }
    {
        Trail {
            nodes: Marked::new(alloc),
            found: Listing::new(alloc),
            notes: Notes::new(alloc),
        }
    }
}

impl<B: Drop> Trail<B> {
    /// A search before its first node is expanded.
    pub(crate) fn begin(alloc: Global, starts: &[ElementNo]) -> Result<Self, NoMemory>
        ensures { IfOk result (λ trail. trail ≡ record {
          nodes = marked_all same_element [] starts.now;
          found = [];
          waits = [];
          looks = [];
        }) }
    {
        let mut nodes = Marked::new(alloc);
        mark_all(&mut nodes, starts)?;
        Ok(Trail {
            nodes,
            found: Listing::new(alloc),
            notes: Notes::new(alloc),
        })
    }
}

impl Trail<ElementNo> {
    /// What was found, each once, without the nodes.
    pub fn gains(self, alloc: Global) -> Result<Gains<ElementNo>, NoMemory>
        ensures { IfOk result (λ gains. gains ≡ each_once self) }
    {
        let Trail { found, notes, .. } = self;
        let found = distinct(alloc, found.as_slice())?;
        Ok(Gains { found, notes })
    }

    /// Finds a node, and marks it where it wasn't.
    pub fn find(&mut self, node: ElementNo) -> Result<(), NoMemory>
        ensures { OnOk result (self.new ≡ record self.old {
          nodes = marked same_element self.old.nodes node;
          found = self.old.found ++ node ∷ [];
        }) }
    {
        self.found.push(node)?;
        self.nodes.mark(node)?;
        Ok(())
    }
}

/// Each of these once, in order.
pub fn distinct(alloc: Global, elements: &[ElementNo]) -> Result<Elements, NoMemory>
    ensures { IfOk result (λ once. once ≡ marked_all same_element [] elements.now) }
{
    let mut marks = Marked::new(alloc);
    mark_all(&mut marks, elements)?;
    let mut once = Elements::new(alloc);
    append(&mut once, marks.as_slice())?;
    Ok(once)
}

/// Appends these elements.
fn append(elements: &mut Elements, more: &[ElementNo]) -> Result<(), NoMemory>
    ensures { OnOk result (elements.new ≡ elements.old ++ more.now) }
{
    for element in more {
        elements.push(*element)?;
    }
    Ok(())
}

/// Marks each of these.
pub(crate) fn mark_all(marks: &mut Marked<ElementNo>, more: &[ElementNo]) -> Result<(), NoMemory>
    ensures { OnOk result (marks.new ≡ marked_all same_element marks.old more.now) }
{
    for node in more {
        marks.mark(*node)?;
    }
    Ok(())
}

/// Whether an element is among these.
pub fn is_among(e: ElementNo, elements: &[ElementNo]) -> bool
    ensures { result ≡ is_in e elements.now }
{
    for other in elements {
        if e == *other {
            return true;
        }
    }
    false
}
