ghost use Rattle.std.specs.Prelude.{List, [], OnOk};
ghost use Rattle.linker_base.specs.Members.{IsMember};
ghost use Rattle.demand_core.specs.Computation.{IsRegular};
ghost use Rattle.demand_core.specs.Gather.{Led};
ghost use Rattle.demand_core.specs.Search.{Expands};
ghost use Rattle.element_store.specs.declared.numbers.ElementNo.{ElementNo};
ghost use Rattle.link_model.specs.Keys.{same_element};
ghost use Rattle.link_model.specs.Readers.{Lookup, LinkWorld};
ghost use Rattle.link_walk.specs.Calls.{StaysAmong};

use crate::trail::Trail;
use element_store::ElementNo;
use linker_base::NoMemory;

/// Where a search goes: which links an element has, and what a link gives.
pub trait Links<B> {
    /// What a link is.
    ghost Link: { Type 0 };

    /// What the search reads.
    ghost world: { Self → LinkWorld };

    /// The links of an element.
    ghost links: { Self → ElementNo → Lookup (List Link) };

    /// What a link finds, and where it goes on.
    ghost leads: { Self → Link → Lookup (Led B ElementNo) };

    /// All elements where a link may go on.
    ghost all: { Self → List ElementNo };

    /// What the laws ask of what the search reads.
    ghost valid: { Self → Type 0 };

    /// Expands an element: its links are read, and taken where they are there.
    fn expand(&self, node: ElementNo, trail: &mut Trail<B>) -> Result<(), NoMemory>
        requires valid { valid self.now }
        requires there { IsMember (all self.now) node }
        ensures { OnOk result (Expands (links self.now) (leads self.now) (world self.now)
            same_element [] node trail.old trail.new) };

    /// Links go on at these elements alone.
    ghost closed: { (w : Self) → valid w
        → StaysAmong (links w) (leads w) (world w) (all w) };

    /// Reading links is regular.
    ghost regular_links: { (w : Self) (a : ElementNo) → IsRegular (links w a) };

    /// Following a link is regular.
    ghost regular_leads: { (w : Self) (l : Link) → IsRegular (leads w l) };
}
