ghost use Rattle.std.specs.Prelude.{◌≡◌, [], ◌<◌, length, IfOk};
ghost use Rattle.linker_base.specs.Members.{IsMember};
ghost use Rattle.demand_core.specs.Computation.{joined};
ghost use Rattle.demand_core.specs.Gather.{gather};
ghost use Rattle.demand_core.specs.Search.{IsAsked};
ghost use Rattle.element_store.specs.declared.numbers.ElementNo.{ElementNo};
ghost use Rattle.link_model.specs.Keys.{same_element};
ghost use Rattle.link_model.specs.Readers.{most};

use crate::links::Links;
use crate::trail::Trail;
use element_store::ElementNo;
use linker_base::NoMemory;
use std::alloc::Global;

/// What the searches from these elements find, wait on and look at, all in one: each element that is
/// reached is expanded once.
pub fn walk<B: Drop, W: Links<B>>(
    alloc: Global,
    ways: &W,
    starts: &[ElementNo],
) -> Result<Trail<B>, NoMemory>
    requires valid { W.valid ways.now }
    requires few { length (W.all ways.now) < most }
    requires there { (a : ElementNo) → IsMember starts.now a → IsMember (W.all ways.now) a }
    ensures { IfOk result (λ trail. IsAsked trail (joined
        (gather same_element (W.links ways.now) (W.leads ways.now) most [])
        starts.now (W.world ways.now))) }
{
    let mut trail = Trail::begin(alloc, starts)?;
    let mut next = 0;
    while next < trail.nodes.as_slice().len() {
        let node = trail.nodes.as_slice()[next];
        ways.expand(node, &mut trail)?;
        next += 1;
    }
    Ok(trail)
}

/// What the search from one element finds, waits on and looks at.
pub fn walk_from<B: Drop, W: Links<B>>(
    alloc: Global,
    ways: &W,
    start: ElementNo,
) -> Result<Trail<B>, NoMemory>
    requires valid { W.valid ways.now }
    requires few { length (W.all ways.now) < most }
    requires there { IsMember (W.all ways.now) start }
    ensures { IfOk result (λ trail. IsAsked trail
        (gather same_element (W.links ways.now) (W.leads ways.now) most []
        start (W.world ways.now))) }
{
    walk(alloc, ways, [start].as_slice())
}
