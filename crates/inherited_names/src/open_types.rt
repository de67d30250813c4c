ghost use Rattle.std.specs.Prelude.{◌≡◌, ◌&&◌, ◌||◌, IfOk, OnOk};
ghost use Rattle.std.specs.List.{list_any};
ghost use Rattle.demand_core.specs.Gather.{follow};
ghost use Rattle.demand_core.specs.Search.{IsAsked};
ghost use Rattle.element_store.specs.BaseRules.{StandsIn};
ghost use Rattle.element_store.specs.declared.numbers.ElementNo.{ElementNo as Number};
ghost use Rattle.link_model.specs.Inheritance.{Link, general};
ghost use Rattle.link_model.specs.Keys.{is_in, same_element};
ghost use Rattle.link_model.specs.Outside.{library_of};
ghost use Rattle.link_walk.specs.Calls.{files_of, read_by, HasLinks, ends, elements_of};
ghost use Rattle.inheritance.specs.GeneralLaws.{general_ends_regular};
ghost use Rattle.inheritance.specs.Sights.{IsClear, sees};
ghost use Rattle.inherited_names.specs.Stages.{open_links, open_reached, is_blocking};
ghost use Rattle.inherited_names.specs.OpenLaws.{open_closed, open_regular};
ghost use Rattle.feature_facts.specs.declared.facts.Direct.{Direct as ByTarget};

use element_store::ElementNo;
use feature_facts::{Direct, ElementSet, Heir};
use inheritance::{Sight, expand_general};
use link_walk::{Gains, Links, Trail, walk_from};
use linker_base::NoMemory;
use std::alloc::Global;

/// The search along generals that doesn't go on at types that block.
#[derive(Clone, Copy)]
struct OpenGenerals<'a> {
    alloc: Global,
    sight: &'a Sight<'a>,
    blocking: &'a ElementSet,
}

impl<'a> Links<ElementNo> for OpenGenerals<'a> {
    ghost Link = { Link };

    ghost world = { λ g. sees g.sight.now };

    ghost links = { λ g.
        open_links (library_of g.sight.now.view.now.models.now) g.blocking.now };

    ghost leads = { λ g. ends general };

    ghost all = { λ g. elements_of g.sight.now.view.now.models.now };

    ghost valid = { λ g. IsClear g.sight.now };

    fn expand(&self, node: ElementNo, trail: &mut Trail<ElementNo>) -> Result<(), NoMemory> {
        let blocks = self.blocking.has(node);
        if blocks {
            return Ok(());
        }
        expand_general(self.alloc, self.sight, node, trail)?;
        Ok(())
    }

    ghost closed = { λ g. open_closed g.sight.now g.blocking.now };

    ghost regular_links = { λ g.
        open_regular (library_of g.sight.now.view.now.models.now) g.blocking.now };

    ghost regular_leads = { λ g. general_ends_regular };
}

/// Adds the owner, where the test says so.
fn add_owner(test: bool, owner: ElementNo, set: &mut ElementSet) -> Result<(), NoMemory>
    ensures { OnOk result ((u : Number) → is_in u set.new ≡
        ((test && same_element owner u) || is_in u set.old)) }
{
    if test {
        set.add(owner)?;
    }
    Ok(())
}

/// The types that own a feature one of whose redefinitions leads to one of these.
pub(crate) fn blocking(
    alloc: Global,
    directs: &[Direct],
    removed: &ElementSet,
) -> Result<ElementSet, NoMemory>
    ensures { IfOk result (λ set. (u : Number) → is_in u set ≡
        list_any (is_blocking removed.now u) directs.now) }
{
    let mut set = ElementSet::new(alloc);
    for direct in directs {
        add_owner(removed.has(direct.redefined), direct.by.owner, &mut set)?;
    }
    Ok(set)
}

/// The types that are reached by chains of types that don't block.
pub(crate) fn open_types(heir: &Heir, blocking: &ElementSet) -> Result<Gains<ElementNo>, NoMemory>
    requires stands { StandsIn (files_of heir.now.view.now) heir.now.of }
    requires links { HasLinks heir.now.view.now }
    ensures { IfOk result (λ gains. IsAsked gains
        (open_reached (library_of (files_of heir.now.view.now)) blocking.now heir.now.of
        (read_by heir.now.view.now))) }
{
    let sight = Sight::new(heir.view, false);
    let ways = OpenGenerals {
        alloc: heir.alloc,
        sight: &sight,
        blocking,
    };
    let trail = walk_from(heir.alloc, &ways, heir.of)?;
    let gains = trail.gains(heir.alloc)?;
    Ok(gains)
}
