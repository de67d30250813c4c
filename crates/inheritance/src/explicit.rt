ghost use Rattle.std.specs.Prelude.{◌≡◌, IfOk, OnOk};
ghost use Rattle.demand_core.specs.Search.{IsAsked};
ghost use Rattle.element_store.specs.BaseRules.{StandsIn};
ghost use Rattle.link_model.specs.Inheritance.{Link, general};
ghost use Rattle.link_model.specs.Settled.{explicit_links};
ghost use Rattle.link_walk.specs.Calls.{ends, elements_of};
ghost use Rattle.link_walk.specs.Took.{expanded};
ghost use Rattle.inheritance.specs.Sights.{IsClear, sees, explicit_reached};
ghost use Rattle.inheritance.specs.GeneralLaws.{explicit_closed, explicit_regular, general_ends_regular};

use crate::general_types::take_generals;
use crate::sight::Sight;
use element_store::ElementNo;
use link_walk::{Links, Trail, Wanted, model, references_of, walk_from};
use linker_base::NoMemory;
use std::alloc::Global;

/// The search along explicit generals, without bases.
#[derive(Clone, Copy)]
struct Explicit<'a> {
    alloc: Global,
    sight: &'a Sight<'a>,
}

impl<'a> Links<ElementNo> for Explicit<'a> {
    ghost Link = { Link };

    ghost world = { λ g. sees g.sight.now };

    ghost links = { λ g. explicit_links };

    ghost leads = { λ g. ends general };

    ghost all = { λ g. elements_of g.sight.now.view.now.models.now };

    ghost valid = { λ g. IsClear g.sight.now };

    fn expand(&self, node: ElementNo, trail: &mut Trail<ElementNo>) -> Result<(), NoMemory> {
        expand_explicit(self.alloc, self.sight, node, trail)?;
        Ok(())
    }

    ghost closed = { λ g. explicit_closed g.sight.now };

    ghost regular_links = { λ g. explicit_regular };

    ghost regular_leads = { λ g. general_ends_regular };
}

/// Expands a type: its specialisations are read and taken.
fn expand_explicit(
    alloc: Global,
    sight: &Sight,
    node: ElementNo,
    trail: &mut Trail<ElementNo>,
) -> Result<(), NoMemory>
    requires clear { IsClear sight.now }
    requires stands { StandsIn sight.now.view.now.models.now node }
    ensures { OnOk result (trail.new ≡
        expanded (ends general) (sees sight.now) explicit_links node trail.old) }
{
    let of = model(sight.view, node.file, &mut trail.notes)?;
    let references = references_of(alloc, of, node, Wanted::Specialisations)?;
    take_generals(sight, references.as_slice(), trail)?;
    Ok(())
}

/// The types that are reached by explicit generals.
pub(crate) fn explicit_from(
    alloc: Global,
    sight: &Sight,
    of: ElementNo,
) -> Result<Trail<ElementNo>, NoMemory>
    requires clear { IsClear sight.now }
    requires stands { StandsIn sight.now.view.now.models.now of }
    ensures { IfOk result (λ trail. IsAsked trail (explicit_reached of (sees sight.now))) }
{
    walk_from(alloc, &Explicit { alloc, sight }, of)
}
