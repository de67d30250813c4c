ghost use Rattle.std.specs.Prelude.{◌≡◌, IfOk, OnOk};
ghost use Rattle.linker_base.specs.Members.{IsMember};
ghost use Rattle.demand_core.specs.Computation.{joined};
ghost use Rattle.demand_core.specs.Search.{IsAsked};
ghost use Rattle.element_store.specs.BaseRules.{StandsIn};
ghost use Rattle.element_store.specs.declared.numbers.ElementNo.{ElementNo};
ghost use Rattle.link_model.specs.declared.keys.LinkKey.{LinkKey};
ghost use Rattle.link_model.specs.Inheritance.{all_redefined};
ghost use Rattle.link_model.specs.Names.{redefinitions};
ghost use Rattle.link_model.specs.Readers.{target};
ghost use Rattle.link_walk.specs.Calls.{ReferenceStands, ends, elements_of};
ghost use Rattle.link_walk.specs.Took.{took, took_all, expanded};
ghost use Rattle.inheritance.specs.Sights.{IsClear, sees, direct_targets};
ghost use Rattle.inheritance.specs.RedefinedLaws.{redefined_closed, redefinitions_regular, target_ends_regular};

use crate::sight::Sight;
use element_store::ElementNo;
use link_model::LinkKey;
use link_walk::{Links, Trail, Wanted, model, references_of, walk, walk_from};
use linker_base::NoMemory;
use std::alloc::Global;

/// The search along redefinitions.
#[derive(Clone, Copy)]
pub(crate) struct Redefinitions<'a> {
    pub(crate) alloc: Global,
    pub(crate) sight: &'a Sight<'a>,
}

impl<'a> Links<ElementNo> for Redefinitions<'a> {
    ghost Link = { LinkKey };

    ghost world = { λ g. sees g.sight.now };

    ghost links = { λ g. redefinitions };

    ghost leads = { λ g. ends target };

    ghost all = { λ g. elements_of g.sight.now.view.now.models.now };

    ghost valid = { λ g. IsClear g.sight.now };

    fn expand(&self, node: ElementNo, trail: &mut Trail<ElementNo>) -> Result<(), NoMemory> {
        expand_redefined(self.alloc, self.sight, node, trail)?;
        Ok(())
    }

    ghost closed = { λ g. redefined_closed g.sight.now };

    ghost regular_links = { λ g. redefinitions_regular };

    ghost regular_leads = { λ g. target_ends_regular };
}

/// Expands a feature: its redefinitions are read and taken. What is no feature has none.
fn expand_redefined(
    alloc: Global,
    sight: &Sight,
    node: ElementNo,
    trail: &mut Trail<ElementNo>,
) -> Result<(), NoMemory>
    requires clear { IsClear sight.now }
    requires stands { StandsIn sight.now.view.now.models.now node }
    ensures { OnOk result (trail.new ≡
        expanded (ends target) (sees sight.now) redefinitions node trail.old) }
{
    let of = model(sight.view, node.file, &mut trail.notes)?;
    let is_feature = of.element(node.index).kind.is_feature();
    if !is_feature {
        return Ok(());
    }
    let references = references_of(alloc, of, node, Wanted::Redefinitions)?;
    take_redefinitions(sight, references.as_slice(), trail)?;
    Ok(())
}

/// Takes redefinitions: their targets are found.
fn take_redefinitions(
    sight: &Sight,
    references: &[LinkKey],
    trail: &mut Trail<ElementNo>,
) -> Result<(), NoMemory>
    requires stand { (k : LinkKey) → IsMember references.now k
        → ReferenceStands sight.now.view.now.models.now k.0 }
    ensures { OnOk result (trail.new ≡
        took_all (ends target) (sees sight.now) references.now trail.old) }
{
    for reference in references {
        take_redefinition(sight, *reference, trail)?;
    }
    Ok(())
}

/// Takes a redefinition: its target is found.
fn take_redefinition(
    sight: &Sight,
    reference: LinkKey,
    trail: &mut Trail<ElementNo>,
) -> Result<(), NoMemory>
    requires stands { ReferenceStands sight.now.view.now.models.now reference.0 }
    ensures { OnOk result (trail.new ≡ took (ends target reference (sees sight.now)) trail.old) }
{
    match sight.target(reference, &mut trail.notes)? {
        None => Ok(()),
        Some(e) => {
            trail.find(e)?;
            Ok(())
        }
    }
}

/// What a feature redefines directly.
pub fn redefined_directly(
    alloc: Global,
    sight: &Sight,
    of: ElementNo,
) -> Result<Trail<ElementNo>, NoMemory>
    requires clear { IsClear sight.now }
    requires stands { StandsIn sight.now.view.now.models.now of }
    ensures { IfOk result (λ trail. IsAsked trail (direct_targets of (sees sight.now))) }
{
    let mut trail = Trail::new(alloc);
    expand_redefined(alloc, sight, of, &mut trail)?;
    Ok(trail)
}

/// The features that one of these redefines, directly or on the way. Each feature is expanded once.
pub fn redefined_from_all(
    alloc: Global,
    sight: &Sight,
    starts: &[ElementNo],
) -> Result<Trail<ElementNo>, NoMemory>
    requires clear { IsClear sight.now }
    requires stand { (e : ElementNo) → IsMember starts.now e
        → StandsIn sight.now.view.now.models.now e }
    ensures { IfOk result (λ trail. IsAsked trail
        (joined all_redefined starts.now (sees sight.now))) }
{
    walk(alloc, &Redefinitions { alloc, sight }, starts)
}

/// The features that are redefined on the way.
pub fn redefined_from(
    alloc: Global,
    sight: &Sight,
    of: ElementNo,
) -> Result<Trail<ElementNo>, NoMemory>
    requires clear { IsClear sight.now }
    requires stands { StandsIn sight.now.view.now.models.now of }
    ensures { IfOk result (λ trail. IsAsked trail (all_redefined of (sees sight.now))) }
{
    walk_from(alloc, &Redefinitions { alloc, sight }, of)
}
