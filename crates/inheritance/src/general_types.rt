ghost use Rattle.std.specs.Prelude.{◌≡◌, map, IfOk, OnOk};
ghost use Rattle.linker_base.specs.Members.{IsMember};
ghost use Rattle.demand_core.specs.Search.{IsAsked};
ghost use Rattle.element_store.specs.BaseRules.{StandsIn};
ghost use Rattle.element_store.specs.declared.numbers.ElementNo.{ElementNo};
ghost use Rattle.link_model.specs.Inheritance.{Link, general, generals, general_links, base_link, reached as reached_of};
ghost use Rattle.link_model.specs.declared.keys.LinkKey.{LinkKey};
ghost use Rattle.link_model.specs.Inheritance.Link.{ByReference};
ghost use Rattle.link_model.specs.Readers.{LinkWorld};
ghost use Rattle.link_model.specs.Outside.{library_of};
ghost use Rattle.link_walk.specs.Calls.{ReferenceStands, ends, elements_of};
ghost use Rattle.link_walk.specs.Took.{took, took_all, expanded};
ghost use Rattle.inheritance.specs.Sights.{IsClear, sees, found_if};
ghost use Rattle.inheritance.specs.GeneralLaws.{generals_closed, general_links_regular, general_ends_regular};

use crate::sight::Sight;
use element_store::{Bases, ElementNo};
use link_model::LinkKey;
use link_walk::{Links, Trail, Wanted, element, model, references_of, walk_from};
use linker_base::NoMemory;
use std::alloc::Global;

/// The search along generals.
#[derive(Clone, Copy)]
pub(crate) struct Generals<'a> {
    pub(crate) alloc: Global,
    pub(crate) sight: &'a Sight<'a>,
}

impl<'a> Links<ElementNo> for Generals<'a> {
    ghost Link = { Link };

    ghost world = { λ g. sees g.sight.now };

    ghost links = { λ g. general_links (library_of g.sight.now.view.now.models.now) };

    ghost leads = { λ g. ends general };

    ghost all = { λ g. elements_of g.sight.now.view.now.models.now };

    ghost valid = { λ g. IsClear g.sight.now };

    fn expand(&self, node: ElementNo, trail: &mut Trail<ElementNo>) -> Result<(), NoMemory> {
        expand_general(self.alloc, self.sight, node, trail)?;
        Ok(())
    }

    ghost closed = { λ g. generals_closed g.sight.now };

    ghost regular_links = { λ g.
        general_links_regular (library_of g.sight.now.view.now.models.now) };

    ghost regular_leads = { λ g. general_ends_regular };
}

/// Expands a type: its specialisations are read and taken, and its base.
pub fn expand_general(
    alloc: Global,
    sight: &Sight,
    node: ElementNo,
    trail: &mut Trail<ElementNo>,
) -> Result<(), NoMemory>
    requires clear { IsClear sight.now }
    requires stands { StandsIn sight.now.view.now.models.now node }
    ensures { OnOk result (trail.new ≡ expanded (ends general) (sees sight.now)
        (general_links (library_of sight.now.view.now.models.now)) node trail.old) }
{
    let of = model(sight.view, node.file, &mut trail.notes)?;
    let references = references_of(alloc, of, node, Wanted::Specialisations)?;
    take_generals(sight, references.as_slice(), trail)?;
    take_base(Bases::of(sight.view.models, node), node, trail)?;
    Ok(())
}

/// Takes generals by their references.
pub(crate) fn take_generals(
    sight: &Sight,
    references: &[LinkKey],
    trail: &mut Trail<ElementNo>,
) -> Result<(), NoMemory>
    requires clear { IsClear sight.now }
    requires stand { (k : LinkKey) → IsMember references.now k
        → ReferenceStands sight.now.view.now.models.now k.0 }
    ensures { OnOk result (trail.new ≡ took_all (ends general) (sees sight.now)
        (map ByReference references.now) trail.old) }
{
    for reference in references {
        take_general(sight, *reference, trail)?;
    }
    Ok(())
}

/// Takes a general by its reference: it is found if it is a type.
fn take_general(
    sight: &Sight,
    reference: LinkKey,
    trail: &mut Trail<ElementNo>,
) -> Result<(), NoMemory>
    requires clear { IsClear sight.now }
    requires stands { ReferenceStands sight.now.view.now.models.now reference.0 }
    ensures { OnOk result (trail.new ≡
        took (ends general (ByReference reference) (sees sight.now)) trail.old) }
{
    match sight.target(reference, &mut trail.notes)? {
        None => Ok(()),
        Some(e) => {
            let of = element(sight.view, e, &mut trail.notes)?;
            find_if(of.kind.is_type(), e, trail)?;
            Ok(())
        }
    }
}

/// Finds an element, where it is to be.
fn find_if(found: bool, e: ElementNo, trail: &mut Trail<ElementNo>) -> Result<(), NoMemory>
    ensures { OnOk result (trail.new ≡ found_if found e trail.old) }
{
    if found {
        trail.find(e)?;
    }
    Ok(())
}

/// Takes the base of a type, if it has one and that is another element.
fn take_base(
    base: Option<ElementNo>,
    of: ElementNo,
    trail: &mut Trail<ElementNo>,
) -> Result<(), NoMemory>
    ensures { OnOk result ((w : LinkWorld)
        → trail.new ≡ took_all (ends general) w (base_link of base) trail.old) }
{
    match base {
        None => Ok(()),
        Some(b) => {
            if b == of {
                return Ok(());
            }
            trail.notes.look_at(b.file)?;
            trail.find(b)?;
            Ok(())
        }
    }
}

/// The types that are reached by generals.
pub fn reached(alloc: Global, sight: &Sight, of: ElementNo) -> Result<Trail<ElementNo>, NoMemory>
    requires clear { IsClear sight.now }
    requires stands { StandsIn sight.now.view.now.models.now of }
    ensures { IfOk result (λ trail. IsAsked trail
        (reached_of (library_of sight.now.view.now.models.now) of (sees sight.now))) }
{
    walk_from(alloc, &Generals { alloc, sight }, of)
}

/// The generals of a type.
pub(crate) fn generals_of(
    alloc: Global,
    sight: &Sight,
    of: ElementNo,
) -> Result<Trail<ElementNo>, NoMemory>
    requires clear { IsClear sight.now }
    requires stands { StandsIn sight.now.view.now.models.now of }
    ensures { IfOk result (λ trail. IsAsked trail
        (generals (library_of sight.now.view.now.models.now) of (sees sight.now))) }
{
    let mut trail = Trail::new(alloc);
    expand_general(alloc, sight, of, &mut trail)?;
    Ok(trail)
}
