ghost use Rattle.std.specs.Prelude.{true, false, IfOk, OnOk};
ghost use Rattle.demand_core.specs.Search.{IsAsked};
ghost use Rattle.element_store.specs.BaseRules.{StandsIn};
ghost use Rattle.link_model.specs.Inheritance as inheritance;
ghost use Rattle.link_model.specs.Outside.{library_of};
ghost use Rattle.link_walk.specs.Calls.{files_of, read_by, HasLinks, Answers, AddsLooks};
ghost use Rattle.link_walk.specs.Gained.{Gained};
ghost use Rattle.feature_facts.specs.Known.{files_for, library_for, world_of};

use crate::conditions::take_after;
use element_store::{ElementNo, Name};
use feature_facts::{Heir, types};
use link_model::{Hit, LinkLooks, View};
use link_walk::{Found, Gains, Hits, answer};
use linker_base::NoMemory;
use std::alloc::Global;

/// Takes what a type inherits.
fn take_inherited(heir: &Heir, name: &Name, gains: &mut Gains<Hit>) -> Result<(), NoMemory>
    requires stands { StandsIn (files_for heir.now) heir.now.of }
    requires links { HasLinks heir.now.view.now }
    ensures { OnOk result (Gained
        (inheritance.inherited (library_for heir.now) heir.now.raw name.now heir.now.of
        (world_of heir.now)) gains.old gains.new) }
{
    let _ = heir.view.models.files();
    let all = types(heir.alloc, heir.view, heir.of)?;
    gains.notes.append(&all.notes)?;
    let waiting = all.notes.is_waiting();
    if waiting {
        return Ok(());
    }
    take_after(heir, name, all.found.as_slice(), gains)?;
    Ok(())
}

/// What a type inherits under a name, with what is waited on and looked at. With `raw` the features
/// that the type owns are taken to redefine nothing.
pub fn inherited_hits(
    alloc: Global,
    view: &View,
    of: ElementNo,
    name: &Name,
    raw: bool,
) -> Result<Gains<Hit>, NoMemory>
    requires stands { StandsIn (files_of view.now) of }
    requires links { HasLinks view.now }
    ensures { IfOk result (λ gains. IsAsked gains
        (inheritance.inherited (library_of (files_of view.now)) raw name.now of
        (read_by view.now))) }
{
    let heir = Heir {
        alloc,
        view,
        of,
        raw,
    };
    let mut gains = Gains::new(alloc);
    take_inherited(&heir, name, &mut gains)?;
    Ok(gains)
}

/// What a type inherits under a name: the members of the types that it reaches by generals, without
/// those that are private, and without those that are redefined by another feature of a reached type,
/// or by a feature on each way to their owner (KerML 8.3.3.1.10, Type::inheritedMemberships). Open
/// references are waited on. At what the asking looked is added to `looks`.
pub fn inherited(
    alloc: Global,
    view: &View,
    of: ElementNo,
    name: &Name,
    looks: &mut LinkLooks,
) -> Result<Found<Hits>, NoMemory>
    requires stands { StandsIn (files_of view.now) of }
    requires links { HasLinks view.now }
    ensures found { IfOk result (λ found. Answers found
        (inheritance.inherited (library_of (files_of view.now)) false name.now of
        (read_by view.now)).step) }
    ensures looks { OnOk result (AddsLooks looks.old looks.new
        (inheritance.inherited (library_of (files_of view.now)) false name.now of
        (read_by view.now))) }
{
    let gains = inherited_hits(alloc, view, of, name, false)?;
    let found = answer(alloc, gains, looks)?;
    Ok(found)
}

/// What a type inherits under a name as if the features that it owns redefined nothing. The features
/// that a redefinition may redefine are found so.
pub fn inherited_raw(
    alloc: Global,
    view: &View,
    of: ElementNo,
    name: &Name,
    looks: &mut LinkLooks,
) -> Result<Found<Hits>, NoMemory>
    requires stands { StandsIn (files_of view.now) of }
    requires links { HasLinks view.now }
    ensures found { IfOk result (λ found. Answers found
        (inheritance.inherited (library_of (files_of view.now)) true name.now of
        (read_by view.now)).step) }
    ensures looks { OnOk result (AddsLooks looks.old looks.new
        (inheritance.inherited (library_of (files_of view.now)) true name.now of
        (read_by view.now))) }
{
    let gains = inherited_hits(alloc, view, of, name, true)?;
    let found = answer(alloc, gains, looks)?;
    Ok(found)
}
