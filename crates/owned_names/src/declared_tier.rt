ghost use Rattle.std.specs.Prelude.{IfOk, OnOk};
ghost use Rattle.demand_core.specs.Search.{IsAsked};
ghost use Rattle.element_store.specs.BaseRules.{StandsIn};
ghost use Rattle.link_model.specs.Names as names;
ghost use Rattle.link_walk.specs.Calls.{read_by, Answers, AddsLooks};
ghost use Rattle.link_walk.specs.Gained.{Gained};
ghost use Rattle.owned_names.specs.Hits.{AreReferencesThere, of_target};

use crate::member::leads_to;
use element_store::{ElementNo, MemberNo, Name, Target};
use link_model::{Hit, LinkKey, LinkLooks, View};
use link_walk::{Found, Gains, Hits, Read, answer, model};
use linker_base::NoMemory;
use std::alloc::Global;

/// Takes the hit of a member with that target.
pub fn take_hit(
    view: &View,
    member: MemberNo,
    target: Target,
    gains: &mut Gains<Hit>,
) -> Result<(), NoMemory>
    requires stands { AreReferencesThere view.now.models.now member.file target }
    ensures { OnOk result (Gained
        (of_target member target (read_by view.now))
        gains.old gains.new) }
{
    match leads_to(view, member.file, target, &mut gains.notes)? {
        Read::Open(reference) => {
            gains.notes.wait_on(LinkKey(reference))?;
            Ok(())
        }
        Read::Nowhere => Ok(()),
        Read::At(element) => {
            gains.found.push(Hit { member, element })?;
            Ok(())
        }
    }
}

/// Takes the hits of the members of a namespace that bear the name as a declared name. They are found
/// by the model's table of names.
fn take_declared(
    view: &View,
    at: ElementNo,
    name: &Name,
    gains: &mut Gains<Hit>,
) -> Result<(), NoMemory>
    requires stands { StandsIn view.now.models.now at }
    ensures { OnOk result (Gained
        (names.declared name.now at (read_by view.now))
        gains.old gains.new) }
{
    let model = model(view, at.file, &mut gains.notes)?;
    let mut after = None;
    while let Some(index) = model.named(at.index, name, after) {
        let member = MemberNo {
            file: at.file,
            index,
        };
        take_hit(view, member, model.member(index).target, gains)?;
        after = Some(index);
    }
    Ok(())
}

/// The hits of the members of a namespace that bear the name as a declared name, with what is waited on
/// and looked at.
pub fn declared_hits(
    alloc: Global,
    view: &View,
    at: ElementNo,
    name: &Name,
) -> Result<Gains<Hit>, NoMemory>
    requires stands { StandsIn view.now.models.now at }
    ensures { IfOk result (λ gains. IsAsked gains
        (names.declared name.now at (read_by view.now))) }
{
    let mut gains = Gains::new(alloc);
    take_declared(view, at, name, &mut gains)?;
    Ok(gains)
}

/// The first tier of a namespace: the hits of its members that bear the name as a declared name. An
/// alias whose reference is refused is no hit.
pub fn declared(
    alloc: Global,
    view: &View,
    at: ElementNo,
    name: &Name,
    looks: &mut LinkLooks,
) -> Result<Found<Hits>, NoMemory>
    requires stands { StandsIn view.now.models.now at }
    ensures found { IfOk result (λ found. Answers found
        (names.declared name.now at (read_by view.now)).step) }
    ensures looks { OnOk result (AddsLooks looks.old looks.new
        (names.declared name.now at (read_by view.now))) }
{
    let gains = declared_hits(alloc, view, at, name)?;
    let found = answer(alloc, gains, looks)?;
    Ok(found)
}
