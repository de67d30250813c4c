ghost use Rattle.std.specs.Prelude.{◌≡◌, ◌<◌, ◌++◌, Some, IfOk, OnOk, length};
ghost use Rattle.demand_core.specs.Computation.{joined};
ghost use Rattle.demand_core.specs.Search.{IsAsked};
ghost use Rattle.element_store.specs.BaseRules.{StandsIn, model_of};
ghost use Rattle.element_store.specs.Model.{is_name};
ghost use Rattle.element_store.specs.Readings.{redefining_of};
ghost use Rattle.element_store.specs.declared.records.Target.TheVariants.{Owned};
ghost use Rattle.link_model.specs.Names as names;
ghost use Rattle.link_model.specs.Readers.{is_nil, is_named, only_if};
ghost use Rattle.link_walk.specs.Calls.{read_by, HasLinks, Answers, AddsLooks};
ghost use Rattle.link_walk.specs.Gained.{Gained};
ghost use Rattle.owned_names.specs.Walked.{own_names, effective_part};

use crate::naming::{Naming, naming_of};
use element_store::{ElementNo, FileModel, Member, MemberNo, Name, Target};
use link_model::{Hit, LinkKey, LinkLooks, View};
use link_walk::{Found, Gains, Hits, answer, model};
use linker_base::NoMemory;
use std::alloc::Global;

/// Whether the name is this one, if there is one.
fn is_name(name: &Name, own: &Option<Name>) -> bool
    ensures { result ≡ is_name name.now own.now }
{
    match own {
        None => false,
        Some(own) => name.bytes() == own.bytes(),
    }
}

/// Whether an element has the name as a declared name.
pub fn is_named(view: &View, name: &Name, element: ElementNo) -> bool
    requires { StandsIn view.now.models.now element }
    ensures { result ≡ is_named name.now (own_names view.now.models.now element) }
{
    match view.models.model(element.file) {
        None => false,
        Some(model) => {
            let named = model.element(element.index);
            is_name(name, &named.short) || is_name(name, &named.name)
        }
    }
}

/// Whether a member bears no declared name.
fn is_nameless(member: &Member) -> bool
    ensures { result ≡ is_nil (names.declared_names member.now.short member.now.name) }
{
    member.short.is_none() && member.name.is_none()
}

/// Takes a hit, where the test says so.
fn take_if(test: bool, hit: Hit, gains: &mut Gains<Hit>) -> Result<(), NoMemory>
    ensures { OnOk result (gains.new ≡ record gains.old {
      found = gains.old.found ++ only_if test hit;
    }) }
{
    if test {
        gains.found.push(hit)?;
    }
    Ok(())
}

/// Takes the hit of a member, if the element that it owns has the name by the way that gives it one.
fn take_named(
    alloc: Global,
    view: &View,
    member: MemberNo,
    owned: u32,
    name: &Name,
    gains: &mut Gains<Hit>,
) -> Result<(), NoMemory>
    requires stands { StandsIn view.now.models.now (record { file = member.file; index = owned }) }
    requires links { HasLinks view.now }
    ensures { OnOk result (Gained
        (names.hit_named name.now member.file member.index (Owned owned)
        (read_by view.now)) gains.old gains.new) }
{
    let element = ElementNo {
        file: member.file,
        index: owned,
    };
    match naming_of(alloc, view, element, &mut gains.notes)? {
        Naming::Open(reference) => {
            gains.notes.wait_on(LinkKey(reference))?;
            Ok(())
        }
        Naming::Nameless => Ok(()),
        Naming::By(other) => {
            let named = is_named(view, name, other);
            take_if(named, Hit { member, element }, gains)?;
            Ok(())
        }
    }
}

/// Takes the hit of a member that bears no declared name, if the element that it owns has the name all
/// the same.
pub fn take_effective(
    alloc: Global,
    view: &View,
    model: &FileModel,
    member: MemberNo,
    name: &Name,
    gains: &mut Gains<Hit>,
) -> Result<(), NoMemory>
    requires there { model_of view.now.models.now member.file.0 ≡ Some model.now }
    requires stands { member.index < length model.now.members }
    requires links { HasLinks view.now }
    ensures { OnOk result (Gained
        (effective_part model.now member.file name.now member.index
        (read_by view.now)) gains.old gains.new) }
{
    let own = model.member(member.index);
    let nameless = is_nameless(own);
    if !nameless {
        return Ok(());
    }
    match own.target {
        Target::Owned(owned) => {
            take_named(alloc, view, member, owned, name, gains)?;
            Ok(())
        }
        Target::Alias(_) => Ok(()),
    }
}

/// Takes the hits of those members of a namespace whose feature has a redefinition. No other member
/// without a declared name has a name.
fn take_redefining(
    alloc: Global,
    view: &View,
    model: &FileModel,
    at: ElementNo,
    name: &Name,
    gains: &mut Gains<Hit>,
) -> Result<(), NoMemory>
    requires there { model_of view.now.models.now at.file.0 ≡ Some model.now }
    requires links { HasLinks view.now }
    ensures { OnOk result (Gained
        (joined (effective_part model.now at.file name.now) (redefining_of model.now at.index)
        (read_by view.now)) gains.old gains.new) }
{
    let members = model.redefining(at.index);
    for index in members {
        let member = MemberNo {
            file: at.file,
            index: *index,
        };
        take_effective(alloc, view, model, member, name, gains)?;
    }
    Ok(())
}

/// Takes the hits of those owned members of a namespace whose element has no declared name and has this
/// one all the same.
fn take_all(
    alloc: Global,
    view: &View,
    at: ElementNo,
    name: &Name,
    gains: &mut Gains<Hit>,
) -> Result<(), NoMemory>
    requires stands { StandsIn view.now.models.now at }
    requires links { HasLinks view.now }
    ensures { OnOk result (Gained
        (names.effective name.now at (read_by view.now))
        gains.old gains.new) }
{
    let model = model(view, at.file, &mut gains.notes)?;
    take_redefining(alloc, view, model, at, name, gains)?;
    Ok(())
}

/// The hits of those owned members of a namespace whose element has no declared name and has this one
/// by what its first redefinition leads to, with what is waited on and looked at.
pub fn effective_hits(
    alloc: Global,
    view: &View,
    at: ElementNo,
    name: &Name,
) -> Result<Gains<Hit>, NoMemory>
    requires stands { StandsIn view.now.models.now at }
    requires links { HasLinks view.now }
    ensures { IfOk result (λ gains. IsAsked gains
        (names.effective name.now at (read_by view.now))) }
{
    let mut gains = Gains::new(alloc);
    take_all(alloc, view, at, name, &mut gains)?;
    Ok(gains)
}

/// The second tier of a namespace: the hits of its owned members whose element has no declared name and
/// has this one by what its first redefinition leads to.
pub fn effective(
    alloc: Global,
    view: &View,
    at: ElementNo,
    name: &Name,
    looks: &mut LinkLooks,
) -> Result<Found<Hits>, NoMemory>
    requires stands { StandsIn view.now.models.now at }
    requires links { HasLinks view.now }
    ensures found { IfOk result (λ found. Answers found
        (names.effective name.now at (read_by view.now)).step) }
    ensures looks { OnOk result (AddsLooks looks.old looks.new
        (names.effective name.now at (read_by view.now))) }
{
    let gains = effective_hits(alloc, view, at, name)?;
    let found = answer(alloc, gains, looks)?;
    Ok(found)
}
