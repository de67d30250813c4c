ghost use Rattle.std.specs.Prelude.{◌≡◌, ◌<◌, Some, length, IfOk, OnOk};
ghost use Rattle.demand_core.specs.Computation.{joined};
ghost use Rattle.demand_core.specs.Search.{IsAsked};
ghost use Rattle.element_store.specs.BaseRules.{StandsIn, model_of};
ghost use Rattle.element_store.specs.Model.{bearers};
ghost use Rattle.element_store.specs.Readings.{redefining_of};
ghost use Rattle.link_walk.specs.Calls.{files_of, read_by, HasLinks};
ghost use Rattle.link_walk.specs.Gained.{Gained};
ghost use Rattle.feature_facts.specs.Stages.{told_of};
ghost use Rattle.member_candidates.specs.Stages.{open_hit, open_effective, open_members};

use element_store::{ElementNo, FileModel, MemberNo, Name};
use feature_facts::is_private;
use link_model::{Hit, View};
use link_walk::{Gains, model};
use linker_base::NoMemory;
use owned_names::{take_effective, take_hit};
use std::alloc::Global;

/// Takes the hit of a member, if it isn't private. A private one isn't read.
fn take_open_hit(
    view: &View,
    model: &FileModel,
    member: MemberNo,
    gains: &mut Gains<Hit>,
) -> Result<(), NoMemory>
    requires there { model_of (files_of view.now) member.file.0 ≡ Some model.now }
    requires stands { member.index < length model.now.members }
    ensures { OnOk result (Gained
        (told_of model.now (open_hit member.file) member.index (read_by view.now))
        gains.old gains.new) }
{
    let own = model.member(member.index);
    let private = is_private(own.visibility);
    if private {
        return Ok(());
    }
    take_hit(view, member, own.target, gains)?;
    Ok(())
}

/// Takes the hits of the members that bear the name as a declared name and aren't private.
fn take_open_declared(
    view: &View,
    model: &FileModel,
    at: ElementNo,
    name: &Name,
    gains: &mut Gains<Hit>,
) -> Result<(), NoMemory>
    requires there { model_of (files_of view.now) at.file.0 ≡ Some model.now }
    requires stands { at.index < length model.now.elements }
    ensures { OnOk result (Gained
        (joined (told_of model.now (open_hit at.file)) (bearers model.now.members at.index name.now)
        (read_by view.now)) gains.old gains.new) }
{
    let mut after = None;
    while let Some(index) = model.named(at.index, name, after) {
        let member = MemberNo {
            file: at.file,
            index,
        };
        take_open_hit(view, model, member, gains)?;
        after = Some(index);
    }
    Ok(())
}

/// Takes the hit of a member that isn't private and bears no declared name, if the element that it owns
/// has the name all the same.
fn take_open_effective(
    alloc: Global,
    view: &View,
    model: &FileModel,
    member: MemberNo,
    name: &Name,
    gains: &mut Gains<Hit>,
) -> Result<(), NoMemory>
    requires there { model_of (files_of view.now) member.file.0 ≡ Some model.now }
    requires stands { member.index < length model.now.members }
    requires links { HasLinks view.now }
    ensures { OnOk result (Gained
        (told_of model.now (open_effective name.now member.file) member.index (read_by view.now))
        gains.old gains.new) }
{
    let private = is_private(model.member(member.index).visibility);
    if private {
        return Ok(());
    }
    take_effective(alloc, view, model, member, name, gains)?;
    Ok(())
}

/// Takes the hits of the members that aren't private and have the name by a redefinition.
fn take_open_redefining(
    alloc: Global,
    view: &View,
    model: &FileModel,
    at: ElementNo,
    name: &Name,
    gains: &mut Gains<Hit>,
) -> Result<(), NoMemory>
    requires there { model_of (files_of view.now) at.file.0 ≡ Some model.now }
    requires links { HasLinks view.now }
    ensures { OnOk result (Gained
        (joined (told_of model.now (open_effective name.now at.file))
        (redefining_of model.now at.index) (read_by view.now)) gains.old gains.new) }
{
    let members = model.redefining(at.index);
    for index in members {
        let member = MemberNo {
            file: at.file,
            index: *index,
        };
        take_open_effective(alloc, view, model, member, name, gains)?;
    }
    Ok(())
}

/// Takes the hits of the members that aren't private and have the name.
fn take_open_members(
    alloc: Global,
    view: &View,
    at: ElementNo,
    name: &Name,
    gains: &mut Gains<Hit>,
) -> Result<(), NoMemory>
    requires stands { StandsIn (files_of view.now) at }
    requires links { HasLinks view.now }
    ensures { OnOk result (Gained (open_members name.now at (read_by view.now))
        gains.old gains.new) }
{
    let model = model(view, at.file, &mut gains.notes)?;
    take_open_declared(view, model, at, name, gains)?;
    take_open_redefining(alloc, view, model, at, name, gains)?;
    Ok(())
}

/// The hits of the members of a namespace that aren't private and have the name, as a declared name or
/// by what they redefine.
pub fn open_hits(
    alloc: Global,
    view: &View,
    at: ElementNo,
    name: &Name,
) -> Result<Gains<Hit>, NoMemory>
    requires stands { StandsIn (files_of view.now) at }
    requires links { HasLinks view.now }
    ensures { IfOk result (λ gains. IsAsked gains (open_members name.now at (read_by view.now))) }
{
    let mut gains = Gains::new(alloc);
    take_open_members(alloc, view, at, name, &mut gains)?;
    Ok(gains)
}
