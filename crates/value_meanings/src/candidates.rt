ghost use Rattle.std.specs.Prelude.{◌≡◌, ◌<◌, ◌++◌, ◌∷◌, [], length, IfOk, OnOk};
ghost use Rattle.std.specs.List.{All, flat_map};
ghost use Rattle.linker_base.specs.Members.{Adds, IsEachOnce, IsMember, SameMembers};
ghost use Rattle.element_store.specs.BaseRules.{StandsIn};
ghost use Rattle.element_store.specs.Numbers.{those_where};
ghost use Rattle.link_model.specs.Outside.{library_of};
ghost use Rattle.link_walk.specs.Calls.{files_of, read_by, HasLinks};
ghost use Rattle.value_model.specs.Meant.{feature_at, standing_for, stands_for};
ghost use Rattle.value_meanings.specs.Standing.{IsHome, standing_at, standing_in};

use crate::homes::{home, own_member, reached_types};
use element_store::{ElementNo, Elements, FileModel, Target};
use inheritance::settled_redefined;
use link_model::View;
use link_walk::{distinct, is_among};
use linker_base::NoMemory;
use std::alloc::Global;
use value_features::is_feature;

/// Whether a feature stands for another one: it is the same, or redefines it directly or on the way.
fn stands_for(
    alloc: Global,
    view: &View,
    feature: ElementNo,
    by: ElementNo,
) -> Result<bool, NoMemory>
    requires stands { StandsIn (files_of view.now) by }
    requires links { HasLinks view.now }
    ensures { IfOk result (λ yes. yes ≡ stands_for (read_by view.now) feature by) }
{
    if by == feature {
        return Ok(true);
    }
    let redefined = settled_redefined(alloc, view, by)?;
    let yes = is_among(feature, redefined.as_slice());
    Ok(yes)
}

/// Adds an element, where it is a feature that stands for this one.
fn add_if_standing(
    alloc: Global,
    view: &View,
    feature: ElementNo,
    by: ElementNo,
    found: &mut Elements,
) -> Result<(), NoMemory>
    requires links { HasLinks view.now }
    ensures { OnOk result (found.new ≡ found.old
        ++ those_where (stands_for (read_by view.now) feature)
        (those_where (feature_at (read_by view.now)) (by ∷ []))) }
{
    if !is_feature(view, by) {
        return Ok(());
    }
    let stands = stands_for(alloc, view, feature, by)?;
    if stands {
        found.push(by)?;
    }
    Ok(())
}

/// Adds the feature of a member, if it stands for this one.
fn add_member(
    alloc: Global,
    view: &View,
    feature: ElementNo,
    of: ElementNo,
    model: &FileModel,
    index: u32,
    found: &mut Elements,
) -> Result<(), NoMemory>
    requires links { HasLinks view.now }
    requires home { IsHome view.now of model.now }
    requires within { index < length model.now.members }
    ensures { OnOk result (found.new ≡ found.old
        ++ standing_at (read_by view.now) feature of.file index) }
{
    match model.member(index).target {
        Target::Alias(_) => Ok(()),
        Target::Owned(element) => {
            let by = ElementNo {
                file: of.file,
                index: element,
            };
            add_if_standing(alloc, view, feature, by, found)
        }
    }
}

/// Adds the features of these members that stand for this one.
fn add_members(
    alloc: Global,
    view: &View,
    feature: ElementNo,
    of: ElementNo,
    model: &FileModel,
    members: &[u32],
    found: &mut Elements,
) -> Result<(), NoMemory>
    requires links { HasLinks view.now }
    requires home { IsHome view.now of model.now }
    requires within { All (λ member. member < length model.now.members) members.now }
    ensures { OnOk result (found.new ≡ found.old
        ++ flat_map (standing_at (read_by view.now) feature of.file) members.now) }
{
    for index in members {
        add_member(alloc, view, feature, of, model, *index, found)?;
    }
    Ok(())
}

/// Adds the features that a type owns which stand for this one. Only the feature itself and those
/// with a redefinition can.
fn add_home(
    alloc: Global,
    view: &View,
    feature: ElementNo,
    of: ElementNo,
    found: &mut Elements,
) -> Result<(), NoMemory>
    requires links { HasLinks view.now }
    ensures { OnOk result (Adds found.old found.new
        (standing_in (read_by view.now) feature of)) }
{
    let _ = view.models.files();
    let Some(model) = home(view, of) else {
        return Ok(());
    };
    if let Some(index) = own_member(model, of, feature) {
        add_member(alloc, view, feature, of, model, index, found)?;
    }
    add_members(
        alloc,
        view,
        feature,
        of,
        model,
        model.redefining(of.index),
        found,
    )
}

/// Adds the features that these types own which stand for this one.
fn add_homes(
    alloc: Global,
    view: &View,
    feature: ElementNo,
    types: &[ElementNo],
    found: &mut Elements,
) -> Result<(), NoMemory>
    requires links { HasLinks view.now }
    ensures { OnOk result (Adds found.old found.new
        (flat_map (standing_in (read_by view.now) feature) types.now)) }
{
    for of in types {
        add_home(alloc, view, feature, *of, found)?;
    }
    Ok(())
}

/// The features that stand for this one in a target, each once.
pub(crate) fn candidates(
    alloc: Global,
    view: &View,
    feature: ElementNo,
    target: ElementNo,
) -> Result<Elements, NoMemory>
    requires links { HasLinks view.now }
    ensures same { IfOk result (λ es. SameMembers es
        (standing_for (read_by view.now) (library_of (files_of view.now)) feature target)) }
    ensures once { IfOk result IsEachOnce }
{
    let _ = view.models.files();
    let mut found = Elements::new(alloc);
    let Some(_) = home(view, target) else {
        return Ok(found);
    };
    let types = reached_types(alloc, view, target)?;
    add_home(alloc, view, feature, target, &mut found)?;
    add_homes(alloc, view, feature, types.as_slice(), &mut found)?;
    let each = distinct(alloc, found.as_slice())?;
    Ok(each)
}
