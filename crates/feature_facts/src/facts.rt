ghost use Rattle.std.specs.Prelude.{◌≡◌, ◌<◌, ◌++◌, ◌∷◌, ◌&&◌, map, length, IfOk, OnOk};
ghost use Rattle.linker_base.specs.Members.{IsMember};
ghost use Rattle.demand_core.specs.Computation.{joined};
ghost use Rattle.demand_core.specs.Search.{IsAsked};
ghost use Rattle.element_store.specs.BaseRules.{StandsIn};
ghost use Rattle.element_store.specs.declared.numbers.ElementNo.{ElementNo as Number};
ghost use Rattle.link_model.specs.Inheritance.{all_redefined};
ghost use Rattle.link_model.specs.Keys.{same_element};
ghost use Rattle.link_model.specs.Outside as outside;
ghost use Rattle.link_model.specs.Readers.{LinkWorld};
ghost use Rattle.link_walk.specs.Calls.{files_of, read_by, HasLinks};
ghost use Rattle.link_walk.specs.Gained.{Gained};
ghost use Rattle.feature_facts.specs.Stages.{told_of, own_redefiner, redefiners_of, direct_by, directs_of, features_in};
ghost use Rattle.feature_facts.specs.Known.{StandsBy};
ghost use Rattle.feature_facts.specs.declared.facts.Redefiner.{Redefiner as ByFeature};

use crate::element_set::is_same;
use crate::heir::Heir;
use crate::searches::{redefined_by_all, targets};
use element_store::{ElementNo, Elements, FileModel, Target, Visibility};
use link_walk::{Gains, Notes, model};
use linker_base::{Listing, NoMemory};
use std::alloc::Global;

/// A feature that has a redefinition.
#[derive(Clone, Copy)]
pub struct Redefiner {
    /// The type that owns it.
    pub owner: ElementNo,
    pub feature: ElementNo,
    /// Whether its member is private.
    pub hidden: bool,
}

/// What a feature redefines directly.
#[derive(Clone, Copy)]
pub struct Direct {
    pub by: Redefiner,
    pub redefined: ElementNo,
}

/// What the features of the types redefine: the features that redefine any, what they redefine
/// directly, and the waits and looks of all that they redefine on the way.
#[derive(Drop)]
pub struct Facts {
    pub redefiners: Listing<Redefiner>,
    pub directs: Listing<Direct>,
    pub notes: Notes,
}

/// Whether a member is seen in its namespace alone.
pub fn is_private(visibility: Visibility) -> bool
    ensures { result ≡ outside.is_private visibility }
{
    matches!(visibility, Visibility::Private)
}

/// Whether the features of a type are left out.
fn is_left_out(raw: bool, owner: ElementNo, of: ElementNo) -> bool
    ensures { result ≡ (raw && same_element owner of) }
{
    raw && is_same(owner, of)
}

/// Takes the feature of the member of that number.
fn take_redefiner(
    model: &FileModel,
    owner: ElementNo,
    index: u32,
    gains: &mut Gains<Redefiner>,
) -> Result<(), NoMemory>
    requires stands { index < length model.now.members }
    ensures { OnOk result ((w : LinkWorld) → Gained
        (told_of model.now (own_redefiner owner) index w) gains.old gains.new) }
{
    let member = model.member(index);
    let hidden = is_private(member.visibility);
    match member.target {
        Target::Alias(_) => Ok(()),
        Target::Owned(element) => {
            let feature = ElementNo {
                file: owner.file,
                index: element,
            };
            gains.found.push(Redefiner {
                owner,
                feature,
                hidden,
            })?;
            Ok(())
        }
    }
}

/// Takes the features of a type that have a redefinition.
fn take_redefiners(
    heir: &Heir,
    owner: ElementNo,
    gains: &mut Gains<Redefiner>,
) -> Result<(), NoMemory>
    requires stands { StandsIn (files_of heir.now.view.now) owner }
    ensures { OnOk result (Gained
        (redefiners_of heir.now.raw heir.now.of owner (read_by heir.now.view.now))
        gains.old gains.new) }
{
    let left_out = is_left_out(heir.raw, owner, heir.of);
    if left_out {
        return Ok(());
    }
    let model = model(heir.view, owner.file, &mut gains.notes)?;
    let members = model.redefining(owner.index);
    for index in members {
        take_redefiner(model, owner, *index, gains)?;
    }
    Ok(())
}

/// The features of these types that have a redefinition.
pub fn redefiners(heir: &Heir, types: &[ElementNo]) -> Result<Gains<Redefiner>, NoMemory>
    requires own { StandsIn (files_of heir.now.view.now) heir.now.of }
    requires stand { (e : Number) → IsMember types.now e
        → StandsIn (files_of heir.now.view.now) e }
    ensures { IfOk result (λ gains. IsAsked gains
        (joined (redefiners_of heir.now.raw heir.now.of) (heir.now.of ∷ types.now)
        (read_by heir.now.view.now))) }
{
    let mut gains = Gains::new(heir.alloc);
    take_redefiners(heir, heir.of, &mut gains)?;
    for owner in types {
        take_redefiners(heir, *owner, &mut gains)?;
    }
    Ok(gains)
}

/// Adds each target as redefined by this feature.
fn push_directs(
    by: Redefiner,
    redefined: &[ElementNo],
    found: &mut Listing<Direct>,
) -> Result<(), NoMemory>
    ensures { OnOk result (found.new ≡ found.old ++ map (direct_by by) redefined.now) }
{
    for target in redefined {
        found.push(Direct {
            by,
            redefined: *target,
        })?;
    }
    Ok(())
}

/// Takes what a feature redefines directly.
fn take_directs(heir: &Heir, by: Redefiner, gains: &mut Gains<Direct>) -> Result<(), NoMemory>
    requires stands { StandsIn (files_of heir.now.view.now) by.feature }
    requires links { HasLinks heir.now.view.now }
    ensures { OnOk result (Gained (directs_of by (read_by heir.now.view.now))
        gains.old gains.new) }
{
    let direct = targets(heir.alloc, heir.view, by.feature)?;
    push_directs(by, direct.found.as_slice(), &mut gains.found)?;
    gains.notes.append(&direct.notes)?;
    Ok(())
}

/// What these features redefine directly.
pub fn directs(heir: &Heir, redefiners: &[Redefiner]) -> Result<Gains<Direct>, NoMemory>
    requires stand { (r : ByFeature) → IsMember redefiners.now r
        → StandsBy (files_of heir.now.view.now) r }
    requires links { HasLinks heir.now.view.now }
    ensures { IfOk result (λ gains. IsAsked gains
        (joined directs_of redefiners.now (read_by heir.now.view.now))) }
{
    let mut gains = Gains::new(heir.alloc);
    for by in redefiners {
        take_directs(heir, *by, &mut gains)?;
    }
    Ok(gains)
}

/// The features themselves.
fn features_of(alloc: Global, redefiners: &[Redefiner]) -> Result<Elements, NoMemory>
    ensures { IfOk result (λ es. es ≡ features_in redefiners.now) }
{
    let mut features = Elements::new(alloc);
    for by in redefiners {
        features.push(by.feature)?;
    }
    Ok(features)
}

/// What these features redefine, directly or on the way, asked by one search.
pub fn ask_all(heir: &Heir, redefiners: &[Redefiner]) -> Result<Gains<ElementNo>, NoMemory>
    requires stand { (r : ByFeature) → IsMember redefiners.now r
        → StandsBy (files_of heir.now.view.now) r }
    requires links { HasLinks heir.now.view.now }
    ensures { IfOk result (λ gains. IsAsked gains
        (joined all_redefined (features_in redefiners.now) (read_by heir.now.view.now))) }
{
    let features = features_of(heir.alloc, redefiners)?;
    let all = redefined_by_all(heir.alloc, heir.view, features.as_slice())?;
    Ok(all)
}
