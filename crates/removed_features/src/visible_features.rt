ghost use Rattle.std.specs.Prelude.{◌≡◌, ◌&&◌, ◌++◌, not, map, IfOk, OnOk};
ghost use Rattle.linker_base.specs.Members.{IsMember};
ghost use Rattle.element_store.specs.BaseRules.{StandsIn};
ghost use Rattle.element_store.specs.Numbers.{those_where};
ghost use Rattle.element_store.specs.declared.numbers.ElementNo.{ElementNo as Number};
ghost use Rattle.link_model.specs.Keys.{is_in, same_element};
ghost use Rattle.link_model.specs.Readers.{only_if};
ghost use Rattle.link_walk.specs.Calls.{files_of, HasLinks};
ghost use Rattle.feature_facts.specs.Known.{AreFacts, StandsBy};
ghost use Rattle.removed_features.specs.Known.{Describes, visible_by, is_sure, TellsElsewhere, IsVisible};
ghost use Rattle.feature_facts.specs.declared.facts.Redefiner.{Redefiner as ByFeature};
ghost use Rattle.feature_facts.specs.declared.facts.Direct.{Direct as ByTarget};

use element_store::{ElementNo, Elements};
use feature_facts::{
    Direct, ElementSet, Facts, Heir, Redefiner, is_same, redefined_by_all, set_of,
};
use link_walk::is_among;
use linker_base::NoMemory;
use std::alloc::Global;

/// The features of reached types that aren't private and redefine any feature.
#[derive(Drop)]
pub struct Visible {
    pub features: Elements,
    /// What they redefine, directly or on the way.
    pub reached: ElementSet,
    /// What one of them redefines directly, itself left out.
    pub sure: ElementSet,
}

/// Whether a feature is one of a reached type and isn't private.
fn is_visible(types: &ElementSet, by: Redefiner) -> bool
    ensures { result ≡ visible_by types.now by }
{
    !by.hidden && types.has(by.owner)
}

/// Whether a feature is seen, and redefines another one.
fn is_other(types: &ElementSet, direct: Direct) -> bool
    ensures { result ≡ is_sure types.now direct }
{
    is_visible(types, direct.by) && !is_same(direct.by.feature, direct.redefined)
}

/// Adds an element, where the test says so.
fn push_if(test: bool, e: ElementNo, elements: &mut Elements) -> Result<(), NoMemory>
    ensures { OnOk result (elements.new ≡ elements.old ++ only_if test e) }
{
    if test {
        elements.push(e)?;
    }
    Ok(())
}

/// The features that are seen.
fn seen(alloc: Global, types: &ElementSet, redefiners: &[Redefiner]) -> Result<Elements, NoMemory>
    ensures { IfOk result (λ es. es ≡ map (λ (r : ByFeature). r.feature)
        (those_where (visible_by types.now) redefiners.now)) }
{
    let mut features = Elements::new(alloc);
    for by in redefiners {
        push_if(is_visible(types, *by), by.feature, &mut features)?;
    }
    Ok(features)
}

/// What is redefined directly by another feature that is seen.
fn surely_redefined(
    alloc: Global,
    types: &ElementSet,
    directs: &[Direct],
) -> Result<Elements, NoMemory>
    ensures { IfOk result (λ es. es ≡ map (λ (d : ByTarget). d.redefined)
        (those_where (is_sure types.now) directs.now)) }
{
    let mut redefined = Elements::new(alloc);
    for direct in directs {
        push_if(is_other(types, *direct), direct.redefined, &mut redefined)?;
    }
    Ok(redefined)
}

/// The features of reached types that are seen, and what they redefine.
pub fn see_features(heir: &Heir, types: &[ElementNo], facts: &Facts) -> Result<Visible, NoMemory>
    requires stand { (r : ByFeature) → IsMember facts.now.redefiners r
        → StandsBy (files_of heir.now.view.now) r }
    requires links { HasLinks heir.now.view.now }
    ensures { IfOk result (IsVisible heir.now types.now facts.now) }
{
    let set = set_of(heir.alloc, types)?;
    let features = seen(heir.alloc, &set, facts.redefiners.as_slice())?;
    let all = redefined_by_all(heir.alloc, heir.view, features.as_slice())?;
    let reached = set_of(heir.alloc, all.found.as_slice())?;
    let surely = surely_redefined(heir.alloc, &set, facts.directs.as_slice())?;
    let sure = set_of(heir.alloc, surely.as_slice())?;
    Ok(Visible {
        features,
        reached,
        sure,
    })
}

/// The elements other than this one.
fn others(alloc: Global, elements: &[ElementNo], e: ElementNo) -> Result<Elements, NoMemory>
    ensures { IfOk result (λ es. es ≡ those_where (λ (f : Number). not (same_element f e))
        elements.now) }
{
    let mut rest = Elements::new(alloc);
    for other in elements {
        push_if(!is_same(*other, e), *other, &mut rest)?;
    }
    Ok(rest)
}

/// Whether another feature that is seen redefines the element. A search of its own is needed only where
/// the element redefines itself on the way, or where none that is seen redefines it directly.
pub fn is_elsewhere(heir: &Heir, visible: &Visible, e: ElementNo) -> Result<bool, NoMemory>
    requires stand { (f : Number) → IsMember visible.now.features f
        → StandsIn (files_of heir.now.view.now) f }
    requires links { HasLinks heir.now.view.now }
    ensures { IfOk result (TellsElsewhere heir.now visible.now e) }
{
    let sure = visible.sure.has(e);
    if sure {
        return Ok(true);
    }
    let reached = visible.reached.has(e);
    if !reached {
        return Ok(false);
    }
    let rest = others(heir.alloc, visible.features.as_slice(), e)?;
    let all = redefined_by_all(heir.alloc, heir.view, rest.as_slice())?;
    let found = is_among(e, all.found.as_slice());
    Ok(found)
}
