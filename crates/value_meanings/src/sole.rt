ghost use Rattle.std.specs.Prelude.{◌≡◌, ◌||◌, ◌&&◌, not, [], IfOk, OnOk};
ghost use Rattle.linker_base.specs.Members.{IsMember};
ghost use Rattle.element_store.specs.BaseRules.{StandsIn};
ghost use Rattle.element_store.specs.Numbers.{those_where};
ghost use Rattle.element_store.specs.declared.numbers.ElementNo.{ElementNo as Number};
ghost use Rattle.link_model.specs.Keys.{is_in, same_element};
ghost use Rattle.link_model.specs.Outside.{library_of};
ghost use Rattle.link_model.specs.Settled.{settled_redefined as redefined_by};
ghost use Rattle.link_walk.specs.Calls.{files_of, read_by, HasLinks};
ghost use Rattle.value_model.specs.Meant.{is_redefined_among, only, sole_of};

use element_store::ElementNo;
use feature_facts::{ElementSet, is_same};
use inheritance::settled_redefined;
use link_model::View;
use linker_base::NoMemory;
use std::alloc::Global;

/// Adds an element, unless it is this one.
fn add_other(set: &mut ElementSet, than: ElementNo, e: ElementNo) -> Result<(), NoMemory>
    ensures { OnOk result ((g : Number) → is_in g set.new
        ≡ (is_in g set.old || (not (same_element than g) && same_element g e))) }
{
    if !is_same(than, e) {
        set.add(e)?;
    }
    Ok(())
}

/// Adds the elements other than this one.
fn add_others(set: &mut ElementSet, than: ElementNo, elements: &[ElementNo]) -> Result<(), NoMemory>
    ensures { OnOk result ((g : Number) → is_in g set.new
        ≡ (is_in g set.old || (not (same_element than g) && is_in g elements.now))) }
{
    for e in elements {
        add_other(set, than, *e)?;
    }
    Ok(())
}

/// Adds what a feature redefines, directly or on the way, itself left out.
fn add_redefined(
    alloc: Global,
    view: &View,
    by: ElementNo,
    set: &mut ElementSet,
) -> Result<(), NoMemory>
    requires stands { StandsIn (files_of view.now) by }
    requires links { HasLinks view.now }
    ensures { OnOk result ((g : Number) → is_in g set.new ≡ (is_in g set.old
        || (not (same_element by g) && is_in g (redefined_by by (read_by view.now))))) }
{
    let redefined = settled_redefined(alloc, view, by)?;
    add_others(set, by, redefined.as_slice())?;
    Ok(())
}

/// What others among these features redefine.
fn redefined_among(
    alloc: Global,
    view: &View,
    features: &[ElementNo],
) -> Result<ElementSet, NoMemory>
    requires stand { (e : Number) → IsMember features.now e → StandsIn (files_of view.now) e }
    requires links { HasLinks view.now }
    ensures { IfOk result (λ set. (g : Number) → is_in g set
        ≡ is_redefined_among (read_by view.now) features.now g) }
{
    let mut set = ElementSet::new(alloc);
    for by in features {
        add_redefined(alloc, view, *by, &mut set)?;
    }
    Ok(set)
}

/// The only one of these features that isn't in the set. None comes where there are none or several.
fn only_left(set: &ElementSet, features: &[ElementNo]) -> Option<ElementNo>
    ensures { result ≡ only (those_where (λ g. not (is_in g set.now)) features.now) }
{
    let mut found = None;
    for feature in features {
        if !set.has(*feature) {
            if found.is_some() {
                return None;
            }
            found = Some(*feature);
        }
    }
    found
}

/// The feature meant of those that stand for this one: the only one that no other redefines, or this
/// one where there are none. None comes where there are several.
pub(crate) fn sole(
    alloc: Global,
    view: &View,
    feature: ElementNo,
    candidates: &[ElementNo],
) -> Result<Option<ElementNo>, NoMemory>
    requires stand { (e : Number) → IsMember candidates.now e → StandsIn (files_of view.now) e }
    requires links { HasLinks view.now }
    ensures { IfOk result (λ one. one ≡
        sole_of (read_by view.now) (library_of (files_of view.now)) feature candidates.now) }
{
    if candidates.is_empty() {
        return Ok(Some(feature));
    }
    let set = redefined_among(alloc, view, candidates)?;
    let one = only_left(&set, candidates);
    Ok(one)
}
