ghost use Rattle.std.specs.Prelude.{◌≡◌, ◌++◌, ◌∷◌, [], ◌||◌, not, IfOk, IfSome, OnOk, reverse};
ghost use Rattle.link_model.specs.Keys.{is_in};
ghost use Rattle.std.specs.Option.{option_map};
ghost use Rattle.link_walk.specs.Calls.{read_by};
ghost use Rattle.value_model.specs.Meant.{decider, feature_at};
ghost use Rattle.value_features.specs.Deciders.{as_decider, HasNodes, Steps};

use crate::elements::is_feature;
use crate::own::{Decider, own_expression};
use crate::redefining::redefined;
use element_store::{ElementNo, Elements};
use link_model::View;
use link_walk::is_among;
use linker_base::NoMemory;
use std::alloc::Global;

/// Puts elements on a stack, the first one on top.
fn put(alloc: Global, todo: &mut Vec<ElementNo>, elements: &[ElementNo]) -> Result<(), NoMemory>
    ensures { OnOk result (todo.new.items ≡ todo.old.items ++ reverse elements.now) }
{
    let turned: Vec<ElementNo> = elements.iter().rev().copied().collect(alloc)?;
    todo.extend_from_slice(&turned)?;
    Ok(())
}

/// Whether the walk passes the element over: it was seen, or is no feature.
fn is_passed(view: &View, seen: &[ElementNo], next: ElementNo) -> bool
    ensures { result ≡ (is_in next seen.now || not (feature_at (read_by view.now) next)) }
{
    is_among(next, seen) || !is_feature(view, next)
}

/// Takes one step of the walk: the expression of this feature, or else what it redefines is to be
/// done next. What was seen, and what is no feature, is passed over.
fn step<'a>(
    alloc: Global,
    view: &View<'a>,
    seen: &mut Elements,
    todo: &mut Vec<ElementNo>,
    next: ElementNo,
) -> Result<Option<Decider<'a>>, NoMemory>
    ensures steps { IfOk result (Steps (read_by view.now) seen.old (todo.old.items ++ next ∷ [])
        seen.new todo.new.items) }
    ensures nodes { IfOk result (λ found. IfSome found (HasNodes (read_by view.now))) }
{
    if is_passed(view, seen.as_slice(), next) {
        return Ok(None);
    }
    seen.push(next)?;
    let ends = redefined(alloc, view, next)?;
    put(alloc, todo, ends.as_slice())?;
    Ok(own_expression(view, next))
}

/// Step after step, until an expression is found or nothing is left to do.
fn walk<'a>(
    alloc: Global,
    view: &View<'a>,
    seen: &mut Elements,
    todo: &mut Vec<ElementNo>,
    feature: ElementNo,
) -> Result<Option<Decider<'a>>, NoMemory>
    requires seen { seen.old ≡ [] }
    requires todo { todo.old.items ≡ feature ∷ [] }
    ensures decides { IfOk result
        (λ found. option_map as_decider found ≡ decider (read_by view.now) feature) }
    ensures nodes { IfOk result (λ found. IfSome found (HasNodes (read_by view.now))) }
{
    for _ in 0..u64::MAX {
        let Some(next) = todo.pop() else {
            return Ok(None);
        };
        match step(alloc, view, seen, todo, next)? {
            Some(found) => return Ok(Some(found)),
            None => {}
        }
    }
    // So many steps would need more elements than memory holds.
    Err(NoMemory)
}

/// The feature whose expression decides the value of this one: the first with an expression of its
/// own in the depth-first walk over linked redefinitions. `NoMemory` is want of memory alone.
pub fn decider<'a>(
    alloc: Global,
    view: &View<'a>,
    feature: ElementNo,
) -> Result<Option<Decider<'a>>, NoMemory>
    ensures decides { IfOk result
        (λ found. option_map as_decider found ≡ decider (read_by view.now) feature) }
    ensures nodes { IfOk result (λ found. IfSome found (HasNodes (read_by view.now))) }
{
    let mut seen = Elements::new(alloc);
    let mut todo = Vec::new(alloc);
    todo.push(feature)?;
    walk(alloc, view, &mut seen, &mut todo, feature)
}
