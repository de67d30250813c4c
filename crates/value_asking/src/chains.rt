ghost use Rattle.std.specs.Prelude.{◌≡◌, Ok, IfOk};
ghost use Rattle.link_walk.specs.Calls.{read_by};
ghost use Rattle.value_model.specs.Reading.{further, through};

use crate::meanings::Meanings;
use element_store::ElementNo;
use link_model::View;
use linker_base::NoMemory;
use std::alloc::Global;
use value_features::is_feature;
use value_model::{Spot, ValueFault};

/// A target, or why a name leads no further.
pub(crate) type Reached = Result<Option<ElementNo>, ValueFault>;

/// The target after an earlier element of a name: the feature meant for it in the target so far.
fn further<M: Meanings>(
    alloc: Global,
    meanings: &M,
    view: &View,
    at: Spot,
    target: Option<ElementNo>,
    element: ElementNo,
) -> Result<Reached, NoMemory>
    requires { M.links meanings.now ≡ read_by view.now }
    ensures { IfOk result (λ reached. reached
        ≡ further (M.links meanings.now) (M.library meanings.now) at (Ok target) element) }
{
    if !is_feature(view, element) {
        return Ok(Err(ValueFault::WrongKind(at)));
    }
    match meanings.meant(alloc, element, target)? {
        None => Ok(Err(ValueFault::Several(element))),
        Some(feature) => Ok(Ok(Some(feature))),
    }
}

/// The target after all earlier elements of a name, or the first refusal.
pub(crate) fn through<M: Meanings>(
    alloc: Global,
    meanings: &M,
    view: &View,
    at: Spot,
    target: Option<ElementNo>,
    elements: &[ElementNo],
) -> Result<Reached, NoMemory>
    requires { M.links meanings.now ≡ read_by view.now }
    ensures { IfOk result (λ reached. reached
        ≡ through (M.links meanings.now) (M.library meanings.now) at elements.now (Ok target)) }
{
    let mut reached = target;
    for element in elements {
        match further(alloc, meanings, view, at, reached, *element)? {
            Ok(target) => reached = target,
            Err(fault) => return Ok(Err(fault)),
        }
    }
    Ok(Ok(reached))
}
