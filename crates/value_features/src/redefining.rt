ghost use Rattle.std.specs.Prelude.{◌≡◌, ◌++◌, IfOk, OnOk};
ghost use Rattle.std.specs.List.{flat_map};
ghost use Rattle.link_walk.specs.Calls.{read_by};
ghost use Rattle.value_model.specs.Meant.{redefined};
ghost use Rattle.value_features.specs.Deciders.{end_of};

use crate::elements::home;
use element_store::{ElementNo, Elements, Outcome};
use link_model::{LinkKey, View};
use link_walk::{Wanted, references_of};
use linker_base::NoMemory;
use std::alloc::Global;

/// Appends the element to which a reference is linked, if it is.
fn add_end(view: &View, key: LinkKey, ends: &mut Elements) -> Result<(), NoMemory>
    ensures { OnOk result (ends.new ≡ ends.old ++ end_of ((read_by view.now).table key)) }
{
    match view.table.get(key) {
        Some(Outcome::Linked { element, .. }) => ends.push(*element),
        _ => Ok(()),
    }
}

/// The elements to which references are linked, in order.
fn ends_of(alloc: Global, view: &View, keys: &[LinkKey]) -> Result<Elements, NoMemory>
    ensures { IfOk result
        (λ ends. ends ≡ flat_map (λ k. end_of ((read_by view.now).table k)) keys.now) }
{
    let mut ends = Elements::new(alloc);
    for key in keys {
        add_end(view, *key, &mut ends)?;
    }
    Ok(ends)
}

/// The linked targets of the redefinitions that a feature owns, in written order.
pub(crate) fn redefined(
    alloc: Global,
    view: &View,
    feature: ElementNo,
) -> Result<Elements, NoMemory>
    ensures { IfOk result (λ ends. ends ≡ redefined (read_by view.now) feature) }
{
    match home(view, feature) {
        None => Ok(Elements::new(alloc)),
        Some(model) => {
            if model.element(feature.index).kind.is_feature() {
                let keys = references_of(alloc, model, feature, Wanted::Redefinitions)?;
                ends_of(alloc, view, keys.as_slice())
            } else {
                Ok(Elements::new(alloc))
            }
        }
    }
}
