ghost use Rattle.std.specs.Prelude.{◌≡◌, IfOk};
ghost use Rattle.link_walk.specs.Calls.{read_by};
ghost use Rattle.value_model.specs.Reading.{name_spot, last_lead, lead};
ghost use Rattle.expr_reading.specs.Sources.{as_lead};

use crate::chains::{Reached, through};
use crate::meanings::Meanings;
use element_store::{ElementNo, FileNo, Outcome, RefNo};
use expr_reading::Lead;
use link_model::{LinkKey, View};
use linker_base::NoMemory;
use std::alloc::Global;
use value_features::{is_enumerated, is_feature};
use value_model::{Spot, Value, ValueAnswer, ValueFault, ValueKey};

/// The spot of a name: the place of its reference, or 0 where there is no such reference.
fn name_spot(view: &View, file: FileNo, reference: u32) -> Spot
    ensures { result ≡ name_spot (read_by view.now) file reference }
{
    let at = match view.models.model(file) {
        None => 0,
        Some(model) => {
            if reference < model.references() {
                model.place_of_reference(reference)
            } else {
                0
            }
        }
    };
    Spot { file, at }
}

/// Where the last element of a name leads.
fn last_lead(view: &View, at: Spot, element: ElementNo, reached: Reached) -> Lead
    ensures { as_lead result ≡ last_lead (read_by view.now) at element reached }
{
    match reached {
        Err(fault) => Lead::Known(ValueAnswer::Refused(fault)),
        Ok(target) => {
            if !is_feature(view, element) {
                Lead::Known(ValueAnswer::Refused(ValueFault::WrongKind(at)))
            } else if is_enumerated(view, element) {
                Lead::Known(ValueAnswer::Value(Value::Enumerated(element)))
            } else {
                Lead::Needs(ValueKey {
                    feature: element,
                    target,
                })
            }
        }
    }
}

/// Where the name of a reference leads that is read for a target: through the elements of its chain
/// to the last one. It is `Unlinked` where the reference isn't linked, `WrongKind` where an element
/// is no feature, and `Several` where several features are meant on the way.
pub fn lead<M: Meanings>(
    alloc: Global,
    meanings: &M,
    view: &View,
    file: FileNo,
    target: Option<ElementNo>,
    reference: u32,
) -> Result<Lead, NoMemory>
    requires { M.links meanings.now ≡ read_by view.now }
    ensures { IfOk result (λ one. as_lead one
        ≡ lead (M.links meanings.now) (M.library meanings.now) file target reference) }
{
    let at = name_spot(view, file, reference);
    let key = LinkKey(RefNo {
        file,
        index: reference,
    });
    match view.table.get(key) {
        Some(Outcome::Linked { steps, element }) => {
            let reached = through(alloc, meanings, view, at, target, steps.as_slice())?;
            Ok(last_lead(view, at, *element, reached))
        }
        _ => Ok(Lead::Known(ValueAnswer::Refused(ValueFault::Unlinked(at)))),
    }
}
