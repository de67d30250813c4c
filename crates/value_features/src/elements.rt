ghost use Rattle.std.specs.Prelude.{◌≡◌, Some, IfSome, MatchOption, slice_get};
ghost use Rattle.std.specs.Option.{option_copied, unwrap_or};
ghost use Rattle.element_store.specs.Model.{root_element};
ghost use Rattle.link_walk.specs.Calls.{read_by};
ghost use Rattle.value_model.specs.Meant.{model_at, element_at, feature_at, enumerated_at};
ghost use Rattle.value_features.specs.Deciders.{IsHome};

use element_store::{Element, ElementNo, FileModel, Kind};
use link_model::View;

/// Lends the model in which an element stands. None comes where there is no such element.
pub(crate) fn home<'a>(view: &View<'a>, e: ElementNo) -> Option<&'a FileModel>
    ensures { MatchOption result (root_element ≡ element_at (read_by view.now) e)
        (λ model. IsHome (read_by view.now) e model.now) }
{
    match view.models.model(e.file) {
        None => None,
        Some(model) => {
            if e.index < model.elements() {
                Some(model)
            } else {
                None
            }
        }
    }
}

/// Lends an element. None comes where there is no such element; it reads as a root.
pub fn element<'a>(view: &View<'a>, e: ElementNo) -> Option<&'a Element>
    ensures value { unwrap_or (option_copied result) root_element
        ≡ element_at (read_by view.now) e }
    ensures there { IfSome result
        (λ x. slice_get (model_at (read_by view.now) e.file).elements e.index ≡ Some x.now) }
{
    match home(view, e) {
        Some(model) => Some(model.element(e.index)),
        None => None,
    }
}

/// The kind of an element; what doesn't stand is as a root.
fn kind_of(view: &View, e: ElementNo) -> Kind
    ensures { result ≡ (element_at (read_by view.now) e).kind }
{
    match element(view, e) {
        Some(x) => x.kind,
        None => Kind::Root,
    }
}

/// Whether the element is a feature.
pub fn is_feature(view: &View, e: ElementNo) -> bool
    ensures { result ≡ feature_at (read_by view.now) e }
{
    kind_of(view, e).is_feature()
}

/// Whether the element is an enumerated value: a feature that an enumeration definition owns.
pub fn is_enumerated(view: &View, e: ElementNo) -> bool
    ensures { result ≡ enumerated_at (read_by view.now) e }
{
    match element(view, e) {
        None => false,
        Some(x) => match x.owner {
            None => false,
            Some(index) => {
                let owner = ElementNo {
                    file: e.file,
                    index,
                };
                x.kind.is_feature() && kind_of(view, owner).is_enumeration()
            }
        },
    }
}
