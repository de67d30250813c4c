ghost use Rattle.std.specs.Prelude.{◌≡◌, IfSome};
ghost use Rattle.std.specs.Option.{option_map};
ghost use Rattle.link_walk.specs.Calls.{read_by};
ghost use Rattle.value_model.specs.Meant.{own_at};
ghost use Rattle.value_features.specs.Deciders.{as_decider, HasNodes};

use crate::elements::element;
use element_store::{ElementNo, Node};
use link_model::View;

/// A feature with the expression that it has of its own.
#[derive(Clone, Copy)]
pub struct Decider<'a> {
    /// The feature.
    pub feature: ElementNo,
    /// Whether the expression is the result of its body, and not its value.
    pub of_result: bool,
    /// The nodes of the expression, in postfix order.
    pub nodes: &'a [Node],
}

/// The expression that a feature has of its own: its value, or else the result of its body.
pub(crate) fn own_expression<'a>(view: &View<'a>, feature: ElementNo) -> Option<Decider<'a>>
    ensures own { option_map as_decider result ≡ own_at (read_by view.now) feature }
    ensures nodes { IfSome result (HasNodes (read_by view.now)) }
{
    let Some(x) = element(view, feature) else {
        return None;
    };
    match (&x.value, &x.result) {
        (Some(value), _) => Some(Decider {
            feature,
            of_result: false,
            nodes: value.as_slice(),
        }),
        (None, Some(value)) => Some(Decider {
            feature,
            of_result: true,
            nodes: value.as_slice(),
        }),
        (None, None) => None,
    }
}
