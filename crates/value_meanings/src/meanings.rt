ghost use Rattle.std.specs.Prelude.{◌≡◌, Some, IfOk};
ghost use Rattle.link_model.specs.Outside.{library_of};
ghost use Rattle.link_walk.specs.Calls.{files_of, read_by, HasLinks};
ghost use Rattle.value_model.specs.Meant.{meant};

use crate::candidates::candidates;
use crate::sole::sole;
use element_store::ElementNo;
use link_model::View;
use linker_base::NoMemory;
use std::alloc::Global;
use std::marker::Model;
use value_asking::Meanings;

/// Which feature is meant in a target, by the links of a project of which no more come. Contracts see
/// what is seen: the models and the links, whose outcomes name what stands.
#[derive(Drop)]
pub struct LinkMeanings<'a> {
    view: View<'a>,
}

impl<'a> Model for LinkMeanings<'a> {
    ghost use Rattle.link_model.specs.declared.view.View.{View};
    ghost use Rattle.link_walk.specs.Calls.{HasLinks};

    ghost Value = { View };

    ghost view = { λ m. m.view };

    ghost invariant = { λ m. HasLinks m.view };
}

impl<'a> LinkMeanings<'a> {
    /// The meanings by what is seen.
    pub fn new(view: View<'a>) -> Self
        requires links { HasLinks view }
        ensures { result ≡ view.entry }
    {
        LinkMeanings { view }
    }
}

/// The feature meant in a target.
fn meant_in(
    alloc: Global,
    view: &View,
    feature: ElementNo,
    target: ElementNo,
) -> Result<Option<ElementNo>, NoMemory>
    requires links { HasLinks view.now }
    ensures { IfOk result (λ one. one ≡ meant (read_by view.now)
        (library_of (files_of view.now)) feature (Some target)) }
{
    let _ = view.models.files();
    let standing = candidates(alloc, view, feature, target)?;
    let one = sole(alloc, view, feature, standing.as_slice())?;
    Ok(one)
}

impl<'a> Meanings for LinkMeanings<'a> {
    ghost links = { λ m. read_by m };

    ghost library = { λ m. library_of (files_of m) };

    fn meant(
        &self,
        alloc: Global,
        feature: ElementNo,
        target: Option<ElementNo>,
    ) -> Result<Option<ElementNo>, NoMemory> {
        match target {
            None => Ok(Some(feature)),
            Some(target) => meant_in(alloc, &self.view, feature, target),
        }
    }
}
