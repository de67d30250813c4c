ghost use Rattle.std.specs.Prelude.{◌≡◌, IfOk};
ghost use Rattle.link_model.specs.Outside.{Library};
ghost use Rattle.link_model.specs.Readers.{LinkWorld};
ghost use Rattle.value_model.specs.Meant.{meant};

use element_store::ElementNo;
use linker_base::NoMemory;
use std::alloc::Global;

/// Which feature is meant for a feature in a target, by the links of a project.
pub trait Meanings {
    /// The links and the models.
    ghost links: { Self → LinkWorld };

    /// The library.
    ghost library: { Self → Library };

    /// The feature meant, or none where there are several. Without a target it is the feature.
    fn meant(
        &self,
        alloc: Global,
        feature: ElementNo,
        target: Option<ElementNo>,
    ) -> Result<Option<ElementNo>, NoMemory>
        ensures { IfOk result
            (λ one. one ≡ meant (links self.now) (library self.now) feature target) };
}
