ghost use Rattle.std.specs.Prelude.{IfOk};
ghost use Rattle.demand_core.specs.Search.{IsAsked};
ghost use Rattle.element_store.specs.BaseRules.{StandsIn};
ghost use Rattle.link_model.specs.Imports.{own_tiers, under_name};
ghost use Rattle.link_model.specs.Outside.{library_of};
ghost use Rattle.link_model.specs.Readers.{first_of};
ghost use Rattle.link_walk.specs.Calls.{read_by, HasLinks};

use element_store::{ElementNo, Name};
use link_model::{Hit, View};
use link_walk::Gains;
use linker_base::NoMemory;
use std::alloc::Global;

/// What a namespace gives without its imports, and whether an element comes under a name.
pub trait Tiers {
    /// The hits of the first of a namespace's own three tiers that isn't empty: of public members, or
    /// with `all` of each.
    fn own(
        &self,
        alloc: Global,
        view: &View,
        of: ElementNo,
        name: &Name,
        all: bool,
    ) -> Result<Gains<Hit>, NoMemory>
        requires stands { StandsIn view.now.models.now of }
        requires links { HasLinks view.now }
        ensures { IfOk result (λ gains. IsAsked gains
            (first_of (own_tiers (library_of view.now.models.now) all name.now of)
            (read_by view.now))) };

    /// The hit of an element by its owning member, where it comes under the name by an import whose
    /// last written segment is the other name.
    fn under(
        &self,
        alloc: Global,
        view: &View,
        element: ElementNo,
        name: &Name,
        last: &Name,
    ) -> Result<Gains<Hit>, NoMemory>
        requires stands { StandsIn view.now.models.now element }
        requires links { HasLinks view.now }
        ensures { IfOk result (λ gains. IsAsked gains
            (under_name name.now last.now element
            (read_by view.now))) };
}
