ghost use Rattle.std.specs.Prelude.{◌≡◌, [], IfOk};
ghost use Rattle.linker_base.specs.Members.{IsMember};
ghost use Rattle.demand_core.specs.Computation.{joined};
ghost use Rattle.demand_core.specs.Search.{IsAsked};
ghost use Rattle.element_store.specs.BaseRules.{StandsIn};
ghost use Rattle.element_store.specs.declared.numbers.ElementNo.{ElementNo as Number};
ghost use Rattle.link_model.specs.Inheritance as inheritance;
ghost use Rattle.link_model.specs.Outside.{library_of};
ghost use Rattle.link_walk.specs.Calls.{files_of, read_by, HasLinks};
ghost use Rattle.inheritance.specs.Sights.{direct_targets};

use element_store::ElementNo;
use inheritance::{Sight, reached, redefined_directly, redefined_from_all};
use link_model::View;
use link_walk::Gains;
use linker_base::NoMemory;
use std::alloc::Global;

/// The types that are reached by generals, each once.
pub fn types(alloc: Global, view: &View, of: ElementNo) -> Result<Gains<ElementNo>, NoMemory>
    requires stands { StandsIn (files_of view.now) of }
    requires links { HasLinks view.now }
    ensures asked { IfOk result (λ gains. IsAsked gains
        (inheritance.reached (library_of (files_of view.now)) of (read_by view.now))) }
    ensures stand { IfOk result (λ gains. gains.waits ≡ [] → (e : Number) → IsMember gains.found e
        → StandsIn (files_of view.now) e) }
{
    let sight = Sight::new(view, false);
    let trail = reached(alloc, &sight, of)?;
    let gains = trail.gains(alloc)?;
    Ok(gains)
}

/// The features that one of these redefines, directly or on the way, each once.
pub fn redefined_by_all(
    alloc: Global,
    view: &View,
    features: &[ElementNo],
) -> Result<Gains<ElementNo>, NoMemory>
    requires stand { (e : Number) → IsMember features.now e → StandsIn (files_of view.now) e }
    requires links { HasLinks view.now }
    ensures { IfOk result (λ gains. IsAsked gains
        (joined inheritance.all_redefined features.now (read_by view.now))) }
{
    let sight = Sight::new(view, false);
    let trail = redefined_from_all(alloc, &sight, features)?;
    let gains = trail.gains(alloc)?;
    Ok(gains)
}

/// The targets of the redefinitions of a feature, each once.
pub fn targets(alloc: Global, view: &View, feature: ElementNo) -> Result<Gains<ElementNo>, NoMemory>
    requires stands { StandsIn (files_of view.now) feature }
    requires links { HasLinks view.now }
    ensures { IfOk result (λ gains. IsAsked gains (direct_targets feature (read_by view.now))) }
{
    let sight = Sight::new(view, false);
    let trail = redefined_directly(alloc, &sight, feature)?;
    let gains = trail.gains(alloc)?;
    Ok(gains)
}
