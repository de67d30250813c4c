ghost use Rattle.std.specs.Prelude.{◌≡◌, IfOk, OnOk};
ghost use Rattle.linker_base.specs.Members.{SameMembers};
ghost use Rattle.element_store.specs.BaseRules.{StandsIn};
ghost use Rattle.link_model.specs.Inheritance as inheritance;
ghost use Rattle.link_model.specs.Outside.{library_of};
ghost use Rattle.link_model.specs.Settled as settled;
ghost use Rattle.link_walk.specs.Calls.{AddsLooks, Answers, HasLinks, IsOnce, files_of, read_by};

use crate::explicit::explicit_from;
use crate::general_types::generals_of;
use crate::redefined::redefined_from;
use crate::sight::Sight;
use element_store::{ElementNo, Elements};
use link_model::{LinkLooks, View};
use link_walk::{Found, answer, distinct, is_among};
use linker_base::NoMemory;
use std::alloc::Global;

/// The generals of a type: the linked targets of its specialisations, where they are types, and its
/// base, if it has one that is another element. Open references are waited on. At what the asking
/// looked is added to `looks`.
pub fn generals(
    alloc: Global,
    view: &View,
    of: ElementNo,
    looks: &mut LinkLooks,
) -> Result<Found<Elements>, NoMemory>
    requires stands { StandsIn (files_of view.now) of }
    requires links { HasLinks view.now }
    ensures found { IfOk result (λ found. Answers found
        (inheritance.generals (library_of (files_of view.now)) of (read_by view.now)).step) }
    ensures looks { OnOk result (AddsLooks looks.old looks.new
        (inheritance.generals (library_of (files_of view.now)) of (read_by view.now))) }
{
    let sight = Sight::new(view, false);
    let trail = generals_of(alloc, &sight, of)?;
    let gains = trail.gains(alloc)?;
    let found = answer(alloc, gains, looks)?;
    Ok(found)
}

/// The features that a feature redefines, directly or on the way, each once. Open references are
/// waited on. At what the asking looked is added to `looks`.
pub fn all_redefined(
    alloc: Global,
    view: &View,
    of: ElementNo,
    looks: &mut LinkLooks,
) -> Result<Found<Elements>, NoMemory>
    requires stands { StandsIn (files_of view.now) of }
    requires links { HasLinks view.now }
    ensures found { IfOk result (λ found. Answers found
        (inheritance.all_redefined of (read_by view.now)).step) }
    ensures once { IfOk result IsOnce }
    ensures looks { OnOk result (AddsLooks looks.old looks.new
        (inheritance.all_redefined of (read_by view.now))) }
{
    let sight = Sight::new(view, false);
    let trail = redefined_from(alloc, &sight, of)?;
    let gains = trail.gains(alloc)?;
    let found = answer(alloc, gains, looks)?;
    Ok(found)
}

/// The generals of a type where every open reference counts as refused.
pub fn settled_generals(alloc: Global, view: &View, of: ElementNo) -> Result<Elements, NoMemory>
    requires stands { StandsIn (files_of view.now) of }
    requires links { HasLinks view.now }
    ensures { IfOk result (λ es. SameMembers es
        (settled.settled_generals (library_of (files_of view.now)) of (read_by view.now))) }
{
    let sight = Sight::new(view, true);
    let trail = generals_of(alloc, &sight, of)?;
    let es = distinct(alloc, trail.found.as_slice())?;
    Ok(es)
}

/// The features that a feature redefines where every open reference counts as refused, each once.
pub fn settled_redefined(alloc: Global, view: &View, of: ElementNo) -> Result<Elements, NoMemory>
    requires stands { StandsIn (files_of view.now) of }
    requires links { HasLinks view.now }
    ensures { IfOk result (λ es. SameMembers es (settled.settled_redefined of (read_by view.now))) }
{
    let sight = Sight::new(view, true);
    let trail = redefined_from(alloc, &sight, of)?;
    let es = distinct(alloc, trail.found.as_slice())?;
    Ok(es)
}

/// Whether a chain of one explicit general or more leads from the type to the base. Open references
/// add nothing.
pub fn specialises(
    alloc: Global,
    view: &View,
    of: ElementNo,
    base: ElementNo,
) -> Result<bool, NoMemory>
    requires stands { StandsIn (files_of view.now) of }
    requires links { HasLinks view.now }
    ensures { IfOk result (λ yes. yes ≡ settled.specialises of base (read_by view.now)) }
{
    let sight = Sight::new(view, true);
    let trail = explicit_from(alloc, &sight, of)?;
    let yes = is_among(base, trail.found.as_slice());
    Ok(yes)
}
