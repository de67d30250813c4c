ghost use Rattle.std.specs.Prelude.{cond, false, [], IfOk};
ghost use Rattle.demand_core.specs.Computation.{done};
ghost use Rattle.demand_core.specs.Search.{IsAsked};
ghost use Rattle.element_store.specs.BaseRules.{StandsIn};
ghost use Rattle.link_model.specs.Imports as imports;
ghost use Rattle.link_model.specs.Inheritance as inheritance;
ghost use Rattle.link_model.specs.Names as names;
ghost use Rattle.link_model.specs.Outside.{library_of};
ghost use Rattle.link_walk.specs.Calls.{files_of, read_by, HasLinks};
ghost use Rattle.link_tiers.specs.Tiers.{Tried};
ghost use Rattle.name_lookups.specs.Narrowed.{narrowed_tier};

use crate::narrowing::narrowed;
use crate::under::under_hits;
use element_store::{ElementNo, Name};
use import_walk::Tiers;
use inherited_names::inherited_hits;
use link_model::{Hit, View};
use link_tiers::try_tier;
use link_walk::{Gains, Notes, element};
use linker_base::NoMemory;
use owned_names::{declared_hits, effective_hits};
use std::alloc::Global;

/// The first tier, narrowed.
fn declared_tier(
    alloc: Global,
    view: &View,
    of: ElementNo,
    name: &Name,
    all: bool,
) -> Result<Gains<Hit>, NoMemory>
    requires stands { StandsIn (files_of view.now) of }
    requires links { HasLinks view.now }
    ensures { IfOk result (λ gains. IsAsked gains
        (narrowed_tier all (names.declared name.now of) (read_by view.now))) }
{
    // A call tells what holds of all files.
    let _ = view.models.files();
    let tier = declared_hits(alloc, view, of, name)?;
    let gains = narrowed(alloc, view, all, &tier)?;
    Ok(gains)
}

/// The second tier, narrowed.
fn effective_tier(
    alloc: Global,
    view: &View,
    of: ElementNo,
    name: &Name,
    all: bool,
) -> Result<Gains<Hit>, NoMemory>
    requires stands { StandsIn (files_of view.now) of }
    requires links { HasLinks view.now }
    ensures { IfOk result (λ gains. IsAsked gains
        (narrowed_tier all (names.effective name.now of) (read_by view.now))) }
{
    let _ = view.models.files();
    let tier = effective_hits(alloc, view, of, name)?;
    let gains = narrowed(alloc, view, all, &tier)?;
    Ok(gains)
}

/// What an element inherits, if it is a type.
fn inherited_if(
    alloc: Global,
    view: &View,
    of: ElementNo,
    name: &Name,
    is_type: bool,
) -> Result<Gains<Hit>, NoMemory>
    requires stands { StandsIn (files_of view.now) of }
    requires links { HasLinks view.now }
    ensures { IfOk result (λ gains. IsAsked gains (cond is_type (inheritance.inherited
        (library_of (files_of view.now)) false name.now of) (done []) (read_by view.now))) }
{
    if is_type {
        let gains = inherited_hits(alloc, view, of, name, false)?;
        return Ok(gains);
    }
    Ok(Gains::new(alloc))
}

/// The third tier: what a namespace inherits, if it is a type.
fn inherited_tier(
    alloc: Global,
    view: &View,
    of: ElementNo,
    name: &Name,
) -> Result<Gains<Hit>, NoMemory>
    requires stands { StandsIn (files_of view.now) of }
    requires links { HasLinks view.now }
    ensures { IfOk result (λ gains. IsAsked gains (inheritance.inherited_tier
        (library_of (files_of view.now)) name.now of (read_by view.now))) }
{
    let mut notes = Notes::new(alloc);
    let found = element(view, of, &mut notes)?;
    let is_type = found.kind.is_type();
    let mut gains = inherited_if(alloc, view, of, name, is_type)?;
    gains.notes.append(&notes)?;
    Ok(gains)
}

/// The third tier, narrowed.
fn narrowed_inherited(
    alloc: Global,
    view: &View,
    of: ElementNo,
    name: &Name,
    all: bool,
) -> Result<Gains<Hit>, NoMemory>
    requires stands { StandsIn (files_of view.now) of }
    requires links { HasLinks view.now }
    ensures { IfOk result (λ gains. IsAsked gains (narrowed_tier all (inheritance.inherited_tier
        (library_of (files_of view.now)) name.now of) (read_by view.now))) }
{
    let _ = view.models.files();
    let tier = inherited_tier(alloc, view, of, name)?;
    let gains = narrowed(alloc, view, all, &tier)?;
    Ok(gains)
}

/// Tries a namespace's own three tiers.
fn try_own(
    alloc: Global,
    view: &View,
    of: ElementNo,
    name: &Name,
    all: bool,
    gains: &mut Gains<Hit>,
) -> Result<bool, NoMemory>
    requires stands { StandsIn (files_of view.now) of }
    requires links { HasLinks view.now }
    ensures { IfOk result (λ decided. Tried (read_by view.now) (imports.own_tiers
        (library_of (files_of view.now)) all name.now of) decided gains.old gains.new) }
{
    let declared = declared_tier(alloc, view, of, name, all)?;
    let first = try_tier(gains, declared)?;
    if first {
        return Ok(true);
    }
    let effective = effective_tier(alloc, view, of, name, all)?;
    let second = try_tier(gains, effective)?;
    if second {
        return Ok(true);
    }
    let inherited = narrowed_inherited(alloc, view, of, name, all)?;
    let decided = try_tier(gains, inherited)?;
    Ok(decided)
}

/// What a namespace gives without its imports: declared names, effective names and inherited members.
#[derive(Clone, Copy)]
pub struct OwnTiers;

impl Tiers for OwnTiers {
    fn own(
        &self,
        alloc: Global,
        view: &View,
        of: ElementNo,
        name: &Name,
        all: bool,
    ) -> Result<Gains<Hit>, NoMemory> {
        let mut gains = Gains::new(alloc);
        try_own(alloc, view, of, name, all, &mut gains)?;
        Ok(gains)
    }

    fn under(
        &self,
        alloc: Global,
        view: &View,
        element: ElementNo,
        name: &Name,
        last: &Name,
    ) -> Result<Gains<Hit>, NoMemory> {
        let gains = under_hits(alloc, view, element, name, last)?;
        Ok(gains)
    }
}
