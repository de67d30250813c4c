ghost use Rattle.std.specs.Prelude.{◌≡◌, ◌++◌, ◌&&◌, cond, map, nat_eq, [], IfOk, OnOk};
ghost use Rattle.std.specs.Cmp.Lexicographic.{pointwise};
ghost use Rattle.demand_core.specs.Computation.{done};
ghost use Rattle.demand_core.specs.Search.{IsAsked};
ghost use Rattle.element_store.specs.BaseRules.{StandsIn};
ghost use Rattle.link_model.specs.Imports as imports;
ghost use Rattle.link_model.specs.Names as names;
ghost use Rattle.link_model.specs.Readers.{is_named, listed};
ghost use Rattle.link_walk.specs.Calls.{files_of, read_by, HasLinks};
ghost use Rattle.link_walk.specs.Gained.{Gained};
ghost use Rattle.owned_names.specs.Walked.{own_names};
ghost use Rattle.name_lookups.specs.Under.{by_names, hit_by};

use element_store::{ElementNo, MemberNo, Name};
use link_model::{Hit, LinkKey, View};
use link_walk::{Gains, Hits, model};
use linker_base::NoMemory;
use owned_names::{Naming, is_named, naming_of};
use std::alloc::Global;

fn push_owning(member: Option<u32>, element: ElementNo, found: &mut Hits) -> Result<(), NoMemory>
    ensures { OnOk result (found.new ≡ found.old ++ map (hit_by element) (listed member)) }
{
    if let Some(index) = member {
        let member = MemberNo {
            file: element.file,
            index,
        };
        found.push(Hit { member, element })?;
    }
    Ok(())
}

/// Takes the hit of an element by its owning member. A root has none.
fn take_owning(view: &View, element: ElementNo, gains: &mut Gains<Hit>) -> Result<(), NoMemory>
    requires stands { StandsIn (files_of view.now) element }
    ensures { OnOk result (Gained (imports.owning_hit element (read_by view.now))
        gains.old gains.new) }
{
    let of = model(view, element.file, &mut gains.notes)?;
    let owning = of.member_of(element.index);
    push_owning(owning, element, &mut gains.found)?;
    Ok(())
}

/// Takes that hit, where the test says so.
fn take_owning_if(
    test: bool,
    view: &View,
    element: ElementNo,
    gains: &mut Gains<Hit>,
) -> Result<(), NoMemory>
    requires stands { StandsIn (files_of view.now) element }
    ensures { OnOk result (Gained (cond test (imports.owning_hit element) (done [])
        (read_by view.now)) gains.old gains.new) }
{
    if test {
        take_owning(view, element, gains)?;
    }
    Ok(())
}

/// Whether both are declared names of an element.
fn has_both(view: &View, name: &Name, last: &Name, element: ElementNo) -> bool
    requires stands { StandsIn (files_of view.now) element }
    ensures { result ≡ (is_named name.now (own_names (files_of view.now) element)
        && is_named last.now (own_names (files_of view.now) element)) }
{
    is_named(view, name, element) && is_named(view, last, element)
}

/// Takes the hit of an element, if both are among its names.
fn take_named_both(
    alloc: Global,
    view: &View,
    element: ElementNo,
    name: &Name,
    last: &Name,
    gains: &mut Gains<Hit>,
) -> Result<(), NoMemory>
    requires stands { StandsIn (files_of view.now) element }
    requires links { HasLinks view.now }
    ensures { OnOk result (Gained (by_names name.now last.now element (read_by view.now))
        gains.old gains.new) }
{
    match naming_of(alloc, view, element, &mut gains.notes)? {
        Naming::Open(reference) => {
            gains.notes.wait_on(LinkKey(reference))?;
            Ok(())
        }
        Naming::Nameless => Ok(()),
        Naming::By(other) => {
            let both = has_both(view, name, last, other);
            take_owning_if(both, view, element, gains)?;
            Ok(())
        }
    }
}

/// Whether two names are one.
fn is_same_name(name: &Name, other: &Name) -> bool
    ensures { result ≡ pointwise nat_eq name.now other.now }
{
    name.bytes() == other.bytes()
}

/// Takes the hit of an element, where it comes under the name.
fn take_under(
    alloc: Global,
    view: &View,
    element: ElementNo,
    name: &Name,
    last: &Name,
    gains: &mut Gains<Hit>,
) -> Result<(), NoMemory>
    requires stands { StandsIn (files_of view.now) element }
    requires links { HasLinks view.now }
    ensures { OnOk result (Gained
        (imports.under_name name.now last.now element (read_by view.now)) gains.old gains.new) }
{
    let written = is_same_name(name, last);
    if written {
        take_owning(view, element, gains)?;
        return Ok(());
    }
    take_named_both(alloc, view, element, name, last, gains)?;
    Ok(())
}

/// The hit of an element by its owning member, where it comes under the name by an import whose last
/// written segment is the other name: it is that segment, or both are among the element's names.
pub(crate) fn under_hits(
    alloc: Global,
    view: &View,
    element: ElementNo,
    name: &Name,
    last: &Name,
) -> Result<Gains<Hit>, NoMemory>
    requires stands { StandsIn (files_of view.now) element }
    requires links { HasLinks view.now }
    ensures { IfOk result (λ gains. IsAsked gains
        (imports.under_name name.now last.now element (read_by view.now))) }
{
    let mut gains = Gains::new(alloc);
    take_under(alloc, view, element, name, last, &mut gains)?;
    Ok(gains)
}
