ghost use Rattle.std.specs.Prelude.{◌∷◌, [], cond, IfOk, IfSome, OnOk};
ghost use Rattle.linker_base.specs.Members.{IsMember};
ghost use Rattle.demand_core.specs.Computation.{joined};
ghost use Rattle.demand_core.specs.Search.{IsAsked};
ghost use Rattle.element_store.specs.declared.numbers.MemberNo.{MemberNo as Number};
ghost use Rattle.element_store.specs.BaseRules.{StandsIn};
ghost use Rattle.link_model.specs.Lexical as lexical;
ghost use Rattle.link_model.specs.Linking.{MemberStands};
ghost use Rattle.link_model.specs.Names as names;
ghost use Rattle.link_model.specs.Outside.{library_of};
ghost use Rattle.link_walk.specs.Calls.{files_of, read_by, HasLinks};
ghost use Rattle.link_walk.specs.Noted.{Tells};
ghost use Rattle.root_names.specs.Roots.{AreRootsOf};
ghost use Rattle.link_tiers.specs.Tiers.{AreFound, Joins, Tried};

use crate::tiers::try_tier;
use element_store::{ElementNo, MemberNo, Name, RefNo, Target};
use link_model::{Hit, LinkKey, View};
use link_walk::{Gains, Notes, model, target};
use linker_base::NoMemory;
use root_names::RootNames;
use std::alloc::Global;

/// Where the member of that number leads. None comes where its reference is refused, and where it is
/// open: then it is noted as waited on.
fn lead(view: &View, member: MemberNo, notes: &mut Notes) -> Result<Option<ElementNo>, NoMemory>
    requires stands { MemberStands (files_of view.now) member }
    requires links { HasLinks view.now }
    ensures told { IfOk result (λ e. Tells (names.member_element member (read_by view.now))
        e notes.old notes.new) }
    ensures stands { IfOk result (λ e. IfSome e (StandsIn (files_of view.now))) }
{
    let of = model(view, member.file, notes)?;
    match of.member(member.index).target {
        Target::Owned(index) => Ok(Some(ElementNo {
            file: member.file,
            index,
        })),
        Target::Alias(index) => {
            let reference = RefNo {
                file: member.file,
                index,
            };
            target(view, LinkKey(reference), notes)
        }
    }
}

/// Adds the hit of a member.
fn add_member(view: &View, member: MemberNo, gains: &mut Gains<Hit>) -> Result<(), NoMemory>
    requires stands { MemberStands (files_of view.now) member }
    requires links { HasLinks view.now }
    ensures joins { OnOk result (Joins (read_by view.now) (lexical.member_hit member)
        gains.old gains.new) }
    ensures found { OnOk result (AreFound (files_of view.now) gains.old
        → AreFound (files_of view.now) gains.new) }
{
    match lead(view, member, &mut gains.notes)? {
        None => Ok(()),
        Some(element) => {
            gains.found.push(Hit { member, element })?;
            Ok(())
        }
    }
}

/// The hits of members.
fn member_hits(alloc: Global, view: &View, members: &[MemberNo]) -> Result<Gains<Hit>, NoMemory>
    requires stand { (m : Number) → IsMember members.now m → MemberStands (files_of view.now) m }
    requires links { HasLinks view.now }
    ensures asked { IfOk result (λ gains. IsAsked gains
        (joined lexical.member_hit members.now (read_by view.now))) }
    ensures found { IfOk result (AreFound (files_of view.now)) }
{
    let mut gains = Gains::new(alloc);
    for member in members {
        add_member(view, *member, &mut gains)?;
    }
    Ok(gains)
}

/// The tier of the project: the public root members of all its files that bear the name. The look at
/// the name is noted also where there is none.
fn project_tier(
    alloc: Global,
    view: &View,
    roots: &RootNames,
    name: &Name,
) -> Result<Gains<Hit>, NoMemory>
    requires roots { AreRootsOf (files_of view.now) roots.now }
    requires links { HasLinks view.now }
    ensures asked { IfOk result (λ gains. IsAsked gains
        (lexical.project_tier name.now (read_by view.now))) }
    ensures found { IfOk result (AreFound (files_of view.now)) }
{
    let mut gains = member_hits(alloc, view, roots.bearers(name))?;
    let bytes = Vec::from_slice(alloc, name.bytes())?;
    gains.notes.look_for(Name::of(bytes))?;
    Ok(gains)
}

/// The tier of the library: the same over its files.
fn library_tier(
    alloc: Global,
    view: &View,
    roots: &RootNames,
    name: &Name,
) -> Result<Gains<Hit>, NoMemory>
    requires roots { AreRootsOf (files_of view.now) roots.now }
    requires links { HasLinks view.now }
    ensures asked { IfOk result (λ gains. IsAsked gains
        (lexical.library_tier (library_of (files_of view.now)) name.now (read_by view.now))) }
    ensures found { IfOk result (AreFound (files_of view.now)) }
{
    member_hits(alloc, view, roots.library_bearers(name))
}

/// Tries the tier of the project, over which a library file passes.
fn try_project(
    alloc: Global,
    view: &View,
    roots: &RootNames,
    library: bool,
    name: &Name,
    gains: &mut Gains<Hit>,
) -> Result<bool, NoMemory>
    requires roots { AreRootsOf (files_of view.now) roots.now }
    requires links { HasLinks view.now }
    ensures tried { IfOk result (λ decided. Tried (read_by view.now)
        (cond library [] (lexical.project_tier name.now ∷ [])) decided gains.old gains.new) }
    ensures found { IfOk result (λ decided. AreFound (files_of view.now) gains.old
        → AreFound (files_of view.now) gains.new) }
{
    if library {
        return Ok(false);
    }
    let project = project_tier(alloc, view, roots, name)?;
    let decided = try_tier(gains, project)?;
    Ok(decided)
}

/// Tries the last two tiers: that of the project, over which a library file passes, and that of the
/// library.
pub fn try_roots(
    alloc: Global,
    view: &View,
    roots: &RootNames,
    library: bool,
    name: &Name,
    gains: &mut Gains<Hit>,
) -> Result<bool, NoMemory>
    requires roots { AreRootsOf (files_of view.now) roots.now }
    requires links { HasLinks view.now }
    ensures tried { IfOk result (λ decided. Tried (read_by view.now)
        (lexical.last_tiers (library_of (files_of view.now)) library name.now) decided
        gains.old gains.new) }
    ensures found { IfOk result (λ decided. AreFound (files_of view.now) gains.old
        → AreFound (files_of view.now) gains.new) }
{
    let decided = try_project(alloc, view, roots, library, name, gains)?;
    if decided {
        return Ok(true);
    }
    let tier = library_tier(alloc, view, roots, name)?;
    let last = try_tier(gains, tier)?;
    Ok(last)
}
