ghost use Rattle.std.specs.Prelude.{IfOk, OnOk};
ghost use Rattle.element_store.specs.BaseRules.{StandsIn};
ghost use Rattle.link_model.specs.Imports as imports;
ghost use Rattle.link_model.specs.Outside.{library_of};
ghost use Rattle.link_walk.specs.Calls.{files_of, read_by, HasLinks, ImportStands, Answers};
ghost use Rattle.link_walk.specs.Calls.{AddsLooks};

use crate::own_tiers::OwnTiers;
use element_store::{ElementNo, Elements, ImportNo, Name};
use import_walk::{imported_hits, visible_hits};
use link_model::{LinkLooks, View};
use link_walk::{Found, Hits, answer};
use linker_base::NoMemory;
use std::alloc::Global;

/// What an import brings under a name (KerML 8.3.2.4, Import::importedMemberships): nothing, where it
/// is refused. The excluded namespaces show nothing. Open references are waited on. At what the asking
/// looked is added to `looks`.
pub fn imported(
    alloc: Global,
    view: &View,
    import: ImportNo,
    name: &Name,
    excluded: &Elements,
    looks: &mut LinkLooks,
) -> Result<Found<Hits>, NoMemory>
    requires stands { ImportStands (files_of view.now) import }
    requires links { HasLinks view.now }
    ensures found { IfOk result (λ found. Answers found
        (imports.imported (library_of (files_of view.now)) name.now excluded.now import
        (read_by view.now)).step) }
    ensures looks { OnOk result (AddsLooks looks.old looks.new
        (imports.imported (library_of (files_of view.now)) name.now excluded.now import
        (read_by view.now))) }
{
    let gains = imported_hits(alloc, &OwnTiers, view, import, name, excluded.as_slice())?;
    let found = answer(alloc, gains, looks)?;
    Ok(found)
}

/// The members of a namespace that are visible under a name (KerML 8.3.2.4,
/// Namespace::visibleMemberships): of the first of its four tiers that isn't empty, the public ones, or
/// with `all` each; with `recursive` joined with those inside. An excluded namespace shows nothing.
pub fn visible(
    alloc: Global,
    view: &View,
    of: ElementNo,
    name: &Name,
    excluded: &Elements,
    recursive: bool,
    all: bool,
    looks: &mut LinkLooks,
) -> Result<Found<Hits>, NoMemory>
    requires stands { StandsIn (files_of view.now) of }
    requires links { HasLinks view.now }
    ensures found { IfOk result (λ found. Answers found
        (imports.visible (library_of (files_of view.now)) name.now excluded.now recursive all of
        (read_by view.now)).step) }
    ensures looks { OnOk result (AddsLooks looks.old looks.new
        (imports.visible (library_of (files_of view.now)) name.now excluded.now recursive all of
        (read_by view.now))) }
{
    let excluded = excluded.as_slice();
    let gains = visible_hits(alloc, &OwnTiers, view, of, name, excluded, recursive, all)?;
    let found = answer(alloc, gains, looks)?;
    Ok(found)
}
