ghost use Rattle.std.specs.Prelude.{◌≡◌, ◌<◌, ◌++◌, ◌∷◌, length, Some, List, IfOk};
ghost use Rattle.link_model.specs.Asking as asking;
ghost use Rattle.link_walk.specs.Calls.{files_of, read_by, HasLinks, ReferenceStands};
ghost use Rattle.root_names.specs.Roots.{AreRootsOf};
ghost use Rattle.link_tiers.specs.Answered.{Answered};
ghost use Rattle.link_waits.specs.Ranks.{AreRanksOf};
ghost use Rattle.link_asking.specs.Hiding.{library_in};

use crate::outcomes::outcome_if;
use crate::searching::along;
use crate::starts::{first_hits, root_hits};
use crate::turns::Written;
use element_store::{Name, Outcome, RefNo};
use link_model::View;
use link_tiers::Lookups;
use link_waits::Ranks;
use link_walk::{Notes, model};
use linker_base::NoMemory;
use root_names::RootNames;
use std::alloc::Global;

/// The outcome of a reference. None comes where it waits; then what it waits on is noted.
pub fn ask<T: Lookups>(
    alloc: Global,
    lookups: &T,
    view: &View,
    roots: &RootNames,
    ranks: &Ranks,
    reference: RefNo,
    notes: &mut Notes,
) -> Result<Option<Outcome>, NoMemory>
    requires stands { ReferenceStands (files_of view.now) reference }
    requires links { HasLinks view.now }
    requires roots { AreRootsOf (files_of view.now) roots.now }
    requires ranks { AreRanksOf (files_of view.now) ranks.now }
    ensures { IfOk result (λ outcome. Answered (asking.ask (library_in view.now)
        reference (read_by view.now)) outcome notes.old notes.new) }
{
    let of = model(view, reference.file, notes)?;
    let library = view.models.is_library(reference.file);
    let read = of.reference(reference.index);
    let written = Written {
        path: read.path.as_slice(),
        chain: read.chain.as_slice(),
    };
    let name = written.name(0);
    let tier = first_hits(
        alloc, lookups, view, roots, of, reference, read, library, name,
    )?;
    let course = along(alloc, lookups, view, ranks, &tier, &written, notes)?;
    let outcome = outcome_if(alloc, course, written.path.len())?;
    Ok(outcome)
}

/// The outcome of a qualified name from outside, as from a project file. None comes where it waits;
/// then what it waits on is noted.
pub fn find<T: Lookups>(
    alloc: Global,
    lookups: &T,
    view: &View,
    roots: &RootNames,
    ranks: &Ranks,
    path: &[Name],
    notes: &mut Notes,
) -> Result<Option<Outcome>, NoMemory>
    requires some { 0 < length path.now }
    requires few { length path.now < 4294967296 }
    requires links { HasLinks view.now }
    requires roots { AreRootsOf (files_of view.now) roots.now }
    requires ranks { AreRanksOf (files_of view.now) ranks.now }
    ensures { IfOk result (λ outcome. Answered (asking.find_by (library_in view.now)
        path.now (read_by view.now)) outcome notes.old notes.new) }
{
    let written = Written { path, chain: &[] };
    let name = written.name(0);
    let tier = root_hits(alloc, view, roots, name)?;
    let course = along(alloc, lookups, view, ranks, &tier, &written, notes)?;
    let outcome = outcome_if(alloc, course, path.len())?;
    Ok(outcome)
}
