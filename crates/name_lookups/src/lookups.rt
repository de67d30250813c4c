ghost use Rattle.std.specs.Prelude.{◌∷◌, [], false, IfOk};
ghost use Rattle.demand_core.specs.Search.{IsAsked};
ghost use Rattle.link_model.specs.Imports as imports;
ghost use Rattle.link_model.specs.Outside.{library_of};
ghost use Rattle.link_walk.specs.Calls.{files_of, read_by};

use crate::own_tiers::OwnTiers;
use element_store::{ElementNo, ImportNo, Name};
use import_walk::{imported_hits, visible_hits};
use inherited_names::inherited_hits;
use link_model::{Hit, View};
use link_tiers::Lookups;
use link_walk::Gains;
use linker_base::NoMemory;
use owned_names::{declared_hits, effective_hits};
use std::alloc::Global;

/// The lookups in a namespace, each by its definition.
#[derive(Clone, Copy)]
pub struct AllLookups;

impl Lookups for AllLookups {
    fn declared(
        &self,
        alloc: Global,
        view: &View,
        at: ElementNo,
        name: &Name,
    ) -> Result<Gains<Hit>, NoMemory> {
        // A call tells what holds of all files.
        let _ = view.models.files();
        let gains = declared_hits(alloc, view, at, name)?;
        Ok(gains)
    }

    fn effective(
        &self,
        alloc: Global,
        view: &View,
        at: ElementNo,
        name: &Name,
    ) -> Result<Gains<Hit>, NoMemory> {
        let _ = view.models.files();
        let gains = effective_hits(alloc, view, at, name)?;
        Ok(gains)
    }

    fn inherited(
        &self,
        alloc: Global,
        view: &View,
        of: ElementNo,
        name: &Name,
        raw: bool,
    ) -> Result<Gains<Hit>, NoMemory> {
        let _ = view.models.files();
        let gains = inherited_hits(alloc, view, of, name, raw)?;
        Ok(gains)
    }

    fn imported(
        &self,
        alloc: Global,
        view: &View,
        import: ImportNo,
        name: &Name,
        excluded: ElementNo,
    ) -> Result<Gains<Hit>, NoMemory> {
        let _ = view.models.files();
        let gains = imported_hits(alloc, &OwnTiers, view, import, name, &[excluded])?;
        Ok(gains)
    }

    fn visible(
        &self,
        alloc: Global,
        view: &View,
        of: ElementNo,
        name: &Name,
    ) -> Result<Gains<Hit>, NoMemory> {
        let _ = view.models.files();
        let gains = visible_hits(alloc, &OwnTiers, view, of, name, &[], false, false)?;
        Ok(gains)
    }
}
