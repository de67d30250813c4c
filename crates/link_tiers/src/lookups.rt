ghost use Rattle.std.specs.Prelude.{[], ◌∷◌, false, IfOk};
ghost use Rattle.demand_core.specs.Search.{IsAsked};
ghost use Rattle.element_store.specs.BaseRules.{StandsIn};
ghost use Rattle.link_model.specs.Imports as imports;
ghost use Rattle.link_model.specs.Inheritance as inheritance;
ghost use Rattle.link_model.specs.Names as names;
ghost use Rattle.link_model.specs.Outside.{library_of};
ghost use Rattle.link_walk.specs.Calls.{files_of, read_by, HasLinks, ImportStands};
ghost use Rattle.link_tiers.specs.Tiers.{AreFound};

use element_store::{ElementNo, ImportNo, Name};
use link_model::{Hit, View};
use link_walk::Gains;
use linker_base::NoMemory;
use std::alloc::Global;

/// The lookups in one namespace on which tiers rest.
pub trait Lookups {
    /// The hits of the members that bear the name as a declared name.
    fn declared(
        &self,
        alloc: Global,
        view: &View,
        at: ElementNo,
        name: &Name,
    ) -> Result<Gains<Hit>, NoMemory>
        requires stands { StandsIn (files_of view.now) at }
        requires links { HasLinks view.now }
        ensures asked { IfOk result (λ gains. IsAsked gains
            (names.declared name.now at (read_by view.now))) }
        ensures found { IfOk result (AreFound (files_of view.now)) };

    /// The hits of the owned members whose element has no declared name and has this one.
    fn effective(
        &self,
        alloc: Global,
        view: &View,
        at: ElementNo,
        name: &Name,
    ) -> Result<Gains<Hit>, NoMemory>
        requires stands { StandsIn (files_of view.now) at }
        requires links { HasLinks view.now }
        ensures asked { IfOk result (λ gains. IsAsked gains
            (names.effective name.now at (read_by view.now))) }
        ensures found { IfOk result (AreFound (files_of view.now)) };

    /// What a type inherits under the name; with `raw` as if its own features redefined nothing.
    fn inherited(
        &self,
        alloc: Global,
        view: &View,
        of: ElementNo,
        name: &Name,
        raw: bool,
    ) -> Result<Gains<Hit>, NoMemory>
        requires stands { StandsIn (files_of view.now) of }
        requires links { HasLinks view.now }
        ensures asked { IfOk result (λ gains. IsAsked gains
            (inheritance.inherited (library_of (files_of view.now)) raw name.now of
            (read_by view.now))) }
        ensures found { IfOk result (AreFound (files_of view.now)) };

    /// What an import of a namespace brings under the name, where the namespace is excluded.
    fn imported(
        &self,
        alloc: Global,
        view: &View,
        import: ImportNo,
        name: &Name,
        excluded: ElementNo,
    ) -> Result<Gains<Hit>, NoMemory>
        requires stands { ImportStands (files_of view.now) import }
        requires links { HasLinks view.now }
        ensures asked { IfOk result (λ gains. IsAsked gains
            (imports.imported (library_of (files_of view.now)) name.now (excluded ∷ []) import
            (read_by view.now))) }
        ensures found { IfOk result (AreFound (files_of view.now)) };

    /// The members of a namespace that are visible under the name.
    fn visible(
        &self,
        alloc: Global,
        view: &View,
        of: ElementNo,
        name: &Name,
    ) -> Result<Gains<Hit>, NoMemory>
        requires stands { StandsIn (files_of view.now) of }
        requires links { HasLinks view.now }
        ensures asked { IfOk result (λ gains. IsAsked gains
            (imports.visible (library_of (files_of view.now)) name.now [] false false of
            (read_by view.now))) }
        ensures found { IfOk result (AreFound (files_of view.now)) };
}
