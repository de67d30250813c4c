ghost use Rattle.std.specs.Prelude.{◌≡◌, OnOk};
ghost use Rattle.kept_links.specs.Kept.{AreKept, AreSettled};
ghost use Rattle.root_names.specs.Roots.{AreRootsOf};

use demand_core::{Counted, Steps};
use element_store::Models;
use kept_links::KeptLinks;
use link_waits::Ranks;
use linker_base::NoMemory;
use name_lookups::AllLookups;
use name_resolution::LinkRules;
use root_names::RootNames;
use std::alloc::Global;

/// Decides what is pending among the links of these files.
pub(crate) fn settle(
    alloc: Global,
    models: &Models,
    roots: &RootNames,
    kept: &mut KeptLinks,
) -> Result<(), NoMemory>
    requires roots { AreRootsOf models.now roots.now }
    requires kept { AreKept models.now kept.old }
    ensures { OnOk result (AreSettled models.now kept.new) }
{
    // A look at the models tells what holds of all files.
    let _ = models.files();
    let ranks = Ranks::of(alloc, models)?;
    let rules = LinkRules {
        models,
        roots,
        ranks: &ranks,
        lookups: &AllLookups,
    };
    let mut steps = Steps::new(Counted::new());
    kept.settle(alloc, models, &rules, &mut steps)?;
    Ok(())
}
