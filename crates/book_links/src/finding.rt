ghost use Rattle.std.specs.Prelude.{◌≡◌, ◌<◌, IfOk, length};
ghost use Rattle.book_model.specs.Outcomes.{found_of, linked_world};
ghost use Rattle.implied_rules.specs.Implied.{AreImplied, AreStanding};
ghost use Rattle.kept_links.specs.Kept.{AreSettled};
ghost use Rattle.root_names.specs.Roots.{AreRootsOf};

use element_store::{Models, Outcome, Segments};
use implied_rules::{ImpliedRows, implied};
use kept_links::KeptLinks;
use link_waits::Ranks;
use linker_base::NoMemory;
use name_lookups::AllLookups;
use name_resolution::{LinkRules, QualifiedName, find};
use root_names::RootNames;
use std::alloc::Global;

/// What a qualified name finds from outside, over the settled links of these files.
pub(crate) fn found(
    alloc: Global,
    models: &Models,
    roots: &RootNames,
    kept: &KeptLinks,
    path: Segments,
) -> Result<Outcome, NoMemory>
    requires roots { AreRootsOf models.now roots.now }
    requires settled { AreSettled models.now kept.now }
    requires some { 0 < length path }
    requires few { length path < 4294967296 }
    ensures { IfOk result (λ outcome. outcome ≡ found_of models.now path) }
{
    // A look at the models tells what holds of all files.
    let _ = models.files();
    let ranks = Ranks::of(alloc, models)?;
    let rules = LinkRules {
        models,
        roots,
        ranks: &ranks,
        lookups: &AllLookups,
    };
    let name = QualifiedName { path };
    let outcome = find(alloc, &rules, kept.table(), &name)?;
    Ok(outcome)
}

/// The implied specialisations over settled links.
pub(crate) fn implied_over(
    alloc: Global,
    models: &Models,
    kept: &KeptLinks,
) -> Result<ImpliedRows, NoMemory>
    requires { AreSettled models.now kept.now }
    ensures rows { IfOk result (AreImplied models.now (linked_world models.now)) }
    ensures live { IfOk result (AreStanding models.now) }
{
    // A look at the models tells what holds of all files.
    let _ = models.files();
    implied(alloc, models, kept.table())
}
