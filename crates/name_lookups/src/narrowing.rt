ghost use Rattle.std.specs.Prelude.{◌≡◌, ◌++◌, ◌||◌, List, IfOk, OnOk};
ghost use Rattle.linker_base.specs.Members.{IsMember};
ghost use Rattle.demand_core.specs.Search.{IsAsked};
ghost use Rattle.link_model.specs.Imports as imports;
ghost use Rattle.link_model.specs.Linking.{MemberStands};
ghost use Rattle.link_model.specs.Outside.{is_public};
ghost use Rattle.link_model.specs.Readers.{Lookup, only_if};
ghost use Rattle.link_model.specs.declared.keys.Hit.{Hit as OneHit};
ghost use Rattle.link_walk.specs.Calls.{files_of, read_by};
ghost use Rattle.link_walk.specs.Gained.{Gained};
ghost use Rattle.link_tiers.specs.Tiers.{AreFound};
ghost use Rattle.name_lookups.specs.Narrowed.{IsRegularLookup, MembersStand, narrowed_hit, narrowed_tier};

use element_store::Visibility;
use link_model::{Hit, View};
use link_walk::{Gains, Hits, model};
use linker_base::NoMemory;
use std::alloc::Global;

/// Whether a membership is shown: it is public, or all are.
fn is_shown(all: bool, visibility: Visibility) -> bool
    ensures { result ≡ (all || is_public visibility) }
{
    all || matches!(visibility, Visibility::Public)
}

fn push_if(shown: bool, hit: Hit, found: &mut Hits) -> Result<(), NoMemory>
    ensures { OnOk result (found.new ≡ found.old ++ only_if shown hit) }
{
    if shown {
        found.push(hit)?;
    }
    Ok(())
}

/// Takes a hit, if its member is shown.
fn take_shown(view: &View, all: bool, hit: Hit, gains: &mut Gains<Hit>) -> Result<(), NoMemory>
    requires stands { MemberStands (files_of view.now) hit.member }
    ensures { OnOk result (Gained (narrowed_hit all hit (read_by view.now)) gains.old gains.new) }
{
    let of = model(view, hit.member.file, &mut gains.notes)?;
    let shown = is_shown(all, of.member(hit.member.index).visibility);
    push_if(shown, hit, &mut gains.found)?;
    Ok(())
}

/// Takes those of the hits whose members are shown.
fn take_all_shown(
    view: &View,
    all: bool,
    hits: &[Hit],
    gains: &mut Gains<Hit>,
) -> Result<(), NoMemory>
    requires stand { MembersStand (files_of view.now) hits.now }
    ensures { OnOk result (Gained (imports.narrowed all hits.now (read_by view.now))
        gains.old gains.new) }
{
    for hit in hits {
        take_shown(view, all, *hit, gains)?;
    }
    Ok(())
}

/// Takes what a tier gave, narrowed to the members that are shown.
fn take_narrowed(
    view: &View,
    all: bool,
    tier: &Gains<Hit>,
    gains: &mut Gains<Hit>,
) -> Result<(), NoMemory>
    requires stand { AreFound (files_of view.now) tier.now }
    ensures { OnOk result ((c : Lookup (List OneHit)) → IsAsked tier.now (c (read_by view.now))
        → Gained (narrowed_tier all c (read_by view.now)) gains.old gains.new) }
{
    gains.notes.append(&tier.notes)?;
    let waiting = tier.notes.is_waiting();
    if waiting {
        return Ok(());
    }
    take_all_shown(view, all, tier.found.as_slice(), gains)?;
    Ok(())
}

/// What a tier gave, narrowed to the members that are shown.
pub(crate) fn narrowed(
    alloc: Global,
    view: &View,
    all: bool,
    tier: &Gains<Hit>,
) -> Result<Gains<Hit>, NoMemory>
    requires stand { AreFound (files_of view.now) tier.now }
    ensures { IfOk result (λ gains. (c : Lookup (List OneHit)) → IsRegularLookup c
        → IsAsked tier.now (c (read_by view.now))
        → IsAsked gains (narrowed_tier all c (read_by view.now))) }
{
    let mut gains = Gains::new(alloc);
    take_narrowed(view, all, tier, &mut gains)?;
    Ok(gains)
}
