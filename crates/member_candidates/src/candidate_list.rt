ghost use Rattle.std.specs.Prelude.{◌≡◌, ◌++◌, map, IfOk, OnOk};
ghost use Rattle.linker_base.specs.Members.{IsMember};
ghost use Rattle.demand_core.specs.Search.{IsAsked};
ghost use Rattle.element_store.specs.BaseRules.{StandsIn};
ghost use Rattle.element_store.specs.declared.numbers.ElementNo.{ElementNo as Number};
ghost use Rattle.link_model.specs.Inheritance as inheritance;
ghost use Rattle.link_walk.specs.Calls.{files_of, read_by, HasLinks};
ghost use Rattle.link_walk.specs.Gained.{Gained};
ghost use Rattle.member_candidates.specs.Stages.{candidate_at, candidate_stage, candidates_in};

use crate::open_members::open_hits;
use element_store::{ElementNo, Name};
use feature_facts::{Candidate, Heir, is_same};
use link_model::Hit;
use link_walk::Gains;
use linker_base::{Listing, NoMemory};

/// Adds each hit as a candidate of this owner.
fn push_candidates(
    owner: ElementNo,
    hits: &[Hit],
    found: &mut Listing<Candidate>,
) -> Result<(), NoMemory>
    ensures { OnOk result (found.new ≡ found.old ++ map (candidate_at owner) hits.now) }
{
    for hit in hits {
        found.push(Candidate { owner, hit: *hit })?;
    }
    Ok(())
}

/// Takes the candidates of a type that is reached. The type that inherits has none.
fn take_candidates(
    heir: &Heir,
    owner: ElementNo,
    name: &Name,
    gains: &mut Gains<Candidate>,
) -> Result<(), NoMemory>
    requires stands { StandsIn (files_of heir.now.view.now) owner }
    requires links { HasLinks heir.now.view.now }
    ensures { OnOk result (Gained
        (candidate_stage name.now heir.now.of owner (read_by heir.now.view.now))
        (candidates_in gains.old) (candidates_in gains.new)) }
{
    let _ = heir.view.models.files();
    let itself = is_same(owner, heir.of);
    if itself {
        return Ok(());
    }
    let hits = open_hits(heir.alloc, heir.view, owner, name)?;
    push_candidates(owner, hits.found.as_slice(), &mut gains.found)?;
    gains.notes.append(&hits.notes)?;
    Ok(())
}

/// Stage two: the candidates of the types that are reached.
pub fn candidates(
    heir: &Heir,
    name: &Name,
    types: &[ElementNo],
) -> Result<Gains<Candidate>, NoMemory>
    requires stand { (e : Number) → IsMember types.now e
        → StandsIn (files_of heir.now.view.now) e }
    requires links { HasLinks heir.now.view.now }
    ensures { IfOk result (λ gains. IsAsked (candidates_in gains)
        (inheritance.candidates name.now heir.now.of types.now (read_by heir.now.view.now))) }
{
    let mut gains = Gains::new(heir.alloc);
    for owner in types {
        take_candidates(heir, *owner, name, &mut gains)?;
    }
    Ok(gains)
}
