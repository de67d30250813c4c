ghost use Rattle.std.specs.Prelude.{◌≡◌, ◌++◌, ◌||◌, not, map, IfOk, OnOk};
ghost use Rattle.linker_base.specs.Members.{IsMember};
ghost use Rattle.demand_core.specs.Computation.{joined};
ghost use Rattle.element_store.specs.BaseRules.{StandsIn};
ghost use Rattle.element_store.specs.declared.numbers.ElementNo.{ElementNo as Number};
ghost use Rattle.link_model.specs.Readers.{is_nil, only_if};
ghost use Rattle.link_walk.specs.Calls.{files_of, read_by, HasLinks};
ghost use Rattle.link_walk.specs.Gained.{Gained};
ghost use Rattle.inherited_names.specs.Stages.{after_reached, conditions, decided};
ghost use Rattle.feature_facts.specs.Stages.{as_candidate};
ghost use Rattle.member_candidates.specs.Stages.{candidates_in};
ghost use Rattle.inherited_names.specs.Known.{IsSettled, SeesElsewhere, reachable, staying};
ghost use Rattle.feature_facts.specs.Known.{files_for, library_for, world_of};
ghost use Rattle.feature_facts.specs.declared.heir.Candidate.{Candidate as Given};

use crate::open_types::{blocking, open_types};
use element_store::{ElementNo, Name};
use feature_facts::{Candidate, Facts, Heir};
use known_facts::ask_facts;
use link_model::Hit;
use link_walk::{Gains, Hits, Notes, is_among};
use linker_base::NoMemory;
use member_candidates::candidates;
use removed_features::{Visible, is_elsewhere, removal_notes, removed, see_features};

/// What is known where nothing of stage three waits.
#[derive(Clone, Copy)]
pub(crate) struct Stage<'a> {
    pub(crate) heir: &'a Heir<'a>,
    pub(crate) types: &'a [ElementNo],
    pub(crate) candidates: &'a [Candidate],
    pub(crate) facts: &'a Facts,
}

fn push_hit(stays: bool, hit: Hit, found: &mut Hits) -> Result<(), NoMemory>
    ensures { OnOk result (found.new ≡ found.old ++ only_if stays hit) }
{
    if stays {
        found.push(hit)?;
    }
    Ok(())
}

/// Takes a candidate, if its owner is reached by a chain of types that don't block.
fn take_reachable(
    stage: &Stage,
    candidate: Candidate,
    gains: &mut Gains<Hit>,
) -> Result<(), NoMemory>
    requires settled { IsSettled stage.now }
    requires among { IsMember stage.now.candidates.now candidate }
    ensures { OnOk result (Gained
        (reachable stage.now candidate (world_of stage.now.heir.now)) gains.old gains.new) }
{
    let heir = stage.heir;
    let gone = removed(heir, candidate.hit.element)?;
    let blockers = blocking(heir.alloc, stage.facts.directs.as_slice(), &gone)?;
    let ways = open_types(heir, &blockers)?;
    gains.notes.append(&ways.notes)?;
    let waiting = ways.notes.is_waiting();
    if waiting {
        return Ok(());
    }
    let stays = is_among(candidate.owner, ways.found.as_slice());
    push_hit(stays, candidate.hit, &mut gains.found)?;
    Ok(())
}

/// Takes a candidate, if no other feature redefines its element and its owner is reached so.
fn take_staying(
    stage: &Stage,
    visible: &Visible,
    candidate: Candidate,
    gains: &mut Gains<Hit>,
) -> Result<(), NoMemory>
    requires settled { IsSettled stage.now }
    requires described { SeesElsewhere stage.now visible.now }
    requires among { IsMember stage.now.candidates.now candidate }
    ensures { OnOk result (Gained
        (staying stage.now candidate (world_of stage.now.heir.now)) gains.old gains.new) }
{
    let away = is_elsewhere(stage.heir, visible, candidate.hit.element)?;
    if away {
        return Ok(());
    }
    take_reachable(stage, candidate, gains)?;
    Ok(())
}

/// Takes the candidates that stay.
fn take_all_staying(
    stage: &Stage,
    visible: &Visible,
    gains: &mut Gains<Hit>,
) -> Result<(), NoMemory>
    requires settled { IsSettled stage.now }
    requires described { SeesElsewhere stage.now visible.now }
    ensures { OnOk result (Gained
        (joined (staying stage.now) stage.now.candidates.now (world_of stage.now.heir.now))
        gains.old gains.new) }
{
    for candidate in stage.candidates {
        take_staying(stage, visible, *candidate, gains)?;
    }
    Ok(())
}

/// Whether one of two askings waits.
fn either_waits(one: &Notes, other: &Notes) -> bool
    ensures { result ≡ (not (is_nil one.now.waits) || not (is_nil other.now.waits)) }
{
    one.is_waiting() || other.is_waiting()
}

/// Stage three and the conditions, where there are candidates.
fn take_decided(
    heir: &Heir,
    types: &[ElementNo],
    candidates: &[Candidate],
    gains: &mut Gains<Hit>,
) -> Result<(), NoMemory>
    requires own { StandsIn (files_for heir.now) heir.now.of }
    requires types { (e : Number) → IsMember types.now e → StandsIn (files_for heir.now) e }
    requires stand { (c : Given) → IsMember candidates.now c
        → StandsIn (files_for heir.now) c.hit.element }
    requires links { HasLinks heir.now.view.now }
    ensures { OnOk result (Gained
        (decided (library_for heir.now) heir.now.raw heir.now.of types.now
        (map as_candidate candidates.now) (world_of heir.now)) gains.old gains.new) }
{
    let known = ask_facts(heir, types)?;
    gains.notes.append(&known.notes)?;
    let gone = removal_notes(heir, candidates)?;
    gains.notes.append(&gone)?;
    let waiting = either_waits(&known.notes, &gone);
    if waiting {
        return Ok(());
    }
    let seen = see_features(heir, types, &known)?;
    let stage = Stage {
        heir,
        types,
        candidates,
        facts: &known,
    };
    take_all_staying(&stage, &seen, gains)?;
    Ok(())
}

/// Whether there are no candidates.
fn is_none(candidates: &[Candidate]) -> bool
    ensures { result ≡ is_nil (map as_candidate candidates.now) }
{
    candidates.is_empty()
}

/// Stage three and the conditions.
fn take_conditions(
    heir: &Heir,
    types: &[ElementNo],
    candidates: &[Candidate],
    gains: &mut Gains<Hit>,
) -> Result<(), NoMemory>
    requires own { StandsIn (files_for heir.now) heir.now.of }
    requires types { (e : Number) → IsMember types.now e → StandsIn (files_for heir.now) e }
    requires stand { (c : Given) → IsMember candidates.now c
        → StandsIn (files_for heir.now) c.hit.element }
    requires links { HasLinks heir.now.view.now }
    ensures { OnOk result (Gained
        (conditions (library_for heir.now) heir.now.raw heir.now.of types.now
        (map as_candidate candidates.now) (world_of heir.now)) gains.old gains.new) }
{
    let none = is_none(candidates);
    if none {
        return Ok(());
    }
    take_decided(heir, types, candidates, gains)?;
    Ok(())
}

/// The stages after the types are reached.
pub(crate) fn take_after(
    heir: &Heir,
    name: &Name,
    types: &[ElementNo],
    gains: &mut Gains<Hit>,
) -> Result<(), NoMemory>
    requires own { StandsIn (files_for heir.now) heir.now.of }
    requires types { (e : Number) → IsMember types.now e → StandsIn (files_for heir.now) e }
    requires links { HasLinks heir.now.view.now }
    ensures { OnOk result (Gained
        (after_reached (library_for heir.now) heir.now.raw name.now heir.now.of types.now
        (world_of heir.now)) gains.old gains.new) }
{
    let _ = heir.view.models.files();
    let given = candidates(heir, name, types)?;
    gains.notes.append(&given.notes)?;
    let waiting = given.notes.is_waiting();
    if waiting {
        return Ok(());
    }
    take_conditions(heir, types, given.found.as_slice(), gains)?;
    Ok(())
}
