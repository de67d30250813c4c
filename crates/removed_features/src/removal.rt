ghost use Rattle.std.specs.Prelude.{◌≡◌, ◌&&◌, ◌||◌, not, List, [], ◌∷◌, ◌++◌, map, IfOk, OnOk};
ghost use Rattle.linker_base.specs.Members.{IsMember};
ghost use Rattle.demand_core.specs.Computation.{joined};
ghost use Rattle.demand_core.specs.Search.{IsAsked};
ghost use Rattle.element_store.specs.BaseRules.{StandsIn};
ghost use Rattle.element_store.specs.declared.numbers.ElementNo.{ElementNo as Number};
ghost use Rattle.link_model.specs.Inheritance as inheritance;
ghost use Rattle.link_model.specs.Keys.{is_in};
ghost use Rattle.link_model.specs.Readers.{only_if};
ghost use Rattle.link_walk.specs.Calls.{files_of, read_by, HasLinks};
ghost use Rattle.link_walk.specs.Gained.{Gained};
ghost use Rattle.removed_features.specs.Stages.{removing_of, gone, given_gone, features_among};
ghost use Rattle.feature_facts.specs.Stages.{as_candidate};
ghost use Rattle.feature_facts.specs.Known.{HasAnswer};
ghost use Rattle.removed_features.specs.Known.{AreRemoved, AddsRedefined, is_own_in};
ghost use Rattle.feature_facts.specs.declared.heir.Candidate.{Candidate as Given};

use element_store::ElementNo;
use feature_facts::{Candidate, ElementSet, Heir, is_same, redefined_by_all};
use link_walk::{Gains, Notes, element};
use linker_base::{Listing, NoMemory};

/// Whether the type owns the element whose owner stands there.
fn is_owned_by(of: ElementNo, e: ElementNo, owner: Option<u32>) -> bool
    ensures { result ≡ inheritance.is_owned_by of e owner }
{
    match owner {
        None => false,
        Some(index) => is_same(
            ElementNo {
                file: e.file,
                index,
            },
            of,
        ),
    }
}

/// Whether an element is a feature of the type that is taken to redefine nothing.
fn is_own(heir: &Heir, e: ElementNo, owner: Option<u32>) -> bool
    ensures { result ≡ (heir.now.raw && inheritance.is_owned_by heir.now.of e owner) }
{
    heir.raw && is_owned_by(heir.of, e, owner)
}

fn push_unless(own: bool, e: ElementNo, found: &mut Listing<ElementNo>) -> Result<(), NoMemory>
    ensures { OnOk result (found.new ≡ found.old ++ only_if (not own) e) }
{
    if !own {
        found.push(e)?;
    }
    Ok(())
}

/// Takes an element whose redefinitions remove others. One that is taken to redefine nothing is looked
/// at alone.
fn take_removing(heir: &Heir, e: ElementNo, gains: &mut Gains<ElementNo>) -> Result<(), NoMemory>
    requires stands { StandsIn (files_of heir.now.view.now) e }
    ensures { OnOk result (Gained
        (removing_of heir.now.raw heir.now.of e (read_by heir.now.view.now))
        gains.old gains.new) }
{
    let x = element(heir.view, e, &mut gains.notes)?;
    let own = is_own(heir, e, x.owner);
    push_unless(own, e, &mut gains.found)?;
    Ok(())
}

/// The elements of candidates whose redefinitions remove others.
fn removing(heir: &Heir, candidates: &[Candidate]) -> Result<Gains<ElementNo>, NoMemory>
    requires stand { (c : Given) → IsMember candidates.now c
        → StandsIn (files_of heir.now.view.now) c.hit.element }
    ensures { IfOk result (λ gains. IsAsked gains
        (joined (given_gone heir.now.raw heir.now.of) candidates.now
        (read_by heir.now.view.now))) }
{
    let mut gains = Gains::new(heir.alloc);
    for candidate in candidates {
        take_removing(heir, candidate.hit.element, &mut gains)?;
    }
    Ok(gains)
}

/// Stage three, second part: the waits and looks of what the candidates' elements redefine on the way,
/// asked by one search.
pub fn removal_notes(heir: &Heir, candidates: &[Candidate]) -> Result<Notes, NoMemory>
    requires stand { (c : Given) → IsMember candidates.now c
        → StandsIn (files_of heir.now.view.now) c.hit.element }
    requires links { HasLinks heir.now.view.now }
    ensures { IfOk result (HasAnswer
        (gone heir.now.raw heir.now.of (map as_candidate candidates.now))
        (read_by heir.now.view.now)) }
{
    let _ = heir.view.models.files();
    let mut own = removing(heir, candidates)?;
    let all = redefined_by_all(heir.alloc, heir.view, own.found.as_slice())?;
    own.notes.append(&all.notes)?;
    Ok(own.notes)
}

fn add_if(test: bool, e: ElementNo, set: &mut ElementSet) -> Result<(), NoMemory>
    ensures { OnOk result ((g : Number) → is_in g set.new ≡ is_in g (only_if test e ++ set.old)) }
{
    if test {
        set.add(e)?;
    }
    Ok(())
}

/// Adds those of these elements that are features.
fn add_features(heir: &Heir, elements: &[ElementNo], set: &mut ElementSet) -> Result<(), NoMemory>
    requires stand { (e : Number) → IsMember elements.now e
        → StandsIn (files_of heir.now.view.now) e }
    ensures { OnOk result ((g : Number) → is_in g set.new ≡
        (is_in g set.old || is_in g (features_among (files_of heir.now.view.now) elements.now))) }
{
    let mut notes = Notes::new(heir.alloc);
    for e in elements {
        let is_feature = element(heir.view, *e, &mut notes)?.kind.is_feature();
        add_if(is_feature, *e, set)?;
    }
    Ok(())
}

/// Whether the element is a feature of the type that is taken to redefine nothing. What is read for it
/// was noted before.
fn redefines_nothing(heir: &Heir, e: ElementNo) -> Result<bool, NoMemory>
    requires stands { StandsIn (files_of heir.now.view.now) e }
    ensures { IfOk result (λ own. own ≡ is_own_in heir.now e) }
{
    let mut notes = Notes::new(heir.alloc);
    let x = element(heir.view, e, &mut notes)?;
    let own = is_own(heir, e, x.owner);
    Ok(own)
}

/// What one element redefines, directly or on the way.
fn redefined_by_one(heir: &Heir, e: ElementNo) -> Result<Gains<ElementNo>, NoMemory>
    requires stands { StandsIn (files_of heir.now.view.now) e }
    requires links { HasLinks heir.now.view.now }
    ensures { IfOk result (λ gains. IsAsked gains
        (inheritance.all_redefined e (read_by heir.now.view.now))) }
{
    let all = redefined_by_all(heir.alloc, heir.view, [e].as_slice())?;
    Ok(all)
}

/// Adds the features that the element redefines on the way. What is read for it was noted before.
fn add_redefined(heir: &Heir, e: ElementNo, set: &mut ElementSet) -> Result<(), NoMemory>
    requires stands { StandsIn (files_of heir.now.view.now) e }
    requires links { HasLinks heir.now.view.now }
    ensures { OnOk result (AddsRedefined heir.now e set.old set.new) }
{
    let _ = heir.view.models.files();
    let all = redefined_by_one(heir, e)?;
    let waiting = all.notes.is_waiting();
    if waiting {
        return Ok(());
    }
    add_features(heir, all.found.as_slice(), set)?;
    Ok(())
}

/// The element, and the features that it redefines on the way.
pub fn removed(heir: &Heir, e: ElementNo) -> Result<ElementSet, NoMemory>
    requires stands { StandsIn (files_of heir.now.view.now) e }
    requires links { HasLinks heir.now.view.now }
    ensures { IfOk result (AreRemoved heir.now e) }
{
    let _ = heir.view.models.files();
    let mut set = ElementSet::new(heir.alloc);
    set.add(e)?;
    let own = redefines_nothing(heir, e)?;
    if own {
        return Ok(set);
    }
    add_redefined(heir, e, &mut set)?;
    Ok(set)
}
