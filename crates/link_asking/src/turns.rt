ghost use Rattle.std.specs.Prelude.{◌≡◌, ◌<◌, ◌++◌, [], length, get_or, IfOk};
ghost use Rattle.element_store.specs.BaseRules.{StandsIn};
ghost use Rattle.link_walk.specs.Calls.{files_of, HasLinks};
ghost use Rattle.link_tiers.specs.Picks.{picked_of};
ghost use Rattle.link_waits.specs.Ranks.{AreRanksOf};
ghost use Rattle.link_asking.specs.Courses.{Follows, Steps, StandsOn, PickStands, ended_turn};

use crate::hiding::hidden;
use element_store::{ElementNo, Name, Outcome};
use link_model::View;
use link_tiers::{Lookups, Picked, pick};
use link_waits::Ranks;
use link_walk::Notes;
use linker_base::NoMemory;
use std::alloc::Global;

/// What becomes of a search at one segment: it goes on from an element, or it ends.
#[derive(Drop)]
pub(crate) enum Turn {
    On(ElementNo),
    Ended(Outcome),
}

/// A name as it is written: the segments of a path, and then the steps of a chain.
#[derive(Clone, Copy)]
pub struct Written<'a> {
    pub path: &'a [Name],
    pub chain: &'a [Name],
}

impl<'a> Written<'a> {
    /// The segment or step of that place, counted from 0.
    pub(crate) fn name(&self, index: usize) -> &'a Name
        requires { index < length (self.now.path.now ++ self.now.chain.now) }
        ensures { result.now ≡ get_or (self.now.path.now ++ self.now.chain.now) index [] }
    {
        if index < self.path.len() {
            &self.path[index]
        } else {
            &self.chain[index - self.path.len()]
        }
    }
}

/// The end of a search, if it ended.
fn ended(outcome: Option<Outcome>) -> Option<Turn>
    ensures { result ≡ ended_turn outcome }
{
    match outcome {
        None => None,
        Some(outcome) => Some(Turn::Ended(outcome)),
    }
}

/// What follows what was picked for a later segment. None comes where the search waits.
fn follow<T: Lookups>(
    alloc: Global,
    lookups: &T,
    view: &View,
    ranks: &Ranks,
    at: ElementNo,
    name: &Name,
    number: u32,
    picked: Picked,
    notes: &mut Notes,
) -> Result<Option<Turn>, NoMemory>
    requires stands { StandsIn (files_of view.now) at }
    requires links { HasLinks view.now }
    requires ranks { AreRanksOf (files_of view.now) ranks.now }
    ensures turned { IfOk result (λ turn. Follows view.now number name.now at
        (picked_of picked) turn notes.old notes.new) }
    ensures stands { IfOk result (λ turn. PickStands (files_of view.now) picked
        → StandsOn (files_of view.now) turn) }
{
    match picked {
        Picked::Nothing => {
            let outcome = hidden(alloc, lookups, view, ranks, at, name, number, notes)?;
            Ok(ended(outcome))
        }
        Picked::One(element) => Ok(Some(Turn::On(element))),
        Picked::Several(first, second) => Ok(Some(Turn::Ended(Outcome::Ambiguous {
            segment: number,
            first,
            second,
        }))),
    }
}

/// One later segment: it is picked from what is visible in the element found before.
pub(crate) fn step<T: Lookups>(
    alloc: Global,
    lookups: &T,
    view: &View,
    ranks: &Ranks,
    at: ElementNo,
    name: &Name,
    number: u32,
    notes: &mut Notes,
) -> Result<Option<Turn>, NoMemory>
    requires stands { StandsIn (files_of view.now) at }
    requires links { HasLinks view.now }
    requires ranks { AreRanksOf (files_of view.now) ranks.now }
    ensures turned { IfOk result (λ turn. Steps view.now number name.now at turn
        notes.old notes.new) }
    ensures stands { IfOk result (StandsOn (files_of view.now)) }
{
    // A look at the files tells that no name stands twice among them.
    let _ = view.models.files();
    let gains = lookups.visible(alloc, view, at, name)?;
    notes.append(&gains.notes)?;
    if gains.notes.is_waiting() {
        return Ok(None);
    }
    let picked = pick(view, gains.found.as_slice(), notes)?;
    let taken = follow(alloc, lookups, view, ranks, at, name, number, picked, notes)?;
    Ok(taken)
}
