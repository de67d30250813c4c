ghost use Rattle.std.specs.Prelude.{◌≡◌, ◌<◌, ◌∷◌, [], length, drop, IfOk};
ghost use Rattle.element_store.specs.BaseRules.{StandsIn};
ghost use Rattle.link_walk.specs.Calls.{files_of, HasLinks};
ghost use Rattle.link_tiers.specs.Tiers.{AreFound};
ghost use Rattle.link_waits.specs.Ranks.{AreRanksOf};
ghost use Rattle.link_asking.specs.Courses.{names_of, first_turn, onward, course_with, course_at};
ghost use Rattle.link_asking.specs.Courses.{StandsOn, Begins, GoesOn, RunsAlong};

use crate::course::Course;
use crate::turns::{Turn, Written, step};
use element_store::{ElementNo, Elements, Outcome};
use link_model::{Hit, View};
use link_tiers::{Lookups, Picked, pick};
use link_waits::Ranks;
use link_walk::{Gains, Notes};
use linker_base::NoMemory;
use std::alloc::Global;

/// What follows what was picked for the first segment.
fn first_turn(picked: Picked) -> Turn
    ensures { result ≡ first_turn picked }
{
    match picked {
        Picked::Nothing => Turn::Ended(Outcome::Absent { segment: 1 }),
        Picked::One(element) => Turn::On(element),
        Picked::Several(first, second) => Turn::Ended(Outcome::Ambiguous {
            segment: 1,
            first,
            second,
        }),
    }
}

/// The first segment: it is picked from what the first tier gave that isn't empty.
fn begin(view: &View, tier: &Gains<Hit>, notes: &mut Notes) -> Result<Option<Turn>, NoMemory>
    requires found { AreFound (files_of view.now) tier.now }
    ensures turned { IfOk result (λ turn. Begins view.now tier.now turn notes.old notes.new) }
    ensures stands { IfOk result (StandsOn (files_of view.now)) }
{
    // A look at the files tells that no name stands twice among them.
    let _ = view.models.files();
    notes.append(&tier.notes)?;
    if tier.notes.is_waiting() {
        return Ok(None);
    }
    let picked = pick(view, tier.found.as_slice(), notes)?;
    Ok(Some(first_turn(picked)))
}

/// The element from which the search goes on, if it does.
fn onward(turn: &Option<Turn>) -> Option<ElementNo>
    ensures { result ≡ onward turn.now }
{
    match turn {
        Some(Turn::On(element)) => Some(*element),
        _ => None,
    }
}

/// Finds the segments and steps behind the first one, from the element that it found. Adds what is found
/// at each. The last turn is given; None comes where the search waits.
fn go_on<T: Lookups>(
    alloc: Global,
    lookups: &T,
    view: &View,
    ranks: &Ranks,
    written: &Written,
    from: ElementNo,
    found: &mut Elements,
    notes: &mut Notes,
) -> Result<Option<Turn>, NoMemory>
    requires stands { StandsIn (files_of view.now) from }
    requires links { HasLinks view.now }
    requires ranks { AreRanksOf (files_of view.now) ranks.now }
    requires few { length (names_of written.now.path.now written.now.chain.now) < 4294967296 }
    ensures { IfOk result (λ turn. GoesOn view.now
        (drop 1 (names_of written.now.path.now written.now.chain.now)) from found.old
        (course_at turn found.new) notes.old notes.new) }
{
    let mut at = from;
    let mut number = 1;
    let count = (written.path.len() + written.chain.len()) as u32;
    while number < count {
        let name = written.name(number as usize);
        number += 1;
        let turn = step(alloc, lookups, view, ranks, at, name, number, notes)?;
        let Some(element) = onward(&turn) else {
            return Ok(turn);
        };
        found.push(element)?;
        at = element;
    }
    Ok(Some(Turn::On(at)))
}

/// The course of a search whose last turn this is, and that found these elements.
fn course_with(turn: Turn, found: Elements) -> Course
    ensures { result ≡ course_with turn found }
{
    match turn {
        Turn::On(_) => Course::Reached(found),
        Turn::Ended(outcome) => Course::Ended(outcome),
    }
}

/// The same, where the search doesn't wait.
fn course_at(turn: Option<Turn>, found: Elements) -> Option<Course>
    ensures { result ≡ course_at turn found }
{
    match turn {
        None => None,
        Some(turn) => Some(course_with(turn, found)),
    }
}

/// The segments and steps behind the first one, from the element that it found.
fn later<T: Lookups>(
    alloc: Global,
    lookups: &T,
    view: &View,
    ranks: &Ranks,
    written: &Written,
    from: ElementNo,
    notes: &mut Notes,
) -> Result<Option<Course>, NoMemory>
    requires stands { StandsIn (files_of view.now) from }
    requires links { HasLinks view.now }
    requires ranks { AreRanksOf (files_of view.now) ranks.now }
    requires few { length (names_of written.now.path.now written.now.chain.now) < 4294967296 }
    ensures { IfOk result (λ course. GoesOn view.now
        (drop 1 (names_of written.now.path.now written.now.chain.now)) from (from ∷ []) course
        notes.old notes.new) }
{
    let mut found = Elements::new(alloc);
    found.push(from)?;
    let turn = go_on(
        alloc, lookups, view, ranks, written, from, &mut found, notes,
    )?;
    Ok(course_at(turn, found))
}

/// A whole name, whose first segment is picked from what the first tier gave that isn't empty. None
/// comes where it waits.
pub(crate) fn along<T: Lookups>(
    alloc: Global,
    lookups: &T,
    view: &View,
    ranks: &Ranks,
    tier: &Gains<Hit>,
    written: &Written,
    notes: &mut Notes,
) -> Result<Option<Course>, NoMemory>
    requires found { AreFound (files_of view.now) tier.now }
    requires links { HasLinks view.now }
    requires ranks { AreRanksOf (files_of view.now) ranks.now }
    requires few { length (names_of written.now.path.now written.now.chain.now) < 4294967296 }
    ensures { IfOk result (λ course. RunsAlong view.now tier.now
        (drop 1 (names_of written.now.path.now written.now.chain.now)) course
        notes.old notes.new) }
{
    let turn = begin(view, tier, notes)?;
    let Some(element) = onward(&turn) else {
        return Ok(course_at(turn, Elements::new(alloc)));
    };
    let course = later(alloc, lookups, view, ranks, written, element, notes)?;
    Ok(course)
}
