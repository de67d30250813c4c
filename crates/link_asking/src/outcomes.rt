ghost use Rattle.std.specs.Prelude.{◌≡◌, ◌-◌, drop, IfOk};
ghost use Rattle.link_model.specs.Asking as asking;
ghost use Rattle.link_asking.specs.Courses.{course_of, outcome_if};

use crate::course::Course;
use element_store::{ElementNo, Elements, Outcome};
use linker_base::NoMemory;
use std::alloc::Global;

/// The linked outcome of the elements from that place on, the first of which is that of the path's
/// last segment: the last one, and those before it as steps.
fn linked(alloc: Global, elements: &[ElementNo], from: usize) -> Result<Outcome, NoMemory>
    ensures { IfOk result (λ outcome. outcome ≡ asking.linked (drop from elements.now)) }
{
    if from >= elements.len() {
        return Ok(Outcome::Absent { segment: 1 });
    }
    let mut steps = Elements::new(alloc);
    let mut element = elements[from];
    let mut at = from + 1;
    while at < elements.len() {
        steps.push(element)?;
        element = elements[at];
        at += 1;
    }
    Ok(Outcome::Linked { steps, element })
}

/// The outcome of a course, for a path of so many segments.
fn outcome(alloc: Global, course: Course, segments: usize) -> Result<Outcome, NoMemory>
    ensures { IfOk result (λ outcome. outcome ≡ asking.outcome_of segments (course_of course)) }
{
    match course {
        Course::Ended(outcome) => Ok(outcome),
        Course::Reached(elements) => {
            let from = segments.saturating_sub(1);
            let outcome = linked(alloc, elements.as_slice(), from)?;
            Ok(outcome)
        }
    }
}

/// The outcome of a course, if there is one.
pub(crate) fn outcome_if(
    alloc: Global,
    course: Option<Course>,
    segments: usize,
) -> Result<Option<Outcome>, NoMemory>
    ensures { IfOk result (λ outcome. outcome ≡ outcome_if segments course) }
{
    match course {
        None => Ok(None),
        Some(course) => {
            let outcome = outcome(alloc, course, segments)?;
            Ok(Some(outcome))
        }
    }
}
