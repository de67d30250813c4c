ghost use Rattle.std.specs.Prelude.{◌≡◌, IfOk};

use element_store::{Elements, Outcome};
use linker_base::NoMemory;
use std::alloc::Global;

/// An equal list of elements.
fn copied_elements(alloc: Global, elements: &Elements) -> Result<Elements, NoMemory>
    ensures { IfOk result (λ copy. copy ≡ elements.now) }
{
    let mut copy = Elements::new(alloc);
    for element in elements.as_slice() {
        copy.push(*element)?;
    }
    Ok(copy)
}

/// An equal outcome.
pub fn copied(alloc: Global, outcome: &Outcome) -> Result<Outcome, NoMemory>
    ensures { IfOk result (λ copy. copy ≡ outcome.now) }
{
    match outcome {
        Outcome::Linked { steps, element } => {
            let steps = copied_elements(alloc, steps)?;
            Ok(Outcome::Linked {
                steps,
                element: *element,
            })
        }
        Outcome::Absent { segment } => Ok(Outcome::Absent { segment: *segment }),
        Outcome::Ambiguous {
            segment,
            first,
            second,
        } => Ok(Outcome::Ambiguous {
            segment: *segment,
            first: *first,
            second: *second,
        }),
        Outcome::Hidden { segment, member } => Ok(Outcome::Hidden {
            segment: *segment,
            member: *member,
        }),
        Outcome::Cyclic { on } => Ok(Outcome::Cyclic { on: *on }),
    }
}
