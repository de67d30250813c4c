ghost use Rattle.std.specs.Prelude.{◌≡◌, true, not, IfOk, OnOk, IfSome};
ghost use Rattle.element_store.specs.BaseRules.{StandsIn};
ghost use Rattle.link_model.specs.Keys as keys;
ghost use Rattle.link_model.specs.Keys.{same_element};
ghost use Rattle.link_walk.specs.Calls.{HasLinks};
ghost use Rattle.link_walk.specs.Marks.{marked};
ghost use Rattle.import_walk.specs.Deferred.{AllTasksStand};
ghost use Rattle.import_walk.specs.Plain.{EndsPlain, Visits, IsAlike};

use crate::hunt::{Hunt, Task};
use crate::tiers::Tiers;
use crate::visibility::{add_shown, is_in};
use element_store::{ElementNo, Name};
use link_model::{Hit, View};
use link_walk::{Gains, Marked};
use linker_base::NoMemory;
use std::alloc::Global;

/// What a task asks of its namespace.
#[derive(Clone, Copy)]
struct Mode {
    recursive: bool,
    all: bool,
}

/// What the last task asks for.
fn last_mode(tasks: &[Task]) -> Mode {
    match tasks.last() {
        Some(task) => Mode {
            recursive: task.recursive,
            all: task.all,
        },
        None => Mode {
            recursive: false,
            all: false,
        },
    }
}

/// Whether a task asks for just this.
fn asks(task: &Task, mode: Mode) -> bool
    ensures { result ≡ true → IsAlike mode task.now }
{
    task.recursive == mode.recursive && task.all == mode.all
}

/// Marks a namespace. True comes where it wasn't marked.
fn mark(marks: &mut Marked<ElementNo>, namespace: ElementNo) -> Result<bool, NoMemory>
    ensures marks { OnOk result (marks.new ≡ marked same_element marks.old namespace) }
    ensures fresh { IfOk result (λ fresh. fresh ≡ not (keys.is_in namespace marks.old)) }
{
    let before = marks.as_slice().len();
    marks.mark(namespace)?;
    Ok(marks.as_slice().len() > before)
}

/// Looks up a task whose namespace is neither excluded nor marked, and marks the namespace.
fn visit<T: Tiers>(
    alloc: Global,
    tiers: &T,
    view: &View,
    name: &Name,
    excluded: &[ElementNo],
    task: &Task,
    marks: &mut Marked<ElementNo>,
    hunt: &mut Hunt,
) -> Result<(), NoMemory>
    requires stands { StandsIn view.now.models.now task.now.namespace }
    requires links { HasLinks view.now }
    ensures { OnOk result (Visits view.now name.now excluded.now task.now
        marks.old marks.new hunt.old hunt.new) }
{
    let known = is_in(task.namespace, excluded);
    if known {
        return Ok(());
    }
    let fresh = mark(marks, task.namespace)?;
    if fresh {
        add_shown(alloc, tiers, view, name, [].as_slice(), task, hunt)?;
    }
    Ok(())
}

/// Looks up tasks until none is left, each namespace once. None comes where not all of them ask alike:
/// then what is excluded on the way to a namespace counts.
pub(crate) fn run_plain<T: Tiers>(
    alloc: Global,
    tiers: &T,
    view: &View,
    name: &Name,
    excluded: &[ElementNo],
    mut hunt: Hunt,
) -> Result<Option<Gains<Hit>>, NoMemory>
    requires stand { AllTasksStand view.now.models.now hunt.nodes }
    requires links { HasLinks view.now }
    ensures { IfOk result (λ gains. IfSome gains
        (EndsPlain view.now name.now excluded.now hunt)) }
{
    // A call tells what holds of all files.
    let _ = view.models.files();
    let mode = last_mode(hunt.tasks.as_slice());
    let mut marks = Marked::new(alloc);
    while let Some(task) = hunt.tasks.pop() {
        let alike = asks(&task, mode);
        if !alike {
            return Ok(None);
        }
        visit(
            alloc, tiers, view, name, excluded, &task, &mut marks, &mut hunt,
        )?;
    }
    Ok(Some(Gains {
        found: hunt.found,
        notes: hunt.notes,
    }))
}
