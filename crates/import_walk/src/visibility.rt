ghost use Rattle.std.specs.Prelude.{◌≡◌, ◌<◌, ◌≤◌, ◌^◌, ◌||◌, ◌∷◌, ◌++◌, [], ℕ, List, Some};
ghost use Rattle.std.specs.Prelude.{not, cond, true, length, IfOk, OnOk, slice_get};
ghost use Rattle.std.specs.List.{All};
ghost use Rattle.demand_core.specs.Computation.{IsSound, done, joined};
ghost use Rattle.demand_core.specs.Search.{IsAsked};
ghost use Rattle.element_store.specs.declared.models.StoredFile.{StoredFile};
ghost use Rattle.element_store.specs.BaseRules.{StandsIn, model_of};
ghost use Rattle.element_store.specs.Model.{member_number, members_in};
ghost use Rattle.link_model.specs.Imports as imports;
ghost use Rattle.link_model.specs.Keys as keys;
ghost use Rattle.link_model.specs.Outside.{library_of, is_public, Library};
ghost use Rattle.link_model.specs.Readers.{LinkWorld, is_nil};
ghost use Rattle.link_walk.specs.Calls.{files_of, read_by, HasLinks, ImportStands};
ghost use Rattle.link_walk.specs.Calls.{ReferenceStands};
ghost use Rattle.import_walk.specs.Deferred.{AllTasksStand, DefersIn, DefersWhere};
ghost use Rattle.import_walk.specs.Deferred.{EndsHunt, GivesTask, HasThere, lib_of};
ghost use Rattle.import_walk.specs.Deferred.{again_from, import_at, shown_import, shown_imports};
ghost use Rattle.import_walk.specs.Deferred.{inside_if, tiers_then, owned_part, imports_at, members_at};
ghost use Rattle.import_walk.specs.Deferred.{TargetStandsIn, brings, shows, width};

use crate::hunt::{Hunt, Task, append_elements};
use crate::plain::run_plain;
use crate::tiers::Tiers;
use element_store::{
    ElementNo, FileModel, FileNo, Import, ImportNo, Item, Member, Name, RefNo, Reference, Target,
    Visibility,
};
use link_model::{Hit, LinkKey, View};
use link_walk::{Gains, model, target};
use linker_base::{Listing, NoMemory};
use std::alloc::Global;

/// Whether the element is among these.
pub(crate) fn is_in(element: ElementNo, elements: &[ElementNo]) -> bool
    ensures { result ≡ keys.is_in element elements.now }
{
    for other in elements {
        if element == *other {
            return true;
        }
    }
    false
}

/// Whether a membership or an import is shown.
fn is_shown(all: bool, visibility: Visibility) -> bool
    ensures { result ≡ (all || is_public visibility) }
{
    all || matches!(visibility, Visibility::Public)
}

/// The last written segment of a reference.
fn last_segment(reference: &Reference) -> &Name
    requires { 0 < length reference.now.path }
    ensures { result.now ≡ imports.last_of [] reference.now.path }
{
    let path = reference.path.as_slice();
    &path[path.len() - 1]
}

/// Looks into a namespace, where that is asked for.
fn defer_if(
    alloc: Global,
    asked: bool,
    all: bool,
    inner: &[ElementNo],
    namespace: ElementNo,
    hunt: &mut Hunt,
) -> Result<(), NoMemory>
    ensures { OnOk result (DefersWhere (λ files. StandsIn files namespace) inner.now 1
        (λ ask. cond asked (again_from ask inner.now true all namespace) (done []))
        hunt.old hunt.new) }
{
    if asked {
        hunt.defer(alloc, inner, true, all, namespace)?;
    }
    Ok(())
}

/// What an import of this element brings under the name.
fn add_target<T: Tiers>(
    alloc: Global,
    tiers: &T,
    view: &View,
    model: &FileModel,
    name: &Name,
    inner: &[ElementNo],
    import: &Import,
    element: ElementNo,
    hunt: &mut Hunt,
) -> Result<(), NoMemory>
    requires stands { StandsIn view.now.models.now element }
    requires links { HasLinks view.now }
    requires reference { import.now.reference < length model.now.references }
    ensures { OnOk result (DefersIn view.now inner.now 1
        (λ ask. import_at name.now ask inner.now model.now import.now element)
        hunt.old hunt.new) }
{
    if import.star {
        hunt.defer(alloc, inner, import.recursive, import.all, element)?;
        return Ok(());
    }
    let last = last_segment(model.reference(import.reference));
    let gains = tiers.under(alloc, view, element, name, last)?;
    hunt.add(&gains)?;
    defer_if(alloc, import.recursive, import.all, inner, element, hunt)?;
    Ok(())
}

/// What an import of that file brings under the name.
fn add_import<T: Tiers>(
    alloc: Global,
    tiers: &T,
    view: &View,
    name: &Name,
    inner: &[ElementNo],
    file: FileNo,
    import: &Import,
    hunt: &mut Hunt,
) -> Result<(), NoMemory>
    requires stands { ReferenceStands view.now.models.now
        (record { file = file; index = import.now.reference }) }
    requires links { HasLinks view.now }
    ensures { OnOk result (DefersIn view.now inner.now 1
        (λ ask. imports.brought (again_from ask inner.now) name.now
        file import.now) hunt.old hunt.new) }
{
    let of = model(view, file, &mut hunt.notes)?;
    let reference = LinkKey(RefNo {
        file,
        index: import.reference,
    });
    match target(view, reference, &mut hunt.notes)? {
        None => Ok(()),
        Some(element) => {
            add_target(alloc, tiers, view, of, name, inner, import, element, hunt)?;
            Ok(())
        }
    }
}

/// What the import of that number brings, where it is shown.
fn consider_import<T: Tiers>(
    alloc: Global,
    tiers: &T,
    view: &View,
    model: &FileModel,
    all: bool,
    name: &Name,
    inner: &[ElementNo],
    number: ImportNo,
    hunt: &mut Hunt,
) -> Result<(), NoMemory>
    requires there { model_of view.now.models.now number.file.0 ≡ Some model.now }
    requires stands { number.index < length model.now.imports }
    requires links { HasLinks view.now }
    ensures { OnOk result (DefersIn view.now inner.now 1
        (λ ask. shown_import name.now ask inner.now all number.file model.now
        number.index) hunt.old hunt.new) }
{
    let import = model.import(number.index);
    let shown = is_shown(all, import.visibility);
    if shown {
        add_import(alloc, tiers, view, name, inner, number.file, import, hunt)?;
    }
    Ok(())
}

/// What the imports of these numbers bring.
fn add_imports<T: Tiers>(
    alloc: Global,
    tiers: &T,
    view: &View,
    model: &FileModel,
    all: bool,
    name: &Name,
    inner: &[ElementNo],
    file: FileNo,
    numbers: &[u32],
    hunt: &mut Hunt,
) -> Result<(), NoMemory>
    requires there { model_of view.now.models.now file.0 ≡ Some model.now }
    requires stand { All (λ k. k < length model.now.imports) numbers.now }
    requires links { HasLinks view.now }
    ensures { OnOk result (DefersIn view.now inner.now (length numbers.now)
        (λ ask. joined (shown_import name.now ask inner.now all file model.now)
        numbers.now) hunt.old hunt.new) }
{
    for index in numbers {
        let number = ImportNo {
            file,
            index: *index,
        };
        consider_import(alloc, tiers, view, model, all, name, inner, number, hunt)?;
    }
    Ok(())
}

/// Whether an asking waits or found something.
fn is_decided(gains: &Gains<Hit>) -> bool
    ensures { result ≡ (not (is_nil gains.now.waits) || not (is_nil gains.now.found)) }
{
    gains.notes.is_waiting() || !gains.found.as_slice().is_empty()
}

/// What the imports of a namespace bring.
fn add_imports_of<T: Tiers>(
    alloc: Global,
    tiers: &T,
    view: &View,
    all: bool,
    name: &Name,
    inner: &[ElementNo],
    of: ElementNo,
    hunt: &mut Hunt,
) -> Result<(), NoMemory>
    requires stands { StandsIn view.now.models.now of }
    requires links { HasLinks view.now }
    ensures { OnOk result (DefersIn view.now inner.now
        (length (imports_at view.now.models.now of))
        (λ ask. shown_imports name.now ask inner.now all of)
        hunt.old hunt.new) }
{
    let model = model(view, of.file, &mut hunt.notes)?;
    let numbers = model.imports_of(of.index);
    add_imports(
        alloc, tiers, view, model, all, name, inner, of.file, numbers, hunt,
    )?;
    Ok(())
}

/// The tiers of a namespace: its own, or, where these are empty, its imports.
fn add_tiers<T: Tiers>(
    alloc: Global,
    tiers: &T,
    view: &View,
    all: bool,
    name: &Name,
    inner: &[ElementNo],
    of: ElementNo,
    hunt: &mut Hunt,
) -> Result<(), NoMemory>
    requires stands { StandsIn view.now.models.now of }
    requires links { HasLinks view.now }
    ensures { OnOk result (DefersIn view.now inner.now
        (length (imports_at view.now.models.now of))
        (λ ask. tiers_then (lib_of view.now) name.now ask inner.now all of)
        hunt.old hunt.new) }
{
    let gains = tiers.own(alloc, view, of, name, all)?;
    hunt.add(&gains)?;
    let decided = is_decided(&gains);
    if decided {
        return Ok(());
    }
    add_imports_of(alloc, tiers, view, all, name, inner, of, hunt)?;
    Ok(())
}

/// Looks into the element that a member owns.
fn defer_owned(
    alloc: Global,
    all: bool,
    inner: &[ElementNo],
    file: FileNo,
    target: Target,
    hunt: &mut Hunt,
) -> Result<(), NoMemory>
    ensures { OnOk result (DefersWhere (λ files. TargetStandsIn files file target) inner.now 1
        (λ ask. imports.in_owned (again_from ask inner.now) all file target)
        hunt.old hunt.new) }
{
    match target {
        Target::Owned(index) => {
            hunt.defer(alloc, inner, true, all, ElementNo { file, index })?;
            Ok(())
        }
        Target::Alias(_) => Ok(()),
    }
}

/// A member that is a namespace to look into.
fn add_member(
    alloc: Global,
    all: bool,
    inner: &[ElementNo],
    file: FileNo,
    model: &FileModel,
    number: u32,
    hunt: &mut Hunt,
) -> Result<(), NoMemory>
    requires stands { number < length model.now.members }
    ensures { OnOk result (DefersWhere (λ files. model_of files file.0 ≡ Some model.now)
        inner.now 1 (λ ask. owned_part ask inner.now all file model.now number)
        hunt.old hunt.new) }
{
    let member = model.member(number);
    let shown = is_shown(all, member.visibility);
    if shown {
        defer_owned(alloc, all, inner, file, member.target, hunt)?;
    }
    Ok(())
}

/// Appends the number of a member, where an item is one.
fn push_member(numbers: &mut Listing<u32>, item: Item) -> Result<(), NoMemory>
    ensures { OnOk result (numbers.new ≡ numbers.old ++ member_number item) }
{
    match item {
        Item::Member(number) => {
            numbers.push(number)?;
            Ok(())
        }
        Item::Import(_) => Ok(()),
    }
}

/// The members among items, by their numbers.
fn member_numbers(alloc: Global, items: &[Item]) -> Result<Listing<u32>, NoMemory>
    ensures { IfOk result (λ numbers. numbers ≡ members_in items.now) }
{
    let mut numbers = Listing::new(alloc);
    for item in items {
        push_member(&mut numbers, *item)?;
    }
    Ok(numbers)
}

/// The members of these numbers that are namespaces to look into.
fn add_members(
    alloc: Global,
    all: bool,
    inner: &[ElementNo],
    file: FileNo,
    model: &FileModel,
    numbers: &[u32],
    hunt: &mut Hunt,
) -> Result<(), NoMemory>
    requires stand { All (λ k. k < length model.now.members) numbers.now }
    ensures { OnOk result (DefersWhere (HasThere file model.now) inner.now (length numbers.now)
        (λ ask. joined (owned_part ask inner.now all file model.now) numbers.now)
        hunt.old hunt.new) }
{
    for number in numbers {
        add_member(alloc, all, inner, file, model, *number, hunt)?;
    }
    Ok(())
}

/// What is inside a namespace.
fn add_inside(
    alloc: Global,
    view: &View,
    all: bool,
    inner: &[ElementNo],
    of: ElementNo,
    hunt: &mut Hunt,
) -> Result<(), NoMemory>
    requires stands { StandsIn view.now.models.now of }
    ensures { OnOk result (DefersIn view.now inner.now
        (length (members_at view.now.models.now of))
        (λ ask. imports.inside (again_from ask inner.now) all of)
        hunt.old hunt.new) }
{
    let model = model(view, of.file, &mut hunt.notes)?;
    let items = model.items(of.index);
    let numbers = member_numbers(alloc, items.as_slice())?;
    add_members(alloc, all, inner, of.file, model, numbers.as_slice(), hunt)?;
    Ok(())
}

/// What is inside a namespace, where that is asked for.
fn add_inside_if(
    alloc: Global,
    asked: bool,
    view: &View,
    all: bool,
    inner: &[ElementNo],
    of: ElementNo,
    hunt: &mut Hunt,
) -> Result<(), NoMemory>
    requires stands { StandsIn view.now.models.now of }
    ensures { OnOk result (DefersIn view.now inner.now
        (length (members_at view.now.models.now of))
        (λ ask. inside_if ask inner.now asked all of)
        hunt.old hunt.new) }
{
    if asked {
        add_inside(alloc, view, all, inner, of, hunt)?;
    }
    Ok(())
}

/// What a task's namespace shows: its tiers, and what is inside, where that is asked for.
pub(crate) fn add_shown<T: Tiers>(
    alloc: Global,
    tiers: &T,
    view: &View,
    name: &Name,
    inner: &[ElementNo],
    task: &Task,
    hunt: &mut Hunt,
) -> Result<(), NoMemory>
    requires stands { StandsIn view.now.models.now task.now.namespace }
    requires links { HasLinks view.now }
    ensures { OnOk result (DefersIn view.now inner.now (width (files_of view.now) task.now)
        (λ ask. shows (lib_of view.now) name.now ask inner.now task.now) hunt.old hunt.new) }
{
    let (all, of) = (task.all, task.namespace);
    add_tiers(alloc, tiers, view, all, name, inner, of, hunt)?;
    add_inside_if(alloc, task.recursive, view, all, inner, of, hunt)?;
    Ok(())
}

/// Looks up one task: what it gives is added, and the namespaces at which it goes on become tasks.
fn expand<T: Tiers>(
    alloc: Global,
    tiers: &T,
    view: &View,
    name: &Name,
    task: &Task,
    hunt: &mut Hunt,
) -> Result<(), NoMemory>
    requires stands { StandsIn view.now.models.now task.now.namespace }
    requires links { HasLinks view.now }
    ensures gives { OnOk result (GivesTask view.now name.now task.now hunt.old hunt.new) }
    ensures excluded { OnOk result (keys.is_in task.now.namespace task.now.excluded ≡ true
        → hunt.new ≡ hunt.old) }
{
    let _depth = task.excluded.as_slice().len();
    let known = is_in(task.namespace, task.excluded.as_slice());
    if known {
        return Ok(());
    }
    let mut inner = Listing::new(alloc);
    inner.push(task.namespace)?;
    append_elements(&mut inner, task.excluded.as_slice())?;
    add_shown(alloc, tiers, view, name, inner.as_slice(), task, hunt)?;
    Ok(())
}

/// Looks up tasks until none is left.
fn run<T: Tiers>(
    alloc: Global,
    tiers: &T,
    view: &View,
    name: &Name,
    mut hunt: Hunt,
) -> Result<Gains<Hit>, NoMemory>
    requires stand { AllTasksStand view.now.models.now hunt.nodes }
    requires links { HasLinks view.now }
    ensures { IfOk result (EndsHunt view.now name.now hunt) }
{
    // A call tells what holds of all files.
    let _ = view.models.files();
    while let Some(task) = hunt.tasks.pop() {
        expand(alloc, tiers, view, name, &task, &mut hunt)?;
    }
    Ok(Gains {
        found: hunt.found,
        notes: hunt.notes,
    })
}

/// The members of a namespace that are visible under the name, with what is waited on and looked at.
pub fn visible_hits<T: Tiers>(
    alloc: Global,
    tiers: &T,
    view: &View,
    of: ElementNo,
    name: &Name,
    excluded: &[ElementNo],
    recursive: bool,
    all: bool,
) -> Result<Gains<Hit>, NoMemory>
    requires stands { StandsIn view.now.models.now of }
    requires links { HasLinks view.now }
    ensures { IfOk result (λ gains. IsAsked gains
        (imports.visible (lib_of view.now) name.now excluded.now recursive all of
        (read_by view.now))) }
{
    let mut plain = Hunt::new(alloc);
    plain.defer(alloc, [].as_slice(), recursive, all, of)?;
    if let Some(gains) = run_plain(alloc, tiers, view, name, excluded, plain)? {
        return Ok(gains);
    }
    let mut hunt = Hunt::new(alloc);
    hunt.defer(alloc, excluded, recursive, all, of)?;
    run(alloc, tiers, view, name, hunt)
}

/// Adds what the import of that number brings under the name.
fn add_numbered<T: Tiers>(
    alloc: Global,
    tiers: &T,
    view: &View,
    import: ImportNo,
    name: &Name,
    excluded: &[ElementNo],
    hunt: &mut Hunt,
) -> Result<(), NoMemory>
    requires stands { ImportStands view.now.models.now import }
    requires links { HasLinks view.now }
    ensures { OnOk result (DefersIn view.now excluded.now 1
        (λ ask. brings name.now import (again_from ask excluded.now))
        hunt.old hunt.new) }
{
    let model = model(view, import.file, &mut hunt.notes)?;
    let own = model.import(import.index);
    add_import(alloc, tiers, view, name, excluded, import.file, own, hunt)?;
    Ok(())
}

/// What an import brings under the name, where these namespaces are excluded, with what is waited on
/// and looked at.
pub fn imported_hits<T: Tiers>(
    alloc: Global,
    tiers: &T,
    view: &View,
    import: ImportNo,
    name: &Name,
    excluded: &[ElementNo],
) -> Result<Gains<Hit>, NoMemory>
    requires stands { ImportStands view.now.models.now import }
    requires links { HasLinks view.now }
    ensures { IfOk result (λ gains. IsAsked gains
        (imports.imported (library_of view.now.models.now) name.now excluded.now import
        (read_by view.now))) }
{
    let mut plain = Hunt::new(alloc);
    add_numbered(alloc, tiers, view, import, name, [].as_slice(), &mut plain)?;
    if let Some(gains) = run_plain(alloc, tiers, view, name, excluded, plain)? {
        return Ok(gains);
    }
    let mut hunt = Hunt::new(alloc);
    add_numbered(alloc, tiers, view, import, name, excluded, &mut hunt)?;
    run(alloc, tiers, view, name, hunt)
}
