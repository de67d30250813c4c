//! Files are put in, taken out and put in again, in two orders of arrival.
ghost use Rattle.std.specs.Prelude.{◌≡◌, ◌<◌, ◌≤◌, length, OnOk, IfSome};
ghost use Rattle.root_names.specs.Roots.{AreRootsOf};

use crate::root_names::RootNames;
use crate::sample::{files, sample};
use element_store::{FileModel, FileNo, MemberNo, Models, Name};
use linker_base::NoMemory;
use std::alloc::Global;

// Gives a file another model, or none. After `NoMemory` the names of its root are out.
fn replace(
    alloc: Global,
    models: &mut Models,
    names: &mut RootNames,
    file: FileNo,
    model: Option<FileModel>,
) -> Result<(), NoMemory>
    requires within { file.0 < length models.old }
    requires own { IfSome model (λ m. m.file ≡ file) }
    requires before { AreRootsOf models.old names.old }
    ensures { OnOk result (AreRootsOf models.new names.new) }
{
    names.take_out(models, file);
    models.set(file, model);
    names.put_in(alloc, models, file)
}

// Gives one of the files the sample as its model, or takes its model away.
fn change(
    alloc: Global,
    models: &mut Models,
    names: &mut RootNames,
    number: u32,
    there: bool,
) -> Result<(), NoMemory>
    requires { AreRootsOf models.old names.old }
    ensures { OnOk result (AreRootsOf models.new names.new) }
{
    if number >= models.files() {
        return Ok(());
    }
    let file = FileNo(number);
    if there {
        let model = sample(alloc, file)?;
        replace(alloc, models, names, file, Some(model))
    } else {
        replace(alloc, models, names, file, None)
    }
}

// So one change after the other.
fn change_all(
    alloc: Global,
    models: &mut Models,
    names: &mut RootNames,
    changes: &[(u32, bool)],
) -> Result<(), NoMemory>
    requires { AreRootsOf models.old names.old }
    ensures { OnOk result (AreRootsOf models.new names.new) }
{
    for step in changes {
        change(alloc, models, names, step.0, step.1)?;
    }
    Ok(())
}

// Whether these members are those, by file and number.
fn are_listed(members: &[MemberNo], expected: &[(u32, u32)]) -> bool {
    if members.len() != expected.len() {
        return false;
    }
    let mut pairs = members.iter().zip(expected);
    pairs.all(|(member, (file, index))| member.file.0 == *file && member.index == *index)
}

// The files change in turn, and then a name is looked up.
#[derive(Drop)]
struct Row {
    in_order: bool,
    changes: &'static [(u32, bool)],
    name: &'static [u8],
    project: &'static [(u32, u32)],
    library: &'static [(u32, u32)],
}

fn holds(alloc: Global, row: &Row) -> Option<bool> {
    let Ok(mut models) = files(alloc, row.in_order) else {
        return None;
    };
    let mut names = RootNames::new(alloc);
    let Ok(()) = change_all(alloc, &mut models, &mut names, row.changes) else {
        return None;
    };
    let name = Name::of(Vec::from_slice(alloc, row.name).ok()?);
    Some(
        are_listed(names.bearers(&name), row.project)
            && are_listed(names.library_bearers(&name), row.library),
    )
}

#[test]
fn bearers_stand_in_the_order_of_files(rt: HostRuntime) {
    let rows = [
        Row {
            in_order: true,
            changes: &[(2, true), (0, true), (3, true), (1, true)],
            name: b"A",
            project: &[(0, 0), (0, 2), (1, 0), (1, 2), (2, 0), (2, 2)],
            library: &[(3, 0), (3, 2)],
        },
        Row {
            in_order: false,
            changes: &[(0, true), (1, true), (2, true), (3, true)],
            name: b"A",
            project: &[(2, 0), (2, 2), (3, 0), (3, 2), (0, 0), (0, 2)],
            library: &[(1, 0), (1, 2)],
        },
    ];
    for row in &rows {
        assert!(rt; holds(rt.alloc(), row) == Some(true));
    }
}

#[test]
fn bearers_follow_the_changes(rt: HostRuntime) {
    let rows = [
        Row {
            in_order: true,
            changes: &[(0, true), (1, true), (2, true), (1, false)],
            name: b"B",
            project: &[(0, 0), (2, 0)],
            library: &[],
        },
        Row {
            in_order: true,
            changes: &[
                (0, true),
                (1, true),
                (1, false),
                (3, true),
                (3, false),
                (1, true),
            ],
            name: b"B",
            project: &[(0, 0), (1, 0)],
            library: &[],
        },
        Row {
            in_order: false,
            changes: &[(0, true), (1, true)],
            name: b"C",
            project: &[],
            library: &[],
        },
    ];
    for row in &rows {
        assert!(rt; holds(rt.alloc(), row) == Some(true));
    }
}
