//! A book in both languages through every query, before a drop and after it, with each refusal.

ghost use Rattle.linked_project.specs.Listed.{IsLiveRow};

use crate::{
    Applied, ApplyFault, Edit, FaultRow, FileReport, ImpliedRow, LinkRow, Place, Printed, Project,
    QueryFault,
};
use demand_core::{Counted, Steps};
use element_store::{ElementNo, FileName, Outcome, Text};
use library_texts::library;
use std::alloc::Global;
use text_model::FileFault;

/// A project without files of its own, over the library.
fn opened(alloc: Global) -> Option<Project> {
    let mut steps = Steps::new(Counted::new());
    Project::open(alloc, library(), &mut steps).ok()
}

/// The name of a file.
fn named(alloc: Global, name: &[u8]) -> Option<FileName> {
    FileName::read(alloc, name).ok()
}

/// Puts a text under a name.
fn put(
    alloc: Global,
    project: &mut Project,
    name: &[u8],
    text: &[u8],
) -> Option<Result<Applied, ApplyFault>> {
    let name = named(alloc, name)?;
    let Ok(text) = Vec::from_slice(alloc, text) else {
        return None;
    };
    let text = Text::of(text);
    let mut steps = Steps::new(Counted::new());
    Some(project.apply(Edit::Put { name, text }, &mut steps))
}

/// Drops the text under a name.
fn remove(
    alloc: Global,
    project: &mut Project,
    name: &[u8],
) -> Option<Result<Applied, ApplyFault>> {
    let name = named(alloc, name)?;
    let mut steps = Steps::new(Counted::new());
    Some(project.apply(Edit::Drop { name }, &mut steps))
}

/// What is known of the text under a name.
fn report(alloc: Global, project: &Project, name: &[u8]) -> Option<FileReport> {
    project.file(&named(alloc, name)?).ok()
}

/// Whether these are the names of the present files.
fn are_names(project: &Project, names: &[&[u8]]) -> bool {
    let Ok(listed) = project.names() else {
        return false;
    };
    for (index, name) in listed.as_slice().iter().enumerate() {
        match names.get(index) {
            Some(expected) if name.bytes() == *expected => {}
            _ => return false,
        }
    }
    listed.as_slice().len() == names.len()
}

/// Whether a text was answered, and this one.
fn is_text(answer: Result<Text, QueryFault>, text: &[u8]) -> bool {
    match answer {
        Ok(answer) => answer.bytes() == text,
        Err(_) => false,
    }
}

/// A row as it should be: where the reference stands and how it is written, and the label of the element to
/// which it leads, if it leads to one.
#[derive(Clone, Copy)]
struct Row {
    column: u32,
    written: &'static [u8],
    label: Option<&'static [u8]>,
}

/// Whether an outcome leads to the element with this label, or nowhere.
fn leads_to(project: &Project, row: &LinkRow, label: Option<&[u8]>) -> bool
    requires { IsLiveRow project.now.files row.now }
{
    match (&row.outcome, label) {
        (Outcome::Linked { element, .. }, Some(label)) => is_text(project.label(*element), label),
        (Outcome::Linked { .. }, None) => false,
        (_, label) => label.is_none(),
    }
}

/// Whether a row of a file is as it should be, and the same when it is asked for alone.
fn is_row(project: &Project, row: &LinkRow, file: &[u8], expected: Row) -> bool
    requires { IsLiveRow project.now.files row.now }
{
    let place = Place {
        line: 1,
        column: expected.column,
    };
    row.place == place
        && project.reference_place(row.reference) == Ok(place)
        && is_text(project.text_of(row.reference), expected.written)
        && is_text(project.file_text(row.reference.file), file)
        && leads_to(project, row, expected.label)
}

/// Whether the rows of a file are these.
fn are_rows(alloc: Global, project: &Project, name: &[u8], expected: &[Row]) -> bool {
    let Some(name) = named(alloc, name) else {
        return false;
    };
    let Ok(rows) = project.links(&name) else {
        return false;
    };
    for (index, row) in rows.as_slice().iter().enumerate() {
        match expected.get(index) {
            Some(expected) if is_row(project, row, name.bytes(), *expected) => {}
            _ => return false,
        }
    }
    rows.as_slice().len() == expected.len()
}

/// Whether words find the element with this label, or nothing.
fn finds(project: &Project, words: &[u8], label: Option<&[u8]>) -> bool {
    if words.len() > 100 {
        return false;
    }
    match (project.find(words), label) {
        (Ok(Outcome::Linked { element, .. }), Some(label)) => {
            is_text(project.label(element), label)
        }
        (Ok(Outcome::Linked { .. }), None) => false,
        (Ok(_), label) => label.is_none(),
        (Err(_), _) => false,
    }
}

/// Whether printing a file gives this text.
fn prints(alloc: Global, project: &Project, name: &[u8], text: &[u8]) -> bool {
    let Some(name) = named(alloc, name) else {
        return false;
    };
    match project.print(&name) {
        Ok(Printed::Text(printed)) => printed.bytes() == text,
        _ => false,
    }
}

/// What printing a file gives where it has no canonical text.
fn unprinted(alloc: Global, project: &Project, name: &[u8]) -> Option<Result<Place, QueryFault>> {
    match project.print(&named(alloc, name)?) {
        Ok(Printed::Text(_)) => None,
        Ok(Printed::Refused { place, .. }) => Some(Ok(place)),
        Err(fault) => Some(Err(fault)),
    }
}

const PARTS: &[u8] = b"package P { part def A; part b : A; part c : Z; }";

/// The canonical text of the parts.
const PRINTED_PARTS: &[u8] = b"package P {\n    part def A;\n    part b : A;\n    part c : Z;\n}\n";

const CLASS: &[u8] = b"class C :> P::A;";

/// The rows of the parts.
const PART_ROWS: [Row; 2] = [
    Row {
        column: 34,
        written: b"A",
        label: Some(b"P::A"),
    },
    Row {
        column: 46,
        written: b"Z",
        label: None,
    },
];

/// The row of the class while the parts are present.
const LINKED: Row = Row {
    column: 12,
    written: b"P::A",
    label: Some(b"P::A"),
};

/// A book with a file in each language and one that is refused.
fn filled(alloc: Global) -> Option<Project> {
    let mut project = opened(alloc)?;
    let texts: [(&[u8], &[u8]); 3] = [
        (b"b.sysml", PARTS),
        (b"c.sysml", b"part p : ;"),
        (b"a.kerml", CLASS),
    ];
    for (name, text) in texts {
        if put(alloc, &mut project, name, text) != Some(Ok(Applied::Changed)) {
            return None;
        }
    }
    Some(project)
}

#[test]
fn each_query_answers_by_the_book(rt: HostRuntime) {
    let alloc = rt.alloc();
    let Some(mut project) = filled(alloc) else {
        panic!(rt; "the book isn't filled");
    };
    let parts = Some(FileReport::In {
        elements: 4,
        references: 2,
    });
    assert!(rt; report(alloc, &project, b"b.sysml") == parts);
    let fault = Some(FileReport::Refused {
        fault: FileFault::Syntax(9),
        place: Place {
            line: 1,
            column: 10,
        },
    });
    assert!(rt; report(alloc, &project, b"c.sysml") == fault);
    assert!(rt; are_names(&project, &[b"a.kerml", b"b.sysml", b"c.sysml"]));
    assert!(rt; are_rows(alloc, &project, b"b.sysml", &PART_ROWS));
    assert!(rt; are_rows(alloc, &project, b"a.kerml", &[LINKED]));
    assert!(rt; finds(&project, b"$::P::'b'", Some(b"P::b")));
    assert!(rt; finds(&project, b"P::Q", None));
    assert!(rt; remove(alloc, &mut project, b"b.sysml") == Some(Ok(Applied::Changed)));
    assert!(rt; remove(alloc, &mut project, b"b.sysml") == Some(Ok(Applied::NotThere)));
    assert!(rt; report(alloc, &project, b"b.sysml").is_none());
    assert!(rt; are_names(&project, &[b"a.kerml", b"c.sysml"]));
    let unlinked = Row {
        label: None,
        ..LINKED
    };
    assert!(rt; are_rows(alloc, &project, b"a.kerml", &[unlinked]));
    assert!(rt; finds(&project, b"P::b", None));
}

#[test]
fn files_are_printed(rt: HostRuntime) {
    let alloc = rt.alloc();
    let Some(project) = filled(alloc) else {
        panic!(rt; "the book isn't filled");
    };
    assert!(rt; prints(alloc, &project, b"a.kerml", b"class C :> P::A;\n"));
    assert!(rt; prints(alloc, &project, b"b.sysml", PRINTED_PARTS));
    let place = Place {
        line: 1,
        column: 10,
    };
    assert!(rt; unprinted(alloc, &project, b"c.sysml") == Some(Ok(place)));
    let missing = Some(Err(QueryFault::NoSuchFile));
    assert!(rt; unprinted(alloc, &project, b"d.sysml") == missing);
}

/// What is wrong with a file, by where it is: its fault, or a reference.
#[derive(Clone, Copy, Debug, PartialEq, Eq)]
enum Wrong {
    Fault { column: u32 },
    Reference { column: u32 },
}

/// The name of what is wrong, and what is wrong with it.
fn wrong_of(row: &FaultRow) -> (&[u8], Wrong) {
    match row {
        FaultRow::File { name, place, .. } => (
            name.bytes(),
            Wrong::Fault {
                column: place.column,
            },
        ),
        FaultRow::Link { name, row } => (
            name.bytes(),
            Wrong::Reference {
                column: row.place.column,
            },
        ),
    }
}

/// Whether these are the faults of the book.
fn are_faults(project: &Project, expected: &[(&[u8], Wrong)]) -> bool {
    let Ok(rows) = project.faults() else {
        return false;
    };
    for (index, row) in rows.as_slice().iter().enumerate() {
        let (name, wrong) = wrong_of(row);
        match expected.get(index) {
            Some((file, fault)) if *file == name && *fault == wrong => {}
            _ => return false,
        }
    }
    rows.as_slice().len() == expected.len()
}

#[test]
fn faults_follow_the_edits(rt: HostRuntime) {
    let alloc = rt.alloc();
    let Some(mut project) = filled(alloc) else {
        panic!(rt; "the book isn't filled");
    };
    let refused = Wrong::Fault { column: 10 };
    let before: [(&[u8], Wrong); 2] = [
        (b"b.sysml", Wrong::Reference { column: 46 }),
        (b"c.sysml", refused),
    ];
    assert!(rt; are_faults(&project, &before));
    assert!(rt; remove(alloc, &mut project, b"b.sysml") == Some(Ok(Applied::Changed)));
    let after: [(&[u8], Wrong); 2] = [
        (b"a.kerml", Wrong::Reference { column: 12 }),
        (b"c.sysml", refused),
    ];
    assert!(rt; are_faults(&project, &after));
}

/// The places of two members that stand under one name.
fn two_places(project: &Project, words: &[u8]) -> Option<(Place, Place)> {
    if words.len() > 100 {
        return None;
    }
    match project.find(words) {
        Ok(Outcome::Ambiguous { first, second, .. }) => {
            let first = project.member_place(first).ok()?;
            let second = project.member_place(second).ok()?;
            Some((first, second))
        }
        _ => None,
    }
}

#[test]
fn members_have_places(rt: HostRuntime) {
    let alloc = rt.alloc();
    let Some(mut project) = opened(alloc) else {
        panic!(rt; "no project");
    };
    let applied = put(alloc, &mut project, b"b.sysml", b"part x; part p;");
    assert!(rt; applied == Some(Ok(Applied::Changed)));
    let applied = put(alloc, &mut project, b"a.sysml", b"\npart p;");
    assert!(rt; applied == Some(Ok(Applied::Changed)));
    let first = Place { line: 2, column: 1 };
    let second = Place { line: 1, column: 9 };
    assert!(rt; two_places(&project, b"p") == Some((first, second)));
}

/// So many blanks.
fn blanks(alloc: Global, count: usize) -> Option<Vec<u8>> {
    vec![in alloc; b' '; count].ok()
}

#[test]
fn refusals_leave_the_book(rt: HostRuntime) {
    let alloc = rt.alloc();
    let Some(mut project) = filled(alloc) else {
        panic!(rt; "the book isn't filled");
    };
    let Some(long) = blanks(alloc, 1_048_577) else {
        panic!(rt; "no memory");
    };
    let refused = put(alloc, &mut project, b"b.sysml", &long);
    assert!(rt; refused == Some(Err(ApplyFault::Limit(1_048_576))));
    assert!(rt; are_rows(alloc, &project, b"a.kerml", &[LINKED]));
    let Some(name) = named(alloc, b"d.sysml") else {
        panic!(rt; "no name");
    };
    assert!(rt; project.file(&name) == Err(QueryFault::NoSuchFile));
    assert!(rt; project.links(&name).err() == Some(QueryFault::NoSuchFile));
    assert!(rt; project.find(b"P::").err() == Some(QueryFault::BadName));
    assert!(rt; is_text(project.spell_words(b"P :: 'A' in $::P"), b"P::A in $::P"));
    assert!(rt; project.spell_words(b"A in").err() == Some(QueryFault::BadName));
}

/// The element to which words lead.
fn found(project: &Project, words: &[u8]) -> Option<ElementNo> {
    if words.len() > 100 {
        return None;
    }
    match project.find(words) {
        Ok(Outcome::Linked { element, .. }) => Some(element),
        _ => None,
    }
}

/// Whether a row says that what the first words find has as its base what the second ones find.
fn is_implied(project: &Project, row: &ImpliedRow, expected: (&[u8], &[u8])) -> bool {
    let (of, base) = expected;
    found(project, of) == Some(row.of) && found(project, base) == Some(row.base)
}

/// Whether these are the implied specialisations.
fn are_implied(project: &Project, expected: &[(&[u8], &[u8])]) -> bool {
    let Ok(rows) = project.implied() else {
        return false;
    };
    for (index, row) in rows.as_slice().iter().enumerate() {
        match expected.get(index) {
            Some(expected) if is_implied(project, row, *expected) => {}
            _ => return false,
        }
    }
    rows.as_slice().len() == expected.len()
}

/// The library stands behind the book: a type specialises its base by implication, unless it does by its own
/// words, and a name of the book hides the library's.
#[test]
fn the_library_stands_behind_the_book(rt: HostRuntime) {
    let Some(mut project) = opened(rt.alloc()) else {
        panic!(rt; "no memory");
    };
    assert!(rt; finds(&project, b"Parts::Part", Some(b"Parts::Part")));
    assert!(rt; are_implied(&project, &[]));
    let text = b"part def A; attribute n : ScalarValues::Integer;";
    let done = put(rt.alloc(), &mut project, b"a.sysml", text);
    assert!(rt; done == Some(Ok(Applied::Changed)));
    let expected: [(&[u8], &[u8]); 2] = [(b"A", b"Parts::Part"), (b"n", b"Base::dataValues")];
    assert!(rt; are_implied(&project, &expected));
    let done = put(
        rt.alloc(),
        &mut project,
        b"b.sysml",
        b"package Parts { item def Other; }",
    );
    assert!(rt; done == Some(Ok(Applied::Changed)));
    assert!(rt; finds(&project, b"Parts::Part", None));
}
