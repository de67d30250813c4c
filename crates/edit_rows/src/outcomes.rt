ghost use Rattle.book_model.specs.Live.{IsLiveElement, IsLiveMember, IsLiveReference, NamesLive};
ghost use Rattle.linked_project.specs.Listed.{IsLiveRow};

use element_store::{ElementNo, FileName, MemberNo, Outcome, RefNo};
use project_core::{FileReport, LinkRow, Place, Project};
use std::alloc::Global;
use written_names::{write, write_number};

/// How many files are present, how many references they have, and what is wrong with them.
#[derive(Clone, Copy, Debug, PartialEq, Eq)]
pub(crate) struct Counts {
    pub files: usize,
    pub references: u64,
    pub faults: usize,
}

/// Counts what a project holds.
pub(crate) fn counted(project: &Project) -> Option<Counts> {
    let names = project.names().ok()?;
    let mut references = 0_u64;
    for name in names.as_slice() {
        if let FileReport::In {
            references: more,
            ..
        } = project.file(name).ok()?
        {
            references = references.saturating_add(u64::from(more));
        }
    }
    Some(Counts {
        files: names.as_slice().len(),
        references,
        faults: project.faults().ok()?.as_slice().len(),
    })
}

/// Appends a place.
fn write_place(written: &mut Vec<u8>, place: Place) -> Option<()> {
    write_number(written, place.line as usize).ok()?;
    write(written, b":").ok()?;
    write_number(written, place.column as usize).ok()?;
    write(written, b" ").ok()
}

/// Appends an element, by the name of its file and its label.
fn write_element(written: &mut Vec<u8>, project: &Project, element: ElementNo) -> Option<()>
    requires { IsLiveElement project.now.files element }
{
    write(written, project.file_text(element.file).ok()?.bytes()).ok()?;
    write(written, b" ").ok()?;
    write(written, project.label(element).ok()?.bytes()).ok()
}

/// Appends a member, by the name of its file and its place.
fn write_member(written: &mut Vec<u8>, project: &Project, member: MemberNo) -> Option<()>
    requires { IsLiveMember project.now.files member }
{
    write(written, project.file_text(member.file).ok()?.bytes()).ok()?;
    write(written, b" ").ok()?;
    write_place(written, project.member_place(member).ok()?)
}

/// Appends a reference, by the name of its file and its place.
fn write_reference(written: &mut Vec<u8>, project: &Project, reference: RefNo) -> Option<()>
    requires { IsLiveReference project.now.files reference }
{
    write(written, project.file_text(reference.file).ok()?.bytes()).ok()?;
    write(written, b" ").ok()?;
    write_place(written, project.reference_place(reference).ok()?)
}

/// Appends what became of a reference.
fn write_outcome(written: &mut Vec<u8>, project: &Project, outcome: &Outcome) -> Option<()>
    requires { NamesLive project.now.files outcome.now }
{
    match outcome {
        Outcome::Linked { element, .. } => {
            write(written, b"linked ").ok()?;
            write_element(written, project, *element)
        }
        Outcome::Absent { segment } => {
            write(written, b"absent ").ok()?;
            write_number(written, *segment as usize).ok()
        }
        Outcome::Ambiguous {
            segment,
            first,
            second,
        } => {
            write(written, b"ambiguous ").ok()?;
            write_number(written, *segment as usize).ok()?;
            write_member(written, project, *first)?;
            write_member(written, project, *second)
        }
        Outcome::Hidden { segment, member } => {
            write(written, b"hidden ").ok()?;
            write_number(written, *segment as usize).ok()?;
            write_member(written, project, *member)
        }
        Outcome::Cyclic { on } => {
            write(written, b"cyclic ").ok()?;
            write_reference(written, project, *on)
        }
    }
}

/// Appends the row of a reference.
fn write_row(written: &mut Vec<u8>, project: &Project, row: &LinkRow) -> Option<()>
    requires { IsLiveRow project.now.files row.now }
{
    write_place(written, row.place)?;
    write_outcome(written, project, &row.outcome)?;
    write(written, b"\n").ok()
}

/// Appends the rows of a file, behind its name.
fn write_file(written: &mut Vec<u8>, project: &Project, name: &FileName) -> Option<()> {
    write(written, name.bytes()).ok()?;
    write(written, b"\n").ok()?;
    let rows = project.links(name).ok()?;
    for row in rows.as_slice() {
        write_row(written, project, row)?;
    }
    Some(())
}

/// What became of each reference of the present files, as a text that tells no numbers of files.
pub(crate) fn outcomes(alloc: Global, project: &Project) -> Option<Vec<u8>> {
    let names = project.names().ok()?;
    let mut written = Vec::new(alloc);
    for name in names.as_slice() {
        write_file(&mut written, project, name)?;
    }
    Some(written)
}
