//! Edits of a small book, and what is known of their files.

use crate::{Applied, ApplyFault, Project};
use book_model::{Edit, FileReport, Place};
use demand_core::{Counted, Steps};
use element_store::{FileName, Text};
use std::alloc::Global;
use text_model::FileFault;

/// Puts a text under a name, or drops the one that stands there.
fn edit(
    alloc: Global,
    project: &mut Project,
    name: &[u8],
    text: Option<&[u8]>,
) -> Option<Result<Applied, ApplyFault>> {
    let Ok(name) = FileName::read(alloc, name) else {
        return None;
    };
    let mut steps = Steps::new(Counted::new());
    let Some(text) = text else {
        return Some(project.apply(Edit::Drop { name }, &mut steps));
    };
    let Ok(text) = Vec::from_slice(alloc, text) else {
        return None;
    };
    let text = Text::of(text);
    Some(project.apply(Edit::Put { name, text }, &mut steps))
}

/// What is known of the text under a name.
fn report(alloc: Global, project: &Project, name: &[u8]) -> Option<FileReport> {
    let Ok(name) = FileName::read(alloc, name) else {
        return None;
    };
    project.files().report(project.number(&name)?)
}

/// With ample memory no edit answers `NoMemory`.
#[test]
fn edits_change_one_file_each(rt: HostRuntime) {
    let part = Some(FileReport::In {
        elements: 1,
        references: 0,
    });
    let fault = Some(FileReport::Refused {
        fault: FileFault::Syntax(9),
        place: Place {
            line: 1,
            column: 10,
        },
    });
    let edits: [(&[u8], Option<&[u8]>, Applied, Option<FileReport>); 7] = [
        (b"b.sysml", Some(b"part a;"), Applied::Changed, part),
        (b"a.sysml", Some(b"part p : ;"), Applied::Changed, fault),
        (b"b.sysml", None, Applied::Changed, None),
        (b"b.sysml", None, Applied::NotThere, None),
        (b"c.sysml", None, Applied::NotThere, None),
        (b"a.sysml", Some(b"part p;"), Applied::Changed, part),
        (b"b.sysml", Some(b"part p : ;"), Applied::Changed, fault),
    ];
    let Ok(mut project) = Project::open(rt.alloc(), &[]) else {
        panic!(rt; "no memory");
    };
    for (name, text, applied, told) in edits {
        assert!(rt; edit(rt.alloc(), &mut project, name, text) == Some(Ok(applied)));
        assert!(rt; report(rt.alloc(), &project, name) == told);
    }
    assert!(rt; project.files().count() == 2);
}
