//! Short lists are numbered with ample memory.

use crate::{Heading, number};
use element_store::{FileNo, Items, Kind, Language, Marks, Segments, Visibility};
use linker_base::NoMemory;
use std::alloc::Global;
use text_model::draft::{Draft, DraftImport, DraftMember, DraftTarget, Path, Row};

/// So many names without segments.
fn names(alloc: Global, count: usize) -> Result<Row<Path>, NoMemory> {
    let mut found = Row::new(alloc);
    for _ in 0..count {
        found.push(Path {
            place: 0,
            absolute: false,
            path: Segments::new(alloc),
            chain: Segments::new(alloc),
        })?;
    }
    Ok(found)
}

/// An element in which so many names are read.
fn draft(alloc: Global, kind: Kind, owner: Option<u32>, count: usize) -> Result<Draft, NoMemory> {
    Ok(Draft {
        kind,
        owner,
        short: None,
        name: None,
        marks: Marks::none(),
        body: None,
        locale: None,
        own: names(alloc, count)?,
        specs: Row::new(alloc),
        bounds: Row::new(alloc),
        value: None,
        result: None,
        inner: Row::new(alloc),
        items: Items::new(alloc),
    })
}

/// A member that is the element with the number 1.
fn member() -> DraftMember {
    DraftMember {
        owner: 0,
        target: DraftTarget::Owned(1),
        visibility: Visibility::Public,
        place: 0,
        short: None,
        name: None,
    }
}

/// An import of a name.
fn import() -> DraftImport {
    DraftImport {
        owner: 0,
        at: 0,
        place: 0,
        visibility: Visibility::Private,
        star: true,
        recursive: false,
        all: false,
    }
}

/// How many elements, members, references and imports come of a root and a part that reads so many names.
fn counts(alloc: Global, count: usize) -> Result<(usize, usize, usize, usize), NoMemory> {
    let elements = vec![in alloc;
        draft(alloc, Kind::Root, None, 0)?,
        draft(alloc, Kind::Part, Some(0), count)?,
    ]?;
    let members = vec![in alloc; member()]?;
    let imports = vec![in alloc; import()]?;
    let heading = Heading {
        file: FileNo(0),
        language: Language::Sysml,
    };
    let parts = number(alloc, heading, elements, members, imports)?;
    Ok((
        parts.elements.len(),
        parts.members.len(),
        parts.references.len(),
        parts.imports.len(),
    ))
}

#[test]
fn short_lists_are_numbered(rt: HostRuntime) {
    for count in [0, 1, 5] {
        assert!(rt; counts(rt.alloc(), count) == Ok((2, 1, count, 1)));
    }
}
