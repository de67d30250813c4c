//! A project whose links never find memory: an edit breaks it, and then it says so to whatever is asked.

ghost use Rattle.project_answers.specs.Holds.{all_linked};

use crate::{LinkedProject, QueryFault};
use book_model::Edit;
use demand_core::{Counted, Steps};
use element_store::{FileName, FileNo, Models, Outcome, RefNo, Segments, Text};
use implied_rules::ImpliedRows;
use linker_base::NoMemory;
use project_answers::Linking;
use project_book::{Applied, ApplyFault};
use std::alloc::Global;

/// Links that find memory for no file.
#[derive(Drop)]
struct NoLinks {
    followed: Models,
}

impl Linking for NoLinks {
    ghost follows = { λ l. all_linked l.followed };

    fn none(alloc: Global) -> Self {
        NoLinks {
            followed: Models::new(alloc),
        }
    }

    fn link(&mut self, models: &Models) -> Result<(), NoMemory> {
        // Of an empty project all files are followed.
        if models.files() == 0 && self.followed.files() == 0 {
            Ok(())
        } else {
            Err(NoMemory)
        }
    }

    fn close(&mut self, _models: &Models, _file: FileNo) -> Result<(), NoMemory> {
        Err(NoMemory)
    }

    fn open(&mut self, _models: &Models, _file: FileNo) -> Result<(), NoMemory> {
        Err(NoMemory)
    }

    fn settle(&mut self, _models: &Models) -> Result<(), NoMemory> {
        Ok(())
    }

    fn outcome(&self, _models: &Models, _reference: RefNo) -> Result<Outcome, NoMemory> {
        Err(NoMemory)
    }

    fn implied(&self, _models: &Models) -> Result<ImpliedRows, NoMemory> {
        Err(NoMemory)
    }

    fn find(&self, _models: &Models, _path: Segments) -> Result<Outcome, NoMemory> {
        Err(NoMemory)
    }
}

/// Puts a text under a name.
fn put(
    alloc: Global,
    project: &mut LinkedProject<NoLinks>,
    name: &[u8],
    text: &[u8],
) -> Option<Result<Applied, ApplyFault>> {
    let Ok(name) = FileName::read(alloc, name) else {
        return None;
    };
    let Ok(text) = Vec::from_slice(alloc, text) else {
        return None;
    };
    let text = Text::of(text);
    let mut steps = Steps::new(Counted::new());
    Some(project.apply(Edit::Put { name, text }, &mut steps))
}

/// What is answered of a file.
fn file_fault(alloc: Global, project: &LinkedProject<NoLinks>, name: &[u8]) -> Option<QueryFault> {
    let Ok(name) = FileName::read(alloc, name) else {
        return None;
    };
    project.file(&name).err()
}

#[test]
fn want_of_memory_breaks_the_project(rt: HostRuntime) {
    let Ok(mut project) = LinkedProject::<NoLinks>::open(rt.alloc(), &[]) else {
        panic!(rt; "no memory");
    };
    assert!(rt; file_fault(rt.alloc(), &project, b"a.sysml") == Some(QueryFault::NoSuchFile));
    assert!(rt; project.find(b"a::").err() == Some(QueryFault::BadName));
    assert!(rt; project.find(b"a").err() == Some(QueryFault::NoMemory));
    let applied = put(rt.alloc(), &mut project, b"a.sysml", b"part a;");
    assert!(rt; applied == Some(Err(ApplyFault::NoMemory)));
    let applied = put(rt.alloc(), &mut project, b"a.sysml", b"part a;");
    assert!(rt; applied == Some(Err(ApplyFault::Broken)));
    assert!(rt; file_fault(rt.alloc(), &project, b"a.sysml") == Some(QueryFault::Broken));
    assert!(rt; project.find(b"a::").err() == Some(QueryFault::Broken));
    assert!(rt; project.names().err() == Some(QueryFault::Broken));
    assert!(rt; project.faults().err() == Some(QueryFault::Broken));
}

/// Whether the words are spelt so; a bad name is spelt as nothing.
fn is_spelt(project: &LinkedProject<NoLinks>, words: &[u8], spelt: &[u8]) -> bool {
    if words.len() > 100 {
        return false;
    }
    match project.spell_words(words) {
        Ok(text) => text.bytes() == spelt,
        Err(fault) => fault == QueryFault::BadName && spelt.is_empty(),
    }
}

#[test]
fn words_are_spelt_one_way(rt: HostRuntime) {
    let Ok(project) = LinkedProject::<NoLinks>::open(rt.alloc(), &[]) else {
        panic!(rt; "no memory");
    };
    let rows: [(&[u8], &[u8]); 10] = [
        (b"'a' :: b // c", b"a::b"),
        (b"$ :: a", b"$::a"),
        (b"a::'b c' in $::'in'", b"a::'b c' in $::'in'"),
        (b" a in\nb", b"a in b"),
        (b"", b""),
        (b"a in", b""),
        (b"in a", b""),
        (b"a in b in c", b""),
        (b"a b", b""),
        (b"\"a\" in b", b""),
    ];
    for (words, spelt) in rows {
        assert!(rt; is_spelt(&project, words, spelt));
    }
}
