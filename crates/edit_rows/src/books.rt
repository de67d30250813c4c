ghost use Rattle.std.specs.Prelude.{◌<◌, IfSome, length};

use demand_core::{Counted, Steps};
use element_store::{FileName, Text};
use library_texts::library;
use project_core::{Applied, Edit, Project};
use std::alloc::Global;

/// A present file, as it was put last.
#[derive(Drop)]
struct File {
    name: String,
    text: String,
}

/// A project that is edited, and the files that are present in it, in the order of their coming.
#[derive(Drop)]
pub(crate) struct Book {
    pub project: Project,
    files: Vec<File>,
}

/// A project without files of its own.
fn opened(alloc: Global) -> Option<Project> {
    let mut steps = Steps::new(Counted::new());
    Project::open(alloc, library(), &mut steps).ok()
}

/// The name of a file.
fn named(alloc: Global, name: &str) -> Option<FileName> {
    FileName::read(alloc, name.as_bytes()).ok()
}

/// Puts a text under a name.
fn put(alloc: Global, project: &mut Project, name: &str, text: &str) -> Option<Applied> {
    let name = named(alloc, name)?;
    let text = Text::of(Vec::from_slice(alloc, text.as_bytes()).ok()?);
    let mut steps = Steps::new(Counted::new());
    project.apply(Edit::Put { name, text }, &mut steps).ok()
}

/// The place of the file under a name.
fn place_of(files: &[File], name: &str) -> Option<usize>
    ensures { IfSome result (λ place. place < length files.now) }
{
    files.iter().position(|file| file.name.as_str() == name)
}

impl Book {
    /// A book without files.
    pub fn open(alloc: Global) -> Option<Book> {
        Some(Book {
            project: opened(alloc)?,
            files: Vec::new(alloc),
        })
    }

    /// Puts a text under a name.
    pub fn put(&mut self, alloc: Global, name: &str, text: &str) -> Option<()> {
        put(alloc, &mut self.project, name, text)?;
        let name = String::from_str(alloc, name).ok()?;
        let text = String::from_str(alloc, text).ok()?;
        match place_of(&self.files, name.as_str()) {
            Some(place) => {
                self.files[place] = File { name, text };
                Some(())
            }
            None => self.files.push(File { name, text }).ok(),
        }
    }

    /// Drops the text under a name.
    pub fn drop(&mut self, alloc: Global, name: &str) -> Option<()> {
        let mut steps = Steps::new(Counted::new());
        let edit = Edit::Drop {
            name: named(alloc, name)?,
        };
        self.project.apply(edit, &mut steps).ok()?;
        let place = place_of(&self.files, name)?;
        self.files.remove(place);
        Some(())
    }

    /// A project to which the present files were given anew.
    pub fn anew(&self, alloc: Global) -> Option<Project> {
        let mut project = opened(alloc)?;
        for file in &self.files {
            put(alloc, &mut project, file.name.as_str(), file.text.as_str())?;
        }
        Some(project)
    }
}
