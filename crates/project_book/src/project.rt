ghost use Rattle.std.specs.Prelude.{◌≡◌, Some, IfOk, false};
ghost use Rattle.book_model.specs.declared.edit.Edit.TheVariants.{Drop as Dropped};
ghost use Rattle.book_model.specs.Proper.{IsProperLibrary};
ghost use Rattle.book_model.specs.Queries.{print_query};
ghost use Rattle.project_book.specs.Held.{IsApplied, IsOpened, IsPut, IsRoomFor, texts_of};
ghost use Rattle.project_book.specs.Named.{AreOfBook, HaveMoved, IsNumberUnder, book_of};

use crate::faults::{Applied, ApplyFault};
use crate::named::NamedFiles;
use book_model::{Edit, FileReport, Printed};
use demand_core::{Ledger, Steps};
use element_store::{FileName, FileNo, Text};
use library_texts::LibraryFile;
use linker_base::NoMemory;
use linker_base::limits::{BOOK_BYTES, FILE_BYTES, NAMES};
use model_printer::print;
use project_files::ProjectFiles;
use std::alloc::Global;
use std::marker::Model;

/// A project: a book of files over a library, each read to its model or its fault. Contracts see the files,
/// those of the library first, and the mark of a project that want of memory broke.
#[derive(Drop)]
pub struct Project {
    alloc: Global,
    named: NamedFiles,
    // The bytes of all present texts.
    bytes: usize,
    broken: bool,
}

impl Model for Project {
    ghost use Rattle.project_book.specs.Held.{Held, IsSized};

    ghost Value = { Held };

    ghost view = { λ p. record { files = p.named; broken = p.broken } };

    ghost invariant = { λ p. IsSized p.named p.bytes };
}

impl Project {
    /// An empty book over a library. A text of the library that isn't in the profile has no elements.
    pub fn open(alloc: Global, library: &[LibraryFile]) -> Result<Project, NoMemory>
        requires { IsProperLibrary (texts_of library.now) }
        ensures { IfOk result (IsOpened library.now) }
    {
        let mut named = NamedFiles::new(alloc);
        for file in library {
            named.add_library(alloc, file)?;
        }
        Ok(Project {
            alloc,
            named,
            bytes: 0,
            broken: false,
        })
    }

    /// Lends the files of the library and of the book.
    pub fn files(&self) -> &ProjectFiles
        ensures lent { result.now ≡ self.now.files }
        ensures are { AreOfBook self.now.files }
    {
        self.named.files()
    }

    /// The number of the file under a name, if the book has the name.
    pub fn number(&self, name: &FileName) -> Option<FileNo>
        ensures { IsNumberUnder self.now.files name.now result }
    {
        self.named.number(name)
    }

    /// Whether want of memory broke the project.
    pub fn is_broken(&self) -> bool
        ensures { result ≡ self.now.broken }
    {
        self.broken
    }

    /// The bytes of all present texts after a put of so many bytes under a name, or the number of the book that
    /// it would pass.
    pub fn bytes_after(&self, name: &FileName, size: usize) -> Result<usize, u64>
        ensures { IsRoomFor (book_of self.now.files) name.now size result }
    {
        if size > FILE_BYTES {
            return Err(FILE_BYTES as u64);
        }
        if self.named.count_with(name) > NAMES {
            return Err(NAMES as u64);
        }
        let bytes = self.bytes + size - self.named.size(name).unwrap_or(0);
        if bytes > BOOK_BYTES {
            return Err(BOOK_BYTES as u64);
        }
        Ok(bytes)
    }

    /// Puts a text under a name, and gives the number of its file. `Limit` comes exactly where the put
    /// would pass a number of the book, with that number. A text with a fault is kept with its fault.
    pub fn put(&mut self, name: FileName, text: Text) -> Result<FileNo, ApplyFault>
        ensures put { IsPut self.old self.new (name, text) result }
        ensures files { HaveMoved self.old.files self.new.files name }
    {
        if self.broken {
            return Err(ApplyFault::Broken);
        }
        // A look at the files tells that each is read from its text.
        let _ = self.named.files();
        let bytes = match self.bytes_after(&name, text.bytes().len()) {
            Ok(bytes) => bytes,
            Err(number) => return Err(ApplyFault::Limit(number)),
        };
        match self.named.keep(self.alloc, name, text) {
            Ok(file) => {
                self.bytes = bytes;
                Ok(file)
            }
            Err(_) => {
                self.broken = true;
                Err(ApplyFault::NoMemory)
            }
        }
    }

    /// Drops the text under a name. The name stays, and counts. `NotThere` comes exactly where no text
    /// stands under it.
    pub fn remove(&mut self, name: &FileName) -> Result<Applied, ApplyFault>
        ensures applied { IsApplied self.old self.new (Dropped name.now) result }
        ensures files { HaveMoved self.old.files self.new.files name.now }
    {
        if self.broken {
            return Err(ApplyFault::Broken);
        }
        let _ = self.named.files();
        match self.named.clear(name) {
            Some(size) => {
                self.bytes -= size;
                Ok(Applied::Changed)
            }
            None => Ok(Applied::NotThere),
        }
    }

    /// What printing the file under a name gives, if its text is present: the canonical text of its model, or the
    /// fault of its text.
    pub fn print(&self, name: &FileName) -> Result<Option<Printed>, NoMemory>
        ensures { IfOk result (λ printed. printed ≡ print_query self.now.files name.now) }
    {
        let files = self.named.files();
        let Some(file) = self.named.number(name) else {
            return Ok(None);
        };
        match files.report(file) {
            None => Ok(None),
            Some(FileReport::Refused { fault, place }) => {
                Ok(Some(Printed::Refused { fault, place }))
            }
            Some(FileReport::In { .. }) => {
                let text = print(self.alloc, files.model(file))?;
                Ok(Some(Printed::Text(text)))
            }
        }
    }

    /// Edits the book. `Broken` comes exactly where an earlier edit of this project answered `NoMemory`,
    /// and before every other answer.
    pub fn apply<L: Ledger>(
        &mut self,
        edit: Edit,
        steps: &mut Steps<L>,
    ) -> Result<Applied, ApplyFault>
        ensures applied { IsApplied self.old self.new edit result }
        ensures steps { steps.new ≡ steps.old }
    {
        let _ = &*steps;
        match edit {
            Edit::Put { name, text } => match self.put(name, text) {
                Ok(_) => Ok(Applied::Changed),
                Err(fault) => Err(fault),
            },
            Edit::Drop { name } => self.remove(&name),
        }
    }
}
