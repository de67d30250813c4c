ghost use Rattle.std.specs.Prelude.{◌≡◌, ◌<◌, ◌^◌, All as Each, IfOk, OnOk, Some, false, length};
ghost use Rattle.book_model.specs.declared.edit.Edit.TheVariants.{Drop as Dropped, Put};
ghost use Rattle.book_model.specs.Files.{name_at};
ghost use Rattle.book_model.specs.Live.{IsLiveElement, IsLiveMember, IsLiveReference, NamesLive};
ghost use Rattle.book_model.specs.Queries.{faults_query, file_query, label, links_query, member_place};
ghost use Rattle.book_model.specs.Queries.{names_query, print_query, reference_place};
ghost use Rattle.book_model.specs.Queries.{text_of_reference};
ghost use Rattle.book_model.specs.Proper.{IsProperLibrary};
ghost use Rattle.project_book.specs.Held.{IsApplied, IsOpened, texts_of};
ghost use Rattle.project_answers.specs.ImpliedLines.{IsLiveImplied};
ghost use Rattle.linked_project.specs.Answered.{HasItsFiles, IsAnswered, IsFound, IsImplied, IsSpelt, IsTold};
ghost use Rattle.linked_project.specs.Listed.{IsLiveFault, IsLiveRow};

use crate::asked_pair::{pair_in, spelling_of};
use crate::edits::{drop_linked, put_linked};
use crate::fault_rows::fault_rows;
use crate::file_names::{FileNames, file_names};
use crate::finding::found;
use crate::link_rows::link_rows;
use crate::query_fault::QueryFault;
use crate::texts::{label_text, name_text, reference_text};
use book_model::{Edit, FaultRows, FileReport, LinkRows, Place, Printed};
use demand_core::{Ledger, Steps};
use element_store::{ElementNo, FileName, FileNo, MemberNo, Outcome, RefNo, Text};
use implied_rules::ImpliedRows;
use library_texts::LibraryFile;
use linker_base::NoMemory;
use project_answers::{Linking, name_in, present};
use project_book::{Applied, ApplyFault, Project};
use project_files::ProjectFiles;
use std::alloc::Global;
use std::marker::Model;

/// A book of files whose references are linked after each edit. Contracts see what it holds: its files, and
/// the mark of a project that want of memory broke.
#[derive(Drop)]
pub struct LinkedProject<G: Linking> {
    alloc: Global,
    book: Project,
    links: G,
    broken: bool,
}

impl<G: Linking> Model for LinkedProject<G> {
    ghost use Rattle.std.specs.Prelude.{◌≡◌, false};
    ghost use Rattle.book_model.specs.Files.{stored};
    ghost use Rattle.project_answers.specs.Holds.{all_linked};
    ghost use Rattle.project_book.specs.Held.{Held};

    ghost Value = { Held };

    ghost view = { λ p. record { files = p.book.files; broken = p.broken } };

    ghost invariant = { λ p. p.broken ≡ false
        → G.follows p.links ≡ all_linked (stored p.book.files) };
}

impl<G: Linking> LinkedProject<G> {
    /// An empty book over a library, whose references are linked.
    pub fn open(alloc: Global, library: &[LibraryFile]) -> Result<Self, NoMemory>
        requires { IsProperLibrary (texts_of library.now) }
        ensures opened { IfOk result (IsOpened library.now) }
        ensures files { IfOk result HasItsFiles }
    {
        let book = Project::open(alloc, library)?;
        let mut links = G::none(alloc);
        links.link(book.files().models())?;
        Ok(LinkedProject {
            alloc,
            book,
            links,
            broken: false,
        })
    }

    /// Puts a text under a name.
    fn put(&mut self, name: FileName, text: Text) -> Result<Applied, ApplyFault>
        requires { self.old.broken ≡ false }
        ensures { IsApplied self.old self.new (Put name text) result }
    {
        // A put that would pass a number is refused before the links are touched.
        if let Err(number) = self.book.bytes_after(&name, text.bytes().len()) {
            return Err(ApplyFault::Limit(number));
        }
        match put_linked(&mut self.links, &mut self.book, name, text) {
            Ok(applied) => Ok(applied),
            Err(_) => {
                self.broken = true;
                Err(ApplyFault::NoMemory)
            }
        }
    }

    /// Drops the text under a name.
    fn remove(&mut self, name: &FileName) -> Result<Applied, ApplyFault>
        requires { self.old.broken ≡ false }
        ensures { IsApplied self.old self.new (Dropped name.now) result }
    {
        // A look at the files tells that they are those of the book.
        let _ = self.book.files();
        // Where nothing is dropped the links aren't touched.
        if present(&self.book, name).is_none() {
            return Ok(Applied::NotThere);
        }
        match drop_linked(&mut self.links, &mut self.book, name) {
            Ok(applied) => Ok(applied),
            Err(_) => {
                self.broken = true;
                Err(ApplyFault::NoMemory)
            }
        }
    }

    /// Edits the book and links what the edit may have changed. `Broken` comes exactly where an earlier edit
    /// answered `NoMemory`, and before every other answer. A refused edit leaves the project as it was.
    pub fn apply<L: Ledger>(
        &mut self,
        edit: Edit,
        steps: &mut Steps<L>,
    ) -> Result<Applied, ApplyFault>
        ensures applied { IsApplied self.old self.new edit result }
        ensures steps { steps.new ≡ steps.old }
    {
        let _ = &*steps;
        if self.broken {
            return Err(ApplyFault::Broken);
        }
        match edit {
            Edit::Put { name, text } => self.put(name, text),
            Edit::Drop { name } => self.remove(&name),
        }
    }

    /// Lends the files, which are those of the book, whether or not the project is broken.
    pub fn files(&self) -> &ProjectFiles
        ensures lent { result.now ≡ self.now.files }
        ensures are { HasItsFiles self.now }
    {
        self.book.files()
    }

    /// What the book holds under a name.
    pub fn file(&self, name: &FileName) -> Result<FileReport, QueryFault>
        ensures { IsTold self.now.broken (file_query self.now.files name.now) result }
    {
        if self.broken {
            return Err(QueryFault::Broken);
        }
        match present(&self.book, name) {
            Some(file) => match self.book.files().report(file) {
                Some(report) => Ok(report),
                None => Err(QueryFault::NoSuchFile),
            },
            None => Err(QueryFault::NoSuchFile),
        }
    }

    /// The rows of a file: one for each of its references, in rising place.
    pub fn links(&self, name: &FileName) -> Result<LinkRows, QueryFault>
        ensures answered { IsAnswered self.now.broken (links_query self.now.files name.now) result }
        ensures live { IfOk result (λ rows. Each (IsLiveRow self.now.files) rows) }
    {
        if self.broken {
            return Err(QueryFault::Broken);
        }
        let Some(file) = present(&self.book, name) else {
            return Err(QueryFault::NoSuchFile);
        };
        match link_rows(self.alloc, self.book.files(), &self.links, file) {
            Ok(rows) => Ok(rows),
            Err(_) => Err(QueryFault::NoMemory),
        }
    }

    /// The names of the present files, in byte order.
    pub fn names(&self) -> Result<FileNames, QueryFault>
        ensures { IsAnswered self.now.broken (Some (names_query self.now.files)) result }
    {
        if self.broken {
            return Err(QueryFault::Broken);
        }
        match file_names(self.alloc, self.book.files()) {
            Ok(names) => Ok(names),
            Err(_) => Err(QueryFault::NoMemory),
        }
    }

    /// What is wrong with the present files, in byte order of their names: the fault of a file with its place,
    /// or its rows that aren't linked in rising place.
    pub fn faults(&self) -> Result<FaultRows, QueryFault>
        ensures answered { IsAnswered self.now.broken (Some (faults_query self.now.files)) result }
        ensures live { IfOk result (λ rows. Each (IsLiveFault self.now.files) rows) }
    {
        if self.broken {
            return Err(QueryFault::Broken);
        }
        match fault_rows(self.alloc, self.book.files(), &self.links) {
            Ok(rows) => Ok(rows),
            Err(_) => Err(QueryFault::NoMemory),
        }
    }

    /// The label of an element: its path from below the root of its file, spelt in the language of the file.
    pub fn label(&self, element: ElementNo) -> Result<Text, QueryFault>
        requires { IsLiveElement self.now.files element }
        ensures { IsAnswered self.now.broken (Some (label self.now.files element)) result }
    {
        if self.broken {
            return Err(QueryFault::Broken);
        }
        match label_text(self.alloc, self.book.files(), element) {
            Ok(text) => Ok(text),
            Err(_) => Err(QueryFault::NoMemory),
        }
    }

    /// A reference as it is written, spelt in the language of its file.
    pub fn text_of(&self, reference: RefNo) -> Result<Text, QueryFault>
        requires { IsLiveReference self.now.files reference }
        ensures { IsAnswered self.now.broken
            (Some (text_of_reference self.now.files reference)) result }
    {
        if self.broken {
            return Err(QueryFault::Broken);
        }
        match reference_text(self.alloc, self.book.files(), reference) {
            Ok(text) => Ok(text),
            Err(_) => Err(QueryFault::NoMemory),
        }
    }

    /// The name of a file.
    pub fn file_text(&self, file: FileNo) -> Result<Text, QueryFault>
        requires { file.0 < length self.now.files }
        ensures { IsAnswered self.now.broken (Some (name_at self.now.files file)) result }
    {
        if self.broken {
            return Err(QueryFault::Broken);
        }
        match name_text(self.alloc, self.book.files(), file) {
            Ok(text) => Ok(text),
            Err(_) => Err(QueryFault::NoMemory),
        }
    }

    /// The line and the column of the first token of a member.
    pub fn member_place(&self, member: MemberNo) -> Result<Place, QueryFault>
        requires { IsLiveMember self.now.files member }
        ensures { IsTold self.now.broken (Some (member_place self.now.files member)) result }
    {
        if self.broken {
            return Err(QueryFault::Broken);
        }
        Ok(self.book.files().member_place(member))
    }

    /// The line and the column of the first token of a reference.
    pub fn reference_place(&self, reference: RefNo) -> Result<Place, QueryFault>
        requires { IsLiveReference self.now.files reference }
        ensures { IsTold self.now.broken
            (Some (reference_place self.now.files reference)) result }
    {
        if self.broken {
            return Err(QueryFault::Broken);
        }
        Ok(self.book.files().reference_place(reference))
    }

    /// The types of the book's files that specialise their base by implication, in byte order of the names of
    /// files and then in the order of elements.
    pub fn implied(&self) -> Result<ImpliedRows, QueryFault>
        ensures implied { IsImplied self.now result }
        ensures live { IfOk result (Each (IsLiveImplied self.now.files)) }
    {
        if self.broken {
            return Err(QueryFault::Broken);
        }
        match self.links.implied(self.book.files().models()) {
            Ok(rows) => Ok(rows),
            Err(_) => Err(QueryFault::NoMemory),
        }
    }

    /// The canonical text of a file's model, or the fault of its text.
    pub fn print(&self, name: &FileName) -> Result<Printed, QueryFault>
        ensures { IsAnswered self.now.broken (print_query self.now.files name.now) result }
    {
        if self.broken {
            return Err(QueryFault::Broken);
        }
        match self.book.print(name) {
            Ok(Some(printed)) => Ok(printed),
            Ok(None) => Err(QueryFault::NoSuchFile),
            Err(_) => Err(QueryFault::NoMemory),
        }
    }

    /// What becomes of the qualified name that words are, asked for from outside. `BadName` comes exactly where
    /// they are none.
    pub fn find(&self, words: &[u8]) -> Result<Outcome, QueryFault>
        requires { length words.now < 2 ^ 32 }
        ensures found { IsFound self.now words.now result }
        ensures live { IfOk result (NamesLive self.now.files) }
    {
        if self.broken {
            return Err(QueryFault::Broken);
        }
        match name_in(self.alloc, words) {
            Ok(Some(name)) => match found(self.book.files(), &self.links, name) {
                Ok(outcome) => Ok(outcome),
                Err(_) => Err(QueryFault::NoMemory),
            },
            Ok(None) => Err(QueryFault::BadName),
            Err(_) => Err(QueryFault::NoMemory),
        }
    }

    /// The canonical spelling of the one qualified name, or the two with ` in ` between them, that words are.
    /// `BadName` comes exactly where they are none.
    pub fn spell_words(&self, words: &[u8]) -> Result<Text, QueryFault>
        requires { length words.now < 2 ^ 32 }
        ensures { IsSpelt self.now.broken words.now result }
    {
        if self.broken {
            return Err(QueryFault::Broken);
        }
        match pair_in(self.alloc, words) {
            Ok(Some(pair)) => match spelling_of(self.alloc, &pair) {
                Ok(text) => Ok(text),
                Err(_) => Err(QueryFault::NoMemory),
            },
            Ok(None) => Err(QueryFault::BadName),
            Err(_) => Err(QueryFault::NoMemory),
        }
    }
}
