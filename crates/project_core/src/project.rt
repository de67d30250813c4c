ghost use Rattle.std.specs.Prelude.{◌≡◌, ◌<◌, ◌^◌, All as Each, IfOk, Some, length};
ghost use Rattle.book_model.specs.Files.{name_at};
ghost use Rattle.book_model.specs.Live.{IsLiveElement, IsLiveMember, IsLiveReference, NamesLive};
ghost use Rattle.book_model.specs.Queries.{faults_query, file_query, label, links_query, member_place};
ghost use Rattle.book_model.specs.Queries.{names_query, print_query, reference_place};
ghost use Rattle.book_model.specs.Queries.{text_of_reference};
ghost use Rattle.book_model.specs.Proper.{IsProperLibrary};
ghost use Rattle.project_book.specs.Held.{IsApplied, IsOpened, texts_of};
ghost use Rattle.project_answers.specs.ImpliedLines.{IsLiveImplied};
ghost use Rattle.linked_project.specs.Answered.{HasItsFiles, IsAnswered, IsFound, IsImplied, IsSpelt, IsTold};
ghost use Rattle.linked_project.specs.Listed.{IsLiveFault, IsLiveRow};

use book_links::BookLinks;
use book_model::{Edit, FaultRows, FileReport, LinkRows, Place, Printed};
use demand_core::{Ledger, Steps};
use element_store::{ElementNo, FileName, FileNo, MemberNo, Outcome, RefNo, Text};
use implied_rules::ImpliedRows;
use library_texts::LibraryFile;
use linked_project::{FileNames, LinkedProject, QueryFault};
use linker_base::NoMemory;
use project_book::{Applied, ApplyFault};
use std::alloc::Global;
use std::marker::Model;

/// A book of files over a library, with what becomes of their references. Contracts see what it holds: the
/// files, each with its text and what the text is read as, and the mark of a project that want of memory
/// broke. Nothing clears the mark.
#[derive(Drop)]
pub struct Project {
    linked: LinkedProject<BookLinks>,
}

impl Model for Project {
    ghost use Rattle.project_book.specs.Held.{Held};

    ghost Value = { Held };

    ghost view = { λ p. p.linked };
}

impl Project {
    /// An empty book over a library, whose files stand first in the numbers of files; its references are linked.
    /// A library text that isn't in the profile has no elements. The library has at most 64 files, each of at
    /// most 1,048,576 bytes, with distinct names that no file of the book can have. `NoMemory` leaves nothing.
    pub fn open<L: Ledger>(
        alloc: Global,
        library: &[LibraryFile],
        steps: &mut Steps<L>,
    ) -> Result<Project, NoMemory>
        requires { IsProperLibrary (texts_of library.now) }
        ensures opened { IfOk result (IsOpened library.now) }
        ensures files { IfOk result HasItsFiles }
        ensures steps { steps.new ≡ steps.old }
    {
        let _ = &*steps;
        let linked = LinkedProject::open(alloc, library)?;
        Ok(Project { linked })
    }

    /// Edits the book and links what the edit may have changed: a put reads its text to its model or its fault,
    /// and later queries answer by the least linking of the new book.
    ///
    /// `NotThere` comes exactly where a drop finds no text, and `Limit` exactly where a put would pass a number
    /// of the book, in the order file, names, all texts, with that number; then the project is as it was.
    /// `NoMemory` breaks the project. `Broken` comes exactly where an earlier edit answered `NoMemory`, before
    /// every other answer.
    pub fn apply<L: Ledger>(
        &mut self,
        edit: Edit,
        steps: &mut Steps<L>,
    ) -> Result<Applied, ApplyFault>
        ensures applied { IsApplied self.old self.new edit result }
        ensures files { HasItsFiles self.new }
        ensures steps { steps.new ≡ steps.old }
    {
        let applied = self.linked.apply(edit, steps);
        // A look at the files tells that they are those of the book.
        let _ = self.linked.files();
        applied
    }

    /// What the book holds under a name: the numbers of the elements of its model, without the root, and of its
    /// references; or the fault of its text, with the place of the fault. It takes no memory.
    ///
    /// `NoSuchFile` comes exactly where no text is present under the name. `Broken` comes exactly where the mark
    /// is set, before every other answer, here and in every query.
    pub fn file(&self, name: &FileName) -> Result<FileReport, QueryFault>
        ensures { IsTold self.now.broken (file_query self.now.files name.now) result }
    {
        self.linked.file(name)
    }

    /// The references of a file in rising place, each with its role, its place and what became of it in the
    /// least linking (KerML 8.2.3.5, name resolution). A file with a fault has none.
    ///
    /// `NoSuchFile` comes exactly where no text is present under the name.
    pub fn links(&self, name: &FileName) -> Result<LinkRows, QueryFault>
        ensures answered { IsAnswered self.now.broken (links_query self.now.files name.now) result }
        ensures live { IfOk result (λ rows. Each (IsLiveRow self.now.files) rows) }
    {
        self.linked.links(name)
    }

    /// The names of the present files, in byte order.
    pub fn names(&self) -> Result<FileNames, QueryFault>
        ensures { IsAnswered self.now.broken (Some (names_query self.now.files)) result }
    {
        self.linked.names()
    }

    /// What is wrong with the present files, in byte order of their names: the fault of a file with its place,
    /// or those of its rows that aren't linked, in rising place.
    pub fn faults(&self) -> Result<FaultRows, QueryFault>
        ensures answered { IsAnswered self.now.broken (Some (faults_query self.now.files)) result }
        ensures live { IfOk result (λ rows. Each (IsLiveFault self.now.files) rows) }
    {
        self.linked.faults()
    }

    /// The path of an element from below the root of its file, joined by `::` and spelt in the language of the
    /// file: of each part its name, else its short name, else `#` and its number.
    pub fn label(&self, element: ElementNo) -> Result<Text, QueryFault>
        requires { IsLiveElement self.now.files element }
        ensures { IsAnswered self.now.broken (Some (label self.now.files element)) result }
    {
        self.linked.label(element)
    }

    /// A reference as it is written, spelt in the language of its file: `$::` where that stands, its names, and
    /// the steps of its chain, each behind a `.`. The stars of an import are no part of it.
    pub fn text_of(&self, reference: RefNo) -> Result<Text, QueryFault>
        requires { IsLiveReference self.now.files reference }
        ensures { IsAnswered self.now.broken
            (Some (text_of_reference self.now.files reference)) result }
    {
        self.linked.text_of(reference)
    }

    /// The name of a file.
    pub fn file_text(&self, file: FileNo) -> Result<Text, QueryFault>
        requires { file.0 < length self.now.files }
        ensures { IsAnswered self.now.broken (Some (name_at self.now.files file)) result }
    {
        self.linked.file_text(file)
    }

    /// The line and the column of the first token of a member, its visibility word included. It takes no memory.
    pub fn member_place(&self, member: MemberNo) -> Result<Place, QueryFault>
        requires { IsLiveMember self.now.files member }
        ensures { IsTold self.now.broken (Some (member_place self.now.files member)) result }
    {
        self.linked.member_place(member)
    }

    /// The line and the column of the first token of a reference. It takes no memory.
    pub fn reference_place(&self, reference: RefNo) -> Result<Place, QueryFault>
        requires { IsLiveReference self.now.files reference }
        ensures { IsTold self.now.broken
            (Some (reference_place self.now.files reference)) result }
    {
        self.linked.reference_place(reference)
    }

    /// The types of the present files that specialise the base of their kind by implication (KerML 8.4.2), or an
    /// enumerated value the enumeration that owns it, where no chain of explicit generals leads there: in byte
    /// order of the names of files, and then in the order of elements, each with the member that owns it.
    pub fn implied(&self) -> Result<ImpliedRows, QueryFault>
        ensures implied { IsImplied self.now result }
        ensures live { IfOk result (Each (IsLiveImplied self.now.files)) }
    {
        self.linked.implied()
    }

    /// The canonical text of the model of a file: each item on a line of its own, four blanks for each body in
    /// which it stands, names quoted and brackets written only where they have to be; or the fault of its text,
    /// with the place of the fault.
    ///
    /// `NoSuchFile` comes exactly where no text is present under the name.
    pub fn print(&self, name: &FileName) -> Result<Printed, QueryFault>
        ensures { IsAnswered self.now.broken (print_query self.now.files name.now) result }
    {
        self.linked.print(name)
    }

    /// What becomes of a qualified name that is asked for from outside, over the least linking; it may hang on
    /// a circle too.
    ///
    /// `BadName` comes exactly where the lexer refuses the words as SysML, or their tokens are no
    /// `[ '$' '::' ] NAME { '::' NAME }`.
    pub fn find(&self, words: &[u8]) -> Result<Outcome, QueryFault>
        requires { length words.now < 2 ^ 32 }
        ensures found { IsFound self.now words.now result }
        ensures live { IfOk result (NamesLive self.now.files) }
    {
        self.linked.find(words)
    }

    /// The canonical spelling of words as SysML: of one qualified name, or of two with ` in ` between them.
    ///
    /// `BadName` comes exactly where the lexer refuses the words, or their tokens are neither.
    pub fn spell_words(&self, words: &[u8]) -> Result<Text, QueryFault>
        requires { length words.now < 2 ^ 32 }
        ensures { IsSpelt self.now.broken words.now result }
    {
        self.linked.spell_words(words)
    }
}
