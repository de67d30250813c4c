ghost use Rattle.std.specs.Prelude.{◌≡◌, ◌<◌, ◌≤◌, ◌∷◌, ◌++◌, ℕ, List, [], None, Some, IfNone, IfOk, IfSome, OnErr, OnOk};
ghost use Rattle.std.specs.Prelude.{false, length, map};
ghost use Rattle.std.specs.Option.{option_map};
ghost use Rattle.linker_base.specs.Members.{IsMember};
ghost use Rattle.linker_base.specs.declared.limits.TheConstants.{FILE_BYTES};
ghost use Rattle.element_store.specs.FileNames.{is_file_name};
ghost use Rattle.book_model.specs.Book.{put_in, text_in};
ghost use Rattle.book_model.specs.Files.{name_at, number_under, with_content};
ghost use Rattle.book_model.specs.Readings.{language_of};
ghost use Rattle.project_files.specs.Kept.{content_of, with_content_at};
ghost use Rattle.project_book.specs.Named.{AreRead, IsKeptUnder, IsNumberUnder, IsOwn, IsReadAs, book_of, library_in, with_name};

use crate::reading::{ReadText, read};
use element_store::{FileName, FileNo, Language, Text};
use indexmap::IndexMap;
use library_texts::LibraryFile;
use linker_base::NoMemory;
use project_files::{Kept, ProjectFiles};
use std::alloc::Global;
use std::marker::Model;

/// The files of a library and of a book over it, with the numbers of the book's by their names. Contracts see
/// the files, each of which is read from its text; those of the library stand first.
#[derive(Drop)]
pub(crate) struct NamedFiles {
    files: ProjectFiles,
    numbers: IndexMap<FileName, FileNo>,
}

impl Model for NamedFiles {
    ghost use Rattle.std.specs.Prelude.{List, ◌≡◌};
    ghost use Rattle.book_model.specs.Files.{ProjectFile};
    ghost use Rattle.project_book.specs.Named.{AreRead, numbers_from};

    ghost Value = { List ProjectFile };

    ghost view = { λ n. n.files };

    ghost invariant = { λ n. AreRead n.files × (n.numbers.entries ≡ numbers_from 0 n.files) };
}

/// The language in which the file of a name is written.
fn language_of(name: &FileName) -> Language
    ensures { result ≡ language_of name.now }
{
    name.language()
}

/// The language in which a file of the library is written.
fn language_of_library(name: &str) -> Language
    ensures { result ≡ language_of name.now }
{
    if name.as_bytes().ends_with(b".sysml") {
        Language::Sysml
    } else {
        Language::Kerml
    }
}

/// A text of these bytes.
fn copied(alloc: Global, bytes: &[u8]) -> Result<Text, NoMemory>
    ensures { IfOk result (λ text. text ≡ bytes.now) }
{
    Ok(Text::of(Vec::from_slice(alloc, bytes)?))
}

/// Reads the text of a file of the library.
fn read_library(alloc: Global, number: FileNo, file: &LibraryFile) -> Result<ReadText, NoMemory>
    requires { length file.now.text.now ≤ FILE_BYTES }
    ensures as_read { IfOk result (λ read. IsReadAs number (language_of file.now.name.now)
        read.text read.fault read.model) }
    ensures text { IfOk result (λ read. read.text ≡ file.now.text.now) }
{
    let language = language_of_library(file.name);
    let text = copied(alloc, file.text)?;
    read(alloc, number, text, language)
}

impl NamedFiles {
    /// No files, which takes no memory.
    pub fn new(alloc: Global) -> NamedFiles
        ensures { result ≡ [] }
    {
        NamedFiles {
            files: ProjectFiles::new(alloc),
            numbers: IndexMap::new(alloc),
        }
    }

    /// Lends the files, each of which is read from its text.
    pub fn files(&self) -> &ProjectFiles
        ensures lent { result.now ≡ self.now }
        ensures read { AreRead self.now }
    {
        &self.files
    }

    /// The number of the file under a name, if the book has the name.
    pub fn number(&self, name: &FileName) -> Option<FileNo>
        ensures { IsNumberUnder self.now name.now result }
    {
        self.numbers.get(name).copied()
    }

    /// How many files there are.
    pub fn count(&self) -> u32
        ensures { result ≡ length self.now }
    {
        self.files.count()
    }

    /// How many names the book has with this one.
    pub fn count_with(&self, name: &FileName) -> usize
        ensures { (text : List ℕ) → result ≡ length (put_in (book_of self.now) name.now text) }
    {
        let count = self.numbers.len();
        match self.number(name) {
            Some(_) => count,
            None => count + 1,
        }
    }

    /// How many bytes the text under a name has, if one stands there.
    pub fn size(&self, name: &FileName) -> Option<usize>
        ensures { result ≡ option_map length (text_in (book_of self.now) name.now) }
    {
        match self.number(name) {
            Some(file) => self.files.size(file),
            None => None,
        }
    }

    /// The number of the file under a name. A new name will have the number after the last one.
    fn place(&self, name: &FileName) -> FileNo
        ensures { result.0 ≡ number_under self.now name.now }
    {
        match self.number(name) {
            Some(file) => file,
            None => FileNo(self.count()),
        }
    }

    /// Adds a file without a text under a new name. After `NoMemory` the files are as they were.
    fn add(&mut self, alloc: Global, name: FileName) -> Result<(), NoMemory>
        requires fresh { number_under self.old name ≡ length self.old }
        requires room { length self.old < 4294967295 }
        ensures entered { OnOk result (self.new ≡ with_name self.old name) }
        ensures err { OnErr result (self.new ≡ self.old) }
    {
        // The room for the number is taken first, so that want of memory changes nothing.
        let bytes = Vec::from_slice(alloc, name.bytes())?;
        self.numbers.reserve(1)?;
        let file = self.files.add(Text::of(bytes), false)?;
        match self.numbers.insert(name, file) {
            Ok(_) => Ok(()),
            Err(_) => unreachable!(),
        }
    }

    /// Sees to it that there is a file under a name. After `NoMemory` the files are as they were.
    fn enter(&mut self, alloc: Global, name: FileName) -> Result<(), NoMemory>
        requires room { length self.old < 4294967295 }
        ensures entered { OnOk result (self.new ≡ with_name self.old name) }
        ensures err { OnErr result (self.new ≡ self.old) }
    {
        match self.number(&name) {
            Some(_) => Ok(()),
            None => self.add(alloc, name),
        }
    }

    /// Adds a file of the library with what its text is read as. The book has no files yet. After `NoMemory` the
    /// files are as they were.
    fn add_read(&mut self, name: Text, number: FileNo, read: ReadText) -> Result<(), NoMemory>
        requires alone { book_of self.old ≡ [] }
        requires apart { is_file_name name ≡ false }
        requires fresh { IsMember (map (λ e. e.0) (library_in self.old)) name → ⊥ }
        requires place { number.0 ≡ length self.old }
        requires as_read { IsReadAs number (language_of name) read.text read.fault read.model }
        requires room { length self.old < 4294967295 }
        ensures added { OnOk result (library_in self.new
            ≡ library_in self.old ++ (name, read.text) ∷ []) }
        ensures alone { book_of self.new ≡ [] }
        ensures err { OnErr result (self.new ≡ self.old) }
    {
        self.files.add(name, true)?;
        let ReadText { text, fault, model } = read;
        self.files.put(number, Kept { text, fault }, model);
        Ok(())
    }

    /// Adds a file of the library. The book has no files yet. After `NoMemory` the files are as they were.
    pub fn add_library(&mut self, alloc: Global, file: &LibraryFile) -> Result<(), NoMemory>
        requires alone { book_of self.old ≡ [] }
        requires apart { is_file_name file.now.name.now ≡ false }
        requires fresh { IsMember (map (λ e. e.0) (library_in self.old)) file.now.name.now → ⊥ }
        requires short { length file.now.text.now ≤ FILE_BYTES }
        requires room { length self.old < 4294967295 }
        ensures added { OnOk result (library_in self.new
            ≡ library_in self.old ++ (file.now.name.now, file.now.text.now) ∷ []) }
        ensures alone { book_of self.new ≡ [] }
        ensures err { OnErr result (self.new ≡ self.old) }
    {
        let number = FileNo(self.count());
        let read = read_library(alloc, number, file)?;
        let name = copied(alloc, file.name.as_bytes())?;
        self.add_read(name, number, read)
    }

    /// Keeps a text under a file of the book, with what it is read as.
    fn set(&mut self, file: FileNo, read: ReadText)
        requires stands { file.0 < length self.old }
        requires own { IsOwn self.old file }
        requires as_read { let language = language_of (name_at self.old file) in
            IsReadAs file language read.text read.fault read.model }
        ensures { self.new ≡ with_content_at self.old file.0 (content_of (Some read.model)
            (Some (record { text = read.text; fault = read.fault }))) }
    {
        let ReadText { text, fault, model } = read;
        self.files.put(file, Kept { text, fault }, model);
    }

    /// Keeps a text under a name, with what it is read as in the file of that number.
    fn keep_read(
        &mut self,
        alloc: Global,
        name: FileName,
        file: FileNo,
        read: ReadText,
    ) -> Result<(), NoMemory>
        requires place { file.0 ≡ number_under self.old name }
        requires as_read { IsReadAs file (language_of name) read.text read.fault read.model }
        requires room { length self.old < 4294967295 }
        ensures kept { OnOk result (self.new ≡ with_content self.old name
            (content_of (Some read.model)
            (Some (record { text = read.text; fault = read.fault })))) }
        ensures err { OnErr result (self.new ≡ self.old) }
    {
        self.enter(alloc, name)?;
        self.set(file, read);
        Ok(())
    }

    /// Reads a text and keeps it under a name, and gives the number of its file. After `NoMemory` the files
    /// are as they were.
    pub fn keep(&mut self, alloc: Global, name: FileName, text: Text) -> Result<FileNo, NoMemory>
        requires short { length text ≤ FILE_BYTES }
        requires room { length self.old < 4294967295 }
        ensures kept { IfOk result (λ file. IsKeptUnder self.old self.new name text file) }
        ensures err { OnErr result (self.new ≡ self.old) }
    {
        let file = self.place(&name);
        let read = read(alloc, file, text, language_of(&name))?;
        self.keep_read(alloc, name, file, read)?;
        Ok(file)
    }

    /// Lets the text under a name go, and says how many bytes it had. The name stays, and nothing changes
    /// where no text stands there.
    pub fn clear(&mut self, name: &FileName) -> Option<usize>
        ensures size { result ≡ option_map length (text_in (book_of self.old) name.now) }
        ensures cleared { IfSome result (λ _. self.new ≡ with_content self.old name.now None) }
        ensures none { IfNone result (self.new ≡ self.old) }
    {
        match self.number(name) {
            Some(file) => match self.files.size(file) {
                Some(size) => {
                    self.files.clear(file);
                    Some(size)
                }
                None => None,
            },
            None => None,
        }
    }
}
