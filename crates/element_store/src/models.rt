ghost use Rattle.std.specs.Prelude.{◌≡◌, ◌<◌, ◌++◌, ◌∷◌, [], Some, None, IfOk, OnOk, OnErr, IfSome, length, map, not, filter, slice_get};
ghost use Rattle.std.specs.Option.{option_copied};
ghost use Rattle.linker_base.specs.Members.{IsMember};
ghost use Rattle.element_store.specs.declared.models.StoredFile.{StoredFile};
ghost use Rattle.element_store.specs.Numbers.{those_where};
ghost use Rattle.element_store.specs.Condition.{IsModel};
ghost use Rattle.element_store.specs.BaseRules.{model_of};
ghost use Rattle.element_store.specs.Stored.{AreFiles, HasRank, stands_before, with_model};

use crate::model::FileModel;
use crate::numbers::FileNo;
use crate::texts::Text;
use linker_base::NoMemory;
use std::alloc::Global;
use std::marker::Model;

/// A file of a project.
#[derive(Drop)]
pub struct StoredFile {
    /// Its name, which no other file has.
    pub name: Text,
    /// Whether it is a file of the library.
    pub library: bool,
    /// Its model, if its text is present.
    pub model: Option<FileModel>,
}

impl StoredFile {
    /// Whether it stands before another file: project files stand before those of the library, each
    /// in byte order of their names.
    fn stands_before(&self, other: &StoredFile) -> bool
        ensures { result ≡ stands_before self.now other.now }
    {
        if self.library == other.library {
            self.name.bytes() < other.name.bytes()
        } else {
            !self.library
        }
    }
}

/// How many of the files stand before a file: its rank, whether it is among them or not.
fn rank_of(files: &[StoredFile], file: &StoredFile) -> usize
    ensures { result ≡ length (filter (λ x. stands_before x file.now) files.now) }
{
    files
        .iter()
        .filter(|other| other.stands_before(file))
        .count()
}

/// The models of a project by the numbers of their files, with the names of the files and their
/// order. A file's number is the place of its name in the order of arrival.
#[derive(Drop)]
pub struct Models {
    files: Vec<StoredFile>,
    // The numbers of the files in the order of their ranks.
    ranks: Vec<u32>,
    // How many files aren't of the library.
    project_files: u32,
}

impl Model for Models {
    ghost use Rattle.std.specs.Prelude.{List};
    ghost use Rattle.element_store.specs.declared.models.StoredFile.{StoredFile};
    ghost use Rattle.element_store.specs.Stored.{IsBook};

    ghost Value = { List StoredFile };

    ghost view = { λ m. m.files.items };

    ghost invariant = { λ m. IsBook m.files.items m.ranks.items m.project_files };
}

impl Models {
    /// A book without files, which takes no memory.
    pub fn new(alloc: Global) -> Models
        ensures { result ≡ [] }
    {
        Models {
            files: Vec::new(alloc),
            ranks: Vec::new(alloc),
            project_files: 0,
        }
    }

    /// Adds a file with no model and gives its number, which is the count of the files before it.
    /// After `NoMemory` the files are as they were.
    pub fn add(&mut self, name: Text, library: bool) -> Result<FileNo, NoMemory>
        requires fresh { IsMember (map (λ x. x.name) self.old) name → ⊥ }
        requires room { length self.old < 4294967295 }
        ensures number { IfOk result (λ n. n.0 ≡ length self.old) }
        ensures added { OnOk result (self.new ≡
            self.old ++ record { name = name; library = library; model = None } ∷ []) }
        ensures err { OnErr result (self.new ≡ self.old) }
    {
        let file = StoredFile {
            name,
            library,
            model: None,
        };
        let rank = rank_of(&self.files, &file);
        let number = self.files.len() as u32;
        // The room for the file is taken before its rank is put in, so that want of memory changes
        // nothing.
        self.files.reserve(1)?;
        self.ranks.insert(rank, number)?;
        self.files.push(file)?;
        self.project_files += u32::from(!library);
        Ok(FileNo(number))
    }

    /// Gives a file a model in place of the one that it has, or takes its model away. What else is
    /// known of the file stays, and so do all other files.
    pub fn set(&mut self, file: FileNo, model: Option<FileModel>)
        requires within { file.0 < length self.old }
        requires own { IfSome model (λ m. m.file ≡ file) }
        ensures { self.new ≡ with_model self.old file.0 model }
    {
        // A look at a model tells what holds of every model, which the book keeps of its own.
        if let Some(model) = &model {
            let _ = model.elements();
        }
        let stored = &mut self.files[file.0 as usize];
        stored.model = model;
    }

    /// Lends the model of a file. There is none where the file has none, or no file has the number.
    pub fn model(&self, file: FileNo) -> Option<&FileModel>
        ensures kept { option_copied result ≡ model_of self.now file.0 }
        ensures sound { IfSome result (λ m. (m.now.file ≡ file) × IsModel m.now) }
    {
        self.files.get(file.0 as usize)?.model.as_ref()
    }

    /// Lends the name of a file.
    pub fn name(&self, file: FileNo) -> &Text
        requires { file.0 < length self.now }
        ensures { (x : StoredFile) → slice_get self.now file.0 ≡ Some x → result.now ≡ x.name }
    {
        &self.files[file.0 as usize].name
    }

    /// Whether a file is one of the library.
    pub fn is_library(&self, file: FileNo) -> bool
        requires { file.0 < length self.now }
        ensures { (x : StoredFile) → slice_get self.now file.0 ≡ Some x → result ≡ x.library }
    {
        self.files[file.0 as usize].library
    }

    /// The number of files.
    pub fn files(&self) -> u32
        ensures count { result ≡ length self.now }
        ensures kept { AreFiles self.now }
    {
        self.files.len() as u32
    }

    /// The number of files that aren't of the library, which is the rank of the first library file.
    pub fn project_files(&self) -> u32
        ensures { result ≡ length (those_where (λ x. not x.library) self.now) }
    {
        self.project_files
    }

    /// The file before which so many others stand.
    pub fn at_rank(&self, rank: u32) -> FileNo
        requires { rank < length self.now }
        ensures ranked { HasRank self.now rank result.0 }
        ensures within { result.0 < length self.now }
    {
        FileNo(self.ranks[rank as usize])
    }
}
