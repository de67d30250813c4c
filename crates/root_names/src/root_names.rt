ghost use Rattle.std.specs.Prelude.{◌≡◌, ◌<◌, ◌+◌, ℕ, None, length, slice_get, IfOk, OnOk, OnErr, List, Some};
ghost use Rattle.element_store.specs.declared.models.StoredFile.{StoredFile};
ghost use Rattle.element_store.specs.Stored.{with_model};
ghost use Rattle.root_names.specs.Firsts.{first_models};
ghost use Rattle.root_names.specs.Roots.{bearing, AreRootsOf, HaveNoModel};

use crate::placing::put_file;
use crate::root_table::RootTable;
use crate::taking::take_file;
use element_store::{FileNo, MemberNo, Models, Name};
use linker_base::NoMemory;
use std::alloc::Global;
use std::marker::Model;

/// The public members of the roots of a project's files by the names that they bear, and so those of
/// the library's files. Under each name they stand in the order of the files, and those of one file in
/// text order.
#[derive(Drop)]
pub struct RootNames {
    project: RootTable,
    library: RootTable,
}

impl Model for RootNames {
    ghost use Rattle.root_names.specs.Roots.{Tables};

    ghost Value = { Tables };

    ghost view = { λ r. record { project = r.project; library = r.library } };
}

impl RootNames {
    /// The names of files without models, which takes no memory.
    pub fn new(alloc: Global) -> RootNames
        ensures { (files : List StoredFile) → HaveNoModel files → AreRootsOf files result }
    {
        RootNames {
            project: RootTable::new(alloc),
            library: RootTable::new(alloc),
        }
    }

    /// Puts the names of a file's root in, after the file was given its model. After `NoMemory` they
    /// are as they were.
    pub fn put_in(&mut self, alloc: Global, models: &Models, file: FileNo) -> Result<(), NoMemory>
        requires within { file.0 < length models.now }
        requires before { AreRootsOf (with_model models.now file.0 None) self.old }
        ensures ok { OnOk result (AreRootsOf models.now self.new) }
        ensures err { OnErr result (AreRootsOf (with_model models.now file.0 None) self.new) }
    {
        // A look at the files tells that no name stands twice among them.
        let _ = models.files();
        if models.is_library(file) {
            put_file(&mut self.library, alloc, models, file)
        } else {
            put_file(&mut self.project, alloc, models, file)
        }
    }

    /// Takes the names of a file's root away, before its model is taken from it or replaced.
    pub fn take_out(&mut self, models: &Models, file: FileNo)
        requires within { file.0 < length models.now }
        requires before { AreRootsOf models.now self.old }
        ensures { AreRootsOf (with_model models.now file.0 None) self.new }
    {
        let _ = models.files();
        if models.is_library(file) {
            take_file(&mut self.library, models, file);
        } else {
            take_file(&mut self.project, models, file);
        }
    }

    /// Puts the names of a file's root in, where those of the files before it stand alone.
    fn enter(&mut self, alloc: Global, models: &Models, number: FileNo) -> Result<(), NoMemory>
        requires within { number.0 < length models.now }
        requires before { AreRootsOf (first_models number.0 models.now) self.old }
        ensures { OnOk result (AreRootsOf (first_models (number.0 + 1) models.now) self.new) }
    {
        // A look at the files tells that no name stands twice among them.
        let _ = models.files();
        if models.is_library(number) {
            put_file(&mut self.library, alloc, models, number)
        } else {
            put_file(&mut self.project, alloc, models, number)
        }
    }

    /// The names of the roots of all files.
    pub fn of(alloc: Global, models: &Models) -> Result<RootNames, NoMemory>
        ensures { IfOk result (AreRootsOf models.now) }
    {
        let mut roots = RootNames::new(alloc);
        for file in 0..models.files() {
            roots.enter(alloc, models, FileNo(file))?;
        }
        Ok(roots)
    }

    /// Lends the public members of the roots of project files that bear the name, least first.
    pub fn bearers(&self, name: &Name) -> &[MemberNo]
        ensures { result.now ≡ bearing self.now.project name.now }
    {
        self.project.members(name.bytes())
    }

    /// Lends those of the library's files.
    pub fn library_bearers(&self, name: &Name) -> &[MemberNo]
        ensures { result.now ≡ bearing self.now.library name.now }
    {
        self.library.members(name.bytes())
    }
}
