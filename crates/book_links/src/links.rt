ghost use Rattle.std.specs.Prelude.{◌≡◌, ◌<◌, None, OnOk, length};
ghost use Rattle.element_store.specs.Stored.{with_model};
ghost use Rattle.kept_links.specs.Kept.{AreKept, MayOpen};
ghost use Rattle.root_names.specs.Roots.{AreRootsOf};

use crate::finding::{found, implied_over};
use crate::linked_files::LinkedFiles;
use crate::settling::settle;
use demand_core::Answer;
use element_store::{FileNo, Models, Outcome, RefNo, Segments};
use implied_rules::ImpliedRows;
use kept_links::{KeptLinks, copied};
use link_model::LinkKey;
use linker_base::NoMemory;
use project_answers::Linking;
use root_names::RootNames;
use std::alloc::Global;
use std::marker::Model;

/// What became of the references of a book's models. Contracts see the files whose edits were followed, and
/// the links that are kept of them with the names of their roots.
#[derive(Drop)]
pub struct BookLinks {
    alloc: Global,
    kept: KeptLinks,
    roots: RootNames,
    over: LinkedFiles,
    // The file whose text was let go of the files last seen.
    closed: Option<FileNo>,
}

impl Model for BookLinks {
    ghost use Rattle.book_links.specs.Linked.{Linked, IsLinked, without};

    ghost Value = { Linked };

    ghost view = { λ b. record {
      files = without b.over.files b.closed;
      kept = b.kept;
      roots = b.roots;
    } };

    ghost invariant = { λ b. IsLinked (record {
      files = without b.over.files b.closed;
      kept = b.kept;
      roots = b.roots;
    }) };
}

/// Follows the coming of a project file's text, in the names of the roots and in the links.
fn open_both(
    alloc: Global,
    models: &Models,
    file: FileNo,
    kept: &mut KeptLinks,
    roots: &mut RootNames,
) -> Result<(), NoMemory>
    requires within { file.0 < length models.now }
    requires may { MayOpen models.now file kept.old }
    requires roots { AreRootsOf (with_model models.now file.0 None) roots.old }
    ensures kept { OnOk result (AreKept models.now kept.new) }
    ensures roots { OnOk result (AreRootsOf models.now roots.new) }
{
    roots.put_in(alloc, models, file)?;
    kept.open(alloc, models, file)?;
    Ok(())
}

impl Linking for BookLinks {
    ghost follows = { λ b. followed b };

    ghost use Rattle.book_links.specs.Linked.{followed};

    fn none(alloc: Global) -> Self {
        BookLinks {
            alloc,
            kept: KeptLinks::new(alloc),
            roots: RootNames::new(alloc),
            over: LinkedFiles::none(),
            closed: None,
        }
    }

    fn link(&mut self, models: &Models) -> Result<(), NoMemory> {
        let roots = RootNames::of(self.alloc, models)?;
        let mut kept = KeptLinks::of(self.alloc, models)?;
        settle(self.alloc, models, &roots, &mut kept)?;
        self.kept = kept;
        self.roots = roots;
        self.over = LinkedFiles::of(models);
        self.closed = None;
        Ok(())
    }

    fn close(&mut self, models: &Models, file: FileNo) -> Result<(), NoMemory> {
        self.roots.take_out(models, file);
        match self.kept.close(self.alloc, models, file) {
            Ok(()) => {
                self.over = LinkedFiles::of(models);
                self.closed = Some(file);
                Ok(())
            }
            Err(fault) => {
                *self = BookLinks::none(self.alloc);
                Err(fault)
            }
        }
    }

    fn open(&mut self, models: &Models, file: FileNo) -> Result<(), NoMemory> {
        // A look at the models tells what holds of all files.
        let _ = models.files();
        match open_both(self.alloc, models, file, &mut self.kept, &mut self.roots) {
            Ok(()) => {
                self.over = LinkedFiles::of(models);
                self.closed = None;
                Ok(())
            }
            Err(fault) => {
                *self = BookLinks::none(self.alloc);
                Err(fault)
            }
        }
    }

    fn settle(&mut self, models: &Models) -> Result<(), NoMemory> {
        if self.kept.is_settled() {
            return Ok(());
        }
        match settle(self.alloc, models, &self.roots, &mut self.kept) {
            Ok(()) => Ok(()),
            Err(fault) => {
                *self = BookLinks::none(self.alloc);
                Err(fault)
            }
        }
    }

    fn outcome(&self, _models: &Models, reference: RefNo) -> Result<Outcome, NoMemory> {
        match self.kept.answer(LinkKey(reference)) {
            Answer::Decided(outcome) => copied(self.alloc, outcome),
            Answer::Cyclic(on) => Ok(Outcome::Cyclic { on: on.0 }),
            Answer::Open => Ok(Outcome::Absent { segment: 1 }),
        }
    }

    fn implied(&self, models: &Models) -> Result<ImpliedRows, NoMemory> {
        implied_over(self.alloc, models, &self.kept)
    }

    fn find(&self, models: &Models, path: Segments) -> Result<Outcome, NoMemory> {
        found(self.alloc, models, &self.roots, &self.kept, path)
    }
}
