ghost use Rattle.std.specs.Prelude.{◌≡◌, ◌<◌, [], IfOk, None, OnOk, Some, false, length, slice_get};
ghost use Rattle.linker_base.specs.Members.{IsMember};
ghost use Rattle.element_store.specs.Stored.{with_model};
ghost use Rattle.element_store.specs.declared.models.StoredFile.{StoredFile};
ghost use Rattle.link_model.specs.Edits.{HasCome};
ghost use Rattle.link_model.specs.Outside.{keys_of};
ghost use Rattle.book_model.specs.Outcomes.{found_of, linked_world, outcome_of};
ghost use Rattle.implied_rules.specs.Implied.{AreImplied, AreStanding};
ghost use Rattle.project_answers.specs.Holds.{Followed, all_linked};

use element_store::{FileNo, Models, Outcome, RefNo, Segments};
use implied_rules::ImpliedRows;
use linker_base::NoMemory;
use std::alloc::Global;

/// Whoever says what becomes of the references of a book's models. It follows the edits of the book, and
/// links what they may have changed when it is told to.
pub trait Linking: Drop {
    /// The files whose edits it has followed, and whether all their references are linked.
    ghost follows: { Self → Followed };

    /// One that follows no files. It takes no memory.
    fn none(alloc: Global) -> Self
        ensures { (follows result).files ≡ [] };

    /// Links all files, whichever it followed before.
    fn link(&mut self, models: &Models) -> Result<(), NoMemory>
        ensures { OnOk result (follows self.new ≡ all_linked models.now) };

    /// Follows the going of a project file's text, before its model is taken away or replaced.
    fn close(&mut self, models: &Models, file: FileNo) -> Result<(), NoMemory>
        requires within { file.0 < length models.now }
        requires own { (s : StoredFile) → slice_get models.now file.0 ≡ Some s
            → s.library ≡ false }
        requires over { (follows self.old).files ≡ models.now }
        ensures { OnOk result ((follows self.new).files ≡ with_model models.now file.0 None) };

    /// Follows the coming of a project file's text, after its model was set.
    fn open(&mut self, models: &Models, file: FileNo) -> Result<(), NoMemory>
        requires within { file.0 < length models.now }
        requires come { HasCome (follows self.old).files models.now file }
        ensures { OnOk result ((follows self.new).files ≡ models.now) };

    /// Links what the edits may have changed.
    fn settle(&mut self, models: &Models) -> Result<(), NoMemory>
        requires over { (follows self.old).files ≡ models.now }
        ensures { OnOk result (follows self.new ≡ all_linked models.now) };

    /// What becomes of a reference of these files: its entry in the least linking, or the reference on which
    /// it is cyclic.
    fn outcome(&self, models: &Models, reference: RefNo) -> Result<Outcome, NoMemory>
        requires over { follows self.now ≡ all_linked models.now }
        requires stands { IsMember (keys_of models.now) (record { 0 = reference }) }
        ensures { IfOk result (λ outcome. outcome ≡ outcome_of models.now reference) };

    /// The implied specialisations of the types of these files, over their least linking.
    fn implied(&self, models: &Models) -> Result<ImpliedRows, NoMemory>
        requires over { follows self.now ≡ all_linked models.now }
        ensures rows { IfOk result (AreImplied models.now (linked_world models.now)) }
        ensures live { IfOk result (AreStanding models.now) };

    /// What a qualified name finds from outside, as from a project file, over the least linking of these files.
    fn find(&self, models: &Models, path: Segments) -> Result<Outcome, NoMemory>
        requires over { follows self.now ≡ all_linked models.now }
        requires some { 0 < length path }
        requires few { length path < 4294967296 }
        ensures { IfOk result (λ outcome. outcome ≡ found_of models.now path) };
}
