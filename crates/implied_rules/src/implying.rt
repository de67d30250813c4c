ghost use Rattle.std.specs.Prelude.{◌≡◌, ◌<◌, ◌++◌, ◌∷◌, [], Some, IfOk, IfSome, OnOk, length, map};
ghost use Rattle.std.specs.Option.{option_map_or};
ghost use Rattle.element_store.specs.BaseRules.{StandsIn};
ghost use Rattle.element_store.specs.Model.{Data};
ghost use Rattle.link_model.specs.Outside.{library_of};
ghost use Rattle.link_model.specs.Settled as settled;
ghost use Rattle.link_walk.specs.Calls.{files_of, read_by, reading, AreLinks, HasLinks};
ghost use Rattle.implied_model.specs.Implied.{implied_at, implied_in};
ghost use Rattle.implied_rules.specs.Implied.{AreImplied, AreStanding, IsAt, said_by};

use crate::rows::{ImpliedRow, ImpliedRows};
use element_store::{Bases, ElementNo, FileModel, FileNo, MemberNo, Models};
use inheritance::specialises;
use link_model::{LinkTable, View};
use linker_base::NoMemory;
use std::alloc::Global;

/// The base that a type specialises by implication, if there is one.
fn implied_base(alloc: Global, view: &View, of: ElementNo) -> Result<Option<ElementNo>, NoMemory>
    requires there { (d : Data) × IsAt (files_of view.now) of d }
    requires links { HasLinks view.now }
    ensures implied { IfOk result (λ base. option_map_or (λ b. b ∷ []) base []
        ≡ settled.implied (library_of (files_of view.now)) of (read_by view.now)) }
    ensures stands { IfOk result (λ base. IfSome base (StandsIn (files_of view.now))) }
{
    let Some(base) = Bases::of(view.models, of) else {
        return Ok(None);
    };
    if base == of {
        return Ok(None);
    }
    let reached = specialises(alloc, view, of, base)?;
    if reached { Ok(None) } else { Ok(Some(base)) }
}

/// Adds the row of an element, if it is a type with an implied specialisation.
fn add_element(
    alloc: Global,
    view: &View,
    model: &FileModel,
    of: ElementNo,
    rows: &mut ImpliedRows,
) -> Result<(), NoMemory>
    requires there { IsAt (files_of view.now) of model.now }
    requires links { HasLinks view.now }
    ensures said { OnOk result (map said_by rows.new ≡ map said_by rows.old
        ++ implied_at (files_of view.now) (read_by view.now) of.file model.now of.index) }
    ensures stand { OnOk result (AreStanding (files_of view.now) rows.old
        → AreStanding (files_of view.now) rows.new) }
{
    // A call tells what holds of the model: its root is no type, and each other element is owned once.
    let _ = model.elements();
    let Some(index) = model.member_of(of.index) else {
        return Ok(());
    };
    if !model.element(of.index).kind.is_type() {
        return Ok(());
    }
    if let Some(base) = implied_base(alloc, view, of)? {
        let member = MemberNo {
            file: of.file,
            index,
        };
        rows.push(ImpliedRow { of, member, base })?;
    }
    Ok(())
}

/// Adds the rows of a file.
fn add_file(
    alloc: Global,
    view: &View,
    file: FileNo,
    rows: &mut ImpliedRows,
) -> Result<(), NoMemory>
    requires within { file.0 < length (files_of view.now) }
    requires links { HasLinks view.now }
    ensures said { OnOk result (map said_by rows.new ≡ map said_by rows.old
        ++ implied_in (files_of view.now) (read_by view.now) file) }
    ensures stand { OnOk result (AreStanding (files_of view.now) rows.old
        → AreStanding (files_of view.now) rows.new) }
{
    if let Some(model) = view.models.model(file) {
        for index in 0..model.elements() {
            add_element(alloc, view, model, ElementNo { file, index }, rows)?;
        }
    }
    Ok(())
}

/// The implied specialisations of a project over its links, in byte order of the names of files and then
/// in the order of elements: each type of a present project file whose base is found, is another element,
/// and is reached by no chain of one explicit general or more; with the member that owns it. An open
/// reference counts as refused. The numbers of the rows stand.
/// `NoMemory` is want of memory alone.
pub fn implied(alloc: Global, models: &Models, table: &LinkTable) -> Result<ImpliedRows, NoMemory>
    requires links { AreLinks models.now table.now }
    ensures rows { IfOk result (AreImplied models.now (reading models.now table.now)) }
    ensures live { IfOk result (AreStanding models.now) }
{
    // A look at the files tells that their names stand once each.
    let _ = models.files();
    let view = View { models, table };
    let mut rows = ImpliedRows::new(alloc);
    for rank in 0..models.project_files() {
        add_file(alloc, &view, models.at_rank(rank), &mut rows)?;
    }
    Ok(rows)
}
