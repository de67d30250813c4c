ghost use Rattle.std.specs.Prelude.{◌≡◌, ◌<◌, ◌++◌, ◌∷◌, [], All as Each, IfOk, OnOk, length};
ghost use Rattle.std.specs.List.{flat_map};
ghost use Rattle.element_store.specs.Model.{Data};
ghost use Rattle.book_model.specs.declared.rows.FaultRow.TheVariants.{File};
ghost use Rattle.book_model.specs.Files.{name_at, stored};
ghost use Rattle.book_model.specs.Live.{HasModel, IsLiveReference};
ghost use Rattle.book_model.specs.Queries.{faults_query};
ghost use Rattle.project_answers.specs.Holds.{all_linked};
ghost use Rattle.project_answers.specs.RowLines.{reference_at, row_at};
ghost use Rattle.project_answers.specs.Wrong.{wrong_at};
ghost use Rattle.project_book.specs.Named.{AreOfBook, IsOwn};
ghost use Rattle.linked_project.specs.Listed.{IsLiveFault, wrong_row, wrong_rows_at, wrong_spot};

use crate::file_names::name_of;
use book_model::{FaultRow, FaultRows, FileReport, LinkRow, Place};
use element_store::{FileNo, Outcome, RefNo};
use linker_base::NoMemory;
use project_answers::{Linking, Spot, in_order, rising, row_of};
use project_files::ProjectFiles;
use std::alloc::Global;
use text_model::FileFault;

/// Appends a row, unless it is linked.
fn push_row(
    alloc: Global,
    files: &ProjectFiles,
    row: LinkRow,
    rows: &mut FaultRows,
) -> Result<(), NoMemory>
    requires { row.reference.file.0 < length files.now }
    ensures { OnOk result (rows.new ≡ rows.old
        ++ wrong_row (name_at files.now row.reference.file) row) }
{
    match row.outcome {
        Outcome::Linked { .. } => Ok(()),
        _ => {
            let name = name_of(alloc, files, row.reference.file)?;
            rows.push(FaultRow::Link { name, row })
        }
    }
}

/// Appends the rows of the references at these spots of a file that aren't linked.
fn push_rows<G: Linking>(
    alloc: Global,
    files: &ProjectFiles,
    links: &G,
    file: FileNo,
    spots: &[Spot],
    rows: &mut FaultRows,
) -> Result<(), NoMemory>
    requires stand { Each (λ s. IsLiveReference files.now (reference_at file s)) spots.now }
    requires over { G.follows links.now ≡ all_linked (stored files.now) }
    ensures { OnOk result (rows.new ≡ rows.old ++ flat_map (wrong_spot files.now file) spots.now) }
{
    for spot in spots {
        let reference = RefNo {
            file,
            index: spot.number,
        };
        push_row(alloc, files, row_of(files, links, reference)?, rows)?;
    }
    Ok(())
}

/// Appends the rows of a file that aren't linked, in rising place.
fn push_wrong_rows<G: Linking>(
    alloc: Global,
    files: &ProjectFiles,
    links: &G,
    file: FileNo,
    rows: &mut FaultRows,
) -> Result<(), NoMemory>
    requires has { (d : Data) × HasModel files.now file d }
    requires over { G.follows links.now ≡ all_linked (stored files.now) }
    ensures { OnOk result (rows.new ≡ rows.old ++ wrong_rows_at files.now file) }
{
    let spots = rising(alloc, files.model(file))?;
    push_rows(alloc, files, links, file, &spots, rows)
}

/// Appends the fault of a file.
fn push_fault(
    alloc: Global,
    files: &ProjectFiles,
    file: FileNo,
    fault: FileFault,
    place: Place,
    rows: &mut FaultRows,
) -> Result<(), NoMemory>
    requires { file.0 < length files.now }
    ensures { OnOk result (rows.new ≡ rows.old
        ++ File (name_at files.now file) fault place ∷ []) }
{
    let name = name_of(alloc, files, file)?;
    rows.push(FaultRow::File { name, fault, place })
}

/// Appends what is wrong with a file: its fault, or its rows that aren't linked; nothing where its text is
/// gone.
fn push_wrong<G: Linking>(
    alloc: Global,
    files: &ProjectFiles,
    links: &G,
    file: FileNo,
    rows: &mut FaultRows,
) -> Result<(), NoMemory>
    requires own { IsOwn files.now file }
    requires stands { file.0 < length files.now }
    requires over { G.follows links.now ≡ all_linked (stored files.now) }
    ensures { OnOk result (rows.new ≡ rows.old ++ wrong_at files.now file) }
{
    // A look at the files tells what holds of all of them.
    let _ = files.models().files();
    match files.report(file) {
        None => Ok(()),
        Some(FileReport::Refused { fault, place }) => {
            push_fault(alloc, files, file, fault, place, rows)
        }
        Some(FileReport::In { .. }) => push_wrong_rows(alloc, files, links, file, rows),
    }
}

/// What is wrong with these files, one after the other.
fn wrong_with<G: Linking>(
    alloc: Global,
    files: &ProjectFiles,
    links: &G,
    numbers: &[FileNo],
) -> Result<FaultRows, NoMemory>
    requires own { Each (IsOwn files.now) numbers.now }
    requires stand { Each (λ n. n.0 < length files.now) numbers.now }
    requires over { G.follows links.now ≡ all_linked (stored files.now) }
    ensures { IfOk result (λ rows. rows ≡ flat_map (wrong_at files.now) numbers.now) }
{
    let mut rows = FaultRows::new(alloc);
    for number in numbers {
        push_wrong(alloc, files, links, *number, &mut rows)?;
    }
    Ok(rows)
}

/// What is wrong with the present files, in the byte order of their names.
pub(crate) fn fault_rows<G: Linking>(
    alloc: Global,
    files: &ProjectFiles,
    links: &G,
) -> Result<FaultRows, NoMemory>
    requires are { AreOfBook files.now }
    requires over { G.follows links.now ≡ all_linked (stored files.now) }
    ensures rows { IfOk result (λ rows. rows ≡ faults_query files.now) }
    ensures live { IfOk result (λ rows. Each (IsLiveFault files.now) rows) }
{
    // A look at the files tells what holds of all of them.
    let _ = files.models().files();
    let order = in_order(alloc, files)?;
    wrong_with(alloc, files, links, &order)
}
