ghost use Rattle.std.specs.Prelude.{◌≡◌, ◌<◌, ◌≤◌, ◌++◌, All as Each, IfOk, OnOk, codes, length};
ghost use Rattle.book_model.specs.Files.{stored};
ghost use Rattle.book_model.specs.Live.{HasModel, IsLiveReference, NamesLive};
ghost use Rattle.book_model.specs.Printed.{row_text};
ghost use Rattle.element_store.specs.Model.{Data};
ghost use Rattle.sysml_session.specs.Answered.{across};
ghost use Rattle.project_answers.specs.Holds.{all_linked};
ghost use Rattle.project_answers.specs.Parts.{IsPart};
ghost use Rattle.project_answers.specs.RowLines.{before_row, count_of, counts_of, file_counts, file_lines};
ghost use Rattle.project_answers.specs.RowLines.{is_listed, line_of, lines_of, reference_at, row_at};

use crate::lines::ROOM;
use crate::linking::Linking;
use crate::parts::give_counted;
use crate::spots::{Spot, rising};
use book_model::LinkRow;
use element_store::{FileNo, Outcome, RefNo};
use linker_base::NoMemory;
use outside_core::Sink;
use project_files::{ProjectFiles, write_row};
use std::alloc::Global;
use sysml_session::AnswerFault;
use written_names::write;

/// Which rows of a file are listed.
#[derive(Clone, Copy, Debug, PartialEq, Eq)]
pub(crate) enum Listing {
    /// All.
    All,
    /// Those that aren't linked, each behind the name of its file.
    Faults,
}

/// The row of a reference: its role, the place of its first token, and what became of it.
pub fn row_of<G: Linking>(
    files: &ProjectFiles,
    linking: &G,
    reference: RefNo,
) -> Result<LinkRow, NoMemory>
    requires stands { IsLiveReference files.now reference }
    requires over { G.follows linking.now ≡ all_linked (stored files.now) }
    ensures row { IfOk result (λ row. row ≡ row_at files.now reference) }
    ensures names { IfOk result (λ row. NamesLive files.now row.outcome) }
{
    // A look at the files tells what holds of all of them.
    let _ = files.models().files();
    let place = files.reference_place(reference);
    let role = files.model(reference.file).reference(reference.index).role;
    let outcome = linking.outcome(files.models(), reference)?;
    Ok(LinkRow {
        reference,
        role,
        place,
        outcome,
    })
}

/// Whether a row is listed.
fn is_listed(listing: Listing, row: &LinkRow) -> bool
    ensures { result ≡ is_listed listing row.now }
{
    match listing {
        Listing::All => true,
        Listing::Faults => match row.outcome {
            Outcome::Linked { .. } => false,
            _ => true,
        },
    }
}

/// Appends what stands before a row.
fn write_before(
    line: &mut Vec<u8>,
    files: &ProjectFiles,
    listing: Listing,
    row: &LinkRow,
) -> Result<(), NoMemory>
    requires { row.now.reference.file.0 < length files.now }
    ensures { OnOk result (line.new.items
        ≡ line.old.items ++ before_row listing files.now row.now) }
{
    match listing {
        Listing::All => Ok(()),
        Listing::Faults => {
            write(line, files.name(row.reference.file).bytes())?;
            write(line, b":")
        }
    }
}

/// The line of a row that is listed.
fn line(
    alloc: Global,
    files: &ProjectFiles,
    listing: Listing,
    row: &LinkRow,
) -> Result<Vec<u8>, NoMemory>
    requires stands { IsLiveReference files.now row.now.reference }
    requires names { NamesLive files.now row.now.outcome }
    ensures { IfOk result (λ line. line.items
        ≡ before_row listing files.now row.now ++ row_text files.now row.now ++ codes "\n") }
{
    let mut line = Vec::with_capacity(alloc, ROOM)?;
    write_before(&mut line, files, listing, row)?;
    write_row(alloc, &mut line, files, row)?;
    write(&mut line, b"\n")?;
    Ok(line)
}

/// Gives the line of a row that is listed, which counts once.
fn give_listed<K: Sink>(
    alloc: Global,
    files: &ProjectFiles,
    listing: Listing,
    row: &LinkRow,
    output: &mut K,
) -> Result<usize, AnswerFault>
    requires stands { IsLiveReference files.now row.now.reference }
    requires names { NamesLive files.now row.now.outcome }
    ensures { IsPart (across K.given K.faults output.old output.new)
        (before_row listing files.now row.now ++ row_text files.now row.now ++ codes "\n")
        1 result }
{
    match line(alloc, files, listing, row) {
        Ok(line) => give_counted(output, &line),
        Err(_) => Err(AnswerFault::NoMemory),
    }
}

/// Gives the line of a reference, if it is listed, and says how many lines that are.
fn give_line<G: Linking, K: Sink>(
    alloc: Global,
    files: &ProjectFiles,
    linking: &G,
    listing: Listing,
    reference: RefNo,
    output: &mut K,
) -> Result<usize, AnswerFault>
    requires stands { IsLiveReference files.now reference }
    requires over { G.follows linking.now ≡ all_linked (stored files.now) }
    ensures { IsPart (across K.given K.faults output.old output.new)
        (line_of listing files.now (row_at files.now reference))
        (count_of listing (row_at files.now reference)) result }
{
    match row_of(files, linking, reference) {
        Ok(row) => {
            if is_listed(listing, &row) {
                give_listed(alloc, files, listing, &row, output)
            } else {
                Ok(0)
            }
        }
        Err(_) => Err(AnswerFault::NoMemory),
    }
}

/// Gives the lines of the references at these spots, as far as they are listed, and says how many they are.
fn give_lines<G: Linking, K: Sink>(
    alloc: Global,
    files: &ProjectFiles,
    linking: &G,
    listing: Listing,
    file: FileNo,
    spots: &[Spot],
    output: &mut K,
) -> Result<usize, AnswerFault>
    requires stand { Each (λ s. IsLiveReference files.now (reference_at file s)) spots.now }
    requires over { G.follows linking.now ≡ all_linked (stored files.now) }
    ensures part { IsPart (across K.given K.faults output.old output.new)
        (lines_of listing files.now file spots.now)
        (counts_of listing files.now file spots.now) result }
    ensures few { IfOk result (λ n. n ≤ length spots.now) }
{
    let mut told = 0;
    for spot in spots {
        let reference = RefNo {
            file,
            index: spot.number,
        };
        told += give_line(alloc, files, linking, listing, reference, output)?;
    }
    Ok(told)
}

/// Gives the lines of the rows of a file in rising place, as far as they are listed, and says how many they
/// are. A row is made and given, one after the other.
pub(crate) fn give_rows<G: Linking, K: Sink>(
    alloc: Global,
    files: &ProjectFiles,
    linking: &G,
    listing: Listing,
    file: FileNo,
    output: &mut K,
) -> Result<usize, AnswerFault>
    requires has { (d : Data) × HasModel files.now file d }
    requires over { G.follows linking.now ≡ all_linked (stored files.now) }
    ensures part { IsPart (across K.given K.faults output.old output.new)
        (file_lines listing files.now file) (file_counts listing files.now file) result }
    ensures few { IfOk result (λ n. n < 4294967296) }
{
    match rising(alloc, files.model(file)) {
        Ok(spots) => give_lines(alloc, files, linking, listing, file, &spots, output),
        Err(_) => Err(AnswerFault::NoMemory),
    }
}
