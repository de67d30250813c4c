ghost use Rattle.std.specs.Prelude.{◌≡◌, ◌<◌, ◌++◌, ◌∷◌, [], All as Each, IfOk, IfSome, codes, false, length, map};
ghost use Rattle.book_model.specs.declared.rows.FaultRow.TheVariants.{File};
ghost use Rattle.book_model.specs.Answers.{Command as Asked, references_in};
ghost use Rattle.book_model.specs.Files.{name_at, stored};
ghost use Rattle.book_model.specs.Printed.{fault_row_text};
ghost use Rattle.book_model.specs.Rows.{report_of};
ghost use Rattle.project_answers.specs.Holds.{all_linked, holding_of};
ghost use Rattle.project_answers.specs.Lines.{counts_with};
ghost use Rattle.project_answers.specs.Parts.{IsPart, sum_of};
ghost use Rattle.project_answers.specs.Wrong.{presents, wrong_count_at, wrong_lines_at, lines_at};
ghost use Rattle.project_book.specs.Named.{IsOwn};
ghost use Rattle.sysml_session.specs.Answered.{IsAnswered, across};

use crate::lines::{Counts, counts_line, refusal_line};
use crate::linking::Linking;
use crate::order::in_order;
use crate::parts::give_counted;
use crate::rows::{Listing, give_rows};
use book_model::{FileReport, Place};
use element_store::FileNo;
use outside_core::Sink;
use project_book::Project;
use project_files::ProjectFiles;
use std::alloc::Global;
use sysml_session::{AnswerFault, give_piece};
use text_model::FileFault;

/// How many references a file has. One that is refused has none.
fn references_of(report: FileReport) -> u32
    ensures { result ≡ references_in (report ∷ []) }
{
    match report {
        FileReport::In { references, .. } => references,
        FileReport::Refused { .. } => 0,
    }
}

/// These counts and a file with this report, if it is present.
fn with_file(counts: Counts, report: Option<FileReport>) -> Counts
    requires few { counts.files < 4294967296 }
    requires most { counts.references < 18446744069414584320 }
    ensures with { result ≡ counts_with counts report }
    ensures few { IfSome report (λ r. references_in (r ∷ []) < 4294967296) }
{
    match report {
        Some(report) => Counts {
            files: counts.files + 1,
            references: counts.references + references_of(report) as usize,
            faults: counts.faults,
        },
        None => counts,
    }
}

/// How many of these files of the book are present, and how many references they have, with so many faults.
fn counts(files: &ProjectFiles, numbers: &[FileNo], faults: usize) -> Counts
    requires own { Each (IsOwn files.now) numbers.now }
    requires few { length numbers.now < 4294967296 }
    ensures files { result.files ≡ length (presents files.now numbers.now) }
    ensures references { result.references
        ≡ references_in (map (λ p. report_of p.content) (presents files.now numbers.now)) }
    ensures faults { result.faults ≡ faults }
{
    let mut counts = Counts {
        files: 0,
        references: 0,
        faults,
    };
    for number in numbers {
        counts = with_file(counts, files.report(*number));
    }
    counts
}

/// Gives the line of a file that is refused.
fn give_refusal<K: Sink>(
    alloc: Global,
    files: &ProjectFiles,
    file: FileNo,
    fault: FileFault,
    place: Place,
    output: &mut K,
) -> Result<usize, AnswerFault>
    requires { file.0 < length files.now }
    ensures { IsPart (across K.given K.faults output.old output.new)
        (fault_row_text files.now (File (name_at files.now file) fault place) ++ codes "\n")
        1 result }
{
    match refusal_line(alloc, files.name(file), fault, place) {
        Ok(line) => give_counted(output, &line),
        Err(_) => Err(AnswerFault::NoMemory),
    }
}

/// Gives what is wrong with a file of the book, and says how many lines that are: the line of a file that is refused, the
/// rows of one that is read, or nothing where its text is gone.
fn give_file<G: Linking, K: Sink>(
    alloc: Global,
    files: &ProjectFiles,
    linking: &G,
    file: FileNo,
    output: &mut K,
) -> Result<usize, AnswerFault>
    requires own { IsOwn files.now file }
    requires stands { file.0 < length files.now }
    requires over { G.follows linking.now ≡ all_linked (stored files.now) }
    ensures part { IsPart (across K.given K.faults output.old output.new)
        (wrong_lines_at files.now file) (wrong_count_at files.now file) result }
    ensures few { IfOk result (λ n. n < 4294967296) }
{
    // A look at the files tells what holds of all of them.
    let _ = files.models().files();
    match files.report(file) {
        None => Ok(0),
        Some(FileReport::Refused { fault, place }) => {
            give_refusal(alloc, files, file, fault, place, output)
        }
        Some(FileReport::In { .. }) => {
            give_rows(alloc, files, linking, Listing::Faults, file, output)
        }
    }
}

/// Gives what is wrong with files of the book, and says how many lines that are.
fn give_files<G: Linking, K: Sink>(
    alloc: Global,
    files: &ProjectFiles,
    linking: &G,
    numbers: &[FileNo],
    output: &mut K,
) -> Result<usize, AnswerFault>
    requires own { Each (IsOwn files.now) numbers.now }
    requires stand { Each (λ n. n.0 < length files.now) numbers.now }
    requires few { length numbers.now < 4294967296 }
    requires over { G.follows linking.now ≡ all_linked (stored files.now) }
    ensures { IsPart (across K.given K.faults output.old output.new)
        (lines_at files.now numbers.now) (sum_of (wrong_count_at files.now) numbers.now) result }
{
    let mut told = 0;
    for number in numbers {
        told += give_file(alloc, files, linking, *number, output)?;
    }
    Ok(told)
}

/// Lists what is wrong with all files in the byte order of their names, and then counts the present files, their
/// references and what is wrong with them.
pub(crate) fn answer_check<G: Linking, K: Sink>(
    alloc: Global,
    project: &Project,
    linking: &G,
    output: &mut K,
) -> Result<(), AnswerFault>
    requires whole { project.now.broken ≡ false }
    requires over { G.follows linking.now ≡ all_linked (stored project.now.files) }
    ensures { IsAnswered (holding_of project.now) (holding_of project.now) Asked.Check
        (across K.given K.faults output.old output.new) result }
{
    let files = project.files();
    let Ok(order) = in_order(alloc, files) else {
        return Err(AnswerFault::NoMemory);
    };
    let faults = give_files(alloc, files, linking, &order, output)?;
    match counts_line(alloc, counts(files, &order, faults)) {
        Ok(line) => give_piece(output, &line),
        Err(_) => Err(AnswerFault::NoMemory),
    }
}
