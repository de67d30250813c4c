ghost use Rattle.std.specs.Prelude.{◌≡◌, IfOk, codes, false, Some, None};
ghost use Rattle.std.specs.Fmt.{decimal};
ghost use Rattle.book_model.specs.Answers.{Command as Asked, line};
ghost use Rattle.book_model.specs.Files.{stored};
ghost use Rattle.project_answers.specs.Holds.{IsPresentAt, all_linked, holding_of};
ghost use Rattle.sysml_session.specs.Answered.{IsAnswered, across};

use crate::lines::{begin_line, end_count, end_none};
use crate::linking::Linking;
use crate::rows::{Listing, give_rows};
use element_store::{FileName, FileNo};
use linker_base::NoMemory;
use outside_core::Sink;
use project_book::Project;
use std::alloc::Global;
use sysml_session::{AnswerFault, give_piece};

/// The number of the file under a name, if its text is present.
pub fn present(project: &Project, name: &FileName) -> Option<FileNo>
    ensures { IsPresentAt project.now.files name.now result }
{
    match project.number(name) {
        None => None,
        Some(file) => match project.files().size(file) {
            Some(_) => Some(file),
            None => None,
        },
    }
}

/// Says that no text is present under a name.
pub(crate) fn answer_no_links<K: Sink>(
    alloc: Global,
    project: &Project,
    name: &FileName,
    output: &mut K,
) -> Result<(), AnswerFault>
    requires whole { project.now.broken ≡ false }
    requires none { IsPresentAt project.now.files name.now None }
    ensures { IsAnswered (holding_of project.now) (holding_of project.now) (Asked.Links name.now)
        (across K.given K.faults output.old output.new) result }
{
    // A look at the files tells that they are those of the book.
    let _ = project.files();
    let Ok(mut line) = begin_line(alloc, b"links", name) else {
        return Err(AnswerFault::NoMemory);
    };
    match end_none(&mut line) {
        Ok(()) => give_piece(output, &line),
        Err(_) => Err(AnswerFault::NoMemory),
    }
}

/// The last line of an answer to `links`: how many rows stand before it.
fn rows_line(alloc: Global, name: &FileName, count: usize) -> Result<Vec<u8>, NoMemory>
    ensures { IfOk result (λ v. v.items
        ≡ line (codes "links") name.now (decimal count)) }
{
    let mut line = begin_line(alloc, b"links", name)?;
    end_count(&mut line, count)?;
    Ok(line)
}

/// Lists the links of a file that is present: its rows, one after the other, and then their number.
pub(crate) fn answer_links<G: Linking, K: Sink>(
    alloc: Global,
    project: &Project,
    linking: &G,
    name: &FileName,
    file: FileNo,
    output: &mut K,
) -> Result<(), AnswerFault>
    requires whole { project.now.broken ≡ false }
    requires present { IsPresentAt project.now.files name.now (Some file) }
    requires over { G.follows linking.now ≡ all_linked (stored project.now.files) }
    ensures { IsAnswered (holding_of project.now) (holding_of project.now)
        (Asked.Links name.now) (across K.given K.faults output.old output.new) result }
{
    let files = project.files();
    // A look at the models tells what holds of all files.
    let _ = files.models().files();
    let count = give_rows(alloc, files, linking, Listing::All, file, output)?;
    match rows_line(alloc, name, count) {
        Ok(line) => give_piece(output, &line),
        Err(_) => Err(AnswerFault::NoMemory),
    }
}
