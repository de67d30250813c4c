ghost use Rattle.std.specs.Prelude.{◌≡◌, IfOk, Some, None, false};
ghost use Rattle.book_model.specs.AskedNames.{AskFor};
ghost use Rattle.book_model.specs.Answers.{Command as Asked, find_answer};
ghost use Rattle.book_model.specs.Files.{stored};
ghost use Rattle.project_answers.specs.Holds.{all_linked, holding_of};
ghost use Rattle.project_answers.specs.Words.{IsGoodName};
ghost use Rattle.sysml_session.specs.Answered.{IsAnswered, across};

use crate::linking::Linking;
use book_model::AskedName;
use element_store::{Language, Text};
use linker_base::NoMemory;
use outside_core::Sink;
use project_book::Project;
use project_files::{ProjectFiles, write_outcome};
use std::alloc::Global;
use sysml_session::{AnswerFault, give_piece};
use written_names::{write, write_qualified};

/// Says that words are no qualified name.
pub(crate) fn answer_bad_name<K: Sink>(
    project: &Project,
    words: &Text,
    output: &mut K,
) -> Result<(), AnswerFault>
    requires whole { project.now.broken ≡ false }
    requires none { AskFor words.now None }
    ensures { IsAnswered (holding_of project.now) (holding_of project.now) (Asked.Find words.now)
        (across K.given K.faults output.old output.new) result }
{
    // A look at the files tells that they are those of the book.
    let _ = project.files();
    give_piece(output, b"find bad name\n")
}

/// The line of a finding: the name as it is spelt, and what it finds.
fn find_line<G: Linking>(
    alloc: Global,
    files: &ProjectFiles,
    linking: &G,
    name: AskedName,
) -> Result<Vec<u8>, NoMemory>
    requires good { IsGoodName name }
    requires over { G.follows linking.now ≡ all_linked (stored files.now) }
    ensures { IfOk result (λ line. line.items ≡ find_answer files.now (Some name)) }
{
    let AskedName { absolute, path } = name;
    let mut line = Vec::from_slice(alloc, b"find ")?;
    write_qualified(alloc, &mut line, absolute, path.as_slice(), Language::Sysml)?;
    write(&mut line, b" -> ")?;
    // A look at the files tells what holds of all of them.
    let _ = files.models().files();
    let outcome = linking.find(files.models(), path)?;
    write_outcome(alloc, &mut line, files, &outcome)?;
    write(&mut line, b"\n")?;
    Ok(line)
}

/// Says what a qualified name finds.
pub(crate) fn answer_find<G: Linking, K: Sink>(
    alloc: Global,
    project: &Project,
    linking: &G,
    words: &Text,
    name: AskedName,
    output: &mut K,
) -> Result<(), AnswerFault>
    requires whole { project.now.broken ≡ false }
    requires asked { AskFor words.now (Some name) }
    requires good { IsGoodName name }
    requires over { G.follows linking.now ≡ all_linked (stored project.now.files) }
    ensures { IsAnswered (holding_of project.now) (holding_of project.now)
        (Asked.Find words.now) (across K.given K.faults output.old output.new) result }
{
    match find_line(alloc, project.files(), linking, name) {
        Ok(line) => give_piece(output, &line),
        Err(_) => Err(AnswerFault::NoMemory),
    }
}
