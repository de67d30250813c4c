ghost use Rattle.std.specs.Prelude.{◌≡◌, ◌++◌, codes, false};
ghost use Rattle.std.specs.Option.{option_map};
ghost use Rattle.book_model.specs.Answers.{Command as Asked};
ghost use Rattle.book_model.specs.Rows.{report_of};
ghost use Rattle.project_files.specs.Kept.{content_at};
ghost use Rattle.project_book.specs.Named.{HaveMoved};
ghost use Rattle.sysml_session.specs.Answered.{IsAnswered, across};
ghost use Rattle.project_answers.specs.Holds.{IsTold, holding_of};
ghost use Rattle.project_answers.specs.Lines.{drop_rest, head_of, put_rest};

use crate::lines::{begin_line, end_drop, end_put};
use element_store::{FileName, FileNo, Text};
use outside_core::Sink;
use project_book::{Applied, ApplyFault, Project};
use std::alloc::Global;
use sysml_session::{AnswerFault, give_piece};

/// Gives what was told of a put.
fn tell_put<K: Sink>(
    project: &Project,
    mut line: Vec<u8>,
    file: FileNo,
    output: &mut K,
) -> Result<(), AnswerFault>
    ensures { IsTold (across K.given K.faults output.old output.new)
        (line.items ++ put_rest (option_map report_of (content_at project.now.files file))
        ++ codes "\n") result }
{
    match end_put(&mut line, project.files().report(file)) {
        Ok(()) => give_piece(output, &line),
        Err(_) => Err(AnswerFault::NoMemory),
    }
}

/// Puts a text, and gives the answer, whose line begins so.
fn put_and_tell<K: Sink>(
    project: &mut Project,
    line: Vec<u8>,
    name: FileName,
    text: Text,
    output: &mut K,
) -> Result<(), AnswerFault>
    requires whole { project.old.broken ≡ false }
    requires begun { line.items ≡ head_of (codes "put") name }
    ensures answered { IsAnswered (holding_of project.old) (holding_of project.new)
        (Asked.Put name text) (across K.given K.faults output.old output.new) result }
    ensures files { HaveMoved project.old.files project.new.files name }
{
    match project.put(name, text) {
        Ok(file) => {
            let _ = project.files();
            tell_put(project, line, file, output)
        }
        Err(ApplyFault::Limit(number)) => Err(AnswerFault::Limit { number }),
        Err(_) => Err(AnswerFault::NoMemory),
    }
}

/// Puts a text under a name, and gives the answer.
pub(crate) fn answer_put<K: Sink>(
    alloc: Global,
    project: &mut Project,
    name: FileName,
    text: Text,
    output: &mut K,
) -> Result<(), AnswerFault>
    requires { project.old.broken ≡ false }
    ensures answered { IsAnswered (holding_of project.old) (holding_of project.new)
        (Asked.Put name text) (across K.given K.faults output.old output.new) result }
    ensures files { HaveMoved project.old.files project.new.files name }
{
    // The line begins with the name, which the project keeps then.
    match begin_line(alloc, b"put", &name) {
        Ok(line) => put_and_tell(project, line, name, text, output),
        Err(_) => Err(AnswerFault::NoMemory),
    }
}

/// Gives what was told of a drop.
fn tell_drop<K: Sink>(
    mut line: Vec<u8>,
    applied: Applied,
    output: &mut K,
) -> Result<(), AnswerFault>
    ensures { IsTold (across K.given K.faults output.old output.new)
        (line.items ++ drop_rest applied ++ codes "\n") result }
{
    match end_drop(&mut line, applied) {
        Ok(()) => give_piece(output, &line),
        Err(_) => Err(AnswerFault::NoMemory),
    }
}

/// Drops the text under a name, and gives the answer.
pub(crate) fn answer_drop<K: Sink>(
    alloc: Global,
    project: &mut Project,
    name: &FileName,
    output: &mut K,
) -> Result<(), AnswerFault>
    requires { project.old.broken ≡ false }
    ensures answered { IsAnswered (holding_of project.old) (holding_of project.new)
        (Asked.Drop name.now) (across K.given K.faults output.old output.new) result }
    ensures files { HaveMoved project.old.files project.new.files name.now }
{
    let Ok(line) = begin_line(alloc, b"drop", name) else {
        return Err(AnswerFault::NoMemory);
    };
    match project.remove(name) {
        Ok(applied) => {
            let _ = project.files();
            tell_drop(line, applied, output)
        }
        Err(_) => Err(AnswerFault::NoMemory),
    }
}
