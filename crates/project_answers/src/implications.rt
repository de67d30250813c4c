ghost use Rattle.std.specs.Prelude.{◌≡◌, ◌++◌, All as Each, IfOk, codes, false};
ghost use Rattle.book_model.specs.Answers.{Command as Asked};
ghost use Rattle.book_model.specs.Files.{stored};
ghost use Rattle.sysml_session.specs.Answered.{IsAnswered, across};
ghost use Rattle.project_answers.specs.Holds.{all_linked, holding_of};
ghost use Rattle.project_answers.specs.ImpliedLines.{IsLiveImplied, implied_counts, implied_end};
ghost use Rattle.project_answers.specs.ImpliedLines.{implied_line, implied_lines};
ghost use Rattle.project_answers.specs.Parts.{IsPart};

use crate::lines::ROOM;
use crate::linking::Linking;
use crate::parts::give_counted;
use implied_rules::ImpliedRow;
use linker_base::NoMemory;
use outside_core::Sink;
use project_book::Project;
use project_files::{ProjectFiles, write_implication};
use std::alloc::Global;
use sysml_session::{AnswerFault, give_piece};
use written_names::{write, write_number};

/// The line of a row.
fn line(alloc: Global, files: &ProjectFiles, row: ImpliedRow) -> Result<Vec<u8>, NoMemory>
    requires { IsLiveImplied files.now row }
    ensures { IfOk result (λ line. line.items ≡ implied_line files.now row) }
{
    let mut line = Vec::with_capacity(alloc, ROOM)?;
    write_implication(alloc, &mut line, files, row.of, row.member, row.base)?;
    write(&mut line, b"\n")?;
    Ok(line)
}

/// Gives the line of a row, which counts once.
fn give_row<K: Sink>(
    alloc: Global,
    files: &ProjectFiles,
    row: ImpliedRow,
    output: &mut K,
) -> Result<usize, AnswerFault>
    requires { IsLiveImplied files.now row }
    ensures { IsPart (across K.given K.faults output.old output.new)
        (implied_line files.now row) 1 result }
{
    match line(alloc, files, row) {
        Ok(line) => give_counted(output, &line),
        Err(_) => Err(AnswerFault::NoMemory),
    }
}

/// Gives the lines of rows, and says how many they are.
fn give_rows<K: Sink>(
    alloc: Global,
    files: &ProjectFiles,
    rows: &[ImpliedRow],
    output: &mut K,
) -> Result<usize, AnswerFault>
    requires { Each (IsLiveImplied files.now) rows.now }
    ensures { IsPart (across K.given K.faults output.old output.new)
        (implied_lines files.now rows.now) (implied_counts rows.now) result }
{
    let mut told = 0;
    for row in rows {
        told += give_row(alloc, files, *row, output)?;
    }
    Ok(told)
}

/// The last line.
fn end_line(alloc: Global, count: usize) -> Result<Vec<u8>, NoMemory>
    ensures { IfOk result (λ line. line.items ≡ implied_end count) }
{
    let mut line = Vec::from_slice(alloc, b"implied ")?;
    write_number(&mut line, count)?;
    write(&mut line, b"\n")?;
    Ok(line)
}

/// Lists the implied specialisations of all files, and then counts them.
pub(crate) fn answer_implied<G: Linking, K: Sink>(
    alloc: Global,
    project: &Project,
    linking: &G,
    output: &mut K,
) -> Result<(), AnswerFault>
    requires whole { project.now.broken ≡ false }
    requires over { G.follows linking.now ≡ all_linked (stored project.now.files) }
    ensures { IsAnswered (holding_of project.now) (holding_of project.now) Asked.Implied
        (across K.given K.faults output.old output.new) result }
{
    let files = project.files();
    let Ok(rows) = linking.implied(files.models()) else {
        return Err(AnswerFault::NoMemory);
    };
    let count = give_rows(alloc, files, rows.as_slice(), output)?;
    match end_line(alloc, count) {
        Ok(line) => give_piece(output, &line),
        Err(_) => Err(AnswerFault::NoMemory),
    }
}
