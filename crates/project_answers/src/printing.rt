ghost use Rattle.std.specs.Prelude.{◌≡◌, ◌++◌, IfOk, codes, false};
ghost use Rattle.book_model.specs.Answers.{Command as Asked, line};
ghost use Rattle.sysml_session.specs.Answered.{IsAnswered, IsGiven, across};
ghost use Rattle.project_answers.specs.Holds.{holding_of};
ghost use Rattle.project_answers.specs.Lines.{print_rest, text_behind};

use crate::lines::{begin_line, end_print};
use book_model::Printed;
use element_store::FileName;
use linker_base::NoMemory;
use outside_core::Sink;
use project_book::Project;
use std::alloc::Global;
use sysml_session::{AnswerFault, give_piece};

/// The line of an answer to `print`: how many bytes of canonical text follow it; or the fault of the file, or
/// that no text is present.
fn print_line(
    alloc: Global,
    name: &FileName,
    printed: &Option<Printed>,
) -> Result<Vec<u8>, NoMemory>
    ensures { IfOk result (λ v. v.items
        ≡ line (codes "print") name.now (print_rest printed.now)) }
{
    let mut line = begin_line(alloc, b"print", name)?;
    end_print(&mut line, printed)?;
    Ok(line)
}

/// The canonical text that stands behind the line, if there is one.
fn text_behind(printed: &Option<Printed>) -> &[u8]
    ensures { result.now ≡ text_behind printed.now }
{
    match printed {
        Some(Printed::Text(text)) => text.bytes(),
        _ => b"",
    }
}

/// Gives two pieces of an answer, one after the other.
fn give_both<K: Sink>(output: &mut K, first: &[u8], second: &[u8]) -> Result<(), AnswerFault>
    ensures { IsGiven (across K.given K.faults output.old output.new)
        (first.now ++ second.now) result }
{
    match give_piece(output, first) {
        Ok(()) => give_piece(output, second),
        Err(fault) => Err(fault),
    }
}

/// Prints the file under a name: its line, and then its canonical text.
pub(crate) fn answer_print<K: Sink>(
    alloc: Global,
    project: &Project,
    name: &FileName,
    output: &mut K,
) -> Result<(), AnswerFault>
    requires { project.now.broken ≡ false }
    ensures { IsAnswered (holding_of project.now) (holding_of project.now) (Asked.Print name.now)
        (across K.given K.faults output.old output.new) result }
{
    // A look at the files tells that they are those of the book.
    let _ = project.files();
    let Ok(printed) = project.print(name) else {
        return Err(AnswerFault::NoMemory);
    };
    match print_line(alloc, name, &printed) {
        Ok(line) => give_both(output, &line, text_behind(&printed)),
        Err(_) => Err(AnswerFault::NoMemory),
    }
}
