ghost use Rattle.std.specs.Prelude.{◌≡◌, ◌++◌, List, IfOk, OnOk, codes};
ghost use Rattle.std.specs.Fmt.{decimal};
ghost use Rattle.book_model.specs.Answers.{no_file};
ghost use Rattle.book_model.specs.Files.{ProjectFile};
ghost use Rattle.book_model.specs.declared.rows.FaultRow.TheVariants.{File};
ghost use Rattle.book_model.specs.Printed.{fault_row_text, fault_text, refusal_text, report_text};
ghost use Rattle.project_answers.specs.Lines.{counts_text, drop_rest, head_of, print_rest, put_rest};

use book_model::{FileReport, Place, Printed};
use element_store::{FileName, Text};
use linker_base::NoMemory;
use project_book::Applied;
use project_files::write_place;
use std::alloc::Global;
use text_model::FileFault;
use written_names::{write, write_number};

/// Room for most lines, in bytes, which is taken at once.
pub(crate) const ROOM: usize = 256;

/// The beginning of a line: the command, and the name of the file.
pub(crate) fn begin_line(
    alloc: Global,
    command: &[u8],
    name: &FileName,
) -> Result<Vec<u8>, NoMemory>
    ensures { IfOk result (λ line. line.items ≡ head_of command.now name.now) }
{
    let mut line = Vec::with_capacity(alloc, ROOM)?;
    write(&mut line, command)?;
    write(&mut line, b" ")?;
    write(&mut line, name.bytes())?;
    write(&mut line, b" ")?;
    Ok(line)
}

/// The name of a fault.
fn fault_word(fault: FileFault) -> &'static [u8]
    ensures { result.now ≡ fault_text fault }
{
    match fault {
        FileFault::Encoding(_) => b"Encoding",
        FileFault::Token(_) => b"Token",
        FileFault::TooDeep(_) => b"TooDeep",
        FileFault::Syntax(_) => b"Syntax",
        FileFault::Limit(_) => b"Limit",
        FileFault::NoMemory => b"NoMemory",
    }
}

/// Appends a refusal: the fault of a text, and where it is.
fn write_refusal(line: &mut Vec<u8>, fault: FileFault, place: Place) -> Result<(), NoMemory>
    ensures { OnOk result (line.new.items ≡ line.old.items ++ refusal_text fault place) }
{
    write(line, b"refused ")?;
    write_place(line, place)?;
    write(line, b" ")?;
    write(line, fault_word(fault))
}

/// Appends a report: how much the model of a text holds, or its fault and where it is.
fn write_report(line: &mut Vec<u8>, report: FileReport) -> Result<(), NoMemory>
    ensures { OnOk result (line.new.items ≡ line.old.items ++ report_text report) }
{
    match report {
        FileReport::In {
            elements,
            references,
        } => {
            write(line, b"elements ")?;
            write_number(line, elements as usize)?;
            write(line, b" references ")?;
            write_number(line, references as usize)
        }
        FileReport::Refused { fault, place } => write_refusal(line, fault, place),
    }
}

/// Appends what a put answers, and the end of the line.
pub(crate) fn end_put(line: &mut Vec<u8>, report: Option<FileReport>) -> Result<(), NoMemory>
    ensures { OnOk result (line.new.items ≡ line.old.items ++ put_rest report ++ codes "\n") }
{
    match report {
        Some(report) => write_report(line, report)?,
        None => write(line, b"no file")?,
    }
    write(line, b"\n")
}

/// Appends what a drop answers, and the end of the line.
pub(crate) fn end_drop(line: &mut Vec<u8>, applied: Applied) -> Result<(), NoMemory>
    ensures { OnOk result (line.new.items ≡ line.old.items ++ drop_rest applied ++ codes "\n") }
{
    match applied {
        Applied::Changed => write(line, b"done")?,
        Applied::NotThere => write(line, b"no file")?,
    }
    write(line, b"\n")
}

/// Appends what a print answers in its line, and the end of the line.
pub(crate) fn end_print(line: &mut Vec<u8>, printed: &Option<Printed>) -> Result<(), NoMemory>
    ensures { OnOk result (line.new.items
        ≡ line.old.items ++ print_rest printed.now ++ codes "\n") }
{
    match printed {
        Some(Printed::Text(text)) => write_number(line, text.bytes().len())?,
        Some(Printed::Refused { fault, place }) => write_refusal(line, *fault, *place)?,
        None => write(line, b"no file")?,
    }
    write(line, b"\n")
}

/// Appends that no text is present, and the end of the line.
pub(crate) fn end_none(line: &mut Vec<u8>) -> Result<(), NoMemory>
    ensures { OnOk result (line.new.items ≡ line.old.items ++ no_file ++ codes "\n") }
{
    write(line, b"no file")?;
    write(line, b"\n")
}

/// Appends a count, and the end of the line.
pub(crate) fn end_count(line: &mut Vec<u8>, count: usize) -> Result<(), NoMemory>
    ensures { OnOk result (line.new.items ≡ line.old.items ++ decimal count ++ codes "\n") }
{
    write_number(line, count)?;
    write(line, b"\n")
}

/// What a check counts: present files, their references, and what is wrong with them.
#[derive(Clone, Copy, Debug, PartialEq, Eq)]
pub(crate) struct Counts {
    pub files: usize,
    pub references: usize,
    pub faults: usize,
}

/// The line of a file that is refused.
pub(crate) fn refusal_line(
    alloc: Global,
    name: &Text,
    fault: FileFault,
    place: Place,
) -> Result<Vec<u8>, NoMemory>
    ensures { (files : List ProjectFile) → IfOk result (λ line. line.items
        ≡ fault_row_text files (File name.now fault place) ++ codes "\n") }
{
    let mut line = Vec::from_slice(alloc, name.bytes())?;
    write(&mut line, b":")?;
    write_place(&mut line, place)?;
    write(&mut line, b" refused ")?;
    write(&mut line, fault_word(fault))?;
    write(&mut line, b"\n")?;
    Ok(line)
}

/// The last line of a check.
pub(crate) fn counts_line(alloc: Global, counts: Counts) -> Result<Vec<u8>, NoMemory>
    ensures { IfOk result (λ line. line.items ≡ counts_text counts) }
{
    let mut line = Vec::from_slice(alloc, b"check files ")?;
    write_number(&mut line, counts.files)?;
    write(&mut line, b" references ")?;
    write_number(&mut line, counts.references)?;
    write(&mut line, b" faults ")?;
    write_number(&mut line, counts.faults)?;
    write(&mut line, b"\n")?;
    Ok(line)
}
