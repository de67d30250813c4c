//! The lines of a model, each by itself.
ghost use Rattle.std.specs.Prelude.{◌<◌, ◌++◌, ◌∷◌, [], length, OnOk};
ghost use Rattle.print_model.specs.Printed.{sign};
ghost use Rattle.print_model.specs.Heads.{alias_tokens, element_at, head, import_tokens, line, note_tokens, result_lines};
ghost use Rattle.model_printer.specs.Bodies.{AreWritten, closing};
ghost use Rattle.model_printer.specs.Conditions.{HasExpressions};
ghost use Rattle.model_printer.specs.Signs.{sign_bytes};

use crate::ends::element_of;
use crate::expressions::write_expression;
use crate::heads::{write_alias, write_head, write_import, write_note};
use crate::signs::Sign;
use crate::writer::Writer;
use element_store::{FileModel, Import, Member, Visibility};
use linker_base::NoMemory;
use std::alloc::Global;

/// The line of an alias.
pub(crate) fn write_alias_line(
    writer: &mut Writer,
    model: &FileModel,
    level: usize,
    member: &Member,
    reference: u32,
) -> Result<(), NoMemory>
    requires { reference < length model.now.references }
    ensures { OnOk result (AreWritten
        (line level (alias_tokens model.now member.now reference) ∷ []) writer.old writer.new) }
{
    writer.begin_line(level)?;
    write_alias(writer, model, member, reference)?;
    writer.end_line()?;
    Ok(())
}

/// The line of an import.
pub(crate) fn write_import_line(
    writer: &mut Writer,
    model: &FileModel,
    level: usize,
    import: &Import,
) -> Result<(), NoMemory>
    requires { import.now.reference < length model.now.references }
    ensures { OnOk result (AreWritten
        (line level (import_tokens model.now import.now) ∷ []) writer.old writer.new) }
{
    writer.begin_line(level)?;
    write_import(writer, model, import)?;
    writer.end_line()?;
    Ok(())
}

/// The line of a comment or of documentation.
pub(crate) fn write_note_line(
    writer: &mut Writer,
    model: &FileModel,
    level: usize,
    visibility: Visibility,
    element: u32,
) -> Result<(), NoMemory>
    requires { element < length model.now.elements }
    ensures { OnOk result (AreWritten
        (line level (note_tokens model.now visibility element) ∷ []) writer.old writer.new) }
{
    writer.begin_line(level)?;
    write_note(writer, model, visibility, element)?;
    writer.end_line()?;
    Ok(())
}

/// The line of a head, with the sign behind it: `{`, or `;` where its body has no line.
pub(crate) fn write_head_line(
    alloc: Global,
    writer: &mut Writer,
    model: &FileModel,
    level: usize,
    visibility: Visibility,
    element: u32,
    last: Sign,
) -> Result<(), NoMemory>
    requires stands { element < length model.now.elements }
    requires expressions { HasExpressions model.now }
    ensures { OnOk result (AreWritten
        (line level (head model.now visibility element ++ sign (sign_bytes last) ∷ []) ∷ [])
        writer.old writer.new) }
{
    writer.begin_line(level)?;
    write_head(alloc, writer, model, visibility, element)?;
    writer.sign(last)?;
    writer.end_line()?;
    Ok(())
}

/// The line of a body's result, if it has one.
pub(crate) fn write_result_line(
    alloc: Global,
    writer: &mut Writer,
    model: &FileModel,
    level: usize,
    element: u32,
) -> Result<(), NoMemory>
    requires stands { element < length model.now.elements }
    requires expressions { HasExpressions model.now }
    ensures { OnOk result (AreWritten
        (result_lines model.now level (element_at model.now element).result)
        writer.old writer.new) }
{
    let record = element_of(model, element);
    if let Some(result) = &record.result {
        writer.begin_line(level)?;
        write_expression(alloc, writer, model, result.as_slice())?;
        writer.end_line()?;
    }
    Ok(())
}

/// The line that closes a body within others.
pub(crate) fn write_closing(writer: &mut Writer, level: usize) -> Result<(), NoMemory>
    ensures { OnOk result (AreWritten (closing level) writer.old writer.new) }
{
    if level > 0 {
        writer.begin_line(level - 1)?;
        writer.sign(Sign::CloseBrace)?;
        writer.end_line()?;
    }
    Ok(())
}
