//! Bodies within bodies. Nothing recurs: the bodies that are open wait on a list, each at its next item.
ghost use Rattle.std.specs.Prelude.{◌≡◌, ◌<◌, ◌∷◌, ◌++◌, suc, true, length, reverse, OnOk};
ghost use Rattle.element_store.specs.Condition.{item_stands};
ghost use Rattle.print_model.specs.Layout.{text_of};
ghost use Rattle.print_model.specs.Heads.{result_lines, element_at};
ghost use Rattle.element_store.specs.declared.lists.Item.TheVariants as item;
ghost use Rattle.model_printer.specs.Bodies.{AreOpen, AreWritten, IsElementWritten, IsItemWritten, IsMoved, closing, has_line, has_lines, lines_left};
ghost use Rattle.model_printer.specs.Conditions.{HasExpressions};

use crate::ends::element_of;
use crate::lines::{
    write_alias_line, write_closing, write_head_line, write_import_line, write_note_line,
    write_result_line,
};
use crate::signs::Sign;
use crate::words::{is_end, is_note};
use crate::writer::Writer;
use element_store::{FileModel, Item, Target, Visibility};
use linker_base::NoMemory;
use std::alloc::Global;

/// A body that is open.
#[derive(Clone, Copy, Debug, PartialEq, Eq)]
pub(crate) struct OpenBody {
    /// The number of the element whose body it is.
    pub element: u32,
    /// Which of its items comes next.
    pub next: usize,
}

/// Whether an item has a line: an end of a connector has none.
fn has_line(model: &FileModel, item: Item) -> bool
    requires { item_stands model.now item ≡ true }
    ensures { result ≡ has_line model.now item }
{
    let Item::Member(member) = item else {
        return true;
    };
    match model.member(member).target {
        Target::Owned(element) => !is_end(element_of(model, element).kind),
        Target::Alias(_) => true,
    }
}

/// Whether the body of an element has a line.
fn has_lines(model: &FileModel, element: u32) -> bool
    requires { element < length model.now.elements }
    ensures { result ≡ has_lines model.now element }
{
    let items = model.items(element).as_slice();
    for item in items {
        if has_line(model, *item) {
            return true;
        }
    }
    element_of(model, element).result.is_some()
}

/// The lines of an element that is owned; its body, if it has lines, is left open.
fn write_element(
    alloc: Global,
    writer: &mut Writer,
    model: &FileModel,
    bodies: &mut Vec<OpenBody>,
    visibility: Visibility,
    element: u32,
) -> Result<(), NoMemory>
    requires stands { element < length model.now.elements }
    requires expressions { HasExpressions model.now }
    requires within { 0 < length bodies.old.items }
    requires open { AreOpen model.now (reverse bodies.old.items) }
    ensures { OnOk result (IsElementWritten model.now visibility element writer.old writer.new
        (reverse bodies.old.items) (reverse bodies.new.items)) }
{
    let level = bodies.len() - 1;
    let kind = element_of(model, element).kind;
    if is_end(kind) {
        return Ok(());
    }
    if is_note(kind) {
        return write_note_line(writer, model, level, visibility, element);
    }
    if has_lines(model, element) {
        write_head_line(
            alloc,
            writer,
            model,
            level,
            visibility,
            element,
            Sign::OpenBrace,
        )?;
        bodies.push(OpenBody { element, next: 0 })?;
        return Ok(());
    }
    write_head_line(
        alloc,
        writer,
        model,
        level,
        visibility,
        element,
        Sign::Semicolon,
    )?;
    Ok(())
}

/// The lines of an item; a body, if it has lines, is left open.
fn write_item(
    alloc: Global,
    writer: &mut Writer,
    model: &FileModel,
    bodies: &mut Vec<OpenBody>,
    item: Item,
) -> Result<(), NoMemory>
    requires stands { item_stands model.now item ≡ true }
    requires expressions { HasExpressions model.now }
    requires within { 0 < length bodies.old.items }
    requires open { AreOpen model.now (reverse bodies.old.items) }
    ensures { OnOk result (IsItemWritten model.now item writer.old writer.new
        (reverse bodies.old.items) (reverse bodies.new.items)) }
{
    match item {
        Item::Import(import) => {
            let import = model.import(import);
            write_import_line(writer, model, bodies.len() - 1, import)?;
        }
        Item::Member(member) => {
            let member = model.member(member);
            match member.target {
                Target::Owned(element) => {
                    write_element(alloc, writer, model, bodies, member.visibility, element)?;
                }
                Target::Alias(reference) => {
                    write_alias_line(writer, model, bodies.len() - 1, member, reference)?;
                }
            }
        }
    }
    Ok(())
}

/// The end of a body: its result, and the line that closes it.
fn write_end(
    alloc: Global,
    writer: &mut Writer,
    model: &FileModel,
    level: usize,
    element: u32,
) -> Result<(), NoMemory>
    requires stands { element < length model.now.elements }
    requires expressions { HasExpressions model.now }
    ensures { OnOk result (AreWritten
        (result_lines model.now level (element_at model.now element).result ++ closing level)
        writer.old writer.new) }
{
    write_result_line(alloc, writer, model, level, element)?;
    write_closing(writer, level)?;
    Ok(())
}

/// One turn: an item of a body, or its end.
fn turn(
    alloc: Global,
    writer: &mut Writer,
    model: &FileModel,
    bodies: &mut Vec<OpenBody>,
    body: OpenBody,
) -> Result<(), NoMemory>
    requires expressions { HasExpressions model.now }
    requires stands { body.element < length model.now.elements }
    requires open { AreOpen model.now (reverse bodies.old.items) }
    ensures { OnOk result (IsMoved model.now writer.old writer.new
        (body ∷ reverse bodies.old.items) (reverse bodies.new.items)) }
{
    let items = model.items(body.element).as_slice();
    if body.next < items.len() {
        let element = body.element;
        let next = body.next + 1;
        bodies.push(OpenBody { element, next })?;
        write_item(alloc, writer, model, bodies, items[body.next])?;
        return Ok(());
    }
    write_end(alloc, writer, model, bodies.len(), body.element)?;
    Ok(())
}

/// Turn after turn, until no body is open.
pub(crate) fn write_bodies(
    alloc: Global,
    writer: &mut Writer,
    model: &FileModel,
    bodies: &mut Vec<OpenBody>,
) -> Result<(), NoMemory>
    requires expressions { HasExpressions model.now }
    requires open { AreOpen model.now (reverse bodies.old.items) }
    ensures { OnOk result (AreWritten
        (lines_left model.now (reverse bodies.old.items)) writer.old writer.new) }
{
    while let Some(body) = bodies.pop() {
        turn(alloc, writer, model, bodies, body)?;
    }
    Ok(())
}
