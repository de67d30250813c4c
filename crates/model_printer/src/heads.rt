//! The tokens of an item before its body, or up to its end.
ghost use Rattle.std.specs.Prelude.{◌≡◌, ◌<◌, ◌∷◌, [], length, OnOk};
ghost use Rattle.print_model.specs.Heads.{alias_tokens, before_names, element_at, head, import_tokens, locale_tokens, names, note_tokens, short_name, star_tokens, value_tokens, body_bytes};
ghost use Rattle.print_model.specs.Printed.{note};
ghost use Rattle.model_printer.specs.Conditions.{HasExpressions, IsExpressionIn};
ghost use Rattle.model_printer.specs.Sheets.{puts};
ghost use Rattle.model_printer.specs.Signs.{sign_bytes};

use crate::ends::{element_of, ends_of, write_bounds, write_ends};
use crate::expressions::write_expression;
use crate::references::{write_abouts, write_reference, write_specialisations};
use crate::signs::Sign;
use crate::words::{visibility_word, write_kind, write_part, write_prefixes, write_visibility};
use crate::writer::Writer;
use element_store::{Element, Expr, FileModel, Import, Language, Member, Name, Text, Visibility};
use linker_base::NoMemory;
use std::alloc::Global;

/// A short name in its signs.
fn write_short(
    writer: &mut Writer,
    language: Language,
    short: &Option<Name>,
) -> Result<(), NoMemory>
    ensures { OnOk result (writer.new ≡ puts writer.old (short_name language short.now)) }
{
    if let Some(short) = short {
        writer.tight_sign(Sign::Less)?;
        writer.tight_name(short, language)?;
        writer.sign(Sign::Greater)?;
    }
    Ok(())
}

/// The short name, then the name.
#[tactic(auto, using(crate::proofs::SheetLaws::puts_append, crate::proofs::SheetLaws::puts_cond))]
fn write_names(
    writer: &mut Writer,
    language: Language,
    short: &Option<Name>,
    name: &Option<Name>,
) -> Result<(), NoMemory>
    ensures { OnOk result (writer.new ≡ puts writer.old (names language short.now name.now)) }
{
    write_short(writer, language, short)?;
    if let Some(name) = name {
        writer.name(name, language)?;
    }
    Ok(())
}

/// Up to the names: visibility, part, prefixes, kind.
#[tactic(auto, using(crate::proofs::SheetLaws::puts_append, crate::proofs::SheetLaws::puts_cond))]
fn write_before_names(
    writer: &mut Writer,
    model: &FileModel,
    visibility: Visibility,
    element: &Element,
) -> Result<(), NoMemory>
    ensures { OnOk result (writer.new
        ≡ puts writer.old (before_names model.now visibility element.now)) }
{
    let language = model.language();
    let marks = &element.marks;
    write_visibility(writer, visibility)?;
    write_part(writer, marks.part_of)?;
    write_prefixes(writer, language, marks)?;
    writer.word_if(marks.standard, b"standard")?;
    writer.word_if(marks.library, b"library")?;
    write_kind(writer, marks.part_of, element.kind)?;
    write_names(writer, language, &element.short, &element.name)?;
    Ok(())
}

/// A value behind its sign.
#[tactic(auto, using(crate::proofs::SheetLaws::puts_append, crate::proofs::SheetLaws::puts_cond))]
fn write_value(
    alloc: Global,
    writer: &mut Writer,
    model: &FileModel,
    default: bool,
    value: &Option<Expr>,
) -> Result<(), NoMemory>
    requires { IsExpressionIn model.now value.now }
    ensures { OnOk result (writer.new
        ≡ puts writer.old (value_tokens model.now default value.now)) }
{
    if let Some(value) = value {
        writer.word_if(default, b"default")?;
        writer.sign(Sign::Assigned)?;
        write_expression(alloc, writer, model, value.as_slice())?;
    }
    Ok(())
}

/// All before the body of an element.
#[tactic(auto, using(crate::proofs::SheetLaws::puts_append, crate::proofs::SheetLaws::puts_cond))]
pub(crate) fn write_head(
    alloc: Global,
    writer: &mut Writer,
    model: &FileModel,
    visibility: Visibility,
    element: u32,
) -> Result<(), NoMemory>
    requires stands { element < length model.now.elements }
    requires expressions { HasExpressions model.now }
    ensures { OnOk result (writer.new ≡ puts writer.old (head model.now visibility element)) }
{
    let ends = ends_of(alloc, model, element)?;
    let record = element_of(model, element);
    write_before_names(writer, model, visibility, record)?;
    write_specialisations(writer, model, element)?;
    write_bounds(writer, model, record.bounds)?;
    writer.word_if(record.marks.ordered, b"ordered")?;
    writer.word_if(record.marks.nonunique, b"nonunique")?;
    write_value(alloc, writer, model, record.marks.default, &record.value)?;
    write_ends(writer, model, record.kind, &ends)?;
    Ok(())
}

/// A locale and its string.
fn write_locale(
    writer: &mut Writer,
    language: Language,
    locale: &Option<Text>,
) -> Result<(), NoMemory>
    ensures { OnOk result (writer.new ≡ puts writer.old (locale_tokens language locale.now)) }
{
    if let Some(locale) = locale {
        writer.word(b"locale")?;
        writer.string(locale)?;
    }
    Ok(())
}

/// What a comment says, in its marks.
fn write_body(writer: &mut Writer, body: &Option<Text>) -> Result<(), NoMemory>
    ensures { OnOk result (writer.new ≡ puts writer.old (note (body_bytes body.now) ∷ [])) }
{
    match body {
        Some(body) => writer.note(body.bytes()),
        None => writer.note(b""),
    }
}

/// A comment or documentation.
#[tactic(auto, using(crate::proofs::SheetLaws::puts_append, crate::proofs::SheetLaws::puts_cond))]
pub(crate) fn write_note(
    writer: &mut Writer,
    model: &FileModel,
    visibility: Visibility,
    element: u32,
) -> Result<(), NoMemory>
    requires { element < length model.now.elements }
    ensures { OnOk result (writer.new
        ≡ puts writer.old (note_tokens model.now visibility element)) }
{
    let record = element_of(model, element);
    write_before_names(writer, model, visibility, record)?;
    write_abouts(writer, model, element)?;
    write_locale(writer, model.language(), &record.locale)?;
    write_body(writer, &record.body)?;
    Ok(())
}

/// An alias, with the sign that ends it.
#[tactic(auto, using(crate::proofs::SheetLaws::puts_append, crate::proofs::SheetLaws::puts_cond))]
pub(crate) fn write_alias(
    writer: &mut Writer,
    model: &FileModel,
    member: &Member,
    reference: u32,
) -> Result<(), NoMemory>
    requires { reference < length model.now.references }
    ensures { OnOk result (writer.new
        ≡ puts writer.old (alias_tokens model.now member.now reference)) }
{
    write_visibility(writer, member.visibility)?;
    writer.word(b"alias")?;
    write_names(writer, model.language(), &member.short, &member.name)?;
    writer.word(b"for")?;
    write_reference(writer, model, reference)?;
    writer.sign(Sign::Semicolon)?;
    Ok(())
}

/// `::` and a star, where this holds.
fn write_star(writer: &mut Writer, holds: bool, star: Sign) -> Result<(), NoMemory>
    ensures { OnOk result (writer.new ≡ puts writer.old (star_tokens holds (sign_bytes star))) }
{
    if holds {
        writer.sign(Sign::ColonColon)?;
        writer.sign(star)?;
    }
    Ok(())
}

/// An import, whose visibility is always written, with the sign that ends it.
#[tactic(auto, using(crate::proofs::SheetLaws::puts_append, crate::proofs::SheetLaws::puts_cond))]
pub(crate) fn write_import(
    writer: &mut Writer,
    model: &FileModel,
    import: &Import,
) -> Result<(), NoMemory>
    requires { import.now.reference < length model.now.references }
    ensures { OnOk result (writer.new ≡ puts writer.old (import_tokens model.now import.now)) }
{
    writer.word(visibility_word(import.visibility))?;
    writer.word(b"import")?;
    writer.word_if(import.all, b"all")?;
    write_reference(writer, model, import.reference)?;
    write_star(writer, import.star, Sign::Star)?;
    write_star(writer, import.recursive, Sign::StarStar)?;
    writer.sign(Sign::Semicolon)?;
    Ok(())
}
