//! The bounds of an element, and the ends of a connector.
ghost use Rattle.std.specs.Prelude.{◌≡◌, ◌<◌, ◌++◌, ◌∷◌, [], All, codes, true, length, IfOk, IfSome, OnOk, Some};
ghost use Rattle.std.specs.List.{list_all};
ghost use Rattle.element_store.specs.Condition.{has_reference, item_stands, IsModel};
ghost use Rattle.element_store.specs.Expressions.{name_of, names_of_bounds};
ghost use Rattle.element_store.specs.declared.outcome.Language.{Language};
ghost use Rattle.print_model.specs.Printed.{sign, word};
ghost use Rattle.print_model.specs.Heads.{bounds_tokens, element_at, end_list, end_name, end_tokens, ends_of, ends_tokens, limit_tokens, limits_in};
ghost use Rattle.model_printer.specs.Conditions.{NamesStand};
ghost use Rattle.model_printer.specs.Ends.{ends_in, in_option, more_ends};
ghost use Rattle.model_printer.specs.Sheets.{puts};

use crate::references::{write_listed, write_reference};
use crate::signs::Sign;
use crate::words::is_end;
use crate::writer::Writer;
use element_store::{Bounds, Element, FileModel, Item, Kind, Language, Limit, Name, Target};
use linker_base::NoMemory;
use std::alloc::Global;

/// The element of this number. What it names stands in the model.
pub(crate) fn element_of(model: &FileModel, element: u32) -> &Element
    requires { element < length model.now.elements }
    ensures is { result.now ≡ element_at model.now element }
    ensures names { NamesStand model.now result.now }
    ensures model { IsModel model.now }
{
    // A look at a model tells what holds of every model.
    let _ = model.elements();
    model.element(element)
}

/// One bound.
fn write_limit(writer: &mut Writer, model: &FileModel, limit: Limit) -> Result<(), NoMemory>
    requires { list_all (has_reference model.now) (name_of (Some limit)) ≡ true }
    ensures { OnOk result (writer.new ≡ puts writer.old (limit_tokens model.now limit)) }
{
    match limit {
        Limit::Number(number) => writer.number(number),
        Limit::Named(reference) => write_reference(writer, model, reference),
        Limit::Star => writer.sign(Sign::Star),
    }
}

/// A lower and an upper bound, or the upper one alone.
#[tactic(auto, using(crate::proofs::SheetLaws::puts_append, crate::proofs::SheetLaws::puts_cond))]
fn write_limits(
    writer: &mut Writer,
    model: &FileModel,
    lower: Option<Limit>,
    upper: Option<Limit>,
) -> Result<(), NoMemory>
    requires lower { list_all (has_reference model.now) (name_of lower) ≡ true }
    requires upper { list_all (has_reference model.now) (name_of upper) ≡ true }
    ensures { OnOk result (writer.new ≡ puts writer.old (limits_in model.now lower upper)) }
{
    match (lower, upper) {
        (None, None) => Ok(()),
        (None, Some(upper)) => write_limit(writer, model, upper),
        (Some(lower), None) => write_limit(writer, model, lower),
        (Some(lower), Some(upper)) => {
            write_limit(writer, model, lower)?;
            writer.sign(Sign::Dots)?;
            write_limit(writer, model, upper)?;
            Ok(())
        }
    }
}

/// The bounds in square brackets.
#[tactic(auto, using(crate::proofs::SheetLaws::puts_append, crate::proofs::SheetLaws::puts_cond))]
pub(crate) fn write_bounds(
    writer: &mut Writer,
    model: &FileModel,
    bounds: Option<Bounds>,
) -> Result<(), NoMemory>
    requires { list_all (has_reference model.now) (names_of_bounds bounds) ≡ true }
    ensures { OnOk result (writer.new ≡ puts writer.old (bounds_tokens model.now bounds)) }
{
    match bounds {
        None => Ok(()),
        Some(bounds) => {
            writer.sign(Sign::OpenBracket)?;
            write_limits(writer, model, bounds.lower, bounds.upper)?;
            writer.sign(Sign::CloseBracket)?;
            Ok(())
        }
    }
}

/// An end's name before its sign.
fn write_end_name(
    writer: &mut Writer,
    language: Language,
    name: &Option<Name>,
) -> Result<(), NoMemory>
    ensures { OnOk result (writer.new ≡ puts writer.old (end_name language name.now)) }
{
    match name {
        None => Ok(()),
        Some(name) => {
            writer.name(name, language)?;
            writer.sign(Sign::References)?;
            Ok(())
        }
    }
}

/// An end: its bounds, its name, what it refers to.
#[tactic(auto, using(crate::proofs::SheetLaws::puts_append, crate::proofs::SheetLaws::puts_cond))]
fn write_end(writer: &mut Writer, model: &FileModel, end: u32) -> Result<(), NoMemory>
    requires { end < length model.now.elements }
    ensures { OnOk result (writer.new ≡ puts writer.old (end_tokens model.now end)) }
{
    let element = element_of(model, end);
    write_bounds(writer, model, element.bounds)?;
    write_end_name(writer, model.language(), &element.name)?;
    write_listed(writer, model, end)?;
    Ok(())
}

/// Ends, each behind a comma.
fn write_more_ends(writer: &mut Writer, model: &FileModel, ends: &[u32]) -> Result<(), NoMemory>
    requires { All (λ e. e < length model.now.elements) ends.now }
    ensures { OnOk result (writer.new ≡ puts writer.old (more_ends model.now ends.now)) }
{
    for end in ends {
        writer.sign(Sign::Comma)?;
        write_end(writer, model, *end)?;
    }
    Ok(())
}

/// Ends with commas between them.
#[tactic(auto, using(crate::proofs::SheetLaws::puts_append, crate::proofs::EndLaws::list_is))]
fn write_end_list(writer: &mut Writer, model: &FileModel, ends: &[u32]) -> Result<(), NoMemory>
    requires { All (λ e. e < length model.now.elements) ends.now }
    ensures { OnOk result (writer.new ≡ puts writer.old (end_list model.now ends.now)) }
{
    match ends.split_first() {
        None => Ok(()),
        Some((first, rest)) => {
            write_end(writer, model, *first)?;
            write_more_ends(writer, model, rest)?;
            Ok(())
        }
    }
}

/// Two ends of a binding or of a connector.
#[tactic(auto, using(crate::proofs::SheetLaws::puts_append, crate::proofs::SheetLaws::puts_cond))]
fn write_two_ends(
    writer: &mut Writer,
    model: &FileModel,
    kind: Kind,
    first: u32,
    second: u32,
) -> Result<(), NoMemory>
    requires first { first < length model.now.elements }
    requires second { second < length model.now.elements }
    ensures { OnOk result (writer.new
        ≡ puts writer.old (ends_tokens model.now kind (first ∷ second ∷ []))) }
{
    if let Kind::Binding = kind {
        writer.word(b"bind")?;
        write_end(writer, model, first)?;
        writer.sign(Sign::Assigned)?;
    } else {
        writer.word(b"connect")?;
        write_end(writer, model, first)?;
        writer.word(b"to")?;
    }
    write_end(writer, model, second)
}

/// One end, or more than two.
#[tactic(auto, using(crate::proofs::SheetLaws::puts_append, crate::proofs::SheetLaws::puts_cond))]
fn write_many_ends(writer: &mut Writer, model: &FileModel, ends: &[u32]) -> Result<(), NoMemory>
    requires { All (λ e. e < length model.now.elements) ends.now }
    ensures { OnOk result ((l : Language) → writer.new
        ≡ puts writer.old (word l (codes "connect") ∷ sign (codes "(")
        ∷ (end_list model.now ends.now ++ sign (codes ")") ∷ []))) }
{
    writer.word(b"connect")?;
    writer.sign(Sign::OpenParen)?;
    write_end_list(writer, model, ends)?;
    writer.sign(Sign::CloseParen)?;
    Ok(())
}

/// The ends of a connector or a binding.
pub(crate) fn write_ends(
    writer: &mut Writer,
    model: &FileModel,
    kind: Kind,
    ends: &[u32],
) -> Result<(), NoMemory>
    requires { All (λ e. e < length model.now.elements) ends.now }
    ensures { OnOk result (writer.new ≡ puts writer.old (ends_tokens model.now kind ends.now)) }
{
    if ends.len() == 0 {
        return Ok(());
    }
    if ends.len() == 2 {
        return write_two_ends(writer, model, kind, ends[0], ends[1]);
    }
    write_many_ends(writer, model, ends)?;
    Ok(())
}

/// The end that an item is, if it is one.
fn end_in(model: &FileModel, item: Item) -> Option<u32>
    requires { item_stands model.now item ≡ true }
    ensures end { in_option result ≡ ends_in model.now item }
    ensures within { IfSome result (λ end. end < length model.now.elements) }
{
    let Item::Member(member) = item else {
        return None;
    };
    let Target::Owned(element) = model.member(member).target else {
        return None;
    };
    if is_end(element_of(model, element).kind) {
        Some(element)
    } else {
        None
    }
}

/// The ends of a connector, in text order.
pub(crate) fn ends_of(alloc: Global, model: &FileModel, element: u32) -> Result<Vec<u32>, NoMemory>
    requires { element < length model.now.elements }
    ensures ends { IfOk result (λ ends. ends.items ≡ ends_of model.now element) }
    ensures within { IfOk result (λ ends. All (λ e. e < length model.now.elements) ends.items) }
{
    let mut ends = Vec::new(alloc);
    let items = model.items(element).as_slice();
    for item in items {
        if let Some(end) = end_in(model, *item) {
            ends.push(end)?;
        }
    }
    Ok(ends)
}
