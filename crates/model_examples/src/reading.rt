//! Reads a model back against the table from which it was made.
use crate::sketch::{ElementRow, MemberRow, ReferenceRow, Sketch, Word};
use element_store::{
    Bounds, Element, Expr, FileModel, Import, Limit, Member, Name, Node, Reference, Segments,
    Target, Text,
};

// Whether it is a name with these bytes, or none where there are no bytes.
fn is_named(name: &Option<Name>, bytes: &[u8]) -> bool {
    match name {
        Some(name) => name.bytes() == bytes,
        None => bytes.is_empty(),
    }
}

fn has_text(text: &Option<Text>, bytes: &[u8]) -> bool {
    match text {
        Some(text) => text.bytes() == bytes,
        None => bytes.is_empty(),
    }
}

fn is_node(node: &Node, word: Word) -> bool {
    match (node, word) {
        (Node::Integer(number), Word::Integer(wanted)) => *number == wanted,
        (Node::Named(reference), Word::Named(wanted)) => *reference == wanted,
        (Node::Binary(op), Word::Binary(wanted)) => *op == wanted,
        _ => false,
    }
}

fn has_value(value: &Option<Expr>, words: &[Word]) -> bool {
    let Some(value) = value else {
        return words.is_empty();
    };
    let nodes = value.as_slice();
    nodes.len() == words.len()
        && nodes
            .iter()
            .zip(words.iter())
            .all(|(node, word)| is_node(node, *word))
}

fn has_bounds(bounds: Option<Bounds>, upper: Option<i64>) -> bool {
    let Some(upper) = upper else {
        return bounds.is_none();
    };
    bounds
        == Some(Bounds {
            lower: None,
            upper: Some(Limit::Number(upper)),
        })
}

fn is_element(element: &Element, row: &ElementRow) -> bool {
    let names = is_named(&element.short, row.short) && is_named(&element.name, row.name);
    let texts = has_text(&element.body, row.body) && element.locale.is_none();
    let values = has_value(&element.value, row.value) && element.result.is_none();
    let place = element.kind == row.kind && element.owner == row.owner;
    let words = element.marks.default == row.default && !element.marks.end;
    names && texts && values && place && words && has_bounds(element.bounds, row.upper)
}

pub fn has_elements(model: &FileModel, rows: &[ElementRow]) -> bool {
    if model.elements() as usize != rows.len() {
        return false;
    }
    for (number, row) in rows.iter().enumerate() {
        if !is_element(model.element(number as u32), row) {
            return false;
        }
    }
    true
}

fn is_member(member: &Member, row: &MemberRow) -> bool {
    let names = is_named(&member.short, row.short) && is_named(&member.name, row.name);
    let place = member.owner == row.owner && member.target == row.target;
    names && place && member.visibility == row.visibility
}

// Whether the element that a member owns has it as its owning member.
fn is_owning(model: &FileModel, number: u32, target: Target) -> bool {
    match target {
        Target::Owned(element) if element < model.elements() => model.member_of(element)
            == Some(number),
        Target::Owned(_) => false,
        Target::Alias(_) => true,
    }
}

pub fn has_members(model: &FileModel, sketch: &Sketch) -> bool {
    let rows = sketch.members;
    if model.members() as usize != rows.len() || rows.len() != sketch.member_places.len() {
        return false;
    }
    for (index, row) in rows.iter().enumerate() {
        let number = index as u32;
        if !is_member(model.member(number), row) || !is_owning(model, number, row.target) {
            return false;
        }
        if model.place_of_member(number) != sketch.member_places[index] {
            return false;
        }
    }
    true
}

fn are_segments(segments: &Segments, names: &[&[u8]]) -> bool {
    let segments = segments.as_slice();
    segments.len() == names.len()
        && segments
            .iter()
            .zip(names.iter())
            .all(|(segment, name)| segment.bytes() == *name)
}

fn is_reference(reference: &Reference, row: &ReferenceRow) -> bool {
    let names = are_segments(&reference.path, row.path)
        && are_segments(&reference.chain, row.chain);
    names && reference.role == row.role && reference.context == row.context && !reference.absolute
}

pub fn has_references(model: &FileModel, sketch: &Sketch) -> bool {
    let rows = sketch.references;
    if model.references() as usize != rows.len() || rows.len() != sketch.reference_places.len() {
        return false;
    }
    for (index, row) in rows.iter().enumerate() {
        let number = index as u32;
        if !is_reference(model.reference(number), row) {
            return false;
        }
        if model.place_of_reference(number) != sketch.reference_places[index] {
            return false;
        }
    }
    true
}

fn is_import(import: &Import, row: &Import) -> bool {
    let names = import.owner == row.owner && import.reference == row.reference;
    let ends = import.star == row.star
        && import.recursive == row.recursive
        && import.all == row.all;
    names && ends && import.visibility == row.visibility
}

pub fn has_bodies(model: &FileModel, sketch: &Sketch) -> bool {
    if model.imports() as usize != sketch.imports.len() {
        return false;
    }
    for (number, row) in sketch.imports.iter().enumerate() {
        if !is_import(model.import(number as u32), row) {
            return false;
        }
    }
    if model.elements() as usize != sketch.items.len() {
        return false;
    }
    for (number, items) in sketch.items.iter().enumerate() {
        if model.items(number as u32).as_slice() != *items {
            return false;
        }
    }
    true
}
