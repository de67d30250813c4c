//! Makes models of tables. Each function has one clause: what it makes is what the table draws.
ghost use Rattle.std.specs.Prelude.{◌≡◌, Some, IfOk, map};
ghost use Rattle.std.specs.Option.{option_map};
ghost use Rattle.element_store.specs.Model.{data_of};
ghost use Rattle.element_store.specs.Condition.{IsModel};
ghost use Rattle.model_examples.specs.Drawn.{if_any, node_of, exactly, element_of, member_of, reference_of, drawn};

use crate::sketch::{ElementRow, MemberRow, ReferenceRow, Sketch, Word};
use element_store::{
    Bounds, Element, Expr, FileModel, FileNo, Import, Item, Items, Language, Limit, Member,
    ModelParts, Name, Node, Reference, Segments, Text,
};
use linker_base::NoMemory;
use std::alloc::Global;

pub fn name(alloc: Global, bytes: &[u8]) -> Result<Option<Name>, NoMemory>
    ensures { IfOk result (λ made. made ≡ if_any bytes.now) }
{
    if bytes.is_empty() {
        return Ok(None);
    }
    Ok(Some(Name::of(Vec::from_slice(alloc, bytes)?)))
}

fn text(alloc: Global, bytes: &[u8]) -> Result<Option<Text>, NoMemory>
    ensures { IfOk result (λ made. made ≡ if_any bytes.now) }
{
    if bytes.is_empty() {
        return Ok(None);
    }
    Ok(Some(Text::of(Vec::from_slice(alloc, bytes)?)))
}

fn node(word: Word) -> Node
    ensures { result ≡ node_of word }
{
    match word {
        Word::Integer(number) => Node::Integer(number),
        Word::Named(reference) => Node::Named(reference),
        Word::Binary(op) => Node::Binary(op),
    }
}

fn nodes(alloc: Global, words: &[Word]) -> Result<Expr, NoMemory>
    ensures { IfOk result (λ made. made ≡ map node_of words.now) }
{
    let mut made = Expr::new(alloc);
    for word in words {
        made.push(node(*word))?;
    }
    Ok(made)
}

fn value(alloc: Global, words: &[Word]) -> Result<Option<Expr>, NoMemory>
    ensures { IfOk result (λ made. made ≡ if_any (map node_of words.now)) }
{
    if words.is_empty() {
        return Ok(None);
    }
    Ok(Some(nodes(alloc, words)?))
}

fn bounds(upper: i64) -> Bounds
    ensures { result ≡ exactly upper }
{
    Bounds {
        lower: None,
        upper: Some(Limit::Number(upper)),
    }
}

fn optional_bounds(upper: Option<i64>) -> Option<Bounds>
    ensures { result ≡ option_map exactly upper }
{
    match upper {
        Some(upper) => Some(bounds(upper)),
        None => None,
    }
}

fn element(alloc: Global, row: &ElementRow) -> Result<Element, NoMemory>
    ensures { IfOk result (λ made. made ≡ element_of row.now) }
{
    let mut made = Element::root();
    made.kind = row.kind;
    made.owner = row.owner;
    made.short = name(alloc, row.short)?;
    made.name = name(alloc, row.name)?;
    made.marks.default = row.default;
    made.body = text(alloc, row.body)?;
    made.bounds = optional_bounds(row.upper);
    made.value = value(alloc, row.value)?;
    Ok(made)
}

fn elements(alloc: Global, rows: &[ElementRow]) -> Result<Vec<Element>, NoMemory>
    ensures { IfOk result (λ made. made.items ≡ map element_of rows.now) }
{
    let mut made = Vec::new(alloc);
    for row in rows {
        made.push(element(alloc, row)?)?;
    }
    Ok(made)
}

fn items(alloc: Global, rows: &[Item]) -> Result<Items, NoMemory>
    ensures { IfOk result (λ made. made ≡ rows.now) }
{
    let mut made = Items::new(alloc);
    for row in rows {
        made.push(*row)?;
    }
    Ok(made)
}

fn all_items(alloc: Global, rows: &[&[Item]]) -> Result<Vec<Items>, NoMemory>
    ensures { IfOk result (λ made. made.items ≡ map (λ row. row.now) rows.now) }
{
    let mut made = Vec::new(alloc);
    for row in rows {
        made.push(items(alloc, row)?)?;
    }
    Ok(made)
}

fn member(alloc: Global, row: &MemberRow) -> Result<Member, NoMemory>
    ensures { IfOk result (λ made. made ≡ member_of row.now) }
{
    Ok(Member {
        owner: row.owner,
        target: row.target,
        short: name(alloc, row.short)?,
        name: name(alloc, row.name)?,
        visibility: row.visibility,
    })
}

fn members(alloc: Global, rows: &[MemberRow]) -> Result<Vec<Member>, NoMemory>
    ensures { IfOk result (λ made. made.items ≡ map member_of rows.now) }
{
    let mut made = Vec::new(alloc);
    for row in rows {
        made.push(member(alloc, row)?)?;
    }
    Ok(made)
}

fn segments(alloc: Global, rows: &[&[u8]]) -> Result<Segments, NoMemory>
    ensures { IfOk result (λ made. made ≡ map (λ row. row.now) rows.now) }
{
    let mut made = Segments::new(alloc);
    for row in rows {
        made.push(Name::of(Vec::from_slice(alloc, row)?))?;
    }
    Ok(made)
}

fn reference(alloc: Global, row: &ReferenceRow) -> Result<Reference, NoMemory>
    ensures { IfOk result (λ made. made ≡ reference_of row.now) }
{
    Ok(Reference {
        role: row.role,
        context: row.context,
        absolute: false,
        path: segments(alloc, row.path)?,
        chain: segments(alloc, row.chain)?,
    })
}

fn references(alloc: Global, rows: &[ReferenceRow]) -> Result<Vec<Reference>, NoMemory>
    ensures { IfOk result (λ made. made.items ≡ map reference_of rows.now) }
{
    let mut made = Vec::new(alloc);
    for row in rows {
        made.push(reference(alloc, row)?)?;
    }
    Ok(made)
}

fn import(row: &Import) -> Import
    ensures { result ≡ row.now }
{
    Import {
        owner: row.owner,
        reference: row.reference,
        star: row.star,
        recursive: row.recursive,
        all: row.all,
        visibility: row.visibility,
    }
}

fn imports(alloc: Global, rows: &[Import]) -> Result<Vec<Import>, NoMemory>
    ensures { IfOk result (λ made. made.items ≡ rows.now) }
{
    let mut made = Vec::new(alloc);
    for row in rows {
        made.push(import(row))?;
    }
    Ok(made)
}

fn places(alloc: Global, rows: &[&[u32]]) -> Result<Vec<Vec<u32>>, NoMemory>
    ensures { IfOk result (λ made.
        map (λ list. list.items) made.items ≡ map (λ row. row.now) rows.now) }
{
    let mut made = Vec::new(alloc);
    for row in rows {
        made.push(Vec::from_slice(alloc, row)?)?;
    }
    Ok(made)
}

fn parts(alloc: Global, file: FileNo, sketch: &Sketch) -> Result<ModelParts, NoMemory>
    ensures { IfOk result (λ made. data_of made ≡ drawn file sketch.now) }
{
    Ok(ModelParts {
        file,
        language: Language::Sysml,
        elements: elements(alloc, sketch.elements)?,
        items: all_items(alloc, sketch.items)?,
        members: members(alloc, sketch.members)?,
        references: references(alloc, sketch.references)?,
        imports: imports(alloc, sketch.imports)?,
        member_places: Vec::from_slice(alloc, sketch.member_places)?,
        reference_places: Vec::from_slice(alloc, sketch.reference_places)?,
        value_places: places(alloc, sketch.value_places)?,
        result_places: places(alloc, sketch.result_places)?,
    })
}

/// The model that a table draws.
pub fn model(alloc: Global, file: FileNo, sketch: &Sketch) -> Result<FileModel, NoMemory>
    requires { IsModel (drawn file sketch.now) }
    ensures { IfOk result (λ made. made ≡ drawn file sketch.now) }
{
    FileModel::of(alloc, parts(alloc, file, sketch)?)
}
