ghost use Rattle.std.specs.Prelude.{◌≡◌, ◌<◌, length};
ghost use Rattle.element_store.specs.Readings.{nodes_of};

use element_store::{
    Bounds, Direction, Element, Expr, FileModel, Import, Item, Limit, Marks, Member, Name, Node,
    PartOf, Reference, Segments, Target, Text, Visibility,
};
use std::io;

/// Writes the bytes of a name or text, or `?` where they are no UTF-8.
fn write_bytes(rt: &HostRuntime, bytes: &[u8]) -> io::Result<()> {
    match str::from_utf8(bytes) {
        Ok(spelt) => print!(rt; "{spelt}"),
        Err(_) => print!(rt; "?"),
    }
}

/// Writes a name between marks, where there is one.
fn write_name(rt: &HostRuntime, open: &str, name: &Option<Name>, close: &str) -> io::Result<()> {
    let Some(name) = name else {
        return Ok(());
    };
    print!(rt; "{open}")?;
    write_bytes(rt, name.bytes())?;
    print!(rt; "{close}")
}

/// Writes a text between marks, where there is one.
fn write_text(rt: &HostRuntime, open: &str, text: &Option<Text>, close: &str) -> io::Result<()> {
    let Some(text) = text else {
        return Ok(());
    };
    print!(rt; "{open}")?;
    write_bytes(rt, text.bytes())?;
    print!(rt; "{close}")
}

/// Writes a word where it is set.
fn write_mark(rt: &HostRuntime, is_set: bool, word: &str) -> io::Result<()> {
    if is_set {
        return print!(rt; " {word}");
    }
    Ok(())
}

fn write_marks(rt: &HostRuntime, marks: &Marks) -> io::Result<()> {
    write_mark(rt, marks.library, "library")?;
    write_mark(rt, marks.standard, "standard")?;
    write_mark(rt, marks.end, "end")?;
    write_mark(rt, marks.derived, "derived")?;
    write_mark(rt, marks.is_abstract, "abstract")?;
    write_mark(rt, marks.composite, "composite")?;
    write_mark(rt, marks.constant, "constant")?;
    write_mark(rt, marks.reference, "ref")?;
    write_mark(rt, marks.ordered, "ordered")?;
    write_mark(rt, marks.nonunique, "nonunique")?;
    write_mark(rt, marks.default, "default")?;
    match marks.direction {
        Direction::None => Ok(()),
        Direction::In => print!(rt; " in"),
        Direction::Out => print!(rt; " out"),
        Direction::InOut => print!(rt; " inout"),
    }?;
    match marks.part_of {
        PartOf::Plain => Ok(()),
        PartOf::Return => print!(rt; " return"),
        PartOf::Subject => print!(rt; " subject"),
        PartOf::Assume => print!(rt; " assume"),
        PartOf::Require => print!(rt; " require"),
    }
}

fn write_limit(rt: &HostRuntime, limit: &Option<Limit>) -> io::Result<()> {
    match limit {
        None => print!(rt; "-"),
        Some(Limit::Number(number)) => print!(rt; "{number}"),
        Some(Limit::Named(reference)) => print!(rt; "r{reference}"),
        Some(Limit::Star) => print!(rt; "*"),
    }
}

fn write_bounds(rt: &HostRuntime, bounds: &Option<Bounds>) -> io::Result<()> {
    let Some(bounds) = bounds else {
        return Ok(());
    };
    print!(rt; " [")?;
    write_limit(rt, &bounds.lower)?;
    print!(rt; "..")?;
    write_limit(rt, &bounds.upper)?;
    print!(rt; "]")
}

fn write_node(rt: &HostRuntime, node: &Node) -> io::Result<()> {
    match node {
        Node::Integer(number) => print!(rt; " {number}"),
        Node::Boolean(truth) => print!(rt; " {truth}"),
        Node::Text(text) => {
            print!(rt; " \"")?;
            write_bytes(rt, text.bytes())?;
            print!(rt; "\"")
        }
        Node::Null => print!(rt; " null"),
        Node::Named(reference) => print!(rt; " r{reference}"),
        Node::Unary(operator) => print!(rt; " {operator:?}"),
        Node::Binary(operator) => print!(rt; " {operator:?}"),
        Node::If => print!(rt; " If"),
    }
}

/// Writes an expression, each node with its place.
fn write_expression(
    rt: &HostRuntime,
    model: &FileModel,
    element: u32,
    of_result: bool,
    expression: &Expr,
) -> io::Result<()>
    requires { nodes_of model.now of_result element ≡ length expression.now }
{
    let nodes = expression.as_slice();
    let mut number: u32 = 0;
    for node in nodes {
        write_node(rt, node)?;
        // A text of fewer than 2^32 bytes has no more nodes.
        if (number as usize) < nodes.len() {
            print!(rt; "@{}", model.place_of_node(element, of_result, number))?;
        }
        number = number.saturating_add(1);
    }
    Ok(())
}

fn write_items(rt: &HostRuntime, items: &[Item]) -> io::Result<()> {
    print!(rt; " {{")?;
    for item in items {
        match item {
            Item::Member(number) => print!(rt; " m{number}"),
            Item::Import(number) => print!(rt; " i{number}"),
        }?;
    }
    print!(rt; " }}")
}

/// Writes what an element has of its own.
fn write_head(rt: &HostRuntime, element: &Element) -> io::Result<()> {
    print!(rt; " | {:?}", element.kind)?;
    if let Some(owner) = element.owner {
        print!(rt; " ^{owner}")?;
    }
    write_name(rt, " <", &element.short, ">")?;
    write_name(rt, " '", &element.name, "'")?;
    write_marks(rt, &element.marks)?;
    write_text(rt, " /*", &element.body, "*/")?;
    write_text(rt, " locale \"", &element.locale, "\"")?;
    write_bounds(rt, &element.bounds)
}

#[tactic(auto, using(crate::proofs::NodeCounts::value_has, crate::proofs::NodeCounts::result_has))]
fn write_element(rt: &HostRuntime, model: &FileModel, number: u32) -> io::Result<()>
    requires { number < length model.now.elements }
{
    let element = model.element(number);
    write_head(rt, element)?;
    if let Some(value) = &element.value {
        print!(rt; " =")?;
        write_expression(rt, model, number, false, value)?;
    }
    if let Some(result) = &element.result {
        print!(rt; " gives")?;
        write_expression(rt, model, number, true, result)?;
    }
    write_items(rt, model.items(number).as_slice())
}

fn write_visibility(rt: &HostRuntime, visibility: Visibility) -> io::Result<()> {
    match visibility {
        Visibility::Public => print!(rt; " public"),
        Visibility::Protected => print!(rt; " protected"),
        Visibility::Private => print!(rt; " private"),
    }
}

fn write_member(rt: &HostRuntime, member: &Member, place: u32) -> io::Result<()> {
    match member.target {
        Target::Owned(element) => print!(rt; " | member of {} e{element}", member.owner),
        Target::Alias(reference) => print!(rt; " | member of {} r{reference}", member.owner),
    }?;
    write_name(rt, " <", &member.short, ">")?;
    write_name(rt, " '", &member.name, "'")?;
    write_visibility(rt, member.visibility)?;
    print!(rt; " @{place}")
}

fn write_segments(rt: &HostRuntime, mark: &str, segments: &Segments) -> io::Result<()> {
    for segment in segments.as_slice() {
        print!(rt; "{mark}")?;
        write_bytes(rt, segment.bytes())?;
    }
    Ok(())
}

fn write_reference(rt: &HostRuntime, reference: &Reference, place: u32) -> io::Result<()> {
    print!(rt; " | {:?} of {}", reference.role, reference.context)?;
    write_mark(rt, reference.absolute, "$")?;
    write_segments(rt, " ", &reference.path)?;
    write_segments(rt, " .", &reference.chain)?;
    print!(rt; " @{place}")
}

fn write_import(rt: &HostRuntime, import: &Import) -> io::Result<()> {
    print!(rt; " | import of {} r{}", import.owner, import.reference)?;
    write_mark(rt, import.star, "*")?;
    write_mark(rt, import.recursive, "**")?;
    write_mark(rt, import.all, "all")?;
    write_visibility(rt, import.visibility)
}

/// Writes a model on one line.
pub fn write_model(rt: &HostRuntime, model: &FileModel) -> io::Result<()> {
    print!(rt; "model")?;
    for number in 0..model.elements() {
        write_element(rt, model, number)?;
    }
    for number in 0..model.members() {
        write_member(rt, model.member(number), model.place_of_member(number))?;
    }
    for number in 0..model.references() {
        write_reference(
            rt,
            model.reference(number),
            model.place_of_reference(number),
        )?;
    }
    for number in 0..model.imports() {
        write_import(rt, model.import(number))?;
    }
    println!(rt; "")
}
