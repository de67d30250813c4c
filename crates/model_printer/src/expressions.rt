//! Expressions, from their nodes in postfix order. Nothing recurs: what is left to write waits on a list.
ghost use Rattle.std.specs.Prelude.{◌≡◌, ◌<◌, ◌≤◌, ◌∷◌, [], true, length, reverse, suc, OnOk};
ghost use Rattle.std.specs.List.{list_all};
ghost use Rattle.element_store.specs.declared.outcome.Language.{Language};
ghost use Rattle.element_store.specs.Condition.{has_reference};
ghost use Rattle.element_store.specs.Expressions.{names_in};
ghost use Rattle.print_model.specs.Trees.{level_between, token_before, token_between};
ghost use Rattle.print_model.specs.Heads.{expression};
ghost use Rattle.model_printer.specs.Conditions.{IsExpression};
ghost use Rattle.model_printer.specs.Parts.{AreBegins, AreWorks, IsWork, leaf_tokens, level_of, tokens_left};
ghost use Rattle.model_printer.specs.Sheets.{puts};
ghost use Rattle.model_printer.specs.Turns.{IsEntered, IsOpened, IsTurned};

use crate::begins::{begin_before, begins};
use crate::references::write_reference;
use crate::signs::Sign;
use crate::writer::Writer;
use element_store::{BinaryOp, FileModel, Node, UnaryOp};
use linker_base::NoMemory;
use std::alloc::Global;

/// What is left to write of an expression.
#[derive(Clone, Copy, Debug, PartialEq, Eq)]
pub(crate) enum Work {
    /// The part that ends before the node of that number, in brackets where its level is below the wanted
    /// one.
    Part(usize, u8),
    /// A sign.
    Mark(Sign),
    /// An operator between its operands.
    Operator(BinaryOp),
    /// `else`.
    Else,
}

/// The level of an operator, from loose to tight.
fn level_between(op: BinaryOp) -> u8
    ensures { result ≡ level_between op }
{
    match op {
        BinaryOp::Implies => 1,
        BinaryOp::Or | BinaryOp::Bar => 2,
        BinaryOp::Xor => 3,
        BinaryOp::And | BinaryOp::Amp => 4,
        BinaryOp::Equal | BinaryOp::NotEqual => 5,
        BinaryOp::Less | BinaryOp::Greater | BinaryOp::AtMost | BinaryOp::AtLeast => 6,
        BinaryOp::Add | BinaryOp::Subtract => 7,
        BinaryOp::Multiply | BinaryOp::Divide | BinaryOp::Remainder => 8,
    }
}

/// The level of the expression that a node ends.
fn level_of(node: &Node) -> u8
    ensures { result ≡ level_of node.now }
{
    match node {
        Node::If => 0,
        Node::Binary(op) => level_between(*op),
        Node::Unary(_) => 9,
        _ => 10,
    }
}

/// The sign or word between two operands.
fn write_between(writer: &mut Writer, op: BinaryOp) -> Result<(), NoMemory>
    ensures { OnOk result ((l : Language)
        → writer.new ≡ puts writer.old (token_between l op ∷ [])) }
{
    match op {
        BinaryOp::Implies => writer.word(b"implies"),
        BinaryOp::Or => writer.word(b"or"),
        BinaryOp::Bar => writer.sign(Sign::Bar),
        BinaryOp::Xor => writer.word(b"xor"),
        BinaryOp::And => writer.word(b"and"),
        BinaryOp::Amp => writer.sign(Sign::Amp),
        BinaryOp::Equal => writer.sign(Sign::Equal),
        BinaryOp::NotEqual => writer.sign(Sign::NotEqual),
        BinaryOp::Less => writer.sign(Sign::Less),
        BinaryOp::Greater => writer.sign(Sign::Greater),
        BinaryOp::AtMost => writer.sign(Sign::AtMost),
        BinaryOp::AtLeast => writer.sign(Sign::AtLeast),
        BinaryOp::Add => writer.sign(Sign::Plus),
        BinaryOp::Subtract => writer.sign(Sign::Minus),
        BinaryOp::Multiply => writer.sign(Sign::Star),
        BinaryOp::Divide => writer.sign(Sign::Slash),
        BinaryOp::Remainder => writer.sign(Sign::Percent),
    }
}

/// The sign or word before an operand.
fn write_before(writer: &mut Writer, op: UnaryOp) -> Result<(), NoMemory>
    ensures { OnOk result ((l : Language) → writer.new ≡ puts writer.old (token_before l op ∷ [])) }
{
    match op {
        UnaryOp::Minus => writer.tight_sign(Sign::Minus),
        UnaryOp::Plus => writer.tight_sign(Sign::Plus),
        UnaryOp::Not => writer.word(b"not"),
    }
}

/// A literal or a name.
fn write_leaf(writer: &mut Writer, model: &FileModel, node: &Node) -> Result<(), NoMemory>
    requires { list_all (has_reference model.now) (names_in (node.now ∷ [])) ≡ true }
    ensures { OnOk result (writer.new ≡ puts writer.old (leaf_tokens model.now node.now)) }
{
    match node {
        Node::Integer(number) => writer.number(*number),
        Node::Boolean(true) => writer.word(b"true"),
        Node::Boolean(false) => writer.word(b"false"),
        Node::Text(text) => writer.string(text),
        Node::Null => writer.word(b"null"),
        Node::Named(reference) => write_reference(writer, model, *reference),
        Node::Unary(_) | Node::Binary(_) | Node::If => Ok(()),
    }
}

/// Opens a bracket before a part, where one stands there, and leaves the closing one.
fn open_bracket(
    writer: &mut Writer,
    model: &FileModel,
    nodes: &[Node],
    works: &mut Vec<Work>,
    brackets: bool,
) -> Result<(), NoMemory>
    requires { AreWorks model.now nodes.now (reverse works.old.items) }
    ensures { OnOk result (IsOpened model.now nodes.now brackets writer.old writer.new
        (reverse works.old.items) (reverse works.new.items)) }
{
    if brackets {
        writer.sign(Sign::OpenParen)?;
        works.push(Work::Mark(Sign::CloseParen))?;
    }
    Ok(())
}

/// Begins to write the part that this node ends, without its brackets. What follows its first token is left
/// as work.
fn enter_part(
    writer: &mut Writer,
    model: &FileModel,
    nodes: &[Node],
    begins: &[usize],
    works: &mut Vec<Work>,
    number: usize,
) -> Result<(), NoMemory>
    requires expression { IsExpression model.now nodes.now }
    requires begins { AreBegins model.now nodes.now begins.now }
    requires each { length begins.now ≡ length nodes.now }
    requires works { AreWorks model.now nodes.now (reverse works.old.items) }
    requires part { number < length nodes.now }
    ensures { OnOk result (IsEntered model.now nodes.now (suc number) writer.old writer.new
        (reverse works.old.items) (reverse works.new.items)) }
{
    let node = &nodes[number];
    match node {
        Node::Unary(op) => {
            write_before(writer, *op)?;
            works.push(Work::Part(number, 9))?;
        }
        Node::Binary(op) => {
            let level = level_between(*op);
            works.push(Work::Part(number, level + 1))?;
            works.push(Work::Operator(*op))?;
            works.push(Work::Part(begin_before(begins, number), level))?;
        }
        Node::If => {
            let second = begin_before(begins, number);
            writer.word(b"if")?;
            works.push(Work::Part(number, 0))?;
            works.push(Work::Else)?;
            works.push(Work::Part(second, 0))?;
            works.push(Work::Mark(Sign::Question))?;
            works.push(Work::Part(begin_before(begins, second), 0))?;
        }
        _ => write_leaf(writer, model, node)?,
    }
    Ok(())
}

/// One turn.
fn turn(
    writer: &mut Writer,
    model: &FileModel,
    nodes: &[Node],
    begins: &[usize],
    works: &mut Vec<Work>,
    work: Work,
) -> Result<(), NoMemory>
    requires expression { IsExpression model.now nodes.now }
    requires begins { AreBegins model.now nodes.now begins.now }
    requires each { length begins.now ≡ length nodes.now }
    requires works { AreWorks model.now nodes.now (reverse works.old.items) }
    requires work { IsWork model.now nodes.now work }
    ensures { OnOk result (IsTurned model.now nodes.now work writer.old writer.new
        (reverse works.old.items) (reverse works.new.items)) }
{
    match work {
        Work::Part(end, wanted) => {
            let number = end - 1;
            let brackets = level_of(&nodes[number]) < wanted;
            open_bracket(writer, model, nodes, works, brackets)?;
            enter_part(writer, model, nodes, begins, works, number)?;
            Ok(())
        }
        Work::Mark(sign) => {
            writer.sign(sign)?;
            Ok(())
        }
        Work::Operator(op) => {
            write_between(writer, op)?;
            Ok(())
        }
        Work::Else => {
            writer.word(b"else")?;
            Ok(())
        }
    }
}

/// Turn after turn, until nothing is left.
fn turn_all(
    writer: &mut Writer,
    model: &FileModel,
    nodes: &[Node],
    begins: &[usize],
    works: &mut Vec<Work>,
) -> Result<(), NoMemory>
    requires expression { IsExpression model.now nodes.now }
    requires begins { AreBegins model.now nodes.now begins.now }
    requires each { length begins.now ≡ length nodes.now }
    requires works { AreWorks model.now nodes.now (reverse works.old.items) }
    ensures { OnOk result (writer.new
        ≡ puts writer.old (tokens_left model.now nodes.now (reverse works.old.items))) }
{
    while let Some(work) = works.pop() {
        turn(writer, model, nodes, begins, works, work)?;
    }
    Ok(())
}

/// An expression, given by its nodes in postfix order (KerML 8.3.4.8). Brackets stand where the level of a
/// part is below the one that its place asks for.
pub(crate) fn write_expression(
    alloc: Global,
    writer: &mut Writer,
    model: &FileModel,
    nodes: &[Node],
) -> Result<(), NoMemory>
    requires { IsExpression model.now nodes.now }
    ensures { OnOk result (writer.new ≡ puts writer.old (expression model.now nodes.now)) }
{
    let begins = begins(alloc, model, nodes)?;
    let mut works = Vec::new(alloc);
    works.push(Work::Part(nodes.len(), 0))?;
    turn_all(writer, model, nodes, &begins, &mut works)?;
    Ok(())
}
