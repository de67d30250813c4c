ghost use Rattle.std.specs.Prelude.{◌≡◌, ◌++◌, ◌∷◌, [], IfOk, OnOk, length};
ghost use Rattle.linker_base.specs.Members.{IsMember};
ghost use Rattle.element_store.specs.Expressions.{names_in};
ghost use Rattle.demand_core.specs.Tables.{entry_of};
ghost use Rattle.value_model.specs.Keys.{same_value_key};
ghost use Rattle.expr_reading.specs.declared.turns.Turn.TheVariants.{Read};
ghost use Rattle.demand_core.specs.declared.looks.Fact.TheVariants.{Key};
ghost use Rattle.expr_reading.specs.Positions.{AreBegins};
ghost use Rattle.expr_reading.specs.Sources.{worth_in};
ghost use Rattle.expr_reading.specs.Turns.{ArePending, EndsPart, IsNamed, HasRead, Turned, literal_value, turn_of_entry};

use crate::following::{have, turn_of};
use crate::positions::{begin_before, begins};
use crate::source::{Lead, Source};
use crate::turns::{Pending, Turn};
use demand_core::{Fact, Keys, Looks, Step, Table};
use element_store::Node;
use linker_base::NoMemory;
use std::alloc::Global;
use value_model::{NoFact, Value, ValueAnswer, ValueKey};
use value_operators::{copy_answer, copy_text};

/// The value of a literal.
fn literal(alloc: Global, node: &Node) -> Result<Value, NoMemory>
    ensures { IfOk result (λ value. value ≡ literal_value node.now) }
{
    match node {
        Node::Integer(n) => Ok(Value::Integer(*n)),
        Node::Boolean(b) => Ok(Value::Boolean(*b)),
        Node::Text(text) => {
            let text = copy_text(alloc, text)?;
            Ok(Value::Text(text))
        }
        _ => Ok(Value::Null),
    }
}

/// What the key has, or a wait on it.
fn look_up(
    alloc: Global,
    table: &Table<ValueKey, ValueAnswer>,
    looks: &mut Looks<ValueKey, NoFact>,
    key: ValueKey,
) -> Result<Turn, NoMemory>
    ensures looks { OnOk result (looks.new ≡ looks.old ++ Key key ∷ []) }
    ensures turn { IfOk result
        (λ turn. turn ≡ turn_of_entry key (entry_of same_value_key table.now key)) }
{
    looks.add(Fact::Key(key))?;
    match table.get(key) {
        Some(answer) => {
            let answer = copy_answer(alloc, answer)?;
            Ok(turn_of(answer))
        }
        None => {
            let mut keys = Keys::new(alloc);
            keys.push(key)?;
            Ok(Turn::Ended(Step::Waits(keys)))
        }
    }
}

/// Reads a name.
fn read_name<S: Source>(
    alloc: Global,
    source: &S,
    table: &Table<ValueKey, ValueAnswer>,
    looks: &mut Looks<ValueKey, NoFact>,
    reference: u32,
) -> Result<Turn, NoMemory>
    requires valid { S.valid source.now }
    requires named { IsMember (names_in (S.meaning source.now).nodes) reference }
    ensures { IfOk result (IsNamed (S.meaning source.now) (entry_of same_value_key table.now)
        reference looks.old looks.new) }
{
    match source.lead(alloc, reference)? {
        Lead::Known(answer) => Ok(turn_of(answer)),
        Lead::Needs(key) => look_up(alloc, table, looks, key),
    }
}

/// Reads the part that ends before a node: a literal or a name is read at once, of an operator the
/// first operand comes first.
fn read<S: Source>(
    alloc: Global,
    source: &S,
    begins: &[u32],
    table: &Table<ValueKey, ValueAnswer>,
    looks: &mut Looks<ValueKey, NoFact>,
    pending: &mut Vec<Pending>,
    end: u32,
) -> Result<Turn, NoMemory>
    requires valid { S.valid source.now }
    requires begins { AreBegins (S.meaning source.now).nodes begins.now }
    requires each { length begins.now ≡ length (S.meaning source.now).nodes }
    requires pending { ArePending (S.meaning source.now) pending.old.items }
    requires part { EndsPart (S.meaning source.now) end }
    ensures { IfOk result (Turned (S.meaning source.now) (entry_of same_value_key table.now)
        looks.old pending.old.items (Read end) looks.new pending.new.items) }
{
    let number = end - 1;
    let node = &source.nodes()[number as usize];
    match node {
        Node::Named(reference) => read_name(alloc, source, table, looks, *reference),
        Node::Unary(op) => {
            pending.push(Pending::Operand(number, *op))?;
            Ok(Turn::Read(number))
        }
        Node::Binary(op) => {
            pending.push(Pending::First(number, *op))?;
            Ok(Turn::Read(begin_before(begins, number)))
        }
        Node::If => {
            let second = begin_before(begins, number);
            pending.push(Pending::Condition(number, second))?;
            Ok(Turn::Read(begin_before(begins, second)))
        }
        _ => {
            let value = literal(alloc, node)?;
            Ok(Turn::Have(value))
        }
    }
}

/// Turn after turn, until the end.
fn turn_all<S: Source>(
    alloc: Global,
    source: &S,
    begins: &[u32],
    table: &Table<ValueKey, ValueAnswer>,
    looks: &mut Looks<ValueKey, NoFact>,
    pending: &mut Vec<Pending>,
    end: u32,
) -> Result<Step<ValueKey, ValueAnswer>, NoMemory>
    requires valid { S.valid source.now }
    requires begins { AreBegins (S.meaning source.now).nodes begins.now }
    requires each { length begins.now ≡ length (S.meaning source.now).nodes }
    requires pending { ArePending (S.meaning source.now) pending.old.items }
    requires part { EndsPart (S.meaning source.now) end }
    ensures { IfOk result (HasRead (S.meaning source.now) (entry_of same_value_key table.now)
        looks.old pending.old.items (Read end) looks.new) }
{
    let mut turn = Turn::Read(end);
    loop {
        turn = match turn {
            Turn::Read(end) => read(alloc, source, begins, table, looks, pending, end)?,
            Turn::Have(value) => have(alloc, source, pending, value)?,
            Turn::Ended(step) => return Ok(step),
        };
    }
}

/// Reads an expression over a table of values. Gives its answer, or the first key without an answer
/// that it needs. Adds to `looks` the keys that it read, in order.
///
/// Of `and`, `or` and `implies` the second operand is read only where the first doesn't decide, and
/// of `if` the part alone that the condition chooses.
pub fn worth<S: Source>(
    alloc: Global,
    source: &S,
    table: &Table<ValueKey, ValueAnswer>,
    looks: &mut Looks<ValueKey, NoFact>,
) -> Result<Step<ValueKey, ValueAnswer>, NoMemory>
    requires valid { S.valid source.now }
    ensures step { IfOk result (λ step. step
        ≡ (worth_in (S.meaning source.now) (entry_of same_value_key table.now)).step) }
    ensures looks { OnOk result (looks.new ≡ looks.old
        ++ (worth_in (S.meaning source.now) (entry_of same_value_key table.now)).looks) }
{
    let begins = begins(alloc, source.nodes())?;
    let mut pending = Vec::new(alloc);
    let end = source.nodes().len() as u32;
    turn_all(alloc, source, &begins, table, looks, &mut pending, end)
}
