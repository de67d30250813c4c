ghost use Rattle.std.specs.Prelude.{◌≡◌, ◌++◌, IfOk};
ghost use Rattle.value_model.specs.Operators.{text, of_truths, of_kinds, same, of_two, of_one, of_first};

use crate::arith::of_integers;
use element_store::{BinaryOp, Text, UnaryOp};
use linker_base::NoMemory;
use std::alloc::Global;
use value_model::{Spot, Value, ValueAnswer, ValueFault};

/// How many bytes a joined text has at most.
const MOST_BYTES: usize = 65536;

/// Two texts as one. It is built once, and only where it isn't too long.
fn join(alloc: Global, at: Spot, left: &Text, right: &Text) -> Result<ValueAnswer, NoMemory>
    ensures { IfOk result (λ answer. answer ≡ text at (left.now ++ right.now)) }
{
    let first = left.bytes();
    let second = right.bytes();
    if first.len() > MOST_BYTES || second.len() > MOST_BYTES - first.len() {
        return Ok(ValueAnswer::Refused(ValueFault::Overflow(at)));
    }
    let mut bytes = Vec::with_capacity(alloc, first.len() + second.len())?;
    bytes.extend_from_slice(first)?;
    bytes.extend_from_slice(second)?;
    Ok(ValueAnswer::Value(Value::Text(Text::of(bytes))))
}

/// An operator of two Booleans.
fn of_truths(op: BinaryOp, at: Spot, a: bool, b: bool) -> ValueAnswer
    ensures { result ≡ of_truths op at a b }
{
    match op {
        BinaryOp::Implies => ValueAnswer::Value(Value::Boolean(!a || b)),
        BinaryOp::Or | BinaryOp::Bar => ValueAnswer::Value(Value::Boolean(a || b)),
        BinaryOp::Xor => ValueAnswer::Value(Value::Boolean(a != b)),
        BinaryOp::And | BinaryOp::Amp => ValueAnswer::Value(Value::Boolean(a && b)),
        _ => ValueAnswer::Refused(ValueFault::WrongKind(at)),
    }
}

/// Whether two values are the same. Values of different kinds aren't.
fn same(left: &Value, right: &Value) -> bool
    ensures { result ≡ same left.now right.now }
{
    match (left, right) {
        (Value::Integer(a), Value::Integer(b)) => *a == *b,
        (Value::Boolean(a), Value::Boolean(b)) => *a == *b,
        (Value::Text(x), Value::Text(y)) => x.bytes() == y.bytes(),
        (Value::Enumerated(e), Value::Enumerated(f)) => *e == *f,
        (Value::Null, Value::Null) => true,
        _ => false,
    }
}

/// An operator of two values by their kinds.
fn of_kinds(
    alloc: Global,
    op: BinaryOp,
    at: Spot,
    left: &Value,
    right: &Value,
) -> Result<ValueAnswer, NoMemory>
    ensures { IfOk result (λ answer. answer ≡ of_kinds op at left.now right.now) }
{
    match (left, right) {
        (Value::Integer(a), Value::Integer(b)) => Ok(of_integers(op, at, *a, *b)),
        (Value::Boolean(a), Value::Boolean(b)) => Ok(of_truths(op, at, *a, *b)),
        (Value::Text(x), Value::Text(y)) => match op {
            BinaryOp::Add => join(alloc, at, x, y),
            _ => Ok(ValueAnswer::Refused(ValueFault::WrongKind(at))),
        },
        _ => Ok(ValueAnswer::Refused(ValueFault::WrongKind(at))),
    }
}

/// An operator of two values that are both read, at the spot that a refusal names: `WrongKind` for
/// operands of other kinds, `ZeroDivisor` and `Inexact` of `/` and `%`, `Overflow` beyond 64 bits or
/// of a joined text above 65,536 bytes. `NoMemory` is want of memory alone.
pub fn of_two(
    alloc: Global,
    op: BinaryOp,
    at: Spot,
    left: &Value,
    right: &Value,
) -> Result<ValueAnswer, NoMemory>
    ensures { IfOk result (λ answer. answer ≡ of_two op at left.now right.now) }
{
    match op {
        BinaryOp::Equal => Ok(ValueAnswer::Value(Value::Boolean(same(left, right)))),
        BinaryOp::NotEqual => Ok(ValueAnswer::Value(Value::Boolean(!same(left, right)))),
        _ => of_kinds(alloc, op, at, left, right),
    }
}

/// An operator of one value, at the spot that a refusal names: `WrongKind` for an operand of another
/// kind, `Overflow` beyond 64 bits.
pub fn of_one(op: UnaryOp, at: Spot, value: &Value) -> ValueAnswer
    ensures { result ≡ of_one op at value.now }
{
    match (op, value) {
        (UnaryOp::Not, Value::Boolean(b)) => ValueAnswer::Value(Value::Boolean(!*b)),
        (UnaryOp::Plus, Value::Integer(n)) => ValueAnswer::Value(Value::Integer(*n)),
        (UnaryOp::Minus, Value::Integer(n)) => match n.checked_neg() {
            Some(n) => ValueAnswer::Value(Value::Integer(n)),
            None => ValueAnswer::Refused(ValueFault::Overflow(at)),
        },
        _ => ValueAnswer::Refused(ValueFault::WrongKind(at)),
    }
}

/// What `and`, `or` and `implies` give by their first operand alone; `WrongKind` where that is no
/// Boolean. Nothing where the second is needed, and for every other operator.
pub fn of_first(op: BinaryOp, at: Spot, value: &Value) -> Option<ValueAnswer>
    ensures { result ≡ of_first op at value.now }
{
    match op {
        BinaryOp::And => match value {
            Value::Boolean(true) => None,
            Value::Boolean(false) => Some(ValueAnswer::Value(Value::Boolean(false))),
            _ => Some(ValueAnswer::Refused(ValueFault::WrongKind(at))),
        },
        BinaryOp::Or => match value {
            Value::Boolean(true) => Some(ValueAnswer::Value(Value::Boolean(true))),
            Value::Boolean(false) => None,
            _ => Some(ValueAnswer::Refused(ValueFault::WrongKind(at))),
        },
        BinaryOp::Implies => match value {
            Value::Boolean(true) => None,
            Value::Boolean(false) => Some(ValueAnswer::Value(Value::Boolean(true))),
            _ => Some(ValueAnswer::Refused(ValueFault::WrongKind(at))),
        },
        _ => None,
    }
}
