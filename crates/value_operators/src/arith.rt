ghost use Rattle.std.specs.Prelude.{◌≡◌};
ghost use Rattle.value_model.specs.Operators.{truth, of_integers};
ghost use Rattle.element_store.specs.declared.expression.BinaryOp.TheVariants as op;

use element_store::BinaryOp;
use value_model::{Spot, Value, ValueAnswer, ValueFault};

/// A truth, as an answer.
fn truth(b: bool) -> ValueAnswer
    ensures { result ≡ truth b }
{
    ValueAnswer::Value(Value::Boolean(b))
}

/// The sum.
fn add(at: Spot, a: i64, b: i64) -> ValueAnswer
    ensures { result ≡ of_integers op.Add at a b }
{
    match a.checked_add(b) {
        Some(n) => ValueAnswer::Value(Value::Integer(n)),
        None => ValueAnswer::Refused(ValueFault::Overflow(at)),
    }
}

/// The difference.
fn subtract(at: Spot, a: i64, b: i64) -> ValueAnswer
    ensures { result ≡ of_integers op.Subtract at a b }
{
    match a.checked_sub(b) {
        Some(n) => ValueAnswer::Value(Value::Integer(n)),
        None => ValueAnswer::Refused(ValueFault::Overflow(at)),
    }
}

/// The product.
fn multiply(at: Spot, a: i64, b: i64) -> ValueAnswer
    ensures { result ≡ of_integers op.Multiply at a b }
{
    match a.checked_mul(b) {
        Some(n) => ValueAnswer::Value(Value::Integer(n)),
        None => ValueAnswer::Refused(ValueFault::Overflow(at)),
    }
}

/// The quotient, where it is exact.
fn divide(at: Spot, a: i64, b: i64) -> ValueAnswer
    ensures { result ≡ of_integers op.Divide at a b }
{
    if b == 0 {
        return ValueAnswer::Refused(ValueFault::ZeroDivisor(at));
    }
    if a.wrapping_rem(b) != 0 {
        return ValueAnswer::Refused(ValueFault::Inexact(at));
    }
    match a.checked_div(b) {
        Some(n) => ValueAnswer::Value(Value::Integer(n)),
        None => ValueAnswer::Refused(ValueFault::Overflow(at)),
    }
}

/// The remainder, with the sign of the left operand.
fn remainder(at: Spot, a: i64, b: i64) -> ValueAnswer
    ensures { result ≡ of_integers op.Remainder at a b }
{
    if b == 0 {
        return ValueAnswer::Refused(ValueFault::ZeroDivisor(at));
    }
    ValueAnswer::Value(Value::Integer(a.wrapping_rem(b)))
}

/// An operator of two integers.
pub(crate) fn of_integers(op: BinaryOp, at: Spot, a: i64, b: i64) -> ValueAnswer
    ensures { result ≡ of_integers op at a b }
{
    match op {
        BinaryOp::Less => truth(a < b),
        BinaryOp::Greater => truth(a > b),
        BinaryOp::AtMost => truth(a <= b),
        BinaryOp::AtLeast => truth(a >= b),
        BinaryOp::Add => add(at, a, b),
        BinaryOp::Subtract => subtract(at, a, b),
        BinaryOp::Multiply => multiply(at, a, b),
        BinaryOp::Divide => divide(at, a, b),
        BinaryOp::Remainder => remainder(at, a, b),
        _ => ValueAnswer::Refused(ValueFault::WrongKind(at)),
    }
}
