ghost use Rattle.std.specs.Prelude.{◌≡◌, ◌++◌, ◌∷◌, [], IfOk};
ghost use Rattle.expr_reading.specs.Turns.{ArePending, HasFollowed, turn_of, turn_of_if};

use crate::source::Source;
use crate::turns::{Pending, Turn};
use demand_core::Step;
use linker_base::NoMemory;
use std::alloc::Global;
use value_model::{Spot, Value, ValueAnswer, ValueFault};
use value_operators::{of_first, of_one, of_two};

/// The turn after an answer.
pub(crate) fn turn_of(answer: ValueAnswer) -> Turn
    ensures { result ≡ turn_of answer }
{
    match answer {
        ValueAnswer::Value(value) => Turn::Have(value),
        ValueAnswer::Refused(fault) => Turn::Ended(Step::Done(ValueAnswer::Refused(fault))),
    }
}

/// The turn after a condition.
fn turn_of_if(at: Spot, second: u32, last: u32, value: &Value) -> Turn
    ensures { result ≡ turn_of_if at second last value.now }
{
    match value {
        Value::Boolean(true) => Turn::Read(second),
        Value::Boolean(false) => Turn::Read(last),
        _ => Turn::Ended(Step::Done(ValueAnswer::Refused(ValueFault::WrongKind(at)))),
    }
}

/// What follows a value that what is pending last waits for.
fn follow<S: Source>(
    alloc: Global,
    source: &S,
    pending: &mut Vec<Pending>,
    last: Pending,
    value: Value,
) -> Result<Turn, NoMemory>
    requires valid { S.valid source.now }
    requires pending { ArePending (S.meaning source.now) (pending.old.items ++ last ∷ []) }
    ensures { IfOk result (HasFollowed (S.meaning source.now) (pending.old.items ++ last ∷ [])
        value pending.new.items) }
{
    match last {
        Pending::Operand(number, op) => Ok(turn_of(of_one(op, source.spot(number), &value))),
        Pending::First(number, op) => match of_first(op, source.spot(number), &value) {
            Some(answer) => Ok(turn_of(answer)),
            None => {
                pending.push(Pending::Second(number, op, value))?;
                Ok(Turn::Read(number))
            }
        },
        Pending::Second(number, op, first) => {
            let answer = of_two(alloc, op, source.spot(number), &first, &value)?;
            Ok(turn_of(answer))
        }
        Pending::Condition(number, second) => {
            Ok(turn_of_if(source.spot(number), second, number, &value))
        }
    }
}

/// What follows a value.
pub(crate) fn have<S: Source>(
    alloc: Global,
    source: &S,
    pending: &mut Vec<Pending>,
    value: Value,
) -> Result<Turn, NoMemory>
    requires valid { S.valid source.now }
    requires pending { ArePending (S.meaning source.now) pending.old.items }
    ensures { IfOk result
        (HasFollowed (S.meaning source.now) pending.old.items value pending.new.items) }
{
    match pending.pop() {
        None => Ok(Turn::Ended(Step::Done(ValueAnswer::Value(value)))),
        Some(last) => follow(alloc, source, pending, last, value),
    }
}
