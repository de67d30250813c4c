ghost use Rattle.std.specs.Prelude.{◌≡◌, IfOk};

use element_store::Text;
use linker_base::NoMemory;
use std::alloc::Global;
use value_model::{Value, ValueAnswer};

/// The same text once more. `NoMemory` is want of memory alone.
pub fn copy_text(alloc: Global, text: &Text) -> Result<Text, NoMemory>
    ensures { IfOk result (λ copy. copy ≡ text.now) }
{
    let mut bytes = Vec::new(alloc);
    bytes.extend_from_slice(text.bytes())?;
    Ok(Text::of(bytes))
}

/// The same value once more. `NoMemory` is want of memory alone.
fn copy_value(alloc: Global, value: &Value) -> Result<Value, NoMemory>
    ensures { IfOk result (λ copy. copy ≡ value.now) }
{
    match value {
        Value::Integer(n) => Ok(Value::Integer(*n)),
        Value::Boolean(b) => Ok(Value::Boolean(*b)),
        Value::Text(text) => {
            let copy = copy_text(alloc, text)?;
            Ok(Value::Text(copy))
        }
        Value::Enumerated(element) => Ok(Value::Enumerated(*element)),
        Value::Null => Ok(Value::Null),
    }
}

/// The same answer once more. `NoMemory` is want of memory alone.
pub fn copy_answer(alloc: Global, answer: &ValueAnswer) -> Result<ValueAnswer, NoMemory>
    ensures { IfOk result (λ copy. copy ≡ answer.now) }
{
    match answer {
        ValueAnswer::Refused(fault) => Ok(ValueAnswer::Refused(*fault)),
        ValueAnswer::Value(value) => {
            let copy = copy_value(alloc, value)?;
            Ok(ValueAnswer::Value(copy))
        }
    }
}
