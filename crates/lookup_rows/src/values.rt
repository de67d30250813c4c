ghost use Rattle.std.specs.Prelude.{◌≡◌};
ghost use Rattle.link_model.specs.Outside.{library_of};
ghost use Rattle.link_walk.specs.Calls.{files_of, read_by};

use crate::places::element_at;
use demand_core::{Counted, Steps};
use element_store::ElementNo;
use link_model::View;
use linker_base::NoMemory;
use std::alloc::Global;
use value_asking::Meanings;
use value_features::is_feature;
use value_model::{Spot, Value, ValueAnswer, ValueFault, ValueKey};
use value_rules::value_of;

/// Which feature is meant where no target is asked for: the feature itself. For a name that leads through a
/// target there is no answer here, which is told as want of memory.
#[derive(Clone, Copy)]
struct WithoutTargets<'a> {
    view: View<'a>,
}

impl<'a> Meanings for WithoutTargets<'a> {
    ghost links = { λ m. read_by m.view };

    ghost library = { λ m. library_of (files_of m.view) };

    fn meant(
        &self,
        _alloc: Global,
        feature: ElementNo,
        target: Option<ElementNo>,
    ) -> Result<Option<ElementNo>, NoMemory> {
        match target {
            None => Ok(Some(feature)),
            Some(_) => Err(NoMemory),
        }
    }
}

/// Writes a value.
fn write_value(rt: &HostRuntime, value: &Value) -> Option<()> {
    match value {
        Value::Integer(n) => println!(rt; "integer {n}").ok(),
        Value::Boolean(b) => println!(rt; "boolean {b}").ok(),
        Value::Text(text) => println!(rt; "text of {}", text.bytes().len()).ok(),
        Value::Enumerated(e) => println!(rt; "enumerated {}:{}", e.file.0, e.index).ok(),
        Value::Null => println!(rt; "null").ok(),
    }
}

/// Writes a refusal that names an element.
fn write_of(rt: &HostRuntime, word: &str, e: ElementNo) -> Option<()> {
    println!(rt; "{word} {}:{}", e.file.0, e.index).ok()
}

/// Writes a refusal at a spot.
fn write_at(rt: &HostRuntime, word: &str, spot: Spot) -> Option<()> {
    println!(rt; "{word} {}:{}", spot.file.0, spot.at).ok()
}

/// Writes why there is no value.
fn write_fault(rt: &HostRuntime, fault: ValueFault) -> Option<()> {
    match fault {
        ValueFault::Unbound(e) => write_of(rt, "unbound", e),
        ValueFault::Circular(e) => write_of(rt, "circular", e),
        ValueFault::Several(e) => write_of(rt, "several", e),
        ValueFault::WrongKind(spot) => write_at(rt, "wrongkind", spot),
        ValueFault::Overflow(spot) => write_at(rt, "overflow", spot),
        ValueFault::ZeroDivisor(spot) => write_at(rt, "zerodivisor", spot),
        ValueFault::Inexact(spot) => write_at(rt, "inexact", spot),
        ValueFault::Unlinked(spot) => write_at(rt, "unlinked", spot),
    }
}

/// Answers `value ELEMENT`: what a feature is worth without a target, over the links that are told.
pub(crate) fn ask_value(rt: &HostRuntime, view: &View, word: &str) -> Option<()> {
    let feature = element_at(view.models, word)?;
    if !is_feature(view, feature) {
        return None;
    }
    let key = ValueKey {
        feature,
        target: None,
    };
    let meanings = WithoutTargets { view: *view };
    let mut steps = Steps::new(Counted::new());
    match value_of(rt.alloc(), &meanings, view, key, &mut steps).ok()? {
        ValueAnswer::Value(value) => write_value(rt, &value),
        ValueAnswer::Refused(fault) => write_fault(rt, fault),
    }
}
