//! The rules of values over a list of keys, and the value of a key by rounds over them.
//!
//! `value_model` defines both (specs/Valuing). Which feature is meant in a target is told by
//! `Meanings`.
#![tactic(auto)]

mod keys;
mod reach;
mod rules;
mod values;

pub use keys::ValueKeys;
pub use reach::reachable;
pub use rules::{ValueRules, value_over};
pub use values::value_of;
