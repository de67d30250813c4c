//! What the expressions of a project are worth, by its models and its links, of which no more come
//! (KerML 8.3.4.8, Expressions).
//!
//! `value_model` defines it; `value_rules` finds it on demand, and `value_meanings` tells which
//! feature is meant in a target.
#![tactic(auto)]

mod calls;
mod rules;

pub use calls::{reachable, value_of};
pub use rules::ValueRules;
pub use value_model::{NoFact, Spot, Value, ValueAnswer, ValueFault, ValueKey};
pub use value_rules::ValueKeys;
